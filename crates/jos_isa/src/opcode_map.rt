//! The opcode map as code: what stands behind each byte with which an instruction can begin. It is read for the
//! least length and then for the instruction, and inlined so that each reading makes only what it needs.

ghost use Rattle.std.specs.Prelude.{◌≡◌, None};
ghost use Rattle.jos_isa.specs.OpcodeMap.{from_00, from_40, from_70, from_90, from_a0, from_b0, from_d0, from_f0};
ghost use Rattle.jos_isa.specs.OpcodeMap.{format_at, opcode_entry};
ghost use Rattle.jos_isa.specs.OpcodeMap.{two_byte_at, operand_size_at, repne_at, rep_at, format_behind};
ghost use Rattle.jos_isa.specs.OpcodeMap.{one_of, is_shift, shift_choice, only_first};
ghost use Rattle.jos_isa.specs.OpcodeMap.{unary_f6, unary_f7, step_fe, step_ff, of_group, choice_of};

use crate::instruction::{Repeat, Row};

/// The immediate that ends an instruction.
#[derive(Clone, Copy)]
pub(crate) enum Immediate {
    /// None stands there.
    Nothing,
    Imm8,
    /// A byte that is extended with its sign.
    SignedImm8,
    Imm16,
    Imm32,
}

/// A group of instructions among which the reg field of a ModRM byte chooses, by its opcode.
#[derive(Clone, Copy)]
pub(crate) enum OpcodeGroup {
    Alu80,
    Alu81,
    Alu83,
    Pop8f,
    ShiftC0,
    ShiftC1,
    ShiftD0,
    ShiftD1,
    ShiftD2,
    ShiftD3,
    MovC6,
    MovC7,
    UnaryF6,
    UnaryF7,
    StepFe,
    StepFf,
}

/// What the fields of a ModRM byte say.
#[derive(Clone, Copy)]
pub(crate) enum Fields {
    /// reg is a register, and the operand is one or is in memory.
    Register(Row, Immediate),
    /// reg is a register, and the operand is in memory.
    MemoryOnly(Row),
    /// reg says nothing.
    NoRegister(Row),
    /// reg chooses the instruction.
    Group(OpcodeGroup),
}

/// What stands behind an opcode.
#[derive(Clone, Copy)]
pub(crate) enum Format {
    /// An immediate alone. The number is the register that the opcode names, or 0.
    Plain(Row, Repeat, u8, Immediate),
    /// A ModRM byte, its operand and an immediate.
    ModRm(Fields),
}

/// A map of second bytes, by the first byte: 0F, 66, F2 and F3.
#[derive(Clone, Copy)]
pub(crate) enum Map {
    TwoByte,
    OperandSize,
    Repne,
    Rep,
}

/// What a first byte begins.
#[derive(Clone, Copy)]
pub(crate) enum OpcodeEntry {
    /// No instruction.
    Unassigned,
    /// One whose opcode it is.
    Complete(Format),
    /// One whose opcode is this byte and one of a map.
    Behind(Map),
}

/// What a ModRM byte chooses: the instruction, its register, or 0, and its immediate.
#[derive(Clone, Copy)]
pub(crate) struct Choice {
    pub row: Row,
    pub reg: u8,
    pub immediate: Immediate,
}

/// 00 to 3F: eight operations, each in six forms.
#[tactic(auto, unfolding(crate::specs::OpcodeMap::from_00))]
#[inline(always)]
fn from_00(opcode: u8) -> Option<Format>
    ensures { result ≡ from_00 opcode }
{
    match opcode % 8 {
        0 => Some(Format::ModRm(Fields::Register(Row::AluRm8R8(opcode / 8), Immediate::Nothing))),
        1 => Some(Format::ModRm(Fields::Register(Row::AluRm32R32(opcode / 8), Immediate::Nothing))),
        2 => Some(Format::ModRm(Fields::Register(Row::AluR8Rm8(opcode / 8), Immediate::Nothing))),
        3 => Some(Format::ModRm(Fields::Register(Row::AluR32Rm32(opcode / 8), Immediate::Nothing))),
        4 => Some(Format::Plain(Row::AluAlImm8(opcode / 8), Repeat::Once, 0, Immediate::Imm8)),
        5 => Some(Format::Plain(
            Row::AluEaxImm32(opcode / 8),
            Repeat::Once,
            0,
            Immediate::Imm32,
        )),
        _ => None,
    }
}

/// 40 to 6F.
#[tactic(auto, unfolding(crate::specs::OpcodeMap::from_40))]
#[inline(always)]
fn from_40(opcode: u8) -> Option<Format>
    ensures { result ≡ from_40 opcode }
{
    match opcode {
        0x40..=0x47 => Some(Format::Plain(
            Row::IncR32,
            Repeat::Once,
            opcode - 0x40,
            Immediate::Nothing,
        )),
        0x48..=0x4f => Some(Format::Plain(
            Row::DecR32,
            Repeat::Once,
            opcode - 0x48,
            Immediate::Nothing,
        )),
        0x50..=0x57 => Some(Format::Plain(
            Row::PushR32,
            Repeat::Once,
            opcode - 0x50,
            Immediate::Nothing,
        )),
        0x58..=0x5f => Some(Format::Plain(
            Row::PopR32,
            Repeat::Once,
            opcode - 0x58,
            Immediate::Nothing,
        )),
        0x60 => Some(Format::Plain(Row::Pusha, Repeat::Once, 0, Immediate::Nothing)),
        0x61 => Some(Format::Plain(Row::Popa, Repeat::Once, 0, Immediate::Nothing)),
        0x68 => Some(Format::Plain(Row::PushImm32, Repeat::Once, 0, Immediate::Imm32)),
        0x69 => Some(Format::ModRm(Fields::Register(Row::ImulR32Rm32Imm32, Immediate::Imm32))),
        0x6a => Some(Format::Plain(Row::PushImm8, Repeat::Once, 0, Immediate::SignedImm8)),
        0x6b => Some(Format::ModRm(Fields::Register(Row::ImulR32Rm32Imm8, Immediate::SignedImm8))),
        _ => None,
    }
}

/// 70 to 8F.
#[tactic(auto, unfolding(crate::specs::OpcodeMap::from_70))]
#[inline(always)]
fn from_70(opcode: u8) -> Option<Format>
    ensures { result ≡ from_70 opcode }
{
    match opcode {
        0x70..=0x7f => Some(Format::Plain(
            Row::JccRel8(opcode - 0x70),
            Repeat::Once,
            0,
            Immediate::SignedImm8,
        )),
        0x80 => Some(Format::ModRm(Fields::Group(OpcodeGroup::Alu80))),
        0x81 => Some(Format::ModRm(Fields::Group(OpcodeGroup::Alu81))),
        0x83 => Some(Format::ModRm(Fields::Group(OpcodeGroup::Alu83))),
        0x84 => Some(Format::ModRm(Fields::Register(Row::TestRm8R8, Immediate::Nothing))),
        0x85 => Some(Format::ModRm(Fields::Register(Row::TestRm32R32, Immediate::Nothing))),
        0x86 => Some(Format::ModRm(Fields::Register(Row::XchgRm8R8, Immediate::Nothing))),
        0x87 => Some(Format::ModRm(Fields::Register(Row::XchgRm32R32, Immediate::Nothing))),
        0x88 => Some(Format::ModRm(Fields::Register(Row::MovRm8R8, Immediate::Nothing))),
        0x89 => Some(Format::ModRm(Fields::Register(Row::MovRm32R32, Immediate::Nothing))),
        0x8a => Some(Format::ModRm(Fields::Register(Row::MovR8Rm8, Immediate::Nothing))),
        0x8b => Some(Format::ModRm(Fields::Register(Row::MovR32Rm32, Immediate::Nothing))),
        0x8d => Some(Format::ModRm(Fields::MemoryOnly(Row::LeaR32Mem))),
        0x8f => Some(Format::ModRm(Fields::Group(OpcodeGroup::Pop8f))),
        _ => None,
    }
}

/// 90 to 9F.
#[tactic(auto, unfolding(crate::specs::OpcodeMap::from_90))]
#[inline(always)]
fn from_90(opcode: u8) -> Option<Format>
    ensures { result ≡ from_90 opcode }
{
    match opcode {
        0x90 => Some(Format::Plain(Row::Nop, Repeat::Once, 0, Immediate::Nothing)),
        0x91..=0x97 => Some(Format::Plain(
            Row::XchgEaxR32,
            Repeat::Once,
            opcode - 0x90,
            Immediate::Nothing,
        )),
        0x98 => Some(Format::Plain(Row::Cwde, Repeat::Once, 0, Immediate::Nothing)),
        0x99 => Some(Format::Plain(Row::Cdq, Repeat::Once, 0, Immediate::Nothing)),
        0x9c => Some(Format::Plain(Row::Pushf, Repeat::Once, 0, Immediate::Nothing)),
        0x9d => Some(Format::Plain(Row::Popf, Repeat::Once, 0, Immediate::Nothing)),
        _ => None,
    }
}

/// A0 to AF.
#[tactic(auto, unfolding(crate::specs::OpcodeMap::from_a0))]
#[inline(always)]
fn from_a0(opcode: u8) -> Option<Format>
    ensures { result ≡ from_a0 opcode }
{
    match opcode {
        0xa0 => Some(Format::Plain(Row::MovAlAddr, Repeat::Once, 0, Immediate::Imm32)),
        0xa1 => Some(Format::Plain(Row::MovEaxAddr, Repeat::Once, 0, Immediate::Imm32)),
        0xa2 => Some(Format::Plain(Row::MovAddrAl, Repeat::Once, 0, Immediate::Imm32)),
        0xa3 => Some(Format::Plain(Row::MovAddrEax, Repeat::Once, 0, Immediate::Imm32)),
        0xa4 => Some(Format::Plain(Row::Movsb, Repeat::Once, 0, Immediate::Nothing)),
        0xa5 => Some(Format::Plain(Row::Movsd, Repeat::Once, 0, Immediate::Nothing)),
        0xa6 => Some(Format::Plain(Row::Cmpsb, Repeat::Once, 0, Immediate::Nothing)),
        0xa7 => Some(Format::Plain(Row::Cmpsd, Repeat::Once, 0, Immediate::Nothing)),
        0xa8 => Some(Format::Plain(Row::TestAlImm8, Repeat::Once, 0, Immediate::Imm8)),
        0xa9 => Some(Format::Plain(Row::TestEaxImm32, Repeat::Once, 0, Immediate::Imm32)),
        0xaa => Some(Format::Plain(Row::Stosb, Repeat::Once, 0, Immediate::Nothing)),
        0xab => Some(Format::Plain(Row::Stosd, Repeat::Once, 0, Immediate::Nothing)),
        0xac => Some(Format::Plain(Row::Lodsb, Repeat::Once, 0, Immediate::Nothing)),
        0xad => Some(Format::Plain(Row::Lodsd, Repeat::Once, 0, Immediate::Nothing)),
        0xae => Some(Format::Plain(Row::Scasb, Repeat::Once, 0, Immediate::Nothing)),
        0xaf => Some(Format::Plain(Row::Scasd, Repeat::Once, 0, Immediate::Nothing)),
        _ => None,
    }
}

/// B0 to CF.
#[tactic(auto, unfolding(crate::specs::OpcodeMap::from_b0))]
#[inline(always)]
fn from_b0(opcode: u8) -> Option<Format>
    ensures { result ≡ from_b0 opcode }
{
    match opcode {
        0xb0..=0xb7 => Some(Format::Plain(
            Row::MovR8Imm8,
            Repeat::Once,
            opcode - 0xb0,
            Immediate::Imm8,
        )),
        0xb8..=0xbf => Some(Format::Plain(
            Row::MovR32Imm32,
            Repeat::Once,
            opcode - 0xb8,
            Immediate::Imm32,
        )),
        0xc0 => Some(Format::ModRm(Fields::Group(OpcodeGroup::ShiftC0))),
        0xc1 => Some(Format::ModRm(Fields::Group(OpcodeGroup::ShiftC1))),
        0xc2 => Some(Format::Plain(Row::RetImm16, Repeat::Once, 0, Immediate::Imm16)),
        0xc3 => Some(Format::Plain(Row::Ret, Repeat::Once, 0, Immediate::Nothing)),
        0xc6 => Some(Format::ModRm(Fields::Group(OpcodeGroup::MovC6))),
        0xc7 => Some(Format::ModRm(Fields::Group(OpcodeGroup::MovC7))),
        0xc9 => Some(Format::Plain(Row::Leave, Repeat::Once, 0, Immediate::Nothing)),
        0xcc => Some(Format::Plain(Row::Int3, Repeat::Once, 0, Immediate::Nothing)),
        0xcd => Some(Format::Plain(Row::IntImm8, Repeat::Once, 0, Immediate::Imm8)),
        _ => None,
    }
}

/// D0 to EF.
#[tactic(auto, unfolding(crate::specs::OpcodeMap::from_d0))]
#[inline(always)]
fn from_d0(opcode: u8) -> Option<Format>
    ensures { result ≡ from_d0 opcode }
{
    match opcode {
        0xd0 => Some(Format::ModRm(Fields::Group(OpcodeGroup::ShiftD0))),
        0xd1 => Some(Format::ModRm(Fields::Group(OpcodeGroup::ShiftD1))),
        0xd2 => Some(Format::ModRm(Fields::Group(OpcodeGroup::ShiftD2))),
        0xd3 => Some(Format::ModRm(Fields::Group(OpcodeGroup::ShiftD3))),
        0xe4 => Some(Format::Plain(Row::InAlImm8, Repeat::Once, 0, Immediate::Imm8)),
        0xe5 => Some(Format::Plain(Row::InEaxImm8, Repeat::Once, 0, Immediate::Imm8)),
        0xe6 => Some(Format::Plain(Row::OutImm8Al, Repeat::Once, 0, Immediate::Imm8)),
        0xe7 => Some(Format::Plain(Row::OutImm8Eax, Repeat::Once, 0, Immediate::Imm8)),
        0xe8 => Some(Format::Plain(Row::CallRel32, Repeat::Once, 0, Immediate::Imm32)),
        0xe9 => Some(Format::Plain(Row::JmpRel32, Repeat::Once, 0, Immediate::Imm32)),
        0xeb => Some(Format::Plain(Row::JmpRel8, Repeat::Once, 0, Immediate::SignedImm8)),
        0xec => Some(Format::Plain(Row::InAlDx, Repeat::Once, 0, Immediate::Nothing)),
        0xed => Some(Format::Plain(Row::InEaxDx, Repeat::Once, 0, Immediate::Nothing)),
        0xee => Some(Format::Plain(Row::OutDxAl, Repeat::Once, 0, Immediate::Nothing)),
        0xef => Some(Format::Plain(Row::OutDxEax, Repeat::Once, 0, Immediate::Nothing)),
        _ => None,
    }
}

/// F0 to FF.
#[tactic(auto, unfolding(crate::specs::OpcodeMap::from_f0))]
#[inline(always)]
fn from_f0(opcode: u8) -> Option<Format>
    ensures { result ≡ from_f0 opcode }
{
    match opcode {
        0xf4 => Some(Format::Plain(Row::Hlt, Repeat::Once, 0, Immediate::Nothing)),
        0xf5 => Some(Format::Plain(Row::Cmc, Repeat::Once, 0, Immediate::Nothing)),
        0xf6 => Some(Format::ModRm(Fields::Group(OpcodeGroup::UnaryF6))),
        0xf7 => Some(Format::ModRm(Fields::Group(OpcodeGroup::UnaryF7))),
        0xf8 => Some(Format::Plain(Row::Clc, Repeat::Once, 0, Immediate::Nothing)),
        0xf9 => Some(Format::Plain(Row::Stc, Repeat::Once, 0, Immediate::Nothing)),
        0xfa => Some(Format::Plain(Row::Cli, Repeat::Once, 0, Immediate::Nothing)),
        0xfb => Some(Format::Plain(Row::Sti, Repeat::Once, 0, Immediate::Nothing)),
        0xfc => Some(Format::Plain(Row::Cld, Repeat::Once, 0, Immediate::Nothing)),
        0xfd => Some(Format::Plain(Row::Std, Repeat::Once, 0, Immediate::Nothing)),
        0xfe => Some(Format::ModRm(Fields::Group(OpcodeGroup::StepFe))),
        0xff => Some(Format::ModRm(Fields::Group(OpcodeGroup::StepFf))),
        _ => None,
    }
}

/// An instruction whose opcode is one byte.
#[tactic(auto, unfolding(crate::specs::OpcodeMap::format_at))]
#[inline(always)]
fn format_at(opcode: u8) -> Option<Format>
    ensures { result ≡ format_at opcode }
{
    match opcode {
        0x00..=0x3f => from_00(opcode),
        0x40..=0x6f => from_40(opcode),
        0x70..=0x8f => from_70(opcode),
        0x90..=0x9f => from_90(opcode),
        0xa0..=0xaf => from_a0(opcode),
        0xb0..=0xcf => from_b0(opcode),
        0xd0..=0xef => from_d0(opcode),
        _ => from_f0(opcode),
    }
}

/// What the first byte begins.
#[tactic(auto, unfolding(crate::specs::OpcodeMap::opcode_entry))]
#[inline(always)]
pub(crate) fn opcode_entry(byte: u8) -> OpcodeEntry
    ensures { result ≡ opcode_entry byte }
{
    match byte {
        0x0f => OpcodeEntry::Behind(Map::TwoByte),
        0x66 => OpcodeEntry::Behind(Map::OperandSize),
        0xf2 => OpcodeEntry::Behind(Map::Repne),
        0xf3 => OpcodeEntry::Behind(Map::Rep),
        _ => match format_at(byte) {
            Some(format) => OpcodeEntry::Complete(format),
            None => OpcodeEntry::Unassigned
        },
    }
}

/// Behind 0F.
#[tactic(auto, unfolding(crate::specs::OpcodeMap::two_byte_at))]
fn two_byte_at(opcode: u8) -> Option<Format>
    ensures { result ≡ two_byte_at opcode }
{
    match opcode {
        0x80..=0x8f => Some(Format::Plain(
            Row::JccRel32(opcode - 0x80),
            Repeat::Once,
            0,
            Immediate::Imm32,
        )),
        0x90..=0x9f => Some(Format::ModRm(Fields::NoRegister(Row::SetccRm8(opcode - 0x90)))),
        0xa4 => Some(Format::ModRm(Fields::Register(Row::ShldRm32R32Imm8, Immediate::Imm8))),
        0xa5 => Some(Format::ModRm(Fields::Register(Row::ShldRm32R32Cl, Immediate::Nothing))),
        0xac => Some(Format::ModRm(Fields::Register(Row::ShrdRm32R32Imm8, Immediate::Imm8))),
        0xad => Some(Format::ModRm(Fields::Register(Row::ShrdRm32R32Cl, Immediate::Nothing))),
        0xaf => Some(Format::ModRm(Fields::Register(Row::ImulR32Rm32, Immediate::Nothing))),
        0xb6 => Some(Format::ModRm(Fields::Register(Row::MovzxR32Rm8, Immediate::Nothing))),
        0xb7 => Some(Format::ModRm(Fields::Register(Row::MovzxR32Rm16, Immediate::Nothing))),
        0xbe => Some(Format::ModRm(Fields::Register(Row::MovsxR32Rm8, Immediate::Nothing))),
        0xbf => Some(Format::ModRm(Fields::Register(Row::MovsxR32Rm16, Immediate::Nothing))),
        _ => None,
    }
}

/// Behind 66.
#[tactic(auto, unfolding(crate::specs::OpcodeMap::operand_size_at))]
fn operand_size_at(opcode: u8) -> Option<Format>
    ensures { result ≡ operand_size_at opcode }
{
    match opcode {
        0x90 => Some(Format::Plain(Row::Nop, Repeat::Once, 0, Immediate::Nothing)),
        _ => None,
    }
}

/// Behind F2.
#[tactic(auto, unfolding(crate::specs::OpcodeMap::repne_at))]
fn repne_at(opcode: u8) -> Option<Format>
    ensures { result ≡ repne_at opcode }
{
    match opcode {
        0xa6 => Some(Format::Plain(Row::Cmpsb, Repeat::WhileNot, 0, Immediate::Nothing)),
        0xa7 => Some(Format::Plain(Row::Cmpsd, Repeat::WhileNot, 0, Immediate::Nothing)),
        0xae => Some(Format::Plain(Row::Scasb, Repeat::WhileNot, 0, Immediate::Nothing)),
        0xaf => Some(Format::Plain(Row::Scasd, Repeat::WhileNot, 0, Immediate::Nothing)),
        _ => None,
    }
}

/// Behind F3.
#[tactic(auto, unfolding(crate::specs::OpcodeMap::rep_at))]
fn rep_at(opcode: u8) -> Option<Format>
    ensures { result ≡ rep_at opcode }
{
    match opcode {
        0x90 => Some(Format::Plain(Row::Nop, Repeat::Once, 0, Immediate::Nothing)),
        0xa4 => Some(Format::Plain(Row::Movsb, Repeat::WhileEqual, 0, Immediate::Nothing)),
        0xa5 => Some(Format::Plain(Row::Movsd, Repeat::WhileEqual, 0, Immediate::Nothing)),
        0xa6 => Some(Format::Plain(Row::Cmpsb, Repeat::WhileEqual, 0, Immediate::Nothing)),
        0xa7 => Some(Format::Plain(Row::Cmpsd, Repeat::WhileEqual, 0, Immediate::Nothing)),
        0xaa => Some(Format::Plain(Row::Stosb, Repeat::WhileEqual, 0, Immediate::Nothing)),
        0xab => Some(Format::Plain(Row::Stosd, Repeat::WhileEqual, 0, Immediate::Nothing)),
        0xac => Some(Format::Plain(Row::Lodsb, Repeat::WhileEqual, 0, Immediate::Nothing)),
        0xad => Some(Format::Plain(Row::Lodsd, Repeat::WhileEqual, 0, Immediate::Nothing)),
        0xae => Some(Format::Plain(Row::Scasb, Repeat::WhileEqual, 0, Immediate::Nothing)),
        0xaf => Some(Format::Plain(Row::Scasd, Repeat::WhileEqual, 0, Immediate::Nothing)),
        0xc3 => Some(Format::Plain(Row::Ret, Repeat::Once, 0, Immediate::Nothing)),
        _ => None,
    }
}

/// What the second byte begins, behind a first one.
#[tactic(auto, unfolding(crate::specs::OpcodeMap::format_behind))]
pub(crate) fn format_behind(map: Map, opcode: u8) -> Option<Format>
    ensures { result ≡ format_behind map opcode }
{
    match map {
        Map::TwoByte => two_byte_at(opcode),
        Map::OperandSize => operand_size_at(opcode),
        Map::Repne => repne_at(opcode),
        Map::Rep => rep_at(opcode),
    }
}

/// An instruction that names no register in reg.
fn one_of(row: Row, immediate: Immediate) -> Option<Choice>
    ensures { result ≡ one_of row immediate }
{
    let reg = 0;
    Some(Choice {
        row,
        reg,
        immediate,
    })
}

/// Whether k is ROL, ROR, SHL, SHR or SAR.
pub(crate) fn is_shift(k: u8) -> bool
    ensures { result ≡ is_shift k }
{
    k == 0 || k == 1 || k == 4 || k == 5 || k == 7
}

/// The instruction, where k is a shift that the map has.
fn shift_choice(row: Row, immediate: Immediate, k: u8) -> Option<Choice>
    ensures { result ≡ shift_choice row immediate k }
{
    if is_shift(k) {
        one_of(row, immediate)
    } else {
        None
    }
}

/// The instruction, which is the only one of its group: that of reg 0.
fn only_first(row: Row, immediate: Immediate, reg: u8) -> Option<Choice>
    ensures { result ≡ only_first row immediate reg }
{
    if reg == 0 {
        one_of(row, immediate)
    } else {
        None
    }
}

/// F6.
#[tactic(auto, unfolding(crate::specs::OpcodeMap::unary_f6))]
fn unary_f6(reg: u8) -> Option<Choice>
    ensures { result ≡ unary_f6 reg }
{
    match reg {
        0 => one_of(Row::TestRm8Imm8, Immediate::Imm8),
        2 => one_of(Row::NotRm8, Immediate::Nothing),
        3 => one_of(Row::NegRm8, Immediate::Nothing),
        4 => one_of(Row::MulRm8, Immediate::Nothing),
        5 => one_of(Row::ImulRm8, Immediate::Nothing),
        6 => one_of(Row::DivRm8, Immediate::Nothing),
        7 => one_of(Row::IdivRm8, Immediate::Nothing),
        _ => None,
    }
}

/// F7.
#[tactic(auto, unfolding(crate::specs::OpcodeMap::unary_f7))]
fn unary_f7(reg: u8) -> Option<Choice>
    ensures { result ≡ unary_f7 reg }
{
    match reg {
        0 => one_of(Row::TestRm32Imm32, Immediate::Imm32),
        2 => one_of(Row::NotRm32, Immediate::Nothing),
        3 => one_of(Row::NegRm32, Immediate::Nothing),
        4 => one_of(Row::MulRm32, Immediate::Nothing),
        5 => one_of(Row::ImulRm32, Immediate::Nothing),
        6 => one_of(Row::DivRm32, Immediate::Nothing),
        7 => one_of(Row::IdivRm32, Immediate::Nothing),
        _ => None,
    }
}

/// FE.
#[tactic(auto, unfolding(crate::specs::OpcodeMap::step_fe))]
fn step_fe(reg: u8) -> Option<Choice>
    ensures { result ≡ step_fe reg }
{
    match reg {
        0 => one_of(Row::IncRm8, Immediate::Nothing),
        1 => one_of(Row::DecRm8, Immediate::Nothing),
        _ => None,
    }
}

/// FF.
#[tactic(auto, unfolding(crate::specs::OpcodeMap::step_ff))]
fn step_ff(reg: u8) -> Option<Choice>
    ensures { result ≡ step_ff reg }
{
    match reg {
        0 => one_of(Row::IncRm32, Immediate::Nothing),
        1 => one_of(Row::DecRm32, Immediate::Nothing),
        2 => one_of(Row::CallRm32, Immediate::Nothing),
        4 => one_of(Row::JmpRm32, Immediate::Nothing),
        6 => one_of(Row::PushRm32, Immediate::Nothing),
        _ => None,
    }
}

/// What reg chooses of a group.
#[tactic(auto, unfolding(crate::specs::OpcodeMap::of_group))]
#[inline(always)]
fn of_group(group: OpcodeGroup, reg: u8) -> Option<Choice>
    ensures { result ≡ of_group group reg }
{
    match group {
        OpcodeGroup::Alu80 => one_of(Row::AluRm8Imm8(reg), Immediate::Imm8),
        OpcodeGroup::Alu81 => one_of(Row::AluRm32Imm32(reg), Immediate::Imm32),
        OpcodeGroup::Alu83 => one_of(Row::AluRm32Imm8(reg), Immediate::SignedImm8),
        OpcodeGroup::Pop8f => only_first(Row::PopRm32, Immediate::Nothing, reg),
        OpcodeGroup::ShiftC0 => shift_choice(Row::ShiftRm8Imm8(reg), Immediate::Imm8, reg),
        OpcodeGroup::ShiftC1 => shift_choice(Row::ShiftRm32Imm8(reg), Immediate::Imm8, reg),
        OpcodeGroup::ShiftD0 => shift_choice(Row::ShiftRm8One(reg), Immediate::Nothing, reg),
        OpcodeGroup::ShiftD1 => shift_choice(Row::ShiftRm32One(reg), Immediate::Nothing, reg),
        OpcodeGroup::ShiftD2 => shift_choice(Row::ShiftRm8Cl(reg), Immediate::Nothing, reg),
        OpcodeGroup::ShiftD3 => shift_choice(Row::ShiftRm32Cl(reg), Immediate::Nothing, reg),
        OpcodeGroup::MovC6 => only_first(Row::MovRm8Imm8, Immediate::Imm8, reg),
        OpcodeGroup::MovC7 => only_first(Row::MovRm32Imm32, Immediate::Imm32, reg),
        OpcodeGroup::UnaryF6 => unary_f6(reg),
        OpcodeGroup::UnaryF7 => unary_f7(reg),
        OpcodeGroup::StepFe => step_fe(reg),
        OpcodeGroup::StepFf => step_ff(reg),
    }
}

/// What a ModRM byte chooses whose operand is a register or not, and whose reg this is.
#[tactic(auto, unfolding(crate::specs::OpcodeMap::choice_of))]
#[inline(always)]
pub(crate) fn choice_of(fields: Fields, is_register: bool, reg: u8) -> Option<Choice>
    ensures { result ≡ choice_of fields is_register reg }
{
    match fields {
        Fields::Register(row, immediate) => Some(Choice {
            row,
            reg,
            immediate,
        }),
        Fields::MemoryOnly(row) => {
            if is_register {
                None
            } else {
                let immediate = Immediate::Nothing;
                Some(Choice {
                    row,
                    reg,
                    immediate,
                })
            }
        }
        Fields::NoRegister(row) => one_of(row, Immediate::Nothing),
        Fields::Group(group) => of_group(group, reg),
    }
}

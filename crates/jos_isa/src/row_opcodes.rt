//! Where the opcode map has each instruction: the way back, as code.

ghost use Rattle.std.specs.Prelude.{◌≡◌};
ghost use Rattle.jos_isa.specs.RowOpcodes.{opcode_of, digit_of, format_in, field_of};

use crate::instruction::{Repeat, Row};
use crate::opcode_map::{Fields, Format, Map, OpcodeEntry, format_behind, opcode_entry};

/// An opcode of one byte, or of one behind 0F.
#[derive(Clone, Copy)]
pub(crate) enum Opcode {
    One(u8),
    Two(u8),
}

/// The opcode of an instruction. Where it names a register, that is `reg`.
#[tactic(auto, unfolding(crate::specs::RowOpcodes::opcode_of))]
pub(crate) fn opcode_of(row: Row, reg: u8) -> Opcode
    ensures { result ≡ opcode_of row reg }
{
    match row {
        // operations: k is in the opcode, or in reg
        Row::AluRm8R8(k) => Opcode::One(8 * (k % 8)),
        Row::AluRm32R32(k) => Opcode::One(8 * (k % 8) + 1),
        Row::AluR8Rm8(k) => Opcode::One(8 * (k % 8) + 2),
        Row::AluR32Rm32(k) => Opcode::One(8 * (k % 8) + 3),
        Row::AluAlImm8(k) => Opcode::One(8 * (k % 8) + 4),
        Row::AluEaxImm32(k) => Opcode::One(8 * (k % 8) + 5),
        Row::AluRm8Imm8(_) => Opcode::One(0x80),
        Row::AluRm32Imm32(_) => Opcode::One(0x81),
        Row::AluRm32Imm8(_) => Opcode::One(0x83),
        // one more or one less, and the stack
        Row::IncR32 => Opcode::One(0x40 + reg % 8),
        Row::DecR32 => Opcode::One(0x48 + reg % 8),
        Row::IncRm8 => Opcode::One(0xfe),
        Row::DecRm8 => Opcode::One(0xfe),
        Row::IncRm32 => Opcode::One(0xff),
        Row::DecRm32 => Opcode::One(0xff),
        Row::PushR32 => Opcode::One(0x50 + reg % 8),
        Row::PopR32 => Opcode::One(0x58 + reg % 8),
        Row::PushImm32 => Opcode::One(0x68),
        Row::PushImm8 => Opcode::One(0x6a),
        Row::PushRm32 => Opcode::One(0xff),
        Row::PopRm32 => Opcode::One(0x8f),
        Row::Pusha => Opcode::One(0x60),
        Row::Popa => Opcode::One(0x61),
        Row::Pushf => Opcode::One(0x9c),
        Row::Popf => Opcode::One(0x9d),
        // products and quotients
        Row::ImulR32Rm32Imm32 => Opcode::One(0x69),
        Row::ImulR32Rm32Imm8 => Opcode::One(0x6b),
        Row::ImulR32Rm32 => Opcode::Two(0xaf),
        Row::MulRm8 => Opcode::One(0xf6),
        Row::MulRm32 => Opcode::One(0xf7),
        Row::ImulRm8 => Opcode::One(0xf6),
        Row::ImulRm32 => Opcode::One(0xf7),
        Row::DivRm8 => Opcode::One(0xf6),
        Row::DivRm32 => Opcode::One(0xf7),
        Row::IdivRm8 => Opcode::One(0xf6),
        Row::IdivRm32 => Opcode::One(0xf7),
        Row::Cwde => Opcode::One(0x98),
        Row::Cdq => Opcode::One(0x99),
        // conditions
        Row::JccRel8(c) => Opcode::One(0x70 + c % 16),
        Row::JccRel32(c) => Opcode::Two(0x80 + c % 16),
        Row::SetccRm8(c) => Opcode::Two(0x90 + c % 16),
        // tests, negations and exchanges
        Row::TestRm8R8 => Opcode::One(0x84),
        Row::TestRm32R32 => Opcode::One(0x85),
        Row::TestAlImm8 => Opcode::One(0xa8),
        Row::TestEaxImm32 => Opcode::One(0xa9),
        Row::TestRm8Imm8 => Opcode::One(0xf6),
        Row::TestRm32Imm32 => Opcode::One(0xf7),
        Row::NotRm8 => Opcode::One(0xf6),
        Row::NotRm32 => Opcode::One(0xf7),
        Row::NegRm8 => Opcode::One(0xf6),
        Row::NegRm32 => Opcode::One(0xf7),
        Row::XchgRm8R8 => Opcode::One(0x86),
        Row::XchgRm32R32 => Opcode::One(0x87),
        Row::XchgEaxR32 => Opcode::One(0x90 + reg % 8),
        // moves
        Row::MovRm8R8 => Opcode::One(0x88),
        Row::MovRm32R32 => Opcode::One(0x89),
        Row::MovR8Rm8 => Opcode::One(0x8a),
        Row::MovR32Rm32 => Opcode::One(0x8b),
        Row::MovAlAddr => Opcode::One(0xa0),
        Row::MovEaxAddr => Opcode::One(0xa1),
        Row::MovAddrAl => Opcode::One(0xa2),
        Row::MovAddrEax => Opcode::One(0xa3),
        Row::MovR8Imm8 => Opcode::One(0xb0 + reg % 8),
        Row::MovR32Imm32 => Opcode::One(0xb8 + reg % 8),
        Row::MovRm8Imm8 => Opcode::One(0xc6),
        Row::MovRm32Imm32 => Opcode::One(0xc7),
        Row::MovzxR32Rm8 => Opcode::Two(0xb6),
        Row::MovzxR32Rm16 => Opcode::Two(0xb7),
        Row::MovsxR32Rm8 => Opcode::Two(0xbe),
        Row::MovsxR32Rm16 => Opcode::Two(0xbf),
        Row::LeaR32Mem => Opcode::One(0x8d),
        // strings
        Row::Movsb => Opcode::One(0xa4),
        Row::Movsd => Opcode::One(0xa5),
        Row::Cmpsb => Opcode::One(0xa6),
        Row::Cmpsd => Opcode::One(0xa7),
        Row::Stosb => Opcode::One(0xaa),
        Row::Stosd => Opcode::One(0xab),
        Row::Lodsb => Opcode::One(0xac),
        Row::Lodsd => Opcode::One(0xad),
        Row::Scasb => Opcode::One(0xae),
        Row::Scasd => Opcode::One(0xaf),
        // shifts
        Row::ShiftRm8Imm8(_) => Opcode::One(0xc0),
        Row::ShiftRm32Imm8(_) => Opcode::One(0xc1),
        Row::ShiftRm8One(_) => Opcode::One(0xd0),
        Row::ShiftRm32One(_) => Opcode::One(0xd1),
        Row::ShiftRm8Cl(_) => Opcode::One(0xd2),
        Row::ShiftRm32Cl(_) => Opcode::One(0xd3),
        Row::ShldRm32R32Imm8 => Opcode::Two(0xa4),
        Row::ShldRm32R32Cl => Opcode::Two(0xa5),
        Row::ShrdRm32R32Imm8 => Opcode::Two(0xac),
        Row::ShrdRm32R32Cl => Opcode::Two(0xad),
        // calls, jumps and returns
        Row::CallRel32 => Opcode::One(0xe8),
        Row::CallRm32 => Opcode::One(0xff),
        Row::JmpRel32 => Opcode::One(0xe9),
        Row::JmpRel8 => Opcode::One(0xeb),
        Row::JmpRm32 => Opcode::One(0xff),
        Row::RetImm16 => Opcode::One(0xc2),
        Row::Ret => Opcode::One(0xc3),
        Row::Leave => Opcode::One(0xc9),
        Row::Int3 => Opcode::One(0xcc),
        Row::IntImm8 => Opcode::One(0xcd),
        // flags, ports and halts
        Row::Cmc => Opcode::One(0xf5),
        Row::Clc => Opcode::One(0xf8),
        Row::Stc => Opcode::One(0xf9),
        Row::Cld => Opcode::One(0xfc),
        Row::Std => Opcode::One(0xfd),
        Row::InAlImm8 => Opcode::One(0xe4),
        Row::InEaxImm8 => Opcode::One(0xe5),
        Row::OutImm8Al => Opcode::One(0xe6),
        Row::OutImm8Eax => Opcode::One(0xe7),
        Row::InAlDx => Opcode::One(0xec),
        Row::InEaxDx => Opcode::One(0xed),
        Row::OutDxAl => Opcode::One(0xee),
        Row::OutDxEax => Opcode::One(0xef),
        Row::Hlt => Opcode::One(0xf4),
        Row::Cli => Opcode::One(0xfa),
        Row::Sti => Opcode::One(0xfb),
        Row::Nop => Opcode::One(0x90),
    }
}

/// What reg of the ModRM byte holds where it chooses the instruction; else 0.
#[tactic(auto, unfolding(crate::specs::RowOpcodes::digit_of))]
fn digit_of(row: Row) -> u8
    ensures { result ≡ digit_of row }
{
    match row {
        Row::AluRm8Imm8(k) => k,
        Row::AluRm32Imm32(k) => k,
        Row::AluRm32Imm8(k) => k,
        Row::ShiftRm8Imm8(k) => k,
        Row::ShiftRm32Imm8(k) => k,
        Row::ShiftRm8One(k) => k,
        Row::ShiftRm32One(k) => k,
        Row::ShiftRm8Cl(k) => k,
        Row::ShiftRm32Cl(k) => k,
        Row::NotRm8 => 2,
        Row::NotRm32 => 2,
        Row::NegRm8 => 3,
        Row::NegRm32 => 3,
        Row::MulRm8 => 4,
        Row::MulRm32 => 4,
        Row::ImulRm8 => 5,
        Row::ImulRm32 => 5,
        Row::DivRm8 => 6,
        Row::DivRm32 => 6,
        Row::IdivRm8 => 7,
        Row::IdivRm32 => 7,
        Row::DecRm8 => 1,
        Row::DecRm32 => 1,
        Row::CallRm32 => 2,
        Row::JmpRm32 => 4,
        Row::PushRm32 => 6,
        _ => 0,
    }
}

/// The format that stands at an opcode, behind the prefix of a repetition where there is one.
#[tactic(auto, unfolding(crate::specs::RowOpcodes::format_in))]
pub(crate) fn format_in(repeat: Repeat, opcode: Opcode) -> Option<Format>
    ensures { result ≡ format_in repeat opcode }
{
    match (repeat, opcode) {
        (Repeat::Once, Opcode::One(opcode)) => match opcode_entry(opcode) {
            OpcodeEntry::Complete(format) => Some(format),
            OpcodeEntry::Unassigned | OpcodeEntry::Behind(_) => None,
        },
        (Repeat::Once, Opcode::Two(opcode)) => format_behind(Map::TwoByte, opcode),
        (Repeat::WhileEqual, Opcode::One(opcode)) => format_behind(Map::Rep, opcode),
        (Repeat::WhileNot, Opcode::One(opcode)) => format_behind(Map::Repne, opcode),
        (Repeat::WhileEqual | Repeat::WhileNot, Opcode::Two(_)) => None,
    }
}

/// What reg of the ModRM byte holds.
#[tactic(auto, unfolding(crate::specs::RowOpcodes::field_of))]
pub(crate) fn field_of(fields: Fields, row: Row, reg: u8) -> u8
    ensures { result ≡ field_of fields row reg }
{
    match fields {
        Fields::Register(_, _) | Fields::MemoryOnly(_) => reg,
        Fields::NoRegister(_) => 0,
        Fields::Group(_) => digit_of(row),
    }
}

//! Which instructions have a spelling.

ghost use Rattle.std.specs.Prelude.{◌≡◌, ℕ, List, IsTrue};
ghost use Rattle.jos_isa.specs.Spelling.{Spells};
ghost use Rattle.jos_isa.specs.ClauseWords.{AreBytes};
ghost use Rattle.jos_isa.specs.Lawful.{is_numbered, is_named, is_immediate, is_base, is_index, is_operand};
ghost use Rattle.jos_isa.specs.Lawful.{is_absent, is_register, is_same_repeat, fits_choice, fits_format};
ghost use Rattle.jos_isa.specs.Lawful.{format_for, is_lawful};

use crate::instruction::{Disp, Insn, Operand, Repeat, Row};
use crate::opcode_map::{Choice, Format, Immediate, choice_of, is_shift};
use crate::row_opcodes::{field_of, format_in, opcode_of};

/// An operation is 0 to 7, a condition 0 to 15, and a shift one that the map has.
#[tactic(auto, unfolding(crate::specs::Lawful::is_numbered))]
fn is_numbered(row: Row) -> bool
    ensures { result ≡ is_numbered row }
{
    match row {
        Row::AluRm8R8(k) => k < 8,
        Row::AluRm32R32(k) => k < 8,
        Row::AluR8Rm8(k) => k < 8,
        Row::AluR32Rm32(k) => k < 8,
        Row::AluAlImm8(k) => k < 8,
        Row::AluEaxImm32(k) => k < 8,
        Row::AluRm8Imm8(k) => k < 8,
        Row::AluRm32Imm32(k) => k < 8,
        Row::AluRm32Imm8(k) => k < 8,
        Row::JccRel8(c) => c < 16,
        Row::JccRel32(c) => c < 16,
        Row::SetccRm8(c) => c < 16,
        Row::ShiftRm8Imm8(k) => is_shift(k),
        Row::ShiftRm32Imm8(k) => is_shift(k),
        Row::ShiftRm8One(k) => is_shift(k),
        Row::ShiftRm32One(k) => is_shift(k),
        Row::ShiftRm8Cl(k) => is_shift(k),
        Row::ShiftRm32Cl(k) => is_shift(k),
        _ => true,
    }
}

/// A register is below 8, and EAX is not exchanged with itself.
#[tactic(auto, unfolding(crate::specs::Lawful::is_named))]
fn is_named(row: Row, reg: u8) -> bool
    ensures { result ≡ is_named row reg }
{
    match row {
        Row::XchgEaxR32 => reg < 8 && reg != 0,
        _ => reg < 8,
    }
}

/// An immediate that is extended is held extended.
#[tactic(auto, unfolding(crate::specs::Lawful::is_immediate))]
fn is_immediate(immediate: Immediate, value: u32) -> bool
    ensures { result ≡ is_immediate immediate value }
{
    match immediate {
        Immediate::Nothing => value == 0,
        Immediate::Imm8 => value < 0x100,
        Immediate::SignedImm8 => value < 0x80 || value >= 0xffff_ff80,
        Immediate::Imm16 => value < 0x1_0000,
        Immediate::Imm32 => true,
    }
}

/// Without base there is a displacement of four bytes, and with the base EBP one of a byte or four.
#[tactic(auto, unfolding(crate::specs::Lawful::is_base))]
fn is_base(base: Option<u8>, disp: Disp) -> bool
    ensures { result ≡ is_base base disp }
{
    match base {
        None => match disp {
            Disp::Word(_) => true,
            Disp::Byte(_) => false,
            Disp::Zero => false,
        },
        Some(base) => match disp {
            Disp::Zero => base < 8 && base != 5,
            Disp::Byte(_) => base < 8,
            Disp::Word(_) => base < 8,
        },
    }
}

/// ESP is no index, and without index the scale is 0.
#[tactic(auto, unfolding(crate::specs::Lawful::is_index))]
fn is_index(index: Option<u8>, scale: u8) -> bool
    ensures { result ≡ is_index index scale }
{
    match index {
        None => scale == 0,
        Some(index) => index < 8 && index != 4 && scale < 4,
    }
}

/// An operand that a ModRM byte can name.
#[tactic(auto, unfolding(crate::specs::Lawful::is_operand))]
fn is_operand(operand: Operand) -> bool
    ensures { result ≡ is_operand operand }
{
    match operand {
        Operand::Absent => false,
        Operand::Reg(register) => register < 8,
        Operand::Mem(arg) => is_base(arg.base, arg.disp) && is_index(arg.index, arg.scale),
    }
}

fn is_absent(operand: Operand) -> bool
    ensures { result ≡ is_absent operand }
{
    match operand {
        Operand::Absent => true,
        Operand::Reg(_) => false,
        Operand::Mem(_) => false,
    }
}

pub(crate) fn is_register(operand: Operand) -> bool
    ensures { result ≡ is_register operand }
{
    match operand {
        Operand::Absent => false,
        Operand::Reg(_) => true,
        Operand::Mem(_) => false,
    }
}

fn is_same_repeat(one: Repeat, other: Repeat) -> bool
    ensures { result ≡ is_same_repeat one other }
{
    match (one, other) {
        (Repeat::Once, Repeat::Once) => true,
        (Repeat::WhileEqual, Repeat::WhileEqual) => true,
        (Repeat::WhileNot, Repeat::WhileNot) => true,
        _ => false,
    }
}

/// The register and the immediate are those of what the ModRM byte chooses.
#[tactic(auto, unfolding(crate::specs::Lawful::fits_choice))]
fn fits_choice(insn: Insn, choice: Option<Choice>) -> bool
    ensures { result ≡ fits_choice insn choice }
{
    match choice {
        None => false,
        Some(choice) => choice.reg == insn.reg && is_immediate(choice.immediate, insn.imm),
    }
}

/// The fields are those of the format that the map has for the instruction.
#[tactic(auto, unfolding(crate::specs::Lawful::fits_format))]
fn fits_format(insn: Insn, format: Option<Format>) -> bool
    ensures { result ≡ fits_format insn format }
{
    match format {
        None => false,
        Some(Format::Plain(_, repeat, register, immediate)) => {
            is_same_repeat(repeat, insn.repeat)
                && is_absent(insn.operand)
                && register == insn.reg
                && is_immediate(immediate, insn.imm)
        }
        Some(Format::ModRm(fields)) => {
            let field = field_of(fields, insn.row, insn.reg);
            let choice = choice_of(fields, is_register(insn.operand), field);
            is_same_repeat(Repeat::Once, insn.repeat)
                && is_operand(insn.operand)
                && fits_choice(insn, choice)
        }
    }
}

/// The format that the opcode map has for an instruction.
#[tactic(auto, unfolding(crate::specs::Lawful::format_for))]
pub(crate) fn format_for(insn: Insn) -> Option<Format>
    ensures { result ≡ format_for insn }
{
    format_in(insn.repeat, opcode_of(insn.row, insn.reg))
}

/// Whether an instruction has a spelling: its row's number is one that the map has, its operand, register,
/// immediate and repetition are such as its row takes, and unused fields are 0 or absent. A lawful one can be
/// given to `encode`.
#[tactic(auto, unfolding(crate::specs::Lawful::is_lawful))]
pub fn lawful(insn: &Insn) -> bool
    ensures exact { result ≡ is_lawful insn.now }

    // What bytes spell is lawful.
    ensures spelled { (bytes : List ℕ) → AreBytes bytes → Spells insn.now bytes → IsTrue result }
{
    is_numbered(insn.row) && is_named(insn.row, insn.reg) && fits_format(*insn, format_for(*insn))
}

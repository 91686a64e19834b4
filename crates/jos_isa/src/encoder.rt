//! An instruction to bytes.

ghost use Rattle.std.specs.Prelude.{◌≡◌, ℕ, ◌+◌, ◌*◌, ◌^◌, ◌<◌, ◌≤◌, List, [], ◌∷◌, ◌++◌, take, drop, Option};
ghost use Rattle.std.specs.Prelude.{Some, IsTrue, FitsSigned};
ghost use Rattle.std.specs.Int.{w8, w16, w32, to_le_bytes};
ghost use Rattle.jos_isa.specs.Spelling.{Spells};
ghost use Rattle.jos_isa.specs.Decoding.{decoded};
ghost use Rattle.jos_isa.specs.ClauseWords.{DispFits, OperandFits, NumbersFit};
ghost use Rattle.jos_isa.specs.Lawful.{is_numbered, is_named, is_mem_arg, is_operand, fits_format, is_lawful};
ghost use Rattle.jos_isa.specs.Encoding.{opcode_bytes, immediate_bytes, disp_bytes, sib_bytes, operand_bytes};
ghost use Rattle.jos_isa.specs.Encoding.{base_number, index_number, mode_of, has_sib, rm_of};
ghost use Rattle.jos_isa.specs.Encoding.{chosen_bytes, format_bytes, encoded};

use crate::decoder::Decoded;
use crate::instruction::{Disp, Insn, MemArg, Operand, Repeat};
use crate::lawfulness::{format_for, is_register};
use crate::lengths::LONGEST;
use crate::opcode_map::{Choice, Format, Immediate, choice_of};
use crate::row_opcodes::{Opcode, field_of, opcode_of};
use jos_base::INSTRUCTION_MAX;

// Each of these writes from place `at` on, gives the place behind what it wrote, and keeps what is behind it.
fn put_byte(byte: u8, out: &mut [u8; INSTRUCTION_MAX], at: usize) -> usize
    requires room { at < INSTRUCTION_MAX }
    ensures written { take result out.new ≡ take at out.old ++ byte ∷ [] }
    ensures behind { result ≡ at + 1 }
    ensures kept { drop result out.new ≡ drop result out.old }
{
    out[at] = byte;
    at + 1
}

fn put_u16(number: u16, out: &mut [u8; INSTRUCTION_MAX], at: usize) -> usize
    requires room { at + 2 ≤ INSTRUCTION_MAX }
    ensures written { take result out.new ≡ take at out.old ++ to_le_bytes w16 number }
    ensures behind { result ≡ at + 2 }
    ensures kept { drop result out.new ≡ drop result out.old }
{
    let [a, b] = number.to_le_bytes();
    let at = put_byte(a, out, at);
    put_byte(b, out, at)
}

fn put_u32(number: u32, out: &mut [u8; INSTRUCTION_MAX], at: usize) -> usize
    requires room { at + 4 ≤ INSTRUCTION_MAX }
    ensures written { take result out.new ≡ take at out.old ++ to_le_bytes w32 number }
    ensures behind { result ≡ at + 4 }
    ensures kept { drop result out.new ≡ drop result out.old }
{
    let [a, b, c, d] = number.to_le_bytes();
    let at = put_byte(a, out, at);
    let at = put_byte(b, out, at);
    let at = put_byte(c, out, at);
    put_byte(d, out, at)
}

#[tactic(auto, unfolding(crate::specs::Encoding::opcode_bytes))]
fn put_opcode(repeat: Repeat, opcode: Opcode, out: &mut [u8; INSTRUCTION_MAX]) -> usize
    ensures written { take result out.new ≡ opcode_bytes repeat opcode }
    ensures within { result ≤ 2 }
    ensures kept { drop result out.new ≡ drop result out.old }
{
    match opcode {
        Opcode::One(opcode) => match repeat {
            Repeat::Once => put_byte(opcode, out, 0),
            Repeat::WhileEqual => {
                let at = put_byte(0xf3, out, 0);
                put_byte(opcode, out, at)
            }
            Repeat::WhileNot => {
                let at = put_byte(0xf2, out, 0);
                put_byte(opcode, out, at)
            }
        },
        Opcode::Two(opcode) => {
            let at = put_byte(0x0f, out, 0);
            put_byte(opcode, out, at)
        }
    }
}

#[tactic(auto, unfolding(crate::specs::Encoding::immediate_bytes))]
fn put_immediate(
    immediate: Immediate,
    value: u32,
    out: &mut [u8; INSTRUCTION_MAX],
    at: usize,
) -> usize
    requires room { at + 4 ≤ INSTRUCTION_MAX }
    ensures written { take result out.new ≡ take at out.old ++ immediate_bytes immediate value }
    ensures within { result ≤ at + 4 }
    ensures behind { at ≤ result }
    ensures kept { drop result out.new ≡ drop result out.old }
{
    match immediate {
        Immediate::Nothing => at,
        Immediate::Imm8 => put_byte((value % 0x100) as u8, out, at),
        Immediate::SignedImm8 => put_byte((value % 0x100) as u8, out, at),
        Immediate::Imm16 => put_u16((value % 0x1_0000) as u16, out, at),
        Immediate::Imm32 => put_u32(value, out, at),
    }
}

// ---- operands

#[tactic(auto, unfolding(crate::specs::Encoding::disp_bytes))]
fn put_disp(disp: Disp, out: &mut [u8; INSTRUCTION_MAX], at: usize) -> usize
    requires room { at + 4 ≤ INSTRUCTION_MAX }
    ensures written { take result out.new ≡ take at out.old ++ disp_bytes disp }
    ensures within { result ≤ at + 4 }
    ensures behind { at ≤ result }
    ensures kept { drop result out.new ≡ drop result out.old }
{
    match disp {
        Disp::Zero => at,
        Disp::Byte(value) => put_byte(value.cast_unsigned(), out, at),
        Disp::Word(value) => put_u32(value, out, at),
    }
}

/// A base is written by its number, and no base as 5.
fn base_number(base: Option<u8>) -> u8
    ensures { result ≡ base_number base }
{
    match base {
        None => 5,
        Some(base) => base,
    }
}

/// No index is written as 4.
fn index_number(index: Option<u8>) -> u8
    ensures { result ≡ index_number index }
{
    match index {
        None => 4,
        Some(index) => index,
    }
}

/// mod: 0 without base or displacement, 1 with a byte of displacement, 2 with four.
fn mode_of(base: Option<u8>, disp: Disp) -> u8
    ensures { result ≡ mode_of base disp }
{
    match base {
        None => 0,
        Some(_) => match disp {
            Disp::Zero => 0,
            Disp::Byte(_) => 1,
            Disp::Word(_) => 2,
        },
    }
}

/// A SIB byte is written only where there is an index or the base is ESP.
fn has_sib(arg: MemArg) -> bool
    ensures { result ≡ has_sib arg }
{
    arg.index.is_some() || base_number(arg.base) == 4
}

fn rm_of(arg: MemArg) -> u8
    ensures { result ≡ rm_of arg }
{
    if has_sib(arg) {
        4
    } else {
        base_number(arg.base)
    }
}

/// A byte of three fields, of two, three and three bits.
fn three_fields(high: u8, middle: u8, low: u8) -> u8
    requires high { high < 4 }
    requires middle { middle < 8 }
    requires low { low < 8 }
    ensures { result ≡ 64 * high + 8 * middle + low }
{
    64 * high + 8 * middle + low
}

fn put_sib(arg: MemArg, out: &mut [u8; INSTRUCTION_MAX], at: usize) -> usize
    requires lawful { IsTrue (is_mem_arg arg) }
    requires room { at < INSTRUCTION_MAX }
    ensures written { take result out.new ≡ take at out.old ++ sib_bytes arg }
    ensures within { result ≤ at + 1 }
    ensures behind { at ≤ result }
    ensures kept { drop result out.new ≡ drop result out.old }
{
    if has_sib(arg) {
        let sib = three_fields(arg.scale, index_number(arg.index), base_number(arg.base));
        put_byte(sib, out, at)
    } else {
        at
    }
}

fn put_memory(arg: MemArg, reg: u8, out: &mut [u8; INSTRUCTION_MAX], at: usize) -> usize
    requires lawful { IsTrue (is_mem_arg arg) }
    requires reg { reg < 8 }
    requires room { at ≤ 2 }
    ensures written { take result out.new ≡ take at out.old ++ operand_bytes (Operand.Mem arg) reg }
    ensures within { result ≤ at + 6 }
    ensures behind { at ≤ result }
    ensures kept { drop result out.new ≡ drop result out.old }
{
    let modrm = three_fields(mode_of(arg.base, arg.disp), reg, rm_of(arg));
    let at = put_byte(modrm, out, at);
    let at = put_sib(arg, out, at);
    put_disp(arg.disp, out, at)
}

#[tactic(auto, unfolding(crate::specs::Encoding::operand_bytes, crate::specs::Lawful::is_operand))]
fn put_operand(operand: Operand, reg: u8, out: &mut [u8; INSTRUCTION_MAX], at: usize) -> usize
    requires lawful { IsTrue (is_operand operand) }
    requires reg { reg < 8 }
    requires room { at ≤ 2 }
    ensures written { take result out.new ≡ take at out.old ++ operand_bytes operand reg }
    ensures within { result ≤ at + 6 }
    ensures behind { at ≤ result }
    ensures kept { drop result out.new ≡ drop result out.old }
{
    match operand {
        Operand::Absent => at,
        Operand::Reg(register) => put_byte(three_fields(3, reg, register), out, at),
        Operand::Mem(arg) => put_memory(arg, reg, out, at),
    }
}

// ---- instructions

#[tactic(auto, unfolding(crate::specs::Encoding::chosen_bytes))]
fn put_chosen(
    choice: Option<Choice>,
    value: u32,
    out: &mut [u8; INSTRUCTION_MAX],
    at: usize,
) -> usize
    requires room { at ≤ 8 }
    ensures written { take result out.new ≡ take at out.old ++ chosen_bytes choice value }
    ensures within { result ≤ at + 4 }
    ensures behind { at ≤ result }
    ensures kept { drop result out.new ≡ drop result out.old }
{
    match choice {
        None => at,
        Some(choice) => put_immediate(choice.immediate, value, out, at),
    }
}

#[tactic(auto, unfolding(crate::specs::Encoding::format_bytes, crate::specs::Lawful::fits_format))]
fn put_format(
    format: Option<Format>,
    insn: Insn,
    out: &mut [u8; INSTRUCTION_MAX],
    at: usize,
) -> usize
    requires numbered { IsTrue (is_numbered insn.row) }
    requires named { IsTrue (is_named insn.row insn.reg) }
    requires lawful { IsTrue (fits_format insn format) }
    requires room { at ≤ 2 }
    ensures written { take result out.new ≡ take at out.old ++ format_bytes format insn }
    ensures within { result ≤ at + 10 }
    ensures behind { at ≤ result }
    ensures kept { drop result out.new ≡ drop result out.old }
{
    match format {
        None => at,
        Some(Format::Plain(_, _, _, immediate)) => put_immediate(immediate, insn.imm, out, at),
        Some(Format::ModRm(fields)) => {
            let field = field_of(fields, insn.row, insn.reg);
            let at = put_operand(insn.operand, field, out, at);
            let choice = choice_of(fields, is_register(insn.operand), field);
            put_chosen(choice, insn.imm, out, at)
        }
    }
}

#[tactic(auto, unfolding(crate::specs::Encoding::encoded))]
fn put_instruction(insn: Insn, out: &mut [u8; INSTRUCTION_MAX]) -> usize
    requires lawful { IsTrue (is_lawful insn) }
    ensures written { take result out.new ≡ encoded insn }
    ensures within { result ≤ 12 }
    ensures kept { drop result out.new ≡ drop result out.old }
{
    let at = put_opcode(insn.repeat, opcode_of(insn.row, insn.reg), out);
    put_format(format_for(insn), insn, out, at)
}

// What the types say of an instruction's numbers, one function for each.
fn word_fits(number: u32)
    ensures { number < 2 ^ 32 }
{}

fn byte_fits(number: i8)
    ensures { FitsSigned w8 number }
{}

fn disp_fits(disp: Disp)
    ensures { DispFits disp }
{
    match disp {
        Disp::Zero => {}
        Disp::Byte(value) => byte_fits(value),
        Disp::Word(value) => word_fits(value),
    }
}

fn operand_fits(operand: Operand)
    ensures { OperandFits operand }
{
    match operand {
        Operand::Absent => {}
        Operand::Reg(_) => {}
        Operand::Mem(arg) => disp_fits(arg.disp),
    }
}

fn numbers_fit(insn: Insn)
    ensures { NumbersFit insn }
{
    word_fits(insn.imm);
    operand_fits(insn.operand);
}

/// Writes a lawful instruction to the first bytes of `out`, and gives their number. Of its spellings it is one
/// with a SIB byte only where there is an index or the base is ESP. The bytes of `out` behind the instruction stay
/// as they were. It takes no memory.
pub fn encode(insn: &Insn, out: &mut [u8; INSTRUCTION_MAX]) -> usize
    requires lawful { IsTrue (is_lawful insn.now) }
    ensures within { result ≤ LONGEST }
    ensures written { take result out.new ≡ encoded insn.now }
    // What is behind them stays.
    ensures kept { drop result out.new ≡ drop result out.old }

    // They spell the instruction.
    ensures spelled { Spells insn.now (take result out.new) }
    // Read again, whatever follows, they give it and their number.
    ensures again { (more : List ℕ) → decoded (take result out.new ++ more) ≡ Decoded.Found insn.now result }
{
    let insn = *insn;
    numbers_fit(insn);
    put_instruction(insn, out)
}

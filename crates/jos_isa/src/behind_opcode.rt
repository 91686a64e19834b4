//! The parts of an instruction behind its opcode: immediates, ModRM, SIB and displacement. A reader is named by the
//! part that it takes from the front of the bytes, and gives what is left of them beside it.

ghost use Rattle.std.specs.Prelude.{◌≡◌, ◌<◌, ◌≤◌, [], length, Result, Ok, Err, IfOk};
ghost use Rattle.jos_isa.specs.Spelling.{disp_kind_of, base_of, sib_of};
ghost use Rattle.jos_isa.specs.Decoding.{next_byte, u16_at, u32_at, immediate_at, disp_at, sib_byte_at, sib_at};
ghost use Rattle.jos_isa.specs.Decoding.{memory_at, operand_at, modrm_at};
ghost use Rattle.jos_isa.specs.ClauseWords.{Gives};

use crate::instruction::{Disp, MemArg, Operand};
use crate::opcode_map::{Choice, Fields, Immediate, choice_of};

/// Why a part is not read.
#[derive(Clone, Copy)]
pub(crate) enum PartFault {
    Short,
    Illegal,
}

/// What displacement follows: none, a signed byte or four bytes.
#[derive(Clone, Copy)]
pub(crate) enum DispKind {
    Nothing,
    Disp8,
    Disp32,
}

/// The number of a base, an index and its scale, as a SIB byte gives them.
#[derive(Clone, Copy)]
pub(crate) struct Sib {
    pub base: u8,
    pub index: Option<u8>,
    pub scale: u8,
}

/// What a ModRM byte says: what reg chooses, mod and rm.
#[derive(Clone, Copy)]
pub(crate) struct Chosen {
    pub choice: Choice,
    pub mode: u8,
    pub rm: u8,
}

pub(crate) fn next_byte(bytes: &[u8]) -> Result<(u8, &[u8]), PartFault>
    ensures gives { Gives (λ x. (x.0, x.1.now)) result (next_byte bytes.now) }
    ensures shorter { IfOk result (λ x. length x.1.now ≤ length bytes.now) }
{
    match bytes {
        [byte, rest @ ..] => Ok((*byte, rest)),
        [] => Err(PartFault::Short),
    }
}

fn u16_at(bytes: &[u8]) -> Result<(u32, &[u8]), PartFault>
    ensures gives { Gives (λ x. (x.0, x.1.now)) result (u16_at bytes.now) }
    ensures shorter { IfOk result (λ x. length x.1.now ≤ length bytes.now) }
{
    match bytes {
        [a, b, rest @ ..] => Ok((u16::from_le_bytes([*a, *b]) as u32, rest)),
        _ => Err(PartFault::Short),
    }
}

fn u32_at(bytes: &[u8]) -> Result<(u32, &[u8]), PartFault>
    ensures gives { Gives (λ x. (x.0, x.1.now)) result (u32_at bytes.now) }
    ensures shorter { IfOk result (λ x. length x.1.now ≤ length bytes.now) }
{
    match bytes {
        [a, b, c, d, rest @ ..] => Ok((u32::from_le_bytes([*a, *b, *c, *d]), rest)),
        _ => Err(PartFault::Short),
    }
}

#[tactic(auto, unfolding(crate::specs::Decoding::immediate_at))]
pub(crate) fn immediate_at(immediate: Immediate, bytes: &[u8]) -> Result<(u32, &[u8]), PartFault>
    ensures gives { Gives (λ x. (x.0, x.1.now)) result (immediate_at immediate bytes.now) }
    ensures shorter { IfOk result (λ x. length x.1.now ≤ length bytes.now) }
{
    match immediate {
        Immediate::Nothing => Ok((0, bytes)),
        Immediate::Imm8 => {
            let (byte, rest) = next_byte(bytes)?;
            Ok((byte as u32, rest))
        }
        Immediate::SignedImm8 => {
            let (byte, rest) = next_byte(bytes)?;
            if byte < 128 {
                Ok((byte as u32, rest))
            } else {
                Ok((byte as u32 + 0xffff_ff00, rest))
            }
        }
        Immediate::Imm16 => u16_at(bytes),
        Immediate::Imm32 => u32_at(bytes),
    }
}

// ---- operands

/// The base of this number. With mod 0, 5 is none.
fn base_of(mode: u8, number: u8) -> Option<u8>
    ensures { result ≡ base_of mode number }
{
    if mode == 0 && number == 5 {
        None
    } else {
        Some(number)
    }
}

/// What displacement mod and the number of the base ask for. With mod 0, 5 is a word without base.
#[inline(always)]
pub(crate) fn disp_kind_of(mode: u8, number: u8) -> DispKind
    ensures { result ≡ disp_kind_of mode number }
{
    if mode == 0 {
        if number == 5 {
            DispKind::Disp32
        } else {
            DispKind::Nothing
        }
    } else if mode == 1 {
        DispKind::Disp8
    } else {
        DispKind::Disp32
    }
}

#[tactic(auto, unfolding(crate::specs::Decoding::disp_at))]
fn disp_at(kind: DispKind, bytes: &[u8]) -> Result<(Disp, &[u8]), PartFault>
    ensures gives { Gives (λ x. (x.0, x.1.now)) result (disp_at kind bytes.now) }
    ensures shorter { IfOk result (λ x. length x.1.now ≤ length bytes.now) }
{
    match kind {
        DispKind::Nothing => Ok((Disp::Zero, bytes)),
        DispKind::Disp8 => {
            let (byte, rest) = next_byte(bytes)?;
            Ok((Disp::Byte(byte.cast_signed()), rest))
        }
        DispKind::Disp32 => {
            let (number, rest) = u32_at(bytes)?;
            Ok((Disp::Word(number), rest))
        }
    }
}

/// The fields of a SIB byte. The index 4 is none, whatever the scale.
fn sib_of(scale: u8, index: u8, base: u8) -> Sib
    ensures { result ≡ sib_of scale index base }
{
    if index == 4 {
        Sib {
            base,
            index: None,
            scale: 0,
        }
    } else {
        Sib {
            base,
            index: Some(index),
            scale,
        }
    }
}

#[tactic(auto, unfolding(crate::specs::Decoding::sib_byte_at))]
fn sib_byte_at(bytes: &[u8]) -> Result<(Sib, &[u8]), PartFault>
    ensures gives { Gives (λ x. (x.0, x.1.now)) result (sib_byte_at bytes.now) }
    ensures shorter { IfOk result (λ x. length x.1.now ≤ length bytes.now) }
{
    let (sib, rest) = next_byte(bytes)?;
    Ok((sib_of(sib / 64, sib / 8 % 8, sib % 8), rest))
}

/// A SIB byte where rm is 4. Any other rm is itself the number of the base.
#[tactic(auto, unfolding(crate::specs::Decoding::sib_at))]
fn sib_at(rm: u8, bytes: &[u8]) -> Result<(Sib, &[u8]), PartFault>
    ensures gives { Gives (λ x. (x.0, x.1.now)) result (sib_at rm bytes.now) }
    ensures shorter { IfOk result (λ x. length x.1.now ≤ length bytes.now) }
{
    if rm == 4 {
        sib_byte_at(bytes)
    } else {
        Ok((
            Sib {
                base: rm,
                index: None,
                scale: 0,
            },
            bytes,
        ))
    }
}

#[tactic(auto, unfolding(crate::specs::Decoding::memory_at))]
fn memory_at(mode: u8, rm: u8, bytes: &[u8]) -> Result<(MemArg, &[u8]), PartFault>
    ensures gives { Gives (λ x. (x.0, x.1.now)) result (memory_at mode rm bytes.now) }
    ensures shorter { IfOk result (λ x. length x.1.now ≤ length bytes.now) }
{
    let (sib, rest) = sib_at(rm, bytes)?;
    let (disp, rest) = disp_at(disp_kind_of(mode, sib.base), rest)?;
    let base = base_of(mode, sib.base);
    let Sib { index, scale, .. } = sib;
    Ok((
        MemArg {
            base,
            index,
            scale,
            disp,
        },
        rest,
    ))
}

/// With mod 3 the register rm, else an operand in memory.
#[tactic(auto, unfolding(crate::specs::Decoding::operand_at))]
pub(crate) fn operand_at(mode: u8, rm: u8, bytes: &[u8]) -> Result<(Operand, &[u8]), PartFault>
    ensures gives { Gives (λ x. (x.0, x.1.now)) result (operand_at mode rm bytes.now) }
    ensures shorter { IfOk result (λ x. length x.1.now ≤ length bytes.now) }
{
    if mode == 3 {
        Ok((Operand::Reg(rm), bytes))
    } else {
        let (arg, rest) = memory_at(mode, rm, bytes)?;
        Ok((Operand::Mem(arg), rest))
    }
}

/// A ModRM byte, by the fields that the opcode gives it.
#[tactic(auto, unfolding(crate::specs::Decoding::modrm_at))]
pub(crate) fn modrm_at(fields: Fields, bytes: &[u8]) -> Result<(Chosen, &[u8]), PartFault>
    ensures gives { Gives (λ x. (x.0, x.1.now)) result (modrm_at fields bytes.now) }
    ensures shorter { IfOk result (λ x. length x.1.now ≤ length bytes.now) }
{
    let (byte, rest) = next_byte(bytes)?;
    match choice_of(fields, byte / 64 == 3, byte / 8 % 8) {
        Some(choice) => Ok((
            Chosen {
                choice,
                mode: byte / 64,
                rm: byte % 8,
            },
            rest,
        )),
        None => Err(PartFault::Illegal),
    }
}

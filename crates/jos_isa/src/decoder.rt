//! Bytes to an instruction.

ghost use Rattle.std.specs.Prelude.{◌≡◌, ℕ, ◌<◌, ◌≤◌, List, [], ◌∷◌, ◌++◌, length, Result, Ok, Err, IfOk, IsTrue, take};
ghost use Rattle.jos_isa.specs.declared.instruction.Insn.{Insn};
ghost use Rattle.jos_isa.specs.Spelling.{Spells};
ghost use Rattle.jos_isa.specs.Decoding.{rest_at, insn_in_format, format_in_entry, opcode_at, instruction_at, decoded};
ghost use Rattle.jos_isa.specs.Lawful.{is_lawful};
ghost use Rattle.jos_isa.specs.ClauseWords.{Gives, IfFound, AreBytes};

use crate::behind_opcode::{Chosen, PartFault, immediate_at, modrm_at, next_byte, operand_at};
use crate::instruction::{Insn, Operand, Repeat};
use crate::lengths::LONGEST;
use crate::opcode_map::{Format, OpcodeEntry, format_behind, opcode_entry};

/// What some bytes begin with.
#[derive(Clone, Copy, Debug, PartialEq, Eq)]
pub enum Decoded {
    /// An instruction, and how many bytes spell it.
    Found(Insn, usize),
    /// More bytes are needed: these are the beginning of an instruction.
    Short,
    /// No instruction begins so.
    Illegal,
}

/// The format of an entry of the first byte, or, where that leads to a map, of the second byte.
#[tactic(auto, unfolding(crate::specs::Decoding::format_in_entry))]
fn format_in_entry(entry: OpcodeEntry, bytes: &[u8]) -> Result<(Format, &[u8]), PartFault>
    ensures gives { Gives (λ x. (x.0, x.1.now)) result (format_in_entry entry bytes.now) }
    ensures shorter { IfOk result (λ x. length x.1.now ≤ length bytes.now) }
{
    match entry {
        OpcodeEntry::Unassigned => Err(PartFault::Illegal),
        OpcodeEntry::Complete(format) => Ok((format, bytes)),
        OpcodeEntry::Behind(map) => {
            let (second, rest) = next_byte(bytes)?;
            match format_behind(map, second) {
                Some(format) => Ok((format, rest)),
                None => Err(PartFault::Illegal),
            }
        }
    }
}

#[tactic(auto, unfolding(crate::specs::Decoding::opcode_at))]
fn opcode_at(bytes: &[u8]) -> Result<(Format, &[u8]), PartFault>
    ensures gives { Gives (λ x. (x.0, x.1.now)) result (opcode_at bytes.now) }
    ensures shorter { IfOk result (λ x. length x.1.now ≤ length bytes.now) }
{
    let (byte, rest) = next_byte(bytes)?;
    format_in_entry(opcode_entry(byte), rest)
}

/// The operand and the immediate behind a ModRM byte.
#[tactic(auto, unfolding(crate::specs::Decoding::rest_at))]
fn rest_at(chosen: Chosen, bytes: &[u8]) -> Result<(Insn, &[u8]), PartFault>
    ensures gives { Gives (λ x. (x.0, x.1.now)) result (rest_at chosen bytes.now) }
    ensures shorter { IfOk result (λ x. length x.1.now ≤ length bytes.now) }
{
    let Chosen { choice, mode, rm } = chosen;
    let (operand, rest) = operand_at(mode, rm, bytes)?;
    let (imm, rest) = immediate_at(choice.immediate, rest)?;
    Ok((
        Insn {
            row: choice.row,
            repeat: Repeat::Once,
            operand,
            reg: choice.reg,
            imm,
        },
        rest,
    ))
}

/// What stands behind an opcode of this format.
#[tactic(auto, unfolding(crate::specs::Decoding::insn_in_format))]
fn insn_in_format(format: Format, bytes: &[u8]) -> Result<(Insn, &[u8]), PartFault>
    ensures gives { Gives (λ x. (x.0, x.1.now)) result (insn_in_format format bytes.now) }
    ensures shorter { IfOk result (λ x. length x.1.now ≤ length bytes.now) }
{
    match format {
        Format::Plain(row, repeat, reg, immediate) => {
            let (imm, rest) = immediate_at(immediate, bytes)?;
            let operand = Operand::Absent;
            Ok((
                Insn {
                    row,
                    repeat,
                    operand,
                    reg,
                    imm,
                },
                rest,
            ))
        }
        Format::ModRm(fields) => {
            let (chosen, rest) = modrm_at(fields, bytes)?;
            rest_at(chosen, rest)
        }
    }
}

#[tactic(auto, unfolding(crate::specs::Decoding::instruction_at))]
fn instruction_at(bytes: &[u8]) -> Result<(Insn, &[u8]), PartFault>
    ensures gives { Gives (λ x. (x.0, x.1.now)) result (instruction_at bytes.now) }
    ensures shorter { IfOk result (λ x. length x.1.now ≤ length bytes.now) }
{
    let (format, rest) = opcode_at(bytes)?;
    insn_in_format(format, rest)
}

/// What the bytes begin with, by `decoded` of `specs/Decoding.antt`.
#[tactic(auto, unfolding(crate::specs::Decoding::decoded))]
fn decode_exactly(bytes: &[u8]) -> Decoded
    ensures { result ≡ decoded bytes.now }
{
    match instruction_at(bytes) {
        Ok((insn, rest)) => Decoded::Found(insn, bytes.len() - rest.len()),
        Err(PartFault::Short) => Decoded::Short,
        Err(PartFault::Illegal) => Decoded::Illegal,
    }
}

/// What the bytes begin with: the instruction that a prefix of them spells and its length; `Short` exactly
/// where they are the beginning of a longer spelling; else `Illegal`. Bytes may follow. It takes no memory.
pub fn decode(bytes: &[u8]) -> Decoded
    ensures exact { result ≡ decoded bytes.now }

    // What is found is spelled so.
    ensures found { IfFound result (λ insn len. (len ≤ length bytes.now) × Spells insn (take len bytes.now)) }
    // What is spelled so is found, whatever follows.
    ensures only { (insn : Insn) (front more : List ℕ) → bytes.now ≡ front ++ more → Spells insn front →
        result ≡ Decoded.Found insn (length front) }

    // What is found is lawful.
    ensures lawful { IfFound result (λ insn _. IsTrue (is_lawful insn)) }

    // It is short exactly where the bytes begin a longer spelling.
    ensures short { result ≡ Decoded.Short → (insn : Insn) × (next : ℕ) × (more : List ℕ)
        × AreBytes (next ∷ more) × Spells insn (bytes.now ++ next ∷ more) }
    ensures only_short { (insn : Insn) (next : ℕ) (more : List ℕ) → Spells insn (bytes.now ++ next ∷ more) → result ≡ Decoded.Short }
    // No instruction has more bytes than that.
    ensures longest { IfFound result (λ _ len. len ≤ LONGEST) }
    ensures bounded { result ≡ Decoded.Short → length bytes.now < LONGEST }
{
    decode_exactly(bytes)
}

/// Behind the spelling of an instruction no other goes on: where bytes and some more both spell, there are no more.
pub fn no_spelling_begins_another()
    ensures { (insn other : Insn) (front more : List ℕ) → Spells insn front → Spells other (front ++ more) →
        (more ≡ []) × (insn ≡ other) }
{}

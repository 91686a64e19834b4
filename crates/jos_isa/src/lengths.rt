//! How many bytes an instruction has at least.

ghost use Rattle.std.specs.Prelude.{◌≡◌, ◌+◌, ◌/◌, ◌==◌, if◌then◌else◌};
ghost use Rattle.jos_isa.specs.OpcodeMap.{opcode_entry};
ghost use Rattle.jos_isa.specs.Lengths.{immediate_size, format_rest, entry_rest, disp_size, memory_rest, choice_rest};
ghost use Rattle.jos_isa.specs.Lengths.{second_rest, least_length, AreShortBelow};

use crate::behind_opcode::{DispKind, disp_kind_of};
use crate::opcode_map::{Choice, Format, Immediate, OpcodeEntry, choice_of, opcode_entry};

/// The most bytes that an instruction has: one each of opcode, ModRM and SIB, four of displacement and four of
/// immediate.
pub const LONGEST: usize = 11;

fn immediate_size(immediate: Immediate) -> usize
    ensures { result ≡ immediate_size immediate }
{
    match immediate {
        Immediate::Nothing => 0,
        Immediate::Imm8 => 1,
        Immediate::SignedImm8 => 1,
        Immediate::Imm16 => 2,
        Immediate::Imm32 => 4,
    }
}

/// Behind the opcode: an immediate, or a ModRM byte.
fn format_rest(format: Format) -> usize
    ensures { result ≡ format_rest format }
{
    match format {
        Format::Plain(_, _, _, immediate) => immediate_size(immediate),
        Format::ModRm(_) => 1,
    }
}

/// Behind the first byte.
fn entry_rest(entry: OpcodeEntry) -> usize
    ensures { result ≡ entry_rest entry }
{
    match entry {
        OpcodeEntry::Unassigned => 0,
        OpcodeEntry::Complete(format) => format_rest(format),
        OpcodeEntry::Behind(_) => 1,
    }
}

fn disp_size(kind: DispKind) -> usize
    ensures { result ≡ disp_size kind }
{
    match kind {
        DispKind::Nothing => 0,
        DispKind::Disp8 => 1,
        DispKind::Disp32 => 4,
    }
}

/// Behind the ModRM byte of an operand in memory: a SIB byte and a displacement.
fn memory_rest(mode: u8, rm: u8) -> usize
    ensures { result ≡ memory_rest mode rm }
{
    let sib = if rm == 4 { 1 } else { 0 };
    sib + disp_size(disp_kind_of(mode, rm))
}

fn choice_rest(choice: Option<Choice>, mode: u8, rm: u8) -> usize
    ensures { result ≡ choice_rest choice mode rm }
{
    match choice {
        None => 0,
        Some(choice) => memory_rest(mode, rm) + immediate_size(choice.immediate),
    }
}

/// Behind a second byte, where it is the ModRM byte of an operand in memory.
fn second_rest(entry: OpcodeEntry, second: u8) -> usize
    ensures { result ≡ second_rest entry second }
{
    match entry {
        OpcodeEntry::Complete(Format::ModRm(fields)) => choice_rest(
            choice_of(fields, false, second / 8 % 8),
            second / 64,
            second % 8,
        ),
        _ => 0,
    }
}

/// By two bytes. With mod 3 the operand is a register, and the length is not looked for.
fn length_by_two(first: u8, second: u8) -> usize
    ensures { result ≡ (if second / 64 == 3 then 0 else 2 + second_rest (opcode_entry first) second) }
{
    if second / 64 == 3 {
        0
    } else {
        2 + second_rest(opcode_entry(first), second)
    }
}

/// A length that is surely needed: what begins with these bytes and has fewer is `Short`. It is found for a
/// first byte, and for two of which the second is the ModRM byte of an operand in memory; else it is 0.
#[tactic(auto, unfolding(crate::specs::Lengths::least_length))]
pub fn least_length(bytes: &[u8]) -> usize
    ensures exact { result ≡ least_length bytes.now }
    ensures short { AreShortBelow result bytes.now }
{
    match bytes {
        [first] => 1 + entry_rest(opcode_entry(*first)),
        [first, second] => length_by_two(*first, *second),
        _ => 0,
    }
}

//! Fetching an instruction from memory.

ghost use Rattle.std.specs.Prelude.{◌≡◌, ◌≤◌, length};
ghost use Rattle.jos_isa.specs.Decoding.{decoded};
ghost use Rattle.jos_isa.specs.ClauseWords.{IfFound};
ghost use Rattle.jos_isa.specs.Lengths.{AreShortBelow};
ghost use Rattle.jos_cpu.specs.Fetch.{FetchedFrom, Reached, byte_reached, fetched_at};

use crate::memory::{Mem, MemFault};
use arrayvec::ArrayVec;
use jos_base::{Access, INSTRUCTION_MAX};
use jos_isa::{Decoded, Insn, decode, least_length};

/// What stands at an address.
#[derive(Clone, Copy)]
pub(crate) enum Fetched {
    /// An instruction of so many bytes.
    Instruction(Insn, u32),
    /// A byte that is not reached.
    Fault(MemFault),
    /// The beginning of no instruction.
    Unknown,
}

/// Reaches for a byte and reads it.
#[tactic(auto, unfolding(crate::specs::Fetch::byte_reached, crate::specs::Memory::all_allowed))]
fn reach_byte<M: Mem>(mem: &mut M, va: u32) -> Result<u8, MemFault>
    ensures { byte_reached M.table (M.seen mem.old) va ≡ record { memory = M.seen mem.new; byte = result } }
{
    match mem.probe(va, 1, Access::Read) {
        Err(fault) => Err(fault),
        Ok(()) => Ok(mem.get(va)),
    }
}

/// What the bytes begin with. Below the least length, which the first one or two of them tell, they are not read.
fn judge(bytes: &[u8], least: &mut usize) -> Decoded
    requires { AreShortBelow least.old bytes.now }
    ensures exact { result ≡ decoded bytes.now }
    ensures short { AreShortBelow least.new bytes.now }
    ensures within { IfFound result (λ insn len. len ≤ length bytes.now) }
{
    if bytes.len() < *least {
        return Decoded::Short;
    }
    *least = least_length(bytes);
    if bytes.len() < *least {
        return Decoded::Short;
    }
    decode(bytes)
}

/// Fetches the instruction at an address, one byte after another.
#[tactic(auto, unfolding(crate::specs::Fetch::fetched_at))]
#[cold]
#[inline(never)]
fn fetch_bytes<M: Mem>(mem: &mut M, ip: u32) -> Fetched
    ensures { fetched_at M.table (M.seen mem.old) ip ≡ record { memory = M.seen mem.new; fetched = result } }
{
    let mut bytes = ArrayVec::<u8, INSTRUCTION_MAX>::new();
    let mut least = 0;
    for offset in 0..INSTRUCTION_MAX as u32 {
        match reach_byte(mem, ip.wrapping_add(offset)) {
            Ok(byte) => bytes.push(byte),
            Err(fault) => return Fetched::Fault(fault),
        }
        match judge(bytes.as_slice(), &mut least) {
            Decoded::Found(insn, len) => return Fetched::Instruction(insn, len as u32),
            Decoded::Illegal => return Fetched::Unknown,
            Decoded::Short => {}
        }
    }
    Fetched::Unknown
}

/// Fetches the instruction at an address: from a window, where it is whole there.
pub(crate) fn fetch<M: Mem>(mem: &mut M, ip: u32) -> Fetched
    ensures { fetched_at M.table (M.seen mem.old) ip ≡ record { memory = M.seen mem.new; fetched = result } }
{
    match decode(mem.window(ip)) {
        Decoded::Found(insn, len) => Fetched::Instruction(insn, len as u32),
        Decoded::Short | Decoded::Illegal => fetch_bytes(mem, ip),
    }
}

//! What an instruction reads and writes, when all its accesses are probed.

ghost use Rattle.std.specs.Prelude.{◌≡◌, true, [], ◌∷◌, ◌++◌};
ghost use Rattle.jos_alu.specs.declared.width.Width.TheVariants.{Bits32};
ghost use Rattle.jos_base.specs.declared.memory.Access.TheVariants.{Read, Write};
ghost use Rattle.jos_cpu.specs.Memory.{all_allowed, after};
ghost use Rattle.jos_cpu.specs.Accesses.{bytes_in_width, is_written, is_read};
ghost use Rattle.jos_cpu.specs.Probes.{is_open_at, is_open};
ghost use Rattle.jos_cpu.specs.Transfers.{number_at, input_of, next_word, popped_words, inputs_of, number_for};
ghost use Rattle.jos_cpu.specs.Transfers.{pushed_numbers, writes_of, stored_number, stored_all};

use crate::accesses::{AccessAt, Accesses, is_read, is_written};
use crate::memory::Mem;
use jos_alu::Width;
use jos_base::Regs;

/// The registers that POPA reads.
#[derive(Clone, Copy)]
pub(crate) struct PoppedWords {
    pub(crate) edi: u32,
    pub(crate) esi: u32,
    pub(crate) ebp: u32,
    pub(crate) ebx: u32,
    pub(crate) edx: u32,
    pub(crate) ecx: u32,
    pub(crate) eax: u32,
}

/// What an instruction reads.
#[derive(Clone, Copy)]
pub(crate) enum Inputs {
    /// The number that the first access reads, and that of the second; 0 where there is none.
    Numbers(u32, u32),
    Popped(PoppedWords),
}

/// The number at an address, the lowest byte first.
#[tactic(auto, unfolding(crate::specs::Transfers::number_at, crate::specs::Memory::all_allowed))]
#[inline(always)]
fn number_at<M: Mem>(mem: &M, va: u32, width: Width) -> u32
    requires { all_allowed (M.table.allowed (M.seen mem.now)) va (bytes_in_width width) Read ≡ true }
    ensures { result ≡ number_at M.table (M.seen mem.now) va width }
{
    if let Some(value) = mem.get_at_hand(width, va) {
        return value;
    }
    let second = va.wrapping_add(1);
    let third = second.wrapping_add(1);
    let fourth = third.wrapping_add(1);
    match width {
        Width::Bits8 => mem.get(va) as u32,
        Width::Bits16 => u16::from_le_bytes([mem.get(va), mem.get(second)]) as u32,
        Width::Bits32 => u32::from_le_bytes([
            mem.get(va),
            mem.get(second),
            mem.get(third),
            mem.get(fourth),
        ]),
    }
}

/// What an access reads; 0 where it only writes.
fn input_of<M: Mem>(mem: &M, at: AccessAt) -> u32
    requires { is_open_at (M.table.allowed (M.seen mem.now)) at ≡ true }
    ensures { result ≡ input_of M.table (M.seen mem.now) at }
{
    if is_read(at.usage) {
        number_at(mem, at.va, at.width)
    } else {
        0
    }
}

// ---- what is written

/// Puts a number at an address, the lowest byte first.
#[tactic(auto, unfolding(crate::specs::Transfers::stored_number, crate::specs::Memory::all_allowed))]
#[inline(always)]
fn store_number<M: Mem>(mem: &mut M, width: Width, va: u32, value: u32)
    requires { all_allowed (M.table.allowed (M.seen mem.old)) va (bytes_in_width width) Write ≡ true }
    ensures after { M.seen mem.new ≡ stored_number M.table (M.seen mem.old) width va value }
    ensures stays { M.table.allowed (M.seen mem.new) ≡ M.table.allowed (M.seen mem.old) }
{
    if mem.put_at_hand(width, va, value) {
        return;
    }
    let second = va.wrapping_add(1);
    let third = second.wrapping_add(1);
    let fourth = third.wrapping_add(1);
    match width {
        Width::Bits8 => mem.set(va, (value % 256) as u8),
        Width::Bits16 => {
            mem.set(va, (value % 256) as u8);
            mem.set(second, (value / 256 % 256) as u8);
        }
        Width::Bits32 => {
            mem.set(va, (value % 256) as u8);
            mem.set(second, (value / 256 % 256) as u8);
            mem.set(third, (value / 65536 % 256) as u8);
            mem.set(fourth, (value / 16777216 % 256) as u8);
        }
    }
}

/// Four bytes on.
fn next_word(va: u32) -> u32
    ensures { result ≡ next_word va }
{
    va.wrapping_add(1)
        .wrapping_add(1)
        .wrapping_add(1)
        .wrapping_add(1)
}

/// The words that POPA reads, which are pushed from EAX to EDI; that of ESP is passed over.
#[tactic(auto, unfolding(crate::specs::Transfers::popped_words, crate::specs::Memory::all_allowed))]
fn popped_words<M: Mem>(mem: &M, va: u32) -> PoppedWords
    requires { all_allowed (M.table.allowed (M.seen mem.now)) va 32 Read ≡ true }
    ensures { result ≡ popped_words M.table (M.seen mem.now) va }
{
    let second = next_word(va);
    let third = next_word(second);
    let fourth = next_word(third);
    let fifth = next_word(fourth);
    let sixth = next_word(fifth);
    let seventh = next_word(sixth);
    let eighth = next_word(seventh);
    PoppedWords {
        edi: number_at(mem, va, Width::Bits32),
        esi: number_at(mem, second, Width::Bits32),
        ebp: number_at(mem, third, Width::Bits32),
        ebx: number_at(mem, fifth, Width::Bits32),
        edx: number_at(mem, sixth, Width::Bits32),
        ecx: number_at(mem, seventh, Width::Bits32),
        eax: number_at(mem, eighth, Width::Bits32),
    }
}

/// What an instruction reads.
#[tactic(auto, unfolding(crate::specs::Transfers::inputs_of, crate::specs::Probes::is_open))]
pub(crate) fn inputs_of<M: Mem>(mem: &M, accesses: &Accesses) -> Inputs
    requires { is_open (M.table.allowed (M.seen mem.now)) accesses.now ≡ true }
    ensures { result ≡ inputs_of M.table (M.seen mem.now) accesses.now }
{
    match accesses {
        Accesses::None => Inputs::Numbers(0, 0),
        Accesses::One(first) => Inputs::Numbers(input_of(mem, *first), 0),
        Accesses::Two(first, second) => Inputs::Numbers(
            input_of(mem, *first),
            input_of(mem, *second),
        ),
        Accesses::PushAll(_) => Inputs::Numbers(0, 0),
        Accesses::PopAll(va) => Inputs::Popped(popped_words(mem, *va)),
    }
}

/// Puts a value where an access writes.
#[tactic(auto, unfolding(crate::specs::Transfers::stored_all))]
fn store_at<M: Mem>(mem: &mut M, at: AccessAt, value: u32)
    requires { is_open_at (M.table.allowed (M.seen mem.old)) at ≡ true }
    ensures after { M.seen mem.new ≡ stored_all M.table (M.seen mem.old) (number_for at value) }
    ensures stays { M.table.allowed (M.seen mem.new) ≡ M.table.allowed (M.seen mem.old) }
{
    if is_written(at.usage) {
        store_number(mem, at.width, at.va, value);
    }
}

/// Puts a value where either of two accesses writes.
#[tactic(auto, unfolding(crate::specs::Transfers::stored_all))]
fn store_both<M: Mem>(mem: &mut M, first: AccessAt, second: AccessAt, value: u32)
    requires first { is_open_at (M.table.allowed (M.seen mem.old)) first ≡ true }
    requires second { is_open_at (M.table.allowed (M.seen mem.old)) second ≡ true }
    ensures { M.seen mem.new ≡ stored_all M.table (M.seen mem.old) (number_for first value ++ number_for second value) }
{
    if is_written(first.usage) {
        store_number(mem, first.width, first.va, value);
        store_at(mem, second, value);
    } else {
        store_at(mem, second, value);
    }
}

/// What PUSHA writes: the old registers, EDI lowest.
#[tactic(auto, unfolding(crate::specs::Transfers::stored_all, crate::specs::Transfers::pushed_numbers, crate::specs::Memory::all_allowed))]
fn push_registers<M: Mem>(mem: &mut M, va: u32, regs: &Regs)
    requires { all_allowed (M.table.allowed (M.seen mem.old)) va 32 Write ≡ true }
    ensures { M.seen mem.new ≡ stored_all M.table (M.seen mem.old) (pushed_numbers va regs.now) }
{
    let second = next_word(va);
    let third = next_word(second);
    let fourth = next_word(third);
    let fifth = next_word(fourth);
    let sixth = next_word(fifth);
    let seventh = next_word(sixth);
    let eighth = next_word(seventh);
    store_number(mem, Width::Bits32, va, regs.edi);
    store_number(mem, Width::Bits32, second, regs.esi);
    store_number(mem, Width::Bits32, third, regs.ebp);
    store_number(mem, Width::Bits32, fourth, regs.esp);
    store_number(mem, Width::Bits32, fifth, regs.ebx);
    store_number(mem, Width::Bits32, sixth, regs.edx);
    store_number(mem, Width::Bits32, seventh, regs.ecx);
    store_number(mem, Width::Bits32, eighth, regs.eax);
}

/// Writes what an instruction writes: a value, or the old registers.
#[tactic(auto, unfolding(crate::specs::Transfers::writes_of, crate::specs::Probes::is_open, crate::specs::Transfers::stored_all))]
pub(crate) fn write_outputs<M: Mem>(mem: &mut M, accesses: &Accesses, regs: &Regs, value: u32)
    requires { is_open (M.table.allowed (M.seen mem.old)) accesses.now ≡ true }
    ensures { M.seen mem.new ≡ stored_all M.table (M.seen mem.old) (writes_of accesses.now regs.now value) }
{
    match accesses {
        Accesses::None => {}
        Accesses::One(first) => store_at(mem, *first, value),
        Accesses::Two(first, second) => store_both(mem, *first, *second, value),
        Accesses::PushAll(va) => push_registers(mem, *va, regs),
        Accesses::PopAll(_) => {}
    }
}

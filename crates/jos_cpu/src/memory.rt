//! Memory as the processor sees it.

ghost use Rattle.std.specs.Prelude.{◌≡◌, ℕ, Bool, true, false, OnOk, IfSome, is_ok};
ghost use Rattle.std.specs.Result.{result_err};
ghost use Rattle.jos_base.specs.declared.memory.Access.TheVariants.{Read, Write};
ghost use Rattle.jos_cpu.specs.Memory.{Memory, IsLawful, Probed, probed, all_allowed, StandAt};
ghost use Rattle.jos_cpu.specs.AtHand.{IsAtHand, IsPut};

use jos_alu::Width;
use jos_base::{Access, PageFault};

/// Why a byte is not reached.
#[derive(Clone, Copy, Debug, PartialEq, Eq)]
pub enum MemFault {
    /// The page tables refuse it.
    Page(PageFault),
    /// It lies outside of what the program may touch at all.
    Fence,
}

/// Memory that a program reaches by addresses, which are counted modulo 2^32.
pub trait Mem {
    /// What memories are seen as. Those that keep their bytes in different ways may be seen as the same.
    ghost State: { Type 0 };
    /// What this one is seen as.
    ghost seen: { Self → State };
    /// What is in a memory that is seen so, and what an access makes of it.
    ghost table: { Memory State };
    /// Where a stack pointer lets the program go on.
    ghost stands: { ℕ → Bool };

    /// Reaches for so many bytes from an address on, in rising order, up to the first that may not be reached.
    fn probe(&mut self, va: u32, len: u32, access: Access) -> Result<(), MemFault>
        ensures after { probed table (seen self.old) va len access ≡ record { memory = seen self.new; refusal = result_err result } }
        ensures exact { is_ok result ≡ all_allowed (table.allowed (seen self.old)) va len access }
        // what may be written may be read
        ensures readable { OnOk result (all_allowed (table.allowed (seen self.old)) va len Read ≡ true) }
        ensures stays { table.allowed (seen self.new) ≡ table.allowed (seen self.old) };

    /// The byte at an address that may be read.
    fn get(&self, va: u32) -> u8
        requires { table.allowed (seen self.now) va Read ≡ true }
        ensures { result ≡ table.byte (seen self.now) va };

    /// Whether a stack pointer lets the program go on.
    fn may_stand(&self, esp: u32) -> bool
        ensures { result ≡ stands esp };

    /// Bytes that stand from an address on, and that nothing changes when they are reached. There may be none anywhere.
    fn window(&self, va: u32) -> &[u8]
        ensures { StandAt table (seen self.now) va result.now };

    /// The number of a width at an address, where it may be read and nothing changes when it is reached.
    #[inline(always)]
    fn get_at_hand(&self, width: Width, va: u32) -> Option<u32>
        ensures { IfSome result (IsAtHand table (seen self.now) width va) }
    {
        match width {
            Width::Bits8 => match self.window(va) {
                [a, ..] => Some(*a as u32),
                _ => None,
            },
            Width::Bits16 => match self.window(va) {
                [a, b, ..] => Some(u16::from_le_bytes([*a, *b]) as u32),
                _ => None,
            },
            Width::Bits32 => match self.window(va) {
                [a, b, c, d, ..] => Some(u32::from_le_bytes([*a, *b, *c, *d])),
                _ => None,
            },
        }
    }

    /// Puts a number of a width at an address, where it may be written and nothing else changes when it is reached;
    /// else it changes nothing, and the result is false. It may be false anywhere.
    fn put_at_hand(&mut self, width: Width, va: u32, value: u32) -> bool
        ensures put { result ≡ true → IsPut table (seen self.old) width va value (seen self.new) }
        ensures left { result ≡ false → seen self.new ≡ seen self.old }
        ensures stays { table.allowed (seen self.new) ≡ table.allowed (seen self.old) };

    /// Puts a byte at an address that may be written.
    fn set(&mut self, va: u32, byte: u8)
        requires { table.allowed (seen self.old) va Write ≡ true }
        ensures after { seen self.new ≡ table.stored (seen self.old) va byte }
        ensures put { table.byte (seen self.new) va ≡ byte }
        ensures stays { table.allowed (seen self.new) ≡ table.allowed (seen self.old) };

    ghost lawful: { IsLawful table };
}

//! The memory of the tests.

ghost use Rattle.std.specs.Prelude.{◌≡◌, ◌+◌, ◌%◌, ◌^◌, if◌then◌else◌};
ghost use Rattle.processor_tests.specs.TestMemory.{offset, test_memory_allows, test_memory_fault, test_memory_table};

use jos_alu::Width;
use jos_base::{Access, FEC_U, FEC_WR, PageFault};
use jos_cpu::{Mem, MemFault};

pub const LEN: usize = 128;

/// Bytes from an address on, of which the first few may only be read.
#[derive(Clone, Copy)]
pub struct TestMemory {
    pub base: u32,
    pub locked: u32,
    /// Whether nothing changes when bytes are reached, so that they are at hand.
    pub standing: bool,
    /// How many bytes were reached, where that is counted.
    pub touched: u32,
    pub bytes: [u8; LEN],
}

impl TestMemory {
    fn offset(&self, va: u32) -> u32
        ensures { result ≡ offset self.now.base va }
    {
        va.wrapping_sub(self.base)
    }

    // Counts a byte that is reached.
    fn touch(&mut self)
        ensures { self.new ≡ (if self.old.standing then self.old else record self.old { touched = (self.old.touched + 1) % 2 ^ 32 }) }
    {
        if !self.standing {
            self.touched = self.touched.wrapping_add(1);
        }
    }

    fn allows(&self, va: u32, access: Access) -> bool
        ensures { result ≡ test_memory_allows self.now.base self.now.locked 128 va access }
    {
        match access {
            Access::Read => self.offset(va) < LEN as u32,
            Access::Write => self.locked <= self.offset(va) && self.offset(va) < LEN as u32,
        }
    }
}

fn test_memory_fault(va: u32, access: Access) -> MemFault
    ensures { result ≡ test_memory_fault va access }
{
    if va >= 0xf000_0000 {
        return MemFault::Fence;
    }
    match access {
        Access::Read => MemFault::Page(PageFault { va, error: FEC_U }),
        Access::Write => MemFault::Page(PageFault {
            va,
            error: FEC_U + FEC_WR,
        }),
    }
}

impl Mem for TestMemory {
    ghost use Rattle.processor_tests.specs.declared.memory.TestMemory.{TestMemory};

    ghost State = { TestMemory };

    ghost seen = { λ w. w };

    ghost table = { test_memory_table };

    ghost use Rattle.jos_cpu.specs.Memory.{anywhere};

    ghost stands = { anywhere };

    fn probe(&mut self, va: u32, len: u32, access: Access) -> Result<(), MemFault> {
        let mut at = va;
        for _ in 0..len {
            if !self.allows(at, access) {
                return Err(test_memory_fault(at, access));
            }
            self.touch();
            at = at.wrapping_add(1);
        }
        Ok(())
    }

    fn get(&self, va: u32) -> u8 {
        self.bytes[self.offset(va) as usize]
    }

    fn may_stand(&self, _esp: u32) -> bool {
        true
    }

    fn window(&self, va: u32) -> &[u8] {
        let offset = self.offset(va) as usize;
        if self.standing && offset < LEN {
            &self.bytes[offset..]
        } else {
            &[]
        }
    }

    fn put_at_hand(&mut self, width: Width, va: u32, value: u32) -> bool {
        let offset = self.offset(va) as usize;
        match width {
            Width::Bits8 => {
                if self.standing && self.locked as usize <= offset && offset < LEN {
                    self.bytes[offset] = (value % 256) as u8;
                    true
                } else {
                    false
                }
            }
            Width::Bits16 => false,
            Width::Bits32 => {
                if self.standing && self.locked as usize <= offset && offset < LEN - 3 {
                    self.bytes[offset] = (value % 256) as u8;
                    self.bytes[offset + 1] = (value / 256 % 256) as u8;
                    self.bytes[offset + 2] = (value / 65536 % 256) as u8;
                    self.bytes[offset + 3] = (value / 16777216 % 256) as u8;
                    true
                } else {
                    false
                }
            }
        }
    }

    fn set(&mut self, va: u32, byte: u8) {
        let offset = self.offset(va) as usize;
        self.bytes[offset] = byte;
    }

    ghost use Rattle.std.specs.Prelude.{refl};
    ghost use Rattle.jos_cpu.specs.MemoryProofs.{set_or_same};
    ghost use Rattle.processor_tests.specs.MemoryProofs.{either_way};

    ghost lawful = { record {
      reached_rights = λ m va access. either_way m (record m { touched = (m.touched + 1) % 2 ^ 32 }) m.standing (λ w q wanted. test_memory_allows w.base w.locked 128 q wanted) refl;
      reached_faults = λ m va access. refl;
      stored_bytes = λ m va byte q. set_or_same m.bytes (offset m.base va) byte (offset m.base q);
      stored_rights = λ m va byte. refl;
      stored_faults = λ m va byte. refl;
    } };
}

//! The registers by number.

ghost use Rattle.std.specs.Prelude.{◌≡◌};
ghost use Rattle.jos_alu.specs.Registers.{register, with_register, byte_register, with_byte_register, with_low_byte};
ghost use Rattle.jos_alu.specs.Registers.{with_second_byte, with_low_half, register_at, with_register_at, advanced};

use crate::width::Width;
use jos_base::Regs;

/// The general register of this number, EAX to EDI.
#[tactic(auto, unfolding(crate::specs::Registers::register))]
#[inline(always)]
pub fn register(regs: &Regs, n: u8) -> u32
    ensures { result ≡ register regs.now n }
{
    match n {
        0 => regs.eax,
        1 => regs.ecx,
        2 => regs.edx,
        3 => regs.ebx,
        4 => regs.esp,
        5 => regs.ebp,
        6 => regs.esi,
        _ => regs.edi,
    }
}

#[tactic(auto, unfolding(crate::specs::Registers::with_register))]
#[inline(always)]
pub fn set_register(regs: &mut Regs, n: u8, value: u32)
    ensures { regs.new ≡ with_register regs.old n value }
{
    match n {
        0 => regs.eax = value,
        1 => regs.ecx = value,
        2 => regs.edx = value,
        3 => regs.ebx = value,
        4 => regs.esp = value,
        5 => regs.ebp = value,
        6 => regs.esi = value,
        _ => regs.edi = value,
    }
}

/// AL, CL, DL and BL, and then AH, CH, DH and BH.
#[inline(always)]
fn byte_register(regs: &Regs, n: u8) -> u32
    ensures { result ≡ byte_register regs.now n }
{
    if n < 4 {
        register(regs, n) % 256
    } else {
        register(regs, n - 4) / 256 % 256
    }
}

fn with_low_byte(word: u32, value: u32) -> u32
    ensures { result ≡ with_low_byte word value }
{
    word / 256 * 256 + value % 256
}

/// Bits 15 to 8.
fn with_second_byte(word: u32, value: u32) -> u32
    ensures { result ≡ with_second_byte word value }
{
    word / 65536 * 65536 + value % 256 * 256 + word % 256
}

fn with_low_half(word: u32, value: u32) -> u32
    ensures { result ≡ with_low_half word value }
{
    word / 65536 * 65536 + value % 65536
}

fn set_byte_register(regs: &mut Regs, n: u8, value: u32)
    ensures { regs.new ≡ with_byte_register regs.old n value }
{
    if n < 4 {
        let word = with_low_byte(register(regs, n), value);
        set_register(regs, n, word);
    } else {
        let word = with_second_byte(register(regs, n - 4), value);
        set_register(regs, n - 4, word);
    }
}

/// The register of a width.
#[tactic(auto, unfolding(crate::specs::Registers::register_at))]
#[inline(always)]
pub fn register_at(width: Width, regs: &Regs, n: u8) -> u32
    ensures { result ≡ register_at width regs.now n }
{
    match width {
        Width::Bits8 => byte_register(regs, n),
        Width::Bits16 => register(regs, n) % 65536,
        Width::Bits32 => register(regs, n),
    }
}

#[tactic(auto, unfolding(crate::specs::Registers::with_register_at))]
#[inline(always)]
pub fn set_register_at(width: Width, regs: &mut Regs, n: u8, value: u32)
    ensures { regs.new ≡ with_register_at width regs.old n value }
{
    match width {
        Width::Bits8 => set_byte_register(regs, n, value),
        Width::Bits16 => {
            let word = with_low_half(register(regs, n), value);
            set_register(regs, n, word);
        }
        Width::Bits32 => set_register(regs, n, value),
    }
}

/// Moves EIP by a distance.
#[inline(always)]
pub fn advance(regs: &mut Regs, distance: u32)
    ensures { regs.new ≡ advanced regs.old distance }
{
    regs.eip = regs.eip.wrapping_add(distance);
}

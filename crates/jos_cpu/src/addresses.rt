//! The addresses that registers make.

ghost use Rattle.std.specs.Prelude.{◌≡◌, ◌*◌, ◌%◌, ◌^◌};
ghost use Rattle.jos_cpu.specs.Addresses.{base_word, factor_of, disp_word, address_of};

use jos_alu::register;
use jos_base::Regs;
use jos_isa::{Disp, MemArg};

/// The register that the operand names, or 0.
#[inline(always)]
fn base_word(regs: &Regs, base: Option<u8>) -> u32
    ensures { result ≡ base_word regs.now base }
{
    match base {
        None => 0,
        Some(n) => register(regs, n),
    }
}

/// By what the index is multiplied.
#[inline(always)]
fn factor_of(scale: u8) -> u32
    ensures { result ≡ factor_of scale }
{
    match scale {
        0 => 1,
        1 => 2,
        2 => 4,
        _ => 8,
    }
}

/// A signed byte is extended.
#[inline(always)]
fn disp_word(disp: Disp) -> u32
    ensures { result ≡ disp_word disp }
{
    match disp {
        Disp::Zero => 0,
        Disp::Byte(value) => i32::from(value).cast_unsigned(),
        Disp::Word(value) => value,
    }
}

#[inline(always)]
fn scaled_index(regs: &Regs, arg: &MemArg) -> u32
    ensures { result ≡ (base_word regs.now arg.now.index * factor_of arg.now.scale) % 2 ^ 32 }
{
    base_word(regs, arg.index).wrapping_mul(factor_of(arg.scale))
}

/// The address of an operand in memory.
#[tactic(auto, unfolding(crate::specs::Addresses::address_of))]
#[inline(always)]
pub fn address_of(arg: &MemArg, regs: &Regs) -> u32
    ensures { result ≡ address_of arg.now regs.now }
{
    base_word(regs, arg.base)
        .wrapping_add(scaled_index(regs, arg))
        .wrapping_add(disp_word(arg.disp))
}

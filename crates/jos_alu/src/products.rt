//! Products and quotients, unsigned and signed.

ghost use Rattle.std.specs.Prelude.{◌≡◌, ◌*ℤ◌, ◌%◌};
ghost use Rattle.jos_alu.specs.Flags.{modulus};
ghost use Rattle.jos_alu.specs.Products.{signed_of, sign_extended, extended, bits_of, double_register, with_halves};
ghost use Rattle.jos_alu.specs.Products.{product_of, is_too_long, halves_of, product_status, product_flags};
ghost use Rattle.jos_alu.specs.Products.{multiplied, unsigned_quotient, fits_in, signed_quotient, signed_double};
ghost use Rattle.jos_alu.specs.Products.{quotient_of};

use crate::flags::{Computed, StatusFlags, lowest, modulus, status_flags_of, with_status_flags};
use crate::registers::set_register_at;
use crate::width::Width;
use jos_base::Regs;

/// Whether numbers are read as signed.
#[derive(Clone, Copy, Debug, PartialEq, Eq)]
pub enum Sign {
    Unsigned,
    Signed,
}

/// The halves of a number of twice the width, or a remainder above a quotient.
#[derive(Clone, Copy)]
pub struct Halves {
    pub low: u32,
    pub high: u32,
}

/// The signed number that the lowest bits stand for.
#[tactic(auto, unfolding(crate::specs::Products::signed_of))]
fn signed_of(width: Width, n: u64) -> i32
    ensures { result ≡ signed_of width n }
{
    match width {
        Width::Bits8 => i32::from(((n % 256) as u8).cast_signed()),
        Width::Bits16 => i32::from(((n % 65536) as u16).cast_signed()),
        Width::Bits32 => ((n % (1 << 32)) as u32).cast_signed(),
    }
}

/// A signed number of a width as a word.
#[tactic(auto, unfolding(crate::specs::Products::sign_extended))]
pub fn sign_extend(width: Width, n: u32) -> u32
    ensures { result ≡ sign_extended width n }
{
    signed_of(width, n as u64).cast_unsigned()
}

/// A number of a width as a word.
pub fn extend(sign: Sign, width: Width, n: u32) -> u32
    ensures { result ≡ extended sign width n }
{
    match sign {
        Sign::Unsigned => lowest(width, n as u64),
        Sign::Signed => sign_extend(width, n),
    }
}

/// The dividend: AX, DX and AX, or EDX and EAX.
#[tactic(auto, unfolding(crate::specs::Products::double_register))]
pub fn double_register(width: Width, regs: &Regs) -> u64
    ensures { result ≡ double_register width regs.now }
{
    match width {
        Width::Bits8 => (regs.eax % 65536) as u64,
        Width::Bits16 => (regs.edx % 65536) as u64 * 65536 + (regs.eax % 65536) as u64,
        Width::Bits32 => regs.edx as u64 * (1 << 32) + regs.eax as u64,
    }
}

/// Puts two halves into AX, DX and AX, or EDX and EAX.
#[tactic(auto, unfolding(crate::specs::Products::with_halves))]
pub fn set_halves(width: Width, regs: &mut Regs, halves: Halves)
    ensures { regs.new ≡ with_halves width regs.old halves }
{
    let Halves { low, high } = halves;
    match width {
        Width::Bits8 => set_register_at(Width::Bits16, regs, 0, high % 256 * 256 + low % 256),
        Width::Bits16 => {
            set_register_at(Width::Bits16, regs, 0, low);
            set_register_at(Width::Bits16, regs, 2, high);
        }
        Width::Bits32 => {
            regs.eax = low;
            regs.edx = high;
        }
    }
}

fn signed_product(width: Width, a: u32, b: u32) -> u64
    ensures { result ≡ bits_of (signed_of width a *ℤ signed_of width b) }
{
    let left = i64::from(signed_of(width, a as u64));
    let right = i64::from(signed_of(width, b as u64));
    (left * right).cast_unsigned()
}

/// The whole product.
#[tactic(auto, unfolding(crate::specs::Products::product_of))]
pub fn product_of(sign: Sign, width: Width, a: u32, b: u32) -> u64
    ensures { result ≡ product_of sign width a b }
{
    match sign {
        Sign::Unsigned => a as u64 * b as u64,
        Sign::Signed => signed_product(width, a, b),
    }
}

/// Whether a product needs its upper half.
#[tactic(auto, unfolding(crate::specs::Products::is_too_long))]
pub fn is_too_long(sign: Sign, width: Width, n: u64) -> bool
    ensures { result ≡ is_too_long sign width n }
{
    match sign {
        Sign::Unsigned => n >= modulus(width),
        Sign::Signed => i64::from(signed_of(width, n)).cast_unsigned() != n,
    }
}

pub fn halves_of(width: Width, n: u64) -> Halves
    ensures { result ≡ halves_of width n }
{
    Halves {
        low: lowest(width, n),
        high: lowest(width, n / modulus(width)),
    }
}

/// CF and OF tell a long product.
fn product_status(long: bool, flags: StatusFlags) -> StatusFlags
    ensures { result ≡ product_status long flags }
{
    StatusFlags {
        carry: long,
        overflow: long,
        ..flags
    }
}

pub fn product_flags(eflags: u32, long: bool) -> u32
    ensures { result ≡ product_flags eflags long }
{
    with_status_flags(eflags, product_status(long, status_flags_of(eflags)))
}

/// The low half of a signed product, with the flags.
pub fn multiply(width: Width, a: u32, b: u32, eflags: u32) -> Computed
    ensures { result ≡ multiplied width a b eflags }
{
    let n = product_of(Sign::Signed, width, a, b);
    Computed {
        value: lowest(width, n),
        eflags: product_flags(eflags, is_too_long(Sign::Signed, width, n)),
    }
}

/// A quotient and its remainder.
#[tactic(auto, unfolding(crate::specs::Products::unsigned_quotient))]
fn unsigned_quotient(width: Width, n: u64, d: u32) -> Option<Halves>
    ensures { result ≡ unsigned_quotient width n d }
{
    if d == 0 {
        return None;
    }
    let quotient = n / d as u64;
    if quotient >= modulus(width) {
        return None;
    }
    Some(Halves {
        low: quotient as u32,
        high: (n % d as u64) as u32,
    })
}

/// Whether a signed number fits into a width.
#[tactic(auto, unfolding(crate::specs::Products::fits_in))]
fn fits_in(width: Width, n: i64) -> bool
    ensures { result ≡ fits_in width n }
{
    match width {
        Width::Bits8 => n >= -128 && n < 128,
        Width::Bits16 => n >= -32768 && n < 32768,
        Width::Bits32 => n >= -2147483648 && n < 2147483648,
    }
}

/// Of a negative number the lowest bits of its two's complement.
fn lowest_of(width: Width, n: i64) -> u32
    ensures { result ≡ bits_of n % modulus width }
{
    lowest(width, n.cast_unsigned())
}

#[tactic(auto, unfolding(crate::specs::Products::signed_quotient))]
fn signed_quotient(width: Width, n: i64, d: i64) -> Option<Halves>
    ensures { result ≡ signed_quotient width n d }
{
    if d == 0 {
        return None;
    }
    match n.checked_div(d) {
        None => None,
        Some(quotient) => {
            if fits_in(width, quotient) {
                Some(Halves {
                    low: lowest_of(width, quotient),
                    high: lowest_of(width, n % d),
                })
            } else {
                None
            }
        }
    }
}

/// The signed number of twice the width.
#[tactic(auto, unfolding(crate::specs::Products::signed_double))]
fn signed_double(width: Width, n: u64) -> i64
    ensures { result ≡ signed_double width n }
{
    match width {
        Width::Bits8 => i64::from(((n % 65536) as u16).cast_signed()),
        Width::Bits16 => i64::from(((n % (1 << 32)) as u32).cast_signed()),
        Width::Bits32 => n.cast_signed(),
    }
}

/// A signed number of a width, in 64 bits.
fn widened(width: Width, n: u32) -> i64
    ensures { result ≡ signed_of width n }
{
    i64::from(signed_of(width, n as u64))
}

/// The quotient below and the remainder above, if the divisor is not 0 and the quotient fits.
pub fn quotient_of(sign: Sign, width: Width, n: u64, d: u32) -> Option<Halves>
    ensures { result ≡ quotient_of sign width n d }
{
    match sign {
        Sign::Unsigned => unsigned_quotient(width, n, d),
        Sign::Signed => signed_quotient(width, signed_double(width, n), widened(width, d)),
    }
}

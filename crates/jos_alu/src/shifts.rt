//! Shifts and rotations.

ghost use Rattle.std.specs.Prelude.{◌≡◌, ◌*◌, ◌/◌, ◌%◌, ◌^◌, ◌<◌, ◌==◌, false, if◌then◌else◌};
ghost use Rattle.jos_alu.specs.Flags.{modulus, is_negative};
ghost use Rattle.jos_alu.specs.declared.shifts.Shift.TheVariants.{Rol, Shld, Shrd};
ghost use Rattle.jos_alu.specs.Shifts.{is_odd, shift_times, second_top, shift_overflow, overflow_after};
ghost use Rattle.jos_alu.specs.Shifts.{rotated_flags, shift_flags, shift_result, shift_start, shifted};

use crate::flags::{
    Computed, StatusFlags, flags_of_result, is_negative, lowest, modulus, status_flags_of,
    with_status_flags,
};
use crate::width::Width;

/// How bits are shifted by one place.
#[derive(Clone, Copy, Debug, PartialEq, Eq)]
pub enum Shift {
    Rol,
    Ror,
    Shl,
    Shr,
    Sar,
    Shld,
    Shrd,
}

/// A shift on its way: the value, the register whose bits come in, and the last bit that went out.
#[derive(Clone, Copy)]
pub(crate) struct Shifting {
    pub(crate) value: u32,
    pub(crate) other: u32,
    pub(crate) carry: bool,
}

#[inline(always)]
fn is_odd(n: u32) -> bool
    ensures { result ≡ is_odd n }
{
    n % 2 == 1
}

/// What stands above the lowest bits.
#[inline(always)]
fn above(width: Width, n: u64) -> u64
    ensures { result ≡ n / modulus width }
{
    match width {
        Width::Bits8 => n / 256,
        Width::Bits16 => n / 65536,
        Width::Bits32 => n / (1 << 32),
    }
}

/// A number moved up, with no bit lost.
#[inline(always)]
fn move_up(n: u32, count: u32) -> u64
    requires { count < 32 }
    ensures { result ≡ n * 2 ^ count }
{
    (n as u64) << count
}

/// A number moved up as SHLD does it: the top bits of another one come in below. The last bit that goes out comes
/// to stand just above the width.
#[inline(always)]
fn shift_up(width: Width, count: u32, value: u32, other: u32) -> Shifting
    requires some { 0 < count }
    requires few { count < 32 }
    ensures { result ≡ shift_times Shld width count (shift_start value other) }
{
    let behind = move_up(lowest(width, other as u64), count);
    let moved = move_up(value, count) + above(width, behind);
    Shifting {
        value: lowest(width, moved),
        other: lowest(width, behind),
        carry: above(width, moved) % 2 == 1,
    }
}

/// A number moved down as SHRD does it: the lowest bits of another one come in above. Before the last place the
/// bit that goes out is the lowest one.
#[inline(always)]
fn shift_down(width: Width, count: u32, value: u32, other: u32) -> Shifting
    requires some { 0 < count }
    requires few { count < 32 }
    requires small { value < modulus width }
    ensures { result ≡ shift_times Shrd width count (shift_start value other) }
{
    let moved = (other as u64 * modulus(width) + value as u64) >> (count - 1);
    Shifting {
        value: lowest(width, moved / 2),
        other: other >> count,
        carry: moved % 2 == 1,
    }
}

/// A number turned up: what goes out at the top comes in at the bottom.
#[inline(always)]
fn rotate_up(width: Width, count: u32, value: u32) -> u32
    requires { value < modulus width }
    ensures { result ≡ (shift_times Rol width count (shift_start value 0)).value }
{
    match width {
        Width::Bits8 => u32::from((value as u8).rotate_left(count)),
        Width::Bits16 => u32::from((value as u16).rotate_left(count)),
        Width::Bits32 => value.rotate_left(count),
    }
}

/// What SAR lets in from above: more copies of the sign than any count takes.
#[inline(always)]
fn copies_of_sign(width: Width, n: u32) -> u32
    ensures { result ≡ (if is_negative width n then 0xffff_ffff else 0) }
{
    if is_negative(width, n) {
        0xffff_ffff
    } else {
        0
    }
}

/// So many shifts by one place, in one go.
#[inline(always)]
fn shift_times(shift: Shift, width: Width, count: u32, value: u32, other: u32) -> Shifting
    requires some { 0 < count }
    requires few { count < 32 }
    requires small { value < modulus width }
    ensures { result ≡ shift_times shift width count (shift_start value other) }
{
    match shift {
        Shift::Rol => {
            let turned = rotate_up(width, count, value);
            Shifting {
                value: turned,
                other,
                carry: is_odd(turned),
            }
        }
        Shift::Ror => {
            // 32 places are whole turns at each width, so down by some of them is up by the rest.
            let turned = rotate_up(width, 32 - count, value);
            Shifting {
                value: turned,
                other,
                carry: is_negative(width, turned),
            }
        }
        Shift::Shl => Shifting {
            other,
            ..shift_up(width, count, value, 0)
        },
        Shift::Shr => Shifting {
            other,
            ..shift_down(width, count, value, 0)
        },
        Shift::Sar => Shifting {
            other,
            ..shift_down(width, count, value, copies_of_sign(width, value))
        },
        Shift::Shld => shift_up(width, count, value, other),
        Shift::Shrd => shift_down(width, count, value, other),
    }
}

/// The bit below the top.
#[inline(always)]
fn second_top(width: Width, n: u32) -> bool
    ensures { result ≡ second_top width n }
{
    match width {
        Width::Bits8 => n % 128 >= 64,
        Width::Bits16 => n % 32768 >= 16384,
        Width::Bits32 => n % 0x8000_0000 >= 0x4000_0000,
    }
}

/// OF after a shift by one place.
#[inline(always)]
fn shift_overflow(shift: Shift, width: Width, old: u32, new: u32, carry: bool, kept: bool) -> bool
    ensures { result ≡ shift_overflow shift width old new carry kept }
{
    match shift {
        Shift::Rol => carry != is_negative(width, new),
        Shift::Ror => is_negative(width, new) != second_top(width, new),
        Shift::Shl => carry != is_negative(width, new),
        Shift::Shr => is_negative(width, old),
        Shift::Sar => false,
        Shift::Shld => kept,
        Shift::Shrd => kept,
    }
}

/// A shift by more places keeps OF.
#[inline(always)]
fn overflow_after(shift: Shift, width: Width, old: u32, s: Shifting, count: u32, kept: bool) -> bool
    ensures { result ≡ overflow_after shift width old s count kept }
{
    if count == 1 {
        shift_overflow(shift, width, old, s.value, s.carry, kept)
    } else {
        kept
    }
}

/// Rotations change CF and OF alone.
#[inline(always)]
fn rotated_flags(flags: StatusFlags, carry: bool, overflow: bool) -> StatusFlags
    ensures { result ≡ rotated_flags flags carry overflow }
{
    StatusFlags {
        carry,
        overflow,
        ..flags
    }
}

/// Other shifts set SF, ZF and PF too, and keep AF.
#[tactic(auto, unfolding(crate::specs::Shifts::shift_flags))]
#[inline(always)]
fn shift_flags(
    shift: Shift,
    width: Width,
    old: u32,
    s: Shifting,
    count: u32,
    flags: StatusFlags,
) -> StatusFlags
    ensures { result ≡ shift_flags shift width old s count flags }
{
    let overflow = overflow_after(shift, width, old, s, count, flags.overflow);
    match shift {
        Shift::Rol | Shift::Ror => rotated_flags(flags, s.carry, overflow),
        Shift::Shl | Shift::Shr | Shift::Sar | Shift::Shld | Shift::Shrd => {
            flags_of_result(width, s.value, s.carry, flags.auxiliary, overflow)
        }
    }
}

/// The value with its flags.
#[inline(always)]
fn shift_result(
    shift: Shift,
    width: Width,
    old: u32,
    s: Shifting,
    count: u32,
    eflags: u32,
) -> Computed
    ensures { result ≡ shift_result shift width old s count eflags }
{
    let flags = shift_flags(shift, width, old, s, count, status_flags_of(eflags));
    Computed {
        value: s.value,
        eflags: with_status_flags(eflags, flags),
    }
}

/// A number shifted by a count, which is taken modulo 32, with the flags.
#[tactic(auto, unfolding(crate::specs::Shifts::shifted))]
#[inline(always)]
pub fn shift_by(
    shift: Shift,
    width: Width,
    value: u32,
    other: u32,
    count: u32,
    eflags: u32,
) -> Computed
    ensures { result ≡ shifted shift width value other count eflags }
{
    let places = count % 32;
    if places == 0 {
        Computed { value, eflags }
    } else {
        let s = shift_times(shift, width, places, lowest(width, value as u64), other);
        shift_result(shift, width, value, s, places, eflags)
    }
}

//! Sums, differences and logic at a width, the status flags of the processor, and the conditions on them.

ghost use Rattle.std.specs.Prelude.{◌≡◌, ◌+◌, ◌%◌, ◌==◌};
ghost use Rattle.jos_base.specs.Environments.{bit_of};
ghost use Rattle.jos_alu.specs.Flags.{modulus, sign_bit, is_negative, flag, is_set, status_flags_of};
ghost use Rattle.jos_alu.specs.Flags.{with_status_flags};
ghost use Rattle.jos_alu.specs.Flags.{flags_of_result, sum_of, flags_of_sum, difference_of, flags_of_difference};
ghost use Rattle.jos_alu.specs.Flags.{flags_of_logic, keeping_carry, added, subtracted, combined, increased};
ghost use Rattle.jos_alu.specs.Flags.{decreased, operated, is_less, condition_holds};

use crate::condition::Condition;
use crate::operation::Operation;
use crate::width::Width;
use jos_base::{FL_AF, FL_CF, FL_OF, FL_PF, FL_SF, FL_ZF};

/// The bits of EFLAGS beside these six.
const OTHERS: u32 = 0xffff_f72a;

/// The flags that arithmetic sets.
#[derive(Clone, Copy)]
pub(crate) struct StatusFlags {
    pub(crate) carry: bool,
    pub(crate) parity: bool,
    pub(crate) auxiliary: bool,
    pub(crate) zero: bool,
    pub(crate) sign: bool,
    pub(crate) overflow: bool,
}

/// A number and the flags with it.
#[derive(Clone, Copy)]
pub struct Computed {
    pub value: u32,
    pub eflags: u32,
}

/// The lowest bits, as many as the width has.
#[inline(always)]
pub fn lowest(width: Width, n: u64) -> u32
    ensures { result ≡ n % modulus width }
{
    match width {
        Width::Bits8 => (n % 256) as u32,
        Width::Bits16 => (n % 65536) as u32,
        Width::Bits32 => (n % (1 << 32)) as u32,
    }
}

/// How many numbers there are of a width.
#[inline(always)]
pub(crate) fn modulus(width: Width) -> u64
    ensures { result ≡ modulus width }
{
    match width {
        Width::Bits8 => 256,
        Width::Bits16 => 65536,
        Width::Bits32 => 1 << 32,
    }
}

/// The top bit of a width, which negative numbers have.
#[inline(always)]
pub(crate) fn sign_bit(width: Width) -> u32
    ensures { result ≡ sign_bit width }
{
    match width {
        Width::Bits8 => 128,
        Width::Bits16 => 32768,
        Width::Bits32 => 0x8000_0000,
    }
}

/// Whether the top bit of the width is set.
#[inline(always)]
pub fn is_negative(width: Width, n: u32) -> bool
    ensures { result ≡ is_negative width n }
{
    lowest(width, n as u64) >= sign_bit(width)
}

#[inline(always)]
pub fn bit_of(set: bool) -> u32
    ensures { result ≡ bit_of set }
{
    if set { 1 } else { 0 }
}

/// The bit of a flag, where it is set.
#[inline(always)]
fn flag(set: bool, place: u32) -> u32
    ensures { result ≡ flag set place }
{
    if set { place } else { 0 }
}

/// Whether a flag is set in EFLAGS.
#[inline(always)]
pub fn is_set(eflags: u32, flag: u32) -> bool
    ensures { result ≡ is_set eflags flag }
{
    eflags & flag != 0
}

/// The six status flags of EFLAGS.
#[tactic(auto, unfolding(crate::specs::Flags::status_flags_of))]
pub(crate) fn status_flags_of(eflags: u32) -> StatusFlags
    ensures { result ≡ status_flags_of eflags }
{
    StatusFlags {
        carry: is_set(eflags, FL_CF),
        parity: is_set(eflags, FL_PF),
        auxiliary: is_set(eflags, FL_AF),
        zero: is_set(eflags, FL_ZF),
        sign: is_set(eflags, FL_SF),
        overflow: is_set(eflags, FL_OF),
    }
}

/// EFLAGS with these flags, and all else as it was.
#[tactic(auto, unfolding(crate::specs::Flags::with_status_flags))]
#[inline(always)]
pub(crate) fn with_status_flags(eflags: u32, flags: StatusFlags) -> u32
    ensures { result ≡ with_status_flags eflags flags }
{
    eflags & OTHERS
        | flag(flags.carry, FL_CF)
        | flag(flags.parity, FL_PF)
        | flag(flags.auxiliary, FL_AF)
        | flag(flags.zero, FL_ZF)
        | flag(flags.sign, FL_SF)
        | flag(flags.overflow, FL_OF)
}

/// SF, ZF and PF by the result, and the others as they are given.
#[inline(always)]
pub(crate) fn flags_of_result(
    width: Width,
    result_word: u32,
    carry: bool,
    auxiliary: bool,
    overflow: bool,
) -> StatusFlags
    ensures { result ≡ flags_of_result width result_word carry auxiliary overflow }
{
    StatusFlags {
        carry,
        parity: (result_word % 256).count_ones() % 2 == 0,
        auxiliary,
        zero: result_word == 0,
        sign: is_negative(width, result_word),
        overflow,
    }
}

/// The sum, modulo the width.
#[inline(always)]
fn sum_of(width: Width, a: u32, b: u32, carry: u32) -> u32
    ensures { result ≡ sum_of width a b carry }
{
    lowest(width, a as u64 + b as u64 + carry as u64)
}

/// AF is the carry out of the low four bits.
#[tactic(auto, unfolding(crate::specs::Flags::flags_of_sum))]
#[inline(always)]
fn flags_of_sum(width: Width, a: u32, b: u32, carry: u32) -> StatusFlags
    ensures { result ≡ flags_of_sum width a b carry }
{
    let result_word = sum_of(width, a, b, carry);
    let carried = a as u64 + b as u64 + carry as u64 >= modulus(width);
    let auxiliary = (a % 16 + b % 16) as u64 + carry as u64 >= 16;
    let overflow = is_negative(width, a) == is_negative(width, b)
        && is_negative(width, a) != is_negative(width, result_word);
    flags_of_result(width, result_word, carried, auxiliary, overflow)
}

/// The difference, modulo the width.
#[inline(always)]
fn difference_of(width: Width, a: u32, b: u32, borrow: u32) -> u32
    ensures { result ≡ difference_of width a b borrow }
{
    lowest(width, a as u64 + (1 << 33) - (b as u64 + borrow as u64))
}

/// CF and AF are borrows.
#[tactic(auto, unfolding(crate::specs::Flags::flags_of_difference))]
#[inline(always)]
fn flags_of_difference(width: Width, a: u32, b: u32, borrow: u32) -> StatusFlags
    ensures { result ≡ flags_of_difference width a b borrow }
{
    let result_word = difference_of(width, a, b, borrow);
    let borrowed = (a as u64) < b as u64 + borrow as u64;
    let auxiliary = ((a % 16) as u64) < (b % 16) as u64 + borrow as u64;
    let overflow = is_negative(width, a) != is_negative(width, b)
        && is_negative(width, a) != is_negative(width, result_word);
    flags_of_result(width, result_word, borrowed, auxiliary, overflow)
}

/// CF and OF are cleared, and AF is kept.
#[tactic(auto, unfolding(crate::specs::Flags::flags_of_logic))]
#[inline(always)]
fn flags_of_logic(width: Width, result_word: u32, eflags: u32) -> StatusFlags
    ensures { result ≡ flags_of_logic width result_word eflags }
{
    flags_of_result(width, result_word, false, is_set(eflags, FL_AF), false)
}

/// INC and DEC keep CF.
#[inline(always)]
fn keeping_carry(eflags: u32, flags: StatusFlags) -> StatusFlags
    ensures { result ≡ keeping_carry eflags flags }
{
    StatusFlags {
        carry: is_set(eflags, FL_CF),
        ..flags
    }
}

/// ADD, and ADC with its carry.
#[inline(always)]
fn add(width: Width, a: u32, b: u32, carry: u32, eflags: u32) -> Computed
    ensures { result ≡ added width a b carry eflags }
{
    Computed {
        value: sum_of(width, a, b, carry),
        eflags: with_status_flags(eflags, flags_of_sum(width, a, b, carry)),
    }
}

/// SUB and CMP, and SBB with its borrow.
#[inline(always)]
pub fn subtract(width: Width, a: u32, b: u32, borrow: u32, eflags: u32) -> Computed
    ensures { result ≡ subtracted width a b borrow eflags }
{
    Computed {
        value: difference_of(width, a, b, borrow),
        eflags: with_status_flags(eflags, flags_of_difference(width, a, b, borrow)),
    }
}

/// AND, OR, XOR and TEST, by their result.
#[inline(always)]
pub fn combine(width: Width, value: u32, eflags: u32) -> Computed
    ensures { result ≡ combined width value eflags }
{
    Computed {
        value,
        eflags: with_status_flags(eflags, flags_of_logic(width, value, eflags)),
    }
}

/// INC, where `b` is 1.
#[inline(always)]
pub fn increase(width: Width, a: u32, b: u32, eflags: u32) -> Computed
    ensures { result ≡ increased width a b eflags }
{
    let flags = keeping_carry(eflags, flags_of_sum(width, a, b, 0));
    Computed {
        value: sum_of(width, a, b, 0),
        eflags: with_status_flags(eflags, flags),
    }
}

/// DEC, where `b` is 1.
#[inline(always)]
pub fn decrease(width: Width, a: u32, b: u32, eflags: u32) -> Computed
    ensures { result ≡ decreased width a b eflags }
{
    let flags = keeping_carry(eflags, flags_of_difference(width, a, b, 0));
    Computed {
        value: difference_of(width, a, b, 0),
        eflags: with_status_flags(eflags, flags),
    }
}

/// What an operation makes of two numbers.
#[tactic(auto, unfolding(crate::specs::Flags::operated))]
#[inline(always)]
pub fn operate(operation: Operation, width: Width, a: u32, b: u32, eflags: u32) -> Computed
    ensures { result ≡ operated operation width a b eflags }
{
    match operation {
        Operation::Add => add(width, a, b, 0, eflags),
        Operation::Or => combine(width, a | b, eflags),
        Operation::Adc => add(width, a, b, bit_of(is_set(eflags, FL_CF)), eflags),
        Operation::Sbb => subtract(width, a, b, bit_of(is_set(eflags, FL_CF)), eflags),
        Operation::And => combine(width, a & b, eflags),
        Operation::Sub => subtract(width, a, b, 0, eflags),
        Operation::Xor => combine(width, a ^ b, eflags),
        Operation::Cmp => subtract(width, a, b, 0, eflags),
    }
}

/// Whether SF and OF differ.
#[inline(always)]
fn is_less(eflags: u32) -> bool
    ensures { result ≡ is_less eflags }
{
    is_set(eflags, FL_SF) != is_set(eflags, FL_OF)
}

/// Whether a condition holds of EFLAGS.
#[tactic(auto, unfolding(crate::specs::Flags::condition_holds))]
#[inline(always)]
pub fn condition_holds(eflags: u32, condition: Condition) -> bool
    ensures { result ≡ condition_holds eflags condition }
{
    match condition {
        Condition::Overflow => is_set(eflags, FL_OF),
        Condition::NotOverflow => !is_set(eflags, FL_OF),
        Condition::Below => is_set(eflags, FL_CF),
        Condition::AboveOrEqual => !is_set(eflags, FL_CF),
        Condition::Equal => is_set(eflags, FL_ZF),
        Condition::NotEqual => !is_set(eflags, FL_ZF),
        Condition::BelowOrEqual => is_set(eflags, FL_CF) || is_set(eflags, FL_ZF),
        Condition::Above => !(is_set(eflags, FL_CF) || is_set(eflags, FL_ZF)),
        Condition::Sign => is_set(eflags, FL_SF),
        Condition::NotSign => !is_set(eflags, FL_SF),
        Condition::ParityEven => is_set(eflags, FL_PF),
        Condition::ParityOdd => !is_set(eflags, FL_PF),
        Condition::Less => is_less(eflags),
        Condition::GreaterOrEqual => !is_less(eflags),
        Condition::LessOrEqual => is_set(eflags, FL_ZF) || is_less(eflags),
        Condition::Greater => !(is_set(eflags, FL_ZF) || is_less(eflags)),
    }
}

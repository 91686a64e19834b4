//! Cases of jos_alu.

use case_words::{Words, named};
use jos_alu::{
    Computed, Condition, Operation, Shift, Sign, Width, advance, bit_of, combine, condition_holds,
    decrease, double_register, extend, halves_of, increase, is_negative, is_set, is_too_long,
    lowest, multiply, operate, product_flags, product_of, quotient_of, register, register_at,
    set_halves, set_register, set_register_at, shift_by, sign_extend, subtract,
};
use jos_base::{Regs, UTEXT};
use std::alloc::AllocError;

const WIDTHS: [(&str, Width); 3] = [
    ("8", Width::Bits8),
    ("16", Width::Bits16),
    ("32", Width::Bits32),
];

const OPERATIONS: [(&str, Operation); 8] = [
    ("add", Operation::Add),
    ("or", Operation::Or),
    ("adc", Operation::Adc),
    ("sbb", Operation::Sbb),
    ("and", Operation::And),
    ("sub", Operation::Sub),
    ("xor", Operation::Xor),
    ("cmp", Operation::Cmp),
];

const SHIFTS: [(&str, Shift); 7] = [
    ("rol", Shift::Rol),
    ("ror", Shift::Ror),
    ("shl", Shift::Shl),
    ("shr", Shift::Shr),
    ("sar", Shift::Sar),
    ("shld", Shift::Shld),
    ("shrd", Shift::Shrd),
];

const SIGNS: [(&str, Sign); 2] = [("unsigned", Sign::Unsigned), ("signed", Sign::Signed)];

const CONDITIONS: [(&str, Condition); 2] = [
    ("equal", Condition::Equal),
    ("not-equal", Condition::NotEqual),
];

fn sign(words: &mut Words) -> Sign {
    named(&SIGNS, words.word()).unwrap_or(Sign::Unsigned)
}

/// A width in bits.
fn width(words: &mut Words) -> Width {
    named(&WIDTHS, words.word()).unwrap_or(Width::Bits8)
}

/// A value with EFLAGS, by EFLAGS before, a width and up to three numbers.
fn computed(kind: &str, mut words: Words) -> Option<Computed> {
    let eflags = words.number();
    let width = width(&mut words);
    let a = words.number();
    let b = words.number();
    let c = words.number();
    if let Some(operation) = named(&OPERATIONS, kind) {
        return Some(operate(operation, width, a, b, eflags));
    }
    if let Some(shift) = named(&SHIFTS, kind) {
        return Some(shift_by(shift, width, a, b, c, eflags));
    }
    match kind {
        "subtract" => Some(subtract(width, a, b, c, eflags)),
        "combine" => Some(combine(width, a, eflags)),
        "increase" => Some(increase(width, a, b, eflags)),
        "decrease" => Some(decrease(width, a, b, eflags)),
        "multiply" => Some(multiply(width, a, b, eflags)),
        _ => None,
    }
}

/// Whether something is so.
fn fact(kind: &str, mut words: Words) -> Option<bool> {
    match kind {
        "is-set" => Some(is_set(words.number(), words.number())),
        "is-negative" => Some(is_negative(width(&mut words), words.number())),
        "holds" => {
            let eflags = words.number();
            let condition = named(&CONDITIONS, words.word())?;
            Some(condition_holds(eflags, condition))
        }
        "is-too-long" => Some(is_too_long(sign(&mut words), width(&mut words), words.long())),
        _ => None,
    }
}

/// A number by others.
fn number(kind: &str, mut words: Words) -> Option<u64> {
    match kind {
        "bit-of" => Some(bit_of(words.number() != 0) as u64),
        "lowest" => Some(lowest(width(&mut words), words.long()) as u64),
        "extend" => Some(extend(sign(&mut words), width(&mut words), words.number()) as u64),
        "sign-extend" => Some(sign_extend(width(&mut words), words.number()) as u64),
        "product" => Some(product_of(
            sign(&mut words),
            width(&mut words),
            words.number(),
            words.number(),
        )),
        "product-flags" => Some(product_flags(words.number(), words.number() != 0) as u64),
        _ => None,
    }
}

/// A number shifted by each count from 0 to 31.
fn by_each_count(out: &mut String, mut words: Words) -> Result<(), AllocError> {
    let Some(shift) = named(&SHIFTS, words.word()) else {
        return out.push_str("no shift");
    };
    let width = width(&mut words);
    let value = words.number();
    let other = words.number();
    for count in 0..32u32 {
        let made = shift_by(shift, width, value, other, count, 0x202);
        let separator = if count == 0 { "" } else { " " };
        write!(out, "{separator}{:x}", made.value)?;
    }
    Ok(())
}

/// A quotient and its remainder.
fn quotient(out: &mut String, mut words: Words) -> Result<(), AllocError> {
    let halves = quotient_of(
        sign(&mut words),
        width(&mut words),
        words.long(),
        words.number(),
    );
    match halves {
        Some(halves) => write!(out, "{:x} {:x}", halves.low, halves.high),
        None => out.push_str("none"),
    }
}

/// Of registers that are 0: EBX, BH, CX, DX with AX, and the distance from UTEXT are set, and EBX, CH, EDX with EAX and
/// EIP are told.
fn registers(out: &mut String, mut words: Words) -> Result<(), AllocError> {
    let mut regs = Regs {
        eax: 0,
        ecx: 0,
        edx: 0,
        ebx: 0,
        esp: 0,
        ebp: 0,
        esi: 0,
        edi: 0,
        eip: UTEXT,
        eflags: 0x202,
    };
    set_register(&mut regs, 3, words.number());
    set_register_at(Width::Bits8, &mut regs, 7, words.number());
    set_register_at(Width::Bits16, &mut regs, 1, words.number());
    let halves = halves_of(Width::Bits16, words.long());
    set_halves(Width::Bits16, &mut regs, halves);
    advance(&mut regs, words.number());
    write!(
        out,
        "{:x} {:x} {:x} {:x}",
        register(&regs, 3),
        register_at(Width::Bits8, &regs, 5),
        double_register(Width::Bits32, &regs),
        regs.eip
    )
}

pub fn answer(out: &mut String, mut words: Words) -> Result<(), AllocError> {
    let kind = words.word();
    if let Some(made) = computed(kind, words) {
        return write!(out, "{:x} {:x}", made.value, made.eflags);
    }
    if let Some(is) = fact(kind, words) {
        return write!(out, "{is}");
    }
    if let Some(number) = number(kind, words) {
        return write!(out, "{number:x}");
    }
    match kind {
        "each-count" => by_each_count(out, words),
        "quotient" => quotient(out, words),
        "registers" => registers(out, words),
        _ => out.push_str("no case"),
    }
}

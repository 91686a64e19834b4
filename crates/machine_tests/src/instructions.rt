//! Cases of jos_isa.

ghost use Rattle.std.specs.Prelude.{◌<◌};

use case_words::{Words, named};
use jos_base::INSTRUCTION_MAX;
use jos_isa::{
    Decoded, Disp, Insn, MemArg, Operand, Repeat, Row, decode, encode, lawful, least_length, mov,
    no_spelling_begins_another,
};
use std::alloc::{AllocError, Global};
use std::io;

const ROWS: [(&str, Row); 19] = [
    ("AluRm8R8(8)", Row::AluRm8R8(8)),
    ("AluAlImm8(0)", Row::AluAlImm8(0)),
    ("ShiftRm8One(2)", Row::ShiftRm8One(2)),
    ("ShiftRm32Cl(6)", Row::ShiftRm32Cl(6)),
    ("JccRel8(16)", Row::JccRel8(16)),
    ("MovRm32R32", Row::MovRm32R32),
    ("XchgEaxR32", Row::XchgEaxR32),
    ("PushR32", Row::PushR32),
    ("SetccRm8(4)", Row::SetccRm8(4)),
    ("NotRm32", Row::NotRm32),
    ("IntImm8", Row::IntImm8),
    ("PushImm8", Row::PushImm8),
    ("RetImm16", Row::RetImm16),
    ("Ret", Row::Ret),
    ("Nop", Row::Nop),
    ("LeaR32Mem", Row::LeaR32Mem),
    ("Movsb", Row::Movsb),
    ("MovR32Imm32", Row::MovR32Imm32),
    ("AluRm32R32(0)", Row::AluRm32R32(0)),
];

const REPEATS: [(&str, Repeat); 3] = [
    ("Once", Repeat::Once),
    ("WhileEqual", Repeat::WhileEqual),
    ("WhileNot", Repeat::WhileNot),
];

/// Whether all beginnings of these bytes that are shorter than this are beginnings of an instruction.
fn are_short_below(len: usize, bytes: &[u8]) -> bool {
    for end in 0..len.min(bytes.len()) {
        if decode(&bytes[..end]) != Decoded::Short {
            return false;
        }
    }
    true
}

/// Whether so many first bytes have no greater length at least than the instruction has.
fn is_least(len: usize, count: usize, bytes: &[u8]) -> bool {
    len < count || bytes.len() < count || least_length(&bytes[..count]) <= len
}

/// Whether an instruction is lawful, and the bytes that are written for it are read as it, and no more than it had.
fn is_read_again(insn: &Insn, len: usize) -> bool {
    if !lawful(insn) {
        return false;
    }
    let mut out = [0; INSTRUCTION_MAX];
    let written = encode(insn, &mut out);
    written <= len && decode(&out[..written]) == Decoded::Found(*insn, written)
}

/// What bytes begin with. An instruction is sound if each shorter beginning is short, its first byte and its first two
/// have no greater length at least, and it is read again where it is written.
fn tell_decoded(out: &mut String, bytes: &[u8]) -> Result<(), AllocError> {
    match decode(bytes) {
        Decoded::Short => out.push_str("short"),
        Decoded::Illegal => out.push_str("illegal"),
        Decoded::Found(insn, len) => {
            let sound = are_short_below(len, bytes)
                && is_least(len, 1, bytes)
                && is_least(len, 2, bytes)
                && is_read_again(&insn, len);
            write!(out, "{} {len:x}", if sound { "found" } else { "unsound" })
        }
    }
}

/// The fields of an instruction, and the bytes that are written for it.
fn tell_insn(alloc: Global, out: &mut String, insn: &Insn) -> Result<(), AllocError> {
    let Insn {
        row,
        repeat,
        operand,
        reg,
        imm,
    } = insn;
    write!(out, "{row:?} {repeat:?} {operand:?} {reg:x} {imm:x}")?;
    if lawful(insn) {
        let mut bytes = [0; INSTRUCTION_MAX];
        let written = encode(insn, &mut bytes);
        let digits = hex::encode(alloc, &bytes[..written])?;
        write!(out, " {}", digits.as_str())?;
    }
    Ok(())
}

fn operand_of(mut words: Words) -> Operand {
    match words.word() {
        "reg" => Operand::Reg(words.byte()),
        "mem" => Operand::Mem(MemArg {
            base: words.register(),
            index: words.register(),
            scale: words.byte(),
            disp: if words.word() == "byte" {
                Disp::Byte(0)
            } else {
                Disp::Zero
            },
        }),
        _ => Operand::Absent,
    }
}

/// The instruction of a row, a repetition, a register, an immediate and an operand.
fn insn_of(mut words: Words) -> Option<Insn> {
    let row = named(&ROWS, words.word())?;
    let repeat = named(&REPEATS, words.word())?;
    let reg = words.byte();
    let imm = words.number();
    Some(Insn {
        row,
        repeat,
        operand: operand_of(words),
        reg,
        imm,
    })
}

/// Of the eight second bytes that differ in their lowest bits alone: `+` where each is read on, `-` where each shows that
/// no instruction begins so.
fn answer_to_eight(first: u8, eighth: u8) -> char
    requires { eighth < 32 }
{
    let mut there = 0u32;
    let mut refused = 0u32;
    for lowest in 0..8u8 {
        let bytes = [first, eighth * 8 + lowest];
        if decode(&bytes) != Decoded::Illegal {
            there = there.wrapping_add(1);
        } else if decode(&bytes[..1]) == Decoded::Short {
            refused = refused.wrapping_add(1);
        }
    }
    match (there, refused) {
        (8, _) => '+',
        (_, 8) => '-',
        _ => '?',
    }
}

/// The answers to all second bytes, for each mod of a ModRM byte a word, and in it for each reg a letter.
fn tell_group(out: &mut String, first: u8) -> Result<(), AllocError> {
    for eighth in 0..32u8 {
        let separator = if eighth % 8 == 0 && eighth != 0 {
            " "
        } else {
            ""
        };
        let letter = answer_to_eight(first, eighth);
        write!(out, "{separator}{letter}")?;
    }
    Ok(())
}

/// How many beginnings are found, short and illegal.
fn count(counts: &mut [u32; 3], bytes: &[u8]) {
    let place = match decode(bytes) {
        Decoded::Found(_, _) => 0,
        Decoded::Short => 1,
        Decoded::Illegal => 2usize,
    };
    counts[place] = counts[place].wrapping_add(1);
}

/// How many of all bytes, or of all pairs of bytes, are found, short and illegal.
fn tell_counts(out: &mut String, pairs: bool) -> Result<(), AllocError> {
    let mut counts = [0u32; 3];
    for first in 0..=255u8 {
        if pairs {
            for second in 0..=255u8 {
                count(&mut counts, &[first, second]);
            }
        } else {
            count(&mut counts, &[first]);
        }
    }
    let [found, short, illegal] = counts;
    write!(out, "found {found:x} short {short:x} illegal {illegal:x}")
}

pub fn answer(alloc: Global, out: &mut String, mut words: Words) -> io::Result<()> {
    no_spelling_begins_another();
    match words.word() {
        "decode" => tell_decoded(out, &words.bytes(alloc)?)?,
        "refused" => {
            let bytes = words.bytes(alloc)?;
            let refused = decode(&bytes) == Decoded::Illegal
                && are_short_below(bytes.len(), &bytes);
            write!(out, "{refused}")?
        }
        "insn" => {
            let bytes = words.bytes(alloc)?;
            match decode(&bytes) {
                Decoded::Found(insn, len) if len == bytes.len() => tell_insn(alloc, out, &insn)?,
                _ => out.push_str("no instruction")?,
            }
        }
        "mov" => {
            let reg = words.byte() % 8;
            tell_insn(alloc, out, &mov(reg, words.number()))?
        }
        "lawful" => match insn_of(words) {
            Some(insn) => write!(out, "{}", lawful(&insn))?,
            None => out.push_str("no instruction")?,
        },
        "least" => write!(out, "{:x}", least_length(&words.bytes(alloc)?))?,
        "group" => tell_group(out, words.byte())?,
        "counts" => tell_counts(out, words.word() == "pairs")?,
        _ => out.push_str("no case")?,
    }
    Ok(())
}

//! What the crates of the library answer without a kernel, a case a line.
//!
//! Each line of `stdin` is a case, and the line of `stdout` with the same number has what is wanted for it, worked out by
//! hand from `docs/library.md`. A comment and an empty line are repeated. Numbers are given in hexadecimal digits, and a program's
//! words each behind a bar, as `|h|a b`.
//!
//! | Case | What is told |
//! |---|---|
//! | `service REGISTERS` | the service that a program with these registers asks for |
//! | `trying NUMBER PERM REGISTERS` | its place, where it is about to try the service of that number |
//! | `kept WORDS\| REGISTERS` | its place, where it keeps these words for the library, and whether they are those of that place |
//! | `guest REGISTERS` | its place, where it is in no service |
//! | `page VA`, `buffer VA LEN` | whether a program may have a page there, or give a buffer there |
//! | `resident ESP` | whether a stack pointer belongs to the library's own parts |
//! | `fits WORDS`, `stack WORDS` | whether a program may be given these words, and what stands on its stack then |
//!
//! REGISTERS are EAX, ECX, EDX, EBX, ESP, EBP, ESI, EDI, EIP and EFLAGS.
#![tactic(auto)]

use jos_base::{EXTRA_WORDS, Extra};
use lib_os::{
    Place, SERVICES, Step, find_place, is_buffer, is_page_inside, is_resident, service_of, words_at,
};
use lib_spawn::{fits_stack, stack_contents, stack_pointer, stack_size};
use std::alloc::{AllocError, Global};
use test_cases::{given_registers, program_words, tell_lines, twelve_numbers};

/// The place of a program that is about to try a service.
fn trying(alloc: Global, given: &str) -> Result<String, AllocError> {
    let (number, given) = given.split_once(' ').unwrap_or((given, ""));
    let (perm, given) = given.split_once(' ').unwrap_or((given, ""));
    let [number, ..] = twelve_numbers(number);
    let [perm, ..] = twelve_numbers(perm);
    let words = words_at(number.min(SERVICES), Step::Trying { perm });
    let place = find_place(&given_registers(given), &words);
    format!(in alloc; "{place:?}")
}

/// The place of a program that keeps words for the library; in a service also whether they are the words of its step there.
fn kept(alloc: Global, given: &str) -> Result<String, AllocError> {
    let (words, registers) = given.split_once('|').unwrap_or((given, ""));
    let words = Extra(twelve_numbers(words));
    let place = find_place(&given_registers(registers), &words);
    let Place::InService { step, .. } = place else {
        return format!(in alloc; "{place:?}");
    };
    let Extra([number, ..]) = words;
    let same = words_at(number.saturating_sub(1).min(SERVICES), step) == words;
    format!(in alloc; "{place:?} {same}")
}

/// Adds bytes.
fn tell_bytes(text: &mut String, bytes: &[u8]) -> Result<(), AllocError> {
    for byte in bytes {
        write!(text, " {byte:02x}")?;
    }
    Ok(())
}

/// What stands on the stack of a program with these words.
fn stack(alloc: Global, given: &str) -> Result<String, AllocError> {
    let words = program_words(alloc, given)?;
    if !fits_stack(&words) {
        return String::from_str(alloc, "too many words");
    }
    let (size, esp) = (stack_size(&words), stack_pointer(&words));
    let mut text = format!(in alloc; "{size} bytes from {esp:x} on:")?;
    tell_bytes(&mut text, stack_contents(&words).as_slice())?;
    Ok(text)
}

/// What a test answers.
fn tell_holds(alloc: Global, holds: bool) -> Result<String, AllocError> {
    format!(in alloc; "{holds}")
}

/// What is told for a line.
fn answer(alloc: Global, line: &str) -> Result<String, AllocError> {
    let (case, given) = line.split_once(' ').unwrap_or((line, ""));
    let [first, second, ..] = twelve_numbers(given);
    match case {
        "page" => tell_holds(alloc, is_page_inside(first)),
        "buffer" => tell_holds(alloc, is_buffer(first, second)),
        "resident" => tell_holds(alloc, is_resident(first)),
        "fits" => tell_holds(alloc, fits_stack(&program_words(alloc, given)?)),
        "stack" => stack(alloc, given),
        "trying" => trying(alloc, given),
        "kept" => kept(alloc, given),
        "service" => {
            let service = service_of(&given_registers(given));
            format!(in alloc; "{service:?}")
        }
        "guest" => {
            let place = find_place(&given_registers(given), &Extra([0; EXTRA_WORDS]));
            format!(in alloc; "{place:?}")
        }
        _ => String::from_str(alloc, "no case"),
    }
}

fn main(rt: HostRuntime) -> anyhow::Result<()> {
    tell_lines(&rt, rt.alloc(), |line| Ok(answer(rt.alloc(), line)?))
}

//! What fs_make answers, a case a line.
//!
//! Each line of `stdin` is a case, and the line of `stdout` with the same number has what is wanted for it, worked out by
//! hand from `docs/disk.md`. A comment and an empty line are repeated.
//!
//! | Case | What is told |
//! |---|---|
//! | `make-fault N` | the N-th fault of a list of them, and its text as `{}` has it and as `text` |
//! | `make BLOCKS \| NAME LEN WORD.. \| ..` | the image of files |
//! | `length BLOCKS \| NAME LEN WORD.. \| ..` | the length of it alone |
//!
//! Bytes are told by the words in them that are not 0, in hexadecimal digits behind their places (`case_words`).
#![tactic(auto)]

mod making;

use crate::making::{length, made};
use fs_make::MakeFault;
use std::alloc::{AllocError, Global};
use test_cases::tell_lines;

/// A fault of each kind, with the greatest numbers too.
static MAKE_FAULTS: [MakeFault; 7] = [
    MakeFault::TooManyBlocks,
    MakeFault::BadName(0),
    MakeFault::TwiceNamed(7),
    MakeFault::TooLong(12),
    MakeFault::NoRoom,
    MakeFault::NoMemory,
    MakeFault::TwiceNamed(u32::MAX),
];

/// The text of a fault of files of which no disk is made.
fn make_fault(alloc: Global, place: &str) -> Result<String, AllocError> {
    match MAKE_FAULTS.get(place.parse::<usize>().unwrap_or(usize::MAX)) {
        Some(fault) => {
            let text = fault.text();
            let text = text.as_str();
            format!(in alloc; "{fault:?}: {fault}; {text}")
        }
        None => String::from_str(alloc, "no fault"),
    }
}

/// What is told for a line.
fn answer(alloc: Global, line: &str) -> Result<String, AllocError> {
    let (case, given) = line.split_once(' ').unwrap_or((line, ""));
    match case {
        "make-fault" => make_fault(alloc, given),
        "make" => made(alloc, given),
        "length" => length(alloc, given),
        _ => String::from_str(alloc, "no case"),
    }
}

fn main(rt: HostRuntime) -> anyhow::Result<()> {
    tell_lines(&rt, rt.alloc(), |line| Ok(answer(rt.alloc(), line)?))
}

//! What jos_elf, jos_asm and jos_demo answer, a case a line.
//!
//! Each line of `stdin` is a case, and the line of `stdout` with the same number has its name and what is wanted for it,
//! which comes from outside: what other programs read and write, and values that were worked out by hand. A line is a
//! name, `: ` and the case, or a case that is its own name. A comment and an empty line are repeated. Numbers are
//! hexadecimal.
//!
//! | Case | What is told |
//! |---|---|
//! | `elf parse LENGTH FILL BYTES..` | what a file says, or its fault |
//! | `elf cut LENGTH FILL BYTES..` | below which length it is told to be cut at its end |
//! | `elf fault NAME NUMBERS` | a fault's text as `text` and as `{}` has it |
//! | `elf write NAME` | an image that is written, and what it is read as |
//! | `asm BASE ITEMS` | the bytes of a program, or its fault |
//! | `demo "NAME"` | whether there is such an example program, and its file |
//! | `work SEED` | how many children the program of a seed has, how many bytes each of them writes, and its file |
#![tactic(auto)]

mod images;
mod programs;

use case_words::{AnswersCases, Words, tell_cases};
use std::alloc::Global;
use std::io;

/// The functions that are tried.
#[derive(Clone, Copy)]
struct Tried;

impl AnswersCases for Tried {
    fn answer(&mut self, alloc: Global, out: &mut String, mut words: Words) -> io::Result<()> {
        match words.word() {
            "elf" => images::answer(alloc, out, words),
            "asm" => programs::assemble(alloc, out, words),
            "demo" => programs::demo(alloc, out, words),
            "work" => programs::tell_work(alloc, out, words),
            _ => Ok(out.push_str("no case")?),
        }
    }
}

fn main(rt: HostRuntime) -> anyhow::Result<()> {
    tell_cases(&rt, rt.alloc(), &mut Tried)
}

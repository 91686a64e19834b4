//! What jos_cpu answers, a case a line.
//!
//! Each line of `stdin` is a case, and the line of `stdout` with the same number has its name and what is wanted for it,
//! which comes from outside: results of a real processor, and values that were worked out by hand. A line is a name, `: `
//! and the case, or a case that is its own name. A comment and an empty line are repeated. Numbers are hexadecimal.
//!
//! | Case | What is told |
//! |---|---|
//! | `cpu run CODE REGISTERS FLAGS END MOST` | the registers, of EFLAGS these flags, EIP, and memory as one number |
//! | `cpu burst CODE REGISTERS FROM MOST TAIL` | how many steps it makes, by themselves and in one burst |
//! | `cpu under-exo CODE REGISTERS`, `cpu under-run ..` | what comes of a step, and how many bytes it reaches |
#![tactic(auto)]

mod memory;
mod processor;

use case_words::{AnswersCases, Words, tell_cases};
use jos_cpu::Decodings;
use std::alloc::Global;
use std::io;

/// The processor that is tried. What was decoded is kept from one case to the next.
#[derive(Drop)]
struct Tried {
    decodings: Decodings,
}

impl AnswersCases for Tried {
    fn answer(&mut self, alloc: Global, out: &mut String, mut words: Words) -> io::Result<()> {
        match words.word() {
            "cpu" => processor::answer(alloc, &mut self.decodings, out, words),
            _ => Ok(out.push_str("no case")?),
        }
    }
}

fn main(rt: HostRuntime) -> anyhow::Result<()> {
    let alloc = rt.alloc();
    let mut tried = Tried {
        decodings: Decodings::new(alloc)?,
    };
    tell_cases(&rt, alloc, &mut tried)
}

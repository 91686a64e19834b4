//! What jos_alu and jos_isa answer, and the numbers of errors, a case a line.
//!
//! Each line of `stdin` is a case, and the line of `stdout` with the same number has its name and what is wanted for it,
//! which comes from outside: results of a real processor, what other programs read and write, and values that were worked
//! out by hand. A line is a name, `: ` and the case, or a case that is its own name. A comment and an empty line are
//! repeated. Numbers are hexadecimal.
//!
//! | Case | What is told |
//! |---|---|
//! | `error NAME` | the number of an error |
//! | `alu FUNCTION EFLAGS WIDTH NUMBERS` | the value and EFLAGS after it |
//! | `alu each-count SHIFT WIDTH NUMBERS` | the value shifted by each count from 0 to 31 |
//! | `alu FUNCTION ..` | what other functions of jos_alu answer |
//! | `isa decode BYTES` | the length of the instruction that they begin with, or that there is none, or too few bytes |
//! | `isa refused BYTES` | whether these and no fewer show that no instruction begins so |
//! | `isa insn BYTES`, `isa mov REGISTER NUMBER` | an instruction's fields, and the bytes that are written for it |
//! | `isa lawful ROW REPETITION REGISTER IMMEDIATE OPERAND` | whether it has a spelling |
//! | `isa group OPCODE` | which second bytes go on and which are refused |
//! | `isa counts bytes`, `isa counts pairs` | how many of them are found, short and illegal |
//! | `isa least BYTES` | the least length by them |
#![tactic(auto)]

mod arithmetic;
mod instructions;

use case_words::{AnswersCases, Words, named, tell_cases};
use jos_base::Errno;
use std::alloc::Global;
use std::io;

const ERRORS: [(&str, Errno); 7] = [
    ("BadEnv", Errno::BadEnv),
    ("Invalid", Errno::Invalid),
    ("NoMem", Errno::NoMem),
    ("NoFreeEnv", Errno::NoFreeEnv),
    ("IpcNotRecv", Errno::IpcNotRecv),
    ("NotFound", Errno::NotFound),
    ("BadPath", Errno::BadPath),
];

/// The functions that are tried.
#[derive(Clone, Copy)]
struct Tried;

impl AnswersCases for Tried {
    fn answer(&mut self, alloc: Global, out: &mut String, mut words: Words) -> io::Result<()> {
        match words.word() {
            "error" => match named(&ERRORS, words.word()) {
                Some(errno) => Ok(write!(out, "{:x}", errno.code())?),
                None => Ok(out.push_str("no error")?),
            },
            "alu" => Ok(arithmetic::answer(out, words)?),
            "isa" => instructions::answer(alloc, out, words),
            _ => Ok(out.push_str("no case")?),
        }
    }
}

fn main(rt: HostRuntime) -> anyhow::Result<()> {
    tell_cases(&rt, rt.alloc(), &mut Tried)
}

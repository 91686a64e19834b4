//! What the library does over a kernel, a case a line: how an environment begins, its calls, and its steps.
//!
//! Each line of `stdin` is a case, and the line of `stdout` with the same number has what is wanted for it, worked out by
//! hand from `docs/library.md`. A comment and an empty line are repeated. Numbers are given in hexadecimal digits, and a program's
//! words each behind a bar, as `|h|a b`.
//!
//! | Case | What is told |
//! |---|---|
//! | `steps CODE CODE EAX EDX ECX EBX COUNT` | what comes of so many steps of a program with two words of code |
//! | `console CODE CODE EAX EDX ECX EBX COUNT BYTE` | the same, where its first descriptor is open on the console, of which the byte is the input; it is asked in the lines that follow |
//! | `frames` | how many frames a run of a program with one page wants |
//! | `boot FRAMES WORDS` | how it begins in so many frames |
//! | `first` | nothing: an environment begins, with a page of zeros at `UTEMP` |
//! | `server BLOCKS BYTES FAILS` | nothing: so does the file server, with a disk of so many blocks, whose file has so many bytes; the call of the host with this number, counted from 1, fails |
//! | `user BLOCKS BYTES FAILS` | the same with a user |
//! | `clients` | nothing: the file server begins at its first step, in slot 0, and in slots 1 and 2 environments that are about to ask for sync |
//! | `end` | how the environment that began stands at last, and the console |
//!
//! Between those that begin one and `end` any other line is a call of that environment (`src/calls.rt`), `turn SLOT COUNT`: what
//! comes of so many steps of the one in that slot, which is asked from then on; or `file`: how many
//! bytes the disk's file has, and how many of them are others than at first. There each byte has the number of its block and one
//! more as its first digit, and the place in the file modulo 8 as its second.
#![tactic(auto)]

mod beginning;
mod calls;
mod disks;
mod stepping;
mod telling;

use crate::beginning::{boot, first, frames, with_disk};
use crate::calls::ServedBench;
use crate::stepping::{clients, on_console, steps};
use jos_base::EnvType;
use std::alloc::{AllocError, Global};
use test_cases::tell_lines;

/// What is told for a line, by the environment of the lines before it.
fn answer(
    alloc: Global,
    bench: &mut Option<ServedBench>,
    line: &str,
) -> Result<String, AllocError> {
    let (case, given) = line.split_once(' ').unwrap_or((line, ""));
    match case {
        "steps" => steps(alloc, given),
        "console" => on_console(alloc, bench, given),
        "frames" => frames(alloc),
        "boot" => boot(alloc, bench, given),
        "first" => first(alloc, bench),
        "clients" => clients(alloc, bench),
        "server" => with_disk(alloc, bench, EnvType::FileServer, given),
        "user" => with_disk(alloc, bench, EnvType::User, given),
        "end" => match bench.take() {
            Some(bench) => bench.end(alloc),
            None => String::from_str(alloc, "no environment"),
        },
        _ => match bench {
            Some(bench) => bench.asked(alloc, case, given),
            None => String::from_str(alloc, "no case"),
        },
    }
}

fn main(rt: HostRuntime) -> anyhow::Result<()> {
    let mut bench = None;
    tell_lines(&rt, rt.alloc(), |line| {
        Ok(answer(rt.alloc(), &mut bench, line)?)
    })
}

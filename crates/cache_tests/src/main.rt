//! The block cache over a kernel and a disk of the host, a case a line.
//!
//! Each line of `stdin` is a case, and the line of `stdout` with the same number has what is wanted for it, worked out by
//! hand from `docs/disk.md`. A comment and an empty line are repeated. Numbers are given in hexadecimal digits.
//!
//! | Case | What is told |
//! |---|---|
//! | `disk FRAMES BLOCKS LENGTH [CALL]` | nothing: a file server begins in so many frames, over a disk of so many blocks, a file of so many bytes. Each byte of block n is n. The host's call of this number fails |
//! | `want BLOCK` | what comes of steps towards a block, until there is not more to do, and how many calls these were |
//! | `once BLOCK` | what comes of one step |
//! | `flush` | what comes of steps of a flush, until it is done, and how many calls these were |
//! | `byte BLOCK AT` | the byte of a block's page |
//! | `put BLOCK AT BYTE` | that it was put there |
//! | `bits BLOCK` | the twelve low bits of the entry of a block's page |
//! | `hold PAGES` | how many of so many pages the file server could take for itself |
//! | `file PLACE` | the byte at a place of the host's file |
//!
//! Between two lines `disk` there is one server and one disk.
#![tactic(auto)]

mod bench;

use crate::bench::CacheBench;
use std::alloc::{AllocError, Global};
use test_cases::{tell_lines, twelve_numbers};

/// The most calls that are made for a line.
const CALLS_MAX: u32 = 1_000_000;

/// What is told for a line, by the server of the lines before it.
fn answer(alloc: Global, bench: &mut Option<CacheBench>, line: &str) -> Result<String, AllocError> {
    let (case, given) = line.split_once(' ').unwrap_or((line, ""));
    if case == "disk" {
        *bench = CacheBench::new(alloc, given)?;
        return String::from_str(alloc, if bench.is_some() { "begins" } else { "no disk" });
    }
    let Some(server) = bench else {
        return String::from_str(alloc, "no server");
    };
    let [first, second, third, ..] = twelve_numbers(given);
    match case {
        "want" => server.want(alloc, first, CALLS_MAX),
        "once" => server.once(alloc, first),
        "flush" => server.flush(alloc, CALLS_MAX),
        "byte" => server.byte(alloc, first, second),
        "put" => server.put(alloc, first, second, third),
        "bits" => server.bits(alloc, first),
        "hold" => server.hold(alloc, first),
        "file" => server.file(alloc, first),
        _ => String::from_str(alloc, "no case"),
    }
}

fn main(rt: HostRuntime) -> anyhow::Result<()> {
    let mut bench = None;
    tell_lines(&rt, rt.alloc(), |line| {
        Ok(answer(rt.alloc(), &mut bench, line)?)
    })
}

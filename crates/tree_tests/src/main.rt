//! Jobs on files over the block cache, a kernel and a disk of the host, a case a line.
//!
//! Each line of `stdin` is a case, and the line of `stdout` with the same number has what is wanted for it, worked out by
//! hand from `docs/disk.md` and `docs/library.md`. A comment and an empty line are repeated. Numbers are given in hexadecimal digits.
//!
//! | Case | What is told |
//! |---|---|
//! | `disk FRAMES BLOCKS CALL` | a file server begins in so many frames, with a page for requests, over a disk of so many blocks, whose file has zeros. The host's call of this number fails, unless it is 0 |
//! | `bytes PLACE DIGITS` | that bytes were put into the host's file |
//! | `path TEXT`, `page DIGITS` | that a path, or bytes, were put into the page of the request, with a NUL behind them |
//! | `open MODE`, `find`, `remove HOME`, `read HOME AT COUNT`, `write HOME AT COUNT`, `size HOME SIZE`, `stat HOME`, `length HOME` | what the job answers. HOME is the place of the file's record on the disk |
//! | `calls` | how many calls the last job was |
//! | `reply COUNT` | the first bytes of the page of the request |
//! | `flush` | that no page is dirty any more |
//! | `file PLACE COUNT` | bytes of the host's file |
//! | `hold PAGES` | how many of so many pages the file server could take for itself |
//!
//! Between two lines `disk` there is one server and one disk.
#![tactic(auto)]

mod bench;

use crate::bench::TreeBench;
use fs_jobs::Job;
use std::alloc::{AllocError, Global};
use test_cases::{tell_lines, twelve_numbers};

/// The most calls that are made for a line.
const CALLS_MAX: u32 = 100_000_000;

/// The job that a line names, if it names one.
fn job_named(case: &str, given: &str) -> Option<Job> {
    let [first, at, count, ..] = twelve_numbers(given);
    let home = first;
    match case {
        "open" => Some(Job::Open { mode: first }),
        "find" => Some(Job::Find),
        "remove" => Some(Job::Remove { home }),
        "read" => Some(Job::Read { home, at, count }),
        "write" => Some(Job::Write { home, at, count }),
        "size" => Some(Job::SetSize { home, size: at }),
        "stat" => Some(Job::Stat { home }),
        "length" => Some(Job::Size { home }),
        _ => None,
    }
}

/// What is told for a line, by the server of the lines before it.
fn answer(alloc: Global, bench: &mut Option<TreeBench>, line: &str) -> Result<String, AllocError> {
    let (case, given) = line.split_once(' ').unwrap_or((line, ""));
    if case == "disk" {
        *bench = TreeBench::new(alloc, given)?;
        return String::from_str(alloc, if bench.is_some() { "begins" } else { "no disk" });
    }
    let Some(server) = bench else {
        return String::from_str(alloc, "no server");
    };
    if let Some(job) = job_named(case, given) {
        return server.run(alloc, job, CALLS_MAX);
    }
    match case {
        "bytes" => server.machine.put_bytes(alloc, given),
        "path" => server.put(alloc, given.as_bytes()),
        "page" => server.put_page(alloc, given),
        "calls" => server.calls(alloc),
        "reply" => server.reply(alloc, given),
        "flush" => server.flush(alloc, CALLS_MAX),
        "file" => server.machine.file(alloc, given),
        "hold" => {
            let [pages, ..] = twelve_numbers(given);
            server.machine.hold(alloc, pages)
        }
        _ => String::from_str(alloc, "no case"),
    }
}

fn main(rt: HostRuntime) -> anyhow::Result<()> {
    let mut bench = None;
    tell_lines(&rt, rt.alloc(), |line| {
        Ok(answer(rt.alloc(), &mut bench, line)?)
    })
}

//! The file server and its clients, over a kernel and a disk of the host, a case a line.
//!
//! Each line of `stdin` is a case, and the line of `stdout` with the same number has what is wanted for it, worked out by
//! hand from `docs/disk.md` and `docs/library.md`. A comment and an empty line are repeated. Numbers are given and told in hexadecimal
//! digits. C is the slot of a client, and FD the number of one of its descriptors.
//!
//! | Case | What is told |
//! |---|---|
//! | `disk FRAMES BLOCKS CALL` | a file server begins in so many frames, over a disk of so many blocks. This call of the host fails, but none at 0 |
//! | `bytes PLACE DIGITS` | that bytes were put into the host's file |
//! | `records PLACE COUNT BYTE` | that so many records of empty files were put there, with names of one byte, from this byte on |
//! | `client`, `end C` | the slot of a new client; that a client has ended |
//! | `open C FD MODE PATH`, `remove C PATH` | what the server answers. What is opened becomes this descriptor |
//! | `opens C FD COUNT MODE PATH` | the last answer, where a path is opened so often, as this descriptor and those behind it |
//! | `read C FD COUNT` | what it answers, and the bytes |
//! | `read_at C FD COUNT PLACE` | the same, from a place on that the request tells |
//! | `write C FD DIGITS`, `fill C FD COUNT BYTE` | what it answers, given these bytes, or so many equal ones |
//! | `seek C FD OFFSET`, `size C FD SIZE`, `sync C` | what it answers |
//! | `ask C WORD` | what it answers to a request with this word and an empty page |
//! | `stat C FD` | what it answers, and 136 bytes |
//! | `keep` | that from here on the clients keep the page of a request for the next |
//! | `late STEPS D` | that of the next request the server makes so many steps before the client waits; then client D, if named, tries to send |
//! | `ends STEPS D` | that the next client ends behind such steps, and does not wait |
//! | `stood` | where the server stood when the client of the last request began to wait, and what D was answered |
//! | `steps` | how many steps the server made of the last request, how many of these are seen, and how often it waited |
//! | `seen` | how many are seen |
//! | `close C FD` | what page_unmap answers |
//! | `share C FD D FD` | what page_map answers: the second descriptor, of client D, becomes one of what the first names |
//! | `offset C FD` | the place of the next byte |
//! | `object C FD` | what the page of the descriptor names, the next byte's place, the mode, the file's number, and its size at the open |
//! | `file PLACE COUNT` | bytes of the host's file |
//! | `hold PAGES` | how many of so many pages the file server could take for itself |
//! | `give PAGES` | that it has given the first of them back |
//!
//! A request is refused where the descriptor is not open: `no descriptor`. Between two lines `disk` there is one server and one disk.
#![tactic(auto)]

mod bench;
mod clients;

use crate::bench::{Between, ServerBench};
use crate::clients::{STEPS_MAX, descriptor_page};
use jos_base::{SYS_ENV_DESTROY, UTOP};
use lib_os::{FD_DEVICE, FD_FILE, FD_MODE, FD_OFFSET, FD_SIZE, RequestKind, request_word};
use server_bench::{given_bytes, rest_of, tell_done, tell_word};
use std::alloc::{AllocError, Global};
use test_cases::{tell_lines, twelve_numbers};

/// The most bytes of a write that are given by their number.
const FILL_MAX: u32 = 4096;

/// So many equal bytes.
fn equal_bytes(alloc: Global, count: u32, byte: u32) -> Result<Vec<u8>, AllocError> {
    let mut bytes = Vec::new(alloc);
    for _ in 0..count % (FILL_MAX + 1) {
        bytes.push((byte % 256) as u8)?;
    }
    Ok(bytes)
}

/// The bytes of a word.
fn word_bytes(alloc: Global, word: u32) -> Result<Vec<u8>, AllocError> {
    let mut bytes = Vec::new(alloc);
    for byte in word.to_le_bytes() {
        bytes.push(byte)?;
    }
    Ok(bytes)
}

/// What is told for a line that asks the server about a descriptor's file.
fn file_request(
    alloc: Global,
    server: &mut ServerBench,
    case: &str,
    given: &str,
) -> Result<String, AllocError> {
    let [client, fd, third, fourth, ..] = twelve_numbers(given);
    let kind = match case {
        "read" => RequestKind::Read,
        "read_at" => RequestKind::ReadAt,
        "write" | "fill" => RequestKind::Write,
        "seek" => RequestKind::Seek,
        "size" => RequestKind::SetSize,
        "stat" => RequestKind::Stat,
        _ => return String::from_str(alloc, "no case"),
    };
    let bytes = match case {
        "write" => given_bytes(alloc, rest_of(rest_of(given)))?,
        "fill" => equal_bytes(alloc, third, fourth)?,
        "read_at" => word_bytes(alloc, fourth)?,
        _ => Vec::new(alloc),
    };
    let count = match kind {
        RequestKind::Write => (bytes.len() % 0x1_0000_0000) as u32,
        _ => third,
    };
    server.of_file(alloc, client, fd, kind, count, bytes.as_slice())
}

/// What is told for a line that asks the server for something.
fn request(
    alloc: Global,
    server: &mut ServerBench,
    case: &str,
    given: &str,
) -> Result<String, AllocError> {
    let [client, second, third, fourth, ..] = twelve_numbers(given);
    match case {
        "open" => {
            let path = rest_of(rest_of(rest_of(given)));
            let page = descriptor_page(second);
            server.of_path(alloc, client, RequestKind::Open, third, path, page)
        }
        "opens" => {
            let path = rest_of(rest_of(rest_of(rest_of(given))));
            server.open_often(alloc, client, [second, third, fourth], path)
        }
        "remove" => server.of_path(alloc, client, RequestKind::Remove, 0, rest_of(given), UTOP),
        "sync" => {
            let word = request_word(RequestKind::Sync);
            server.request(alloc, client, word, UTOP, &[], Some(0))
        }
        "ask" => server.request(alloc, client, second, UTOP, &[], Some(0)),
        _ => file_request(alloc, server, case, given),
    }
}

/// What is told for a line, by the server of the lines before it.
fn answer(
    alloc: Global,
    bench: &mut Option<ServerBench>,
    line: &str,
) -> Result<String, AllocError> {
    let (case, given) = line.split_once(' ').unwrap_or((line, ""));
    if case == "disk" {
        *bench = ServerBench::new(alloc, given)?;
        return String::from_str(alloc, if bench.is_some() { "begins" } else { "no disk" });
    }
    let Some(server) = bench else {
        return String::from_str(alloc, "no server");
    };
    let [first, second, third, fourth, ..] = twelve_numbers(given);
    match case {
        "bytes" => server.machine.put_bytes(alloc, given),
        "records" => server.machine.put_records(alloc, first, second, third),
        "client" => tell_word(alloc, server.machine.client()),
        "end" => tell_word(alloc, server.machine.system(first, SYS_ENV_DESTROY, [0; 5])),
        "late" | "ends" => {
            server.between = Between {
                steps: first % STEPS_MAX,
                other: second,
                ends: case == "ends",
            };
            tell_done(alloc)
        }
        "stood" => server.stood(alloc),
        "keep" => {
            server.keeps = true;
            tell_done(alloc)
        }
        "steps" => server.steps(alloc),
        "seen" => tell_word(alloc, Ok(server.counts.seen)),
        "close" => tell_word(alloc, server.close(first, second)),
        "share" => tell_word(alloc, server.share([first, second], [third, fourth])),
        "offset" => server.words(alloc, first, second, &[FD_OFFSET]),
        "object" => {
            let places = [FD_DEVICE, FD_OFFSET, FD_MODE, FD_FILE, FD_SIZE];
            server.words(alloc, first, second, &places)
        }
        "file" => server.machine.file(alloc, given),
        "hold" => server.machine.hold(alloc, first),
        "give" => server.machine.give(alloc, first),
        _ => request(alloc, server, case, given),
    }
}

fn main(rt: HostRuntime) -> anyhow::Result<()> {
    let mut bench = None;
    tell_lines(&rt, rt.alloc(), |line| {
        Ok(answer(rt.alloc(), &mut bench, line)?)
    })
}

//! Hosts of which a call fails.

use crate::hosts::{
    ask, disk_with, disk_with_both, holds, host_of, len_of, same_bytes, same_status,
};
use crate::images::{HI, PRINTS, REMOVES};
use jos_cli::Outcome;
use jos_host::MemHost;
use std::alloc::{AllocError, Global};
use std::process::Abort;
use std::test::Fail;

/// Words, the number of the call that fails, and then the exit status, the console, the notes and the length of the file `e`.
type Failure = (
    &'static [&'static str],
    u64,
    u8,
    &'static [u8],
    &'static str,
    usize,
);

// A run of the image `h` makes five calls: the size, the bytes, the input's end, the line and the note. An example program is
// written over the 32 bytes of `e` by three: the file, its bytes and the note. So is the disk of a program that is made from a
// number, before all calls of its run; where the number is out of its range, the note is all.
#[rattlefmt::skip]
static FAILURES: [Failure; 12] = [
    (&["exo", "h"], 0, 7, b"", "host fault\n", 32),
    (&["exo", "h"], 1, 7, b"", "host fault\n", 32),
    (&["exo", "h"], 2, 7, b"", "host fault\n", 32),
    (&["exo", "h"], 3, 7, b"", "host fault\n", 32),
    (&["exo", "h"], 4, 7, b"hi\n", "", 32),
    (&["exo", "h"], 5, 0, b"hi\n", "done steps 7 turns 1 refused 0 upcalls 0\n", 32),
    (&["demo", "xhello", "e"], 0, 7, b"", "host fault\n", 32),
    (&["demo", "xhello", "e"], 1, 7, b"", "host fault\n", 0),
    (&["demo", "xhello", "e"], 2, 7, b"", "", 119),
    (&["gen", "1", "e"], 0, 7, b"", "host fault\n", 32),
    (&["gen", "1", "e"], 1, 7, b"", "host fault\n", 0),
    (&["gen", "0", "e"], 0, 7, b"", "", 32),
];

/// Ends the test where the command did not end so.
fn same_failure(rt: &impl Abort, status: u8, host: &MemHost, failure: &Failure, case: &str) {
    let (_, _, wanted, console, notes, len) = *failure;
    same_status(rt, status, wanted, case);
    same_bytes(rt, host.console(), console, case);
    same_bytes(rt, host.notes(), notes.as_bytes(), case);
    holds(rt, len_of(host, "e") == len, case);
}

fn check_failure(rt: &impl Abort, alloc: Global, failure: &Failure) -> Result<(), AllocError> {
    let (words, call, ..) = *failure;
    let mut host = host_of(alloc, &[("h", &HI), ("e", &[0xff; 32])], &[call])?;
    let outcome = ask(alloc, words, &mut host);
    let case = format!(in alloc; "{words:?}, call {call}")?;
    same_failure(rt, outcome.status(), &host, failure, &case);
    Ok(())
}

#[test]
fn a_run_and_a_written_program_tell_the_call_that_fails(rt: HostRuntime) -> Result<(), Fail> {
    for failure in &FAILURES {
        check_failure(&rt, rt.alloc(), failure)?;
    }
    Ok(())
}

/// Ends the test where the command did not end with a host fault exactly where a call failed, or the file `a` changed.
fn same_fault(rt: &impl Abort, status: u8, host: &MemHost, case: &str) {
    same_status(rt, status, if host.faults() == 0 { 0 } else { 7 }, case);
    same_bytes(rt, host.file("a").unwrap_or(b""), b"1", case);
}

/// Answers these words over a host with the disk `s`, where this call fails.
fn check_disk(
    rt: &impl Abort,
    alloc: Global,
    call: u64,
    words: &[&str],
    disk: &[u8],
) -> Result<(), AllocError> {
    let mut host = host_of(alloc, &[("a", b"1"), ("s", disk)], &[call])?;
    let outcome = ask(alloc, words, &mut host);
    let case = format!(in alloc; "{words:?}, call {call}")?;
    same_fault(rt, outcome.status(), &host, &case);
    Ok(())
}

#[test]
fn a_disk_command_tells_each_call_that_fails(rt: HostRuntime) -> Result<(), Fail> {
    let disk = disk_with(rt.alloc(), "hello.txt", b"hi\n")?;
    for call in 0..12 {
        check_disk(&rt, rt.alloc(), call, &["mkfs", "d", "16", "a"], &disk)?;
        check_disk(&rt, rt.alloc(), call, &["cat", "s", "hello.txt"], &disk)?;
    }
    Ok(())
}

/// How many turns are told of a run that a failed call of the host cut off.
fn turns_cut_off(outcome: &Outcome) -> Option<usize> {
    match outcome {
        Outcome::HostFault(stopped) => Some(stopped.turns.len()),
        _ => None,
    }
}

fn check_turns(
    rt: &impl Abort,
    alloc: Global,
    disk: &[u8],
    call: u64,
    turns: usize,
) -> Result<(), AllocError> {
    let mut host = host_of(alloc, &[("d", disk)], &[call])?;
    let outcome = ask(alloc, &["run", "d", "h"], &mut host);
    holds(rt, turns_cut_off(&outcome) == Some(turns), "turns");
    Ok(())
}

// The calls are the disk's size and its bytes in two pieces, the input, the letter and the note. The letter is printed in the turn
// behind the server's.
#[test]
fn a_call_that_fails_in_a_run_leaves_its_turns(rt: HostRuntime) -> Result<(), Fail> {
    let disk = disk_with(rt.alloc(), "h", &PRINTS)?;
    for (call, turns) in [(0, 0), (1, 0), (2, 0), (3, 0), (4, 2), (5, 2)] {
        check_turns(&rt, rt.alloc(), &disk, call, turns)?;
    }
    Ok(())
}

/// The name of the file that is on the disk, the number of the call that fails, and then the exit status and the console.
type Removal = (&'static str, u64, u8, &'static [u8]);

// `f` is removed by a program that prints a letter before that and one behind it. The calls up to the first letter are the first five of
// a run; then the blocks 1, 3 and 2 are read, the other letter is printed, the blocks 2 and 3 are written, and the note is told. Where no
// such file is on the disk the blocks 1 and 3 are read, and nothing is written: the note is behind the letter.
#[rattlefmt::skip]
static REMOVALS: [Removal; 6] = [
    ("f", 7, 7, b"A"),
    ("f", 9, 7, b"AB"),
    ("f", 10, 7, b"AB"),
    ("f", 12, 0, b"AB"),
    ("g", 8, 7, b"AB"),
    ("g", 9, 0, b"AB"),
];

fn check_removal(rt: &impl Abort, alloc: Global, removal: &Removal) -> Result<(), AllocError> {
    let (name, call, status, console) = *removal;
    let disk = disk_with_both(alloc, &REMOVES, name)?;
    let mut host = host_of(alloc, &[("d", disk.as_slice())], &[call])?;
    let outcome = ask(alloc, &["run", "--frames=300", "d", "h"], &mut host);
    let case = format!(in alloc; "{name}, call {call}")?;
    same_status(rt, outcome.status(), status, &case);
    same_bytes(rt, host.console(), console, &case);
    Ok(())
}

#[test]
fn a_call_for_a_block_that_fails_ends_a_run(rt: HostRuntime) -> Result<(), Fail> {
    for removal in &REMOVALS {
        check_removal(&rt, rt.alloc(), removal)?;
    }
    Ok(())
}

//! A host all in memory.

ghost use Rattle.std.specs.Prelude.{◌≡◌, ◌≤◌, [], ◌++◌, IfOk, codes};

use crate::same::same;
use jos_host::{Failed, Host, MemHost, NamedBytes};
use std::alloc::{AllocError, Global};
use std::process::Abort;
use std::test::Fail;

/// A host with a file that has bytes, one that has none, and a second of the first's name.
fn host(alloc: Global, fails: &[u64]) -> Result<MemHost, AllocError>
    ensures { IfOk result (λ host. host.fails ≡ fails.now) }
{
    let mut files = Vec::new(alloc);
    for (name, bytes) in [
        ("disk", [1, 2, 3, 4].as_slice()),
        ("log", &[]),
        ("disk", &[9]),
    ] {
        files.push(NamedBytes {
            name: String::from_str(alloc, name)?,
            bytes: Vec::from_slice(alloc, bytes)?,
        })?;
    }
    let input = Vec::from_slice(alloc, b"abc")?;
    Ok(MemHost::new(alloc, files, input, Vec::from_slice(alloc, fails)?))
}

fn write(
    rt: &impl Abort,
    host: &mut MemHost,
    name: &str,
    at: u64,
    bytes: &[u8],
) -> Result<(), Failed> {
    let present = host.file(name).unwrap_or(&[]);
    assert!(rt; at <= present.len() as u64);
    host.write_at(name, at, bytes)
}

#[test]
fn reads_files(rt: HostRuntime) -> Result<(), Fail> {
    let mut host = host(rt.alloc(), &[])?;
    for (name, size) in [("disk", Some(4)), ("log", Some(0)), ("none", None)] {
        same(&rt, host.size(name), Ok(size), name);
    }
    for (name, at, room, want) in [
        ("disk", 0, 4, [1, 2, 3, 4].as_slice()),
        ("disk", 1, 2, &[2, 3]),
        ("disk", 3, 4, &[4]),
        ("disk", 4, 2, &[]),
        ("disk", u64::MAX, 1, &[]),
        ("none", 0, 3, &[]),
    ] {
        let mut buf = [0; 4];
        let count = host.read_at(name, at, &mut buf[..room])?;
        same(&rt, &buf[..count.min(4)], want, name);
    }
    same(&rt, host.faults(), 0, "the faults");
    Ok(())
}

#[test]
fn writes_files(rt: HostRuntime) -> Result<(), Fail> {
    let mut host = host(rt.alloc(), &[])?;
    for (name, at, bytes, want) in [
        ("disk", 1, [7, 7].as_slice(), [1, 7, 7, 4].as_slice()),
        ("disk", 4, &[5], &[1, 7, 7, 4, 5]),
        ("disk", 3, &[6, 6, 6], &[1, 7, 7, 6, 6, 6]),
        ("log", 0, &[8], &[8]),
        ("new", 0, &[3, 3], &[3, 3]),
    ] {
        write(&rt, &mut host, name, at, bytes)?;
        same(&rt, host.file(name), Some(want), name);
    }
    for name in ["disk", "made"] {
        host.create(name)?;
        same(&rt, host.file(name), Some(&[]), name);
    }
    same(&rt, host.file("none"), None, "none");
    Ok(())
}

/// Writes that the room holds never fail.
fn speak(host: &mut MemHost)
    requires none_fails { host.old.fails ≡ [] }
    requires console { 7 ≤ host.old.console_room }
    requires notes { 4 ≤ host.old.notes_room }
    ensures console { host.new.console ≡ host.old.console ++ codes "one two" }
    ensures notes { host.new.notes ≡ host.old.notes ++ codes "note" }
{
    host.console_write(b"one ").unwrap();
    host.note_write(b"note").unwrap();
    host.console_write(b"two").unwrap();
}

#[test]
fn reads_and_writes_the_console(rt: HostRuntime) -> Result<(), Fail> {
    let mut host = host(rt.alloc(), &[])?;
    host.reserve(7, 4)?;
    speak(&mut host);
    for want in [b"ab".as_slice(), b"c", b""] {
        let mut buf = [0; 2];
        let count = host.console_read(&mut buf)?;
        same(&rt, &buf[..count.min(2)], want, "the input");
    }
    same(&rt, host.console(), b"one two", "the console");
    same(&rt, host.notes(), b"note", "the notes");
    Ok(())
}

const CALLS: u64 = 7;

/// The call of this number in a script of one call each.
fn call(rt: &impl Abort, host: &mut MemHost, number: u64) -> Result<(), Failed> {
    match number {
        0 => host.size("disk").map(|_| ()),
        1 => host.read_at("disk", 0, &mut [0; 2]).map(|_| ()),
        2 => host.create("log"),
        3 => write(rt, host, "disk", 2, b"xyz"),
        4 => host.console_read(&mut [0; 2]).map(|_| ()),
        5 => host.console_write(b"out"),
        _ => host.note_write(b"note"),
    }
}

/// Each call once on both hosts, but the one that fails on the first alone.
fn run(rt: &impl Abort, told: &mut MemHost, other: &mut MemHost, failing: u64) {
    for number in 0..CALLS {
        let done = call(rt, told, number);
        same(rt, done.is_err(), number == failing, "a call fails");
        if number != failing {
            same(rt, call(rt, other, number), Ok(()), "a call");
        }
    }
}

fn are_alike(rt: &impl Abort, told: &mut MemHost, other: &mut MemHost) {
    for name in ["disk", "log"] {
        same(rt, told.file(name), other.file(name), name);
    }
    same(rt, told.console(), other.console(), "the console");
    same(rt, told.notes(), other.notes(), "the notes");
    let (mut left, mut wanted) = ([0; 4], [0; 4]);
    let count = told.console_read(&mut left);
    same(rt, count, other.console_read(&mut wanted), "what is left");
    same(rt, left, wanted, "what is left");
}

/// A host whose call fails is as one at which it was never made.
#[test]
fn fails_where_it_is_told(rt: HostRuntime) -> Result<(), Fail> {
    for failing in 0..CALLS {
        let mut told = host(rt.alloc(), &[failing])?;
        let mut other = host(rt.alloc(), &[])?;
        run(&rt, &mut told, &mut other, failing);
        same(&rt, told.faults(), 1, "the faults");
        same(&rt, other.faults(), 0, "the faults");
        are_alike(&rt, &mut told, &mut other);
    }
    Ok(())
}

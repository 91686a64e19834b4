//! A host over a system that fails, or moves few bytes at a time.

use crate::fake::{Fake, Response, Script};
use crate::same::same;
use crate::system::is_refused;
use Response::{Fails, Moves};
use jos_host::{Failed, Host, OsHost};
use std::io::ErrorKind;
use std::test::Fail;

const STOPPED: Response = Fails(ErrorKind::Interrupted);

const BROKEN: Response = Fails(ErrorKind::BrokenPipe);

/// The turns of a system's reads or writes and the one of all later ones, the room for what is read, how many bytes come,
/// and how often the system is called.
type Reads = (
    &'static [Response],
    Response,
    usize,
    Result<usize, Failed>,
    usize,
);

#[rattlefmt::skip]
const READS: [Reads; 7] = [
    (&[], Moves(1), 5, Ok(5), 5),
    (&[], Moves(1), 8, Ok(5), 6),
    (&[], BROKEN, 0, Ok(0), 0),
    (&[STOPPED, Moves(2), STOPPED, STOPPED], Moves(9), 5, Ok(5), 5),
    (&[], STOPPED, 5, Err(Failed), 16),
    (&[], BROKEN, 5, Err(Failed), 1),
    (&[Moves(2)], BROKEN, 5, Err(Failed), 2),
];

#[test]
fn reads_until_all_is_there(rt: HostRuntime) {
    for (turns, last, room, want, calls) in READS {
        let script = Script::open(rt.alloc(), turns, last);
        let mut host = OsHost::new(Fake(&script), Fake(&script));
        let mut buf = [0; 8];
        let done = host.read_at("file", 0, &mut buf[..room.min(8)]);
        same(&rt, done, want, "a read");
        same(&rt, script.calls(), calls, "calls");
        let count = want.unwrap_or(0).min(5);
        same(&rt, &buf[..count], &b"abcde"[..count], "bytes");
    }
}

/// The turns as there, whether all of five bytes are taken, how many are, and how often the system is called.
type Writes = (
    &'static [Response],
    Response,
    Result<(), Failed>,
    usize,
    usize,
);

#[rattlefmt::skip]
const WRITES: [Writes; 6] = [
    (&[], Moves(1), Ok(()), 5, 5),
    (&[STOPPED, Moves(2), STOPPED], Moves(9), Ok(()), 5, 4),
    (&[], STOPPED, Err(Failed), 0, 16),
    (&[], BROKEN, Err(Failed), 0, 1),
    (&[Moves(2)], BROKEN, Err(Failed), 2, 2),
    (&[Moves(2)], Moves(0), Err(Failed), 2, 2),
];

#[test]
fn writes_until_all_is_taken(rt: HostRuntime) {
    for (turns, last, want, taken, calls) in WRITES {
        let script = Script::open(rt.alloc(), turns, last);
        let mut host = OsHost::new(Fake(&script), Fake(&script));
        let done = host.write_at("file", 0, b"abcde");
        same(&rt, done, want, "a write");
        same(&rt, script.calls(), calls, "calls");
        assert!(rt; script.has_written(&b"abcde"[..taken.min(5)]));
    }
}

#[test]
fn what_is_refused_is_a_fault(rt: HostRuntime) {
    let script = Script::closed(rt.alloc(), 0);
    let mut host = OsHost::new(Fake(&script), Fake(&script));
    is_refused(&rt, &mut host, "file");
    same(&rt, host.console_write(b"a"), Err(Failed), "the console");
    same(&rt, host.note_write(b"a"), Err(Failed), "the notes");
    same(&rt, host.faults(), 6, "the faults");
}

#[test]
fn each_stream_gets_its_bytes_whole(rt: HostRuntime) -> Result<(), Fail> {
    let mut text = b"\xff, which is no text, and a line\n".repeat(rt.alloc(), 200)?;
    let console = Script::closed(rt.alloc(), 100);
    let notes = Script::closed(rt.alloc(), usize::MAX);
    let mut host = OsHost::new(Fake(&console), Fake(&notes));
    same(&rt, host.console_write(&text), Ok(()), "the console");
    same(&rt, host.note_write(&text), Ok(()), "the notes");
    same(&rt, host.note_write(b"end"), Ok(()), "the notes' end");
    assert!(rt; console.has_written(&text));
    text.extend_from_slice(b"end")?;
    assert!(rt; notes.has_written(&text));
    Ok(())
}

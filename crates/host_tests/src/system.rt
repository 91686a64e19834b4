//! A host over the system's own files and streams.

use crate::same::same;
use jos_host::{Failed, Host, OsHost};
use std::io::{Input, Print};
use std::process::Abort;
use std::rt::Files;
use std::test::Fail;
use std::{env, fs, process};

/// What stands in the file from a place on, as far as a read of four bytes shows it.
fn shows(host: &mut impl Host, path: &str, at: u64, wanted: &[u8]) -> bool {
    let mut buf = [0; 4];
    match host.read_at(path, at, &mut buf) {
        Ok(count) => &buf[..count.min(4)] == wanted,
        Err(Failed) => false,
    }
}

/// Each call on files once over the system, on a path that is absent.
fn keeps_a_file<R: Files + Input + Print, N: Print>(
    rt: &impl Abort,
    files: &impl Files,
    host: &mut OsHost<R, N>,
    path: &str,
) {
    same(rt, host.size(path), Ok(None), "no file");
    assert!(rt; shows(host, path, 0, &[]));
    for (at, bytes, size) in [(0, b"abc".as_slice(), 3), (1, b"xyz", 4)] {
        same(rt, host.write_at(path, at, bytes), Ok(()), "a write");
        same(rt, host.size(path), Ok(Some(size)), "the size");
    }
    for (at, wanted) in [(0, b"axyz".as_slice()), (2, b"yz"), (4, b"")] {
        assert!(rt; shows(host, path, at, wanted));
    }
    // The file shrinks after its size was told.
    assert!(rt; fs::write(files, path, "ab").is_ok());
    assert!(rt; shows(host, path, 0, b"ab"));
    same(rt, host.create(path), Ok(()), "an empty file");
    same(rt, host.size(path), Ok(Some(0)), "no bytes");
    same(rt, host.faults(), 0, "the faults");
}

#[test]
fn reaches_the_system(rt: HostRuntime) -> Result<(), Fail> {
    let name = format!(in rt.alloc(); "jos-host-test-{}", process::id(rt.process()))?;
    let path = env::temp_dir(&rt)?.join(rt.alloc(), name.as_str())?;
    let mut host = OsHost::new(&rt, rt.stderr());
    keeps_a_file(&rt, &rt, &mut host, path.as_path().as_str());
    let below = path.join(rt.alloc(), "below")?;
    is_refused(&rt, &mut host, below.as_path().as_str());
    fs::remove_file(&rt, path.as_path())?;
    Ok(())
}

/// Each call on files fails.
pub(crate) fn is_refused<R: Files + Input + Print, N: Print>(
    rt: &impl Abort,
    host: &mut OsHost<R, N>,
    path: &str,
) {
    let before = host.faults();
    same(rt, host.size(path), Err(Failed), "a size");
    let read = host.read_at(path, 0, &mut [0; 1]);
    same(rt, read, Err(Failed), "a read");
    same(rt, host.create(path), Err(Failed), "an empty file");
    same(rt, host.write_at(path, 0, b"a"), Err(Failed), "a write");
    same(rt, host.faults().checked_sub(before), Some(4), "the faults");
}

#[test]
fn reaches_the_streams(rt: HostRuntime) {
    let mut host = OsHost::new(&rt, rt.stderr());
    same(
        &rt,
        host.console_write(b"to the console\n"),
        Ok(()),
        "the console",
    );
    same(
        &rt,
        host.note_write(b"a note, and \xff\n"),
        Ok(()),
        "the notes",
    );
    let read = host.console_read(&mut [0; 1]);
    same(&rt, host.faults(), read.is_err() as u64, "the faults");
}

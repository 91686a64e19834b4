//! A system that fails, or moves few bytes at a time.

ghost use Rattle.std.specs.Prelude.{◌≤◌, IfOk, IsErr, length};

use std::alloc::{Allocator, Global};
use std::cell::{Cell, RefCell};
use std::fmt::Display;
use std::fs::{File, Metadata, OpenFile, OpenOptions};
use std::io;
use std::io::{BufRead, ErrorKind, Input, Lines, Print, Read, Seek, SeekFrom, Write};
use std::rt::Files;

/// What a read or a write does: it moves so many bytes at most, or fails.
#[derive(Clone, Copy)]
pub(crate) enum Response {
    Moves(usize),
    Fails(ErrorKind),
}

/// What a fake system does and has done. Its reads and writes take each of the turns once, and the last one at every
/// later call.
#[derive(Drop)]
pub(crate) struct Script {
    turns: &'static [Response],
    last: Response,
    /// Whether a file may be opened.
    opens: bool,
    calls: Cell<usize>,
    unread: Cell<&'static [u8]>,
    written: RefCell<Vec<u8>>,
}

impl Script {
    /// Of a system that has a file of five bytes.
    pub(crate) fn open(alloc: Global, turns: &'static [Response], last: Response) -> Script {
        Script {
            turns,
            last,
            opens: true,
            calls: Cell::new(0),
            unread: Cell::new(b"abcde"),
            written: RefCell::new(Vec::new(alloc)),
        }
    }

    /// Of a system that gives no permission to files, and takes at most so many bytes of each write.
    pub(crate) fn closed(alloc: Global, at_once: usize) -> Script {
        Script {
            opens: false,
            ..Script::open(alloc, &[], Response::Moves(at_once))
        }
    }

    /// How many reads and writes there were.
    pub(crate) fn calls(&self) -> usize {
        self.calls.get()
    }

    pub(crate) fn has_written(&self, wanted: &[u8]) -> bool {
        match self.written.try_borrow() {
            Ok(written) => written.as_slice() == wanted,
            Err(_) => false,
        }
    }

    fn turn(&self) -> Response {
        let calls = self.calls.get();
        self.calls.set(calls.saturating_add(1));
        self.turns.get(calls).copied().unwrap_or(self.last)
    }

    fn take(&self, buf: &mut [u8]) -> io::Result<usize>
        ensures { IfOk result (λ n. n ≤ length buf.old) }
    {
        match self.turn() {
            Response::Moves(most) => {
                let count = most.min(buf.len());
                let mut unread = self.unread.get();
                let done = unread.read(&mut buf[..count]);
                self.unread.set(unread);
                done
            }
            Response::Fails(kind) => Err(io::Error::from(kind)),
        }
    }

    fn put(&self, bytes: &[u8]) -> io::Result<usize>
        ensures { IfOk result (λ n. n ≤ length bytes.now) }
    {
        match self.turn() {
            Response::Moves(most) => {
                let count = most.min(bytes.len());
                match self.written.try_borrow_mut() {
                    Ok(mut written) => {
                        written.extend_from_slice(&bytes[..count])?;
                        Ok(count)
                    }
                    Err(_) => denied(),
                }
            }
            Response::Fails(kind) => Err(io::Error::from(kind)),
        }
    }
}

fn denied<T>() -> io::Result<T>
    ensures { IsErr result }
{
    Err(io::Error::from(ErrorKind::PermissionDenied))
}

/// A system, and each file and stream of it.
#[derive(Drop)]
pub(crate) struct Fake<'a>(pub(crate) &'a Script);

impl Read for Fake<'_> {
    fn read(&mut self, buf: &mut [u8]) -> io::Result<usize> {
        self.0.take(buf)
    }
}

impl Write for Fake<'_> {
    fn write(&mut self, bytes: &[u8]) -> io::Result<usize> {
        self.0.put(bytes)
    }

    fn flush(&mut self) -> io::Result<()> {
        Ok(())
    }
}

impl Seek for Fake<'_> {
    fn seek(&mut self, _place: SeekFrom) -> io::Result<u64> {
        Ok(0)
    }
}

impl OpenFile for Fake<'_> {
    fn metadata(&self) -> io::Result<Metadata> {
        denied()
    }

    fn set_len(&self, _size: u64) -> io::Result<()> {
        denied()
    }

    fn sync_all(&self) -> io::Result<()> {
        denied()
    }

    fn sync_data(&self) -> io::Result<()> {
        denied()
    }
}

impl Print for Fake<'_> {
    fn print<D: Display + Drop>(&self, _value: D) -> io::Result<()> {
        denied()
    }

    fn println<D: Display + Drop>(&self, _value: D) -> io::Result<()> {
        denied()
    }

    fn write_all(&self, _bytes: &[u8]) -> io::Result<()> {
        denied()
    }

    fn write_some(&self, bytes: &[u8]) -> io::Result<usize> {
        self.0.put(bytes)
    }
}

impl Input for Fake<'_> {
    type Reader = &'static [u8];

    fn read_line<A: Allocator + Clone>(&self, _buf: &mut String<A>) -> io::Result<usize> {
        denied()
    }

    fn lines<A: Allocator>(&self, alloc: A) -> Lines<&'static [u8], A> {
        self.reader().lines(alloc)
    }

    fn reader(&self) -> &'static [u8] {
        &[]
    }
}

impl<'a> Files for Fake<'a> {
    type File = Fake<'a>;

    type Dir = File;

    fn open_file(&self, _how: &OpenOptions, _path: &str) -> io::Result<Fake<'a>> {
        if self.0.opens {
            Ok(Fake(self.0))
        } else {
            denied()
        }
    }

    fn open_dir(&self, _path: &str) -> io::Result<File> {
        denied()
    }

    fn metadata(&self, _path: &str) -> io::Result<Metadata> {
        denied()
    }

    fn symlink_metadata(&self, _path: &str) -> io::Result<Metadata> {
        denied()
    }

    fn copy(&self, _from: &str, _to: &str) -> io::Result<u64> {
        denied()
    }

    fn rename(&self, _from: &str, _to: &str) -> io::Result<()> {
        denied()
    }

    fn remove_file(&self, _path: &str) -> io::Result<()> {
        denied()
    }

    fn create_dir(&self, _path: &str) -> io::Result<()> {
        denied()
    }

    fn remove_dir(&self, _path: &str) -> io::Result<()> {
        denied()
    }

    fn remove_dir_all<B: Allocator>(&self, _alloc: B, _path: &str) -> io::Result<()> {
        denied()
    }
}

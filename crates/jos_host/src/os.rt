//! The host over the files and the streams of the system. It is proved to count its failures, and to read and
//! write whole over any stream; which file or stream a call goes to is trusted.

ghost use Rattle.std.specs.Prelude.{◌≡◌, ◌≤◌, None, IfOk, length};
ghost use Rattle.jos_host.specs.Count.{counted};

use crate::faults::count_fault;
use crate::streams::{read_from, read_some, unless_absent, write_from, write_full};
use crate::{Failed, Host};
use std::fs::{Metadata, OpenOptions};
use std::io::ErrorKind;
use std::marker::Model;
use std::rt::Files;
use std::{fs, io};

/// The host over a runtime's files, standard input and standard output, with notes to a stream of their own,
/// as standard error.
///
/// A clause sees the count of its faults, and nothing of what is outside.
#[derive(Drop)]
pub struct OsHost<R, N> {
    runtime: R,
    notes: N,
    faults: u64,
}

impl<R, N> Model for OsHost<R, N> {
    ghost use Rattle.std.specs.Prelude.{ℕ};

    ghost Value = { ℕ };

    ghost view = { λ h. h.faults };
}

impl<R, N> OsHost<R, N> {
    /// A host over this runtime, that writes its notes to `notes`.
    pub fn new(runtime: R, notes: N) -> OsHost<R, N>
        ensures { result ≡ 0 }
    {
        OsHost {
            runtime,
            notes,
            faults: 0,
        }
    }

    /// How many calls have failed. The count ends at `u64::MAX`.
    pub fn faults(&self) -> u64
        ensures { result ≡ counted self.now }
    {
        self.faults
    }
}

impl<R: Files + Input + Print, N: Print> Host for OsHost<R, N> {
    ghost files = { λ _. None };

    ghost input = { λ _. None };

    ghost console = { λ _. None };

    ghost notes = { λ _. None };

    ghost asked = { λ _. None };

    ghost faults = { counted };

    ghost use Rattle.std.proofs.Common.{arith};

    ghost faults_fit = { λ h. Prim.omega arith };

    fn size(&mut self, name: &str) -> Result<Option<u64>, Failed> {
        count_fault(file_size(&self.runtime, name), &mut self.faults)
    }

    fn read_at(&mut self, name: &str, at: u64, buf: &mut [u8]) -> Result<usize, Failed> {
        count_fault(read_file(&self.runtime, name, at, buf), &mut self.faults)
    }

    fn create(&mut self, name: &str) -> Result<(), Failed> {
        count_fault(create_file(&self.runtime, name), &mut self.faults)
    }

    fn write_at(&mut self, name: &str, at: u64, bytes: &[u8]) -> Result<(), Failed> {
        count_fault(write_file(&self.runtime, name, at, bytes), &mut self.faults)
    }

    fn console_read(&mut self, buf: &mut [u8]) -> Result<usize, Failed> {
        count_fault(read_some(&mut self.runtime.reader(), buf), &mut self.faults)
    }

    fn console_write(&mut self, bytes: &[u8]) -> Result<(), Failed> {
        count_fault(
            write_full(&mut io::writer(&self.runtime), bytes),
            &mut self.faults,
        )
    }

    fn note_write(&mut self, bytes: &[u8]) -> Result<(), Failed> {
        count_fault(
            write_full(&mut io::writer(&self.notes), bytes),
            &mut self.faults,
        )
    }
}

/// What the system tells of the regular file of this name, or `None` where nothing has the name.
///
/// # Errors
/// What has the name is a folder, a pipe or a device, which is not opened; or the system failed.
fn regular_file(files: &impl Files, name: &str) -> io::Result<Option<Metadata>> {
    match unless_absent(fs::metadata(files, name))? {
        Some(metadata) if !metadata.is_file() => Err(io::Error::from(ErrorKind::InvalidInput)),
        found => Ok(found),
    }
}

/// The length of the file in bytes, or `None` where there is none of this name.
///
/// # Errors
/// There are bytes behind the length that the system tells, as in files of `/proc`.
fn file_size(files: &impl Files, name: &str) -> io::Result<Option<u64>> {
    let Some(metadata) = regular_file(files, name)? else {
        return Ok(None);
    };
    let len = metadata.len();
    if read_file(files, name, len, &mut [0; 1])? > 0 {
        return Err(io::Error::from(ErrorKind::InvalidData));
    }
    Ok(Some(len))
}

/// Makes the name an empty file.
fn create_file(files: &impl Files, name: &str) -> io::Result<()> {
    regular_file(files, name)?;
    fs::create(files, name)?;
    Ok(())
}

/// Fills the buffer from byte `at` on. A file that is absent has no bytes.
fn read_file(files: &impl Files, name: &str, at: u64, buf: &mut [u8]) -> io::Result<usize>
    ensures within { IfOk result (λ n. n ≤ length buf.old) }
{
    match unless_absent(fs::open(files, name))? {
        Some(mut file) => read_from(&mut file, at, buf),
        None => Ok(0),
    }
}

/// Writes from byte `at` on, into a file that is made where it is absent.
fn write_file(files: &impl Files, name: &str, at: u64, bytes: &[u8]) -> io::Result<()> {
    let mut file = OpenOptions::new()
        .write(true)
        .create(true)
        .open(files, name)?;
    write_from(&mut file, at, bytes)
}

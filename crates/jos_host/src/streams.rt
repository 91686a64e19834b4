//! Reads and writes over any stream, which go on until all is done, the stream ends or it fails.

ghost use Rattle.std.specs.Prelude.{◌≡◌, ◌≢◌, ℕ, ◌<◌, ◌≤◌, Ok, Err, IfOk, IfErr, IfSome, IfNone, IsErrAnd, OnOk};
ghost use Rattle.std.specs.Prelude.{OnErr, length, take};
ghost use Rattle.std.specs.IoError.{error_kind};
ghost use Rattle.std.specs.Io.KnownBytes.{Consumes, ReadConsumes, IsAtEnd, Appends, WriteAppends};

use std::io;
use std::io::{ErrorKind, Read, Seek, SeekFrom, Write};

/// How often a read or a write is tried that a signal interrupts each time. No other error is tried again.
const TRIES: u32 = 16;

/// Fills the buffer from byte `at` of the file on, as `read_full` does.
pub(crate) fn read_from<F: Read + Seek>(file: &mut F, at: u64, buf: &mut [u8]) -> io::Result<usize>
    ensures within { IfOk result (λ n. n ≤ length buf.old) }
{
    file.seek(SeekFrom::Start(at))?;
    read_full(file, buf)
}

/// Writes all of the bytes from byte `at` of the file on, as `write_full` does.
pub(crate) fn write_from<F: Write + Seek>(file: &mut F, at: u64, bytes: &[u8]) -> io::Result<()> {
    file.seek(SeekFrom::Start(at))?;
    write_full(file, bytes)
}

/// Reads until the buffer is full or the reader ends. After an error, what came before it is lost.
pub(crate) fn read_full<R: Read>(reader: &mut R, buf: &mut [u8]) -> io::Result<usize>
    ensures within { IfOk result (λ n. n ≤ length buf.old) }
    ensures taken { IfOk result
        (λ n. Consumes (R.remaining reader.old) (R.remaining reader.new) (take n buf.new)) }
    ensures whole { IfOk result (λ n. n < length buf.old → IsAtEnd (R.remaining reader.new)) }
{
    let mut filled = 0;
    while filled < buf.len() {
        match read_some(reader, &mut buf[filled..])? {
            0 => break,
            count => filled += count,
        }
    }
    Ok(filled)
}

/// One read, which is tried again where a signal interrupts it. After an error nothing was read.
pub(crate) fn read_some<R: Read>(reader: &mut R, buf: &mut [u8]) -> io::Result<usize>
    ensures within { IfOk result (λ n. n ≤ length buf.old) }
    ensures taken { ReadConsumes (R.remaining reader.old) (R.remaining reader.new) result buf.new }
{
    for _ in 0..TRIES {
        match reader.read(buf) {
            Err(e) if e.kind() == ErrorKind::Interrupted => {}
            done => return done,
        }
    }
    Err(io::Error::from(ErrorKind::Interrupted))
}

/// Writes all of the bytes. After an error a prefix of them was written; a writer that takes none at a write
/// has failed.
pub(crate) fn write_full<W: Write>(writer: &mut W, bytes: &[u8]) -> io::Result<()>
    ensures ok { OnOk result (Appends (W.contents writer.old) (W.contents writer.new) bytes.now) }
    ensures err { OnErr result ((n : ℕ) × (n ≤ length bytes.now)
        × Appends (W.contents writer.old) (W.contents writer.new) (take n bytes.now)) }
{
    let mut written = 0;
    while written < bytes.len() {
        match write_some(writer, &bytes[written..])? {
            0 => return Err(io::Error::from(ErrorKind::WriteZero)),
            count => written += count,
        }
    }
    Ok(())
}

/// One write, which is tried again where a signal interrupts it. After an error nothing was written.
fn write_some<W: Write>(writer: &mut W, bytes: &[u8]) -> io::Result<usize>
    ensures within { IfOk result (λ n. n ≤ length bytes.now) }
    ensures written { WriteAppends (W.contents writer.old) (W.contents writer.new) result bytes.now }
{
    for _ in 0..TRIES {
        match writer.write(bytes) {
            Err(e) if e.kind() == ErrorKind::Interrupted => {}
            done => return done,
        }
    }
    Err(io::Error::from(ErrorKind::Interrupted))
}

/// `None` where the call failed because there is nothing of the name.
pub(crate) fn unless_absent<T>(done: io::Result<T>) -> io::Result<Option<T>>
    ensures there { IfOk result (λ found. IfSome found (λ value. done ≡ Ok value)) }
    ensures absent { IfOk result
        (λ found. IfNone found (IsErrAnd done (λ e. error_kind e ≡ ErrorKind.NotFound))) }
    ensures failed { IfErr result (λ e. done ≡ Err e) }
    ensures not_absent { IfErr result (λ e. error_kind e ≢ ErrorKind.NotFound) }
{
    match done {
        Ok(value) => Ok(Some(value)),
        Err(e) => match e.kind() {
            ErrorKind::NotFound => Ok(None),
            _ => Err(e),
        },
    }
}

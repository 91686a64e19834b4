//! Files as a whole: one is read, and one is written.

ghost use Rattle.std.specs.Prelude.{◌≡◌, ◌≤◌, ⊤, [], None, IfOk, OnOk, OnErr, length, MatchOption, MatchResult};
ghost use Rattle.std.specs.Result.{result_err};
ghost use Rattle.jos_host.specs.Told.{HasCause};
ghost use Rattle.jos_host.specs.Frames.{Unchanged, around};
ghost use Rattle.jos_words.specs.Arguments.{word_in_bytes};
ghost use Rattle.jos_cli.specs.Found.{FileAt, IsFileAt};
ghost use Rattle.jos_cli.specs.Answer.{bytes_within, expected_of_writing};
ghost use Rattle.jos_cli.specs.Stages.{Judges, IsUnread};
ghost use Rattle.jos_cli.specs.FilesRead.{IsFile, IsFileFault, HasFileCause};
ghost use Rattle.jos_cli.specs.FilesLeft.{KeepsOthers, told_with};
ghost use Rattle.jos_cli.specs.FilesAsked.{AsksFor, AsksAll, read_calls, write_calls};
ghost use Rattle.jos_cli.specs.Outside.{outside};
ghost use Rattle.jos_cli.specs.Effects.{ReadsFiles, WritesFile};

use crate::outcome::{Outcome, Stopped, Which};
use jos_host::{Failed, Host};
use jos_words::WordAt;
use std::alloc::Global;

/// The answer where a call of the host failed and nothing was done.
pub(crate) fn host_fault(alloc: Global) -> Outcome
    ensures { result ≡ Outcome.HostFault (record { turns = []; first_refused = None }) }
{
    Outcome::HostFault(Stopped::at_no_turn(alloc))
}

/// Why a file is not read.
#[derive(Clone, Copy)]
enum FileFault {
    Absent,
    TooLong,
    /// A call of the host failed.
    Host,
    NoMemory,
}

/// Reads the file whole, by one `size` and one `read_at`, if it has so many bytes at most.
fn read_bytes<H: Host>(
    alloc: Global,
    name: &str,
    most: u64,
    host: &mut H,
) -> Result<Vec<u8>, FileFault>
    ensures told { MatchOption (H.files host.old) ⊤ (λ files.
        MatchResult result (λ bytes. IsFile most (files name.now) bytes.items) (IsFileFault most (files name.now))) }
    ensures small { IfOk result (λ bytes. length bytes.items ≤ most) }
    ensures cause { MatchResult result (λ _. H.faults host.new ≡ H.faults host.old) (HasFileCause (around H.faults host.old host.new)) }
    ensures rest { Unchanged H.files H.input H.console H.notes host.old host.new }
    ensures asked { MatchResult result (λ _. AsksAll (read_calls name.now) (around H.asked host.old host.new))
        (λ _. AsksFor (read_calls name.now) (around H.asked host.old host.new)) }
{
    let size = match host.size(name) {
        Ok(Some(size)) => size,
        Ok(None) => return Err(FileFault::Absent),
        Err(_) => return Err(FileFault::Host),
    };
    if size > most {
        return Err(FileFault::TooLong);
    }
    let mut bytes = match vec![in alloc; 0; size as usize] {
        Ok(bytes) => bytes,
        Err(_) => return Err(FileFault::NoMemory),
    };
    match host.read_at(name, 0, &mut bytes) {
        Ok(count) => {
            bytes.truncate(count);
            Ok(bytes)
        }
        Err(_) => Err(FileFault::Host),
    }
}

/// Reads the file that a word names, of so many bytes at most.
pub(crate) fn read_file<'a, H: Host>(
    alloc: Global,
    word: WordAt<'a>,
    most: u64,
    which: Which,
    host: &mut H,
) -> Result<Vec<u8>, Outcome>
    requires { IsUnread (Outcome.Limit which) }
    ensures told { (file : FileAt) × IsFileAt (H.files host.old) (word_in_bytes word.entry) file
        × Judges (bytes_within most which file.word.place file.bytes) (λ bytes. bytes.items) result }
    ensures small { IfOk result (λ bytes. length bytes.items ≤ most) }
    ensures did { ReadsFiles (read_calls word.entry.text.now) (result_err result) (outside H.Host host.old host.new) }
{
    match read_bytes(alloc, word.text, most, host) {
        Ok(bytes) => Ok(bytes),
        Err(FileFault::Absent) => Err(Outcome::Absent(word.place)),
        Err(FileFault::TooLong) => Err(Outcome::Limit(which)),
        Err(FileFault::Host) => Err(host_fault(alloc)),
        Err(FileFault::NoMemory) => Err(Outcome::NoMemory),
    }
}

/// Makes the name a file of these bytes, by one `create` and one `write_at`.
pub(crate) fn write_file<H: Host>(name: &str, bytes: &[u8], host: &mut H) -> Result<(), Failed>
    ensures written { OnOk result (H.files host.new ≡ told_with (H.files host.old) name.now bytes.now) }
    ensures kept { OnErr result (KeepsOthers name.now (around H.files host.old host.new)) }
    ensures cause { HasCause (H.faults host.old) (H.faults host.new) result }
    ensures input { H.input host.new ≡ H.input host.old }
    ensures asked { AsksFor (write_calls name.now) (around H.asked host.old host.new) }
    ensures whole { OnOk result (AsksAll (write_calls name.now) (around H.asked host.old host.new)) }
    ensures console { H.console host.new ≡ H.console host.old }
    ensures notes { H.notes host.new ≡ H.notes host.old }
{
    match host.create(name) {
        Ok(()) => host.write_at(name, 0, bytes),
        Err(failed) => Err(failed),
    }
}

/// Writes a file that was made.
pub(crate) fn write_made<H: Host>(alloc: Global, name: &str, bytes: &[u8], host: &mut H) -> Outcome
    ensures did { WritesFile (expected_of_writing bytes.now) name.now bytes.now result (outside H.Host host.old host.new) }
{
    match write_file(name, bytes, host) {
        Ok(()) => Outcome::Made(bytes.len() as u64),
        Err(_) => host_fault(alloc),
    }
}

//! What is told of a disk: the records of a directory, and the bytes of a file.

ghost use Rattle.std.specs.Prelude.{◌≡◌, ℕ, ◌+◌, ◌*◌, ◌++◌, ◌<◌, ◌≤◌, ◌==◌, [], IfSome, position, Some, IfOk, IfErr, length, map, slice_index};
ghost use Rattle.std.specs.Prelude.{vec_capacity};
ghost use Rattle.std.specs.Option.{option_map};
ghost use Rattle.std.specs.Result.{result_err};
ghost use Rattle.jos_host.specs.Frames.{from_to};
ghost use Rattle.jos_base.specs.declared.lines.TheConstants.{LINE_MAX};
ghost use Rattle.fs_layout.specs.declared.numbers.TheConstants.{MAXNAMELEN};
ghost use Rattle.fs_layout.specs.DiskFiles.{IsDiskImage};
ghost use Rattle.fs_contents.specs.Contents.{told_of_entry};
ghost use Rattle.jos_words.specs.Arguments.{word_in_bytes};
ghost use Rattle.jos_words.specs.Commands.{ls, cat, ls_in_bytes, cat_in_bytes};
ghost use Rattle.jos_cli.specs.declared.disks.TheConstants.{RECORD_LINE_MAX};
ghost use Rattle.jos_cli.specs.Found.{FileAt, IsFileAt};
ghost use Rattle.jos_cli.specs.Disks.{checked, disk_of, size_text, record_line, listing, path_of, expected_of_printed, expected_of_listing, expected_of_bytes};
ghost use Rattle.jos_cli.specs.Outcomes.{HasOutcomeCause};
ghost use Rattle.jos_cli.specs.Stages.{Judges, IsUnreadOnDisk};
ghost use Rattle.jos_cli.specs.Outside.{outside};
ghost use Rattle.jos_cli.specs.Effects.{DoesCommand, ReadsDisk, PrintsAnswer};

use crate::files::host_fault;
use crate::outcome::Outcome;
use fs_contents::{ReadFault, list, read_file};
use fs_image::{CheckFault, DiskBytes, DiskFault, check, read_disk};
use fs_layout::{FTYPE_DIR, FileEntry, MAXNAMELEN};
use jos_base::{LINE_MAX, LineText, push_decimal, push_text};
use jos_host::Host;
use jos_words::{CatWords, LsWords, WordAt};
use std::alloc::{AllocError, Global};

/// The disk, if it has no fault.
fn checked(alloc: Global, disk: DiskBytes) -> Result<DiskBytes, Outcome>
    ensures told { Judges (checked disk) (λ disk. disk) result }
    ensures disk { IfOk result (λ disk. IsDiskImage (length disk.bytes) (slice_index disk.bytes)) }
    ensures cause { (faults : ℕ) → IfErr result (HasOutcomeCause (from_to faults faults)) }
    ensures unread { IfErr result IsUnreadOnDisk }
{
    match check(alloc, &disk) {
        Ok(_) => Ok(disk),
        Err(CheckFault::Bad(fault)) => Err(Outcome::BadDisk(fault)),
        Err(CheckFault::NoMemory) => Err(Outcome::NoMemory),
    }
}

/// The disk that a word names, without a fault.
pub(crate) fn read_checked<'a, H: Host>(
    alloc: Global,
    word: WordAt<'a>,
    host: &mut H,
) -> Result<DiskBytes, Outcome>
    ensures told { (file : FileAt) × IsFileAt (H.files host.old) (word_in_bytes word.entry) file
        × Judges (disk_of file) (λ disk. disk) result }
    ensures disk { IfOk result (λ disk. IsDiskImage (length disk.bytes) (slice_index disk.bytes)) }
    ensures did { ReadsDisk word.entry.text.now (result_err result) (outside H.Host host.old host.new) }
{
    match read_disk(alloc, word.text, host) {
        Ok(disk) => checked(alloc, disk),
        Err(DiskFault::Absent) => Err(Outcome::Absent(word.place)),
        Err(DiskFault::Host) => Err(host_fault(alloc)),
        Err(DiskFault::NoMemory) => Err(Outcome::NoMemory),
    }
}

/// The most bytes of a record's line: those of a name, and what follows it.
const RECORD_LINE_MAX: usize = MAXNAMELEN as usize + LINE_MAX;

/// What follows the name in a record's line.
fn size_text(entry: &FileEntry) -> LineText
    ensures text { result.items ≡ size_text (told_of_entry entry.now) }
    ensures short { length result.items ≤ LINE_MAX }
{
    let mut line = LineText::new();
    if entry.kind == FTYPE_DIR {
        push_text(&mut line, b"/");
    } else {
        push_text(&mut line, b" ");
        push_decimal(&mut line, entry.size as u64);
    }
    push_text(&mut line, b"\n");
    line
}

/// The place of the first NUL.
fn first_nul(bytes: &[u8]) -> Option<usize>
    ensures exact { result ≡ position (λ byte. byte == 0) bytes.now }
    ensures within { IfSome result (λ place. place < length bytes.now) }
{
    bytes.iter().position(|byte| *byte == 0)
}

/// A record's name, which ends at its first NUL.
fn name_of(entry: &FileEntry) -> &[u8]
    ensures name { result.now ≡ (told_of_entry entry.now).name }
    ensures short { length result.now ≤ MAXNAMELEN }
{
    match first_nul(&entry.name) {
        Some(end) => &entry.name[..end],
        None => &entry.name,
    }
}

/// Room for the lines of so many records.
fn room_for_lines(alloc: Global, records: usize) -> Result<Vec<u8>, AllocError>
    ensures empty { IfOk result (λ text. text.items ≡ []) }
    ensures room { IfOk result (λ text. records * RECORD_LINE_MAX ≤ vec_capacity text) }
{
    match records.checked_mul(RECORD_LINE_MAX) {
        Some(room) => Vec::with_capacity(alloc, room),
        None => Err(AllocError),
    }
}

/// Appends a record's line, for which there is room.
fn write_line(entry: &FileEntry, text: &mut Vec<u8>)
    requires { length text.old.items + RECORD_LINE_MAX ≤ vec_capacity text.old }
    ensures line { text.new.items ≡ text.old.items ++ record_line (told_of_entry entry.now) }
    ensures short { length text.new.items ≤ length text.old.items + RECORD_LINE_MAX }
    ensures room { vec_capacity text.old ≤ vec_capacity text.new }
{
    text.extend_from_slice(name_of(entry)).unwrap();
    text.extend_from_slice(size_text(entry).as_slice()).unwrap();
}

/// The lines of records, in the room that was made for them.
fn listing(mut text: Vec<u8>, entries: &[FileEntry]) -> Vec<u8>
    requires empty { text.items ≡ [] }
    requires room { length entries.now * RECORD_LINE_MAX ≤ vec_capacity text }
    ensures { result.items ≡ listing (map told_of_entry entries.now) }
{
    for entry in entries {
        write_line(entry, &mut text);
    }
    text
}

/// Writes bytes to the console.
fn print<H: Host>(alloc: Global, bytes: &[u8], host: &mut H) -> Outcome
    ensures did { PrintsAnswer (expected_of_printed bytes.now) result (outside H.Host host.old host.new) }
{
    match host.console_write(bytes) {
        Ok(()) => Outcome::Made(bytes.len() as u64),
        Err(_) => host_fault(alloc),
    }
}

/// Prints the lines of records.
fn print_listing<H: Host>(alloc: Global, entries: &[FileEntry], host: &mut H) -> Outcome
    ensures did { PrintsAnswer (expected_of_printed (listing (map told_of_entry entries.now))) result (outside H.Host host.old host.new) }
{
    match room_for_lines(alloc, entries.len()) {
        Ok(text) => print(alloc, &listing(text, entries), host),
        Err(_) => Outcome::NoMemory,
    }
}

/// Prints the records of the directory that a path names.
fn print_directory<H: Host>(alloc: Global, disk: &DiskBytes, path: &str, host: &mut H) -> Outcome
    requires { IsDiskImage (length disk.now.bytes) (slice_index disk.now.bytes) }
    ensures did { PrintsAnswer (expected_of_listing path.now disk.now) result (outside H.Host host.old host.new) }
{
    match list(alloc, disk.bytes(), path.as_bytes()) {
        Ok(entries) => print_listing(alloc, &entries, host),
        Err(ReadFault::NotThere(errno)) => Outcome::NotThere(errno),
        Err(ReadFault::NoMemory) => Outcome::NoMemory,
    }
}

/// Prints the bytes of the file that a path names.
fn print_file<H: Host>(alloc: Global, disk: &DiskBytes, path: &str, host: &mut H) -> Outcome
    requires { IsDiskImage (length disk.now.bytes) (slice_index disk.now.bytes) }
    ensures did { PrintsAnswer (expected_of_bytes path.now disk.now) result (outside H.Host host.old host.new) }
{
    match read_file(alloc, disk.bytes(), path.as_bytes()) {
        Ok(bytes) => print(alloc, &bytes, host),
        Err(ReadFault::NotThere(errno)) => Outcome::NotThere(errno),
        Err(ReadFault::NoMemory) => Outcome::NoMemory,
    }
}

/// The path of the directory, which is the root's where none is named.
fn path_of<'a>(path: Option<WordAt<'a>>) -> &'a str
    ensures { result.now ≡ path_of (option_map word_in_bytes path.entry) }
{
    match path {
        Some(word) => word.text,
        None => "",
    }
}

/// Does what the words of `ls` ask, but for the note.
pub(crate) fn answer_ls<'a, H: Host>(alloc: Global, words: LsWords<'a>, host: &mut H) -> Outcome
    ensures did { DoesCommand (Some (ls (ls_in_bytes words.entry))) result (outside H.Host host.old host.new) }
{
    match read_checked(alloc, words.disk, host) {
        Ok(disk) => print_directory(alloc, &disk, path_of(words.path), host),
        Err(outcome) => outcome,
    }
}

/// Does what the words of `cat` ask, but for the note.
pub(crate) fn answer_cat<'a, H: Host>(alloc: Global, words: CatWords<'a>, host: &mut H) -> Outcome
    ensures did { DoesCommand (Some (cat (cat_in_bytes words.entry))) result (outside H.Host host.old host.new) }
{
    match read_checked(alloc, words.disk, host) {
        Ok(disk) => print_file(alloc, &disk, words.path.text, host),
        Err(outcome) => outcome,
    }
}

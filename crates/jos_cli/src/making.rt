//! A disk that is made of files.

ghost use Rattle.std.specs.Prelude.{◌≡◌, ◌<◌, ◌≤◌, ◌^◌, ℕ, Some, List, IfOk, IfErr, length, map};
ghost use Rattle.std.specs.Result.{result_err};
ghost use Rattle.jos_host.specs.Frames.{from_to};
ghost use Rattle.fs_layout.specs.declared.numbers.TheConstants.{MAXBLOCKS};
ghost use Rattle.fs_make.specs.MadeImage.{made_image};
ghost use Rattle.jos_words.specs.Arguments.{word_in_bytes};
ghost use Rattle.jos_words.specs.Commands.{mkfs, mkfs_in_bytes};
ghost use Rattle.jos_cli.specs.Found.{FileAt, IsFileAt};
ghost use Rattle.jos_cli.specs.Answer.{expected_if, expected_of_writing};
ghost use Rattle.jos_cli.specs.Making.{file_name, named_file, named_files, disk_made};
ghost use Rattle.jos_cli.specs.Outcomes.{HasOutcomeCause};
ghost use Rattle.jos_cli.specs.Stages.{AreFilesAt, Judges, IsUnmade, IfMade};
ghost use Rattle.jos_cli.specs.FilesAsked.{read_calls, files_calls};
ghost use Rattle.jos_cli.specs.FilesLeft.{IsDiskWith};
ghost use Rattle.jos_cli.specs.Outside.{outside};
ghost use Rattle.jos_cli.specs.Effects.{DoesCommand, ReadsFiles, WritesFile};

use crate::files::{read_file, write_made};
use crate::limits::limit_of_blocks;
use crate::outcome::{Outcome, Which};
use fs_make::{MakeFault, make};
use jos_base::FILE_MAX;
use jos_host::{Host, NamedBytes};
use jos_words::{MkfsWords, WordAt};
use std::alloc::Global;

/// The name of a file on the disk: what stands behind the last slash of its word.
fn file_name(text: &str) -> &str
    ensures { result.now ≡ file_name text.now }
{
    match text.rsplit_once('/') {
        Some((_, name)) => name,
        None => text,
    }
}

/// The file that a word names, under its name on the disk.
fn read_named_file<'a, H: Host>(
    alloc: Global,
    word: WordAt<'a>,
    host: &mut H,
) -> Result<NamedBytes, Outcome>
    ensures told { (file : FileAt) × IsFileAt (H.files host.old) (word_in_bytes word.entry) file
        × Judges (named_file file) (λ named. named) result }
    ensures did { ReadsFiles (read_calls word.entry.text.now) (result_err result) (outside H.Host host.old host.new) }
{
    let bytes = match read_file(alloc, word, FILE_MAX, Which::File, host) {
        Ok(bytes) => bytes,
        Err(outcome) => return Err(outcome),
    };
    match String::from_str(alloc, file_name(word.text)) {
        Ok(name) => Ok(NamedBytes { name, bytes }),
        Err(_) => Err(Outcome::NoMemory),
    }
}

/// The files that words name, each of which is read before the next is looked at.
fn read_named_files<'a, H: Host>(
    alloc: Global,
    words: &[WordAt<'a>],
    host: &mut H,
) -> Result<Vec<NamedBytes>, Outcome>
    ensures told { (found : List FileAt) × AreFilesAt (H.files host.old) (map word_in_bytes words.now) found
        × Judges (named_files found) (λ files. files.items) result }
    ensures count { IfOk result (λ files. length files.items ≡ length words.now) }
    ensures did { ReadsFiles (files_calls (map word_in_bytes words.now)) (result_err result) (outside H.Host host.old host.new) }
{
    let mut files = Vec::new(alloc);
    for word in words {
        match read_named_file(alloc, *word, host) {
            Ok(file) => match files.push(file) {
                Ok(()) => {}
                Err(_) => return Err(Outcome::NoMemory),
            },
            Err(outcome) => return Err(outcome),
        }
    }
    Ok(files)
}

/// The bytes of the disk that is made of these files.
#[tactic(auto, unfolding(crate::specs::Making::disk_made))]
fn make_disk(alloc: Global, blocks: u32, files: &[NamedBytes]) -> Result<Vec<u8>, Outcome>
    requires few { length files.now < 2 ^ 32 }
    ensures told { Judges (disk_made blocks files.now) (λ disk. disk.items) result }
    ensures made { IfOk result (λ disk. disk.items ≡ made_image blocks files.now) }
    ensures disk { IfOk result (λ disk. IsDiskWith blocks files.now disk.items) }
    ensures kind { IfErr result IsUnmade }
    ensures no_fault { (faults : ℕ) → IfErr result (HasOutcomeCause (from_to faults faults)) }
{
    match make(alloc, blocks, files) {
        Ok(disk) => Ok(disk),
        Err(MakeFault::NoMemory) => Err(Outcome::NoMemory),
        Err(fault) => Err(Outcome::BadMake(fault)),
    }
}

/// Makes a disk of these files and writes it.
fn make_of_files<H: Host>(
    alloc: Global,
    name: &str,
    blocks: u32,
    files: &[NamedBytes],
    host: &mut H,
) -> Outcome
    requires few { length files.now < 2 ^ 32 }
    ensures did { WritesFile (expected_if (disk_made blocks files.now) expected_of_writing) name.now (made_image blocks files.now) result
        (outside H.Host host.old host.new) }
    ensures disk { IfMade result (IsDiskWith blocks files.now (made_image blocks files.now)) }
{
    match make_disk(alloc, blocks, files) {
        Ok(disk) => write_made(alloc, name, &disk, host),
        Err(outcome) => outcome,
    }
}

/// Does what the words of `mkfs` ask, but for the note. For so many files that 32 bits do not count them there is no memory.
pub(crate) fn answer_mkfs<'a, H: Host>(
    alloc: Global,
    words: &MkfsWords<'a>,
    host: &mut H,
) -> Outcome
    ensures did { DoesCommand (Some (mkfs (mkfs_in_bytes words.now))) result (outside H.Host host.old host.new) }
{
    if let Some(which) = limit_of_blocks(words.blocks) {
        return Outcome::Limit(which);
    }
    if words.files.len() > u32::MAX as usize {
        return Outcome::NoMemory;
    }
    match read_named_files(alloc, &words.files, host) {
        Ok(files) => make_of_files(
            alloc,
            words.disk.text,
            words.blocks.value as u32,
            &files,
            host,
        ),
        Err(outcome) => outcome,
    }
}

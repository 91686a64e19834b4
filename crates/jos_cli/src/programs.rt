//! A program that stands on a disk, and all that its run is given.

ghost use Rattle.std.specs.Prelude.{◌≡◌, ℕ, Ok, None, List, IfOk, IfErr, length, map, slice_index};
ghost use Rattle.std.specs.Result.{result_err};
ghost use Rattle.jos_host.specs.Frames.{from_to};
ghost use Rattle.fs_layout.specs.DiskFiles.{IsDiskImage};
ghost use Rattle.fs_layout.specs.DiskImage.{block_count};
ghost use Rattle.jos_words.specs.Arguments.{texts, word_in_bytes};
ghost use Rattle.jos_words.specs.Commands.{run_in_bytes};
ghost use Rattle.jos_elf.specs.Parsed.{parsed};
ghost use Rattle.jos_cli.specs.Commands.{path_word, texts_of};
ghost use Rattle.jos_cli.specs.Found.{FileAt, IsFileAt, RunFound, IsRunFound, IsInput};
ghost use Rattle.jos_cli.specs.Disks.{blocks_on};
ghost use Rattle.jos_cli.specs.RunAnswers.{image_on, program_on, gathered_program};
ghost use Rattle.jos_cli.specs.Outcomes.{HasOutcomeCause};
ghost use Rattle.jos_cli.specs.Stages.{Judges, gathered_program_of, IsUnreadOnDisk, MayRun};
ghost use Rattle.jos_cli.specs.Outside.{outside};
ghost use Rattle.jos_cli.specs.Effects.{ReadsDisk, GathersProgram};

use crate::disks::read_checked;
use crate::input::read_input;
use crate::limits::limit_of_run;
use crate::loading::read_schedule;
use crate::outcome::Outcome;
use fs_contents::{ReadFault, read_file};
use fs_image::{DiskBytes, MemoryDisk};
use fs_layout::BLKSIZE;
use jos_elf::{Image, parse};
use jos_host::Host;
use jos_sched::Schedule;
use jos_words::{RunWords, WordAt};
use std::alloc::Global;

/// The image that stands at a path on a disk, and the bytes of its file.
fn image_on<'a>(
    alloc: Global,
    disk: &DiskBytes,
    path: WordAt<'a>,
) -> Result<(Image, Vec<u8>), Outcome>
    requires { IsDiskImage (length disk.now.bytes) (slice_index disk.now.bytes) }
    ensures told { Judges (image_on (word_in_bytes path.entry) disk.now) (λ read. record { image = read.0; file = read.1.items }) result }
    ensures read { IfOk result (λ read. parsed read.1.items ≡ Ok read.0) }
    ensures unread { IfErr result IsUnreadOnDisk }
    ensures cause { (faults : ℕ) → IfErr result (HasOutcomeCause (from_to faults faults)) }
{
    let file = match read_file(alloc, disk.bytes(), path.text.as_bytes()) {
        Ok(file) => file,
        Err(ReadFault::NotThere(errno)) => return Err(Outcome::NotThere(errno)),
        Err(ReadFault::NoMemory) => return Err(Outcome::NoMemory),
    };
    match parse(&file) {
        Ok(image) => Ok((image, file)),
        Err(fault) => Err(Outcome::BadImage(path.place, fault)),
    }
}

/// How many blocks a disk says that it has.
fn block_count(disk: &DiskBytes) -> u32
    ensures { result ≡ block_count (slice_index disk.now.bytes) }
{
    let bytes = MemoryDisk::new(disk.bytes());
    let place = BLKSIZE as u64 + 4;
    u32::from_le_bytes([
        bytes.byte(place),
        bytes.byte(place + 1),
        bytes.byte(place + 2),
        bytes.byte(place + 3),
    ])
}

/// A program that stands on a disk.
#[derive(Drop)]
struct OnDisk {
    image: Image,
    /// The bytes that the image was read from.
    file: Vec<u8>,
    /// How many blocks the disk has.
    blocks: u32,
}

/// The program that stands at a path on the disk that a word names.
fn read_program<'a, H: Host>(
    alloc: Global,
    disk: WordAt<'a>,
    path: WordAt<'a>,
    host: &mut H,
) -> Result<OnDisk, Outcome>
    ensures told { (file : FileAt) × IsFileAt (H.files host.old) (word_in_bytes disk.entry) file
        × Judges (program_on (word_in_bytes path.entry) file) (λ read. record { image = read.image; file = read.file.items }) result
        × IfOk result (λ read. read.blocks ≡ blocks_on file) }
    ensures read { IfOk result (λ read. parsed read.file.items ≡ Ok read.image) }
    ensures did { ReadsDisk disk.entry.text.now (result_err result) (outside H.Host host.old host.new) }
{
    let disk = match read_checked(alloc, disk, host) {
        Ok(disk) => disk,
        Err(outcome) => return Err(outcome),
    };
    match image_on(alloc, &disk, path) {
        Ok((image, file)) => Ok(OnDisk {
            image,
            file,
            blocks: block_count(&disk),
        }),
        Err(outcome) => Err(outcome),
    }
}

/// The word that is the program's path on the disk.
fn path_word<'a>(words: &RunWords<'a>) -> WordAt<'a>
    ensures { word_in_bytes result ≡ path_word (run_in_bytes words.now).words }
{
    match words.words.as_slice() {
        [] => WordAt { place: 0, text: "" },
        [word, ..] => *word,
    }
}

/// What the run of a program is given, beside its numbers and its words.
#[derive(Drop)]
pub(crate) struct ReadProgram {
    pub(crate) schedule: Schedule,
    pub(crate) image: Image,
    /// The bytes that the image was read from.
    pub(crate) file: Vec<u8>,
    /// How many blocks the disk has.
    pub(crate) blocks: u32,
    /// The console's input.
    pub(crate) input: Vec<u8>,
}

/// Gathers what the run of a program is given: the schedule, the program and then the input, if its words pass no limit, of
/// which these are the texts.
pub(crate) fn gather_program<'a, H: Host>(
    alloc: Global,
    words: &RunWords<'a>,
    arguments: &[&str],
    host: &mut H,
) -> Result<ReadProgram, Outcome>
    requires { texts arguments.now ≡ texts_of (run_in_bytes words.now) }
    ensures told { (found : RunFound) × (input : List ℕ)
        × IsRunFound (H.files host.old) (run_in_bytes words.now) found × IsInput (H.input host.old) input
        × Judges (gathered_program (run_in_bytes words.now) found input) gathered_program_of result }
    ensures may { IfOk result (λ _. MayRun (run_in_bytes words.now) (texts arguments.now)) }
    ensures read { IfOk result (λ read. parsed read.file.items ≡ Ok read.image) }
    ensures did { GathersProgram (run_in_bytes words.now).schedule (run_in_bytes words.now).disk.text (result_err result)
        (outside H.Host host.old host.new) }
{
    if let Some(which) = limit_of_run(words, arguments) {
        return Err(Outcome::Limit(which));
    }
    let schedule = match read_schedule(alloc, words.schedule, host) {
        Ok(schedule) => schedule,
        Err(outcome) => return Err(outcome),
    };
    let program = match read_program(alloc, words.disk, path_word(words), host) {
        Ok(program) => program,
        Err(outcome) => return Err(outcome),
    };
    match read_input(alloc, host) {
        Ok(input) => Ok(ReadProgram {
            schedule,
            image: program.image,
            file: program.file,
            blocks: program.blocks,
            input,
        }),
        Err(outcome) => Err(outcome),
    }
}

//! The schedule and the images, read from their files, and all that a run of images is given.

ghost use Rattle.std.specs.Prelude.{◌≡◌, ◌≤◌, ◌∷◌, [], ◌++◌, ℕ, Ok, None, List, Option, All, IfOk, IfErr, IfSome, OnOk};
ghost use Rattle.std.specs.Prelude.{length, map, option_map};
ghost use Rattle.std.specs.Result.{result_err};
ghost use Rattle.jos_host.specs.Frames.{from_to};
ghost use Rattle.jos_words.specs.Arguments.{word_in_bytes};
ghost use Rattle.jos_elf.specs.Parsed.{parsed};
ghost use Rattle.jos_base.specs.declared.numbers.TheConstants.{IMAGE_MAX, SCHEDULE_TEXT_MAX};
ghost use Rattle.jos_kernel.specs.Boot.{loadables};
ghost use Rattle.jos_kernel.specs.Loading.{IsRead};
ghost use Rattle.jos_cli.specs.Found.{FileAt, IsFileAt, IsScheduleAt, Found, IsFound, IsInput};
ghost use Rattle.jos_cli.specs.Answer.{text_of, schedule_of, loadable_in, images_of, gathered};
ghost use Rattle.jos_cli.specs.Outcomes.{HasOutcomeCause};
ghost use Rattle.jos_cli.specs.Stages.{AreFilesAt, Judges, schedule_refusal, sources_in, gathered_of, IsOfWords, IsUnread};
ghost use Rattle.jos_cli.specs.FilesAsked.{read_calls, schedule_calls, files_calls, source_calls};
ghost use Rattle.jos_cli.specs.Outside.{outside};
ghost use Rattle.jos_cli.specs.Effects.{ReadsFiles, Gathers};

use crate::files::read_file;
use crate::input::read_input;
use crate::outcome::{Outcome, Which};
use jos_base::{IMAGE_MAX, SCHEDULE_TEXT_MAX};
use jos_elf::{Image, parse};
use jos_host::Host;
use jos_sched::{Schedule, ScheduleFault, parse_schedule};
use jos_words::WordAt;
use std::alloc::{AllocError, Global};

/// The text of the schedule that a word names; with no word, no bytes.
fn read_text<'a, H: Host>(
    alloc: Global,
    word: Option<WordAt<'a>>,
    host: &mut H,
) -> Result<Vec<u8>, Outcome>
    ensures told { (file : Option FileAt) × IsScheduleAt (H.files host.old) (option_map word_in_bytes word.entry) file
        × Judges (text_of file) (λ text. text.items) result }
    ensures small { IfOk result (λ text. length text.items ≤ SCHEDULE_TEXT_MAX) }
    ensures did { ReadsFiles (schedule_calls (option_map word_in_bytes word.entry)) (result_err result) (outside H.Host host.old host.new) }
{
    match word {
        None => Ok(Vec::new(alloc)),
        Some(word) => read_file(alloc, word, SCHEDULE_TEXT_MAX, Which::Schedule, host),
    }
}

/// The answer where a text is no schedule.
fn schedule_refusal(fault: ScheduleFault) -> Outcome
    ensures refusal { result ≡ schedule_refusal fault }
    ensures kind { IsUnread result }
    ensures no_fault { (faults : ℕ) → HasOutcomeCause (from_to faults faults) result }
{
    match fault {
        ScheduleFault::NoMemory => Outcome::NoMemory,
        _ => Outcome::BadSchedule(fault),
    }
}

/// The schedule that a word names; with no word, that of the empty text.
pub(crate) fn read_schedule<'a, H: Host>(
    alloc: Global,
    word: Option<WordAt<'a>>,
    host: &mut H,
) -> Result<Schedule, Outcome>
    ensures told { (file : Option FileAt) × IsScheduleAt (H.files host.old) (option_map word_in_bytes word.entry) file
        × Judges (schedule_of file) (λ schedule. schedule) result }
    ensures did { ReadsFiles (schedule_calls (option_map word_in_bytes word.entry)) (result_err result) (outside H.Host host.old host.new) }
{
    let text = match read_text(alloc, word, host) {
        Ok(text) => text,
        Err(outcome) => return Err(outcome),
    };
    match parse_schedule(alloc, &text) {
        Ok(schedule) => Ok(schedule),
        Err(fault) => Err(schedule_refusal(fault)),
    }
}

/// The image that a word names, and the bytes of its file.
pub(crate) fn read_image<'a, H: Host>(
    alloc: Global,
    word: WordAt<'a>,
    host: &mut H,
) -> Result<(Image, Vec<u8>), Outcome>
    ensures told { (file : FileAt) × IsFileAt (H.files host.old) (word_in_bytes word.entry) file
        × Judges (loadable_in file) (λ read. record { image = read.0; file = read.1.items }) result }
    ensures read { IfOk result (λ read. parsed read.1.items ≡ Ok read.0) }
    ensures small { IfOk result (λ read. length read.1.items ≤ IMAGE_MAX) }
    ensures did { ReadsFiles (read_calls word.entry.text.now) (result_err result) (outside H.Host host.old host.new) }
{
    let file = match read_file(alloc, word, IMAGE_MAX, Which::Image, host) {
        Ok(file) => file,
        Err(outcome) => return Err(outcome),
    };
    match parse(&file) {
        Ok(image) => Ok((image, file)),
        Err(fault) => Err(Outcome::BadImage(word.place, fault)),
    }
}

/// Images, each with its file at the same place.
#[derive(Drop)]
pub(crate) struct Images {
    pub(crate) images: Vec<Image>,
    pub(crate) files: Vec<Vec<u8>>,
}

impl Images {
    fn push(&mut self, image: Image, file: Vec<u8>) -> Result<(), AllocError>
        ensures images { OnOk result (self.new.images.items ≡ self.old.images.items ++ image ∷ []) }
        ensures files { OnOk result (self.new.files.items ≡ self.old.files.items ++ file ∷ []) }
    {
        self.images.push(image)?;
        self.files.push(file)?;
        Ok(())
    }
}

/// The images that words name, each of which is read before the next is looked at.
pub(crate) fn read_images<'a, H: Host>(
    alloc: Global,
    words: &[WordAt<'a>],
    host: &mut H,
) -> Result<Images, Outcome>
    ensures told { (files : List FileAt) × AreFilesAt (H.files host.old) (map word_in_bytes words.now) files
        × Judges (images_of files) (λ read. loadables read.images.items read.files.items) result }
    ensures count { IfOk result (λ read. length read.images.items ≡ length words.now) }
    ensures pairs { IfOk result (λ read. length read.images.items ≡ length read.files.items) }
    ensures read { IfOk result (λ read. All IsRead (loadables read.images.items read.files.items)) }
    ensures did { ReadsFiles (files_calls (map word_in_bytes words.now)) (result_err result) (outside H.Host host.old host.new) }
{
    let mut read = Images {
        images: Vec::new(alloc),
        files: Vec::new(alloc),
    };
    for word in words {
        match read_image(alloc, *word, host) {
            Ok((image, file)) => match read.push(image, file) {
                Ok(()) => {}
                Err(_) => return Err(Outcome::NoMemory),
            },
            Err(outcome) => return Err(outcome),
        }
    }
    Ok(read)
}

/// What a run of images is given, beside its numbers.
#[derive(Drop)]
pub(crate) struct ReadForRun {
    pub(crate) schedule: Schedule,
    pub(crate) images: Images,
    /// The console's input.
    pub(crate) input: Vec<u8>,
}

/// Gathers what a run of images is given: the schedule, the images and then the input, if its words pass no limit.
pub(crate) fn gather<'a, H: Host>(
    alloc: Global,
    passed: Option<Which>,
    schedule: Option<WordAt<'a>>,
    images: &[WordAt<'a>],
    host: &mut H,
) -> Result<ReadForRun, Outcome>
    requires { IfSome passed IsOfWords }
    ensures told { (found : Found) × (input : List ℕ)
        × IsFound (H.files host.old) (sources_in schedule.entry images.now) found × IsInput (H.input host.old) input
        × Judges (gathered passed found input) gathered_of result }
    ensures within { IfOk result (λ _. passed ≡ None) }
    ensures count { IfOk result (λ read. length read.images.images.items ≡ length images.now) }
    ensures pairs { IfOk result (λ read. length read.images.images.items ≡ length read.images.files.items) }
    ensures read { IfOk result (λ read. All IsRead (loadables read.images.images.items read.images.files.items)) }
    ensures did { Gathers (source_calls (sources_in schedule.entry images.now)) (result_err result) (outside H.Host host.old host.new) }
{
    if let Some(which) = passed {
        return Err(Outcome::Limit(which));
    }
    let schedule = match read_schedule(alloc, schedule, host) {
        Ok(schedule) => schedule,
        Err(outcome) => return Err(outcome),
    };
    let images = match read_images(alloc, images, host) {
        Ok(images) => images,
        Err(outcome) => return Err(outcome),
    };
    match read_input(alloc, host) {
        Ok(input) => Ok(ReadForRun {
            schedule,
            images,
            input,
        }),
        Err(outcome) => Err(outcome),
    }
}

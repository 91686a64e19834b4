//! stat: what it asks at each stage, and what it does next.

ghost use Rattle.std.specs.Prelude.{◌≡◌, ◌<◌, ◌^◌, slice_index};
ghost use Rattle.lib_os.specs.FileServices.{terminal_stat};
ghost use Rattle.lib_read.specs.StatStages.{pipe_stat, told};
ghost use Rattle.lib_read.specs.StatStages as stages;

use jos_base::{Called, E_INVAL, E_NOT_SUPP, PGSIZE};
use lib_bytes::{FileService, FileStage, ask_of_file, file_stage_at, next_of_file};
use lib_fd::{ask_entry, ask_region_for, is_there};
use lib_file::{
    ask_device, ask_page_entry, ask_page_region, is_writable, moved_at_once, next_of_entry,
    next_of_region,
};
use lib_os::{
    DEVICE_CONSOLE, DEVICE_FILE, DEVICE_PIPE, PipeStep, SERVICE_STAT, STAT_SIZE, Step, answer_of,
    is_buffer,
};
use lib_pipe::{PipeService, PipeStage, ask_of_pipe, next_of_pipe, pipe_stage_of};
use lib_stage::{Ask, Next, Planned};

/// Where it tells the size, behind a name of 128 bytes.
const SIZE_AT: u32 = 128;

/// How far stat is. `word` is 0 where it tells of the console, and of a pipe how many bytes that holds, and 1.
#[derive(Clone, Copy, Debug, PartialEq, Eq)]
pub enum StatStage {
    /// It is about to read whether descriptors' pages have a table.
    Entered,
    /// It is about to read the entry of the descriptor's page.
    Entry,
    /// It is about to read what the descriptor names.
    Device,
    /// It has put so many bytes, and is about to read whether the region of the next has a table.
    BufferRegion { done: u32, word: u32 },
    /// It is about to read the entry of the next byte's page.
    BufferEntry { done: u32, word: u32 },
    /// It is about to put the next bytes.
    Delivering { done: u32, word: u32 },
    /// The next byte can't be put, and stat is about to raise the fault that ends the environment.
    Faulting { done: u32, word: u32 },
    /// It is at one of the stages that it has in common with read of a file.
    OfFile { at: FileStage },
    /// The descriptor names an end of a pipe, and stat is at one of the stages of that.
    OfPipe { at: PipeStage },
}

/// stat(fd, va), at a stage: `STAT_SIZE` bytes go to `va`, the name with zeros behind it, the size in bytes, and the kind, and it answers 0. It
/// answers `E_INVAL` negated where `fd` is not open, or where the buffer does not lie in the fence, and else the error of which the kernel or
/// the file server tells. (MIT 6.828, lab 5: lib/fd.c, `fstat`, lib/console.c, `devcons_stat`, and lib/file.c, `devfile_stat`)
#[derive(Clone, Copy, Debug, PartialEq, Eq)]
pub struct Stat {
    pub fd: u32,
    pub va: u32,
    pub at: StatStage,
}

impl Stat {
    /// stat at a step, if it has this step.
    pub fn at_step(fd: u32, va: u32, step: Step) -> Option<Stat>
        ensures { result ≡ stages.stat_at fd va step }
    {
        let at = match step {
            Step::Entered => StatStage::Entered,
            Step::DescriptorEntry { .. } => StatStage::Entry,
            Step::ReadingDevice => StatStage::Device,
            Step::BufferRegion { done, word } => StatStage::BufferRegion { done, word },
            Step::BufferEntry { done, word } => StatStage::BufferEntry { done, word },
            Step::Delivering { done, word } => StatStage::Delivering { done, word },
            Step::Faulting { done, word } => StatStage::Faulting { done, word },
            Step::Piped { at } => match pipe_stage_of(at) {
                Some(at) => StatStage::OfPipe { at },
                None => return None,
            },
            _ => match file_stage_at(step) {
                Some(at) => StatStage::OfFile { at },
                None => return None,
            },
        };
        Some(Stat { fd, va, at })
    }
}

/// A byte of what stat tells of the console: its name, and zeros behind it.
fn terminal_byte(at: u32) -> u8
    ensures { result ≡ slice_index terminal_stat at }
{
    let name = *b"<cons>";
    if at < 6 { name[at as usize] } else { 0 }
}

/// A byte of what stat tells of a pipe that holds so many: its name and zeros behind it, the number, and a kind of 0.
fn pipe_byte(held: u32, at: u32) -> u8
    ensures { result ≡ slice_index (pipe_stat held) at }
{
    let name = *b"<pipe>";
    let size = held.to_le_bytes();
    if at < 6 {
        name[at as usize]
    } else if at < SIZE_AT {
        0
    } else if at < SIZE_AT + 4 {
        size[(at - SIZE_AT) as usize]
    } else {
        0
    }
}

/// A byte of what it tells by this word.
fn told_byte(word: u32, at: u32) -> u8
    ensures { result ≡ slice_index (told word) at }
{
    if word == 0 {
        terminal_byte(at)
    } else {
        pipe_byte(word - 1, at)
    }
}

/// The word of this that begins with a byte.
fn told_word(word: u32, at: u32) -> u32
    ensures { result ≡ stages.told_word word at }
{
    u32::from_le_bytes([
        told_byte(word, at),
        told_byte(word, at.wrapping_add(1)),
        told_byte(word, at.wrapping_add(2)),
        told_byte(word, at.wrapping_add(3)),
    ])
}

/// What stat asks to put the next bytes.
fn ask_delivery(va: u32, done: u32, word: u32) -> Ask
    ensures { result ≡ stages.delivery_asked va done word }
{
    let at = va.wrapping_add(done);
    if moved_at_once(at, STAT_SIZE.saturating_sub(done)) == 4 {
        Ask::Store {
            va: at,
            word: told_word(word, done),
        }
    } else {
        Ask::StoreByte {
            va: at,
            byte: told_byte(word, done),
        }
    }
}

/// What stat does next when it has put them.
fn next_of_delivery(va: u32, done: u32, word: u32) -> Next
    ensures { result ≡ stages.next_of_delivery va done word }
{
    let moved = moved_at_once(va.wrapping_add(done), STAT_SIZE.saturating_sub(done));
    let done = done.wrapping_add(moved);
    if done >= STAT_SIZE {
        return Next::Answer(0);
    }
    if va.wrapping_add(done) % PGSIZE == 0 {
        return Next::Show(Step::BufferRegion { done, word });
    }
    Next::Show(Step::Delivering { done, word })
}

/// What stat does next when its descriptor names a file.
fn next_of_described(va: u32) -> Next
    ensures { result ≡ stages.next_of_file va }
{
    if !is_buffer(va, STAT_SIZE) {
        return Next::Answer(E_INVAL.wrapping_neg());
    }
    Next::GoOn(Step::TakingPage)
}

/// What stat does next by the word that tells what its descriptor names.
fn next_of_device(va: u32, device: u32) -> Next
    ensures { result ≡ stages.next_of_device va device }
{
    if device == DEVICE_FILE {
        return next_of_described(va);
    }
    if device != DEVICE_CONSOLE && device != DEVICE_PIPE {
        return Next::Answer(E_NOT_SUPP.wrapping_neg());
    }
    if !is_buffer(va, STAT_SIZE) {
        return Next::Answer(E_INVAL.wrapping_neg());
    }
    if device == DEVICE_PIPE {
        return Next::GoOn(Step::Piped {
            at: PipeStep::StatLocking,
        });
    }
    Next::Show(Step::BufferRegion { done: 0, word: 0 })
}

impl Planned for Stat {
    ghost use Rattle.lib_read.specs.StatStages.{telling};

    ghost plan = { telling };

    fn number(&self) -> u32 {
        SERVICE_STAT
    }

    fn ask(&self) -> Ask {
        match self.at {
            StatStage::Entered => ask_region_for(self.fd),
            StatStage::Entry => ask_entry(self.fd),
            StatStage::Device => ask_device(self.fd),
            StatStage::BufferRegion { done, word: _ } => ask_page_region(
                self.va.wrapping_add(done),
            ),
            StatStage::BufferEntry { done, word: _ } => ask_page_entry(self.va.wrapping_add(done)),
            StatStage::Delivering { done, word } => ask_delivery(self.va, done, word),
            StatStage::Faulting { done, word: _ } => Ask::StoreByte {
                va: self.va.wrapping_add(done),
                byte: 0,
            },
            StatStage::OfFile { at } => ask_of_file(FileService::Stat, self.fd, self.va, at),
            StatStage::OfPipe { at } => ask_of_pipe(PipeService::Stat, self.fd, at),
        }
    }

    fn next(&self, called: Called) -> Next {
        let word = answer_of(called);
        match self.at {
            StatStage::Entered => next_of_region(self.fd, word),
            StatStage::Entry => next_of_entry(word),
            StatStage::Device => next_of_device(self.va, word),
            StatStage::BufferRegion { done, word: told } => {
                if !is_there(word) {
                    return Next::GoOn(Step::Faulting { done, word: told });
                }
                Next::GoOn(Step::BufferEntry { done, word: told })
            }
            StatStage::BufferEntry { done, word: told } => {
                if !is_writable(word) {
                    return Next::GoOn(Step::Faulting { done, word: told });
                }
                Next::GoOn(Step::Delivering { done, word: told })
            }
            StatStage::Delivering { done, word: told } => next_of_delivery(self.va, done, told),
            StatStage::Faulting { .. } => Next::Gone,
            StatStage::OfFile { at } => next_of_file(FileService::Stat, self.va, at, word),
            StatStage::OfPipe { at } => next_of_pipe(PipeService::Stat, self.va, at, word),
        }
    }
}

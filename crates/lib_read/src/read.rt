//! read: what it asks at each stage, and what it does next.

ghost use Rattle.std.specs.Prelude.{◌≡◌};
ghost use Rattle.lib_read.specs.ReadStages as stages;

use jos_base::{Called, E_INVAL, E_NOT_SUPP, END_OF_INPUT, SYS_CGETC};
use lib_bytes::{FileService, FileStage, ask_of_file, file_stage_at, next_of_file};
use lib_fd::{ask_entry, ask_region_for, descriptor_va, is_there};
use lib_file::{
    ask_device, ask_page_entry, ask_page_region, is_writable, next_of_entry, next_of_region,
};
use lib_os::{
    DEVICE_CONSOLE, DEVICE_FILE, DEVICE_PIPE, FD_MODE, PipeStep, SERVICE_READ, Step, TRANSFER_MAX,
    answer_of, is_buffer,
};
use lib_pipe::{PipeService, PipeStage, ask_of_pipe, next_of_pipe, pipe_stage_of};
use lib_stage::{Ask, Next, Planned};

/// How far read is.
#[derive(Clone, Copy, Debug, PartialEq, Eq)]
pub enum ReadStage {
    /// It is about to read whether descriptors' pages have a table.
    Entered,
    /// It is about to read the entry of the descriptor's page.
    Entry,
    /// It is about to read what the descriptor names.
    Device,
    /// It is about to take a byte of the console.
    Getting,
    /// It is about to read whether the region of its buffer has a table. It has taken this byte, and put none.
    BufferRegion { done: u32, byte: u32 },
    /// It is about to read the entry of its buffer's page.
    BufferEntry { done: u32, byte: u32 },
    /// It is about to put the byte.
    Delivering { done: u32, byte: u32 },
    /// It can't be put, and read is about to raise the fault that ends the environment.
    Faulting { done: u32, byte: u32 },
    /// The descriptor names a file, and read is about to read the mode of that.
    ReadingMode,
    /// It is at one of the stages that it has in common with stat of a file. So are the bytes of a pipe delivered, too.
    OfFile { at: FileStage },
    /// The descriptor names an end of a pipe, and read is at one of the stages of that.
    OfPipe { at: PipeStage },
}

/// read(fd, va, len), at a stage: at most `len` bytes, and at most `TRANSFER_MAX`, go to `va`, and it answers how many. Of the console they are
/// one, or none at the end of the input; of a file they are those from its offset on, none at its end; of a pipe those that it holds, and at least
/// one, or none where its writing end is closed. It answers `E_INVAL` negated where `fd` is
/// not open, or is open only for writing, or where the buffer does not lie in the fence, and else the error of which the kernel or the file server
/// tells. (MIT 6.828, lab 5: lib/fd.c, `read`, lib/console.c, `devcons_read`, and lib/file.c, `devfile_read`)
#[derive(Clone, Copy, Debug, PartialEq, Eq)]
pub struct Read {
    pub fd: u32,
    pub va: u32,
    pub len: u32,
    pub at: ReadStage,
}

impl Read {
    /// read at a step, if it has this step.
    pub fn at_step(fd: u32, va: u32, len: u32, step: Step) -> Option<Read>
        ensures { result ≡ stages.read_at fd va len step }
    {
        let at = match step {
            Step::Entered => ReadStage::Entered,
            Step::DescriptorEntry { .. } => ReadStage::Entry,
            Step::ReadingDevice => ReadStage::Device,
            Step::Getting => ReadStage::Getting,
            Step::BufferRegion { done, word } => ReadStage::BufferRegion { done, byte: word },
            Step::BufferEntry { done, word } => ReadStage::BufferEntry { done, byte: word },
            Step::Delivering { done, word } => ReadStage::Delivering { done, byte: word },
            Step::Faulting { done, word } => ReadStage::Faulting { done, byte: word },
            Step::ReadingMode => ReadStage::ReadingMode,
            Step::Piped { at } => match pipe_stage_of(at) {
                Some(at) => ReadStage::OfPipe { at },
                None => return None,
            },
            _ => match file_stage_at(step) {
                Some(at) => ReadStage::OfFile { at },
                None => return None,
            },
        };
        Some(Read { fd, va, len, at })
    }
}

/// Whether its buffer lies in the fence, as far as bytes may come there.
fn has_room(va: u32, len: u32) -> bool
    ensures { result ≡ stages.has_room va len }
{
    is_buffer(va, len.min(TRANSFER_MAX))
}

/// What read does next by the word that tells what its descriptor names.
fn next_of_device(va: u32, len: u32, device: u32) -> Next
    ensures { result ≡ stages.next_of_device va len device }
{
    if device == DEVICE_FILE {
        return Next::GoOn(Step::ReadingMode);
    }
    if device == DEVICE_PIPE {
        return Next::GoOn(Step::Piped {
            at: PipeStep::EndMode,
        });
    }
    if device != DEVICE_CONSOLE {
        return Next::Answer(E_NOT_SUPP.wrapping_neg());
    }
    if !has_room(va, len) {
        return Next::Answer(E_INVAL.wrapping_neg());
    }
    if len == 0 {
        return Next::Answer(0);
    }
    Next::GoOn(Step::Getting)
}

/// What read does next by the mode of its file.
fn next_of_mode(va: u32, len: u32, mode: u32) -> Next
    ensures { result ≡ stages.next_of_mode va len mode }
{
    if mode == 1 {
        return Next::Answer(E_INVAL.wrapping_neg());
    }
    if !has_room(va, len) {
        return Next::Answer(E_INVAL.wrapping_neg());
    }
    Next::GoOn(Step::TakingPage)
}

impl Planned for Read {
    ghost use Rattle.lib_read.specs.ReadStages.{reading};

    ghost plan = { reading };

    fn number(&self) -> u32 {
        SERVICE_READ
    }

    fn ask(&self) -> Ask {
        match self.at {
            ReadStage::Entered => ask_region_for(self.fd),
            ReadStage::Entry => ask_entry(self.fd),
            ReadStage::Device => ask_device(self.fd),
            ReadStage::Getting => Ask::System {
                number: SYS_CGETC,
                args: [0; 5],
            },
            ReadStage::BufferRegion { done, .. } => ask_page_region(self.va.wrapping_add(done)),
            ReadStage::BufferEntry { done, .. } => ask_page_entry(self.va.wrapping_add(done)),
            ReadStage::Delivering { done, byte } | ReadStage::Faulting { done, byte } => {
                Ask::StoreByte {
                    va: self.va.wrapping_add(done),
                    byte: (byte % 256) as u8,
                }
            }
            ReadStage::ReadingMode => Ask::Load {
                va: descriptor_va(self.fd) + FD_MODE,
            },
            ReadStage::OfFile { at } => {
                ask_of_file(FileService::Read { len: self.len }, self.fd, self.va, at)
            }
            ReadStage::OfPipe { at } => ask_of_pipe(
                PipeService::Read { len: self.len },
                self.fd,
                at,
            ),
        }
    }

    fn next(&self, called: Called) -> Next {
        let word = answer_of(called);
        match self.at {
            ReadStage::Entered => next_of_region(self.fd, word),
            ReadStage::Entry => next_of_entry(word),
            ReadStage::Device => next_of_device(self.va, self.len, word),
            ReadStage::Getting => {
                if word == END_OF_INPUT {
                    return Next::Answer(0);
                }
                Next::Show(Step::BufferRegion { done: 0, word })
            }
            ReadStage::BufferRegion { done, byte } => {
                if !is_there(word) {
                    return Next::GoOn(Step::Faulting { done, word: byte });
                }
                Next::GoOn(Step::BufferEntry { done, word: byte })
            }
            ReadStage::BufferEntry { done, byte } => {
                if !is_writable(word) {
                    return Next::GoOn(Step::Faulting { done, word: byte });
                }
                Next::GoOn(Step::Delivering { done, word: byte })
            }
            ReadStage::Delivering { .. } => Next::Answer(1),
            ReadStage::Faulting { .. } => Next::Gone,
            ReadStage::ReadingMode => next_of_mode(self.va, self.len, word),
            ReadStage::OfFile { at } => {
                next_of_file(FileService::Read { len: self.len }, self.va, at, word)
            }
            ReadStage::OfPipe { at } => {
                next_of_pipe(PipeService::Read { len: self.len }, self.va, at, word)
            }
        }
    }
}

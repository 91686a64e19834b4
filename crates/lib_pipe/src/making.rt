//! pipe: what it asks at each stage, and what it does next.

ghost use Rattle.std.specs.Prelude.{◌≡◌};
ghost use Rattle.lib_pipe.specs.MakingStages as stages;

use jos_base::{Called, E_MAX_OPEN, SYS_PAGE_ALLOC};
use lib_fd::{
    DESCRIPTOR_PERM, ask_drop_at, ask_entry, ask_map_at, ask_region_for, descriptor_va, is_there,
    pipe_va,
};
use lib_os::{
    DESCRIPTORS, DEVICE_PIPE, FD_DEVICE, FD_MODE, PipeStep, SERVICE_PIPE, Step, answer_of,
};
use lib_stage::{Ask, Next, Planned};

/// The last descriptor.
const LAST: u32 = DESCRIPTORS as u32 - 1;

/// How far pipe is. `reading` and `writing` are the two lowest descriptors that are free, for the reading end and the writing end.
#[derive(Clone, Copy, Debug, PartialEq, Eq)]
pub enum MakingStage {
    /// It is about to read whether descriptors' pages have a table.
    Entered,
    /// It is about to read the entry of this descriptor's page.
    FirstEntry {
        fd: u32,
    },
    /// It has found the first, and is about to read the entry of this descriptor's page.
    SecondEntry {
        reading: u32,
        fd: u32,
    },
    /// It is about to take the page of the first.
    TakingReading {
        reading: u32,
        writing: u32,
    },
    /// It is about to put there that a pipe is named; the mode is that of the reading end.
    StoringReading {
        reading: u32,
        writing: u32,
    },
    /// It is about to take the page of the second.
    TakingWriting {
        reading: u32,
        writing: u32,
    },
    /// It is about to put there that a pipe is named.
    StoringWriting {
        reading: u32,
        writing: u32,
    },
    /// It is about to put there that it is for writing.
    StoringEndMode {
        reading: u32,
        writing: u32,
    },
    /// It is about to take the pipe's page, as the first has it.
    TakingPipe {
        reading: u32,
        writing: u32,
    },
    /// It is about to map that as the second has it.
    MappingPipe {
        reading: u32,
        writing: u32,
    },
    /// It was refused something with this answer, and is about to give the page of the second back.
    UndoingWriting {
        reading: u32,
        writing: u32,
        error: u32,
    },
    /// It is about to give that of the first back.
    UndoingReading {
        reading: u32,
        error: u32,
    },
}

/// pipe(), at a stage: it answers 0, in EDX the reading end and in ECX the writing end of a pipe that holds nothing. It answers `E_MAX_OPEN` negated
/// where not two descriptors are free, and else the error of which the kernel tells. (MIT 6.828, lab 5: lib/pipe.c, `pipe`)
#[derive(Clone, Copy, Debug, PartialEq, Eq)]
pub struct Pipe {
    pub at: MakingStage,
}

/// The stage that is kept as a step of pipes, if it is one of pipe's.
fn making_stage(at: PipeStep) -> Option<MakingStage>
    ensures { result ≡ stages.making_stage at }
{
    let at = match at {
        PipeStep::SecondEntry { reading, fd } => MakingStage::SecondEntry { reading, fd },
        PipeStep::TakingReading { reading, writing } => MakingStage::TakingReading {
            reading,
            writing,
        },
        PipeStep::StoringReading { reading, writing } => MakingStage::StoringReading {
            reading,
            writing,
        },
        PipeStep::TakingWriting { reading, writing } => MakingStage::TakingWriting {
            reading,
            writing,
        },
        PipeStep::StoringWriting { reading, writing } => MakingStage::StoringWriting {
            reading,
            writing,
        },
        PipeStep::StoringEndMode { reading, writing } => MakingStage::StoringEndMode {
            reading,
            writing,
        },
        PipeStep::TakingPipe { reading, writing } => MakingStage::TakingPipe { reading, writing },
        PipeStep::MappingPipe { reading, writing } => MakingStage::MappingPipe { reading, writing },
        PipeStep::UndoingWriting {
            reading,
            writing,
            error,
        } => MakingStage::UndoingWriting {
            reading,
            writing,
            error,
        },
        PipeStep::UndoingReading { reading, error } => MakingStage::UndoingReading {
            reading,
            error,
        },
        _ => return None,
    };
    Some(at)
}

impl Pipe {
    /// pipe at a step, if it has this step.
    pub fn at_step(step: Step) -> Option<Pipe>
        ensures { result ≡ stages.pipe_at step }
    {
        let at = match step {
            Step::Entered => MakingStage::Entered,
            Step::FreeEntry { fd } => MakingStage::FirstEntry { fd },
            Step::Piped { at } => match making_stage(at) {
                Some(at) => at,
                None => return None,
            },
            _ => return None,
        };
        Some(Pipe { at })
    }
}

/// What is asked to take a page of zeros at an address, as those of descriptors and of pipes are.
fn ask_taking(va: u32) -> Ask
    ensures { result ≡ stages.taking_asked va }
{
    Ask::System {
        number: SYS_PAGE_ALLOC,
        args: [0, va, DESCRIPTOR_PERM, 0, 0],
    }
}

/// What is done next by whether a page stands at the first descriptor that may be free.
fn next_of_first(fd: u32, word: u32) -> Next
    ensures { result ≡ stages.next_of_first fd word }
{
    if fd >= LAST {
        return Next::Answer(E_MAX_OPEN.wrapping_neg());
    }
    if is_there(word) {
        return Next::GoOn(Step::FreeEntry { fd: fd + 1 });
    }
    Next::GoOn(Step::Piped {
        at: PipeStep::SecondEntry {
            reading: fd,
            fd: fd + 1,
        },
    })
}

/// What is done next by whether one stands at the second.
fn next_of_second(reading: u32, fd: u32, word: u32) -> Next
    ensures { result ≡ stages.next_of_second reading fd word }
{
    if !is_there(word) {
        return Next::GoOn(Step::Piped {
            at: PipeStep::TakingReading {
                reading,
                writing: fd,
            },
        });
    }
    if fd >= LAST {
        return Next::Answer(E_MAX_OPEN.wrapping_neg());
    }
    Next::GoOn(Step::Piped {
        at: PipeStep::SecondEntry {
            reading,
            fd: fd + 1,
        },
    })
}

/// What is done next by what was answered where a page was taken: what was made is undone where it was refused.
fn next_of_taking(word: u32, taken: PipeStep, refused: PipeStep) -> Next
    ensures { result ≡ stages.next_of_taking word taken refused }
{
    if word != 0 {
        return Next::GoOn(Step::Piped { at: refused });
    }
    Next::GoOn(Step::Piped { at: taken })
}

impl Planned for Pipe {
    ghost use Rattle.lib_pipe.specs.MakingStages.{making};

    ghost plan = { making };

    fn number(&self) -> u32 {
        SERVICE_PIPE
    }

    fn ask(&self) -> Ask {
        match self.at {
            MakingStage::Entered => ask_region_for(0),
            MakingStage::FirstEntry { fd } | MakingStage::SecondEntry { reading: _, fd } =>
                ask_entry(fd),
            MakingStage::TakingReading {
                reading,
                writing: _,
            } => ask_taking(descriptor_va(reading)),
            MakingStage::StoringReading {
                reading,
                writing: _,
            } => Ask::Store {
                va: descriptor_va(reading) + FD_DEVICE,
                word: DEVICE_PIPE,
            },
            MakingStage::TakingWriting {
                reading: _,
                writing,
            } => ask_taking(descriptor_va(writing)),
            MakingStage::StoringWriting {
                reading: _,
                writing,
            } => Ask::Store {
                va: descriptor_va(writing) + FD_DEVICE,
                word: DEVICE_PIPE,
            },
            MakingStage::StoringEndMode {
                reading: _,
                writing,
            } => Ask::Store {
                va: descriptor_va(writing) + FD_MODE,
                word: 1,
            },
            MakingStage::TakingPipe {
                reading,
                writing: _,
            } => ask_taking(pipe_va(reading)),
            MakingStage::MappingPipe { reading, writing } => {
                ask_map_at(pipe_va(reading), pipe_va(writing))
            }
            MakingStage::UndoingWriting {
                reading: _,
                writing,
                error: _,
            } => { ask_drop_at(descriptor_va(writing)) }
            MakingStage::UndoingReading { reading, error: _ } => ask_drop_at(descriptor_va(
                reading,
            )),
        }
    }

    fn next(&self, called: Called) -> Next {
        let word = answer_of(called);
        match self.at {
            MakingStage::Entered => {
                if !is_there(word) {
                    return Next::GoOn(Step::Piped {
                        at: PipeStep::TakingReading {
                            reading: 0,
                            writing: 1,
                        },
                    });
                }
                Next::GoOn(Step::FreeEntry { fd: 0 })
            }
            MakingStage::FirstEntry { fd } => next_of_first(fd, word),
            MakingStage::SecondEntry { reading, fd } => next_of_second(reading, fd, word),
            MakingStage::TakingReading { reading, writing } => {
                if word != 0 {
                    return Next::Answer(word);
                }
                Next::GoOn(Step::Piped {
                    at: PipeStep::StoringReading { reading, writing },
                })
            }
            MakingStage::StoringReading { reading, writing } => Next::GoOn(Step::Piped {
                at: PipeStep::TakingWriting { reading, writing },
            }),
            MakingStage::TakingWriting { reading, writing } => next_of_taking(
                word,
                PipeStep::StoringWriting { reading, writing },
                PipeStep::UndoingReading {
                    reading,
                    error: word,
                },
            ),
            MakingStage::StoringWriting { reading, writing } => Next::GoOn(Step::Piped {
                at: PipeStep::StoringEndMode { reading, writing },
            }),
            MakingStage::StoringEndMode { reading, writing } => Next::GoOn(Step::Piped {
                at: PipeStep::TakingPipe { reading, writing },
            }),
            MakingStage::TakingPipe { reading, writing } => next_of_taking(
                word,
                PipeStep::MappingPipe { reading, writing },
                PipeStep::UndoingWriting {
                    reading,
                    writing,
                    error: word,
                },
            ),
            MakingStage::MappingPipe { reading, writing } => Next::AnswersEnds { reading, writing },
            MakingStage::UndoingWriting {
                reading,
                writing: _,
                error,
            } => Next::GoOn(Step::Piped {
                at: PipeStep::UndoingReading { reading, error },
            }),
            MakingStage::UndoingReading { reading: _, error } => Next::Answer(error),
        }
    }
}

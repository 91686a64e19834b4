//! close: what it asks at each stage, and what it does next.

ghost use Rattle.std.specs.Prelude.{◌≡◌};
ghost use Rattle.lib_fd.specs.DescriptorStages as stages;

use crate::pages::{
    DESCRIPTORS, ask_drop, ask_drop_at, ask_entry, ask_pipe_entry, ask_region_for, is_there,
    pipe_va,
};
use jos_base::{Called, E_INVAL};
use lib_os::{PipeStep, SERVICE_CLOSE, Step, answer_of};
use lib_stage::{Ask, Next, Planned};

/// How far close is.
#[derive(Clone, Copy, Debug, PartialEq, Eq)]
pub enum CloseStage {
    /// It is about to read whether descriptors' pages have a table.
    Entered,
    /// It is about to read the entry of the descriptor's page.
    Entry,
    /// The descriptor is open, and it is about to read whether it has a pipe's page.
    PipeEntry,
    /// It has none, and close is about to drop the descriptor.
    Dropping,
    /// It has one, and close is about to drop the descriptor's page.
    DroppingEnd,
    /// It is about to drop the pipe's page.
    DroppingPipe,
}

/// close(fd), at a stage.
#[derive(Clone, Copy, Debug, PartialEq, Eq)]
pub struct Close {
    pub fd: u32,
    pub at: CloseStage,
}

impl Close {
    /// close at a step, if it has this step.
    pub fn at_step(fd: u32, step: Step) -> Option<Close>
        ensures { result ≡ stages.close_at fd step }
    {
        let at = match step {
            Step::Entered => CloseStage::Entered,
            Step::DescriptorEntry { .. } => CloseStage::Entry,
            Step::DroppingDescriptor { .. } => CloseStage::Dropping,
            Step::Piped {
                at: PipeStep::PipeEntry { .. },
            } => CloseStage::PipeEntry,
            Step::Piped {
                at: PipeStep::DroppingEnd { .. },
            } => CloseStage::DroppingEnd,
            Step::Piped {
                at: PipeStep::DroppingPipe { .. },
            } => CloseStage::DroppingPipe,
            _ => return None,
        };
        Some(Close { fd, at })
    }
}

/// Where exit, close and dup go on to drop a descriptor, by whether it has a pipe's page.
pub(crate) fn dropping(fd: u32, word: u32) -> Step
    ensures { result ≡ stages.dropping fd word }
{
    if is_there(word) {
        return Step::Piped {
            at: PipeStep::DroppingEnd { fd },
        };
    }
    Step::DroppingDescriptor { fd }
}

impl Planned for Close {
    ghost use Rattle.lib_fd.specs.DescriptorStages.{closing};

    ghost plan = { closing };

    fn number(&self) -> u32 {
        SERVICE_CLOSE
    }

    fn ask(&self) -> Ask {
        match self.at {
            CloseStage::Entered => ask_region_for(self.fd),
            CloseStage::Entry => ask_entry(self.fd),
            CloseStage::PipeEntry => ask_pipe_entry(self.fd),
            CloseStage::Dropping | CloseStage::DroppingEnd => ask_drop(self.fd),
            CloseStage::DroppingPipe => ask_drop_at(pipe_va(self.fd)),
        }
    }

    fn next(&self, called: Called) -> Next {
        let word = answer_of(called);
        match self.at {
            CloseStage::Entered => {
                if self.fd >= DESCRIPTORS || !is_there(word) {
                    return Next::Answer(E_INVAL.wrapping_neg());
                }
                Next::GoOn(Step::DescriptorEntry { fd: self.fd })
            }
            CloseStage::Entry => {
                if !is_there(word) {
                    return Next::Answer(E_INVAL.wrapping_neg());
                }
                Next::GoOn(Step::Piped {
                    at: PipeStep::PipeEntry { fd: self.fd },
                })
            }
            CloseStage::PipeEntry => Next::GoOn(dropping(self.fd, word)),
            CloseStage::DroppingEnd => Next::GoOn(Step::Piped {
                at: PipeStep::DroppingPipe { fd: self.fd },
            }),
            CloseStage::Dropping | CloseStage::DroppingPipe => Next::Answer(0),
        }
    }
}

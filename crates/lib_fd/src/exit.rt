//! exit: what it asks at each stage, and what it does next.

ghost use Rattle.std.specs.Prelude.{◌≡◌};
ghost use Rattle.lib_fd.specs.DescriptorStages as stages;

use crate::close::dropping;
use crate::pages::{
    DESCRIPTORS, ask_drop, ask_drop_at, ask_entry, ask_pipe_entry, ask_region, descriptor_of,
    is_there, pipe_va,
};
use jos_base::{Called, SYS_ENV_DESTROY};
use lib_os::{PipeStep, SERVICE_EXIT, Step, answer_of};
use lib_stage::{Ask, Next, Planned};

/// How far exit is.
#[derive(Clone, Copy, Debug, PartialEq, Eq)]
pub enum ExitStage {
    /// It is about to read whether descriptors' pages have a table.
    Entered,
    /// It is about to read the entry of this descriptor's page.
    Entry { fd: u32 },
    /// This descriptor is open, and it is about to read whether it has a pipe's page.
    PipeEntry { fd: u32 },
    /// It has none, and exit is about to drop this descriptor.
    Dropping { fd: u32 },
    /// It has one, and exit is about to drop this descriptor's page.
    DroppingEnd { fd: u32 },
    /// It is about to drop the pipe's page that this descriptor has.
    DroppingPipe { fd: u32 },
    /// No descriptor is open, and it is about to end the environment.
    Ending,
}

/// exit(), at a stage.
#[derive(Clone, Copy, Debug, PartialEq, Eq)]
pub struct Exit {
    pub at: ExitStage,
}

impl Exit {
    /// exit at a step, if it has this step.
    pub fn at_step(step: Step) -> Option<Exit>
        ensures { result ≡ stages.exit_at step }
    {
        let at = match step {
            Step::Entered => ExitStage::Entered,
            Step::DescriptorEntry { fd } => ExitStage::Entry { fd },
            Step::DroppingDescriptor { fd } => ExitStage::Dropping { fd },
            Step::Piped {
                at: PipeStep::PipeEntry { fd },
            } => ExitStage::PipeEntry { fd },
            Step::Piped {
                at: PipeStep::DroppingEnd { fd },
            } => ExitStage::DroppingEnd { fd },
            Step::Piped {
                at: PipeStep::DroppingPipe { fd },
            } => ExitStage::DroppingPipe { fd },
            Step::Ending => ExitStage::Ending,
            _ => return None,
        };
        Some(Exit { at })
    }
}

/// Where exit goes on behind a descriptor.
fn behind(fd: u32) -> Step
    ensures { result ≡ stages.behind fd }
{
    let next = descriptor_of(fd) + 1;
    if next < DESCRIPTORS {
        Step::DescriptorEntry { fd: next }
    } else {
        Step::Ending
    }
}

impl Planned for Exit {
    ghost use Rattle.lib_fd.specs.DescriptorStages.{exiting};

    ghost plan = { exiting };

    fn number(&self) -> u32 {
        SERVICE_EXIT
    }

    fn ask(&self) -> Ask {
        match self.at {
            ExitStage::Entered => ask_region(),
            ExitStage::Entry { fd } => ask_entry(fd),
            ExitStage::PipeEntry { fd } => ask_pipe_entry(fd),
            ExitStage::Dropping { fd } | ExitStage::DroppingEnd { fd } => ask_drop(fd),
            ExitStage::DroppingPipe { fd } => ask_drop_at(pipe_va(fd)),
            ExitStage::Ending => Ask::System {
                number: SYS_ENV_DESTROY,
                args: [0; 5],
            },
        }
    }

    fn next(&self, called: Called) -> Next {
        let word = answer_of(called);
        match self.at {
            ExitStage::Entered => {
                if !is_there(word) {
                    return Next::GoOn(Step::Ending);
                }
                Next::GoOn(Step::DescriptorEntry { fd: 0 })
            }
            ExitStage::Entry { fd } => {
                if !is_there(word) {
                    return Next::GoOn(behind(fd));
                }
                Next::GoOn(Step::Piped {
                    at: PipeStep::PipeEntry { fd },
                })
            }
            ExitStage::PipeEntry { fd } => Next::GoOn(dropping(fd, word)),
            ExitStage::DroppingEnd { fd } => Next::GoOn(Step::Piped {
                at: PipeStep::DroppingPipe { fd },
            }),
            ExitStage::Dropping { fd } | ExitStage::DroppingPipe { fd } => Next::Show(behind(fd)),
            ExitStage::Ending => Next::Gone,
        }
    }
}

//! wait: what it asks at each stage, and what it does next.

ghost use Rattle.std.specs.Prelude.{◌≡◌};
ghost use Rattle.lib_spawn.specs.WaitStages.{wait_at};

use jos_base::{Called, E_BAD_ENV, E_INVAL, SYS_GETENVID, SYS_IPC_TRY_SEND, SYS_YIELD};
use lib_os::{SERVICE_WAIT, Step, answer_of};
use lib_stage::{Ask, Next, Planned};

/// An address that is none of a page, so that what is sent from there is never taken.
const NO_PAGE: u32 = 1;

/// How far wait is.
#[derive(Clone, Copy, Debug, PartialEq, Eq)]
pub enum WaitStage {
    /// Nothing is done yet.
    Entered,
    /// It is about to try.
    Trying { perm: u32 },
    /// It has tried in vain, and is about to give up its turn.
    Pausing { perm: u32 },
}

/// wait(id), at a stage.
#[derive(Clone, Copy, Debug, PartialEq, Eq)]
pub struct Wait {
    pub id: u32,
    pub at: WaitStage,
}

impl Wait {
    /// wait at a step, if it has this step.
    pub fn at_step(id: u32, step: Step) -> Option<Wait>
        ensures { result ≡ wait_at id step }
    {
        let at = match step {
            Step::Entered => WaitStage::Entered,
            Step::Trying { perm } => WaitStage::Trying { perm },
            Step::Pausing { perm } => WaitStage::Pausing { perm },
            _ => return None,
        };
        Some(Wait { id, at })
    }
}

impl Planned for Wait {
    ghost use Rattle.lib_spawn.specs.WaitStages.{waiting};

    ghost plan = { waiting };

    fn number(&self) -> u32 {
        SERVICE_WAIT
    }

    fn ask(&self) -> Ask {
        match self.at {
            WaitStage::Entered => Ask::System {
                number: SYS_GETENVID,
                args: [0; 5],
            },
            // what is sent to the other is refused for its sake alone where it is not there
            WaitStage::Trying { perm: _ } => Ask::System {
                number: SYS_IPC_TRY_SEND,
                args: [self.id, 0, NO_PAGE, 0, 0],
            },
            WaitStage::Pausing { perm: _ } => Ask::System {
                number: SYS_YIELD,
                args: [0; 5],
            },
        }
    }

    fn next(&self, called: Called) -> Next {
        let word = answer_of(called);
        match self.at {
            WaitStage::Entered => {
                if self.id == 0 || self.id == word {
                    return Next::Answer(E_INVAL.wrapping_neg());
                }
                Next::GoOn(Step::Trying { perm: 0 })
            }
            WaitStage::Trying { perm } => {
                if word == E_BAD_ENV.wrapping_neg() {
                    return Next::Answer(0);
                }
                Next::Wait(Step::Pausing { perm })
            }
            WaitStage::Pausing { perm } => Next::GoOn(Step::Trying { perm }),
        }
    }
}

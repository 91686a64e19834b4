//! sync: what it asks at each stage, and what it does next.

ghost use Rattle.std.specs.Prelude.{◌≡◌};
ghost use Rattle.lib_request.specs.SyncStages.{sync_at};

use crate::reply::reply_place;
use jos_base::{
    Called, E_IPC_NOT_RECV, FIRST_ENV_ID, SYS_GETENVID, SYS_IPC_RECV, SYS_IPC_TRY_SEND, SYS_YIELD,
    UTOP,
};
use lib_os::{FSREQ_SYNC, SERVICE_SYNC, Step, answer_of};
use lib_stage::{Ask, Next, Planned};

/// How far sync is.
#[derive(Clone, Copy, Debug, PartialEq, Eq)]
pub enum SyncStage {
    /// Nothing is done yet.
    Entered,
    /// It is about to ask the server, and has this id.
    Asking { id: u32 },
    /// It has asked in vain, and is about to give up its turn.
    Pausing { id: u32 },
    /// It has asked, and is about to wait for the reply.
    Awaiting { id: u32 },
    /// It waits, or is about to read the word that came.
    ReadingReply { id: u32 },
}

/// sync(), at a stage.
#[derive(Clone, Copy, Debug, PartialEq, Eq)]
pub struct Sync {
    pub at: SyncStage,
}

impl Sync {
    /// sync at a step, if it has this step.
    pub fn at_step(step: Step) -> Option<Sync>
        ensures { result ≡ sync_at step }
    {
        let at = match step {
            Step::Entered => SyncStage::Entered,
            Step::Asking { id } => SyncStage::Asking { id },
            Step::Pausing { perm } => SyncStage::Pausing { id: perm },
            Step::Awaiting { id } => SyncStage::Awaiting { id },
            Step::ReadingReply { id } => SyncStage::ReadingReply { id },
            _ => return None,
        };
        Some(Sync { at })
    }
}

impl Planned for Sync {
    ghost use Rattle.lib_request.specs.SyncStages.{syncing};

    ghost plan = { syncing };

    fn number(&self) -> u32 {
        SERVICE_SYNC
    }

    fn ask(&self) -> Ask {
        match self.at {
            SyncStage::Entered => Ask::System {
                number: SYS_GETENVID,
                args: [0; 5],
            },
            SyncStage::Asking { id: _ } => Ask::System {
                number: SYS_IPC_TRY_SEND,
                args: [FIRST_ENV_ID, FSREQ_SYNC, UTOP, 0, 0],
            },
            SyncStage::Pausing { id: _ } => Ask::System {
                number: SYS_YIELD,
                args: [0; 5],
            },
            SyncStage::Awaiting { id: _ } => Ask::System {
                number: SYS_IPC_RECV,
                args: [UTOP, FIRST_ENV_ID, 0, 0, 0],
            },
            SyncStage::ReadingReply { id } => Ask::Load {
                va: reply_place(id),
            },
        }
    }

    fn next(&self, called: Called) -> Next {
        let word = answer_of(called);
        match self.at {
            SyncStage::Entered => Next::GoOn(Step::Asking { id: word }),
            SyncStage::Asking { id } => {
                if word == E_IPC_NOT_RECV.wrapping_neg() {
                    return Next::Wait(Step::Pausing { perm: id });
                }
                if word != 0 {
                    return Next::Answer(word);
                }
                Next::Show(Step::Awaiting { id })
            }
            SyncStage::Pausing { id } => Next::GoOn(Step::Asking { id }),
            SyncStage::Awaiting { id } => Next::Show(Step::ReadingReply { id }),
            SyncStage::ReadingReply { id: _ } => Next::Answer(word),
        }
    }
}

//! remove: what it asks at each stage, and what it does next.

ghost use Rattle.std.specs.Prelude.{◌≡◌};
ghost use Rattle.lib_request.specs.RemoveStages as stages;

use crate::page::{ask_clearing, ask_reply, ask_with_page, next_of_asking};
use crate::path::{ask_gathering, next_of_gathering, next_of_keeping};
use crate::reply::reply_place;
use jos_base::{
    Called, E_INVAL, PTE_P, PTE_U, PTE_W, SYS_GETENVID, SYS_PAGE_ALLOC, SYS_YIELD, UTEMP,
};
use lib_fd::is_there;
use lib_file::{ask_keeping, ask_page_entry, ask_page_region};
use lib_os::{FSREQ_REMOVE, SERVICE_REMOVE, Step, answer_of, in_fence};
use lib_stage::{Ask, Next, Planned};

/// How far remove is.
#[derive(Clone, Copy, Debug, PartialEq, Eq)]
pub enum RemoveStage {
    /// Nothing is done yet.
    Entered,
    /// It is about to take a page for its path.
    TakingPage,
    /// It has taken so many bytes of its path, and is about to read whether the region of the next has a table.
    BufferRegion { done: u32 },
    /// It is about to read the entry of the next byte's page.
    BufferEntry { done: u32 },
    /// It is about to load the next bytes, or, where none may follow, to give its page back.
    Gathering { done: u32 },
    /// It has loaded the bytes of a word, of which so many are left, the next lowest, and is about to put them, or the next of them, into
    /// its page.
    Keeping { done: u32, word: u32, left: u32 },
    /// The next byte can't be taken, and remove is about to raise the fault that ends the environment.
    Faulting { done: u32 },
    /// Its page has the path, and it is about to ask for its id.
    Identifying,
    /// It is about to ask the server, and has this id.
    Asking { id: u32 },
    /// It has asked in vain, and is about to give up its turn.
    Pausing { id: u32 },
    /// It has asked, and is about to wait for the reply.
    Awaiting { id: u32 },
    /// It waits, or is about to give its page back.
    Clearing { id: u32 },
    /// It is about to read the word that came.
    ReadingReply { id: u32 },
}

/// remove(path), at a stage.
#[derive(Clone, Copy, Debug, PartialEq, Eq)]
pub struct Remove {
    pub path: u32,
    pub at: RemoveStage,
}

impl Remove {
    /// remove at a step, if it has this step.
    pub fn at_step(path: u32, step: Step) -> Option<Remove>
        ensures { result ≡ stages.remove_at path step }
    {
        let at = match step {
            Step::Entered => RemoveStage::Entered,
            Step::TakingPage => RemoveStage::TakingPage,
            Step::BufferRegion { done, .. } => RemoveStage::BufferRegion { done },
            Step::BufferEntry { done, .. } => RemoveStage::BufferEntry { done },
            Step::Gathering { done } => RemoveStage::Gathering { done },
            Step::Keeping { done, word, left } => RemoveStage::Keeping { done, word, left },
            Step::Faulting { done, .. } => RemoveStage::Faulting { done },
            Step::Identifying => RemoveStage::Identifying,
            Step::Asking { id } => RemoveStage::Asking { id },
            Step::Pausing { perm } => RemoveStage::Pausing { id: perm },
            Step::Awaiting { id } => RemoveStage::Awaiting { id },
            Step::Clearing { id } => RemoveStage::Clearing { id },
            Step::ReadingReply { id } => RemoveStage::ReadingReply { id },
            _ => return None,
        };
        Some(Remove { path, at })
    }
}

impl Planned for Remove {
    ghost use Rattle.lib_request.specs.RemoveStages.{removing};

    ghost plan = { removing };

    fn number(&self) -> u32 {
        SERVICE_REMOVE
    }

    fn ask(&self) -> Ask {
        match self.at {
            RemoveStage::Entered => Ask::System {
                number: SYS_GETENVID,
                args: [0; 5],
            },
            RemoveStage::TakingPage => Ask::System {
                number: SYS_PAGE_ALLOC,
                args: [0, UTEMP, PTE_P + PTE_U + PTE_W, 0, 0],
            },
            RemoveStage::BufferRegion { done } => ask_page_region(self.path.wrapping_add(done)),
            RemoveStage::BufferEntry { done } => ask_page_entry(self.path.wrapping_add(done)),
            RemoveStage::Gathering { done } => ask_gathering(self.path, done),
            RemoveStage::Keeping { done, word, left } => ask_keeping(done, word, left),
            RemoveStage::Faulting { done } => Ask::LoadByte {
                va: self.path.wrapping_add(done),
            },
            RemoveStage::Identifying => Ask::System {
                number: SYS_GETENVID,
                args: [0; 5],
            },
            RemoveStage::Asking { id: _ } => ask_with_page(FSREQ_REMOVE),
            RemoveStage::Pausing { id: _ } => Ask::System {
                number: SYS_YIELD,
                args: [0; 5],
            },
            RemoveStage::Awaiting { id: _ } => ask_reply(),
            RemoveStage::Clearing { id: _ } => ask_clearing(),
            RemoveStage::ReadingReply { id } => Ask::Load {
                va: reply_place(id),
            },
        }
    }

    fn next(&self, called: Called) -> Next {
        let word = answer_of(called);
        match self.at {
            RemoveStage::Entered => {
                if !in_fence(self.path, 1) {
                    return Next::Answer(E_INVAL.wrapping_neg());
                }
                Next::GoOn(Step::TakingPage)
            }
            RemoveStage::TakingPage => {
                if word != 0 {
                    return Next::Answer(word);
                }
                Next::GoOn(Step::BufferRegion { done: 0, word: 0 })
            }
            RemoveStage::BufferRegion { done } => {
                if !is_there(word) {
                    return Next::GoOn(Step::Faulting { done, word: 0 });
                }
                Next::GoOn(Step::BufferEntry { done, word: 0 })
            }
            RemoveStage::BufferEntry { done } => {
                if !is_there(word) {
                    return Next::GoOn(Step::Faulting { done, word: 0 });
                }
                Next::GoOn(Step::Gathering { done })
            }
            RemoveStage::Gathering { done } => next_of_gathering(self.path, done, word),
            RemoveStage::Keeping {
                done,
                word: kept,
                left,
            } => next_of_keeping(self.path, Step::Identifying, done, kept, left),
            RemoveStage::Faulting { .. } => Next::Gone,
            RemoveStage::Identifying => Next::GoOn(Step::Asking { id: word }),
            RemoveStage::Asking { id } => next_of_asking(id, word),
            RemoveStage::Pausing { id } => Next::GoOn(Step::Asking { id }),
            RemoveStage::Awaiting { id } => Next::Show(Step::Clearing { id }),
            RemoveStage::Clearing { id } => Next::GoOn(Step::ReadingReply { id }),
            RemoveStage::ReadingReply { id: _ } => Next::Answer(word),
        }
    }
}

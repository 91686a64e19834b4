//! spawn's path: what it asks at each stage, and what it does next.

ghost use Rattle.std.specs.Prelude.{◌≡◌};
ghost use Rattle.lib_given.specs.PathPlan as plans;

use crate::given::at_given;
use jos_base::{Called, E_INVAL, PTE_P, PTE_U, PTE_W, SYS_GETENVID, SYS_PAGE_ALLOC, UTEMP};
use lib_fd::is_there;
use lib_file::{ask_keeping, ask_page_entry, ask_page_region};
use lib_os::{GivenStep, SERVICE_SPAWN, Step, answer_of, in_fence};
use lib_request::{ask_gathering, next_of_gathering, next_of_keeping};
use lib_stage::{Ask, Next, Planned};

/// How far spawn is with its path.
#[derive(Clone, Copy)]
pub enum PathStage {
    /// Nothing is done yet.
    Entered,
    /// It is about to take a page for its path.
    TakingPage,
    /// It has taken so many bytes of its path, and is about to read whether the region of the next has a table.
    BufferRegion { done: u32 },
    /// It is about to read the entry of the next byte's page.
    BufferEntry { done: u32 },
    /// It is about to load the next bytes, or, where none may follow, to give its page back.
    Gathering { done: u32 },
    /// It has loaded the bytes of a word, of which so many are left, the next lowest, and is about to put them, or the next of them, into
    /// its page.
    Keeping { done: u32, word: u32, left: u32 },
    /// The next byte can't be taken, and spawn is about to raise the fault that ends the environment.
    Faulting { done: u32 },
}

/// spawn with its path, at a stage.
#[derive(Clone, Copy)]
pub struct SpawnPath {
    pub path: u32,
    pub at: PathStage,
}

impl SpawnPath {
    /// spawn at a step, if it is one of its path.
    pub fn at_step(path: u32, step: Step) -> Option<SpawnPath>
        ensures { result ≡ plans.path_at path step }
    {
        let at = match step {
            Step::Entered => PathStage::Entered,
            Step::TakingPage => PathStage::TakingPage,
            Step::BufferRegion { done, .. } => PathStage::BufferRegion { done },
            Step::BufferEntry { done, .. } => PathStage::BufferEntry { done },
            Step::Gathering { done } => PathStage::Gathering { done },
            Step::Keeping { done, word, left } => PathStage::Keeping { done, word, left },
            Step::Faulting { done, .. } => PathStage::Faulting { done },
            _ => return None,
        };
        Some(SpawnPath { path, at })
    }
}

impl Planned for SpawnPath {
    ghost use Rattle.lib_given.specs.PathPlan.{gathering};

    ghost plan = { gathering };

    fn number(&self) -> u32 {
        SERVICE_SPAWN
    }

    fn ask(&self) -> Ask {
        match self.at {
            PathStage::Entered => Ask::System {
                number: SYS_GETENVID,
                args: [0; 5],
            },
            PathStage::TakingPage => Ask::System {
                number: SYS_PAGE_ALLOC,
                args: [0, UTEMP, PTE_P + PTE_U + PTE_W, 0, 0],
            },
            PathStage::BufferRegion { done } => ask_page_region(self.path.wrapping_add(done)),
            PathStage::BufferEntry { done } => ask_page_entry(self.path.wrapping_add(done)),
            PathStage::Gathering { done } => ask_gathering(self.path, done),
            PathStage::Keeping { done, word, left } => ask_keeping(done, word, left),
            PathStage::Faulting { done } => Ask::LoadByte {
                va: self.path.wrapping_add(done),
            },
        }
    }

    fn next(&self, called: Called) -> Next {
        let word = answer_of(called);
        match self.at {
            PathStage::Entered => {
                if !in_fence(self.path, 1) {
                    return Next::Answer(E_INVAL.wrapping_neg());
                }
                Next::GoOn(Step::TakingPage)
            }
            PathStage::TakingPage => {
                if word != 0 {
                    return Next::Answer(word);
                }
                Next::GoOn(Step::BufferRegion { done: 0, word: 0 })
            }
            PathStage::BufferRegion { done } => {
                if !is_there(word) {
                    return Next::GoOn(Step::Faulting { done, word: 0 });
                }
                Next::GoOn(Step::BufferEntry { done, word: 0 })
            }
            PathStage::BufferEntry { done } => {
                if !is_there(word) {
                    return Next::GoOn(Step::Faulting { done, word: 0 });
                }
                Next::GoOn(Step::Gathering { done })
            }
            PathStage::Gathering { done } => next_of_gathering(self.path, done, word),
            PathStage::Keeping {
                done,
                word: kept,
                left,
            } => {
                let whole = at_given(GivenStep::TakingGiven);
                next_of_keeping(self.path, whole, done, kept, left)
            }
            PathStage::Faulting { .. } => Next::Gone,
        }
    }
}

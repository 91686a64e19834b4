//! open_file: what it asks at each stage, and what it does next.

ghost use Rattle.std.specs.Prelude.{◌≡◌};
ghost use Rattle.lib_request.specs.OpenStages as stages;

use crate::page::{ask_clearing, ask_reply_at, ask_with_page, next_by};
use crate::path::{ask_gathering, next_of_gathering, next_of_keeping};
use crate::reply::reply_place;
use jos_base::{
    Called, E_INVAL, E_MAX_OPEN, PTE_P, PTE_U, PTE_W, SYS_GETENVID, SYS_PAGE_ALLOC, SYS_YIELD,
    UTEMP,
};
use lib_fd::{ask_entry, ask_region_for, descriptor_va, is_there};
use lib_file::{ask_keeping, ask_page_entry, ask_page_region};
use lib_os::{
    DESCRIPTORS, FSREQ_OPEN, MODE_BITS, REQUEST_MODE, SERVICE_OPEN_FILE, Step, answer_of, in_fence,
};
use lib_stage::{Ask, Next, Planned};

/// How far open_file is.
#[derive(Clone, Copy, Debug, PartialEq, Eq)]
pub enum OpenStage {
    /// Nothing is done yet.
    Entered,
    /// It is about to take a page for its path.
    TakingPage,
    /// It has taken so many bytes of its path, and is about to read whether the region of the next has a table.
    BufferRegion { done: u32 },
    /// It is about to read the entry of the next byte's page.
    BufferEntry { done: u32 },
    /// It is about to load the next bytes, or, where none may follow, to give its page back.
    Gathering { done: u32 },
    /// It has loaded the bytes of a word, of which so many are left, the next lowest, and is about to put them, or the next of them, into
    /// its page.
    Keeping { done: u32, word: u32, left: u32 },
    /// The next byte can't be taken, and open_file is about to raise the fault that ends the environment.
    Faulting { done: u32 },
    /// Its page has the path, and it is about to read whether descriptors' pages have a table.
    FreeRegion,
    /// It is about to read the entry of this descriptor's page, or, where all are open, to give its page back.
    FreeEntry { fd: u32 },
    /// This descriptor is free, and it is about to put the mode into its page.
    StoringMode { fd: u32 },
    /// Its page tells the request, and it is about to ask for its id.
    Identifying { fd: u32 },
    /// It is about to ask the server, and has this id.
    Asking { id: u32, fd: u32 },
    /// It has asked in vain, and is about to give up its turn.
    Pausing { id: u32, fd: u32 },
    /// It has asked, and is about to wait for the reply.
    Awaiting { id: u32, fd: u32 },
    /// It waits, or is about to give its page back.
    Clearing { id: u32, fd: u32 },
    /// It is about to read the word that came.
    ReadingReply { id: u32, fd: u32 },
}

/// open_file(path, mode), at a stage.
#[derive(Clone, Copy, Debug, PartialEq, Eq)]
pub struct Open {
    pub path: u32,
    pub mode: u32,
    pub at: OpenStage,
}

impl Open {
    /// open_file at a step, if it has this step.
    pub fn at_step(path: u32, mode: u32, step: Step) -> Option<Open>
        ensures { result ≡ stages.open_at path mode step }
    {
        let at = match step {
            Step::Entered => OpenStage::Entered,
            Step::TakingPage => OpenStage::TakingPage,
            Step::BufferRegion { done, .. } => OpenStage::BufferRegion { done },
            Step::BufferEntry { done, .. } => OpenStage::BufferEntry { done },
            Step::Gathering { done } => OpenStage::Gathering { done },
            Step::Keeping { done, word, left } => OpenStage::Keeping { done, word, left },
            Step::Faulting { done, .. } => OpenStage::Faulting { done },
            Step::FreeRegion => OpenStage::FreeRegion,
            Step::FreeEntry { fd } => OpenStage::FreeEntry { fd },
            Step::StoringMode { fd } => OpenStage::StoringMode { fd },
            Step::OpenIdentifying { fd } => OpenStage::Identifying { fd },
            Step::OpenAsking { id, fd } => OpenStage::Asking { id, fd },
            Step::OpenPausing { id, fd } => OpenStage::Pausing { id, fd },
            Step::OpenAwaiting { id, fd } => OpenStage::Awaiting { id, fd },
            Step::OpenClearing { id, fd } => OpenStage::Clearing { id, fd },
            Step::ReadingOpened { id, fd } => OpenStage::ReadingReply { id, fd },
            _ => return None,
        };
        Some(Open { path, mode, at })
    }
}

/// Whether a number is a mode in which a file may be opened.
fn is_mode(mode: u32) -> bool
    ensures { result ≡ stages.is_mode mode }
{
    mode & MODE_BITS == mode && mode & 3 != 3
}

/// What is asked of a descriptor's page, or, where all are open, that the page of the request is given back.
fn ask_free(fd: u32) -> Ask
    ensures { result ≡ stages.free_asked fd }
{
    if fd >= DESCRIPTORS as u32 {
        return ask_clearing();
    }
    ask_entry(fd)
}

/// What is done next by whether a page stands there.
fn next_of_free(fd: u32, word: u32) -> Next
    ensures { result ≡ stages.next_of_free fd word }
{
    if fd >= DESCRIPTORS as u32 {
        return Next::Answer(E_MAX_OPEN.wrapping_neg());
    }
    if is_there(word) {
        return Next::GoOn(Step::FreeEntry { fd: fd + 1 });
    }
    Next::GoOn(Step::StoringMode { fd })
}

impl Planned for Open {
    ghost use Rattle.lib_request.specs.OpenStages.{opening};

    ghost plan = { opening };

    fn number(&self) -> u32 {
        SERVICE_OPEN_FILE
    }

    fn ask(&self) -> Ask {
        match self.at {
            OpenStage::Entered => Ask::System {
                number: SYS_GETENVID,
                args: [0; 5],
            },
            OpenStage::TakingPage => Ask::System {
                number: SYS_PAGE_ALLOC,
                args: [0, UTEMP, PTE_P + PTE_U + PTE_W, 0, 0],
            },
            OpenStage::BufferRegion { done } => ask_page_region(self.path.wrapping_add(done)),
            OpenStage::BufferEntry { done } => ask_page_entry(self.path.wrapping_add(done)),
            OpenStage::Gathering { done } => ask_gathering(self.path, done),
            OpenStage::Keeping { done, word, left } => ask_keeping(done, word, left),
            OpenStage::Faulting { done } => Ask::LoadByte {
                va: self.path.wrapping_add(done),
            },
            OpenStage::FreeRegion => ask_region_for(0),
            OpenStage::FreeEntry { fd } => ask_free(fd),
            OpenStage::StoringMode { fd: _ } => Ask::Store {
                va: UTEMP + REQUEST_MODE,
                word: self.mode,
            },
            OpenStage::Identifying { fd: _ } => Ask::System {
                number: SYS_GETENVID,
                args: [0; 5],
            },
            OpenStage::Asking { .. } => ask_with_page(FSREQ_OPEN),
            OpenStage::Pausing { .. } => Ask::System {
                number: SYS_YIELD,
                args: [0; 5],
            },
            OpenStage::Awaiting { id: _, fd } => ask_reply_at(descriptor_va(fd)),
            OpenStage::Clearing { .. } => ask_clearing(),
            OpenStage::ReadingReply { id, fd: _ } => Ask::Load {
                va: reply_place(id),
            },
        }
    }

    fn next(&self, called: Called) -> Next {
        let word = answer_of(called);
        match self.at {
            OpenStage::Entered => {
                if !is_mode(self.mode) || !in_fence(self.path, 1) {
                    return Next::Answer(E_INVAL.wrapping_neg());
                }
                Next::GoOn(Step::TakingPage)
            }
            OpenStage::TakingPage => {
                if word != 0 {
                    return Next::Answer(word);
                }
                Next::GoOn(Step::BufferRegion { done: 0, word: 0 })
            }
            OpenStage::BufferRegion { done } => {
                if !is_there(word) {
                    return Next::GoOn(Step::Faulting { done, word: 0 });
                }
                Next::GoOn(Step::BufferEntry { done, word: 0 })
            }
            OpenStage::BufferEntry { done } => {
                if !is_there(word) {
                    return Next::GoOn(Step::Faulting { done, word: 0 });
                }
                Next::GoOn(Step::Gathering { done })
            }
            OpenStage::Gathering { done } => next_of_gathering(self.path, done, word),
            OpenStage::Keeping {
                done,
                word: kept,
                left,
            } => next_of_keeping(self.path, Step::FreeRegion, done, kept, left),
            OpenStage::Faulting { .. } => Next::Gone,
            OpenStage::FreeRegion => {
                if !is_there(word) {
                    return Next::GoOn(Step::StoringMode { fd: 0 });
                }
                Next::GoOn(Step::FreeEntry { fd: 0 })
            }
            OpenStage::FreeEntry { fd } => next_of_free(fd, word),
            OpenStage::StoringMode { fd } => Next::GoOn(Step::OpenIdentifying { fd }),
            OpenStage::Identifying { fd } => Next::GoOn(Step::OpenAsking { id: word, fd }),
            OpenStage::Asking { id, fd } => next_by(
                Step::OpenPausing { id, fd },
                Step::OpenAwaiting { id, fd },
                word,
            ),
            OpenStage::Pausing { id, fd } => Next::GoOn(Step::OpenAsking { id, fd }),
            OpenStage::Awaiting { id, fd } => Next::Show(Step::OpenClearing { id, fd }),
            OpenStage::Clearing { id, fd } => Next::GoOn(Step::ReadingOpened { id, fd }),
            OpenStage::ReadingReply { id: _, fd } => {
                if word == 0 {
                    return Next::Answer(fd);
                }
                Next::Answer(word)
            }
        }
    }
}

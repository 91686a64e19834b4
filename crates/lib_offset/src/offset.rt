//! seek and set_size, stage by stage.

ghost use Rattle.std.specs.Prelude.{◌≡◌};
ghost use Rattle.lib_offset.specs.OffsetStages as stages;

use jos_base::{
    Called, E_INVAL, E_NOT_SUPP, PTE_P, PTE_U, PTE_W, SYS_GETENVID, SYS_PAGE_ALLOC, SYS_YIELD,
    UTEMP,
};
use lib_fd::{ask_entry, ask_region_for, descriptor_va};
use lib_file::{ask_device, next_of_entry, next_of_region};
use lib_os::{
    DEVICE_FILE, FD_FILE, FD_MODE, FSREQ_SEEK, FSREQ_SET_SIZE, OFFSET_MAX, REQUEST_COUNT,
    REQUEST_FILE, SERVICE_SEEK, SERVICE_SET_SIZE, Step, answer_of,
};
use lib_request::{ask_clearing, ask_reply, ask_with_page, next_of_asking, reply_place};
use lib_stage::{Ask, Next, Planned};

/// Which service it is, with what goes with its request.
#[derive(Clone, Copy, Debug, PartialEq, Eq)]
pub enum OffsetService {
    /// seek(fd, offset)
    Seek { offset: u32 },
    /// set_size(fd, size)
    SetSize { size: u32 },
}

/// How far it is.
#[derive(Clone, Copy, Debug, PartialEq, Eq)]
pub enum OffsetStage {
    /// It is about to read whether descriptors' pages have a table.
    Entered,
    /// It is about to read the entry of the descriptor's page.
    Entry,
    /// It is about to read what the descriptor names.
    Device,
    /// set_size: it is about to read the mode of the file.
    ReadingMode,
    /// It is about to take a page for its request.
    TakingPage,
    /// It is about to read the number of the file.
    ReadingNumber,
    /// It is about to put the number into its page.
    StoringNumber { number: u32 },
    /// It is about to put the offset, or the size, there.
    StoringCount,
    /// Its page tells the request, and it is about to ask for its id.
    Identifying,
    /// It is about to ask the server, and has this id.
    Asking { id: u32 },
    /// It has asked in vain, and is about to give up its turn.
    Pausing { id: u32 },
    /// It has asked, and is about to wait for the reply.
    Awaiting { id: u32 },
    /// It waits, or is about to give its page back.
    Clearing { id: u32 },
    /// It is about to read the word that came.
    ReadingReply { id: u32 },
}

/// seek or set_size, at a stage.
#[derive(Clone, Copy, Debug, PartialEq, Eq)]
pub struct Offset {
    pub service: OffsetService,
    pub fd: u32,
    pub at: OffsetStage,
}

impl Offset {
    /// The service at a step, if it has this step.
    pub fn at_step(service: OffsetService, fd: u32, step: Step) -> Option<Offset>
        ensures { result ≡ stages.offset_at service fd step }
    {
        let at = match step {
            Step::Entered => OffsetStage::Entered,
            Step::DescriptorEntry { .. } => OffsetStage::Entry,
            Step::ReadingDevice => OffsetStage::Device,
            Step::ReadingMode => match service {
                OffsetService::Seek { .. } => return None,
                OffsetService::SetSize { .. } => OffsetStage::ReadingMode,
            },
            Step::TakingPage => OffsetStage::TakingPage,
            Step::ReadingNumber => OffsetStage::ReadingNumber,
            Step::StoringNumber { number } => OffsetStage::StoringNumber { number },
            Step::StoringCount => OffsetStage::StoringCount,
            Step::Identifying => OffsetStage::Identifying,
            Step::Asking { id } => OffsetStage::Asking { id },
            Step::Pausing { perm } => OffsetStage::Pausing { id: perm },
            Step::Awaiting { id } => OffsetStage::Awaiting { id },
            Step::Clearing { id } => OffsetStage::Clearing { id },
            Step::ReadingReply { id } => OffsetStage::ReadingReply { id },
            _ => return None,
        };
        Some(Offset { service, fd, at })
    }
}

/// The word of its request.
fn word_of(service: OffsetService) -> u32
    ensures { result ≡ stages.word_of service }
{
    match service {
        OffsetService::Seek { .. } => FSREQ_SEEK,
        OffsetService::SetSize { .. } => FSREQ_SET_SIZE,
    }
}

/// What goes with it.
fn count_of(service: OffsetService) -> u32
    ensures { result ≡ stages.count_of service }
{
    match service {
        OffsetService::Seek { offset } => offset,
        OffsetService::SetSize { size } => size,
    }
}

/// What it does next by the word that tells what its descriptor names.
fn next_of_device(service: OffsetService, word: u32) -> Next
    ensures { result ≡ stages.next_of_device service word }
{
    if word != DEVICE_FILE {
        return Next::Answer(E_NOT_SUPP.wrapping_neg());
    }
    match service {
        OffsetService::Seek { offset } => {
            if offset > OFFSET_MAX {
                return Next::Answer(E_INVAL.wrapping_neg());
            }
            Next::GoOn(Step::TakingPage)
        }
        OffsetService::SetSize { .. } => Next::GoOn(Step::ReadingMode),
    }
}

impl Planned for Offset {
    ghost use Rattle.lib_offset.specs.OffsetStages.{offsetting};

    ghost plan = { offsetting };

    fn number(&self) -> u32 {
        match self.service {
            OffsetService::Seek { .. } => SERVICE_SEEK,
            OffsetService::SetSize { .. } => SERVICE_SET_SIZE,
        }
    }

    fn ask(&self) -> Ask {
        match self.at {
            OffsetStage::Entered => ask_region_for(self.fd),
            OffsetStage::Entry => ask_entry(self.fd),
            OffsetStage::Device => ask_device(self.fd),
            OffsetStage::ReadingMode => Ask::Load {
                va: descriptor_va(self.fd) + FD_MODE,
            },
            OffsetStage::TakingPage => Ask::System {
                number: SYS_PAGE_ALLOC,
                args: [0, UTEMP, PTE_P + PTE_U + PTE_W, 0, 0],
            },
            OffsetStage::ReadingNumber => Ask::Load {
                va: descriptor_va(self.fd) + FD_FILE,
            },
            OffsetStage::StoringNumber { number } => Ask::Store {
                va: UTEMP + REQUEST_FILE,
                word: number,
            },
            OffsetStage::StoringCount => Ask::Store {
                va: UTEMP + REQUEST_COUNT,
                word: count_of(self.service),
            },
            OffsetStage::Identifying => Ask::System {
                number: SYS_GETENVID,
                args: [0; 5],
            },
            OffsetStage::Asking { id: _ } => ask_with_page(word_of(self.service)),
            OffsetStage::Pausing { id: _ } => Ask::System {
                number: SYS_YIELD,
                args: [0; 5],
            },
            OffsetStage::Awaiting { id: _ } => ask_reply(),
            OffsetStage::Clearing { id: _ } => ask_clearing(),
            OffsetStage::ReadingReply { id } => Ask::Load {
                va: reply_place(id),
            },
        }
    }

    fn next(&self, called: Called) -> Next {
        let word = answer_of(called);
        match self.at {
            OffsetStage::Entered => next_of_region(self.fd, word),
            OffsetStage::Entry => next_of_entry(word),
            OffsetStage::Device => next_of_device(self.service, word),
            OffsetStage::ReadingMode => {
                if word == 0 {
                    return Next::Answer(E_INVAL.wrapping_neg());
                }
                Next::GoOn(Step::TakingPage)
            }
            OffsetStage::TakingPage => {
                if word != 0 {
                    return Next::Answer(word);
                }
                Next::GoOn(Step::ReadingNumber)
            }
            OffsetStage::ReadingNumber => Next::GoOn(Step::StoringNumber { number: word }),
            OffsetStage::StoringNumber { number: _ } => Next::GoOn(Step::StoringCount),
            OffsetStage::StoringCount => Next::GoOn(Step::Identifying),
            OffsetStage::Identifying => Next::GoOn(Step::Asking { id: word }),
            OffsetStage::Asking { id } => next_of_asking(id, word),
            OffsetStage::Pausing { id } => Next::GoOn(Step::Asking { id }),
            OffsetStage::Awaiting { id } => Next::Show(Step::Clearing { id }),
            OffsetStage::Clearing { id } => Next::GoOn(Step::ReadingReply { id }),
            OffsetStage::ReadingReply { id: _ } => Next::Answer(word),
        }
    }
}

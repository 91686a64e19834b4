//! The handler of page faults: what it asks at each step, and what it does next.

ghost use Rattle.std.specs.Prelude.{◌≡◌, ◌<◌, ◌+◌, ◌*◌, ◌^◌};
ghost use Rattle.lib_os.specs.StandsInHandler.{is_write};
ghost use Rattle.lib_fault.specs.HandlerStages.{page_start, waits_to_be_copied};

use jos_base::{
    Called, FEC_PR, FEC_U, FEC_WR, PGSIZE, PTE_P, PTE_SYSCALL, PTE_U, PTE_W,
    SYS_ENV_SET_PGFAULT_UPCALL, SYS_PAGE_ALLOC, SYS_PAGE_MAP, SYS_PAGE_UNMAP, UTRAPFRAME_WORDS,
    UVPT, UXSTACKTOP,
};
use lib_os::{HandlerStep, PAGE_WORDS, PFTEMP, PTE_COW, PTE_SHARE, SERVICES, answer_of};
use lib_stage::{Ask, Next, Planned};

/// Where the frame of a page fault stands: at the top of the stack of the handler.
const FRAME_PLACE: u32 = UXSTACKTOP - 4 * UTRAPFRAME_WORDS as u32;

/// The word of the frame that is the error code. (MIT 6.828, inc/trap.h: `utf_err`)
const FRAME_ERROR: u32 = 1;

/// The word of the frame that is EIP. (MIT 6.828, inc/trap.h: `utf_eip`)
const FRAME_EIP: u32 = 10;

/// The bits of a copy: its environment may read it and write it.
const COPY_PERM: u32 = PTE_P + PTE_U + PTE_W;

/// The error code of a write that the entry of its page has refused.
const REFUSED_WRITE: u32 = FEC_U + FEC_PR + FEC_WR;

/// The handler of page faults, at a step.
#[derive(Clone, Copy, Debug)]
pub struct PageFaultHandler {
    pub step: HandlerStep,
}

/// Where the page of an address begins.
fn page_start(va: u32) -> u32
    ensures { result ≡ page_start va }
{
    va / PGSIZE * PGSIZE
}

/// Whether a fault with this error code was raised by a write.
fn is_write(error: u32) -> bool
    ensures { result ≡ is_write error }
{
    error & FEC_WR == FEC_WR
}

/// Whether the page of an entry's word is there, and waits to be copied.
fn waits_to_be_copied(word: u32) -> bool
    ensures { result ≡ waits_to_be_copied word }
{
    let perm = word & PTE_SYSCALL;
    word & PTE_P == PTE_P && (perm & PTE_COW == PTE_COW && perm & PTE_SHARE != PTE_SHARE)
}

impl Planned for PageFaultHandler {
    ghost use Rattle.lib_fault.specs.HandlerStages.{handling};

    ghost plan = { λ it. handling it.step };

    fn number(&self) -> u32 {
        SERVICES
    }

    fn ask(&self) -> Ask {
        match self.step {
            HandlerStep::Entered => Ask::Load { va: FRAME_PLACE },
            HandlerStep::ReadingError { va: _ } => Ask::Load {
                va: FRAME_PLACE + 4 * FRAME_ERROR,
            },
            HandlerStep::Looking { va } => Ask::Load {
                va: UVPT + 4 * (va / PGSIZE),
            },
            HandlerStep::Taking { va: _ } => Ask::System {
                number: SYS_PAGE_ALLOC,
                args: [0, PFTEMP, COPY_PERM, 0, 0],
            },
            HandlerStep::Loading { va, index } => Ask::Load {
                va: page_start(va) + 4 * (index % PAGE_WORDS),
            },
            HandlerStep::Storing { va: _, index, word } => Ask::Store {
                va: PFTEMP + 4 * (index % PAGE_WORDS),
                word,
            },
            HandlerStep::MappingOver { va } => Ask::System {
                number: SYS_PAGE_MAP,
                args: [0, PFTEMP, 0, page_start(va), COPY_PERM],
            },
            HandlerStep::Unmapping { va: _ } => Ask::System {
                number: SYS_PAGE_UNMAP,
                args: [0, PFTEMP, 0, 0, 0],
            },
            HandlerStep::Restoring => Ask::RestoreFrame,
            HandlerStep::ReadingIp { va: _, error: _ } => Ask::Load {
                va: FRAME_PLACE + 4 * FRAME_EIP,
            },
            HandlerStep::Unsetting {
                va: _,
                error: _,
                ip: _,
            } => Ask::System {
                number: SYS_ENV_SET_PGFAULT_UPCALL,
                args: [0; 5],
            },
            HandlerStep::Touching { va, error, ip } => Ask::Touch {
                ip,
                va,
                write: is_write(error),
            },
        }
    }

    fn next(&self, called: Called) -> Next {
        let word = answer_of(called);
        match self.step {
            HandlerStep::Entered => Next::Handle(HandlerStep::ReadingError { va: word }),
            HandlerStep::ReadingError { va } => {
                if word != REFUSED_WRITE {
                    return Next::Handle(HandlerStep::ReadingIp { va, error: word });
                }
                Next::Handle(HandlerStep::Looking { va })
            }
            HandlerStep::Looking { va } => {
                if !waits_to_be_copied(word) {
                    return Next::Handle(HandlerStep::ReadingIp {
                        va,
                        error: REFUSED_WRITE,
                    });
                }
                Next::Handle(HandlerStep::Taking { va })
            }
            HandlerStep::Taking { va } => {
                if word != 0 {
                    return Next::Handle(HandlerStep::ReadingIp {
                        va,
                        error: REFUSED_WRITE,
                    });
                }
                Next::Handle(HandlerStep::Loading { va, index: 0 })
            }
            HandlerStep::Loading { va, index } => {
                Next::Handle(HandlerStep::Storing { va, index, word })
            }
            HandlerStep::Storing { va, index, word: _ } => {
                if index < PAGE_WORDS - 1 {
                    return Next::Handle(HandlerStep::Loading {
                        va,
                        index: index + 1,
                    });
                }
                Next::Handle(HandlerStep::MappingOver { va })
            }
            HandlerStep::MappingOver { va } => Next::Handle(HandlerStep::Unmapping { va }),
            HandlerStep::Unmapping { va: _ } => Next::Handle(HandlerStep::Restoring),
            HandlerStep::Restoring => Next::Leave,
            HandlerStep::ReadingIp { va, error } => Next::Handle(HandlerStep::Unsetting {
                va,
                error,
                ip: word,
            }),
            HandlerStep::Unsetting { va, error, ip } => {
                Next::Handle(HandlerStep::Touching { va, error, ip })
            }
            HandlerStep::Touching {
                va: _,
                error: _,
                ip: _,
            } => Next::Gone,
        }
    }
}

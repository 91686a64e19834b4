//! send: what it asks at each stage, and what it does next.

ghost use Rattle.std.specs.Prelude.{◌≡◌};
ghost use Rattle.lib_os.specs.StandsFor.{destination_of};
ghost use Rattle.lib_msg.specs.SendStages.{may_name, may_pass, send_at};

use jos_base::{
    Called, E_INVAL, E_IPC_NOT_RECV, FIRST_ENV_ID, NPTENTRIES, PGSIZE, PTE_P, PTE_SYSCALL, PTE_W,
    SYS_GETENVID, SYS_IPC_TRY_SEND, SYS_YIELD, UTOP, UVPT,
};
use lib_os::{PTE_COW, PTE_SHARE, SERVICE_SEND, Step, UVPD, answer_of, is_page_inside};
use lib_stage::{Ask, Next, Planned};

/// How far send is.
#[derive(Clone, Copy, Debug, PartialEq, Eq)]
pub enum SendStage {
    /// Nothing is done yet.
    Entered,
    /// It is about to read whether the region of its page has a table.
    ReadingRegion,
    /// It is about to read the entry of its page.
    ReadingEntry,
    /// It is about to try. Its page has these bits.
    Trying { perm: u32 },
    /// It has tried in vain, and is about to give up its turn.
    Pausing { perm: u32 },
}

/// send(id, value, va), at a stage.
#[derive(Clone, Copy, Debug, PartialEq, Eq)]
pub struct Send {
    pub id: u32,
    pub value: u32,
    pub va: u32,
    pub at: SendStage,
}

impl Send {
    /// send at a step, if it has this step.
    pub fn at_step(id: u32, value: u32, va: u32, step: Step) -> Option<Send>
        ensures { result ≡ send_at id value va step }
    {
        let at = match step {
            Step::Entered => SendStage::Entered,
            Step::ReadingRegion => SendStage::ReadingRegion,
            Step::ReadingEntry => SendStage::ReadingEntry,
            Step::Trying { perm } => SendStage::Trying { perm },
            Step::Pausing { perm } => SendStage::Pausing { perm },
            _ => return None,
        };
        Some(Send { id, value, va, at })
    }
}

/// Whether an environment with this id may send to another: to no one with id 0, nor to itself or to the server.
fn may_name(id: u32, own: u32) -> bool
    ensures { result ≡ may_name id own }
{
    id != 0 && id != own && id != FIRST_ENV_ID
}

/// Whether the page of an entry's word is there and may pass: it is shared, or may not be written, neither where it stands nor
/// as a copy of it.
fn may_pass(word: u32) -> bool
    ensures { result ≡ may_pass word }
{
    let perm = word & PTE_SYSCALL;
    let may_write = perm & PTE_W == PTE_W || perm & PTE_COW == PTE_COW;
    word & PTE_P == PTE_P && (perm & PTE_SHARE == PTE_SHARE || !may_write)
}

/// From where the kernel is told to take a page.
fn source_of(va: u32) -> u32
    ensures { result ≡ destination_of va }
{
    if va == 0 { UTOP } else { va }
}

impl Planned for Send {
    ghost use Rattle.lib_msg.specs.SendStages.{sending};

    ghost plan = { sending };

    fn number(&self) -> u32 {
        SERVICE_SEND
    }

    fn ask(&self) -> Ask {
        match self.at {
            SendStage::Entered => Ask::System {
                number: SYS_GETENVID,
                args: [0; 5],
            },
            SendStage::ReadingRegion => Ask::Load {
                va: UVPD + 4 * (self.va / PGSIZE / NPTENTRIES),
            },
            SendStage::ReadingEntry => Ask::Load {
                va: UVPT + 4 * (self.va / PGSIZE),
            },
            SendStage::Trying { perm } => Ask::System {
                number: SYS_IPC_TRY_SEND,
                args: [self.id, self.value, source_of(self.va), perm, 0],
            },
            SendStage::Pausing { perm: _ } => Ask::System {
                number: SYS_YIELD,
                args: [0; 5],
            },
        }
    }

    fn next(&self, called: Called) -> Next {
        let word = answer_of(called);
        match self.at {
            SendStage::Entered => {
                if !may_name(self.id, word) {
                    return Next::Answer(E_INVAL.wrapping_neg());
                }
                if self.va == 0 {
                    return Next::GoOn(Step::Trying { perm: 0 });
                }
                if !is_page_inside(self.va) {
                    return Next::Answer(E_INVAL.wrapping_neg());
                }
                Next::GoOn(Step::ReadingRegion)
            }
            SendStage::ReadingRegion => {
                if word & PTE_P != PTE_P {
                    return Next::Answer(E_INVAL.wrapping_neg());
                }
                Next::GoOn(Step::ReadingEntry)
            }
            SendStage::ReadingEntry => {
                if !may_pass(word) {
                    return Next::Answer(E_INVAL.wrapping_neg());
                }
                Next::GoOn(Step::Trying {
                    perm: word & PTE_SYSCALL,
                })
            }
            SendStage::Trying { perm } => {
                if word == E_IPC_NOT_RECV.wrapping_neg() {
                    return Next::Wait(Step::Pausing { perm });
                }
                Next::Answer(word)
            }
            SendStage::Pausing { perm } => Next::GoOn(Step::Trying { perm }),
        }
    }
}

//! receive: what it asks at each stage, and what it does next.

ghost use Rattle.std.specs.Prelude.{◌≡◌, ◌+◌, ◌*◌, ◌%◌, ◌<◌};
ghost use Rattle.jos_base.specs.declared.numbers.TheConstants.{ENV_SIZE, ENV_WORDS, NENV, UENVS};
ghost use Rattle.lib_os.specs.StandsFor.{destination_of, kind_by};
ghost use Rattle.lib_msg.specs.ReceiveStages.{may_receive, receive_at};

use jos_base::{
    Called, E_INVAL, ENV_IPC_FROM, ENV_IPC_PERM, ENV_IPC_VALUE, ENV_SIZE, FIRST_ENV_ID, NENV,
    PTE_W, SYS_GETENVID, SYS_IPC_RECV, UENVS, UTOP,
};
use lib_os::{SERVICE_RECEIVE, Step, answer_of, is_page_inside};
use lib_stage::{Ask, Next, Planned};

/// How far receive is.
#[derive(Clone, Copy, Debug, PartialEq, Eq)]
pub enum ReceiveStage {
    /// Nothing is done yet.
    Entered,
    /// It is about to wait, and has this id.
    Receiving { id: u32 },
    /// It waits, or is about to read the word that came.
    ReadingValue { id: u32 },
    /// It is about to read who sent the word.
    ReadingSender { id: u32, value: u32 },
    /// It is about to read the bits of the page that came.
    ReadingPerm { id: u32, value: u32, sender: u32 },
}

/// receive(va, from), at a stage.
#[derive(Clone, Copy, Debug, PartialEq, Eq)]
pub struct Receive {
    pub va: u32,
    pub from: u32,
    pub at: ReceiveStage,
}

impl Receive {
    /// receive at a step, if it has this step.
    pub fn at_step(va: u32, from: u32, step: Step) -> Option<Receive>
        ensures { result ≡ receive_at va from step }
    {
        let at = match step {
            Step::Entered => ReceiveStage::Entered,
            Step::Receiving { id } => ReceiveStage::Receiving { id },
            Step::ReadingValue { id } => ReceiveStage::ReadingValue { id },
            Step::ReadingSender { id, value } => ReceiveStage::ReadingSender { id, value },
            Step::ReadingPerm { id, value, sender } => {
                ReceiveStage::ReadingPerm { id, value, sender }
            }
            _ => return None,
        };
        Some(Receive { va, from, at })
    }
}

/// Whether an environment with this id may receive: a page lies within the fence, where 0 stands for none, and nobody receives
/// from itself or from the server.
fn may_receive(va: u32, from: u32, own: u32) -> bool
    ensures { result ≡ may_receive va from own }
{
    (va == 0 || is_page_inside(va)) && from != own && from != FIRST_ENV_ID
}

/// Where the kernel is told to put a page.
fn destination_of(va: u32) -> u32
    ensures { result ≡ destination_of va }
{
    if va == 0 { UTOP } else { va }
}

/// What the bits of the entry of a page that came are told as.
fn kind_by(perm: u32) -> u32
    ensures { result ≡ kind_by perm }
{
    if perm == 0 {
        0
    } else if perm & PTE_W == PTE_W {
        2
    } else {
        1
    }
}

/// The address of a word of the record of an environment's slot.
fn record_word(id: u32, word: u32) -> u32
    requires { word < ENV_WORDS }
    ensures { result ≡ UENVS + ENV_SIZE * (id % NENV) + 4 * word }
{
    UENVS + ENV_SIZE * (id % NENV) + 4 * word
}

impl Planned for Receive {
    ghost use Rattle.lib_msg.specs.ReceiveStages.{receiving};

    ghost plan = { receiving };

    fn number(&self) -> u32 {
        SERVICE_RECEIVE
    }

    fn ask(&self) -> Ask {
        match self.at {
            ReceiveStage::Entered => Ask::System {
                number: SYS_GETENVID,
                args: [0; 5],
            },
            ReceiveStage::Receiving { id: _ } => Ask::System {
                number: SYS_IPC_RECV,
                args: [destination_of(self.va), self.from, 0, 0, 0],
            },
            ReceiveStage::ReadingValue { id } => Ask::Load {
                va: record_word(id, ENV_IPC_VALUE),
            },
            ReceiveStage::ReadingSender { id, value: _ } => Ask::Load {
                va: record_word(id, ENV_IPC_FROM),
            },
            ReceiveStage::ReadingPerm {
                id,
                value: _,
                sender: _,
            } => Ask::Load {
                va: record_word(id, ENV_IPC_PERM),
            },
        }
    }

    fn next(&self, called: Called) -> Next {
        let word = answer_of(called);
        match self.at {
            ReceiveStage::Entered => {
                if !may_receive(self.va, self.from, word) {
                    return Next::Answer(E_INVAL.wrapping_neg());
                }
                Next::GoOn(Step::Receiving { id: word })
            }
            ReceiveStage::Receiving { id } => Next::Show(Step::ReadingValue { id }),
            ReceiveStage::ReadingValue { id } => Next::GoOn(Step::ReadingSender {
                id,
                value: word,
            }),
            ReceiveStage::ReadingSender { id, value } => Next::GoOn(Step::ReadingPerm {
                id,
                value,
                sender: word,
            }),
            ReceiveStage::ReadingPerm {
                id: _,
                value,
                sender,
            } => Next::Answers {
                eax: 0,
                edx: sender,
                ecx: value,
                ebx: kind_by(word),
            },
        }
    }
}

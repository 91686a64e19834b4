//! An environment, and the ids that a slot gives.

ghost use Rattle.std.specs.Prelude.{◌≡◌, ◌<◌};
ghost use Rattle.jos_base.specs.Environments.{next_id, is_runnable, env_type_number, status_number};

use jos_base::{
    ENV_DYING, ENV_FREE, ENV_GENERATION, ENV_NOT_RUNNABLE, ENV_RUNNABLE, ENV_RUNNING, ENV_TYPE_FS,
    ENV_TYPE_USER, ENV_WORDS, EXTRA_WORDS, EnvId, EnvType, Extra, FIRST_ENV_ID, Frame, NENV, Regs,
    Status,
};
use jos_ipc::Rendezvous;

/// An environment, or what a free slot keeps of its last one: its id. (MIT 6.828, inc/env.h, `struct Env`)
#[derive(Clone, Copy, Debug, PartialEq, Eq)]
pub struct Environment {
    pub id: EnvId,
    /// The id of the environment that made it, 0 for one that the kernel made.
    pub parent: EnvId,
    pub env_type: EnvType,
    pub status: Status,
    /// How many turns it has had, as a word.
    pub runs: u32,
    pub registers: Regs,
    /// What it keeps for a library outside of the kernel.
    pub extra: Extra,
    /// The frame of its directory.
    pub directory: Frame,
    /// Where it handles its page faults, 0 where it does not.
    pub upcall: u32,
    /// What it waits for, and what came.
    pub rendezvous: Rendezvous,
}

impl Environment {
    ghost use Rattle.jos_base.specs.Environments.{free_slot, new_slot, record_words};
    ghost use Rattle.jos_envs.specs.Slots.{slot_of};

    /// What a free slot keeps.
    pub(crate) fn free(id: EnvId) -> Environment
        ensures { slot_of result ≡ free_slot id.0 }
    {
        Environment {
            id,
            parent: EnvId(0),
            env_type: EnvType::User,
            status: Status::Free,
            runs: 0,
            registers: Regs {
                eax: 0,
                ecx: 0,
                edx: 0,
                ebx: 0,
                esp: 0,
                ebp: 0,
                esi: 0,
                edi: 0,
                eip: 0,
                eflags: 0,
            },
            extra: Extra([0; EXTRA_WORDS]),
            directory: Frame(0),
            upcall: 0,
            rendezvous: Rendezvous::none(),
        }
    }

    /// A new environment, which may not run yet.
    pub(crate) fn new(id: EnvId, parent: EnvId) -> Environment
        ensures { slot_of result ≡ new_slot id.0 parent.0 }
    {
        Environment {
            parent,
            status: Status::NotRunnable,
            ..Environment::free(id)
        }
    }

    /// The words that a user reads of it: its id, its parent's, its type, its status, its turns, the
    /// frame of its directory, its upcall, then whether it waits for a word, the sender that it waits for, where a page is
    /// to stand, the word that came, the sender's id and the bits of the page's entry, and three that are empty. (This
    /// system's own.)
    #[tactic(auto, unfolding(jos_base::specs::Environments::record_words))]
    pub fn record(&self) -> [u32; ENV_WORDS]
        ensures { result ≡ record_words (slot_of self.now) }
    {
        [
            self.id.0,
            self.parent.0,
            env_type_number(self.env_type),
            status_number(self.status),
            self.runs,
            self.directory.0,
            self.upcall,
            self.rendezvous.receiving as u32,
            self.rendezvous.wanted.0,
            self.rendezvous.destination,
            self.rendezvous.value,
            self.rendezvous.sender.0,
            self.rendezvous.perm,
            0,
            0,
            0,
        ]
    }
}

/// The id that comes after an id in its slot.
#[tactic(auto, unfolding(jos_base::specs::Environments::next_id))]
pub(crate) fn next_id(id: EnvId, slot: usize) -> EnvId
    requires { slot < NENV }
    ensures { result.0 ≡ next_id id.0 slot }
{
    let sum = id.0.wrapping_add(ENV_GENERATION);
    let raised = sum - sum % NENV;
    let generation = if 0 < raised && raised < 1 << 31 {
        raised
    } else {
        FIRST_ENV_ID
    };
    EnvId(generation + slot as u32)
}

/// The number of what an environment is there for. (MIT 6.828, lab 5, inc/env.h)
fn env_type_number(env_type: EnvType) -> u32
    ensures { result ≡ env_type_number env_type }
{
    match env_type {
        EnvType::User => ENV_TYPE_USER,
        EnvType::FileServer => ENV_TYPE_FS,
    }
}

/// The number of what an environment is doing. (MIT 6.828, inc/env.h)
fn status_number(status: Status) -> u32
    ensures { result ≡ status_number status }
{
    match status {
        Status::Free => ENV_FREE,
        Status::Dying => ENV_DYING,
        Status::Runnable => ENV_RUNNABLE,
        Status::Running => ENV_RUNNING,
        Status::NotRunnable => ENV_NOT_RUNNABLE,
    }
}

/// Whether an environment that is doing this waits for a turn.
pub(crate) fn is_runnable(status: Status) -> bool
    ensures { result ≡ is_runnable status }
{
    matches!(status, Status::Runnable)
}

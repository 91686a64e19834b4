//! spawn at one of these stages.

ghost use Rattle.std.specs.Prelude.{◌≡◌};
ghost use Rattle.lib_birth.specs.BirthStages as stages;

use crate::finishing::{ask_of_finishing, next_of_finishing};
use crate::undoing::{ask_of_undoing, next_of_undoing};
use jos_base::Called;
use lib_os::{FinishingStep, SERVICE_SPAWN, SpawnStep, UndoingStep, answer_of};
use lib_stage::{Ask, Next, Planned};

/// How far spawn is, whose child is to be born, or not. It answers the child's id, or the error by which it was refused something, negated.
/// (MIT 6.828, lab 5: lib/spawn.c)
#[derive(Clone, Copy, Debug)]
pub enum BirthStage {
    /// The child has the bytes of all segments, and is given the rest.
    Finishing { at: FinishingStep },
    /// Spawn was refused something, and undoes what it has done.
    Undoing { at: UndoingStep },
}

impl BirthStage {
    /// The stage that is kept as a step of spawn, if it is one of these.
    pub fn at_step(step: SpawnStep) -> Option<BirthStage>
        ensures { result ≡ stages.stage_at step }
    {
        match step {
            SpawnStep::Finishing { at } => Some(BirthStage::Finishing { at }),
            SpawnStep::Undoing { at } => Some(BirthStage::Undoing { at }),
            _ => None,
        }
    }
}

impl Planned for BirthStage {
    ghost use Rattle.lib_birth.specs.BirthStages.{births};

    ghost plan = { births };

    fn number(&self) -> u32 {
        SERVICE_SPAWN
    }

    fn ask(&self) -> Ask {
        match *self {
            BirthStage::Finishing { at } => ask_of_finishing(at),
            BirthStage::Undoing { at } => ask_of_undoing(at),
        }
    }

    fn next(&self, called: Called) -> Next {
        match *self {
            BirthStage::Finishing { at } => next_of_finishing(at, answer_of(called)),
            BirthStage::Undoing { at } => next_of_undoing(at, called),
        }
    }
}

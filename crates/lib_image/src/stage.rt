//! spawn at one of these stages.

ghost use Rattle.std.specs.Prelude.{◌≡◌};
ghost use Rattle.lib_image.specs.ImageStages as stages;

use crate::nexts::go_on;
use crate::opening::{ask_of_opening, next_of_opening};
use crate::reading::{ask_of_reading, next_of_reading};
use crate::testing::{ask_of_testing, tested};
use jos_base::Called;
use lib_os::{FilePart, OpeningStep, ReadStep, SERVICE_SPAWN, SpawnStep, TestingStep, answer_of};
use lib_stage::{Ask, Next, Planned};

/// How far spawn is with its file. What it is refused then, it answers once it has undone what it has done: `E_MAX_OPEN` negated where no descriptor
/// is free, `E_NOT_EXEC` negated where the file is no image, and else the error of which the kernel or the file server tells.
/// (MIT 6.828, lab 5: lib/spawn.c)
#[derive(Clone, Copy, Debug)]
pub enum ImageStage {
    /// It has the file opened.
    Opening { at: OpeningStep },
    /// It reads a part of the file.
    Reading { part: FilePart, at: ReadStep },
    /// It tests whether the file is an image.
    Testing { at: TestingStep },
}

impl ImageStage {
    /// The stage that is kept as a step of spawn, if it is one of these.
    pub fn at_step(step: SpawnStep) -> Option<ImageStage>
        ensures { result ≡ stages.stage_at step }
    {
        match step {
            SpawnStep::Opening { at } => Some(ImageStage::Opening { at }),
            SpawnStep::Reading { part, at } => Some(ImageStage::Reading { part, at }),
            SpawnStep::Testing { at } => Some(ImageStage::Testing { at }),
            _ => None,
        }
    }
}

impl Planned for ImageStage {
    ghost use Rattle.lib_image.specs.ImageStages.{imaging};

    ghost plan = { imaging };

    fn number(&self) -> u32 {
        SERVICE_SPAWN
    }

    fn ask(&self) -> Ask {
        match *self {
            ImageStage::Opening { at } => ask_of_opening(at),
            ImageStage::Reading { part, at } => ask_of_reading(part, at),
            ImageStage::Testing { at } => ask_of_testing(at),
        }
    }

    fn next(&self, called: Called) -> Next {
        let word = answer_of(called);
        match *self {
            ImageStage::Opening { at } => next_of_opening(at, word),
            ImageStage::Reading { part, at } => next_of_reading(part, at, word),
            ImageStage::Testing { at } => go_on(tested(at, word)),
        }
    }
}

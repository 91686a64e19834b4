//! spawn: what it asks at each step, and what it does next, as the part of it says in which it is.

ghost use Rattle.std.specs.Prelude.{◌≡◌};
ghost use Rattle.lib_spawn.specs.SpawnParts as parts;

use jos_base::Called;
use lib_birth::BirthStage;
use lib_child::Bearing;
use lib_given::{Given, SpawnPath};
use lib_image::ImageStage;
use lib_os::{SERVICE_SPAWN, SpawnStep, Step};
use lib_stage::{Ask, Next, Planned};

/// spawn(path, argv), in one of its parts. It answers the child's id.
/// (MIT 6.828, lab 5: lib/spawn.c)
#[derive(Clone, Copy)]
pub enum Spawn {
    /// It takes its path.
    Path(SpawnPath),
    /// It takes the strings that the program gives.
    Given(Given),
    /// It reads the file, and tests whether that is an image.
    Image(ImageStage),
    /// It makes the child.
    Child(Bearing),
    /// The child is about to be born; or it was refused something, and undoes what it has done.
    Birth(BirthStage),
}

/// spawn at a step behind its path.
fn behind_path(argv: u32, step: SpawnStep) -> Option<Spawn>
    ensures { result ≡ parts.behind_path argv step }
{
    match step {
        SpawnStep::Given { at } => Some(Spawn::Given(Given { argv, at })),
        SpawnStep::Opening { .. } | SpawnStep::Reading { .. } | SpawnStep::Testing { .. } => {
            match ImageStage::at_step(step) {
                Some(image) => Some(Spawn::Image(image)),
                None => None,
            }
        }
        SpawnStep::Bearing { .. } => match Bearing::at_step(step) {
            Some(child) => Some(Spawn::Child(child)),
            None => None,
        },
        SpawnStep::Finishing { .. } | SpawnStep::Undoing { .. } => {
            match BirthStage::at_step(step) {
                Some(birth) => Some(Spawn::Birth(birth)),
                None => None,
            }
        }
    }
}

impl Spawn {
    /// spawn at a step, if it has this step.
    pub fn at_step(path: u32, argv: u32, step: Step) -> Option<Spawn>
        ensures { result ≡ parts.spawn_at path argv step }
    {
        match step {
            Step::Spawning { at } => behind_path(argv, at),
            _ => match SpawnPath::at_step(path, step) {
                Some(part) => Some(Spawn::Path(part)),
                None => None,
            },
        }
    }
}

impl Planned for Spawn {
    ghost use Rattle.lib_spawn.specs.SpawnParts.{spawning};

    ghost plan = { spawning };

    fn number(&self) -> u32 {
        SERVICE_SPAWN
    }

    fn ask(&self) -> Ask {
        match self {
            Spawn::Path(path) => path.ask(),
            Spawn::Given(given) => given.ask(),
            Spawn::Image(image) => image.ask(),
            Spawn::Child(child) => child.ask(),
            Spawn::Birth(birth) => birth.ask(),
        }
    }

    fn next(&self, called: Called) -> Next {
        match self {
            Spawn::Path(path) => path.next(called),
            Spawn::Given(given) => given.next(called),
            Spawn::Image(image) => image.next(called),
            Spawn::Child(child) => child.next(called),
            Spawn::Birth(birth) => birth.next(called),
        }
    }
}

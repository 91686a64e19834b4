//! spawn, where it was refused something: what it asks at each stage, and what it does next.

ghost use Rattle.std.specs.Prelude.{◌≡◌};
ghost use Rattle.lib_stage.specs.Asks.{IsAligned};
ghost use Rattle.lib_birth.specs.UndoingStages as stages;

use jos_base::{Called, SYS_ENV_DESTROY, UTEMP};
use lib_fd::{ask_drop_at, descriptor_va};
use lib_image::{go_on, show};
use lib_os::{DESCRIPTORS, SPAWN_GIVEN, SPAWN_STACK, SpawnStep, UndoingStep};
use lib_stage::{Ask, Next};

/// What is asked at a stage.
pub(crate) fn ask_of_undoing(at: UndoingStep) -> Ask
    ensures is { result ≡ stages.undoing_asks at }
    ensures aligned { IsAligned result }
{
    match at {
        UndoingStep::DestroyingChild { child, .. } => Ask::System {
            number: SYS_ENV_DESTROY,
            args: [child, 0, 0, 0, 0],
        },
        UndoingStep::ClosingFile { fd, .. } => ask_drop_at(descriptor_va(fd)),
        UndoingStep::UndoingStack { .. } => ask_drop_at(SPAWN_STACK),
        UndoingStep::UndoingGiven { .. } => ask_drop_at(SPAWN_GIVEN),
        UndoingStep::UndoingPath { .. } => ask_drop_at(UTEMP),
    }
}

/// The child is gone: the descriptor of the file is next, if this is one.
fn closed_next(fd: u32, error: u32) -> SpawnStep
    ensures { result ≡ stages.closed_next fd error }
{
    let at = if fd < DESCRIPTORS as u32 {
        UndoingStep::ClosingFile { fd, error }
    } else {
        UndoingStep::UndoingStack { error }
    };
    SpawnStep::Undoing { at }
}

/// What is done next at a stage, by what came of the call.
pub(crate) fn next_of_undoing(at: UndoingStep, called: Called) -> Next
    ensures { result ≡ stages.undoing_next at called }
{
    match at {
        UndoingStep::DestroyingChild {
            fd,
            child: _,
            error,
        } => match called {
            Called::Ended => Next::Gone,
            Called::Answered(_) | Called::Blocked => show(closed_next(fd, error)),
        },
        UndoingStep::ClosingFile { fd: _, error } => show(SpawnStep::Undoing {
            at: UndoingStep::UndoingStack { error },
        }),
        UndoingStep::UndoingStack { error } => go_on(SpawnStep::Undoing {
            at: UndoingStep::UndoingGiven { error },
        }),
        UndoingStep::UndoingGiven { error } => go_on(SpawnStep::Undoing {
            at: UndoingStep::UndoingPath { error },
        }),
        UndoingStep::UndoingPath { error } => Next::Answer(error),
    }
}

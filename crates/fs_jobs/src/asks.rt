//! What a job asks at a place, and where it goes by the reply.

ghost use Rattle.std.specs.Prelude.{◌≡◌, ◌<◌};
ghost use Rattle.fs_jobs.specs.TreeTests as tests;

use crate::place::{Changed, FilePlace, Job, TreePlace, TreeState, WalkPlace};
use crate::tests::negated;

/// What is asked at a place: a byte or a word of the disk, at a place of it, or a byte of the request page.
#[derive(Clone, Copy)]
pub enum TreeAsk {
    Load { at: u32 },
    LoadByte { at: u32 },
    Store { at: u32, word: u32 },
    StoreByte { at: u32, byte: u32 },
    Request { at: u32 },
    HandBack { at: u32, byte: u32 },
}

/// Where a job goes: on, or to its end with an answer.
#[derive(Clone, Copy)]
pub enum TreeNext {
    GoOn(TreeState),
    Answer(u32),
}

/// The job goes on at a place of its way.
pub fn walk_on(state: TreeState, place: WalkPlace) -> TreeNext
    ensures { result ≡ tests.walk_on state place }
{
    TreeNext::GoOn(TreeState {
        place: TreePlace::Walking(place),
        ..state
    })
}

/// It goes on with a record whose blocks are read or change.
pub fn change_on(state: TreeState, job: Job, changed: Changed, place: FilePlace) -> TreeNext
    ensures { result ≡ tests.change_on state job changed place }
{
    TreeNext::GoOn(TreeState {
        job,
        place: TreePlace::Changing(changed, place),
        ..state
    })
}

/// It is refused.
pub fn refused(error: u32) -> TreeNext
    requires { 0 < error }
    ensures { result ≡ tests.refused error }
{
    TreeNext::Answer(negated(error))
}

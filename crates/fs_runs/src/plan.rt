//! Where a job begins, what it asks where it stands, and where it goes by the reply.

ghost use Rattle.std.specs.Prelude.{◌≡◌, true};
ghost use Rattle.fs_jobs.specs.TreeBounds.{is_bounded};
ghost use Rattle.fs_runs.specs.TreePlans as plans;
ghost use Rattle.fs_runs.specs.TreeRuns.{begun_with};

use fs_changes::{change_ask, change_next};
use fs_jobs::{Job, TreeAsk, TreeNext, TreePlace, TreeState, WalkPlace};
use fs_walks::{walk_ask, walk_next};

/// Where a job begins: paths are read first, and else the super block.
pub fn begin(job: Job) -> TreeState
    ensures { result ≡ begun_with job }
{
    let place = match job {
        Job::Open { .. } | Job::Find => WalkPlace::Path { at: 0, run: 0 },
        Job::Remove { .. }
        | Job::Read { .. }
        | Job::Write { .. }
        | Job::Create { .. }
        | Job::SetSize { .. }
        | Job::Stat { .. }
        | Job::Size { .. } => WalkPlace::Magic,
    };
    TreeState {
        job,
        count: 0,
        place: TreePlace::Walking(place),
    }
}

/// What a job asks where it stands.
pub fn ask_at(state: TreeState) -> TreeAsk
    requires { is_bounded state ≡ true }
    ensures { result ≡ plans.ask_at state }
{
    match state.place {
        TreePlace::Walking(place) => walk_ask(place),
        TreePlace::Changing(changed, place) => change_ask(state.job, changed, place),
    }
}

/// Where it goes by the reply.
pub fn next_at(state: TreeState, word: u32) -> TreeNext
    requires { is_bounded state ≡ true }
    ensures { result ≡ plans.next_at state word }
{
    match state.place {
        TreePlace::Walking(place) => walk_next(state, place, word),
        TreePlace::Changing(changed, place) => change_next(state, changed, place, word),
    }
}

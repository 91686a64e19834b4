//! What the run of a job is. Nothing here is to be run: each clause is a theorem.

ghost use Rattle.fs_runs.specs.TreeRuns.{CallsAreLeft, FindsAreLooks, JobsAreActs, OpensAreFound, RunsGoOn, SizesAreTold, WaysGoOn};

/// Each job's run ends soon, its answer is the act's, what it has stored is exactly what the act stores, what it hands back stands at the begin
/// of the page, and the rest of the page is as it was.
#[tactic(auto, using(crate::proofs::JobsWhole::all_jobs_are_acts))]
pub fn jobs_are_acts()
    ensures { JobsAreActs }
{}

/// Where a path leads, for one who opens or removes a file: the place of the file's record, or the act's error. Nothing is stored.
#[tactic(auto, using(crate::proofs::JobsWhole::all_finds_are_looks))]
pub fn finds_are_looks()
    ensures { FindsAreLooks }
{}

/// How many bytes a file has, by its record. Nothing is stored.
#[tactic(auto, using(crate::proofs::JobsWhole::all_sizes_are_told))]
pub fn sizes_are_told()
    ensures { SizesAreTold }
{}

/// Behind an open that answers 0 its path leads to a file, on the disk and in its tree.
pub fn opens_are_found()
    ensures { OpensAreFound }
{}

/// A job that is on its way makes a lawful step, behind which it is on its way with one step fewer to come, or has acted.
pub fn ways_go_on()
    ensures { WaysGoOn }
{}

/// A job that runs towards an answer makes a lawful step, behind which it runs towards the same with one step fewer to come, or has
/// answered it.
pub fn runs_go_on()
    ensures { RunsGoOn }
{}

/// Whatever words are read, a step of a job at a record leaves as many calls fewer as it is itself; where a change of the record's blocks begins,
/// that adds what it weighs.
pub fn calls_are_left()
    ensures { CallsAreLeft }
{}

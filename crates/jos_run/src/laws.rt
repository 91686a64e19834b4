//! What turns of the kernel, and the disk, are to the abstract system. Nothing here is to be run: each clause is a theorem.

ghost use Rattle.jos_run.specs.RunLaws.{ChoicesAgree, EndsAgree, RunsBegin, TurnsBegin, StepsLeadOn, TurnsEnd, RunsFit, FilesStand};

/// Between two turns the kernel chooses the slot that the abstract system chooses, and ends where that does.
pub fn turns_are_chosen_alike()
    ensures choice { ChoicesAgree }
    ensures end { EndsAgree }
{}

/// A run of the kernel goes on, from turn to turn and step to step, as the abstract system's run does, and its turns fit the
/// schedule.
pub fn runs_go_on_alike()
    ensures run_begins { RunsBegin }
    ensures turn_begins { TurnsBegin }
    ensures step { StepsLeadOn }
    ensures turn_ends { TurnsEnd }
    ensures fit { RunsFit }
{}

/// Where the kernel's state stands for an abstract one beside the disk that the host tells, and the file server has no request whose act is not
/// made, the files are those of the disk as its cache holds it.
pub fn files_are_those_of_the_disk()
    ensures { FilesStand }
{}

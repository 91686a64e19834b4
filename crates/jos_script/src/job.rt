//! The jobs of a line.

ghost use Rattle.std.specs.Prelude.{◌≡◌, ◌+◌, ◌<◌, ◌≤◌, Some, None, List, ℕ, Bool, if◌then◌else◌};
ghost use Rattle.jos_script.specs.ShellScript.{next, answered, new_job, closes_before, closes_both, goes_on, forked, piped};
ghost use Rattle.jos_script.specs.ScriptPlaces.{command_at, told, end_of, runs_from, job_state, rest_of, rest_behind, waits_behind, behind_at, given_up, next_script};

use crate::answer::{Answer, Ends, count_of, error_of};
use crate::call::ShellCall;
use crate::child::begin_child;
use crate::place::{Behind, BehindStep, Job, Next, Place};
use crate::words::is_piped;
use jos_shell::COMMANDS_MAX;

/// Where a line ends.
pub(crate) fn end(last: bool) -> Next
    ensures { (line : List ℕ) → next_script line result ≡ end_of last }
{
    if last {
        Next::At(Place::Exit)
    } else {
        Next::ReadLine
    }
}

/// The next command begins, with the end by which it reads what the one before writes.
pub(crate) fn begin(line: &[u8], behind: Behind, before: Option<u8>) -> Next
    ensures { next_script line.now result
        ≡ rest_behind line.now behind (Some (record { before = before; children = behind.children.items })) }
{
    let Some(piped) = is_piped(line, behind.next) else {
        return end(behind.last);
    };
    let job = Job {
        number: behind.next,
        last: behind.last,
        before,
        children: behind.children,
    };
    if piped {
        Next::At(Place::Piping(job))
    } else {
        Next::At(Place::Forking(job, None))
    }
}

/// The children are waited for, and then the next job begins.
#[tactic(auto, unfolding(crate::specs::ShellScript::waits))]
fn wait(line: &[u8], mut behind: Behind) -> Next
    ensures { next_script line.now result ≡ waits_behind line.now behind }
{
    if behind.children.is_empty() {
        return begin(line, behind, None);
    }
    let id = behind.children.remove(0);
    Next::At(Place::Behind(behind, BehindStep::Wait { id }))
}

/// Behind a command that has got its child and has closed what it read from: the next one, or the end of the job.
#[tactic(auto, unfolding(crate::specs::ShellScript::goes_on))]
fn go_on(line: &[u8], behind: Behind, ends: Option<Ends>) -> Next
    ensures { next_script line.now result ≡ goes_on ends behind.children.items (rest_behind line.now behind) }
{
    match ends {
        Some(ends) => Next::At(Place::Behind(behind, BehindStep::CloseWriting { ends })),
        None => wait(line, behind),
    }
}

/// Behind a command that has got its child.
#[tactic(auto, unfolding(crate::specs::ShellScript::closes_before))]
fn release(line: &[u8], behind: Behind, before: Option<u8>, ends: Option<Ends>) -> Next
    ensures { next_script line.now result
        ≡ closes_before before (goes_on ends behind.children.items (rest_behind line.now behind)) }
{
    match before {
        Some(before) => Next::At(Place::Behind(behind, BehindStep::CloseBefore { before, ends })),
        None => go_on(line, behind, ends),
    }
}

/// Both ends of the last pipe of a job that is given up are closed.
#[tactic(auto, unfolding(crate::specs::ShellScript::closes_both))]
fn drop_both(line: &[u8], behind: Behind, ends: Option<Ends>) -> Next
    ensures { next_script line.now result ≡ closes_both ends (waits_behind line.now behind) }
{
    match ends {
        Some(ends) => Next::At(Place::Behind(behind, BehindStep::DropReading { ends })),
        None => wait(line, behind),
    }
}

/// All ends that a job holds which is given up are closed.
#[tactic(auto, unfolding(crate::specs::ShellScript::closes_before))]
fn drop_all(line: &[u8], behind: Behind, before: Option<u8>, ends: Option<Ends>) -> Next
    ensures { next_script line.now result ≡ closes_before before (closes_both ends (waits_behind line.now behind)) }
{
    match before {
        Some(before) => Next::At(Place::Behind(behind, BehindStep::DropBefore { before, ends })),
        None => drop_both(line, behind, ends),
    }
}

/// The number of the first command of the next job, for a command of a job that is given up.
fn next_job(line: &[u8], number: u8) -> u8
    requires { number < COMMANDS_MAX }
    ensures next { (last : Bool) → runs_from line.now last result (Some new_job)
        ≡ runs_from line.now last (number + 1) (if (command_at line.now number).piped then None else Some new_job) }
    ensures behind { number ≤ result }
    ensures within { result ≤ COMMANDS_MAX }
{
    let mut next = number;
    while let Some(piped) = is_piped(line, next) {
        next += 1;
        if !piped {
            return next;
        }
    }
    next
}

/// Behind the line that tells why a job is given up.
pub(crate) fn give_up(line: &[u8], job: Job, ends: Option<Ends>) -> Next
    ensures { next_script line.now result ≡ given_up line.now job ends }
{
    let behind = Behind {
        next: next_job(line, job.number),
        last: job.last,
        children: job.children,
    };
    drop_all(line, behind, job.before, ends)
}

/// Behind the making of a pipe.
#[tactic(auto, unfolding(crate::specs::ShellScript::gives_up))]
pub(crate) fn pipe_answered(line: &[u8], job: Job, answer: Answer) -> Next
    ensures { next_script line.now result
        ≡ piped line.now (command_at line.now job.number) (job_state job) (rest_of line.now job) answer }
{
    match answer {
        Answer::Made(ends) => Next::At(Place::Forking(job, Some(ends))),
        _ => Next::At(Place::GivingUp {
            job,
            ends: None,
            error: error_of(answer.word()),
        }),
    }
}

/// Behind a fork, in the shell and in the child.
#[tactic(auto, unfolding(crate::specs::ShellScript::forked, crate::specs::ShellScript::gives_up))]
pub(crate) fn fork_answered(line: &[u8], job: Job, ends: Option<Ends>, word: u32) -> Next
    ensures { next_script line.now result
        ≡ forked line.now (command_at line.now job.number) (job_state job) ends (rest_of line.now job) word }
{
    if word == 0 {
        return Next::At(Place::Child {
            number: job.number,
            step: begin_child(line, job.number, job.before, ends),
        });
    }
    match count_of(word) {
        Ok(id) => {
            let mut children = job.children;
            children.push(id);
            let behind = Behind {
                next: job.number + 1,
                last: job.last,
                children,
            };
            release(line, behind, job.before, ends)
        }
        Err(error) => Next::At(Place::GivingUp { job, ends, error }),
    }
}

/// The call that the shell makes next behind a command.
pub(crate) fn behind_call(step: BehindStep) -> ShellCall
    ensures { (line : List ℕ) (behind : Behind) → told line result ≡ next (behind_at line behind step) }
{
    match step {
        BehindStep::CloseBefore { before, .. } => ShellCall::Close(before as u32),
        BehindStep::CloseWriting { ends } => ShellCall::Close(ends.writing as u32),
        BehindStep::DropBefore { before, .. } => ShellCall::Close(before as u32),
        BehindStep::DropReading { ends } => ShellCall::Close(ends.reading as u32),
        BehindStep::DropWriting { writing } => ShellCall::Close(writing as u32),
        BehindStep::Wait { id } => ShellCall::Wait(id),
    }
}

/// Where the shell goes on behind that call.
pub(crate) fn behind_after(line: &[u8], behind: Behind, step: BehindStep) -> Next
    ensures { (answer : Answer) → next_script line.now result ≡ answered (behind_at line.now behind step) answer }
{
    match step {
        BehindStep::CloseBefore { ends, .. } => go_on(line, behind, ends),
        BehindStep::CloseWriting { ends } => begin(line, behind, Some(ends.reading)),
        BehindStep::DropBefore { ends, .. } => drop_both(line, behind, ends),
        BehindStep::DropReading { ends } => Next::At(Place::Behind(
            behind,
            BehindStep::DropWriting {
                writing: ends.writing,
            },
        )),
        BehindStep::DropWriting { .. } => wait(line, behind),
        BehindStep::Wait { .. } => wait(line, behind),
    }
}

//! The command line of `jos`: MIT 6.828's teaching kernel JOS and the modelled 80386 that it runs on, over files.
//!
//! `top` (in `answer`) does what the words of the command line ask, over any host, and `answer_texts` (in `texts`)
//! does so for the words as std hands them out. `answer_arguments` gives what the program exits with. What `top`
//! answers is proved: it is what `specs/Answer.antt` says of the words, the files and the input, by the run that
//! `jos_kernel` defines; and for `run` it is what `specs/RunAnswers.antt` says, by the abstract system that `lib_os`
//! defines.
#![tactic(auto)]

ghost use Rattle.std.specs.Prelude.{◌≡◌};
ghost use Rattle.std.specs.Process.{exit_status};
ghost use Rattle.jos_host.specs.Frames.{around};
ghost use Rattle.jos_cli.specs.declared.outcome.Outcome.{Outcome};
ghost use Rattle.jos_cli.specs.Outcomes.{AnswersCommand, HasCommandCause, HasStatusCause, IsUsageCase, LeavesInput, status_of};
ghost use Rattle.jos_cli.specs.FaultNotes.{IfHostFault, FaultIsNoted};
ghost use Rattle.jos_cli.specs.Commands.{command_of};
ghost use Rattle.jos_cli.specs.FilesAsked.{AsksOnly};
ghost use Rattle.jos_cli.specs.FilesLeft.{LeavesFiles, LeavesGoodDisk};
ghost use Rattle.jos_cli.specs.Given.{given_words};
ghost use Rattle.jos_cli.specs.Notes.{IsNoted};

mod answer;
mod disks;
mod files;
mod generating;
mod input;
mod limits;
mod loading;
mod making;
mod notes;
mod outcome;
mod programs;
mod running;
mod texts;

pub use crate::answer::top;
pub use crate::outcome::{End, Outcome, Refusal, Report, Stopped, Trace, TrapLine, Turn, Which};
use crate::texts::answer_texts;
use jos_host::Host;
use std::alloc::Global;
use std::env::Args;
use std::io;
use std::process::ExitCode;

/// What the program exits with.
fn exit_code(outcome: &Outcome) -> ExitCode
    ensures { exit_status result ≡ status_of outcome.now }
{
    ExitCode::from(outcome.status())
}

/// Does what the words ask that std hands out, and gives what the program exits with.
pub fn answer_arguments<H: Host>(alloc: Global, read: io::Result<Args>, host: &mut H) -> ExitCode
    // It is the exit status of the outcome that these words have.
    ensures answered { (outcome : Outcome) × (exit_status result ≡ status_of outcome)
        × AnswersCommand (around H.files host.old host.new) (H.input host.old) (command_of (given_words read)) outcome (around H.console host.old host.new)
        × IsNoted (given_words read) outcome (around H.notes host.old host.new)
        × HasCommandCause (command_of (given_words read)) (around H.faults host.old host.new) outcome
        × IsUsageCase (command_of (given_words read)) outcome
        × IfHostFault outcome (FaultIsNoted (around H.files host.old host.new) (H.input host.old) (given_words read) (around H.faults host.old host.new)
        (around H.console host.old host.new) (around H.notes host.old host.new))
        × LeavesFiles (command_of (given_words read)) outcome (around H.files host.old host.new)
        × LeavesGoodDisk (command_of (given_words read)) outcome (around H.files host.old host.new)
        × LeavesInput (command_of (given_words read)) outcome (around H.input host.old host.new) }
    ensures cause { HasStatusCause (around H.faults host.old host.new) (exit_status result) }
    ensures asked { AsksOnly (command_of (given_words read)) (around H.asked host.old host.new) }
{
    exit_code(&answer_texts(alloc, read, host))
}

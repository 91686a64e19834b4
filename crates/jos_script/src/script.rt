//! Along the script of a line.

ghost use Rattle.std.specs.Prelude.{◌≡◌, ◌==◌};
ghost use Rattle.jos_script.specs.ShellScript.{next, answered, script, byte_read};
ghost use Rattle.jos_script.specs.ScriptPlaces.{told, end_of, script_at, next_script, read_script};

use crate::answer::Answer;
use crate::call::ShellCall;
use crate::child::{child_after, child_call};
use crate::job::{begin, behind_after, behind_call, end, fork_answered, give_up, pipe_answered};
use crate::numbers::NEWLINE;
use crate::place::{Behind, Next, Place, Read};
use crate::text::Text;
use arrayvec::ArrayVec;
use jos_shell::{LINE_MAX, parse_line};

/// The front of a line's script. The last line is that behind which no byte comes: the shell ends when that is done.
#[tactic(auto, unfolding(crate::specs::ShellScript::script))]
pub fn start(line: &[u8], last: bool) -> Next
    ensures { next_script line.now result ≡ script line.now (end_of last) }
{
    let behind = Behind {
        next: 0,
        last,
        children: ArrayVec::new(),
    };
    match parse_line(line) {
        Ok(_) => begin(line, behind, None),
        Err(_) => Next::At(Place::Refused { last }),
    }
}

/// How the reading of a line goes on by what the read of a byte answers. Of the line so much is given as was kept.
#[tactic(auto, unfolding(crate::specs::ShellScript::byte_read))]
pub fn read_on(line: &[u8], answer: Answer) -> Read
    ensures { read_script line.now result ≡ byte_read line.now answer }
{
    match answer {
        Answer::Byte(NEWLINE) => Read::Line(start(line, false)),
        Answer::Byte(_) if line.len() > LINE_MAX => Read::Pass,
        Answer::Byte(byte) => Read::Keep(byte),
        _ => Read::Line(start(line, true)),
    }
}

/// The call at a place of the script of a line.
pub fn next_call(line: &[u8], place: &Place) -> ShellCall
    ensures { told line.now result ≡ next (script_at line.now place.now) }
{
    match place {
        Place::Refused { .. } => ShellCall::Print(Text::SyntaxError),
        Place::Piping(_) => ShellCall::Pipe,
        Place::Forking(..) => ShellCall::Fork,
        Place::GivingUp { error, .. } => ShellCall::Print(Text::Error(*error)),
        Place::Behind(_, step) => behind_call(*step),
        Place::Child { number, step } => child_call(line, *number, *step),
        Place::Exit => ShellCall::Exit,
    }
}

/// Where the shell or its child goes on when the call at a place has answered. There is nothing behind the end.
pub fn after(line: &[u8], place: Place, answer: Answer) -> Next
    ensures { next_script line.now result ≡ answered (script_at line.now place) answer }
{
    match place {
        Place::Refused { last } => end(last),
        Place::Piping(job) => pipe_answered(line, job, answer),
        Place::Forking(job, ends) => fork_answered(line, job, ends, answer.word()),
        Place::GivingUp { job, ends, .. } => give_up(line, job, ends),
        Place::Behind(behind, step) => behind_after(line, behind, step),
        Place::Child { number, step } => Next::At(Place::Child {
            number,
            step: child_after(line, number, step, answer),
        }),
        Place::Exit => Next::At(Place::Exit),
    }
}

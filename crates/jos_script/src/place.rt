//! Where the shell stands in its script of a line.

ghost use Rattle.std.specs.Prelude.{◌≤◌, ◌<◌};
ghost use Rattle.arrayvec.specs.ArrayVec.{array_vec_len};
ghost use Rattle.jos_shell.specs.declared.numbers.TheConstants.{COMMANDS_MAX};

use crate::answer::Ends;
use crate::child::ChildStep;
use arrayvec::ArrayVec;
use jos_shell::COMMANDS_MAX;

/// A command of a job that gets a child.
#[derive(Drop)]
pub struct Job {
    /// The command's number in the line.
    pub number: u8,
    /// Whether the line is the last.
    pub last: bool,
    /// The reading end of the pipe behind the command before.
    pub before: Option<u8>,
    /// The ids of the job's children.
    pub children: ArrayVec<u32, COMMANDS_MAX>,
    ghost few: { array_vec_len children ≤ number },
    ghost within: { number < COMMANDS_MAX },
}

/// What follows behind a command that has got its child, or behind a job that is given up.
#[derive(Drop)]
pub struct Behind {
    /// The number of the next command.
    pub next: u8,
    /// Whether the line is the last.
    pub last: bool,
    /// The ids of the job's children that are not waited for yet.
    pub children: ArrayVec<u32, COMMANDS_MAX>,
    ghost few: { array_vec_len children ≤ next },
    ghost within: { next ≤ COMMANDS_MAX },
}

/// Where the shell stands there.
#[derive(Clone, Copy)]
pub enum BehindStep {
    /// The reading end of the pipe behind the command before is closed, and then the writing end of the pipe in front of the next.
    CloseBefore { before: u8, ends: Option<Ends> },
    /// That writing end is closed.
    CloseWriting { ends: Ends },
    /// The job is given up: these ends are closed.
    DropBefore { before: u8, ends: Option<Ends> },
    /// The job is given up: both ends of the last pipe are closed.
    DropReading { ends: Ends },
    /// The job is given up: the writing end of the last pipe is closed.
    DropWriting { writing: u8 },
    /// A child is waited for, and then the others.
    Wait { id: u32 },
}

/// Where the shell, or a child that it made, stands in the script of a line.
#[derive(Drop)]
pub enum Place {
    /// It prints that the line can't be read.
    Refused {
        last: bool,
    },
    /// A pipe is made, in front of the next command.
    Piping(Job),
    /// The child is made, with the ends of the pipe in front of the next command, where there is one.
    Forking(Job, Option<Ends>),
    /// The job is given up: the error with this number is printed, and then the ends of pipes are closed that are held.
    GivingUp {
        job: Job,
        ends: Option<Ends>,
        error: u32,
    },
    /// Behind a command, or a job that is given up.
    Behind(Behind, BehindStep),
    /// In the child of the command with this number.
    Child {
        number: u8,
        step: ChildStep,
    },
    /// It ends.
    Exit,
}

/// How the shell goes on.
#[derive(Drop)]
pub enum Next {
    /// The line is done. A byte of the next one is read, of which none has come.
    ReadLine,
    /// At a place of the line's script.
    At(Place),
}

/// How the reading of a line goes on.
#[derive(Drop)]
pub enum Read {
    /// The byte is put behind those that are kept of the line.
    Keep(u8),
    /// The byte is dropped: of a line that is too long enough is kept.
    Pass,
    /// The line has ended.
    Line(Next),
}

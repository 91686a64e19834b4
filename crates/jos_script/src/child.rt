//! The child of a command.

ghost use Rattle.std.specs.Prelude.{◌≡◌, ℕ, List};
ghost use Rattle.jos_script.specs.ShellScript.{next, answered, finishes, word_in, rooted, program, opened, not_run, spawned, spawns};
ghost use Rattle.jos_script.specs.ShellScript.{child, to_pipe, files_then_spawn, output_then_spawn};
ghost use Rattle.jos_script.specs.ScriptPlaces.{command_at, told, path_bytes, mode_of, descriptor_of, behind_file, child_script};

use crate::answer::{Answer, Ends, count_of};
use crate::call::{Path, ShellCall};
use crate::numbers::{DESCRIPTORS, INPUT_MODE, OUTPUT_MODE, SLASH};
use crate::text::Text;
use crate::words::{command_at, word};
use fs_layout::Span;
use jos_base::E_NOT_FOUND;

/// A descriptor that is redirected to a file.
#[derive(Clone, Copy)]
pub enum Redirection {
    /// Descriptor 0.
    Input,
    /// Descriptor 1.
    Output,
}

/// Where the child of a command stands.
#[derive(Clone, Copy)]
pub enum ChildStep {
    /// The pipe behind the command before becomes its input, and then the pipe in front of the next one, where there is one, its
    /// output.
    JoinBefore {
        before: u8,
        ends: Option<Ends>,
    },
    /// That descriptor of the pipe is closed.
    CloseBefore {
        before: u8,
        ends: Option<Ends>,
    },
    /// The pipe in front of the next command becomes its output.
    JoinPipe {
        ends: Ends,
    },
    /// The descriptor of that pipe's reading end is closed.
    CloseReading {
        ends: Ends,
    },
    /// And that of its writing end.
    CloseWriting {
        writing: u8,
    },
    /// A file is opened.
    OpenFile {
        redirection: Redirection,
        file: Span,
    },
    /// It becomes the input or the output.
    JoinFile {
        redirection: Redirection,
        fd: u32,
    },
    /// The descriptor that it was opened with is closed.
    CloseFile {
        redirection: Redirection,
        fd: u32,
    },
    /// The program is started.
    Spawn,
    /// The descriptors from this one on are closed, and then the program is waited for.
    CloseAll {
        fd: u8,
        id: u32,
    },
    /// A text is printed, and then it ends.
    Print(Text),
    /// It ends.
    Exit,
}

impl Redirection {
    /// The mode in which its file is opened.
    fn mode(self) -> u32
        ensures { result ≡ mode_of self }
    {
        match self {
            Redirection::Input => INPUT_MODE,
            Redirection::Output => OUTPUT_MODE,
        }
    }

    /// The descriptor that is redirected.
    fn descriptor(self) -> u32
        ensures { result ≡ descriptor_of self }
    {
        match self {
            Redirection::Input => 0,
            Redirection::Output => 1,
        }
    }
}

/// The output is redirected, and then the program is started.
#[tactic(auto, unfolding(crate::specs::ShellScript::redirects))]
fn output(line: &[u8], number: u8) -> ChildStep
    ensures { child_script line.now number result ≡ output_then_spawn line.now (command_at line.now number) }
{
    match command_at(line, number).to {
        Some(file) => ChildStep::OpenFile {
            redirection: Redirection::Output,
            file,
        },
        None => ChildStep::Spawn,
    }
}

/// The input is redirected, and then the output.
#[tactic(auto, unfolding(crate::specs::ShellScript::redirects))]
fn input(line: &[u8], number: u8) -> ChildStep
    ensures { child_script line.now number result ≡ files_then_spawn line.now (command_at line.now number) }
{
    match command_at(line, number).from {
        Some(file) => ChildStep::OpenFile {
            redirection: Redirection::Input,
            file,
        },
        None => output(line, number),
    }
}

/// The pipe in front of the next command becomes the output.
#[tactic(auto, unfolding(crate::specs::ShellScript::to_pipe))]
fn join_pipe(line: &[u8], number: u8, ends: Option<Ends>) -> ChildStep
    ensures { child_script line.now number result ≡ to_pipe ends (files_then_spawn line.now (command_at line.now number)) }
{
    match ends {
        Some(ends) => ChildStep::JoinPipe { ends },
        None => input(line, number),
    }
}

/// Where the child of a command begins.
#[tactic(auto, unfolding(crate::specs::ShellScript::child, crate::specs::ShellScript::from_pipe))]
pub(crate) fn begin_child(
    line: &[u8],
    number: u8,
    before: Option<u8>,
    ends: Option<Ends>,
) -> ChildStep
    ensures { child_script line.now number result ≡ child line.now (command_at line.now number) before ends }
{
    match before {
        Some(before) => ChildStep::JoinBefore { before, ends },
        None => join_pipe(line, number, ends),
    }
}

/// Behind the opening of a file.
fn file_opened(
    line: &[u8],
    number: u8,
    redirection: Redirection,
    file: Span,
    word: u32,
) -> ChildStep
    ensures { child_script line.now number result
        ≡ opened line.now file (descriptor_of redirection) (behind_file line.now (command_at line.now number) redirection) word }
{
    match count_of(word) {
        Ok(fd) => ChildStep::JoinFile { redirection, fd },
        Err(_) => ChildStep::Print(Text::CannotBeOpened(file)),
    }
}

/// The first of a command's words, which names the program.
fn program(words: &[Span]) -> Span
    ensures { result ≡ program words.now }
{
    match words {
        [] => Span { from: 0, to: 0 },
        [first, ..] => *first,
    }
}

/// What is printed of a program that can't be started.
fn not_run(word: Span, error: u32) -> Text
    ensures { result ≡ not_run word error }
{
    if error == E_NOT_FOUND {
        Text::NotFound(word)
    } else {
        Text::WordError(word, error)
    }
}

/// Behind the start of the program.
fn program_spawned(line: &[u8], number: u8, word: u32) -> ChildStep
    ensures { child_script line.now number result ≡ spawned line.now (program (command_at line.now number).words) word }
{
    match count_of(word) {
        Ok(id) => ChildStep::CloseAll { fd: 0, id },
        Err(error) => ChildStep::Print(not_run(program(&command_at(line, number).words), error)),
    }
}

/// The path of a program.
#[tactic(auto, unfolding(crate::specs::ShellScript::rooted))]
fn path(line: &[u8], program: Span) -> Path
    ensures { path_bytes line.now result ≡ rooted (word_in line.now program) }
{
    Path {
        slash: !matches!(word(line, program), [SLASH, ..]),
        word: program,
    }
}

/// The call that starts the program of a command.
#[tactic(auto, unfolding(crate::specs::ShellScript::spawns))]
fn spawn(line: &[u8], number: u8) -> ShellCall
    ensures { told line.now result ≡ next (spawns line.now (command_at line.now number)) }
{
    let words = command_at(line, number).words;
    ShellCall::Spawn {
        path: path(line, program(&words)),
        words,
    }
}

/// The call that a child makes next.
pub(crate) fn child_call(line: &[u8], number: u8, step: ChildStep) -> ShellCall
    ensures { told line.now result ≡ next (child_script line.now number step) }
{
    match step {
        ChildStep::JoinBefore { before, .. } => ShellCall::Dup {
            old: before as u32,
            new: 0,
        },
        ChildStep::CloseBefore { before, .. } => ShellCall::Close(before as u32),
        ChildStep::JoinPipe { ends } => ShellCall::Dup {
            old: ends.writing as u32,
            new: 1,
        },
        ChildStep::CloseReading { ends } => ShellCall::Close(ends.reading as u32),
        ChildStep::CloseWriting { writing } => ShellCall::Close(writing as u32),
        ChildStep::OpenFile { redirection, file } => ShellCall::OpenFile {
            path: file,
            mode: redirection.mode(),
        },
        ChildStep::JoinFile { redirection, fd } => ShellCall::Dup {
            old: fd,
            new: redirection.descriptor(),
        },
        ChildStep::CloseFile { fd, .. } => ShellCall::Close(fd),
        ChildStep::Spawn => spawn(line, number),
        ChildStep::CloseAll { fd, id } => close_next(fd, id),
        ChildStep::Print(text) => ShellCall::Print(text),
        ChildStep::Exit => ShellCall::Exit,
    }
}

/// The call by which a child closes a descriptor, or behind the last of them waits for the program.
#[tactic(auto, unfolding(crate::specs::ShellScript::closes, crate::specs::ShellScript::finishes))]
fn close_next(fd: u8, id: u32) -> ShellCall
    ensures { (line : List ℕ) → told line result ≡ next (finishes fd id) }
{
    if fd < DESCRIPTORS {
        ShellCall::Close(fd as u32)
    } else {
        ShellCall::Wait(id)
    }
}

/// Behind that call.
#[tactic(auto, unfolding(crate::specs::ShellScript::closes, crate::specs::ShellScript::finishes))]
fn closed(fd: u8, id: u32) -> ChildStep
    ensures { (line : List ℕ) (number : ℕ) (answer : Answer) →
        child_script line number result ≡ answered (finishes fd id) answer }
{
    if fd < DESCRIPTORS {
        ChildStep::CloseAll { fd: fd + 1, id }
    } else {
        ChildStep::Exit
    }
}

/// Where a child goes on by an answer.
#[tactic(auto, unfolding(crate::specs::ShellScript::spawns))]
pub(crate) fn child_after(line: &[u8], number: u8, step: ChildStep, answer: Answer) -> ChildStep
    ensures { child_script line.now number result ≡ answered (child_script line.now number step) answer }
{
    match step {
        ChildStep::JoinBefore { before, ends } => ChildStep::CloseBefore { before, ends },
        ChildStep::CloseBefore { ends, .. } => join_pipe(line, number, ends),
        ChildStep::JoinPipe { ends } => ChildStep::CloseReading { ends },
        ChildStep::CloseReading { ends } => ChildStep::CloseWriting {
            writing: ends.writing,
        },
        ChildStep::CloseWriting { .. } => input(line, number),
        ChildStep::OpenFile { redirection, file } => {
            file_opened(line, number, redirection, file, answer.word())
        }
        ChildStep::JoinFile { redirection, fd } => ChildStep::CloseFile { redirection, fd },
        ChildStep::CloseFile { redirection, .. } => file_joined(line, number, redirection),
        ChildStep::Spawn => program_spawned(line, number, answer.word()),
        ChildStep::CloseAll { fd, id } => closed(fd, id),
        ChildStep::Print(_) => ChildStep::Exit,
        ChildStep::Exit => ChildStep::Exit,
    }
}

/// Behind the redirection of the input or the output.
fn file_joined(line: &[u8], number: u8, redirection: Redirection) -> ChildStep
    ensures { child_script line.now number result ≡ behind_file line.now (command_at line.now number) redirection }
{
    match redirection {
        Redirection::Input => output(line, number),
        Redirection::Output => ChildStep::Spawn,
    }
}

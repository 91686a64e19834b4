//! A line, read.

ghost use Rattle.std.specs.Prelude.{◌≡◌, Some, None, IfOk, OnErr, map, length};
ghost use Rattle.std.specs.List.{All};
ghost use Rattle.jos_shell.specs.Grammar.{nothing_asked, asked_by, commands_in, CommandIsInLine};
ghost use Rattle.jos_shell.specs.Reading.{is_nothing};

use crate::numbers::{COMMANDS_MAX, LINE_MAX, WORDS_MAX};
use crate::reader::Reader;
use crate::tokens::{Tokens, has_reserved, spoken};
use arrayvec::ArrayVec;
use fs_layout::Span;

/// A command of a line. Its words and files are told by where they stand in the line.
#[derive(Drop)]
pub struct Command {
    /// Its words, 1 to 16. The first names the program.
    pub words: ArrayVec<Span, WORDS_MAX>,
    /// The file that its input comes from, where that is redirected.
    pub from: Option<Span>,
    /// The file that its output goes to, where that is redirected.
    pub to: Option<Span>,
    /// Whether its output is the next command's input. A job ends with a command for which it is not.
    pub piped: bool,
}

/// The commands of a line, job by job.
#[derive(Drop)]
pub struct Line {
    pub commands: ArrayVec<Command, COMMANDS_MAX>,
}

/// A line can't be read.
#[derive(Clone, Copy, Debug, PartialEq, Eq)]
pub struct SyntaxFault;

impl Default for Command {
    ghost is_default = { λ command. asked_by command ≡ nothing_asked };

    /// One that has no word and no file.
    fn default() -> Command {
        Command {
            words: ArrayVec::new(),
            from: None,
            to: None,
            piped: false,
        }
    }
}

impl Command {
    /// Whether it has no word and no file.
    pub(crate) fn is_empty(&self) -> bool
        ensures { result ≡ is_nothing (asked_by self.now) }
    {
        self.words.is_empty() && self.from.is_none() && self.to.is_none()
    }
}

/// The commands that a line asks for, which is given without its newline. It is refused exactly where it has over 1,023 bytes,
/// where one of `&`, `(` and `)` stands in front of its comment, and where a job of it can't be read.
pub fn parse_line(line: &[u8]) -> Result<Line, SyntaxFault>
    ensures ok { IfOk result (λ line_read. commands_in line.now ≡ Some (map asked_by line_read.commands.items)) }
    ensures lie { IfOk result (λ line_read. All (CommandIsInLine (length line.now)) line_read.commands.items) }
    ensures err { OnErr result (commands_in line.now ≡ None) }
{
    if line.len() > LINE_MAX {
        return Err(SyntaxFault);
    }
    let spoken = spoken(line);
    if has_reserved(spoken) {
        return Err(SyntaxFault);
    }
    let mut tokens = Tokens::of(spoken);
    let mut reader = Reader::new();
    while let Some(token) = tokens.next_token() {
        reader.take(token, &mut tokens)?;
    }
    reader.end_job()?;
    Ok(Line {
        commands: reader.commands,
    })
}

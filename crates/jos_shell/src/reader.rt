//! What was read of a line, symbol by symbol and word by word.

ghost use Rattle.std.specs.Prelude.{◌≡◌, ◌+◌, ◌≤◌, true, false, Some, None, List, [], ◌∷◌, length, is_some, OnOk, OnErr};
ghost use Rattle.jos_shell.specs.declared.tokens.Symbol.TheVariants.{Next};
ghost use Rattle.jos_shell.specs.declared.tokens.Token.TheVariants.{Sign};
ghost use Rattle.jos_shell.specs.Tokens.{tokens_from};
ghost use Rattle.jos_shell.specs.Reading.{nothing_begun, begun_by, has_no_job, can_end, ended, line_behind};

use crate::line::{Command, SyntaxFault};
use crate::numbers::{COMMANDS_MAX, LINE_MAX};
use crate::tokens::{Symbol, Token, Tokens};
use arrayvec::ArrayVec;
use fs_layout::Span;
use std::mem;

/// What was read of a line.
#[derive(Drop)]
pub(crate) struct Reader {
    /// The commands that have ended.
    pub(crate) commands: ArrayVec<Command, COMMANDS_MAX>,
    /// The command that is being read.
    command: Command,
    /// Whether a `|` stands before it.
    after_pipe: bool,
}

/// Sets the file of a command's input or output, which is given at most once.
fn redirect(file: &mut Option<Span>, to: Span) -> Result<(), SyntaxFault>
    ensures ok { OnOk result (file.old ≡ None) }
    ensures err { OnErr result (is_some file.old ≡ true) }
    ensures after { file.new ≡ Some to }
{
    match file.replace(to) {
        Some(_) => Err(SyntaxFault),
        None => Ok(()),
    }
}

impl Reader {
    /// Nothing was read.
    pub(crate) fn new() -> Reader
        ensures nothing { begun_by result ≡ nothing_begun }
        ensures none { result.commands.items ≡ [] }
    {
        Reader {
            commands: ArrayVec::new(),
            command: Command::default(),
            after_pipe: false,
        }
    }

    /// Ends the command that is being read. It is refused if it has no word, or if there are too many commands.
    fn end_command(&mut self, piped: bool) -> Result<(), SyntaxFault>
        ensures can { OnOk result (can_end (begun_by self.old) ≡ true) }
        ensures ok { OnOk result (begun_by self.new ≡ ended (begun_by self.old) piped) }
        ensures err { OnErr result (can_end (begun_by self.old) ≡ false) }
        ensures few { OnOk result (length self.new.commands.items ≤ COMMANDS_MAX) }
    {
        let command = mem::take(&mut self.command);
        if command.words.is_empty() || self.commands.is_full() {
            return Err(SyntaxFault);
        }
        self.commands.push(Command { piped, ..command });
        self.after_pipe = piped;
        Ok(())
    }

    /// Whether nothing was read of the job.
    fn has_no_job(&self) -> bool
        ensures { result ≡ has_no_job (begun_by self.now) }
    {
        !self.after_pipe && self.command.is_empty()
    }

    /// Ends the job that is being read, as a `;` or the end of the line does. It may be empty.
    pub(crate) fn end_job(&mut self) -> Result<(), SyntaxFault>
        requires few { length self.old.commands.items ≤ COMMANDS_MAX }
        ensures ok { OnOk result ((rest : List Token) →
            line_behind (begun_by self.new) rest ≡ line_behind (begun_by self.old) (Sign Next ∷ rest)) }
        ensures err { OnErr result ((rest : List Token) → line_behind (begun_by self.old) (Sign Next ∷ rest) ≡ None) }
        ensures no_job { OnOk result (has_no_job (begun_by self.new) ≡ true) }
        ensures few { OnOk result (length self.new.commands.items ≤ COMMANDS_MAX) }
    {
        if self.has_no_job() {
            return Ok(());
        }
        self.end_command(false)
    }

    /// Reads on by a symbol or a word, and by the word behind it, which names the file, where that is a `<` or a `>`.
    pub(crate) fn take(&mut self, token: Token, tokens: &mut Tokens<'_>) -> Result<(), SyntaxFault>
        requires few { length self.old.commands.items ≤ COMMANDS_MAX }
        requires small { tokens.old.at + length tokens.old.rest.now ≤ LINE_MAX }
        ensures ok { OnOk result (line_behind (begun_by self.new) (tokens_from tokens.new.at tokens.new.rest.now)
            ≡ line_behind (begun_by self.old) (token ∷ tokens_from tokens.old.at tokens.old.rest.now)) }
        ensures err { OnErr result (line_behind (begun_by self.old) (token ∷ tokens_from tokens.old.at tokens.old.rest.now) ≡ None) }
        ensures few { OnOk result (length self.new.commands.items ≤ COMMANDS_MAX) }
        ensures small { tokens.new.at + length tokens.new.rest.now ≤ LINE_MAX }
        ensures shorter { length tokens.new.rest.now ≤ length tokens.old.rest.now }
    {
        match token {
            Token::Word(word) => match self.command.words.try_push(word) {
                Ok(()) => Ok(()),
                Err(_) => Err(SyntaxFault),
            },
            Token::Sign(symbol) => match symbol {
                Symbol::Input => redirect(&mut self.command.from, tokens.next_word()?),
                Symbol::Output => redirect(&mut self.command.to, tokens.next_word()?),
                Symbol::Pipe => self.end_command(true),
                Symbol::Next => self.end_job(),
            },
        }
    }
}

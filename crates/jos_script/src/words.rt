//! The words and the commands of a line.

ghost use Rattle.std.specs.Prelude.{◌≡◌, ◌<◌, ◌≤◌, IfSome, OnSome, IfNone, length, map};
ghost use Rattle.jos_shell.specs.Grammar.{asked_by};
ghost use Rattle.jos_script.specs.ShellScript.{word_in};
ghost use Rattle.jos_script.specs.ScriptPlaces.{commands_of, command_at};

use arrayvec::ArrayVec;
use fs_layout::Span;
use jos_shell::{COMMANDS_MAX, Command, parse_line};

/// What stands at a place of the line; nothing of it where that is behind the line.
#[tactic(auto, unfolding(crate::specs::ShellScript::word_in))]
pub fn word(line: &[u8], span: Span) -> &[u8]
    ensures exact { result.now ≡ word_in line.now span }
    ensures within { length result.now ≤ length line.now }
{
    let from = line.len().min(span.from as usize);
    let to = line.len().min(span.to as usize);
    &line[from..to.max(from)]
}

/// The commands of a line; none of one that can't be read.
#[tactic(auto, unfolding(crate::specs::ScriptPlaces::commands_of))]
pub(crate) fn commands(line: &[u8]) -> ArrayVec<Command, COMMANDS_MAX>
    ensures { commands_of line.now ≡ map asked_by result.items }
{
    match parse_line(line) {
        Ok(read) => read.commands,
        Err(_) => ArrayVec::new(),
    }
}

/// Whether the output of a command, by its number in the line, is the next one's input; nothing behind the last command.

pub(crate) fn is_piped(line: &[u8], number: u8) -> Option<bool>
    ensures there { OnSome result (number < length (commands_of line.now)) }
    ensures told { IfSome result (λ piped. piped ≡ (command_at line.now number).piped) }
    ensures few { OnSome result (number < COMMANDS_MAX) }
    ensures behind { IfNone result (length (commands_of line.now) ≤ number) }
{
    let commands = commands(line);
    if number as usize >= commands.len() {
        return None;
    }
    Some(commands[number as usize].piped)
}

/// A command of a line, by its number; one with no words where there are fewer commands.
#[tactic(auto, unfolding(crate::specs::ScriptPlaces::command_at))]
pub(crate) fn command_at(line: &[u8], number: u8) -> Command
    ensures { asked_by result ≡ command_at line.now number }
{
    match commands(line).pop_at(number as usize) {
        Some(command) => command,
        None => Command::default(),
    }
}

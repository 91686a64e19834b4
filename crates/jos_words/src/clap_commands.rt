//! The commands as clap is told of them.

ghost use Rattle.std.specs.Prelude.{◌≡◌, ◌<◌, IfOk, IfErr, Some, drop, length, map, true, false};
ghost use Rattle.clap.specs.Words.{app_of, rule_of};
ghost use Rattle.jos_words.specs.declared.words.WordsFault.TheVariants.{Usage};
ghost use Rattle.jos_words.specs.Arguments.{arguments_in_bytes, arguments_of, texts};
ghost use Rattle.jos_words.specs.ClapCommands.{option_rule, required_rule, optional_rule, repeated_rule, optional_repeated_rule};
ghost use Rattle.jos_words.specs.ClapCommands.{app_with, running_app, demo_app, mkfs_app, ls_app, cat_app, gen_app, clap_takes, AreRefused};

use crate::arguments::{ReadArguments, read_arguments};
use crate::commands::RUNNING_OPTIONS;
use crate::words::WordsFault;
use clap::error::ErrorKind;
use clap::{Arg, ArgAction, Command};
use std::alloc::{AllocError, Global};

/// An option, which takes one value.
fn option<'a>(alloc: Global, name: &'a str) -> Arg<'a>
    ensures rule { rule_of result ≡ option_rule name.now }
    ensures local { result.global ≡ false }
{
    Arg::new(alloc, name).long(name)
}

/// A positional word that has to be there.
fn required<'a>(alloc: Global, name: &'a str) -> Arg<'a>
    ensures rule { rule_of result ≡ required_rule name.now }
    ensures local { result.global ≡ false }
{
    Arg::new(alloc, name).required(true)
}

/// A positional word that need not be there.
fn optional<'a>(alloc: Global, name: &'a str) -> Arg<'a>
    ensures rule { rule_of result ≡ optional_rule name.now }
    ensures local { result.global ≡ false }
{
    Arg::new(alloc, name)
}

/// Positional words, one at least.
fn repeated<'a>(alloc: Global, name: &'a str) -> Arg<'a>
    ensures rule { rule_of result ≡ repeated_rule name.now }
    ensures local { result.global ≡ false }
{
    Arg::new(alloc, name)
        .action(ArgAction::Append)
        .required(true)
}

/// Positional words, none too.
fn optional_repeated<'a>(alloc: Global, name: &'a str) -> Arg<'a>
    ensures rule { rule_of result ≡ optional_repeated_rule name.now }
    ensures local { result.global ≡ false }
{
    Arg::new(alloc, name).action(ArgAction::Append)
}

/// A command with options of these names, and without help and version flags.
fn command_with<'a>(
    alloc: Global,
    name: &'a str,
    options: &[&'a str],
) -> Result<Command<'a>, AllocError>
    ensures { IfOk result (λ command. app_of command ≡ app_with name.now (map (λ known. option_rule known.now) options.now)) }
{
    let mut command = Command::new(alloc, name)
        .disable_help_flag(true)
        .disable_version_flag(true);
    for known in options {
        command = command.arg(option(alloc, *known))?;
    }
    Ok(command)
}

/// `exo`, whose words are images, or `run`, whose words are a disk and a program's words.
pub(crate) fn running_command<'a>(alloc: Global, name: &'a str) -> Result<Command<'a>, AllocError>
    ensures { IfOk result (λ command. app_of command ≡ running_app name.now) }
{
    command_with(alloc, name, &RUNNING_OPTIONS)?.arg(repeated(alloc, "word"))
}

/// `demo`, whose words are a name and a file.
pub(crate) fn demo_command<'a>(alloc: Global) -> Result<Command<'a>, AllocError>
    ensures { IfOk result (λ command. app_of command ≡ demo_app) }
{
    command_with(alloc, "demo", &[])?
        .arg(required(alloc, "name"))?
        .arg(required(alloc, "file"))
}

/// `mkfs`, whose words are a disk, a number of blocks and files.
pub(crate) fn mkfs_command<'a>(alloc: Global) -> Result<Command<'a>, AllocError>
    ensures { IfOk result (λ command. app_of command ≡ mkfs_app) }
{
    command_with(alloc, "mkfs", &[])?
        .arg(required(alloc, "disk"))?
        .arg(required(alloc, "blocks"))?
        .arg(optional_repeated(alloc, "file"))
}

/// `ls`, whose words are a disk and perhaps a path.
pub(crate) fn ls_command<'a>(alloc: Global) -> Result<Command<'a>, AllocError>
    ensures { IfOk result (λ command. app_of command ≡ ls_app) }
{
    command_with(alloc, "ls", &[])?
        .arg(required(alloc, "disk"))?
        .arg(optional(alloc, "path"))
}

/// `cat`, whose words are a disk and a path.
pub(crate) fn cat_command<'a>(alloc: Global) -> Result<Command<'a>, AllocError>
    ensures { IfOk result (λ command. app_of command ≡ cat_app) }
{
    command_with(alloc, "cat", &[])?
        .arg(required(alloc, "disk"))?
        .arg(required(alloc, "path"))
}

/// `gen`, whose words are a seed and a disk.
pub(crate) fn gen_command<'a>(alloc: Global) -> Result<Command<'a>, AllocError>
    ensures { IfOk result (λ command. app_of command ≡ gen_app) }
{
    command_with(alloc, "gen", &[])?
        .arg(required(alloc, "seed"))?
        .arg(required(alloc, "disk"))
}

/// Has clap take the words, the first of which is the command's name.
fn ask_clap<'a>(command: Command<'a>, words: &'a [&'a str]) -> Result<(), WordsFault>
    ensures usage { IfErr result (λ fault. fault ≡ Usage → clap_takes (app_of command.entry) (texts words.now) ≡ false) }
{
    match command.try_get_matches_from(words) {
        Ok(_) => Ok(()),
        Err(error) => match error.kind() {
            ErrorKind::OutOfMemory => Err(WordsFault::NoMemory),
            _ => Err(WordsFault::Usage),
        },
    }
}

/// The arguments of a command, whose options have these names, where clap takes its words.
pub(crate) fn take_arguments<'a>(
    alloc: Global,
    command: Command<'a>,
    names: &[&str],
    words: &'a [&'a str],
) -> Result<ReadArguments<'a>, WordsFault>
    requires { 0 < length words.now }
    ensures ok { IfOk result (λ read. arguments_of (texts names.now) (drop 1 (texts words.now)) ≡ Some (arguments_in_bytes read)) }
    ensures usage { IfErr result (λ fault. fault ≡ Usage → AreRefused (app_of command.entry) (texts names.now) (texts words.now)) }
{
    ask_clap(command, words)?;
    read_arguments(alloc, names, words)
}

//! The words behind a command's name, read as options and positional words.

ghost use Rattle.std.specs.Prelude.{◌≡◌, ◌<◌, IfOk, IfErr, OnOk, Some, None, length, drop, map, option_map};
ghost use Rattle.jos_words.specs.declared.words.WordsFault.TheVariants.{Usage, NoMemory};
ghost use Rattle.jos_words.specs.Arguments.{is_option, option_parts, value_of, has_option, with_option, with_positional};
ghost use Rattle.jos_words.specs.Arguments.{option_read, word_read, arguments_of, ended};
ghost use Rattle.jos_words.specs.Arguments.{word_in_bytes, given_in_bytes, arguments_in_bytes};
ghost use Rattle.jos_words.specs.Arguments.{reading_in_bytes, texts};

use crate::values::is_value;
use crate::words::{WordAt, WordsFault};
use std::alloc::Global;

/// An option that is given, with its value.
#[derive(Clone, Copy)]
pub(crate) struct GivenOption<'a> {
    pub(crate) name: &'a str,
    pub(crate) value: WordAt<'a>,
}

/// The options and the positional words of a command, each list in the order of the words.
#[derive(Drop)]
pub(crate) struct ReadArguments<'a> {
    pub(crate) options: Vec<GivenOption<'a>>,
    pub(crate) positionals: Vec<WordAt<'a>>,
}

/// What the next word may be.
#[derive(Clone, Copy)]
enum ReadWaiting<'a> {
    /// Any word.
    AnyWord,
    /// The value of the option of this name.
    ValueFor(&'a str),
    /// Positional in any case, since a word `--` was read.
    PositionalWord,
}

/// Whether a word begins with `-` and is longer.
fn is_option(word: &str) -> bool
    ensures { result ≡ is_option word.now }
{
    match word.as_bytes() {
        [first, _, ..] => *first == b'-',
        _ => false,
    }
}

/// The name of an option, and the value in its word if there is one.
fn option_parts<'a>(word: &'a str) -> Option<(&'a str, Option<&'a str>)>
    ensures { option_map (λ parts. (parts.0.now, option_map (λ value. value.now) parts.1)) result ≡ option_parts word.now }
{
    let text = word.strip_prefix("--")?;
    match text.split_once('=') {
        Some((name, value)) => Some((name, Some(value))),
        None => Some((text, None)),
    }
}

/// The value of the option of this name.
pub(crate) fn value_of<'a>(name: &str, options: &[GivenOption<'a>]) -> Option<WordAt<'a>>
    ensures { option_map word_in_bytes result ≡ value_of name.now (map given_in_bytes options.now) }
{
    for option in options {
        if option.name == name {
            return Some(option.value);
        }
    }
    None
}

fn has_option(names: &[&str], name: &str) -> bool
    ensures { result ≡ has_option (texts names.now) name.now }
{
    for known in names {
        if *known == name {
            return true;
        }
    }
    false
}

impl<'a> ReadArguments<'a> {
    /// Takes an option, if it may be given.
    fn take_option(
        &mut self,
        names: &[&str],
        name: &'a str,
        value: WordAt<'a>,
    ) -> Result<(), WordsFault>
        ensures ok { OnOk result (with_option (texts names.now) (arguments_in_bytes self.old) name.now (word_in_bytes value.entry)
            ≡ Some (arguments_in_bytes self.new)) }
        ensures usage { IfErr result (λ fault. fault ≡ Usage →
            with_option (texts names.now) (arguments_in_bytes self.old) name.now (word_in_bytes value.entry) ≡ None) }
    {
        if !has_option(names, name)
            || value_of(name, &self.options).is_some()
            || !is_value(value.text)
        {
            return Err(WordsFault::Usage);
        }
        self.options.push(GivenOption { name, value })?;
        Ok(())
    }

    fn take_positional(&mut self, word: WordAt<'a>) -> Result<(), WordsFault>
        ensures ok { OnOk result (with_positional (arguments_in_bytes self.old) (word_in_bytes word.entry) ≡ arguments_in_bytes self.new) }
        ensures memory { IfErr result (λ fault. fault ≡ NoMemory) }
    {
        self.positionals.push(word)?;
        Ok(())
    }
}

/// Reads a word that is an option.
fn read_option<'a>(
    names: &[&str],
    arguments: &mut ReadArguments<'a>,
    word: WordAt<'a>,
) -> Result<ReadWaiting<'a>, WordsFault>
    ensures ok { IfOk result (λ next. option_read (texts names.now) (arguments_in_bytes arguments.old) word.entry.place (option_parts word.entry.text.now)
        ≡ Some (reading_in_bytes arguments.new next)) }
    ensures usage { IfErr result (λ fault. fault ≡ Usage →
        option_read (texts names.now) (arguments_in_bytes arguments.old) word.entry.place (option_parts word.entry.text.now) ≡ None) }
{
    match option_parts(word.text) {
        None => Err(WordsFault::Usage),
        Some((name, None)) => {
            if has_option(names, name) {
                Ok(ReadWaiting::ValueFor(name))
            } else {
                Err(WordsFault::Usage)
            }
        }
        Some((name, Some(text))) => {
            let value = WordAt {
                place: word.place,
                text,
            };
            arguments.take_option(names, name, value)?;
            Ok(ReadWaiting::AnyWord)
        }
    }
}

/// Reads one word more.
#[tactic(auto, unfolding(crate::specs::Arguments::word_read))]
fn read_word<'a>(
    names: &[&str],
    arguments: &mut ReadArguments<'a>,
    waiting: ReadWaiting<'a>,
    word: WordAt<'a>,
) -> Result<ReadWaiting<'a>, WordsFault>
    ensures ok { IfOk result (λ next. word_read (texts names.now) (reading_in_bytes arguments.old waiting.entry) (word_in_bytes word.entry)
        ≡ Some (reading_in_bytes arguments.new next)) }
    ensures usage { IfErr result (λ fault. fault ≡ Usage →
        word_read (texts names.now) (reading_in_bytes arguments.old waiting.entry) (word_in_bytes word.entry) ≡ None) }
{
    match waiting {
        ReadWaiting::AnyWord => {
            if word.text == "--" {
                Ok(ReadWaiting::PositionalWord)
            } else if is_option(word.text) {
                read_option(names, arguments, word)
            } else {
                arguments.take_positional(word)?;
                Ok(ReadWaiting::AnyWord)
            }
        }
        ReadWaiting::ValueFor(name) => {
            arguments.take_option(names, name, word)?;
            Ok(ReadWaiting::AnyWord)
        }
        ReadWaiting::PositionalWord => {
            arguments.take_positional(word)?;
            Ok(ReadWaiting::PositionalWord)
        }
    }
}

/// The arguments, if no option lacks its value.
fn end<'a>(
    arguments: ReadArguments<'a>,
    waiting: ReadWaiting<'a>,
) -> Result<ReadArguments<'a>, WordsFault>
    ensures ok { IfOk result (λ read. ended (reading_in_bytes arguments.entry waiting.entry) ≡ Some (arguments_in_bytes read)) }
    ensures usage { IfErr result (λ fault. ended (reading_in_bytes arguments.entry waiting.entry) ≡ None) }
{
    match waiting {
        ReadWaiting::ValueFor(_) => Err(WordsFault::Usage),
        _ => Ok(arguments),
    }
}

/// The arguments of a command that has the options of these names. The first word is the command's own name.
pub(crate) fn read_arguments<'a>(
    alloc: Global,
    names: &[&str],
    words: &[&'a str],
) -> Result<ReadArguments<'a>, WordsFault>
    requires { 0 < length words.now }
    ensures ok { IfOk result (λ read. arguments_of (texts names.now) (drop 1 (texts words.now)) ≡ Some (arguments_in_bytes read)) }
    ensures usage { IfErr result (λ fault. fault ≡ Usage → arguments_of (texts names.now) (drop 1 (texts words.now)) ≡ None) }
{
    let mut arguments = ReadArguments {
        options: Vec::new(alloc),
        positionals: Vec::new(alloc),
    };
    let mut waiting = ReadWaiting::AnyWord;
    let mut place = 1;
    let behind = &words[1..];
    for text in behind {
        let word = WordAt { place, text: *text };
        waiting = read_word(names, &mut arguments, waiting, word)?;
        place += 1;
    }
    end(arguments, waiting)
}

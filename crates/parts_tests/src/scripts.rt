//! Scripts of the shell.

use crate::texts::text_of;
use anyhow::{Context, bail};
use fs_layout::Span;
use jos_script::{
    Answer, Ends, Next, Path, Read, ShellCall, Text, after, next_call, read_on, word,
};
use jos_shell::LINE_MAX;
use std::alloc::Global;
use std::fmt::Write;
use std::str::from_utf8;
use test_cases::Shown;

/// More calls than a case makes.
const CALLS_MAX: u32 = 1000;

/// The number that digits say.
fn digits(text: &str) -> anyhow::Result<u32> {
    u32::from_str_radix(text, 10).ok().context("no number")
}

/// The descriptor that digits say.
fn descriptor(text: &str) -> anyhow::Result<u8> {
    u8::try_from(digits(text)?).ok().context("no descriptor")
}

/// The answer that a word gives: the two ends of a pipe as `3/4`, an error as `-11`, else a word.
fn answer_of(text: &str) -> anyhow::Result<Answer> {
    if let Some((reading, writing)) = text.split_once('/') {
        return Ok(Answer::Made(Ends {
            reading: descriptor(reading)?,
            writing: descriptor(writing)?,
        }));
    }
    match text.strip_prefix("-") {
        Some(error) => Ok(Answer::Word(digits(error)?.wrapping_neg())),
        None => Ok(Answer::Word(digits(text)?)),
    }
}

/// The answers that words give.
fn answers_of(alloc: Global, words: &str) -> anyhow::Result<Vec<Answer>> {
    let mut answers = Vec::new(alloc);
    for text in words.split_whitespace() {
        answers.push(answer_of(text)?)?;
    }
    Ok(answers)
}

/// Adds bytes, between quotes.
fn add_bytes(told: &mut String, bytes: &[u8]) -> anyhow::Result<()> {
    match from_utf8(bytes) {
        Ok(text) => write!(told, " {text:?}")?,
        Err(_) => bail!("bytes that are no text"),
    }
    Ok(())
}

/// Adds what stands at a place of the line, between quotes.
fn add_word(told: &mut String, line: &[u8], span: &Span) -> anyhow::Result<()> {
    add_bytes(told, word(line, *span))
}

/// Adds a text that is printed.
fn add_text(told: &mut String, line: &[u8], text: Text) -> anyhow::Result<()> {
    if line.len() > LINE_MAX + 1 {
        bail!("too much is kept of a line");
    }
    told.push_str("print")?;
    add_bytes(told, &text.bytes(line))
}

/// Adds the opening of a file.
fn add_open(told: &mut String, line: &[u8], path: &Span, mode: u32) -> anyhow::Result<()> {
    told.push_str("open")?;
    add_word(told, line, path)?;
    write!(told, " {mode:#x}")?;
    Ok(())
}

/// Adds the start of a program.
fn add_spawn(told: &mut String, line: &[u8], path: &Path, words: &[Span]) -> anyhow::Result<()> {
    told.push_str(if path.slash { "spawn /" } else { "spawn" })?;
    add_word(told, line, &path.word)?;
    for word in words {
        add_word(told, line, word)?;
    }
    Ok(())
}

/// Adds a call that is told without the line.
fn add_short(told: &mut String, call: &ShellCall) -> anyhow::Result<()> {
    match call {
        ShellCall::Pipe => told.push_str("pipe")?,
        ShellCall::Fork => told.push_str("fork")?,
        ShellCall::Dup { old, new } => write!(told, "dup {old} {new}")?,
        ShellCall::Close(fd) => write!(told, "close {fd}")?,
        ShellCall::Wait(id) => write!(told, "wait {id}")?,
        ShellCall::Exit => told.push_str("exit")?,
        _ => bail!("a call that is told with the line"),
    }
    Ok(())
}

/// Adds a call.
fn add_call(told: &mut String, line: &[u8], call: &ShellCall) -> anyhow::Result<()> {
    match call {
        ShellCall::Print(text) => add_text(told, line, *text),
        ShellCall::OpenFile { path, mode } => add_open(told, line, path, *mode),
        ShellCall::Spawn { path, words } => add_spawn(told, line, path, words),
        _ => add_short(told, call),
    }
}

/// Adds the calls of a script, whose first are answered so and all others 0; whether it has ended with exit.
fn add_script(
    told: &mut String,
    line: &[u8],
    script: Next,
    answers: &mut Vec<Answer>,
) -> anyhow::Result<bool> {
    let mut next = script;
    for _ in 0..CALLS_MAX {
        let place = match next {
            Next::ReadLine => {
                told.push_str("next line")?;
                return Ok(false);
            }
            Next::At(place) => place,
        };
        let call = next_call(line, &place);
        add_call(told, line, &call)?;
        if let ShellCall::Exit = call {
            return Ok(true);
        }
        told.push_str("; ")?;
        let answer = if answers.is_empty() {
            Answer::Word(0)
        } else {
            answers.remove(0)
        };
        next = after(line, place, answer);
    }
    bail!("it does not end")
}

/// What the shell does with an input.
fn typed(alloc: Global, input: &[u8], mut answers: Vec<Answer>) -> anyhow::Result<Shown> {
    let mut told = String::new(alloc);
    let mut line = Vec::new(alloc);
    for byte in input {
        match read_on(&line, Answer::Byte(*byte)) {
            Read::Keep(byte) => line.push(byte)?,
            Read::Pass => {}
            Read::Line(next) => {
                if add_script(&mut told, &line, next, &mut answers)? {
                    return Ok(Shown::Text(told));
                }
                told.push_str("; ")?;
                line.clear();
            }
        }
    }
    match read_on(&line, Answer::Word(0)) {
        Read::Line(next) => add_script(&mut told, &line, next, &mut answers)?,
        _ => bail!("the end is passed over"),
    };
    Ok(Shown::Text(told))
}

/// What the shell does with a line that has a text so often, and an empty job behind it.
fn repeat(alloc: Global, words: &str) -> anyhow::Result<Shown> {
    let (times, quoted) = words.split_once(' ').context("no text")?;
    let text = text_of(alloc, quoted)?;
    let mut input = Vec::new(alloc);
    for _ in 0..digits(times)? {
        input.extend_from_slice(&text)?;
    }
    input.extend_from_slice(b"\n;\n")?;
    typed(alloc, &input, Vec::new(alloc))
}

/// What comes of a case.
pub(crate) fn tell_scripts(alloc: Global, what: &str, words: &str) -> anyhow::Result<Shown> {
    match what {
        "typed" => {
            let (answers, quoted) = words.split_once('"').context("no text")?;
            typed(alloc, &text_of(alloc, quoted)?, answers_of(alloc, answers)?)
        }
        "repeat" => repeat(alloc, words),
        _ => bail!("{what} is no case of scripts"),
    }
}

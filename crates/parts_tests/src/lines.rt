//! Lines of the shell.

use crate::texts::text_of;
use anyhow::{Context, bail};
use fs_layout::Span;
use jos_shell::{Command, parse_line};
use std::alloc::Global;
use std::fmt::Write;
use std::str::from_utf8;
use test_cases::Shown;

/// Adds what stands at a place of the line, between quotes.
fn add_text(told: &mut String, line: &[u8], span: &Span) -> anyhow::Result<()> {
    let bytes = line
        .get(span.from as usize..span.to as usize)
        .context("a place behind the line")?;
    match from_utf8(bytes) {
        Ok(text) => write!(told, "{text:?} ")?,
        Err(_) => bail!("a word that is no text"),
    }
    Ok(())
}

/// Adds a command: its words, its files, and `|` where it is piped, else `;`.
fn add_command(told: &mut String, line: &[u8], command: &Command) -> anyhow::Result<()> {
    for word in command.words.iter() {
        add_text(told, line, word)?;
    }
    if let Some(file) = &command.from {
        told.push_str("< ")?;
        add_text(told, line, file)?;
    }
    if let Some(file) = &command.to {
        told.push_str("> ")?;
        add_text(told, line, file)?;
    }
    told.push_str(if command.piped { "| " } else { "; " })?;
    Ok(())
}

/// What is read of a line.
fn read(alloc: Global, line: &[u8]) -> anyhow::Result<Shown> {
    let mut told = String::new(alloc);
    match parse_line(line) {
        Ok(read) => {
            if read.commands.is_empty() {
                told.push_str("nothing")?;
            }
            for command in read.commands.iter() {
                add_command(&mut told, line, command)?;
            }
        }
        Err(_) => told.push_str("refused")?,
    }
    Ok(Shown::Text(String::from_str(alloc, told.trim_end())?))
}

/// What is read of a line that has a text so often.
fn repeat(alloc: Global, words: &str) -> anyhow::Result<Shown> {
    let (times, quoted) = words.split_once(' ').context("no text")?;
    let times = u32::from_str_radix(times, 10).unwrap_or(0);
    let text = text_of(alloc, quoted)?;
    let mut line = Vec::new(alloc);
    for _ in 0..times {
        line.extend_from_slice(&text)?;
    }
    read(alloc, &line)
}

/// What comes of a case.
pub(crate) fn tell_lines(alloc: Global, what: &str, words: &str) -> anyhow::Result<Shown> {
    match what {
        "read" => read(alloc, &text_of(alloc, words)?),
        "repeat" => repeat(alloc, words),
        _ => bail!("{what} is no case of lines"),
    }
}

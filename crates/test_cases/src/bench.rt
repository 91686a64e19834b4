//! What is tried, and how the lines reach it.

use crate::lines::tell_lines;
use crate::told::Shown;
use anyhow::bail;
use std::alloc::Global;
use std::io::Input;

/// What is tried, in the state to which the cases before have brought it.
pub trait Bench: Sized + Drop {
    /// What a line names, at its beginning.
    fn of(alloc: Global, line: &str) -> anyhow::Result<Self>;

    /// What comes of a case: of what is done with the words.
    fn answer(&mut self, alloc: Global, what: &str, words: &str) -> anyhow::Result<Shown>;
}

/// Does what a line says, and tells what comes of it.
fn tell_line<B: Bench>(alloc: Global, bench: &mut Option<B>, line: &str) -> anyhow::Result<String> {
    match line.split_once(": ") {
        None => {
            *bench = Some(B::of(alloc, line)?);
            Ok(String::from_str(alloc, line)?)
        }
        Some((name, case)) => match bench {
            None => bail!("{name} stands before what is tried"),
            Some(bench) => {
                let (what, words) = case.split_once(" ").unwrap_or((case, ""));
                let told = bench.answer(alloc, what, words)?;
                Ok(format!(in alloc; "{name}: {told}")?)
            }
        },
    }
}

/// Answers the cases of the input.
pub fn tell_cases<B: Bench>(rt: &(impl Print + Input), alloc: Global) -> anyhow::Result<()> {
    let mut bench: Option<B> = None;
    tell_lines(rt, alloc, |line| tell_line(alloc, &mut bench, line))
}

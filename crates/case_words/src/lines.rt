//! How the lines reach what answers them.

use crate::words::Words;
use std::alloc::Global;
use std::io;
use std::io::Input;
use test_cases::tell_lines;

/// What answers the cases of a program.
pub trait AnswersCases: Sized {
    /// Adds what comes of a case.
    fn answer(&mut self, alloc: Global, out: &mut String, words: Words) -> io::Result<()>;
}

/// Answers the cases of the input.
pub fn tell_cases<A: AnswersCases>(
    rt: &(impl Print + Input),
    alloc: Global,
    answers: &mut A,
) -> anyhow::Result<()> {
    tell_lines(rt, alloc, |line| {
        let (name, case) = line.split_once(": ").unwrap_or((line, line));
        let mut out = format!(in alloc; "{name} = ")?;
        answers.answer(alloc, &mut out, Words::new(case))?;
        Ok(out)
    })
}

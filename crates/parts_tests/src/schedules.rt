//! Turns and schedules.

use crate::texts::text_of;
use anyhow::{Context, ensure};
use jos_sched::{Schedule, ScheduleFault, parse_schedule};
use std::alloc::Global;
use test_cases::{Shown, numbers};

/// The numbers of a schedule, or what is wrong with its text.
fn read(alloc: Global, quoted: &str) -> anyhow::Result<Shown> {
    let text = text_of(alloc, quoted)?;
    ensure!(text.len() < 1 << 32, "a long text");
    match parse_schedule(alloc, &text) {
        Ok(schedule) => Ok(Shown::Text(format!(in alloc; "{:?}", schedule.numbers())?)),
        Err(fault) => Ok(Shown::Text(format!(in alloc; "{fault}")?)),
    }
}

/// The steps of a turn, by the schedule 3, 5.
fn quantum(alloc: Global, words: &str) -> anyhow::Result<Shown> {
    let schedule = Schedule::from_numbers(alloc, &[3, 5])
        .ok()
        .context("no memory")?;
    let numbers = numbers(alloc, words)?;
    let turn = numbers.first().copied().unwrap_or(0);
    Ok(Shown::Count(schedule.quantum(turn) as u64))
}

/// What comes of a case.
pub(crate) fn tell_schedules(alloc: Global, what: &str, words: &str) -> anyhow::Result<Shown> {
    match what {
        "read" => read(alloc, words),
        "quantum" => quantum(alloc, words),
        "too_many" => Ok(Shown::Text(format!(in alloc; "{}", ScheduleFault::TooMany)?)),
        "no_memory" => Ok(Shown::Text(format!(in alloc; "{}", ScheduleFault::NoMemory)?)),
        _ => anyhow::bail!("{what} is no case of schedules"),
    }
}

//! What is tried, and in which state it is.

use crate::environments::tell_environments;
use crate::frames::tell_frames;
use crate::lines::tell_lines;
use crate::messages::tell_messages;
use crate::schedules::tell_schedules;
use crate::scripts::tell_scripts;
use anyhow::{Context, bail};
use jos_envs::Table;
use jos_ipc::Rendezvous;
use std::alloc::Global;
use test_cases::{Bench, Shown};

/// What is tried.
#[derive(Drop)]
pub(crate) enum PartBench {
    /// `jos_sched`.
    Schedules,
    /// `jos_trap`.
    Frames,
    /// `jos_ipc`.
    Messages(Rendezvous),
    /// `jos_envs`, and whom `jos_sched` gives the next turn.
    Environments(Table),
    /// `jos_shell`.
    Lines,
    /// `jos_script`.
    Scripts,
}

impl Bench for PartBench {
    fn of(alloc: Global, line: &str) -> anyhow::Result<PartBench> {
        match line {
            "schedules" => Ok(PartBench::Schedules),
            "frames" => Ok(PartBench::Frames),
            "messages" => Ok(PartBench::Messages(Rendezvous::none())),
            "environments" => {
                let table = Table::new(alloc).ok().context("no memory")?;
                Ok(PartBench::Environments(table))
            }
            "lines" => Ok(PartBench::Lines),
            "scripts" => Ok(PartBench::Scripts),
            _ => bail!("{line} is not tried"),
        }
    }

    fn answer(&mut self, alloc: Global, what: &str, words: &str) -> anyhow::Result<Shown> {
        match self {
            PartBench::Schedules => tell_schedules(alloc, what, words),
            PartBench::Frames => tell_frames(alloc, what, words),
            PartBench::Messages(rendezvous) => tell_messages(rendezvous, alloc, what, words),
            PartBench::Environments(table) => tell_environments(table, alloc, what, words),
            PartBench::Lines => tell_lines(alloc, what, words),
            PartBench::Scripts => tell_scripts(alloc, what, words),
        }
    }
}

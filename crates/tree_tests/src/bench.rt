//! A file server with jobs on files, over a kernel and a host in memory.

use fs_cache::{Flushed, flush_step};
use fs_jobs::Job;
use fs_places::with_state;
use fs_runs::begin;
use fs_tree::{Acted, tree_step};
use jos_host::Failed;
use lib_os::{REQUEST, UserOs};
use server_bench::{ServerMachine, given_bytes, has_blocks, tell_bytes, tell_done};
use std::alloc::{AllocError, Global};
use test_cases::twelve_numbers;

/// The machine with the file server, and the calls of the last job.
#[derive(Drop)]
pub(crate) struct TreeBench {
    pub(crate) machine: ServerMachine,
    calls: u32,
}

impl TreeBench {
    /// The server that a line describes, with a page for requests.
    pub(crate) fn new(alloc: Global, given: &str) -> Result<Option<TreeBench>, AllocError> {
        let Some(machine) = ServerMachine::new(alloc, given, REQUEST)? else {
            return Ok(None);
        };
        Ok(Some(TreeBench { machine, calls: 0 }))
    }

    /// Begins a job.
    fn begin(&mut self, job: Job) {
        let served = &mut self.machine.served;
        served.serve(0);
        if served.is_live() {
            let registers = served.registers();
            let words = served.extra();
            let (registers, words) = with_state(registers, &words, begin(job));
            served.set_extra(words);
            if served.is_live() {
                served.set_registers(registers);
            }
        }
    }

    /// One step of the job.
    fn step(&mut self) -> Result<Acted, Failed> {
        let machine = &mut self.machine;
        machine.served.serve(0);
        if !machine.served.is_live() || !has_blocks(&machine.served, &machine.host) {
            return Err(Failed);
        }
        tree_step(&mut machine.served, &mut machine.host)
    }

    /// Runs a job to its end, with so many calls at most.
    pub(crate) fn run(&mut self, alloc: Global, job: Job, most: u32) -> Result<String, AllocError> {
        self.begin(job);
        for calls in 0..most {
            match self.step() {
                Ok(Acted::Going) => {}
                Ok(Acted::Answer(word)) => {
                    self.calls = calls.saturating_add(1);
                    return format!(in alloc; "{word:x}");
                }
                Err(Failed) => return String::from_str(alloc, "the host failed"),
            }
        }
        String::from_str(alloc, "no end")
    }

    /// How many calls the last job was.
    pub(crate) fn calls(&self, alloc: Global) -> Result<String, AllocError> {
        format!(in alloc; "{} calls", self.calls)
    }

    /// Puts bytes into the page of the request, with a NUL behind them.
    pub(crate) fn put(&mut self, alloc: Global, bytes: &[u8]) -> Result<String, AllocError> {
        let end = (bytes.len() % 0x1_0000_0000) as u32;
        let _ = self.machine.put(0, REQUEST, 0, bytes);
        let _ = self.machine.put(0, REQUEST, end, &[0]);
        tell_done(alloc)
    }

    /// Puts bytes into it that are given in digits.
    pub(crate) fn put_page(&mut self, alloc: Global, digits: &str) -> Result<String, AllocError> {
        let bytes = given_bytes(alloc, digits)?;
        self.put(alloc, bytes.as_slice())
    }

    /// The first bytes of it.
    pub(crate) fn reply(&mut self, alloc: Global, given: &str) -> Result<String, AllocError> {
        let [count, ..] = twelve_numbers(given);
        let bytes = self.machine.bytes(alloc, 0, REQUEST, count)?;
        tell_bytes(alloc, bytes.as_slice())
    }

    /// One step of a flush.
    fn flush_once(&mut self) -> Result<Flushed, Failed> {
        let machine = &mut self.machine;
        machine.served.serve(0);
        if !machine.served.is_live() || !has_blocks(&machine.served, &machine.host) {
            return Err(Failed);
        }
        flush_step(&mut machine.served, &mut machine.host)
    }

    /// Flushes, with so many calls at most.
    pub(crate) fn flush(&mut self, alloc: Global, most: u32) -> Result<String, AllocError> {
        for _ in 0..most {
            match self.flush_once() {
                Ok(Flushed::Going) => {}
                Ok(Flushed::Clean) => return String::from_str(alloc, "clean"),
                Err(Failed) => return String::from_str(alloc, "the host failed"),
            }
        }
        String::from_str(alloc, "no end")
    }
}

//! The machine with the file server, the server's steps, and what its clients do otherwise than they would.

use fs_requests::{ServerStep, find_server};
use fs_server::server_step;
use jos_host::Failed;
use lib_os::{OPEN_RECORDS, Progress, UserOs};
use server_bench::{ServerMachine, Unanswered, has_blocks};
use std::alloc::{AllocError, Global};

/// The steps of a request: how many there were, how many of these are seen, and how often the server waited.
#[derive(Clone, Copy)]
pub(crate) struct StepCounts {
    pub(crate) made: u32,
    pub(crate) seen: u32,
    pub(crate) waited: u32,
}

/// No step was made yet.
pub(crate) const NO_STEPS: StepCounts = StepCounts {
    made: 0,
    seen: 0,
    waited: 0,
};

/// What comes between a request and its client's waiting for the reply: so many steps of the server; then another client, unless its slot
/// is 0, tries to send it something; and then the client may end in place of waiting.
#[derive(Clone, Copy)]
pub(crate) struct Between {
    pub(crate) steps: u32,
    pub(crate) other: u32,
    pub(crate) ends: bool,
}

/// Nothing comes between.
pub(crate) const NOTHING: Between = Between {
    steps: 0,
    other: 0,
    ends: false,
};

/// The machine, whether clients keep the page of a request for the next, what comes between of the next request, where the server stood
/// then at the last and what the other client was answered, and the steps of the last request.
#[derive(Drop)]
pub(crate) struct ServerBench {
    pub(crate) machine: ServerMachine,
    pub(crate) keeps: bool,
    pub(crate) between: Between,
    pub(crate) stood: Option<ServerStep>,
    pub(crate) tried: Option<u32>,
    pub(crate) counts: StepCounts,
}

impl ServerBench {
    /// The server that a line describes, with a page for its table of open files.
    pub(crate) fn new(alloc: Global, given: &str) -> Result<Option<ServerBench>, AllocError> {
        let Some(machine) = ServerMachine::new(alloc, given, OPEN_RECORDS)? else {
            return Ok(None);
        };
        Ok(Some(ServerBench {
            machine,
            keeps: false,
            between: NOTHING,
            stood: None,
            tried: None,
            counts: NO_STEPS,
        }))
    }

    /// The next step of the file server.
    pub(crate) fn step(&mut self) -> Result<(), Unanswered> {
        let machine = &mut self.machine;
        machine.served.serve(0);
        if !machine.served.is_live() || !has_blocks(&machine.served, &machine.host) {
            return Err(Unanswered::Gone);
        }
        match server_step(&mut machine.served, &mut machine.host) {
            Ok(progress) => {
                let StepCounts { made, seen, waited } = self.counts;
                self.counts = StepCounts {
                    made: made.saturating_add(1),
                    seen: seen.saturating_add((progress == Progress::Visible) as u32),
                    waited: waited.saturating_add((progress == Progress::Waited) as u32),
                };
                Ok(())
            }
            Err(Failed) => Err(Unanswered::HostFailed),
        }
    }

    /// Where it stands.
    pub(crate) fn place(&mut self) -> Option<ServerStep> {
        let served = &mut self.machine.served;
        served.serve(0);
        if !served.is_live() {
            return None;
        }
        let registers = served.registers();
        let words = served.extra();
        Some(find_server(&registers, &words).step)
    }

    /// How many steps the last request was.
    pub(crate) fn steps(&self, alloc: Global) -> Result<String, AllocError> {
        let StepCounts { made, seen, waited } = self.counts;
        format!(in alloc; "{made:x} {seen:x} {waited:x}")
    }

    /// Where the server stood when the client of the last request began to wait, and what the other was answered.
    pub(crate) fn stood(&self, alloc: Global) -> Result<String, AllocError> {
        match (self.stood, self.tried) {
            (Some(step), Some(word)) => format!(in alloc; "{step:?} {word:x}"),
            (Some(step), None) => format!(in alloc; "{step:?}"),
            (None, _) => String::from_str(alloc, "nowhere"),
        }
    }
}

//! An environment that is asked call by call: `load`, `load_byte`, `store`, `store_byte`, `exchange`, `system`, `restore_frame`,
//! `block_read`, `block_write`, `registers`, `set_registers`, `extra` and `set_extra`, as `UserOs` has them.

ghost use Rattle.std.specs.Prelude.{◌%◌, ◌≡◌, ◌<◌, true};
ghost use Rattle.jos_base.specs.declared.numbers.TheConstants.{NENV};
ghost use Rattle.jos_base.specs.SystemCalls.{is_page_address};

use crate::disks::{has_blocks, tell_file};
use crate::telling::{quoted, tell_numbers};
use jos_base::{Called, Extra, NENV, PGSIZE, UTOP};
use jos_cpu::Decodings;
use jos_host::{Failed, MemHost};
use jos_run::Served;
use lib_os::{Stop, UserOs};
use std::alloc::{AllocError, Global};
use test_cases::{given_registers, register_words, twelve_numbers};

/// An environment in a slot, over a host in memory.
#[derive(Drop)]
pub(crate) struct ServedBench {
    served: Served,
    host: MemHost,
    slot: usize,
    ghost in_table: { slot < NENV },
}

/// The multiple of four at an address or before it.
fn aligned(va: u32) -> u32
    ensures { result % 4 ≡ 0 }
{
    va - va % 4
}

/// The page of an address below UTOP.
fn page_at(va: u32) -> u32
    ensures { is_page_address result ≡ true }
{
    let below = va % UTOP;
    below - below % PGSIZE
}

/// A word that a call gave.
fn tell_word(alloc: Global, given: Result<u32, Stop>) -> Result<String, AllocError> {
    match given {
        Ok(word) => format!(in alloc; "{word:x}"),
        Err(stop) => format!(in alloc; "{stop:?}"),
    }
}

/// What a call for a block of the disk has answered.
fn tell_moved(alloc: Global, moved: Result<u32, Failed>) -> Result<String, AllocError> {
    match moved {
        Ok(word) => format!(in alloc; "{word:x}"),
        Err(Failed) => String::from_str(alloc, "the host failed"),
    }
}

/// That a call was made.
fn tell_done(alloc: Global, done: Result<(), Stop>) -> Result<String, AllocError> {
    match done {
        Ok(()) => String::from_str(alloc, "done"),
        Err(stop) => format!(in alloc; "{stop:?}"),
    }
}

impl ServedBench {
    /// The environment that stands in a slot, over a host without files and input at which no call fails.
    pub(crate) fn new(alloc: Global, served: Served, slot: usize) -> ServedBench
        requires { slot < NENV }
    {
        let host = MemHost::new(alloc, Vec::new(alloc), Vec::new(alloc), Vec::new(alloc));
        ServedBench { served, host, slot }
    }

    /// That of slot 0, over a host that is given.
    pub(crate) fn over(served: Served, host: MemHost) -> ServedBench {
        ServedBench {
            served,
            host,
            slot: 0,
        }
    }

    /// Makes a system call.
    fn system_call(&mut self, alloc: Global, given: &str) -> Result<String, AllocError> {
        self.served.serve(self.slot);
        if !self.served.is_live() {
            return String::from_str(alloc, "gone");
        }
        let [number, first, second, third, fourth, fifth, ..] = twelve_numbers(given);
        let args = [first, second, third, fourth, fifth];
        match self.served.system(&mut self.host, number, args) {
            Ok(Called::Answered(word)) => format!(in alloc; "{word:x}"),
            Ok(called) => format!(in alloc; "{called:?}"),
            Err(_) => String::from_str(alloc, "the host failed"),
        }
    }

    /// What is told for a line. Each call is the first for which the environment is served.
    pub(crate) fn asked(
        &mut self,
        alloc: Global,
        call: &str,
        given: &str,
    ) -> Result<String, AllocError> {
        self.served.serve(self.slot);
        if !self.served.is_live() {
            return String::from_str(alloc, "gone");
        }
        let [va, word, ..] = twelve_numbers(given);
        let (served, host) = (&mut self.served, &mut self.host);
        match call {
            "turn" => self.turn(alloc, given),
            "load" => tell_word(alloc, served.load(host, aligned(va))),
            "load_byte" => tell_word(alloc, served.load_byte(host, va).map(u32::from)),
            "store" => tell_done(alloc, served.store(host, aligned(va), word)),
            "store_byte" => tell_done(alloc, served.store_byte(host, va, (word % 256) as u8)),
            "exchange" => tell_word(alloc, served.exchange(host, aligned(va), word)),
            "block_read" => tell_moved(alloc, served.block_read(host, word, page_at(va))),
            "block_write" if has_blocks(served, host) => {
                tell_moved(alloc, served.block_write(host, word, page_at(va)))
            }
            "block_write" => String::from_str(alloc, "the file is shorter"),
            "file" => tell_file(alloc, host),
            "restore_frame" => tell_done(alloc, served.restore_frame(host)),
            "system" => self.system_call(alloc, given),
            _ => self.own_call(alloc, call, given),
        }
    }

    /// Tells or sets what the environment has of its own.
    fn own_call(&mut self, alloc: Global, call: &str, given: &str) -> Result<String, AllocError> {
        self.served.serve(self.slot);
        if !self.served.is_live() {
            return String::from_str(alloc, "gone");
        }
        match call {
            "registers" => tell_numbers(alloc, &register_words(&self.served.registers())),
            "set_registers" => {
                self.served.set_registers(given_registers(given));
                String::from_str(alloc, "done")
            }
            "extra" => {
                let Extra(words) = self.served.extra();
                tell_numbers(alloc, &words)
            }
            "set_extra" => {
                self.served.set_extra(Extra(twelve_numbers(given)));
                String::from_str(alloc, "done")
            }
            _ => String::from_str(alloc, "no call"),
        }
    }

    /// Makes so many steps of the environment in a slot, which is the one that is asked from then on.
    pub(crate) fn turn(&mut self, alloc: Global, given: &str) -> Result<String, AllocError> {
        let [slot, steps, ..] = twelve_numbers(given);
        if slot >= NENV {
            return String::from_str(alloc, "no slot");
        }
        self.slot = slot as usize;
        self.go(alloc, steps)
    }

    /// Makes so many steps of the environment, and tells what comes of them.
    pub(crate) fn go(&mut self, alloc: Global, steps: u32) -> Result<String, AllocError> {
        let mut decodings = Decodings::new(alloc)?;
        for _ in 0..steps {
            self.served.serve(self.slot);
            if !self.served.is_live() || !self.served.is_awake() {
                break;
            }
            if !has_blocks(&self.served, &self.host) {
                return String::from_str(alloc, "the file is shorter");
            }
            let made = self.served.make_steps(&mut self.host, &mut decodings, 1);
            if made.last.is_err() {
                return String::from_str(alloc, "the host failed");
            }
        }
        let printed = quoted(alloc, self.host.console())?;
        if !self.served.is_live() {
            format!(in alloc; "ends {printed}")
        } else if !self.served.is_awake() {
            format!(in alloc; "waits {printed}")
        } else {
            let eax = self.served.registers().eax;
            format!(in alloc; "{eax:x} {printed}")
        }
    }

    /// How the environment stands at last, how many bytes were printed, and which.
    pub(crate) fn end(self, alloc: Global) -> Result<String, AllocError> {
        let ServedBench { served, host, slot } = self;
        let written = served.written();
        let (system, _input) = served.into_parts();
        let status = system.environment(slot).status;
        let printed = quoted(alloc, host.console())?;
        format!(in alloc; "{status:?}, {written} bytes {printed}")
    }
}

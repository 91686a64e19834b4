//! A program is run under the library.

ghost use Rattle.std.specs.Prelude.{◌≡◌, ◌≤◌, [], length, Ok, true, OnErr, vec_capacity, map};
ghost use Rattle.circular_buffer.specs.Buffer.{buffer};
ghost use Rattle.jos_host.specs.Frames.{around, from_to};
ghost use Rattle.jos_base.specs.declared.numbers.TheConstants.{FRAMES_MIN, FRAMES_MAX, TURN_MAX};
ghost use Rattle.jos_elf.specs.Parsed.{parsed};
ghost use Rattle.jos_sys.specs.System.{state_of, Keeps};
ghost use Rattle.lib_os.specs.Disk.{HasBlocks};
ghost use Rattle.jos_elf.specs.StackPage.{fits_stack};
ghost use Rattle.jos_run.specs.Begun.{IsNew};
ghost use Rattle.jos_run.specs.Closing.{IsClosedSo};
ghost use Rattle.jos_run.specs.DiskTouches.{TouchesDiskOnly};
ghost use Rattle.jos_run.specs.RunEnds.{AnswersFor, HasEndCause, HasRunCause, RunsFrom, given_job};
ghost use Rattle.jos_run.specs.Worlds.{told_disk};

use crate::boot::{boot_program, keep_bytes};
use crate::disk::HostDisk;
use crate::library_run::LibraryRun;
use crate::served::Served;
use jos_cpu::Decodings;
use jos_elf::Image;
use jos_host::Host;
use jos_kernel::{BootFault, Report, Stopped, Trace, Turn, take_room};
use jos_sched::Schedule;
use jos_sys::{Input, System};
use std::alloc::Global;

/// What a run is given.
#[derive(Drop)]
pub struct Setup {
    /// How many frames the machine has.
    pub frames: u32,
    pub schedule: Schedule,
    /// The console's input.
    pub input: Vec<u8>,
    /// The most steps.
    pub budget: u64,
    /// How many of the last traps are told.
    pub trace: u32,
}

/// How a run that began has ended. None ends for want of memory, since all of it is taken before.
#[derive(Drop)]
pub enum RunEnd {
    /// By itself, with the last of its traps.
    Ended(Report, Trace),
    /// A call of the host failed.
    HostFault(Stopped),
}

/// Closes a run of which this is told: the file server goes on until its act is made, and the blocks of its cache are written to the disk.
fn close_run<H: Host>(mut served: Served, host: &mut H, report: Report, trace: Trace) -> RunEnd
    requires most { length report.turns ≤ TURN_MAX }
    requires whole { HasBlocks (H.files host.old) served.disk }
    ensures closed { IsClosedSo report trace.items result served (from_to (told_disk (H.files host.old) served.disk) (told_disk (H.files host.new) served.disk)) (around H.console host.old host.new) }
    ensures disk_only { TouchesDiskOnly served.disk (around H.files host.old host.new) (around H.asked host.old host.new) }
    ensures input { H.input host.new ≡ H.input host.old }
    ensures notes { H.notes host.new ≡ H.notes host.old }
    ensures cause { HasEndCause (around H.faults host.old host.new) result }
{
    let closing = served.finish_request(host, report.turns.len() as u32, report.first_refused);
    let Report {
        end,
        steps,
        turns,
        ..
    } = report;
    match closing.outcome {
        Ok(()) => {}
        Err(_) => {
            return RunEnd::HostFault(Stopped {
                turns,
                first_refused: closing.first_refused,
            });
        }
    }
    let refused = served.refused();
    let upcalls = served.upcalls();
    match served.write_back(host) {
        Ok(()) => RunEnd::Ended(
            Report {
                end,
                steps,
                turns,
                closing: closing.steps.min(u32::MAX as u64) as u32,
                refused,
                first_refused: closing.first_refused,
                upcalls,
            },
            trace,
        ),
        Err(_) => RunEnd::HostFault(Stopped {
            turns,
            first_refused: closing.first_refused,
        }),
    }
}

/// Runs a program that was booted. Nothing more is asked of an allocator, so the run ends by itself, unless a call of the
/// host fails.
fn run_booted<H: Host>(
    system: System,
    turns: Vec<Turn>,
    decodings: Decodings,
    trace: Trace,
    host: &mut H,
    disk: HostDisk,
    setup: Setup,
) -> RunEnd
    requires keeps { Keeps system }
    requires new { IsNew (state_of system setup.input.items) setup.frames }
    requires room { TURN_MAX ≤ vec_capacity turns }
    requires empty { turns.items ≡ [] }
    requires trace { trace ≡ buffer [] setup.trace }
    requires whole { HasBlocks (H.files host.old) disk }
    ensures runs { RunsFrom (state_of system setup.input.items) setup result (from_to (told_disk (H.files host.old) disk) (told_disk (H.files host.new) disk)) (around H.console host.old host.new) }
    ensures disk_only { TouchesDiskOnly disk (around H.files host.old host.new) (around H.asked host.old host.new) }
    ensures input { H.input host.new ≡ H.input host.old }
    ensures notes { H.notes host.new ≡ H.notes host.old }
    ensures cause { HasEndCause (around H.faults host.old host.new) result }
{
    let served = Served::new(system, Input::new(setup.input)).with_disk(disk);
    let mut run = LibraryRun::begin(served, setup.schedule, decodings, turns, trace);
    match run.go(host, setup.budget) {
        Ok(end) => {
            let (report, trace, served) = run.finish(end);
            close_run(served, host, report, trace)
        }
        Err(_) => RunEnd::HostFault(run.cut_off()),
    }
}

/// Runs the program of an image that was read from a file, with these words as its arguments, the first of which is its name:
/// as long as an environment but the file server lives and one can run, in turns of the schedule. The file server has the disk.
/// All memory is taken before the first turn.
pub fn run<H: Host>(
    alloc: Global,
    image: &Image,
    file: &[u8],
    words: &[&str],
    host: &mut H,
    disk: HostDisk,
    setup: Setup,
) -> Result<RunEnd, BootFault>
    requires read { parsed file.now ≡ Ok image.now }
    requires least { FRAMES_MIN ≤ setup.frames }
    requires most { setup.frames ≤ FRAMES_MAX }
    requires words { fits_stack (map (λ w. w.now) words.now) ≡ true }
    requires whole { HasBlocks (H.files host.old) disk }
    ensures told { AnswersFor (given_job image.now file.now (map (λ w. w.now) words.now) setup) result (from_to (told_disk (H.files host.old) disk) (told_disk (H.files host.new) disk)) (around H.console host.old host.new) }
    ensures disk_only { TouchesDiskOnly disk (around H.files host.old host.new) (around H.asked host.old host.new) }
    ensures input { H.input host.new ≡ H.input host.old }
    ensures notes { H.notes host.new ≡ H.notes host.old }
    ensures cause { HasRunCause (around H.faults host.old host.new) result }
    // Where no program is booted, nothing is asked of the host.
    ensures unasked { OnErr result (host.new ≡ host.old) }
{
    keep_bytes(setup.input.as_slice());
    let (turns, trace) = match take_room(alloc, setup.trace) {
        Ok(taken) => taken,
        Err(_) => return Err(BootFault::NoMemory),
    };
    let decodings = match Decodings::new(alloc) {
        Ok(decodings) => decodings,
        Err(_) => return Err(BootFault::NoMemory),
    };
    match boot_program(alloc, image, file, words, setup.frames) {
        Ok(system) => Ok(run_booted(system, turns, decodings, trace, host, disk, setup)),
        Err(fault) => Err(fault),
    }
}

//! What is answered of a run, and `run`: a program of a disk under the library.

ghost use Rattle.std.specs.Prelude.{◌≡◌, IfOk, OnErr, Ok, Some, map};
ghost use Rattle.jos_host.specs.Frames.{around};
ghost use Rattle.jos_words.specs.Arguments.{texts, word_in_bytes};
ghost use Rattle.jos_words.specs.Commands.{run, run_in_bytes};
ghost use Rattle.jos_elf.specs.Parsed.{parsed};
ghost use Rattle.lib_os.specs.Disk.{HasBlocks};
ghost use Rattle.jos_run.specs.DiskTouches.{TouchesDiskOnly};
ghost use Rattle.jos_run.specs.RunEnds.{AnswersFor, HasRunCause};
ghost use Rattle.jos_cli.specs.RunAnswers.{job_of, disk_file_of, disks_of};
ghost use Rattle.jos_cli.specs.Stages.{gathered_program_of, outcome_of_run, MayRun};
ghost use Rattle.jos_cli.specs.Outside.{outside};
ghost use Rattle.jos_cli.specs.Effects.{DoesCommand};

use crate::limits::{numbers_of_run, settings_of};
use crate::outcome::{Outcome, Which};
use crate::programs::{ReadProgram, gather_program};
use jos_base::NoMemory;
use jos_host::Host;
use jos_kernel::BootFault;
use jos_run::{HostDisk, RunEnd, Setup, run};
use jos_words::{RunWords, WordAt};
use std::alloc::Global;

/// The answer where a run has ended, and where none was booted.
pub(crate) fn outcome_of_run(run: Result<RunEnd, BootFault>) -> Outcome
    ensures { result ≡ outcome_of_run run }
{
    match run {
        Ok(RunEnd::Ended(report, trace)) => Outcome::Ran(report, trace),
        Ok(RunEnd::HostFault(stopped)) => Outcome::HostFault(stopped),
        Err(BootFault::Pool) => Outcome::Limit(Which::Boot),
        Err(BootFault::NoMemory) => Outcome::NoMemory,
    }
}

/// The texts of words.
fn arguments_of<'a>(alloc: Global, words: &[WordAt<'a>]) -> Result<Vec<&'a str>, NoMemory>
    ensures { IfOk result (λ arguments. texts arguments.items ≡ map (λ word. word.text) (map word_in_bytes words.now)) }
{
    Ok(words.iter().map(|word| word.text).collect(alloc)?)
}

/// The disk that a file is, of so many blocks.
fn disk_named(alloc: Global, name: &str, blocks: u32) -> Result<HostDisk, NoMemory>
    ensures { IfOk result (λ disk. disk ≡ record { name = name.now; blocks = blocks }) }
{
    Ok(HostDisk {
        name: String::from_str(alloc, name)?,
        blocks,
    })
}

/// Runs the program that was read, with its words as arguments, over the disk on which it stands.
fn run_loaded<H: Host>(
    alloc: Global,
    words: &RunWords,
    arguments: &[&str],
    read: ReadProgram,
    host: &mut H,
) -> Result<RunEnd, BootFault>
    requires may { MayRun (run_in_bytes words.now) (texts arguments.now) }
    requires read { parsed read.file.items ≡ Ok read.image }
    requires whole { HasBlocks (H.files host.old) (disk_file_of (run_in_bytes words.now) (gathered_program_of read)) }
    ensures told { AnswersFor (job_of (run_in_bytes words.now) (gathered_program_of read)) result
        (disks_of (run_in_bytes words.now) (gathered_program_of read) (around H.files host.old host.new)) (around H.console host.old host.new) }
    ensures disk_only { TouchesDiskOnly (disk_file_of (run_in_bytes words.now) (gathered_program_of read))
        (around H.files host.old host.new) (around H.asked host.old host.new) }
    ensures input { H.input host.new ≡ H.input host.old }
    ensures notes { H.notes host.new ≡ H.notes host.old }
    ensures cause { HasRunCause (around H.faults host.old host.new) result }
    // Where no program is booted, nothing is asked of the host.
    ensures unasked { OnErr result (host.new ≡ host.old) }
{
    let Ok(disk) = disk_named(alloc, words.disk.text, read.blocks) else {
        return Err(BootFault::NoMemory);
    };
    let settings = settings_of(numbers_of_run(words));
    let setup = Setup {
        frames: settings.frames,
        schedule: read.schedule,
        input: read.input,
        budget: settings.steps,
        trace: settings.trace,
    };
    run(alloc, &read.image, &read.file, arguments, host, disk, setup)
}

/// Does what the words of `run` ask, but for the note.
pub(crate) fn answer_run<H: Host>(alloc: Global, words: &RunWords, host: &mut H) -> Outcome
    ensures did { DoesCommand (Some (run (run_in_bytes words.now))) result (outside H.Host host.old host.new) }
{
    let Ok(arguments) = arguments_of(alloc, &words.words) else {
        return Outcome::NoMemory;
    };
    match gather_program(alloc, words, &arguments, host) {
        Ok(read) => outcome_of_run(run_loaded(alloc, words, &arguments, read, host)),
        Err(outcome) => outcome,
    }
}

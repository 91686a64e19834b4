//! `gen`: a program that is made from a number, on a disk of its own, and its run.

ghost use Rattle.std.specs.Prelude.{◌≡◌, Some, IfOk};
ghost use Rattle.std.specs.Result.{result_err};
ghost use Rattle.jos_words.specs.Commands.{gen, gen_in_bytes, run_in_bytes};
ghost use Rattle.jos_cli.specs.Commands.{run_of_gen};
ghost use Rattle.jos_cli.specs.Making.{work_files, IsMemoryFault, work_disk};
ghost use Rattle.jos_cli.specs.Outside.{outside};
ghost use Rattle.jos_cli.specs.Effects.{DoesCommand, MakesFile};

use crate::files::{host_fault, write_file};
use crate::limits::limit_of_seed;
use crate::outcome::Outcome;
use crate::running::answer_run;
use fs_make::{MakeFault, make};
use jos_base::NoMemory;
use jos_demo::{work, workload_of};
use jos_host::{Host, NamedBytes};
use jos_words::{GenWords, RunWords, WordAt};
use std::alloc::Global;

/// How many blocks the disk has.
const WORK_BLOCKS: u32 = 256;

/// The program's path on the disk.
const WORK_PATH: &str = "work";

/// The files of the disk: one, which is the program for the seed.
fn work_files(alloc: Global, seed: u32) -> Result<Vec<NamedBytes>, NoMemory>
    ensures { IfOk result (λ files. files.items ≡ work_files seed) }
{
    let bytes = work(alloc, workload_of(seed))?;
    let name = String::from_str(alloc, WORK_PATH)?;
    let mut files = Vec::new(alloc);
    files.push(NamedBytes { name, bytes })?;
    Ok(files)
}

/// What is left of the faults of files of which a disk can be made.
fn only_memory(fault: MakeFault) -> NoMemory
    requires { IsMemoryFault fault }
{
    match fault {
        MakeFault::NoMemory => NoMemory,
        _ => unreachable!(),
    }
}

/// The disk. It can be made for every seed.
#[tactic(auto, unfolding(crate::specs::Making::work_disk))]
fn work_disk(alloc: Global, seed: u32) -> Result<Vec<u8>, NoMemory>
    ensures { IfOk result (λ disk. disk.items ≡ work_disk seed) }
{
    let files = work_files(alloc, seed)?;
    match make(alloc, WORK_BLOCKS, &files) {
        Ok(disk) => Ok(disk),
        Err(fault) => Err(only_memory(fault)),
    }
}

/// Makes the disk and writes it.
fn make_work<H: Host>(alloc: Global, name: &str, seed: u32, host: &mut H) -> Result<(), Outcome>
    ensures did { MakesFile name.now (work_disk seed) (result_err result) (outside H.Host host.old host.new) }
{
    let Ok(disk) = work_disk(alloc, seed) else {
        return Err(Outcome::NoMemory);
    };
    match write_file(name, &disk, host) {
        Ok(()) => Ok(()),
        Err(_) => Err(host_fault(alloc)),
    }
}

/// The words of its run. The path is no word of the command line, and has the place of the disk's.
fn run_of_gen<'a>(alloc: Global, words: GenWords<'a>) -> Result<RunWords<'a>, NoMemory>
    ensures { IfOk result (λ run. run_in_bytes run ≡ run_of_gen (gen_in_bytes words.entry)) }
{
    let mut own = Vec::new(alloc);
    own.push(WordAt {
        place: words.disk.place,
        text: WORK_PATH,
    })?;
    Ok(RunWords {
        frames: None,
        steps: None,
        schedule: None,
        trace: None,
        disk: words.disk,
        words: own,
    })
}

/// Does what the words of `gen` ask, but for the note.
pub(crate) fn answer_gen<'a, H: Host>(alloc: Global, words: GenWords<'a>, host: &mut H) -> Outcome
    ensures did { DoesCommand (Some (gen (gen_in_bytes words.entry))) result (outside H.Host host.old host.new) }
{
    if let Some(which) = limit_of_seed(words.seed) {
        return Outcome::Limit(which);
    }
    let Ok(run) = run_of_gen(alloc, words) else {
        return Outcome::NoMemory;
    };
    match make_work(alloc, words.disk.text, words.seed.value as u32, host) {
        Ok(()) => answer_run(alloc, &run, host),
        Err(outcome) => outcome,
    }
}

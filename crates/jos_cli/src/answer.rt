//! The top call.

ghost use Rattle.std.specs.Prelude.{◌≡◌, ℕ, List, All, map, Some, None, IsSome, OnErr};
ghost use Rattle.jos_host.specs.Files.{Files};
ghost use Rattle.jos_host.specs.Told.{Rose};
ghost use Rattle.jos_host.specs.Frames.{Unchanged, around};
ghost use Rattle.jos_words.specs.Arguments.{texts};
ghost use Rattle.jos_words.specs.Commands.{Exo, Run, Demo, Mkfs, Ls, Cat, Gen, exo, run, demo, mkfs, ls, cat, gen};
ghost use Rattle.jos_words.specs.Commands.{exo_in_bytes, demo_in_bytes};
ghost use Rattle.jos_demo.specs.Programs.{file_of};
ghost use Rattle.jos_kernel.specs.Boot.{loadables};
ghost use Rattle.jos_kernel.specs.Loading.{IsRead};
ghost use Rattle.jos_kernel.specs.ExoRun.{run_from};
ghost use Rattle.jos_kernel.specs.Kernel.{progress_of, nothing, Counts, Holds};
ghost use Rattle.jos_cli.specs.Commands.{known, command_of, program_file};
ghost use Rattle.jos_cli.specs.Limits.{AreWithin, limit_of_seed};
ghost use Rattle.jos_cli.specs.Found.{found_in, run_found_in};
ghost use Rattle.jos_cli.specs.Answer.{expected_of_run, expected_of_images, expected_of_demo};
ghost use Rattle.jos_cli.specs.Kinds.{Answers};
ghost use Rattle.jos_cli.specs.Outcomes.{AnswersCommand, HasOutcomeCause, HasCommandCause, IsUsageCase};
ghost use Rattle.jos_cli.specs.Outcomes.{CanRun, CanRunProgram, CanGenerate, CanMake, CanList, CanPrint};
ghost use Rattle.jos_cli.specs.Outcomes.{IsRunCase, IsGeneratedCase, IsMadeCase, IsMemoryCase, LeavesInput};
ghost use Rattle.jos_cli.specs.Stages.{gathered_of, outcome_of_end, outcome_of_run, cut_if, cut_behind};
ghost use Rattle.jos_cli.specs.FilesAsked.{AsksNote, AsksOnly};
ghost use Rattle.jos_cli.specs.FilesLeft.{LeavesFiles, LeavesAtNoMemory, LeavesGoodDisk};
ghost use Rattle.jos_cli.specs.Notes.{IsNoted};
ghost use Rattle.jos_cli.specs.FaultNotes.{IfHostFault, FaultIsNoted};
ghost use Rattle.jos_cli.specs.Outside.{outside};
ghost use Rattle.jos_cli.specs.Effects.{DoesCommand, WritesFile};

use crate::disks::{answer_cat, answer_ls};
use crate::files::{host_fault, write_made};
use crate::generating::answer_gen;
use crate::limits::{Numbers, Settings, limit_of_words, numbers_of_exo, settings_of};
use crate::loading::{ReadForRun, gather};
use crate::making::answer_mkfs;
use crate::notes::write_note;
use crate::outcome::{Outcome, Report, Stopped};
use crate::running::{answer_run, outcome_of_run};
use jos_demo::{is_program, program};
use jos_host::Host;
use jos_kernel::{BootFault, ExoEnd, Kernel, exo_run};
use jos_run::RunEnd;
use jos_words::{CommandWords, DemoWords, ExoWords, WordsFault, read_words};
use std::alloc::Global;

/// Does what the words ask: `exo [--frames N] [--steps N] [--schedule FILE] [--trace N] IMAGE..` runs the images,
/// `run [--frames N] [--steps N] [--schedule FILE] [--trace N] DISK PATH [WORD..]` runs a program of a disk under the
/// library, and `demo NAME FILE` writes an example program. `mkfs DISK BLOCKS [FILE..]` makes a disk of the files,
/// `ls DISK [PATH]` prints the records of a directory of a disk, and `cat DISK PATH` the bytes of a file of it.
/// `gen SEED DISK` makes a disk of one program, which is made from a number, and runs that as `run` does. The words are
/// those behind the program's name. Each answer has its note, one line, and before it stand the last traps of a run, as
/// many as the words ask for; where a call of the host fails, the note `host fault` is tried once.
///
/// (The lines and limits are in `docs/commands.md`.)
pub fn top<'a, H: Host>(alloc: Global, words: &'a [&'a str], host: &mut H) -> Outcome
    // The answer and the console are what the words decide with the files that they name and, of a run, the input: those
    // that the host tells, and else some; where a call of the host failed, the console has a part of that. What `run`
    // answers and prints is told by the turns of its report, by the abstract system that begins with the files of its disk. What `gen`
    // answers is what `run` does of the files with the disk that is made.
    ensures answer { AnswersCommand (around H.files host.old host.new) (H.input host.old) (command_of (map (λ w. w.now) words.now)) result
        (around H.console host.old host.new) }
    // The notes are the lines of the traps that are told, and the line of the answer.
    ensures notes { IsNoted (map (λ w. w.now) words.now) result (around H.notes host.old host.new) }
    // Where a call of the host failed, it is the line `host fault`, or a part of that or of the answer's own line where
    // the note failed.
    ensures fault { IfHostFault result (FaultIsNoted (around H.files host.old host.new) (H.input host.old) (map (λ w. w.now) words.now)
        (around H.faults host.old host.new) (around H.console host.old host.new) (around H.notes host.old host.new)) }

    // Each answer has its cause.
    ensures usage { IsUsageCase (command_of (map (λ w. w.now) words.now)) result }
    ensures cause { HasCommandCause (command_of (map (λ w. w.now) words.now)) (around H.faults host.old host.new) result }
    // Want of memory comes before anything is written to the console or to a file, but that `gen` may have made its disk.
    ensures memory { result ≡ Outcome.NoMemory → (H.console host.new ≡ H.console host.old)
        × LeavesAtNoMemory (command_of (map (λ w. w.now) words.now)) (around H.files host.old host.new) }
    // Images are run where the words, the files, the input and the frames allow it, unless a call of the host fails.
    ensures complete { (files : Files) (input : List ℕ) (e : Exo) →
        H.files host.old ≡ Some files → H.input host.old ≡ Some input → command_of (map (λ w. w.now) words.now) ≡ Some (exo e) →
        CanRun e (found_in files e) input → (Rose (H.faults host.old) (H.faults host.new) → ⊥) → IsRunCase result }
    // A program of a disk without a fault is run under the library where the same allows it.
    ensures ran { (files : Files) (input : List ℕ) (r : Run) →
        H.files host.old ≡ Some files → H.input host.old ≡ Some input → command_of (map (λ w. w.now) words.now) ≡ Some (run r) →
        CanRunProgram r (run_found_in files r) input → (Rose (H.faults host.old) (H.faults host.new) → ⊥) → IsRunCase result }
    // The program that is made from a number is run, whatever stood under the disk's name.
    ensures generated { (files : Files) (input : List ℕ) (g : Gen) →
        H.files host.old ≡ Some files → H.input host.old ≡ Some input → command_of (map (λ w. w.now) words.now) ≡ Some (gen g) →
        CanGenerate g input → (Rose (H.faults host.old) (H.faults host.new) → ⊥) → IsRunCase result }
    // With a number within its limits no refusal comes but that the input is too long: the disk that is made has no fault, and
    // the program is there, is an image and has frames enough.
    ensures accepted { (files : Files) (g : Gen) → H.files host.old ≡ Some files →
        command_of (map (λ w. w.now) words.now) ≡ Some (gen g) → limit_of_seed g.seed ≡ None → IsGeneratedCase result }
    // An example program is written, unless a call of the host fails.
    ensures made { (d : Demo) → command_of (map (λ w. w.now) words.now) ≡ Some (demo d) →
        (Rose (H.faults host.old) (H.faults host.new) → ⊥) → IsMadeCase result }
    // A disk is made where the number, the files and the room allow it, unless a call of the host fails.
    ensures disk_made { (files : Files) (m : Mkfs) →
        H.files host.old ≡ Some files → command_of (map (λ w. w.now) words.now) ≡ Some (mkfs m) → CanMake m files →
        (Rose (H.faults host.old) (H.faults host.new) → ⊥) → IsMadeCase result }
    // A directory and a file are printed where the disk has no fault and the path leads there, unless a call of the host
    // fails.
    ensures listed { (files : Files) (l : Ls) →
        H.files host.old ≡ Some files → command_of (map (λ w. w.now) words.now) ≡ Some (ls l) → CanList l files →
        (Rose (H.faults host.old) (H.faults host.new) → ⊥) → IsMadeCase result }
    ensures printed { (files : Files) (c : Cat) →
        H.files host.old ≡ Some files → command_of (map (λ w. w.now) words.now) ≡ Some (cat c) → CanPrint c files →
        (Rose (H.faults host.old) (H.faults host.new) → ⊥) → IsMadeCase result }

    // Every name keeps its bytes but the one that `demo` or `mkfs` writes, which has those of the program or the disk, and the
    // disk of `run`, which keeps its length. The disk of `gen` has those that are made, and is then that of a run.
    ensures files { LeavesFiles (command_of (map (λ w. w.now) words.now)) result (around H.files host.old host.new) }
    // What `mkfs` writes is a disk without a fault, and it has the files that the words name.
    ensures disk { LeavesGoodDisk (command_of (map (λ w. w.now) words.now)) result (around H.files host.old host.new) }
    // Only `exo`, `run` and `gen` read input, once they have read all files: all of it, up to one byte past the limit.
    ensures input { LeavesInput (command_of (map (λ w. w.now) words.now)) result (around H.input host.old host.new) }
    // Only files that the words name are asked for, in their order, each call once, but that a disk is read in pieces, and that a run
    // reads and writes blocks of its disk, which `gen` writes whole before; and behind them notes are written, whatever is answered.
    ensures asked { AsksOnly (command_of (map (λ w. w.now) words.now)) (around H.asked host.old host.new) }
{
    let (outcome, is_run) = answer_words(alloc, words, host);
    match write_note(&outcome, words, host) {
        Ok(()) => outcome,
        Err(_) => note_fault(alloc, outcome, is_run),
    }
}

/// The answer where the note of another could not be written. For a run under the library it tells the turns that were taken.
fn note_fault(alloc: Global, own: Outcome, is_run: bool) -> Outcome
    ensures { result ≡ Outcome.HostFault (cut_if is_run own) }
{
    if !is_run {
        return host_fault(alloc);
    }
    match own {
        Outcome::Ran(report, _) => {
            let Report {
                turns,
                first_refused,
                ..
            } = report;
            Outcome::HostFault(Stopped {
                turns,
                first_refused,
            })
        }
        Outcome::HostFault(stopped) => Outcome::HostFault(stopped),
        _ => host_fault(alloc),
    }
}

/// The answer where there is no memory for the words, with its note.
pub(crate) fn refuse_words<H: Host>(alloc: Global, host: &mut H) -> Outcome
    // This is an answer to any words, with the note that it has for any.
    ensures answer { (words : List (List ℕ)) → AnswersCommand (around H.files host.old host.new) (H.input host.old) (command_of words) result
        (around H.console host.old host.new) }
    ensures notes { (words : List (List ℕ)) → IsNoted words result (around H.notes host.old host.new) }
    ensures fault { (words : List (List ℕ)) → IfHostFault result (FaultIsNoted (around H.files host.old host.new) (H.input host.old) words
        (around H.faults host.old host.new) (around H.console host.old host.new) (around H.notes host.old host.new)) }
    ensures cause { HasOutcomeCause (around H.faults host.old host.new) result }
    ensures files { H.files host.new ≡ H.files host.old }
    ensures input { H.input host.new ≡ H.input host.old }
    ensures console { H.console host.new ≡ H.console host.old }
    ensures asked { AsksNote (around H.asked host.old host.new) }
    ensures memory { IsMemoryCase result }
{
    match write_note(&Outcome::NoMemory, &[], host) {
        Ok(()) => Outcome::NoMemory,
        Err(_) => host_fault(alloc),
    }
}

/// Runs the kernel that was booted. Nothing more is asked of an allocator, so the run ends as it is defined to end,
/// unless a call of the host fails.
fn run_kernel<H: Host>(mut kernel: Kernel, settings: Settings, host: &mut H) -> RunEnd
    requires holds { Holds kernel }
    requires counts { Counts kernel (record nothing { kept = settings.trace }) }
    requires first { kernel.book.steps ≡ 0 }
    ensures told { Answers (expected_of_run settings.trace (Some (run_from kernel.book.schedule settings.steps (progress_of kernel nothing))))
        (outcome_of_end result) (around H.console host.old host.new) }
    ensures rest { Unchanged H.files H.input H.asked H.notes host.old host.new }
    ensures cause { HasOutcomeCause (around H.faults host.old host.new) (outcome_of_end result) }
{
    match exo_run(&mut kernel, host, settings.steps) {
        ExoEnd::Ended(end) => {
            let (report, trace) = kernel.finish(end);
            RunEnd::Ended(report, trace)
        }
        ExoEnd::HostFault => RunEnd::HostFault(kernel.cut_off()),
    }
}

/// Boots the images and runs them, if they can be booted.
fn run_loaded<H: Host>(
    alloc: Global,
    read: ReadForRun,
    numbers: Numbers,
    host: &mut H,
) -> Result<RunEnd, BootFault>
    requires read { All IsRead (loadables read.images.images.items read.images.files.items) }
    requires within { AreWithin numbers }
    ensures told { Answers (expected_of_images numbers (gathered_of read)) (outcome_of_run result) (around H.console host.old host.new) }
    ensures rest { Unchanged H.files H.input H.asked H.notes host.old host.new }
    ensures cause { HasOutcomeCause (around H.faults host.old host.new) (outcome_of_run result) }
    // Where no kernel is booted, nothing is asked of the host.
    ensures unasked { OnErr result (host.new ≡ host.old) }
{
    let settings = settings_of(numbers);
    let ReadForRun {
        schedule,
        images,
        input,
    } = read;
    match Kernel::boot(
        alloc,
        &images.images,
        &images.files,
        settings.frames,
        input,
        schedule,
        settings.trace,
    ) {
        Ok(kernel) => Ok(run_kernel(kernel, settings, host)),
        Err(fault) => Err(fault),
    }
}

/// Does what the words of `exo` ask, but for the note.
fn answer_exo<H: Host>(alloc: Global, words: &ExoWords, host: &mut H) -> Outcome
    ensures did { DoesCommand (Some (exo (exo_in_bytes words.now))) result (outside H.Host host.old host.new) }
{
    match gather(
        alloc,
        limit_of_words(words),
        words.schedule,
        &words.images,
        host,
    ) {
        Ok(read) => outcome_of_run(run_loaded(alloc, read, numbers_of_exo(words), host)),
        Err(outcome) => outcome,
    }
}

/// Writes the file of an example program.
fn write_program<H: Host>(alloc: Global, name: &str, file: &str, host: &mut H) -> Outcome
    requires { IsSome (file_of name.now) }
    ensures did { WritesFile (expected_of_demo name.now) file.now (program_file name.now) result (outside H.Host host.old host.new) }
{
    match program(alloc, name) {
        Ok(Some(bytes)) => write_made(alloc, file, &bytes, host),
        Ok(None) => unreachable!(),
        Err(_) => Outcome::NoMemory,
    }
}

/// Does what the words of `demo` ask, but for the note.
fn answer_demo<'a, H: Host>(alloc: Global, words: DemoWords<'a>, host: &mut H) -> Outcome
    ensures did { DoesCommand (known (Some (demo (demo_in_bytes words.entry)))) result (outside H.Host host.old host.new) }
{
    if is_program(words.name.text) {
        write_program(alloc, words.name.text, words.file.text, host)
    } else {
        Outcome::Usage
    }
}

/// Does what the words ask, but for the note, and says whether that was to run a program under the library.
fn answer_words<'a, H: Host>(alloc: Global, words: &'a [&'a str], host: &mut H) -> (Outcome, bool)
    ensures did { DoesCommand (command_of (texts words.now)) result.0 (outside H.Host host.old host.new) }
    ensures cut { cut_if result.1 result.0 ≡ cut_behind (command_of (texts words.now)) result.0 }
{
    match read_words(alloc, words) {
        Ok(CommandWords::Exo(words)) => (answer_exo(alloc, &words, host), false),
        Ok(CommandWords::Run(words)) => (answer_run(alloc, &words, host), true),
        Ok(CommandWords::Demo(words)) => (answer_demo(alloc, words, host), false),
        Ok(CommandWords::Mkfs(words)) => (answer_mkfs(alloc, &words, host), false),
        Ok(CommandWords::Ls(words)) => (answer_ls(alloc, words, host), false),
        Ok(CommandWords::Cat(words)) => (answer_cat(alloc, words, host), false),
        Ok(CommandWords::Gen(words)) => (answer_gen(alloc, words, host), true),
        Err(WordsFault::Usage) => (Outcome::Usage, false),
        Err(WordsFault::NoMemory) => (Outcome::NoMemory, false),
    }
}

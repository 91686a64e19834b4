//! The words as std hands them out.

ghost use Rattle.std.specs.Prelude.{◌≡◌, ℕ, List, Some, None, IfOk, map, drop, string_bytes};
ghost use Rattle.jos_host.specs.Files.{Files};
ghost use Rattle.jos_host.specs.Told.{Rose};
ghost use Rattle.jos_host.specs.Frames.{around};
ghost use Rattle.jos_words.specs.Commands.{Exo, Run, Demo, Mkfs, Ls, Cat, Gen, exo, run, demo, mkfs, ls, cat, gen};
ghost use Rattle.jos_cli.specs.Commands.{command_of};
ghost use Rattle.jos_cli.specs.Limits.{limit_of_seed};
ghost use Rattle.jos_cli.specs.Found.{found_in, run_found_in};
ghost use Rattle.jos_cli.specs.Given.{words_left, given_words};
ghost use Rattle.jos_cli.specs.Outcomes.{AnswersCommand, HasCommandCause, IsUsageCase};
ghost use Rattle.jos_cli.specs.Outcomes.{CanRun, CanRunProgram, CanGenerate, CanMake, CanList, CanPrint};
ghost use Rattle.jos_cli.specs.Outcomes.{IsRunCase, IsGeneratedCase, IsMadeCase, LeavesInput};
ghost use Rattle.jos_cli.specs.FilesAsked.{AsksOnly};
ghost use Rattle.jos_cli.specs.FilesLeft.{LeavesFiles, LeavesAtNoMemory, LeavesGoodDisk};
ghost use Rattle.jos_cli.specs.Notes.{IsNoted};
ghost use Rattle.jos_cli.specs.FaultNotes.{IfHostFault, FaultIsNoted};

use crate::answer::{refuse_words, top};
use crate::outcome::Outcome;
use jos_base::NoMemory;
use jos_host::Host;
use std::alloc::Global;
use std::env::Args;
use std::io;

/// The texts that std hands out; where one is no text, none.
fn read_texts(alloc: Global, read: io::Result<Args>) -> Result<Vec<String>, NoMemory>
    ensures { IfOk result (λ texts. drop 1 (map (λ t. string_bytes t) texts.items) ≡ given_words read) }
{
    match read {
        Ok(arguments) => Ok(arguments.collect(alloc)?),
        Err(error) if error.kind() == io::ErrorKind::OutOfMemory => Err(NoMemory),
        Err(_) => Ok(Vec::new(alloc)),
    }
}

/// The texts behind the first.
fn words_of<'a>(alloc: Global, texts: &'a [String]) -> Result<Vec<&'a str>, NoMemory>
    ensures { IfOk result (λ words. map (λ w. w.now) words.items ≡ drop 1 (map (λ t. string_bytes t) texts.now)) }
{
    Ok(
        texts
            .iter()
            .skip(1)
            .map(|text| text.as_str())
            .collect(alloc)?,
    )
}

/// Does what the words ask that std hands out, as `top` does. Words of which one is no text are no command.
pub fn answer_texts<H: Host>(alloc: Global, read: io::Result<Args>, host: &mut H) -> Outcome
    // These are the clauses of `top`, of the words that std hands out.
    ensures answer { AnswersCommand (around H.files host.old host.new) (H.input host.old) (command_of (given_words read)) result
        (around H.console host.old host.new) }
    ensures notes { IsNoted (given_words read) result (around H.notes host.old host.new) }
    ensures fault { IfHostFault result (FaultIsNoted (around H.files host.old host.new) (H.input host.old) (given_words read)
        (around H.faults host.old host.new) (around H.console host.old host.new) (around H.notes host.old host.new)) }
    ensures usage { IsUsageCase (command_of (given_words read)) result }
    ensures cause { HasCommandCause (command_of (given_words read)) (around H.faults host.old host.new) result }
    ensures memory { result ≡ Outcome.NoMemory → (H.console host.new ≡ H.console host.old)
        × LeavesAtNoMemory (command_of (given_words read)) (around H.files host.old host.new) }
    ensures complete { (files : Files) (input : List ℕ) (e : Exo) →
        H.files host.old ≡ Some files → H.input host.old ≡ Some input → command_of (given_words read) ≡ Some (exo e) →
        CanRun e (found_in files e) input → (Rose (H.faults host.old) (H.faults host.new) → ⊥) → IsRunCase result }
    ensures ran { (files : Files) (input : List ℕ) (r : Run) →
        H.files host.old ≡ Some files → H.input host.old ≡ Some input → command_of (given_words read) ≡ Some (run r) →
        CanRunProgram r (run_found_in files r) input → (Rose (H.faults host.old) (H.faults host.new) → ⊥) → IsRunCase result }
    ensures generated { (files : Files) (input : List ℕ) (g : Gen) →
        H.files host.old ≡ Some files → H.input host.old ≡ Some input → command_of (given_words read) ≡ Some (gen g) →
        CanGenerate g input → (Rose (H.faults host.old) (H.faults host.new) → ⊥) → IsRunCase result }
    ensures accepted { (files : Files) (g : Gen) → H.files host.old ≡ Some files → command_of (given_words read) ≡ Some (gen g) →
        limit_of_seed g.seed ≡ None → IsGeneratedCase result }
    ensures made { (d : Demo) → command_of (given_words read) ≡ Some (demo d) →
        (Rose (H.faults host.old) (H.faults host.new) → ⊥) → IsMadeCase result }
    ensures disk_made { (files : Files) (m : Mkfs) → H.files host.old ≡ Some files → command_of (given_words read) ≡ Some (mkfs m) →
        CanMake m files → (Rose (H.faults host.old) (H.faults host.new) → ⊥) → IsMadeCase result }
    ensures listed { (files : Files) (l : Ls) → H.files host.old ≡ Some files → command_of (given_words read) ≡ Some (ls l) →
        CanList l files → (Rose (H.faults host.old) (H.faults host.new) → ⊥) → IsMadeCase result }
    ensures printed { (files : Files) (c : Cat) → H.files host.old ≡ Some files → command_of (given_words read) ≡ Some (cat c) →
        CanPrint c files → (Rose (H.faults host.old) (H.faults host.new) → ⊥) → IsMadeCase result }
    ensures files { LeavesFiles (command_of (given_words read)) result (around H.files host.old host.new) }
    ensures disk { LeavesGoodDisk (command_of (given_words read)) result (around H.files host.old host.new) }
    ensures input { LeavesInput (command_of (given_words read)) result (around H.input host.old host.new) }
    ensures asked { AsksOnly (command_of (given_words read)) (around H.asked host.old host.new) }
{
    let Ok(texts) = read_texts(alloc, read) else {
        return refuse_words(alloc, host);
    };
    let Ok(words) = words_of(alloc, &texts) else {
        return refuse_words(alloc, host);
    };
    top(alloc, &words, host)
}

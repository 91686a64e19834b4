//! What spawn does next, and where it reads its file.

ghost use Rattle.std.specs.Prelude.{◌≡◌};
ghost use Rattle.lib_image.specs.SpawnNexts as nexts;

use jos_base::E_IPC_NOT_RECV;
use jos_elf::E_NOT_EXEC;
use lib_os::{SpawnStep, Step, UndoingStep};
use lib_stage::Next;

/// It goes on at a step of its own, which nobody sees.
pub fn go_on(at: SpawnStep) -> Next
    ensures { result ≡ nexts.goes_on at }
{
    Next::GoOn(Step::Spawning { at })
}

/// The same, where it has made a step of the abstract system.
pub fn show(at: SpawnStep) -> Next
    ensures { result ≡ nexts.shows at }
{
    Next::Show(Step::Spawning { at })
}

/// What it does by the word that came where it asked the file server: it pauses and asks again, or is refused, or waits for the reply.
pub(crate) fn next_by(
    pausing: SpawnStep,
    awaiting: SpawnStep,
    refused: SpawnStep,
    word: u32,
) -> Next
    ensures { result ≡ nexts.next_by pausing awaiting refused word }
{
    if word == E_IPC_NOT_RECV.wrapping_neg() {
        return Next::Wait(Step::Spawning { at: pausing });
    }
    if word != 0 {
        return go_on(refused);
    }
    show(awaiting)
}

/// Its file, which this descriptor names, is no image: the descriptor is dropped first.
pub(crate) fn no_image(fd: u32) -> SpawnStep
    ensures { result ≡ nexts.no_image fd }
{
    SpawnStep::Undoing {
        at: UndoingStep::ClosingFile {
            fd,
            error: E_NOT_EXEC.wrapping_neg(),
        },
    }
}

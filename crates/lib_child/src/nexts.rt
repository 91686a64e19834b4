//! What spawn does next, where it has a child to make.

ghost use Rattle.std.specs.Prelude.{◌≡◌};
ghost use Rattle.lib_child.specs.ChildNexts as nexts;

use lib_image::go_on;
use lib_os::{SpawnStep, UndoingStep};
use lib_stage::Next;

/// It goes on where the word that came is 0; any other tells an error, with which it destroys the child, and then drops the descriptor of its file.
pub fn unless_refused(fd: u32, child: u32, word: u32, at: SpawnStep) -> Next
    ensures { result ≡ nexts.unless_refused fd child word at }
{
    if word != 0 {
        return go_on(SpawnStep::Undoing {
            at: UndoingStep::DestroyingChild {
                fd,
                child,
                error: word,
            },
        });
    }
    go_on(at)
}

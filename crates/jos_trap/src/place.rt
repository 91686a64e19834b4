//! Where the frame of a page fault stands.

ghost use Rattle.std.specs.Prelude.{◌≡◌};
ghost use Rattle.jos_base.specs.TrapFrames.{upcall_place};
ghost use Rattle.jos_trap.specs.Places.{upcall_address};

use crate::frame::FRAME_SIZE;
use jos_base::{PGSIZE, UXSTACKTOP};

/// The first address of the exception stack.
const EXCEPTION_STACK: u32 = UXSTACKTOP - PGSIZE;

/// The bytes of a frame and of the word that is left empty above it.
const NESTED: u32 = FRAME_SIZE as u32 + 4;

/// Where the frame of a page fault stands.
#[derive(Clone, Copy, Debug, PartialEq, Eq)]
pub enum UpcallPlace {
    /// From this address on.
    At(u32),
    /// Nowhere: it would begin below the exception stack.
    Overflow,
}

/// Where the frame of a fault with this ESP stands: at the top of the exception stack, or, where ESP lies in that stack
/// and so the fault was in a handler, below ESP and a word that is left empty. (MIT 6.828, kern/trap.c,
/// `page_fault_handler`)
#[tactic(auto, unfolding(jos_base::specs::TrapFrames::upcall_place))]
pub fn upcall_place(esp: u32) -> UpcallPlace
    ensures { upcall_address result ≡ upcall_place esp }
{
    if esp < EXCEPTION_STACK || esp >= UXSTACKTOP {
        return UpcallPlace::At(UXSTACKTOP - FRAME_SIZE as u32);
    }
    if esp < EXCEPTION_STACK + NESTED {
        return UpcallPlace::Overflow;
    }
    UpcallPlace::At(esp - NESTED)
}

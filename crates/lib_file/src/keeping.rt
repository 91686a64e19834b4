//! The page of its own in which a service keeps what it loads.

ghost use Rattle.std.specs.Prelude.{◌≡◌};
ghost use Rattle.lib_file.specs.Keeping as keeping;

use jos_base::{PGSIZE, UTEMP};
use lib_stage::Ask;

/// How many of the bytes that are left of a word are put at this place of the page at once.
pub fn kept_at_once(at: u32, left: u32) -> u32
    ensures { result ≡ keeping.kept_at_once at left }
{
    if at % 4 == 0 && left == 4 { 4 } else { 1 }
}

/// What is asked to put them there.
pub fn ask_keeping(at: u32, word: u32, left: u32) -> Ask
    ensures { result ≡ keeping.keeping_asked at word left }
{
    let va = UTEMP + at % PGSIZE;
    if kept_at_once(at, left) == 4 {
        Ask::Store { va, word }
    } else {
        Ask::StoreByte {
            va,
            byte: (word % 256) as u8,
        }
    }
}

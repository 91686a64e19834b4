//! What spawn is given: its path, the words for the program that it starts, and the page of that program's stack, which it makes of them.
//!
//! It gathers its path in a page of its own, as remove does (`lib_request`). Then it takes the addresses of the strings from the program's list, a
//! word or a byte at a time, up to the 0 behind the last, and puts them behind the path; then the strings themselves, into a second page one behind
//! another. When it has them all it knows how much room they take, and puts them, their addresses and their number into a third page as they are to
//! stand on the stack. (`PathPlan.antt`, `GivenPlan.antt`, with `Addresses.antt`, `Strings.antt` and `StackWords.antt`)
#![tactic(auto)]

mod address;
mod given;
mod laws;
mod path;
mod stack;
mod string;

pub use address::address_va;
pub use given::Given;
pub use laws::page_fits_words;
pub use path::{PathStage, SpawnPath};

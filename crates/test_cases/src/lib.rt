//! Cases that a program reads and answers, a line each: what the programs share that test the crates.
//!
//! A comment and an empty line are repeated, so that what is wanted for a line stands in the line of the program's `stdout`
//! with the same number. For the programs that test the kernel and its parts (`tell_cases`) a line without a colon names what is
//! tried from there on, which begins anew. Every other line is a case: a name, a colon, what is done, and the words that it is
//! given. What comes of it is printed under the case's name.
//!
//! The other programs have lines of their own form (`tell_lines`). Those that test the library read from them what `digits`
//! reads, and all others what `case_words` does.
#![tactic(auto)]

mod bench;
mod digits;
mod lines;
mod names;
mod told;

pub use bench::{Bench, tell_cases};
pub use digits::{given_registers, program_words, register_words, twelve_numbers};
pub use lines::tell_lines;
pub use names::{READ, WRITE, given, number, numbers};
pub use told::Shown;

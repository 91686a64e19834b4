//! What words of a case say: what the programs share that test the crates of the machine, and those that test disks.
//!
//! Where the machine is tested, a case is answered from its words alone (`tell_cases`). A line is a name, `: ` and the case, or
//! a case that is its own name, and numbers are hexadecimal. The line of the program's `stdout` with the same number has the
//! name and what is wanted for the case. Words that stand at their places in bytes are read and told for disks (`bytes`).
#![tactic(auto)]

mod bytes;
mod lines;
mod words;

pub use bytes::{changed, put_words, tell_words, told_bytes};
pub use lines::{AnswersCases, tell_cases};
pub use words::{Words, bytes_of, named};

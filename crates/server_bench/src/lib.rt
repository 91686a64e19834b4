//! A machine with a file server in slot 0, over a kernel and a host in memory that has its disk: what the programs share that test
//! the file server and its jobs.
//!
//! `ServerMachine` makes calls of the kernel for the environment of a slot, and reads and writes its memory. `given` reads what a line
//! gives, and tells bytes.
#![tactic(auto)]

mod given;
mod machine;
mod pieces;

pub use given::{given_bytes, rest_of, tell_bytes};
pub use machine::{OWN_PERM, ServerMachine, Unanswered, has_blocks};
pub use pieces::{tell_done, tell_word};

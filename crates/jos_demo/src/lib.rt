//! Example programs for the machine, as images.
//!
//! `specs/Programs.antt`, `specs/Pairs.antt` and `specs/Streams.antt` have each program as a list of items of `jos_asm`,
//! to be read as assembly, and the first of them has the file of a name: the image of that code, whose one segment
//! begins where the program starts. `program` gives exactly that file. `specs/Workloads.antt` has a program without a name, in
//! which children write into a pipe as much as a number says, and `work` gives its file. What a program then does is
//! shown by running it.
#![tactic(auto)]

mod code;
mod pairs;
mod programs;
mod streams;
mod workloads;

pub use programs::{is_program, program};
pub use workloads::{Workload, work, workload_of};

//! read and stat, which put bytes into the program's memory.
//!
//! In the abstract system (`FileServices.antt` of `lib_os`) read takes a byte of the console in one step, and puts it in the next; stat finds
//! in one step what it tells, and puts that in one step for each word that lies whole at a multiple of four, and for each byte else. Of a file
//! both ask the file server, and put what they are told as stat puts what it tells of the console (`lib_bytes`). Here each
//! is a plan of what it asks of the kernel, and of what it does next by the reply (`ReadStages.antt`, `StatStages.antt`).
#![tactic(auto)]

mod read;
mod stat;

pub use read::{Read, ReadStage};
pub use stat::{Stat, StatStage};

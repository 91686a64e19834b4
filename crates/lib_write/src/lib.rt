//! write, which takes bytes from the program's memory.
//!
//! In the abstract system (`FileServices.antt` of `lib_os`) it takes a word that lies whole at a multiple of four in one step, and a byte
//! else, until it has all; and then, on the console, it prints them in one step, and of a file it asks the file server to write them. Here it
//! is a plan of what it asks of the kernel, and of what it does next by the reply (`WriteStages.antt`). It keeps what it has taken in a page of
//! its own, since the program's may be shared and written by others meanwhile; of a file that page goes with the request (`lib_request`).
#![tactic(auto)]

mod write;

pub use write::{Write, WriteStage};

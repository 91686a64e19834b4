//! The service pipe, and read, write and stat on an end of one, which are of `lib_read` and `lib_write` as far as they move bytes to or from the
//! program's memory.
//!
//! A pipe is a page that all descriptors of its ends have beside their own: a lock, how many bytes have been taken and how many put, and those that
//! it holds, 32 at most. In the abstract system (`AbstractPipes.antt` of `lib_os`) it is a list, from which read takes a byte a step, and to whose
//! end write puts one. Here it is told what is asked of the kernel at each stage, and what is done next by the reply (`MakingStages.antt`,
//! `PipeStages.antt`).
#![tactic(auto)]

mod ends;
mod laws;
mod making;

pub use ends::{PipeService, PipeStage, ask_of_pipe, is_closed, next_of_pipe, pipe_stage_of};
pub use laws::locks_are_short;
pub use making::{MakingStage, Pipe};

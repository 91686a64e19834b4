//! What is tested of the runs of `jos_kernel`: two programs that take turns as a schedule says, what they print, and which
//! of their traps are kept. Each line of `stdin` is a case (`test_cases`), and `stdout` has what is wanted, worked out by
//! hand.
//!
//! | Case of `runs` | What is told |
//! |---|---|
//! | `run CODE CODE STEPS TRAPS \| SCHEDULE` | how a run of two codes (`src/codes.rt`) ends; so many traps are kept |
//! | `turn ..`, `step ..` | the steps of its first turn, and nothing of its first step |
//! | `steps`, `turns`, `slots`, `visible_steps`, `upcalls`, `console` | what the last run has come to |
//! | `traps`, `first_trap`, `second_trap` | how many traps are kept, and each as environment, number, error, address and instruction |
#![tactic(auto)]

mod codes;
mod runs;

use crate::runs::RunBench;

fn main(rt: HostRuntime) -> anyhow::Result<()> {
    test_cases::tell_cases::<RunBench>(&rt, rt.alloc())
}

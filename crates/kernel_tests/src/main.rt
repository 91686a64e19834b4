//! What is tested of the calls and faults of environments. Each line of `stdin` is a case (`test_cases`), and `stdout` has
//! what is wanted, worked out by hand.
//!
//! | Case of `calls in FRAMES` | What is told |
//! |---|---|
//! | `call SLOT EAX EDX ECX EBX EDI ESI` | what a call answers, where it does; what is left out is 0 |
//! | `reads SLOT VA`, `writes SLOT VA WORD` | the word that a user reads, and whether it may write one |
//! | `faults SLOT ESP VA` | what becomes of a write that faults |
//! | `eax SLOT`, `esp SLOT`, `eip SLOT`, `registers SLOT`, `status SLOT` | these parts of the environment |
//! | `writes_hi SLOT` | whether its user may write in a page of a line |
//! | `takes_pages SLOT`, `makes_children SLOT` | how many it is given until it is refused one |
//! | `refused`, `upcalls`, `console` | what the system counts, and what was printed |
#![tactic(auto)]

mod calls;

use crate::calls::CallBench;

fn main(rt: HostRuntime) -> anyhow::Result<()> {
    test_cases::tell_cases::<CallBench>(&rt, rt.alloc())
}

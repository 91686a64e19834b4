//! What is tested of the kernel's parts: schedules, trap frames, messages and the table of environments; and of lines of
//! the shell, with their scripts. Each line of
//! `stdin` is a case (`test_cases`), and `stdout` has what is wanted, worked out by hand.
//!
//! | Case of `schedules` | What is told |
//! |---|---|
//! | `read "TEXT"` | the numbers of a schedule, or its fault |
//! | `quantum TURN` | the steps of a turn by the schedule 3, 5 |
//! | `too_many`, `no_memory` | the text of this fault |
//!
//! | Case of `frames` | What is told |
//! |---|---|
//! | `upcall_place ESP` | where the frame of a fault with this ESP stands |
//! | `frame_words VA ERROR ESP`, `frame_bytes ..`, `from_frame ..` | the frame of a fault, some of its bytes, the registers that it tells |
//! | `record_words PLACE BYTE ..`, `from_record ..` | the words of a record with these bytes; EFLAGS, ESP and EIP that it tells |
//!
//! | Case of `messages` | What is told |
//! |---|---|
//! | `wants VA SENDER` | what the rendezvous holds then: whether it waits, the sender that is waited for, the destination, the word, its sender and the bits of its page |
//! | `holds` | the same |
//! | `accepts SENDER`, `offer SENDER WORD PERM` | whether the word is waited for, or has come |
//!
//! | Case of `environments` | What is told |
//! |---|---|
//! | `is_unused` | whether there is no environment |
//! | `allot` | the slot and the id of a new environment |
//! | `end SLOT`, `runnable SLOT` | nothing: it ends, or waits for a turn |
//! | `renew SLOT TIMES` | the last id, where the slot is freed and given so often |
//! | `record SLOT`, `full_record` | the record of a slot, and of an environment with no part empty |
//! | `first_next`, `next_behind SLOT` | who gets the first turn, and the turn behind that of a slot |
//!
//! | Case of `lines` | What is told |
//! |---|---|
//! | `read "TEXT"` | what is read of a line: of each command its words, its files, and `|` where it is piped, else `;` |
//! | `repeat TIMES "TEXT"` | the same of a line that has the text so often |
//!
//! | Case of `scripts` | What is told |
//! |---|---|
//! | `typed ANSWER .. "TEXT"` | the calls of the shell for an input, without those that read it: the first are answered so, all others 0. `next line` tells that a line is done. Where a fork is answered 0 the calls behind it are the child's |
//! | `repeat TIMES "TEXT"` | the same of a line that has the text so often, and a line with no command behind it |
#![tactic(auto)]

mod bench;
mod environments;
mod frames;
mod lines;
mod messages;
mod schedules;
mod scripts;
mod texts;

use crate::bench::PartBench;

fn main(rt: HostRuntime) -> anyhow::Result<()> {
    test_cases::tell_cases::<PartBench>(&rt, rt.alloc())
}

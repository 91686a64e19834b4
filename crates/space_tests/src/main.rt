//! What is tested of frames and address spaces. Each line of `stdin` is a case (`test_cases`), and `stdout` has what is
//! wanted, worked out by hand.
//!
//! | Case of `spaces` | What is told |
//! |---|---|
//! | `take FRAMES`, `create` | the last of so many frames that are taken, and the directory of a new space |
//! | `count FRAME` | how often it is named |
//! | `page VA BITS`, `page_of_six VA BITS OFFSET` | the frame of a new page, which has the bytes 1 to 6 from the offset on |
//! | `share VA VA BITS` | whether the first page could be put at the second address |
//! | `remove VA`, `destroy` | nothing: the page, or the space, is no more |
//! | `directory`, `look VA` | the frame of the directory, and that of a page with its bits |
//! | `reads VA`, `writes VA` | where an access leads, or its fault |
//! | `word VA`, `byte VA`, `byte_or_fault VA` | what a user reads |
//! | `bytes VA`, `bytes_by VA VA` | the bytes that are at hand, by the page at hand of the first address |
//! | `put_word VA WORD`, `put_byte VA BYTE` | whether it was written |
//! | `set_word SLOT INDEX WORD`, `set_words SLOT 0 WORD` | nothing: a word of a slot's record is set, or all |
#![tactic(auto)]

mod spaces;

use crate::spaces::SpaceBench;

fn main(rt: HostRuntime) -> anyhow::Result<()> {
    test_cases::tell_cases::<SpaceBench>(&rt, rt.alloc())
}

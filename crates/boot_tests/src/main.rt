//! What is tested of the boot of `jos_kernel`: how the environment of an image begins, and what stands in its space. Each
//! line of `stdin` is a case (`test_cases`), and `stdout` has what is wanted, worked out by hand.
//!
//! | Case of `image BYTES` | What is told of the image whose file has these bytes |
//! |---|---|
//! | `status`, `parent`, `eip`, `esp`, `eflags` | how its environment begins |
//! | `place VA` | the byte that stands there, and whether it may be written |
//! | `directories PAGES PAGES` | the directories of two images that have so many pages, in a system of their own |
#![tactic(auto)]

mod images;

use crate::images::ImageBench;

fn main(rt: HostRuntime) -> anyhow::Result<()> {
    test_cases::tell_cases::<ImageBench>(&rt, rt.alloc())
}

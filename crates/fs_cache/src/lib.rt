//! The block cache of the file server.
//!
//! The file server knows the disk block by block: a block that it reads or writes has a page in its memory, which is
//! filled from the disk when the block is first wanted, and written back by a flush. Each step is one call of the kernel
//! (`UserOs` in `lib_os`), and other environments may have their turns between any two; so where the cache stands is told by a place,
//! which it keeps in the words that the kernel keeps for the library, and what it asks there is a plan (`fs_blocks`).
//!
//! Its one invariant is that what a block holds (`BlockCache.antt` in `lib_os`) never changes by a step of the cache: a page that is not
//! dirty holds what the disk's block holds. Where no page is to be had, the cache gives up one of its own: a hand goes round the blocks,
//! writes back what is dirty, passes what was used since it came by last, and takes the first page that was not.
#![tactic(auto)]

mod steps;

pub use steps::{Cached, Flushed, block_step, flush_step};

//! Where the block cache of the file server stands, and what it asks.
//!
//! The cache (`fs_cache`) makes one call of the kernel at a time. What it asks at each place (`CachePlace`), and where it goes by the
//! reply, is a plan, that is functions without effects (`CachePlans.antt`). Where it stands is spelled in the last four of the words that
//! the kernel keeps for the library (`CachePlaces.antt`).
#![tactic(auto)]

mod place;
mod plan;
mod words;

pub use place::{CachePlace, CacheState};
pub use plan::{CacheAsk, CacheNext, Told, address_of, ask_at, fetching, flushing, next_at};
pub use words::{find_state, with_state};

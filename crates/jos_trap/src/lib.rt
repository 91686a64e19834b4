//! Registers as words in memory: the frame that the handler of a page fault finds, and the record by which an
//! environment's registers are set.
//!
//! The definitions are those of `TrapFrames` in `jos_base`, and each call is one of them. Nothing here takes memory.
#![tactic(auto)]

mod frame;
mod place;
mod record;

pub use frame::{FRAME_SIZE, frame_bytes, frame_words, from_frame};
pub use place::{UpcallPlace, upcall_place};
pub use record::{RECORD_SIZE, from_record, words_of_record};

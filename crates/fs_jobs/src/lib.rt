//! Jobs on files, and where one stands.
//!
//! A job is what a file server was asked: a file is opened, read, written, given another size, told of or removed. Between two of
//! its steps it stands at a place (`TreeState`), from which it asks for one byte or word (`TreeAsk`), and by the reply it goes to another
//! or answers (`TreeNext`). How it goes is told by `fs_walks` and `fs_changes`; here is what both share: the places, what is tested of
//! all that is read from a disk, and when the numbers of a place are small enough to compute with.
#![tactic(auto)]

mod asks;
mod bounds;
mod fields;
mod place;
mod tests;

pub use asks::{TreeAsk, TreeNext, change_on, refused, walk_on};
pub use bounds::is_bounded;
pub use fields::{DIRECT_AT, INDIRECT_AT, KIND_AT, SIZE_AT, SLASH};
pub use place::{
    Change, Changed, FilePlace, Job, NONE, Seek, TreePlace, TreeState, WalkPlace, Wanted,
};
pub use tests::{DAMAGED, first_data_block, is_data_block, is_good_count, negated};

//! How a job finds its way: along a path, through the directories of a disk, to a record.
//!
//! The path is read, the super block is looked at, and names are compared record by record. Nothing is stored on this way; each
//! refusal that a path can bring comes from here.
#![tactic(auto)]

mod walking;

pub use walking::{walk_ask, walk_next};

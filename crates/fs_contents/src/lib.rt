//! What a path leads to on a disk image: the records of a directory, and the bytes of a file.
//!
//! `specs/Contents.antt` says it of the tree of files, and `files_of` of `fs_layout` says which tree a disk image has. The bytes of
//! the image are those of a disk that was checked.
#![tactic(auto)]

mod fault;
mod files;
mod laws;
mod reading;
mod walking;

pub use fault::ReadFault;
pub use files::{list, read_file};
pub use laws::held_disks_are_whole;

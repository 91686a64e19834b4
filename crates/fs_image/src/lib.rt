//! Reads what may be a disk from a host, and checks that it is one: the fault is the first that `fs_layout`'s
//! `specs/DiskImage.antt` tells. A host's file is read once, in pieces, as far as its super block counts blocks
//! (`specs/DiskHeld.antt`), and the tests read its bytes from memory by places. Memory is taken from
//! the allocator for the bytes, the marks of the blocks, the way down the directories and the names of one directory.
#![tactic(auto)]

mod blocks;
mod checking;
mod disk;
mod disk_bytes;
mod fault;
mod names;
mod records;
mod slots;
mod tree;
mod walk;

pub use checking::{CheckFault, DiskInfo, check};
pub use disk::MemoryDisk;
pub use disk_bytes::{DiskBytes, DiskFault, read_disk};
pub use fault::{ImageFault, ImageFaultText};
pub use names::slot_place;
pub use records::{block_number_at, kind_at, size_of};
pub use tree::ROOT_PLACE;

//! What a job does once its record is known: it decides, changes the disk, and moves bytes.
//!
//! First the record's kind, size and indirect block are read, and free blocks are counted; nothing is stored yet. Then one change follows
//! the other, each told by the disk as it is then, until nothing is left to change. At last bytes are read or written, or a record is made
//! or emptied.
#![tactic(auto)]

mod changing;

pub use changing::{change_ask, change_next};

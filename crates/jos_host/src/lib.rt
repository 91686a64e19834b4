//! The outside of the system as one trait: named byte lists, a console in and out, notes, and a count of
//! faults.
//!
//! A host may tell what its lists, its input, its console and its notes are, and which calls on files and writes
//! of notes it was asked, and then each call says what becomes of them; a host over real files tells nothing.
//! Every host counts its faults, and a call fails only where the count rose. What is done with the bytes is left
//! to the crates above.
#![tactic(auto)]

mod asked_log;
mod faults;
mod host;
mod mem;
mod os;
mod streams;

pub use host::{Failed, Host, HostCall};
pub use mem::{MemHost, NamedBytes};
pub use os::OsHost;

//! What the services have in common that want to know what a descriptor names, and that move bytes to or from the program's memory.
//!
//! A service is told a descriptor by its number. Whether it is open is read from the entries of the page tables (`lib_fd`), and what it names
//! from the first word of its page (MIT 6.828, inc/fd.h). A service that moves bytes looks at the entry of each page of its buffer before
//! it moves the first byte there: where the page does not allow it, the environment ends as if it had touched the byte itself; where
//! the page waits to be copied, the store raises a page fault, and the handler mends that. (`Finding.antt`, `Buffers.antt`)
#![tactic(auto)]

mod buffer;
mod finding;
mod keeping;

pub use buffer::{ask_page_entry, ask_page_region, is_writable, moved_at_once};
pub use finding::{ask_device, next_of_entry, next_of_region};
pub use keeping::{ask_keeping, kept_at_once};

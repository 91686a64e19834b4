//! The system calls of the exokernel, over address spaces and environments.
//!
//! A `System` is a part of the kernel's state (`state_of` in `specs/System.antt`), and each call is one step of that
//! state: `System::call` is `system_call` of `jos_base`, `System::fault` is `handled`, `System::kill` is `killed`, and
//! `make_environment` is `environment_made`. What a system keeps is that each live environment has a space of its own, and
//! that what users read of the slots is what they are (`Keeps`). The console is the host's, and its input is an `Input`.
//! Memory is taken by `System::new` alone.
#![tactic(auto)]

mod calls;
mod faults;
mod input;
mod memory;
mod messages;
mod pages;
mod system;

pub use calls::BUFFER_LEN;
pub use faults::Faulted;
pub use input::Input;
pub use system::{CallAnswer, System};

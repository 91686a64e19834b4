//! The library's services on descriptors that need to know nothing of what they name: close and dup, and exit, which drops all.
//!
//! Each is told in the abstract system by `Descriptors.antt` of `lib_os`: close and dup are one step there behind INT 0x40, but where dup
//! closes the new descriptor first; exit drops the lowest descriptor that is open in a step each, and ends the environment when none is.
//! Here each is a plan of what it asks of the kernel, and of what it does next by the reply (`DescriptorStages.antt`). A descriptor is open
//! where a page stands at its address. Whether one does is read from the entries of the page tables, and before that whether the
//! region has a table at all; a descriptor is dropped by unmapping its page, and made by mapping the page of another one. One that names an
//! end of a pipe has the pipe's page too, which is unmapped behind its own, and mapped before its own.
#![tactic(auto)]

mod close;
mod dup;
mod exit;
mod pages;

pub use close::{Close, CloseStage};
pub use dup::{Dup, DupStage};
pub use exit::{Exit, ExitStage};
pub use pages::{
    DESCRIPTOR_PERM, ask_drop_at, ask_entry, ask_map_at, ask_pipe_entry, ask_region_for,
    descriptor_va, is_there, pipe_va,
};

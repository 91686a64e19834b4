//! What belongs to programs that others start: spawn, wait, and the words that a program is given.
//!
//! wait is one step of the abstract system behind INT 0x40 (`wait` in `MemoryServices.antt` of `lib_os`), and a plan of what it asks of
//! the kernel, and of what it does next by the reply (`WaitStages.antt`). It asks for the environment's id, and then tries to send
//! to the other one, by an address that is none of a page, so that nothing is ever sent: as long as the other one lives, it gives up
//! its turn and tries again.
//!
//! spawn is a plan of the same kind, in parts, each in its own crate (`SpawnParts.antt`): `lib_given` takes what it is given, `lib_image` reads the
//! file, `lib_child` makes the child, and by `lib_birth` that is born, or what was done is undone.
//!
//! The words that a program is given stand on the first page of its stack (`StackPage.antt` of `jos_elf`).
#![tactic(auto)]

mod services;
mod spawn;
mod stack;

pub use services::{Wait, WaitStage};
pub use spawn::Spawn;
pub use stack::{STACK_ROOM, StackBytes, fits_stack, stack_contents, stack_pointer, stack_size};

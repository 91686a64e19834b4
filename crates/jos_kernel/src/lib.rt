//! The exokernel: boot, steps and turns.
//!
//! A `Kernel` stands at a point of a run (`progress_of` in `specs/Kernel.antt`): `Kernel::boot` makes the first of them,
//! `booted` of the images, and `step`, `turn` and `exo_run` lead from one to the next as `one_step` and `run_from` say.
//! The `Machine` in it is the processor's memory, through the directory of the environment that runs. All memory is taken
//! by `boot`; no call after it takes any.
//!
//! The `Book` in it is what is kept of a run and told of it. It knows no kernel, and a run under the library keeps one too.
#![tactic(auto)]

mod book;
mod boot;
mod fence;
mod kernel;
mod machine;
mod report;
mod trace;

pub use book::{Book, take_room};
pub use boot::{boot_images, first_registers, load_pages, next_touched};
pub use fence::{Fence, Open};
pub use kernel::{BootFault, ExoEnd, Kernel, exo_run};
pub use machine::{Followed, Machine};
pub use report::{End, Refusal, Report, Stopped, Turn};
pub use trace::{Trace, TrapLine};

//! The library's programs over the kernel.
//!
//! `Served` is the kernel as the library has it while it serves one environment: each call of `UserOs` (`lib_os`) is the step
//! of the kernel's state that `UserCalls.antt` says, and `make_steps` makes the steps of its program that `GuestSteps.antt` says,
//! those of its services, and, where it is the file server, that of `server_step` (`fs_server`). `boot_program` makes the state in
//! which a run begins, as `Boot.antt` says it. `run` boots a program and makes its turns, and the file server's, which stand in
//! the `Book` of jos_kernel.
#![tactic(auto)]

mod boot;
mod closing;
mod disk;
mod fence;
mod guest;
mod laws;
mod library_run;
mod programs;
mod served;
mod services;
mod steps;
mod turns;

pub use boot::{FRAMES_BESIDE, boot_frames, boot_program, programs_begin};
pub use closing::CLOSING_MAX;
pub use disk::HostDisk;
pub use laws::{files_are_those_of_the_disk, runs_go_on_alike, turns_are_chosen_alike};
pub use programs::{RunEnd, Setup, run};
pub use served::Served;
pub use steps::{StepOutcome, Steps};

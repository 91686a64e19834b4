//! The file server: the environment in slot 0, which takes one request after another, makes its act on the files over the block
//! cache, and replies.
//!
//! `server_step` makes its next step, as one call of the kernel: what the plan of a request asks (`fs_requests`), or a step of the job on files
//! (`fs_tree`) or of a flush (`fs_cache`); and it goes on by what came of it (`ServerSteps.antt`).
#![tactic(auto)]

mod steps;

pub use steps::server_step;

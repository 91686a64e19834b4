//! The run of a job by itself, without cache and kernel, and the law that it is the act.
//!
//! A job is a machine without effects: `begin` tells where it begins, `ask_at` what it asks where it stands, and `next_at` where it
//! goes by the reply. Its run over the bytes of a disk and of the request's page ends, and does exactly what its act does in the blocks of
//! a disk (`TreeRuns.antt`, with `BlockActs.antt` of `fs_acts`).
#![tactic(auto)]

mod laws;
mod plan;

pub use laws::{
    calls_are_left, finds_are_looks, jobs_are_acts, opens_are_found, runs_go_on, sizes_are_told,
    ways_go_on,
};
pub use plan::{ask_at, begin, next_at};

//! The acts on files, step by step over the block cache.
//!
//! `tree_step` makes the next step of a job over the cache, as one call of the kernel, and keeps where the job stands in the words and
//! registers of its environment. It is a step of the job's run by itself (`fs_runs`), or brings the block nearer that the job wants
//! (`TreeSteps.antt`), wherever the turns of other environments fall.
#![tactic(auto)]

mod steps;

pub use steps::{Acted, tree_step};

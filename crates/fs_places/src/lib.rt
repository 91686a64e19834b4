//! Where a job on files stands, as its environment keeps it.
//!
//! A step of a job is one call of the kernel, and between two of them the job stands in seven words and six registers of its environment
//! (`TreePlaces.antt`). `with_state` puts it there, and `find_state` finds it; what is put is found again (`TreeWords.antt`).
#![tactic(auto)]

mod words;

pub use words::{find_state, with_state};

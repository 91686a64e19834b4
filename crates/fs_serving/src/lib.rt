//! The file server by itself, without kernel and cache, and the law that it is the abstract system's.
//!
//! What the server sees of its memory is a view (`ServerViews.antt`): the disk, the page of a request, the table of open files. By that it stands for
//! the abstract server, which acts at once (`ServerRuns.antt`), at each of its steps, whatever jobs are under way; and each of its steps is a step
//! of the abstract one, or none.
#![tactic(auto)]

mod laws;

pub use laws::{jobs_end_soon, servers_serve};

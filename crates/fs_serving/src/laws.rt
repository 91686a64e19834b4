//! What a server's steps mean. Nothing here is to be run: each clause is a theorem.

ghost use Rattle.fs_serving.specs.ServerRuns.{JobsEndSoon, ServersServe};

/// From a request that has come up to its reply, each step of the server is hidden, or the next of the abstract server's.
#[tactic(auto, using(crate::proofs::ServedWhole::all_servers_serve))]
pub fn servers_serve()
    ensures { ServersServe }
{}

/// The job of a request has no more steps left than the disk's blocks allow, and each lowers this number; no more calls of the kernel either, and
/// a step's are fewer behind it.
pub fn jobs_end_soon()
    ensures { JobsEndSoon }
{}

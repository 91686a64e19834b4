//! What a system call is to its caller.

/// What becomes of the caller of a system call.
#[derive(Clone, Copy, Debug, PartialEq, Eq)]
pub enum Called {
    /// It has this in EAX.
    Answered(u32),
    /// It was destroyed.
    Ended,
    /// It waits, and has its answer from whoever wakes it.
    Blocked,
}

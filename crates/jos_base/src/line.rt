//! Why the kernel ends an environment.

/// What the line tells that the kernel writes when it ends an environment.
/// (MIT 6.828, kern/trap.c and kern/pmap.c)
#[derive(Clone, Copy, Debug, PartialEq, Eq)]
pub enum Line {
    /// An access to `va` by the instruction at `ip` was refused.
    UserFault { va: u32, ip: u32 },
    /// A system call was given a buffer that its caller may not reach at `va`.
    UserMemCheck { va: u32 },
    /// Another trap, with its number and its error code, is told for `ip`.
    Trap { trap: u8, error: u32, ip: u32 },
}

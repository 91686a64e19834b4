//! Names and states of environments, and what they keep for others.

use crate::numbers::EXTRA_WORDS;

/// The id of an environment: its slot in the low 10 bits, above them how often the slot was given, never 0.
/// (MIT 6.828, inc/env.h)
#[derive(Clone, Copy, Debug, PartialEq, Eq)]
pub struct EnvId(pub u32);

/// What an environment is there for. (MIT 6.828, lab 5, inc/env.h)
#[derive(Clone, Copy, Debug, PartialEq, Eq)]
pub enum EnvType {
    /// It runs a user's program.
    User,
    /// It is the file server.
    FileServer,
}

/// The words that an environment keeps for a library outside of the kernel, which saves them unread. (This system's own)
#[derive(Clone, Copy, Debug, PartialEq, Eq)]
pub struct Extra(pub [u32; EXTRA_WORDS]);

/// What an environment is doing. (MIT 6.828, inc/env.h)
#[derive(Clone, Copy, Debug, PartialEq, Eq)]
pub enum Status {
    /// The slot has no environment.
    Free,
    /// Never used on one processor.
    Dying,
    Runnable,
    Running,
    NotRunnable,
}

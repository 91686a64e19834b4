//! Why a call is refused.

ghost use Rattle.std.specs.Prelude.{◌≡◌};
ghost use Rattle.jos_base.specs.SystemCalls.{error_number};

use crate::numbers::{
    E_BAD_ENV, E_BAD_PATH, E_INVAL, E_IPC_NOT_RECV, E_NO_FREE_ENV, E_NO_MEM, E_NOT_FOUND,
};
use std::alloc::{AllocError, AllocFailed};

/// The error of a call, which a program is answered as its number, negated as a word. (MIT 6.828, inc/error.h)
#[derive(Clone, Copy, Debug, PartialEq, Eq)]
pub enum Errno {
    /// No such environment, or none that the caller may change.
    BadEnv,
    /// An argument is out of its range, or the call's number names none.
    Invalid,
    /// There is no free frame.
    NoMem,
    /// There is no free slot for an environment.
    NoFreeEnv,
    /// The environment does not wait for a word, or not for the caller's.
    IpcNotRecv,
    /// No file has the name.
    NotFound,
    /// A path or a name in it is too long.
    BadPath,
}

impl Errno {
    /// The error's number.
    pub fn code(self) -> u32
        ensures { result ≡ error_number self }
    {
        match self {
            Errno::BadEnv => E_BAD_ENV,
            Errno::Invalid => E_INVAL,
            Errno::NoMem => E_NO_MEM,
            Errno::NoFreeEnv => E_NO_FREE_ENV,
            Errno::IpcNotRecv => E_IPC_NOT_RECV,
            Errno::NotFound => E_NOT_FOUND,
            Errno::BadPath => E_BAD_PATH,
        }
    }
}

/// There was no memory for what a call had to keep.
#[derive(Clone, Copy, Debug, PartialEq, Eq)]
pub struct NoMemory;

impl From<AllocError> for NoMemory {
    fn from(_error: AllocError) -> NoMemory {
        NoMemory
    }
}

impl<T: Drop> From<AllocFailed<T>> for NoMemory {
    fn from(_failed: AllocFailed<T>) -> NoMemory {
        NoMemory
    }
}

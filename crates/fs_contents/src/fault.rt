//! Why nothing is read.

ghost use Rattle.std.specs.Prelude.{◌≡◌};

use jos_base::Errno;
use std::alloc::AllocError;

/// Why a path is refused.
#[derive(Clone, Copy, Debug, PartialEq, Eq)]
pub enum ReadFault {
    /// The path leads to nothing that can be read so: the error by which the file server refuses it.
    NotThere(Errno),
    /// There was no memory for what is read.
    NoMemory,
}

impl From<Errno> for ReadFault {
    ghost use Rattle.fs_contents.specs.declared.fault.ReadFault.TheVariants.{NotThere};

    ghost from_gives = { λ errno fault. fault ≡ NotThere errno };

    fn from(errno: Errno) -> ReadFault {
        ReadFault::NotThere(errno)
    }
}

impl From<AllocError> for ReadFault {
    ghost use Rattle.fs_contents.specs.declared.fault.ReadFault.TheVariants.{NoMemory};

    ghost from_gives = { λ _ fault. fault ≡ NoMemory };

    fn from(_fault: AllocError) -> ReadFault {
        ReadFault::NoMemory
    }
}

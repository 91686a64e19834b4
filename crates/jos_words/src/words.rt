//! A word with its place, and why words are no command.

ghost use Rattle.std.specs.Prelude.{◌≡◌};
ghost use Rattle.jos_words.specs.declared.words.WordsFault.TheVariants.{NoMemory};

use std::alloc::{AllocError, AllocFailed};

/// A text of the command line, and the place of the word that has it. The command's name is at place 0.
///
/// For `--name value` it is the place of `value`, for `--name=value` that of the whole word.
#[derive(Clone, Copy, Debug, PartialEq, Eq)]
pub struct WordAt<'a> {
    pub place: usize,
    pub text: &'a str,
}

/// Why words are not read.
#[derive(Clone, Copy, Debug, PartialEq, Eq)]
pub enum WordsFault {
    /// They are no command.
    Usage,
    /// There was no memory to read them.
    NoMemory,
}

impl From<AllocError> for WordsFault {
    ghost from_gives = { λ _ fault. fault ≡ NoMemory };

    fn from(_error: AllocError) -> WordsFault {
        WordsFault::NoMemory
    }
}

impl<T: Drop> From<AllocFailed<T>> for WordsFault {
    ghost from_gives = { λ _ fault. fault ≡ NoMemory };

    fn from(_failed: AllocFailed<T>) -> WordsFault {
        WordsFault::NoMemory
    }
}

//! Why a text is no schedule.

use thiserror::Error;

/// Why a text is no schedule: of several faults the one of least place. Places are counted in bytes, from 0.
#[derive(Clone, Copy, Debug, PartialEq, Eq, Error)]
pub enum ScheduleFault {
    /// The byte here is neither a digit nor a blank.
    #[error("not a number {0}")]
    NotANumber(u32),
    /// The number that begins here is 0.
    #[error("zero {0}")]
    Zero(u32),
    /// The number that begins here is above `QUANTUM_MAX`.
    #[error("too big {0}")]
    TooBig(u32),
    /// There are more than `SCHEDULE_MAX` numbers.
    #[error("too many")]
    TooMany,
    /// There was no memory for the numbers.
    #[error("out of memory")]
    NoMemory,
}

//! Why a program has no bytes.

use crate::name::Name;
use std::error::Error;
use std::fmt;

/// Why a program has no bytes: the first of these that it has, and of one kind the one of the earliest item.
#[derive(Debug, Drop, PartialEq, Eq)]
pub enum AsmFault {
    /// It has more than `CODE_MAX` bytes.
    TooLong,
    /// An earlier label has this name.
    Twice(Name),
    /// No label has this name.
    Unknown(Name),
    /// The label is out of reach of a jump with a distance of one byte.
    Far(Name),
    /// There was no memory for the bytes.
    NoMemory,
}

impl fmt::Display for AsmFault {
    ghost use Rattle.std.specs.Prelude.{Some};
    ghost use Rattle.jos_asm.specs.FaultTexts.{fault_text};

    ghost output = { λ fault. Some (fault_text fault) };

    #[tactic(auto, unfolding(crate::specs::FaultTexts::fault_text))]
    fn fmt<W: fmt::Write>(&self, f: &mut fmt::Formatter<W>) -> fmt::Result {
        match self {
            AsmFault::TooLong => f.write_str("too long"),
            AsmFault::Twice(name) => write!(f, "twice {name}"),
            AsmFault::Unknown(name) => write!(f, "unknown {name}"),
            AsmFault::Far(name) => write!(f, "far {name}"),
            AsmFault::NoMemory => f.write_str("out of memory"),
        }
    }
}

impl Error for AsmFault {}

//! A builder of 80386 code with labels.
//!
//! A program is a list of items: labels, instructions, jumps to a label, moves of a label's address, and bytes.
//! `specs/Program.antt` says what bytes such a list is spelled as, each label's distance or address in its place,
//! and which fault it has if it has one; `Builder::finish` answers exactly by it. Each item's length is known
//! where it is added, so that nothing has to be tried twice. `limits.rt` says
//! how long a program and a name may be. What the code does is left to others.
#![tactic(auto)]

mod builder;
mod fault;
mod finishing;
mod item;
mod labels;
mod lengths;
mod limits;
mod name;

pub use builder::Builder;
pub use fault::AsmFault;
pub use limits::{BLOCK, CODE_MAX, NAME_MAX, NEAR_AHEAD, NEAR_BACK};
pub use name::Name;

//! Steps of the modelled 80386, over any memory.
//!
//! `step` fetches the instruction at EIP, one byte after another, probes its accesses to memory in their order,
//! and then does what the instruction does. `specs/Steps.antt` says what a step is, and `step` does exactly
//! that, for any registers and any memory that keeps `Mem`'s clauses. `specs/Forms.antt` says of each row what
//! it does in common terms, `specs/Accesses.antt` what it reaches for, `specs/Probes.antt` and
//! `specs/Transfers.antt` how that is probed, read and written, and `specs/Effects.antt` what becomes of the
//! registers and which trap is raised.
//!
//! `make_burst` makes such steps one after another (`specs/Bursts.antt`), and fast: an instruction is decoded
//! once for its bytes (`decodings`), and a frequent one whose memory is at hand is done at once (`quick`). A step
//! takes no memory and copies none.
#![tactic(auto)]

mod accesses;
mod acts;
mod addresses;
mod bursts;
mod control;
mod decodings;
mod effects;
mod events;
mod fetching;
mod forms;
mod memory;
mod moves;
mod places;
mod probes;
mod products;
mod quick;
mod stack;
mod stepping;
mod strings;
mod transfers;

pub use bursts::{Burst, make_burst};
pub use decodings::Decodings;
pub use events::{Event, Gates};
pub use memory::{Mem, MemFault};
pub use stepping::step;

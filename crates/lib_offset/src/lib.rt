//! seek and set_size: what they ask at each stage, and what they do next by the reply.
//!
//! Only files have places and sizes that can be set, and it is the file server that sets them. Each of the two finds what its descriptor
//! names (`lib_file`); for a file it takes a page of its own at `UTEMP`, puts there the number of the file, which its descriptor's page
//! tells, and the offset or the size, and asks the server with that page (`lib_request`). (`OffsetStages.antt`)
#![tactic(auto)]

mod offset;

pub use offset::{Offset, OffsetService, OffsetStage};

//! ELF files for the modelled 80386, read and written.
//!
//! `specs/Tests.antt` has the tests that a file has to pass, in their order, and `specs/Parsed.antt` what an
//! accepted file says; `parse` answers exactly by them and takes no memory. `specs/Written.antt` has the file
//! that `write` makes, which says what was written. Where the bytes go in memory is left to others.
#![tactic(auto)]

mod fault;
mod header;
mod image;
mod numbers;
mod parser;
mod writer;

pub use fault::{ElfFault, FaultText};
pub use header::ProgramHeader;
pub use image::{Image, Segment};
pub use numbers::{
    ARGS_MAX, E_NOT_EXEC, EHDR_LEN, P_FILESZ, P_FLAGS, P_MEMSZ, P_OFFSET, P_TYPE, P_VADDR, PF_W,
    PHDR_LEN, PT_LOAD,
};
pub use parser::parse;
pub use writer::{Part, write};

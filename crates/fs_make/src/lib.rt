//! Makes a disk image of files.
//!
//! `specs/MadeImage.antt` says which bytes it has, and `specs/MakeFaults.antt` why none is made; `specs/MadeLaws.antt` that what
//! is made is a disk with those files. `make` gives exactly that.
#![tactic(auto)]

mod blocks;
mod fault;
mod image;
mod laws;
mod make_faults;
mod making;
mod names;
mod nodes;

pub use fault::{MakeFault, MakeFaultText};
pub use laws::{made_images_are_disks, made_images_have_the_files};
pub use making::make;

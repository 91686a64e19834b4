//! What spawn does with its file: it has that opened, reads it part by part, and tests whether it is an image.
//!
//! In the abstract system (`AbstractSpawn.antt` of `lib_os`) the file is asked for in one step, its header, the table of its program headers and each
//! piece of its segments in another each, and what is found wrong is seen when the descriptor of the file is dropped. Here each part of that
//! is a plan of what it asks of the kernel, and of what it does next by the reply (`OpeningStages.antt`, `ReadingStages.antt`, `TestingStages.antt`). The
//! tests of an image are made on the words of its headers, one after the other, as they are loaded; that they are those of `jos_elf` is proved
//! (`WordLaws.antt`).
#![tactic(auto)]

mod laws;
mod nexts;
mod numbers;
mod opening;
mod reading;
mod stage;
mod testing;

pub use laws::words_tell_images;
pub use nexts::{go_on, show};
pub use numbers::{
    SEGMENT_ADDRESS, SEGMENT_FLAGS, SEGMENT_KIND, SEGMENT_LENGTH, SEGMENT_MEMORY, SEGMENT_OFFSET,
};
pub use stage::ImageStage;
pub use testing::ask_segment;

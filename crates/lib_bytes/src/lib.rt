//! read and stat of a file, from where they take a page for their request to where its bytes are in the program's memory.
//!
//! The page tells the file server the number of the file, and how many bytes are wanted. The bytes that come with the reply stand in it from
//! byte 0 on; each word, or byte, of them goes to the program's memory by a step of its own of the abstract system (`FileServices.antt` of
//! `lib_os`), and behind the last the page is given back. Here it is told what is asked of the kernel at each stage, and what is done next by
//! the reply (`FileStages.antt`).
#![tactic(auto)]

mod bytes;

pub use bytes::{
    FileService, FileStage, ask_loading, ask_of_file, ask_rest, file_stage_at, joined, moved,
    next_of_file,
};

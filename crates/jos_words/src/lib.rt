//! The words of the command line, read.
//!
//! `specs/Commands.antt` says which command a list of words is, and `specs/Arguments.antt` how the words behind its
//! name are read, as options with their values and positional words. `read_words` answers exactly by them. Each value
//! comes with the place of its word, so that an outcome can name the word. The kit's clap is asked too, and takes
//! what is read; it tells no places. Ranges of numbers, files and names of programs are left to others.
#![tactic(auto)]

mod arguments;
mod clap_commands;
mod commands;
mod values;
mod words;

pub use commands::{
    CatWords, CommandWords, DemoWords, ExoWords, GenWords, LsWords, MkfsWords, RunWords, read_words,
};
pub use values::{DIGITS_MAX, NumberAt};
pub use words::{WordAt, WordsFault};

//! What the shell does with a line.
//!
//! `specs/ShellScript.antt` says it as a tree: which call of the library the shell makes next, and how it goes on by what that
//! call answers. `start` gives the place at the front of a line's tree, `next_call` the call at a place, and `after` the place
//! behind an answer; `read_on` goes on with the reading of a line. What a place stands for is said by `specs/ScriptPlaces.antt`.
//! Nothing here takes memory.
#![tactic(auto)]

mod answer;
mod call;
mod child;
mod job;
mod numbers;
mod place;
mod script;
mod text;
mod words;

pub use answer::{Answer, Ends};
pub use call::{Path, ShellCall};
pub use child::{ChildStep, Redirection};
pub use numbers::{DESCRIPTORS, INPUT_MODE, OUTPUT_MODE, TEXT_MAX};
pub use place::{Behind, BehindStep, Job, Next, Place, Read};
pub use script::{after, next_call, read_on, start};
pub use text::{Text, TextBytes};
pub use words::word;

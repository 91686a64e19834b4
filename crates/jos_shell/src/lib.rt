//! The shell's language.
//!
//! `specs/Tokens.antt` says of which symbols and words a line consists, and `specs/Grammar.antt` which commands it asks for, or
//! that it can't be read. `parse_line` answers exactly by them. What it finds are places in the line, so nothing is copied, and
//! nothing here takes memory.
#![tactic(auto)]

mod line;
mod numbers;
mod reader;
mod tokens;

pub use line::{Command, Line, SyntaxFault, parse_line};
pub use numbers::{COMMANDS_MAX, LINE_MAX, WORDS_MAX};

//! Limits of a line.

/// The most bytes of a line that is read, without its newline.
pub const LINE_MAX: usize = 1023;

/// The most words of a command.
pub const WORDS_MAX: usize = 16;

/// The most commands of a line.
pub const COMMANDS_MAX: usize = 8;

//! The limits of the assembler. (This system's own.)

/// The most bytes that a program has.
pub const CODE_MAX: usize = 1_048_576;

/// The most bytes of a label's name.
pub const NAME_MAX: usize = 31;

/// How many items memory is asked for at once.
pub const BLOCK: usize = 32;

/// How far back a signed byte leads from the next instruction.
pub const NEAR_BACK: u32 = 128;

/// How far ahead a signed byte leads from the next instruction.
pub const NEAR_AHEAD: u32 = 127;

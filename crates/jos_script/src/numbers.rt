//! Numbers of the shell.

/// The descriptors of an environment. (MIT 6.828, lib/fd.c: `MAXFD`)
pub const DESCRIPTORS: u8 = 32;

/// The mode in which the file of an input is opened: for reading. (MIT 6.828, inc/lib.h: `O_RDONLY`)
pub const INPUT_MODE: u32 = 0;

/// The mode in which the file of an output is opened: for writing, made where it is missing, and emptied. (MIT 6.828, inc/lib.h:
/// `O_WRONLY`, `O_CREAT` and `O_TRUNC`)
pub const OUTPUT_MODE: u32 = 0x301;

/// What ends a line.
pub const NEWLINE: u8 = b'\n';

/// What the names of a path are parted by.
pub const SLASH: u8 = b'/';

/// The most bytes of a text that the shell prints, and a few more.
pub const TEXT_MAX: usize = 1056;

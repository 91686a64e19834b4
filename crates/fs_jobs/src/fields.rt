//! Where the fields of a record stand in it.

use fs_layout::{MAXNAMELEN, NDIRECT};

/// The size of a file in bytes. (MIT 6.828, lab 5: inc/fs.h, struct File)
pub const SIZE_AT: u32 = MAXNAMELEN;

/// Its kind.
pub const KIND_AT: u32 = MAXNAMELEN + 4;

/// The numbers of its first blocks.
pub const DIRECT_AT: u32 = MAXNAMELEN + 8;

/// The number of its indirect block.
pub const INDIRECT_AT: u32 = MAXNAMELEN + 8 + 4 * NDIRECT;

/// The byte of a path that stands between names.
pub const SLASH: u32 = 0x2f;

//! Numbers of the file system.

/// The bytes of a block. (MIT 6.828, inc/fs.h, as all names here but those that say otherwise)
pub const BLKSIZE: u32 = 4096;

/// The bits of a block, each of which tells of one block in the bitmap.
pub const BLKBITSIZE: u32 = BLKSIZE * 8;

/// The bytes of a record, which is a `struct File`. (This system's name)
pub const RECORDSIZE: u32 = 256;

/// The records in a block of a directory.
pub const BLKFILES: u32 = BLKSIZE / RECORDSIZE;

/// The bytes of a name in a record, with the NUL behind it.
pub const MAXNAMELEN: u32 = 128;

/// The bytes of a path, with the NUL behind it.
pub const MAXPATHLEN: u32 = 1024;

/// How many blocks a record names by itself.
pub const NDIRECT: u32 = 10;

/// How many blocks its indirect block names.
pub const NINDIRECT: u32 = BLKSIZE / 4;

/// The greatest size of a file or a directory.
pub const MAXFILESIZE: u32 = (NDIRECT + NINDIRECT) * BLKSIZE;

/// The kind of a file.
pub const FTYPE_REG: u32 = 0;

/// The kind of a directory.
pub const FTYPE_DIR: u32 = 1;

/// Of a mode: a file that is missing is made. (inc/lib.h)
pub const O_CREAT: u32 = 0x100;

/// Of a mode: a file that is there gets the size 0. (inc/lib.h)
pub const O_TRUNC: u32 = 0x200;

/// Of a mode, beside `O_CREAT`: it is an error where the file is there. (inc/lib.h)
pub const O_EXCL: u32 = 0x400;

/// The word at the start of a super block.
pub const FS_MAGIC: u32 = 0x4a05_30ae;

/// The fewest blocks of a disk. (This system's name and bound)
pub const MINBLOCKS: u32 = 4;

/// The most blocks of a disk. (This system's name and bound)
pub const MAXBLOCKS: u32 = 16_384;

/// In a super block, the place of the number of blocks. (The layout of `struct Super`, as the next)
pub(crate) const BLOCKS_AT: usize = 4;

/// In a super block, the place of the root's record.
pub(crate) const ROOT_AT: usize = 8;

/// In a record, the place of the size; the name stands before it. (The layout of `struct File`, as the next ones)
pub(crate) const SIZE_AT: usize = 128;

/// In a record, the place of the kind.
pub(crate) const KIND_AT: usize = 132;

/// In a record, the place of the numbers of the blocks that it names by itself.
pub(crate) const DIRECT_AT: usize = 136;

/// In a record, the place of the number of the indirect block.
pub(crate) const INDIRECT_AT: usize = 176;

/// In a record, the place of the padding.
pub(crate) const PADDING_AT: usize = 180;

//! The file system as a tree, and what is done to it.
//!
//! `specs/FileTree.antt` says what a directory and a file are, how a way leads to them and how many blocks of the disk
//! they take; `specs/FileActs.antt` what each act of the file server does to them; `specs/FileLaws.antt` what these mean,
//! which is proved.
//!
//! `specs/Layout.antt` says how a record and the super block lie on the disk: both are read and written exactly so, and
//! what is written is read back; `specs/LayoutLaws.antt` says that only their own bytes count. `specs/Paths.antt` says
//! where the names stand in a path, and `specs/PathLaws.antt` that these are the names of `FileActs`.
//!
//! `specs/DiskImage.antt` says which bytes are a disk, by tests of which the first that fails is the fault,
//! `specs/DiskLaws.antt` that the bound on their depth is never used up and that the records of a disk can be read, and `specs/DiskFiles.antt` which tree of files a
//! disk has. Nothing here takes memory.
#![tactic(auto)]

mod laws;
mod numbers;
mod paths;
mod records;
mod writer;

pub use laws::{
    depth_suffices, disks_are_sound, files_keep_what_is_written, parts_are_names,
    records_are_their_bytes, trees_keep_what_is_put,
};
pub use numbers::{
    BLKBITSIZE, BLKFILES, BLKSIZE, FS_MAGIC, FTYPE_DIR, FTYPE_REG, MAXBLOCKS, MAXFILESIZE,
    MAXNAMELEN, MAXPATHLEN, MINBLOCKS, NDIRECT, NINDIRECT, O_CREAT, O_EXCL, O_TRUNC, RECORDSIZE,
};
pub use paths::{BadPath, NAMES_MAX, Span, parts};
pub use records::{FileEntry, Super, decode_entry, decode_super};
pub use writer::{encode_entry, encode_super};

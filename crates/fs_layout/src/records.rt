//! A record and the super block, read.

ghost use Rattle.std.specs.Prelude.{◌≡◌, ◌+◌, ◌*◌, ◌≤◌, length, slice_index};
ghost use Rattle.jos_base.specs.Words.{word_at};
ghost use Rattle.fs_layout.specs.Layout.{bytes_from, words_from, file_entry_at, super_at};

use crate::numbers::{
    BLKSIZE, BLOCKS_AT, DIRECT_AT, FS_MAGIC, INDIRECT_AT, KIND_AT, MAXNAMELEN, NDIRECT, RECORDSIZE,
    ROOT_AT, SIZE_AT,
};

/// What the super block says. (MIT 6.828, inc/fs.h, `struct Super`)
#[derive(Clone, Copy, Debug, PartialEq, Eq)]
pub struct Super {
    /// How many blocks the disk has.
    pub blocks: u32,
    /// The root's record.
    pub root: FileEntry,
}

/// A record of a directory. (MIT 6.828, inc/fs.h, `struct File`)
#[derive(Clone, Copy, Debug, PartialEq, Eq)]
pub struct FileEntry {
    /// The name, which ends at the first NUL.
    pub name: [u8; MAXNAMELEN as usize],
    /// How many bytes.
    pub size: u32,
    /// The kind, `FTYPE_REG` or `FTYPE_DIR`.
    pub kind: u32,
    /// The numbers of the first blocks.
    pub direct: [u32; NDIRECT as usize],
    /// The number of the block that holds the numbers of the other blocks, or 0.
    pub indirect: u32,
}

/// The number in the four bytes at a place.
fn word_at(bytes: &[u8], at: usize) -> u32
    requires { at + 4 ≤ length bytes.now }
    ensures { result ≡ word_at (slice_index bytes.now) at }
{
    u32::from_le_bytes([bytes[at], bytes[at + 1], bytes[at + 2], bytes[at + 3]])
}

/// The bytes of a name that begins at a place.
fn name_at(bytes: &[u8], at: usize) -> [u8; MAXNAMELEN as usize]
    requires { at + MAXNAMELEN ≤ length bytes.now }
    ensures { result ≡ bytes_from (slice_index bytes.now) at MAXNAMELEN }
{
    let mut name = [0; MAXNAMELEN as usize];
    for place in 0..MAXNAMELEN as usize {
        name[place] = bytes[at + place];
    }
    name
}

/// The numbers of blocks that begin at a place.
fn direct_at(bytes: &[u8], at: usize) -> [u32; NDIRECT as usize]
    requires { at + 4 * NDIRECT ≤ length bytes.now }
    ensures { result ≡ words_from (slice_index bytes.now) at NDIRECT }
{
    let mut direct = [0; NDIRECT as usize];
    for place in 0..NDIRECT as usize {
        direct[place] = word_at(bytes, at + 4 * place);
    }
    direct
}

/// The record that begins at a place.
#[tactic(auto, unfolding(crate::specs::Layout::file_entry_at))]
fn file_entry_at(bytes: &[u8], at: usize) -> FileEntry
    requires { at + RECORDSIZE ≤ length bytes.now }
    ensures { result ≡ file_entry_at (slice_index bytes.now) at }
{
    FileEntry {
        name: name_at(bytes, at),
        size: word_at(bytes, at + SIZE_AT),
        kind: word_at(bytes, at + KIND_AT),
        direct: direct_at(bytes, at + DIRECT_AT),
        indirect: word_at(bytes, at + INDIRECT_AT),
    }
}

/// What a record says.
pub fn decode_entry(bytes: &[u8; RECORDSIZE as usize]) -> FileEntry
    ensures { result ≡ file_entry_at (slice_index bytes.now) 0 }
{
    file_entry_at(bytes, 0)
}

/// What a super block says; None exactly where its first word is another than the magic.
#[tactic(auto, unfolding(crate::specs::Layout::super_at))]
pub fn decode_super(bytes: &[u8; BLKSIZE as usize]) -> Option<Super>
    ensures { result ≡ super_at (slice_index bytes.now) 0 }
{
    if word_at(bytes, 0) != FS_MAGIC {
        return None;
    }
    Some(Super {
        blocks: word_at(bytes, BLOCKS_AT),
        root: file_entry_at(bytes, ROOT_AT),
    })
}

//! A record and the super block, written.
//!
//! The bytes are written from the first on: each call here says what stands before the place where it ends.

ghost use Rattle.std.specs.Prelude.{◌≡◌, ℕ, ◌+◌, ◌-◌, ◌*◌, ◌^◌, ◌<◌, ◌≤◌, ◌++◌, Some, length, take, slice_index};
ghost use Rattle.jos_base.specs.TrapFrames.{bytes_of_words};
ghost use Rattle.fs_layout.specs.Layout.{zeros, entry_bytes, super_bytes, file_entry_at, super_at, EntryFits};

use crate::numbers::{
    BLKSIZE, DIRECT_AT, FS_MAGIC, INDIRECT_AT, PADDING_AT, RECORDSIZE, ROOT_AT, SIZE_AT,
};
use crate::records::{FileEntry, Super};

/// Puts bytes at a place.
fn put_bytes(out: &mut [u8], at: usize, bytes: &[u8])
    requires { at + length bytes.now ≤ length out.old }
    ensures { take (at + length bytes.now) out.new ≡ take at out.old ++ bytes.now }
{
    out[at..at + bytes.len()].copy_from_slice(bytes);
}

/// Puts zeros between two places.
fn put_zeros(out: &mut [u8], from: usize, to: usize)
    requires order { from ≤ to }
    requires within { to ≤ length out.old }
    ensures { take to out.new ≡ take from out.old ++ zeros (to - from) }
{
    out[from..to].fill(0);
}

/// Puts words at a place.
fn put_words(out: &mut [u8], at: usize, words: &[u32])
    requires { at + 4 * length words.now ≤ length out.old }
    ensures bytes { take (at + 4 * length words.now) out.new ≡ take at out.old ++ bytes_of_words words.now }
    ensures fit { (k : ℕ) → slice_index words.now k < 2 ^ 32 }
{
    for (place, word) in words.iter().enumerate() {
        put_bytes(out, at + 4 * place, &word.to_le_bytes());
    }
}

/// Puts a record at a place.
fn put_entry(out: &mut [u8], at: usize, entry: &FileEntry)
    requires { at + RECORDSIZE ≤ length out.old }
    ensures bytes { take (at + RECORDSIZE) out.new ≡ take at out.old ++ entry_bytes entry.now }
    ensures fits { EntryFits entry.now }
{
    put_bytes(out, at, &entry.name);
    put_words(out, at + SIZE_AT, &[entry.size, entry.kind]);
    put_words(out, at + DIRECT_AT, &entry.direct);
    put_words(out, at + INDIRECT_AT, &[entry.indirect]);
    put_zeros(out, at + PADDING_AT, at + RECORDSIZE as usize);
}

/// Writes a record, which is read back.
pub fn encode_entry(entry: &FileEntry, out: &mut [u8; RECORDSIZE as usize])
    ensures bytes { out.new ≡ entry_bytes entry.now }
    ensures back { file_entry_at (slice_index out.new) 0 ≡ entry.now }
{
    put_entry(out, 0, entry);
}

/// Writes a super block, which is read back.
pub fn encode_super(block: &Super, out: &mut [u8; BLKSIZE as usize])
    ensures bytes { out.new ≡ super_bytes block.now }
    ensures back { super_at (slice_index out.new) 0 ≡ Some block.now }
{
    put_words(out, 0, &[FS_MAGIC, block.blocks]);
    put_entry(out, ROOT_AT, &block.root);
    put_zeros(out, ROOT_AT + RECORDSIZE as usize, BLKSIZE as usize);
}

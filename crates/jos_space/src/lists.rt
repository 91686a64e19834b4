//! Single words, bytes and numbers of the lists that have one for each frame.

ghost use Rattle.jos_base.specs.declared.numbers.TheConstants.{ENV_WORDS, NPTENTRIES, PGSIZE};
ghost use Rattle.jos_space.specs.Frames.{zero_words};
ghost use Rattle.jos_base.specs.SpacesState.{zero_page, overlaid};
ghost use Rattle.jos_space.specs.AtHand.{word_laid};
ghost use Rattle.jos_space.specs.declared.role.Role.TheVariants.{Reserved};
ghost use Rattle.std.specs.Prelude.{◌≡◌, ◌<◌, ◌≤◌, ◌+◌, ◌-◌, drop, length, get_or, slice_set, []};

use crate::role::Role;
use jos_base::{ENV_WORDS, NPTENTRIES, PGSIZE};

/// The words of a directory or a table.
pub(crate) const TABLE_WORDS: usize = NPTENTRIES as usize;

/// The bytes of a page.
pub(crate) const BYTES: usize = PGSIZE as usize;

/// A frame as a directory or a table.
pub(crate) type TableFrame = [u32; TABLE_WORDS];

/// A frame as a page.
pub(crate) type PageFrame = [u8; BYTES];

/// The words of a slot's record.
pub(crate) type Record = [u32; ENV_WORDS];

/// A word of a frame.
#[inline(always)]
pub(crate) fn word_at(words: &[TableFrame], frame: u32, index: u32) -> u32
    requires frame { frame < length words.now }
    requires index { index < NPTENTRIES }
    ensures { result ≡ get_or (get_or words.now frame []) index 0 }
{
    words[frame as usize][index as usize]
}

/// Sets a word of a frame.
pub(crate) fn set_word(words: &mut Vec<TableFrame>, frame: u32, index: u32, word: u32)
    requires frame { frame < length words.old.items }
    requires index { index < NPTENTRIES }
    ensures row { length (get_or words.old.items frame []) ≡ NPTENTRIES }
    ensures set { words.new.items ≡ slice_set words.old.items frame (slice_set (get_or words.old.items frame []) index word) }
{
    words[frame as usize][index as usize] = word;
}

/// The frame at a place of the free list.
pub(crate) fn place_at(order: &[u32], place: u32) -> u32
    requires { place < length order.now }
    ensures { result ≡ get_or order.now place 0 }
{
    order[place as usize]
}

/// How often a frame is named.
pub(crate) fn count_at(counts: &[u64], frame: u32) -> u64
    requires { frame < length counts.now }
    ensures { result ≡ get_or counts.now frame 0 }
{
    counts[frame as usize]
}

/// Puts zeros into all words of a frame.
#[tactic(auto, unfolding(crate::specs::Frames::zero_words))]
pub(crate) fn clear_words(words: &mut Vec<TableFrame>, frame: u32)
    requires { frame < length words.old.items }
    ensures { words.new.items ≡ slice_set words.old.items frame zero_words }
{
    words[frame as usize] = [0; TABLE_WORDS];
}

/// A byte of a frame.
pub(crate) fn byte_in(bytes: &[PageFrame], frame: u32, offset: u32) -> u8
    requires frame { frame < length bytes.now }
    requires offset { offset < PGSIZE }
    ensures { result ≡ get_or (get_or bytes.now frame []) offset 0 }
{
    bytes[frame as usize][offset as usize]
}

/// The bytes of a page from an offset on.
#[inline(always)]
pub(crate) fn bytes_from(bytes: &[PageFrame], frame: u32, offset: u32) -> &[u8]
    requires frame { frame < length bytes.now }
    requires offset { offset < PGSIZE }
    ensures items { result.now ≡ drop offset (get_or bytes.now frame []) }
    ensures len { offset + length result.now ≡ PGSIZE }
{
    &bytes[frame as usize][offset as usize..]
}

/// Sets a byte of a frame.
#[inline(always)]
pub(crate) fn set_byte_at(bytes: &mut Vec<PageFrame>, frame: u32, offset: u32, byte: u8)
    requires frame { frame < length bytes.old.items }
    requires offset { offset < PGSIZE }
    ensures items { bytes.new.items ≡ slice_set bytes.old.items frame (slice_set (get_or bytes.old.items frame []) offset byte) }
    ensures put { get_or (get_or bytes.new.items frame []) offset 0 ≡ byte }
{
    bytes[frame as usize][offset as usize] = byte;
}

/// Puts a word into these bytes of a page, the lowest byte first.
#[inline(always)]
#[tactic(auto, unfolding(crate::specs::AtHand::word_laid))]
fn lay_word(page: &mut PageFrame, offset: usize, word: u32)
    requires { offset ≤ PGSIZE - 4 }
    ensures { page.new ≡ word_laid page.old offset word }
{
    let [a, b, c, d] = word.to_le_bytes();
    page[offset] = a;
    page[offset + 1] = b;
    page[offset + 2] = c;
    page[offset + 3] = d;
}

/// Puts a word into a page, the lowest byte first.
#[inline(always)]
pub(crate) fn set_word_at(bytes: &mut Vec<PageFrame>, frame: u32, offset: u32, word: u32)
    requires frame { frame < length bytes.old.items }
    requires offset { offset ≤ PGSIZE - 4 }
    ensures { bytes.new.items ≡ slice_set bytes.old.items frame (word_laid (get_or bytes.old.items frame []) offset word) }
{
    lay_word(&mut bytes[frame as usize], offset as usize, word);
}

/// Lays bytes into a page from an offset on.
pub(crate) fn fill_at(pages: &mut Vec<PageFrame>, frame: u32, offset: u32, bytes: &[u8])
    requires frame { frame < length pages.old.items }
    requires room { offset + length bytes.now ≤ PGSIZE }
    ensures { pages.new.items ≡ slice_set pages.old.items frame (overlaid (get_or pages.old.items frame []) offset bytes.now) }
{
    let offset = offset as usize;
    pages[frame as usize][offset..offset + bytes.len()].copy_from_slice(bytes);
}

/// Puts zeros into all bytes of a frame.
#[tactic(auto, unfolding(jos_base::specs::SpacesState::zero_page))]
pub(crate) fn clear_bytes(bytes: &mut Vec<PageFrame>, frame: u32)
    requires { frame < length bytes.old.items }
    ensures { bytes.new.items ≡ slice_set bytes.old.items frame zero_page }
{
    bytes[frame as usize] = [0; BYTES];
}

/// What a frame is used for.
pub(crate) fn role_at(roles: &[Role], frame: u32) -> Role
    requires { frame < length roles.now }
    ensures { result ≡ get_or roles.now frame Reserved }
{
    roles[frame as usize]
}

/// Sets a word of a slot's record.
pub(crate) fn set_record_word(records: &mut Vec<Record>, slot: usize, index: usize, word: u32)
    requires slot { slot < length records.old.items }
    requires index { index < ENV_WORDS }
    ensures { records.new.items ≡ slice_set records.old.items slot (slice_set (get_or records.old.items slot []) index word) }
{
    records[slot][index] = word;
}

/// Sets all words of a slot's record.
pub(crate) fn set_record(records: &mut Vec<Record>, slot: usize, words: Record)
    requires { slot < length records.old.items }
    ensures { records.new.items ≡ slice_set records.old.items slot words }
{
    records[slot] = words;
}

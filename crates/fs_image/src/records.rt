//! The tests of a record.

ghost use Rattle.std.specs.Prelude.{◌≡◌, ◌+◌, ◌-◌, ◌*◌, ◌<◌, ◌≤◌, ◌^◌, length, ◌&&◌, ◌||◌, ◌==◌, not, nat_le, min, slice_index};
ghost use Rattle.fs_layout.specs.DiskImage as image;
ghost use Rattle.fs_image.specs.Answers.{test_answer, blocks_in};

use crate::blocks::number_test;
use crate::disk::MemoryDisk;
use crate::fault::ImageFault;
use fs_layout::{BLKSIZE, FTYPE_DIR, MAXFILESIZE, MAXNAMELEN, NDIRECT, NINDIRECT};

/// The record's size.
pub fn size_of(disk: &MemoryDisk, place: u64) -> u32
    requires { place < 2 ^ 50 }
    ensures { result ≡ image.size_of (slice_index disk.now.bytes.now) place }
{
    disk.word(place + MAXNAMELEN as u64)
}

/// The record's kind.
pub fn kind_at(disk: &MemoryDisk, place: u64) -> u32
    requires { place < 2 ^ 50 }
    ensures { result ≡ image.kind_at (slice_index disk.now.bytes.now) place }
{
    disk.word(place + MAXNAMELEN as u64 + 4)
}

/// One of the record's own block numbers.
pub(crate) fn direct_of(disk: &MemoryDisk, place: u64, i: u32) -> u32
    requires { place < 2 ^ 50 }
    ensures { result ≡ image.direct_of (slice_index disk.now.bytes.now) place i }
{
    disk.word(place + MAXNAMELEN as u64 + 8 + 4 * i as u64)
}

/// The number of the record's indirect block.
fn indirect_of(disk: &MemoryDisk, place: u64) -> u32
    requires { place < 2 ^ 50 }
    ensures { result ≡ image.indirect_of (slice_index disk.now.bytes.now) place }
{
    disk.word(place + MAXNAMELEN as u64 + 8 + 4 * NDIRECT as u64)
}

/// A block number of the record's indirect block.
pub(crate) fn number_in_indirect(disk: &MemoryDisk, place: u64, i: u32) -> u32
    requires { place < 2 ^ 50 }
    ensures { result ≡ image.number_in_indirect (slice_index disk.now.bytes.now) place i }
{
    disk.word(BLKSIZE as u64 * indirect_of(disk, place) as u64 + 4 * i as u64)
}

/// The number of one of the record's blocks.
pub fn block_number_at(disk: &MemoryDisk, place: u64, i: u32) -> u32
    requires { place < 2 ^ 50 }
    ensures { result ≡ image.block_number_at (slice_index disk.now.bytes.now) place i }
{
    if i < NDIRECT {
        return direct_of(disk, place, i);
    }
    number_in_indirect(disk, place, i - NDIRECT)
}

/// How many blocks the record's size takes.
fn blocks_needed(disk: &MemoryDisk, place: u64) -> u32
    requires { place < 2 ^ 50 }
    ensures { result ≡ image.blocks_needed (slice_index disk.now.bytes.now) place }
{
    ((size_of(disk, place) as u64 + (BLKSIZE as u64 - 1)) / BLKSIZE as u64) as u32
}

/// The first so many of the record's own numbers.
fn directs_test(disk: &MemoryDisk, named: &mut [bool], place: u64, count: u32) -> Option<ImageFault>
    requires room { image.block_count (slice_index disk.now.bytes.now) ≤ length named.old }
    requires place { place < 2 ^ 50 }
    ensures { test_answer result named.new ≡ image.for_each_below count
        (λ i. image.number_test (slice_index disk.now.bytes.now) place (image.direct_of (slice_index disk.now.bytes.now) place i)) (blocks_in named.old) }
{
    for i in 0..count {
        if let Some(fault) = number_test(disk, named, place, direct_of(disk, place, i)) {
            return Some(fault);
        }
    }
    None
}

/// The indirect block.
#[tactic(auto, unfolding(fs_layout::specs::DiskImage::indirect_test))]
fn indirect_test(disk: &MemoryDisk, named: &mut [bool], place: u64) -> Option<ImageFault>
    requires room { image.block_count (slice_index disk.now.bytes.now) ≤ length named.old }
    requires place { place < 2 ^ 50 }
    ensures { test_answer result named.new ≡ image.indirect_test (slice_index disk.now.bytes.now) place (blocks_in named.old) }
{
    let indirect = indirect_of(disk, place);
    if NDIRECT < blocks_needed(disk, place) || indirect != 0 {
        return number_test(disk, named, place, indirect);
    }
    None
}

/// The first so many of the numbers in the record's indirect block.
fn others_test(disk: &MemoryDisk, named: &mut [bool], place: u64, count: u32) -> Option<ImageFault>
    requires room { image.block_count (slice_index disk.now.bytes.now) ≤ length named.old }
    requires place { place < 2 ^ 50 }
    ensures { test_answer result named.new ≡ image.for_each_below count
        (λ i. image.number_test (slice_index disk.now.bytes.now) place (image.number_in_indirect (slice_index disk.now.bytes.now) place i)) (blocks_in named.old) }
{
    for i in 0..count {
        if let Some(fault) = number_test(disk, named, place, number_in_indirect(disk, place, i)) {
            return Some(fault);
        }
    }
    None
}

/// The blocks within the record's size, and its indirect block.
fn numbers_test(disk: &MemoryDisk, named: &mut [bool], place: u64) -> Option<ImageFault>
    requires room { image.block_count (slice_index disk.now.bytes.now) ≤ length named.old }
    requires place { place < 2 ^ 50 }
    ensures { test_answer result named.new ≡ image.in_turn (image.numbers_tests (slice_index disk.now.bytes.now) place) (blocks_in named.old) }
{
    let needed = blocks_needed(disk, place);
    if let Some(fault) = directs_test(disk, named, place, needed.min(NDIRECT)) {
        return Some(fault);
    }
    if let Some(fault) = indirect_test(disk, named, place) {
        return Some(fault);
    }
    others_test(disk, named, place, needed.saturating_sub(NDIRECT))
}

/// Whether one of the record's own numbers is past the size and not 0.
fn is_stray(disk: &MemoryDisk, place: u64, i: u32) -> bool
    requires { place < 2 ^ 50 }
    ensures { result ≡ (nat_le (image.blocks_needed (slice_index disk.now.bytes.now) place) i && not (image.direct_of (slice_index disk.now.bytes.now) place i == 0)) }
{
    blocks_needed(disk, place) <= i && direct_of(disk, place, i) != 0
}

/// Whether a number in the record's indirect block is past the size and not 0.
fn is_stray_in_indirect(disk: &MemoryDisk, place: u64, i: u32) -> bool
    requires place { place < 2 ^ 50 }
    requires i { i < NINDIRECT }
    ensures { result ≡ (nat_le (image.blocks_needed (slice_index disk.now.bytes.now) place) (NDIRECT + i)
        && not (image.number_in_indirect (slice_index disk.now.bytes.now) place i == 0)) }
{
    blocks_needed(disk, place) <= NDIRECT + i && number_in_indirect(disk, place, i) != 0
}

/// Whether the record names a block past its size by itself.
fn has_stray(disk: &MemoryDisk, place: u64) -> bool
    requires { place < 2 ^ 50 }
    ensures { result ≡ image.has_stray (slice_index disk.now.bytes.now) place }
{
    for i in 0..NDIRECT {
        if is_stray(disk, place, i) {
            return true;
        }
    }
    false
}

/// Whether its indirect block names one.
fn has_stray_in_indirect(disk: &MemoryDisk, place: u64) -> bool
    requires { place < 2 ^ 50 }
    ensures { result ≡ image.has_stray_in_indirect (slice_index disk.now.bytes.now) place }
{
    for i in 0..NINDIRECT {
        if is_stray_in_indirect(disk, place, i) {
            return true;
        }
    }
    false
}

/// Whether it has an indirect block that names one.
fn has_far_stray(disk: &MemoryDisk, place: u64) -> bool
    requires { place < 2 ^ 50 }
    ensures { result ≡ (image.has_indirect (slice_index disk.now.bytes.now) place && image.has_stray_in_indirect (slice_index disk.now.bytes.now) place) }
{
    indirect_of(disk, place) != 0 && has_stray_in_indirect(disk, place)
}

/// Whether its size is one that its kind may have.
fn is_good_size(kind: u32, size: u32) -> bool
    ensures { result ≡ image.is_good_size kind size }
{
    kind != FTYPE_DIR || size % BLKSIZE == 0
}

/// The tests of a record that are the root's too.
pub(crate) fn record_test(disk: &MemoryDisk, named: &mut [bool], place: u64) -> Option<ImageFault>
    requires room { image.block_count (slice_index disk.now.bytes.now) ≤ length named.old }
    requires place { place < 2 ^ 50 }
    ensures { test_answer result named.new ≡ image.in_turn (image.record_tests (slice_index disk.now.bytes.now) place) (blocks_in named.old) }
{
    let size = size_of(disk, place);
    if !is_good_size(kind_at(disk, place), size) {
        return Some(ImageFault::DirSize(place));
    }
    if size > MAXFILESIZE {
        return Some(ImageFault::TooLong(place));
    }
    if let Some(fault) = numbers_test(disk, named, place) {
        return Some(fault);
    }
    if has_stray(disk, place) {
        return Some(ImageFault::Stray(place));
    }
    if has_far_stray(disk, place) {
        return Some(ImageFault::Stray(place));
    }
    None
}

//! The tests of the blocks that a record names.

ghost use Rattle.std.specs.Prelude.{◌≡◌, ◌+◌, ◌*◌, ◌<◌, ◌≤◌, length, ◌&&◌, ◌==◌, slice_index};
ghost use Rattle.fs_layout.specs.DiskImage as image;
ghost use Rattle.fs_layout.specs.DiskFiles.{free_blocks};
ghost use Rattle.fs_image.specs.Answers.{test_answer, blocks_in};

use crate::disk::MemoryDisk;
use crate::fault::ImageFault;
use fs_layout::{BLKBITSIZE, BLKSIZE};

/// How many blocks the disk says that it has.
pub(crate) fn block_count(disk: &MemoryDisk) -> u32
    ensures { result ≡ image.block_count (slice_index disk.now.bytes.now) }
{
    disk.word(BLKSIZE as u64 + 4)
}

/// The first block of so many that a record may name.
pub(crate) fn first_data_block(blocks: u32) -> u32
    ensures { result ≡ image.first_data_block blocks }
{
    2 + ((blocks as u64 + (BLKBITSIZE as u64 - 1)) / BLKBITSIZE as u64) as u32
}

/// Whether a record may name the block.
fn is_data_block(blocks: u32, block: u32) -> bool
    ensures { result ≡ image.is_data_block blocks block }
{
    first_data_block(blocks) <= block && block < blocks
}

/// Whether the bitmap says that the block is free.
pub(crate) fn is_marked_free(disk: &MemoryDisk, block: u32) -> bool
    ensures { result ≡ image.is_marked_free (slice_index disk.now.bytes.now) block }
{
    (disk.byte(2 * BLKSIZE as u64 + block as u64 / 8) >> (block % 8)) & 1 == 1
}

/// How many blocks the bitmap says are free.
pub(crate) fn free_blocks(disk: &MemoryDisk) -> u32
    ensures { result ≡ free_blocks (slice_index disk.now.bytes.now) }
{
    let mut free = 0;
    for block in 0..block_count(disk) {
        if is_marked_free(disk, block) {
            free += 1;
        }
    }
    free
}

/// A block that is named.
#[tactic(auto, unfolding(fs_layout::specs::DiskImage::block_test, fs_layout::specs::DiskImage::in_turn))]
pub(crate) fn block_test(disk: &MemoryDisk, named: &mut [bool], block: u32) -> Option<ImageFault>
    requires { image.block_count (slice_index disk.now.bytes.now) ≤ length named.old }
    ensures { test_answer result named.new ≡ image.block_test (slice_index disk.now.bytes.now) block (blocks_in named.old) }
{
    if !is_data_block(block_count(disk), block) {
        return Some(ImageFault::Range(block));
    }
    if named[block as usize] {
        return Some(ImageFault::NamedTwice(block));
    }
    if is_marked_free(disk, block) {
        return Some(ImageFault::MarkedFree(block));
    }
    named[block as usize] = true;
    None
}

/// A block's number, of the record at a place, that may not be 0.
#[tactic(auto, unfolding(fs_layout::specs::DiskImage::number_test, fs_layout::specs::DiskImage::in_turn))]
pub(crate) fn number_test(
    disk: &MemoryDisk,
    named: &mut [bool],
    place: u64,
    number: u32,
) -> Option<ImageFault>
    requires { image.block_count (slice_index disk.now.bytes.now) ≤ length named.old }
    ensures { test_answer result named.new ≡ image.number_test (slice_index disk.now.bytes.now) place number (blocks_in named.old) }
{
    if number == 0 {
        return Some(ImageFault::Hole(place));
    }
    block_test(disk, named, number)
}

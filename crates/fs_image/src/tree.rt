//! All the tests, in their order.

ghost use Rattle.std.specs.Prelude.{◌≡◌, ◌+◌, ◌*◌, ◌<◌, ◌≤◌, length, ◌&&◌, ◌==◌, nat_le, Ok, IfNone, slice_index};
ghost use Rattle.fs_layout.specs.DiskImage as image;
ghost use Rattle.fs_image.specs.Answers.{blocks_in, told};
ghost use Rattle.fs_image.specs.Walk.{Tells};

use crate::blocks::{block_count, first_data_block, is_marked_free};
use crate::checking::CheckFault;
use crate::disk::MemoryDisk;
use crate::fault::ImageFault;
use crate::records::{kind_at, record_test};
use crate::walk::contents_test;
use fs_layout::{BLKSIZE, FS_MAGIC, FTYPE_DIR, MAXBLOCKS, MINBLOCKS};
use std::alloc::Global;

/// The place of the root's record.
pub const ROOT_PLACE: u64 = BLKSIZE as u64 + 8;

/// Whether there are three blocks, and as many as the disk says.
fn is_long_enough(total: u64, disk: &MemoryDisk) -> bool
    ensures { result ≡ (nat_le (3 * BLKSIZE) (total)
        && nat_le (BLKSIZE * image.block_count (slice_index disk.now.bytes.now)) (total)) }
{
    3 * BLKSIZE as u64 <= total && BLKSIZE as u64 * block_count(disk) as u64 <= total
}

/// Whether the magic word is there.
fn has_magic(disk: &MemoryDisk) -> bool
    ensures { result ≡ (image.magic_of (slice_index disk.now.bytes.now) == FS_MAGIC) }
{
    disk.word(BLKSIZE as u64) == FS_MAGIC
}

/// Whether a disk may have so many blocks.
fn is_good_count(blocks: u32) -> bool
    ensures { result ≡ image.is_good_count blocks }
{
    MINBLOCKS <= blocks && blocks <= MAXBLOCKS
}

/// Whether the root is a directory.
fn has_root(disk: &MemoryDisk) -> bool
    ensures { result ≡ image.is_directory_at (slice_index disk.now.bytes.now) image.root_place }
{
    kind_at(disk, ROOT_PLACE) == FTYPE_DIR
}

/// The tests of the super block.
pub(crate) fn super_test(total: u64, disk: &MemoryDisk) -> Option<ImageFault>
    ensures exact { told result image.none_named
        ≡ image.in_turn (image.super_tests (total) (slice_index disk.now.bytes.now)) image.none_named }
    ensures count { IfNone result (image.block_count (slice_index disk.now.bytes.now) ≤ MAXBLOCKS) }
{
    if !is_long_enough(total, disk) {
        return Some(ImageFault::TooShort);
    }
    if !has_magic(disk) {
        return Some(ImageFault::Magic);
    }
    if !is_good_count(block_count(disk)) {
        return Some(ImageFault::BlockCount);
    }
    if !has_root(disk) {
        return Some(ImageFault::RootKind);
    }
    None
}

/// The blocks that no record names and that are always in use.
fn first_blocks_test(disk: &MemoryDisk) -> Option<ImageFault>
    ensures { (named : image.Blocks) → told result named ≡ image.first_blocks_test (slice_index disk.now.bytes.now) named }
{
    for block in 0..first_data_block(block_count(disk)) {
        if is_marked_free(disk, block) {
            return Some(ImageFault::MarkedFree(block));
        }
    }
    None
}

/// The root, and then every record below it.
pub(crate) fn tree_test(
    alloc: Global,
    disk: &MemoryDisk,
    named: &mut [bool],
) -> Result<(), CheckFault>
    requires { image.block_count (slice_index disk.now.bytes.now) ≤ length named.old }
    ensures { Tells result (image.in_turn (image.tree_tests (slice_index disk.now.bytes.now)) (blocks_in named.old)) (Ok (blocks_in named.new)) }
{
    if let Some(fault) = record_test(disk, named, ROOT_PLACE) {
        return Err(CheckFault::Bad(fault));
    }
    if let Err(fault) = contents_test(alloc, disk, named, block_count(disk), ROOT_PLACE) {
        return Err(fault);
    }
    match first_blocks_test(disk) {
        Some(fault) => Err(CheckFault::Bad(fault)),
        None => Ok(()),
    }
}

//! What is tested of all that is read from a disk, so that nothing is read or stored past it.

ghost use Rattle.std.specs.Prelude.{◌≡◌, ◌<◌, ◌^◌};
ghost use Rattle.jos_base.specs.Words as words;
ghost use Rattle.fs_layout.specs.DiskImage as disks;

use fs_layout::{BLKBITSIZE, MAXBLOCKS, MINBLOCKS};

/// The error of a disk on which something is damaged that a job reads.
pub const DAMAGED: u32 = 16;

/// The answer of an error: its number negated.
pub fn negated(error: u32) -> u32
    requires { 0 < error }
    ensures { result ≡ words.negated error }
{
    error.wrapping_neg()
}

/// The first block that a record may name, on a disk of so many blocks.
pub fn first_data_block(count: u32) -> u32
    requires { count < 2 ^ 16 }
    ensures { result ≡ disks.first_data_block count }
{
    2 + (count + BLKBITSIZE - 1) / BLKBITSIZE
}

/// Whether a record may name a block.
pub fn is_data_block(count: u32, block: u32) -> bool
    requires { count < 2 ^ 16 }
    ensures { result ≡ disks.is_data_block count block }
{
    first_data_block(count) <= block && block < count
}

/// Whether a disk may have so many blocks.
pub fn is_good_count(count: u32) -> bool
    ensures { result ≡ disks.is_good_count count }
{
    MINBLOCKS <= count && count <= MAXBLOCKS
}

//! The names of records.

ghost use Rattle.std.specs.Prelude.{◌≡◌, ◌+◌, ◌*◌, ◌<◌, ◌^◌, IfOk, slice_index};
ghost use Rattle.fs_layout.specs.DiskImage as image;
ghost use Rattle.fs_image.specs.Walk.{IsFirstTaken};

use crate::disk::MemoryDisk;
use crate::records::block_number_at;
use fs_layout::{BLKFILES, BLKSIZE, MAXNAMELEN, RECORDSIZE};
use std::alloc::{AllocError, Global};
use std::collections::BTreeSet;

/// Whether a record's name has a NUL, and no slash before it.
pub(crate) fn is_good_name(disk: &MemoryDisk, place: u64) -> bool
    requires { place < 2 ^ 50 }
    ensures { result ≡ image.is_good_name (image.name_of (slice_index disk.now.bytes.now) place) }
{
    let name = disk.name(place);
    name.len() < MAXNAMELEN as usize && !name.contains(&b'/')
}

/// Where a record of a directory stands.
pub fn slot_place(disk: &MemoryDisk, directory: u64, i: u32) -> u64
    requires { directory < 2 ^ 50 }
    ensures place { result ≡ image.slot_place (slice_index disk.now.bytes.now) directory i }
    ensures small { result < 2 ^ 50 }
{
    let number = block_number_at(disk, directory, i / BLKFILES);
    BLKSIZE as u64 * number as u64 + RECORDSIZE as u64 * (i % BLKFILES) as u64
}

/// The first of so many records of a directory whose name a record before it has, or their number where there is none. An
/// empty record has no name.
pub(crate) fn first_taken(
    alloc: Global,
    disk: &MemoryDisk,
    directory: u64,
    count: u32,
) -> Result<u32, AllocError>
    requires { directory < 2 ^ 50 }
    ensures { IfOk result (IsFirstTaken (slice_index disk.now.bytes.now) directory count) }
{
    let mut names = BTreeSet::new(alloc);
    for i in 0..count {
        let place = slot_place(disk, directory, i);
        if disk.byte(place) == 0 {
            continue;
        }
        if !names.insert(disk.name(place))? {
            return Ok(i);
        }
    }
    Ok(count)
}

//! The records of a directory and the bytes of a file, by the place of its record.

ghost use Rattle.std.specs.Prelude.{◌≡◌, ◌+◌, ◌*◌, ◌<◌, ◌≤◌, ◌^◌, IfOk, length, slice_index};
ghost use Rattle.fs_layout.specs.Layout.{file_entry_at};
ghost use Rattle.fs_layout.specs.DiskImage.{block_count, slot_count};
ghost use Rattle.fs_layout.specs.DiskFiles.{file_bytes};
ghost use Rattle.fs_layout.specs.DiskLaws.{IsReadable};
ghost use Rattle.fs_contents.specs.Walks.{entries_below};

use fs_image::{MemoryDisk, block_number_at, size_of, slot_place};
use fs_layout::{BLKSIZE, FileEntry, RECORDSIZE, decode_entry};
use std::alloc::{AllocError, Global};

/// What the record at a place says.
fn file_entry_at(image: &[u8], place: usize) -> FileEntry
    requires { place + RECORDSIZE ≤ length image.now }
    ensures { result ≡ file_entry_at (slice_index image.now) place }
{
    let mut record = [0; RECORDSIZE as usize];
    record.copy_from_slice(&image[place..place + RECORDSIZE as usize]);
    decode_entry(&record)
}

/// The records of the directory at a place that are not empty.
pub(crate) fn read_entries(
    alloc: Global,
    image: &[u8],
    directory: u64,
) -> Result<Vec<FileEntry>, AllocError>
    requires small { directory < 2 ^ 50 }
    requires readable { IsReadable (slice_index image.now) directory }
    requires blocks { BLKSIZE * block_count (slice_index image.now) ≤ length image.now }
    ensures { IfOk result (λ entries. entries.items
        ≡ entries_below (slice_index image.now) directory (slot_count (slice_index image.now) directory)) }
{
    let disk = MemoryDisk::new(image);
    let mut entries = Vec::new(alloc);
    for i in 0..size_of(&disk, directory) / RECORDSIZE {
        let place = slot_place(&disk, directory, i);
        if disk.byte(place) != 0 {
            entries.push(file_entry_at(image, place as usize))?;
        }
    }
    Ok(entries)
}

/// The bytes of the file at a place.
pub(crate) fn read_blocks(alloc: Global, image: &[u8], place: u64) -> Result<Vec<u8>, AllocError>
    requires small { place < 2 ^ 50 }
    requires readable { IsReadable (slice_index image.now) place }
    requires blocks { BLKSIZE * block_count (slice_index image.now) ≤ length image.now }
    ensures { IfOk result (λ bytes. bytes.items ≡ file_bytes (slice_index image.now) place) }
{
    let disk = MemoryDisk::new(image);
    let size = size_of(&disk, place) as usize;
    let mut bytes = Vec::with_capacity(alloc, size)?;
    for i in 0..size.div_ceil(BLKSIZE as usize) {
        let from = BLKSIZE as usize * block_number_at(&disk, place, i as u32) as usize;
        let left = size - BLKSIZE as usize * i;
        bytes.extend_from_slice(&image[from..from + left.min(BLKSIZE as usize)])?;
    }
    Ok(bytes)
}

//! The records of a directory, and the bytes of a file.

ghost use Rattle.std.specs.Prelude.{◌≡◌, ◌≤◌, Ok, IfOk, map, length, slice_index, MatchResult};
ghost use Rattle.fs_layout.specs.declared.numbers.TheConstants.{MAXFILESIZE};
ghost use Rattle.fs_layout.specs.DiskFiles.{IsDiskImage, file_system_of};
ghost use Rattle.fs_contents.specs.Contents.{told_of_entry, listed_at, read_at, IsReadFault};

use crate::fault::ReadFault;
use crate::reading::{read_blocks, read_entries};
use crate::walking::place_of;
use fs_image::{MemoryDisk, kind_at};
use fs_layout::{FTYPE_DIR, FileEntry};
use jos_base::Errno;
use std::alloc::Global;

/// The records of the directory that a path names, in their order, without those that are empty. A path is refused with
/// `BadPath` where it or a name in it is too long, with `NotFound` where it leads nowhere, and with `Invalid` where it names a
/// file.
pub fn list(alloc: Global, image: &[u8], path: &[u8]) -> Result<Vec<FileEntry>, ReadFault>
    requires { IsDiskImage (length image.now) (slice_index image.now) }
    ensures { MatchResult result
        (λ entries. listed_at (file_system_of (slice_index image.now)) path.now ≡ Ok (map told_of_entry entries.items))
        (IsReadFault (listed_at (file_system_of (slice_index image.now)) path.now)) }
{
    let place = place_of(image, path)?;
    if kind_at(&MemoryDisk::new(image), place) != FTYPE_DIR {
        return Err(ReadFault::NotThere(Errno::Invalid));
    }
    Ok(read_entries(alloc, image, place)?)
}

/// The bytes of the file that a path names. A path is refused as by `list`, and with `Invalid` where it names a directory.
pub fn read_file(alloc: Global, image: &[u8], path: &[u8]) -> Result<Vec<u8>, ReadFault>
    requires { IsDiskImage (length image.now) (slice_index image.now) }
    ensures read { MatchResult result
        (λ bytes. read_at (file_system_of (slice_index image.now)) path.now ≡ Ok bytes.items)
        (IsReadFault (read_at (file_system_of (slice_index image.now)) path.now)) }
    // No file of a disk is longer.
    ensures short { IfOk result (λ bytes. length bytes.items ≤ MAXFILESIZE) }
{
    let place = place_of(image, path)?;
    if kind_at(&MemoryDisk::new(image), place) == FTYPE_DIR {
        return Err(ReadFault::NotThere(Errno::Invalid));
    }
    Ok(read_blocks(alloc, image, place)?)
}

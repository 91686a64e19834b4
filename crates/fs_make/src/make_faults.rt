//! Why no image is made, found.

ghost use Rattle.std.specs.Prelude.{◌≡◌, ◌<◌, ◌≤◌, ◌^◌, ◌||◌, not, nat_lt, IfOk, IfSome, All, length, position};
ghost use Rattle.jos_host.specs.MemHost.{Named};
ghost use Rattle.fs_layout.specs.DiskImage.{is_good_count};
ghost use Rattle.fs_make.specs.MakeFaults.{is_file_name, root_size, blocks_used, make_fault};

use crate::blocks::{blocks_used, root_size};
use crate::fault::MakeFault;
use crate::names::{first_taken, is_file_name};
use fs_layout::{MAXBLOCKS, MAXFILESIZE, MINBLOCKS};
use jos_host::NamedBytes;
use std::alloc::{AllocError, Global};

/// Whether a disk may have so many blocks.
fn is_good_count(blocks: u32) -> bool
    ensures { result ≡ is_good_count blocks }
{
    MINBLOCKS <= blocks && blocks <= MAXBLOCKS
}

/// The place of the first file that may not have its name.
fn first_bad_name(files: &[NamedBytes]) -> Option<usize>
    ensures place { result ≡ position (λ (file : Named). not (is_file_name file.name)) files.now }
    ensures within { IfSome result (λ place. place < length files.now) }
{
    files
        .iter()
        .position(|file| !is_file_name(file.name.as_bytes()))
}

/// The place of the first file that is longer than a disk can hold.
fn first_too_long(files: &[NamedBytes]) -> Option<usize>
    ensures place { result ≡ position (λ (file : Named). nat_lt MAXFILESIZE (length file.bytes)) files.now }
    ensures within { IfSome result (λ place. place < length files.now) }
{
    files
        .iter()
        .position(|file| (MAXFILESIZE as usize) < file.bytes.len())
}

/// Whether the blocks are too few for the files, or the root directory would be too long.
fn lacks_room(blocks: u32, files: &[NamedBytes]) -> bool
    requires blocks { blocks ≤ MAXBLOCKS }
    requires few { length files.now < 2 ^ 32 }
    requires sizes { All (λ file. length file.bytes ≤ MAXFILESIZE) files.now }
    ensures { result ≡ (nat_lt blocks (blocks_used blocks files.now) || nat_lt MAXFILESIZE (root_size (length files.now))) }
{
    (blocks as u64) < blocks_used(blocks, files) || (MAXFILESIZE as u64) < root_size(files.len())
}

/// The first fault of files that are to be put on a disk of so many blocks. Memory is wanted for the names.
pub(crate) fn make_fault(
    alloc: Global,
    blocks: u32,
    files: &[NamedBytes],
) -> Result<Option<MakeFault>, AllocError>
    requires few { length files.now < 2 ^ 32 }
    ensures { IfOk result (λ fault. fault ≡ make_fault blocks files.now) }
{
    if !is_good_count(blocks) {
        return Ok(Some(MakeFault::TooManyBlocks));
    }
    if let Some(place) = first_bad_name(files) {
        return Ok(Some(MakeFault::BadName(place as u32)));
    }
    if let Some(place) = first_taken(alloc, files)? {
        return Ok(Some(MakeFault::TwiceNamed(place)));
    }
    if let Some(place) = first_too_long(files) {
        return Ok(Some(MakeFault::TooLong(place as u32)));
    }
    if lacks_room(blocks, files) {
        return Ok(Some(MakeFault::NoRoom));
    }
    Ok(None)
}

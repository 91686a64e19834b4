//! Whether bytes are a disk.

ghost use Rattle.std.specs.Prelude.{◌≡◌, None, IfOk, IfErr, OnOk, length, slice_index};
ghost use Rattle.fs_layout.specs.DiskImage as image;
ghost use Rattle.fs_layout.specs.DiskFiles.{IsDiskImage, free_blocks};
ghost use Rattle.fs_image.specs.DiskHeld.{fault_in, IsCheckFault};

use crate::blocks::{block_count, free_blocks};
use crate::disk::MemoryDisk;
use crate::disk_bytes::DiskBytes;
use crate::fault::ImageFault;
use crate::tree::{super_test, tree_test};
use std::alloc::Global;

/// What is told of a disk.
#[derive(Clone, Copy, Debug, PartialEq, Eq)]
pub struct DiskInfo {
    /// How many blocks it has.
    pub blocks: u32,
    /// How many of them are free.
    pub free: u32,
}

/// Why a disk is refused.
#[derive(Clone, Copy, Debug, PartialEq, Eq)]
pub enum CheckFault {
    /// It is none, with the first fault that it has.
    Bad(ImageFault),
    /// There was no memory for the marks of the blocks.
    NoMemory,
}

/// Whether bytes are a disk, and then how many blocks it has and how many of them are free.
pub fn check(alloc: Global, disk: &DiskBytes) -> Result<DiskInfo, CheckFault>
    ensures no_fault { OnOk result (fault_in disk.now ≡ None) }
    ensures bad { IfErr result (IsCheckFault disk.now) }
    // What is held is a disk by itself.
    ensures disk { OnOk result (IsDiskImage (length disk.now.bytes) (slice_index disk.now.bytes)) }
    ensures blocks { IfOk result (λ info. info.blocks ≡ image.block_count (slice_index disk.now.bytes)) }
    ensures free { IfOk result (λ info. info.free ≡ free_blocks (slice_index disk.now.bytes)) }
{
    let bytes = MemoryDisk::new(disk.bytes());
    if let Some(fault) = super_test(disk.total(), &bytes) {
        return Err(CheckFault::Bad(fault));
    }
    let blocks = block_count(&bytes);
    let mut named = match vec![in alloc; false; blocks as usize] {
        Ok(named) => named,
        Err(_) => return Err(CheckFault::NoMemory),
    };
    if let Err(fault) = tree_test(alloc, &bytes, &mut named) {
        return Err(fault);
    }
    let free = free_blocks(&bytes);
    Ok(DiskInfo { blocks, free })
}

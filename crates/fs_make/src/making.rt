//! Making an image.

ghost use Rattle.std.specs.Prelude.{◌≡◌, ◌≢◌, ◌<◌, ◌^◌, Some, None, IfOk, IfErr, OnOk, length, slice_index};
ghost use Rattle.fs_layout.specs.DiskFiles.{IsDiskImage, file_system_of};
ghost use Rattle.fs_make.specs.MakeFaults.{make_fault};
ghost use Rattle.fs_make.specs.MadeImage.{made_image, made_files};

use crate::fault::MakeFault;
use crate::image::make_image;
use crate::make_faults::make_fault;
use jos_host::NamedBytes;
use std::alloc::{AllocError, Global};

/// The image of a disk of so many blocks with these files in its root directory.
pub fn make(alloc: Global, blocks: u32, files: &[NamedBytes]) -> Result<Vec<u8>, MakeFault>
    requires few { length files.now < 2 ^ 32 }
    // It has exactly the bytes of the definition, or the fault is the first.
    ensures made { IfOk result (λ image. image.items ≡ made_image blocks files.now) }
    ensures fault { IfErr result (λ fault. fault ≢ MakeFault.NoMemory → make_fault blocks files.now ≡ Some fault) }
    ensures no_fault { OnOk result (make_fault blocks files.now ≡ None) }
    // It is a disk, and has the files.
    ensures disk { IfOk result (λ image. IsDiskImage (length image.items) (slice_index image.items)) }
    ensures files { IfOk result (λ image. file_system_of (slice_index image.items) ≡ made_files blocks files.now) }
{
    match make_fault(alloc, blocks, files) {
        Ok(None) => {}
        Ok(Some(fault)) => return Err(fault),
        Err(AllocError) => return Err(MakeFault::NoMemory),
    }
    match make_image(alloc, blocks, files) {
        Ok(image) => Ok(image),
        Err(AllocError) => Err(MakeFault::NoMemory),
    }
}

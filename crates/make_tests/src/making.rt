//! Disks that are made of files.

use case_words::{changed, told_bytes};
use fs_make::{MakeFault, make};
use jos_host::NamedBytes;
use std::alloc::{AllocError, Global};

/// The most files of a case.
const FILES_MAX: usize = 99;

/// A file, by its name and its bytes. A backslash with a 0 behind it stands for a NUL in the name.
fn file_of(alloc: Global, text: &str) -> Result<NamedBytes, AllocError> {
    let (name, bytes) = text.split_once(' ').unwrap_or((text, ""));
    let name = match name.split_once("\\0") {
        Some((before, behind)) => format!(in alloc; "{before}\0{behind}")?,
        None => String::from_str(alloc, name)?,
    };
    let bytes = changed(alloc, &[], bytes)?;
    Ok(NamedBytes { name, bytes })
}

/// What is made of so many blocks and files.
fn image_of(alloc: Global, given: &str) -> Result<Result<Vec<u8>, MakeFault>, AllocError> {
    let mut pieces = given.split(" | ");
    let blocks = pieces.next().unwrap_or("").parse().unwrap_or(0);
    let mut files = Vec::new(alloc);
    for piece in pieces {
        files.push(file_of(alloc, piece)?)?;
    }
    files.truncate(FILES_MAX);
    Ok(make(alloc, blocks, &files))
}

/// The image of so many blocks with files, word by word.
pub(crate) fn made(alloc: Global, given: &str) -> Result<String, AllocError> {
    match image_of(alloc, given)? {
        Ok(image) => told_bytes(alloc, &image),
        Err(fault) => format!(in alloc; "{fault:?}"),
    }
}

/// How many bytes the image has.
pub(crate) fn length(alloc: Global, given: &str) -> Result<String, AllocError> {
    match image_of(alloc, given)? {
        Ok(image) => {
            let len = image.len();
            format!(in alloc; "{len} bytes")
        }
        Err(fault) => format!(in alloc; "{fault:?}"),
    }
}

//! What may be a disk, and what stands on it.

use crate::layout::tell_entry;
use case_words::told_bytes;
use fs_contents::{list, read_file};
use fs_image::{CheckFault, DiskBytes, DiskFault, check, read_disk};
use jos_host::{MemHost, NamedBytes};
use std::alloc::{AllocError, Global};

/// A host with the file `disk`, whose call of this number fails, if one is given.
fn host_of(alloc: Global, bytes: &[u8], fails: Option<u64>) -> Result<MemHost, AllocError> {
    let mut files = Vec::new(alloc);
    files.push(NamedBytes {
        name: String::from_str(alloc, "disk")?,
        bytes: Vec::from_slice(alloc, bytes)?,
    })?;
    let mut failing = Vec::new(alloc);
    if let Some(call) = fails {
        failing.push(call)?;
    }
    Ok(MemHost::new(alloc, files, Vec::new(alloc), failing))
}

/// The file `disk`, as far as it may be one.
fn held(alloc: Global, bytes: &[u8]) -> Result<DiskBytes, DiskFault> {
    match host_of(alloc, bytes, None) {
        Ok(mut host) => read_disk(alloc, "disk", &mut host),
        Err(_) => Err(DiskFault::NoMemory),
    }
}

/// What is told of bytes that may be a disk.
pub(crate) fn checked(alloc: Global, bytes: &[u8]) -> Result<String, AllocError> {
    match held(alloc, bytes) {
        Ok(disk) => match check(alloc, &disk) {
            Ok(info) => {
                let (blocks, free) = (info.blocks, info.free);
                format!(in alloc; "{blocks} blocks, {free} of them free")
            }
            Err(CheckFault::Bad(fault)) => format!(in alloc; "{fault:?}"),
            Err(fault) => format!(in alloc; "{fault:?}"),
        },
        Err(fault) => format!(in alloc; "{fault:?}"),
    }
}

/// What one host answers of files with these names, one after another.
pub(crate) fn reads(alloc: Global, bytes: &[u8], given: &str) -> Result<String, AllocError> {
    let (call, names) = given.split_once(' ').unwrap_or((given, ""));
    let mut host = host_of(alloc, bytes, call.parse().ok())?;
    let mut text = String::new(alloc);
    for name in names.split_whitespace() {
        if !text.is_empty() {
            text.push_str(", ")?;
        }
        match read_disk(alloc, name, &mut host) {
            Ok(disk) => {
                let len = disk.bytes().len();
                write!(text, "{len} bytes")?;
            }
            Err(fault) => write!(text, "{fault:?}")?,
        }
    }
    Ok(text)
}

/// The records of a directory on a disk.
pub(crate) fn listed(alloc: Global, bytes: &[u8], path: &str) -> Result<String, AllocError> {
    let Ok(disk) = held(alloc, bytes) else {
        return String::from_str(alloc, "not read");
    };
    let Ok(_) = check(alloc, &disk) else {
        return String::from_str(alloc, "no disk");
    };
    match list(alloc, disk.bytes(), path.as_bytes()) {
        Ok(entries) => {
            let count = entries.len();
            let mut text = format!(in alloc; "{count} records.")?;
            for entry in &entries {
                text.push_str(" ")?;
                tell_entry(&mut text, entry)?;
                text.push_str(".")?;
            }
            Ok(text)
        }
        Err(fault) => format!(in alloc; "{fault:?}"),
    }
}

/// The bytes of a file on a disk.
pub(crate) fn read(alloc: Global, bytes: &[u8], path: &str) -> Result<String, AllocError> {
    let Ok(disk) = held(alloc, bytes) else {
        return String::from_str(alloc, "not read");
    };
    let Ok(_) = check(alloc, &disk) else {
        return String::from_str(alloc, "no disk");
    };
    match read_file(alloc, disk.bytes(), path.as_bytes()) {
        Ok(file) => told_bytes(alloc, &file),
        Err(fault) => format!(in alloc; "{fault:?}"),
    }
}

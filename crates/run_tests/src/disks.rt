//! A disk of the host: a file in memory, whose bytes tell their places.

ghost use Rattle.std.specs.Prelude.{◌≡◌, ◌<◌, true, Some};
ghost use Rattle.jos_host.specs.MemHost.{files_of};
ghost use Rattle.lib_os.specs.Disk.{HasBlocks};

use fs_layout::BLKSIZE;
use jos_host::{MemHost, NamedBytes};
use jos_run::{HostDisk, Served};
use std::alloc::{AllocError, Global};

/// The name of its file.
const NAME: &str = "disk";

/// The byte that stands at a place at first: the number of its block and one more, and the last digit of the place modulo 8.
fn first_byte(place: usize) -> u8 {
    ((place / BLKSIZE as usize + 1) * 16 % 256 + place % 8) as u8
}

/// A disk of so many blocks.
pub(crate) fn disk_of(alloc: Global, blocks: u32) -> Result<HostDisk, AllocError> {
    let name = String::from_str(alloc, NAME)?;
    Ok(HostDisk { name, blocks })
}

/// A host whose file has so many bytes, and at which a call fails, counted from 1: none where that is 0.
pub(crate) fn host_with_disk(alloc: Global, len: u32, fails: u32) -> Result<MemHost, AllocError> {
    let mut bytes = Vec::new(alloc);
    for place in 0..len as usize {
        bytes.push(first_byte(place))?;
    }
    let name = String::from_str(alloc, NAME)?;
    let mut files = Vec::new(alloc);
    files.push(NamedBytes { name, bytes })?;
    let mut failing = Vec::new(alloc);
    if fails > 0 {
        failing.push(fails as u64 - 1)?;
    }
    Ok(MemHost::new(alloc, files, Vec::new(alloc), failing))
}

/// Whether the host's file has all blocks of the disk.
pub(crate) fn has_blocks(served: &Served, host: &MemHost) -> bool
    ensures { result ≡ true → HasBlocks (Some (files_of host.now.named)) served.now.disk }
{
    match served.disk() {
        Some(disk) => match host.file(disk.name.as_str()) {
            Some(bytes) => BLKSIZE as u64 * disk.blocks as u64 <= bytes.len() as u64,
            None => disk.blocks == 0,
        },
        None => true,
    }
}

/// How many bytes the file has, how many of them are others than at first, and where the first of these stands.
pub(crate) fn tell_file(alloc: Global, host: &MemHost) -> Result<String, AllocError> {
    let Some(bytes) = host.file(NAME) else {
        return String::from_str(alloc, "no file");
    };
    let mut others = 0u32;
    let mut from = None;
    for (place, byte) in bytes.iter().enumerate() {
        if *byte != first_byte(place) {
            others = others.saturating_add(1);
            from = from.or(Some(place));
        }
    }
    let len = bytes.len();
    match from {
        Some(from) => format!(in alloc; "{len:x} bytes, {others:x} others from {from:x} on"),
        None => format!(in alloc; "{len:x} bytes, as at first"),
    }
}

//! A file server with a block cache, over a kernel and a host in memory.

ghost use Rattle.std.specs.Prelude.{◌≡◌, true, Some};
ghost use Rattle.jos_host.specs.MemHost.{files_of};
ghost use Rattle.lib_os.specs.Disk.{HasBlocks};

use fs_cache::{Cached, Flushed, block_step, flush_step};
use fs_layout::BLKSIZE;
use jos_base::{
    EnvId, EnvType, FRAMES_MAX, FRAMES_MIN, PTE_P, PTE_U, PTE_W, SYS_PAGE_ALLOC, Status, UVPT,
};
use jos_host::{Failed, MemHost, NamedBytes};
use jos_run::{HostDisk, Served};
use jos_sys::{Input, System};
use lib_os::{CACHE_BLOCKS, DISKMAP, Stop, UserOs, answer_of};
use std::alloc::{AllocError, Global};
use test_cases::twelve_numbers;

/// The bits of the pages that the server holds.
const HELD_PERM: u32 = PTE_P + PTE_W + PTE_U;

/// Where they lie.
const HELD: u32 = 0x3000_0000;

/// The name of the disk's file.
const NAME: &str = "d";

/// The file server in slot 0, and the host with its disk.
#[derive(Drop)]
pub(crate) struct CacheBench {
    served: Served,
    host: MemHost,
}

/// The bytes of a disk's file: each byte of block n is n.
fn disk_bytes(alloc: Global, length: u32) -> Result<Vec<u8>, AllocError> {
    let mut bytes = Vec::new(alloc);
    for place in 0..length {
        bytes.push((place / BLKSIZE % 256) as u8)?;
    }
    Ok(bytes)
}

/// A host with such a file, whose call of this number fails, unless that is 0.
fn host_with_disk(alloc: Global, length: u32, failing: u32) -> Result<MemHost, AllocError> {
    let mut files = Vec::new(alloc);
    files.push(NamedBytes {
        name: String::from_str(alloc, NAME)?,
        bytes: disk_bytes(alloc, length)?,
    })?;
    let mut fails = Vec::new(alloc);
    if failing != 0 {
        fails.push(failing as u64 - 1)?;
    }
    Ok(MemHost::new(alloc, files, Vec::new(alloc), fails))
}

/// A file server in slot 0 of a machine of so many frames.
fn server(alloc: Global, frames: u32) -> Option<Served> {
    if frames < FRAMES_MIN || FRAMES_MAX < frames {
        return None;
    }
    let Ok(mut system) = System::new(alloc, frames) else {
        return None;
    };
    let Ok(slot) = system.make_environment(EnvId(0)) else {
        return None;
    };
    system.set_env_type(slot, EnvType::FileServer);
    system.set_status(slot, Status::Runnable);
    Some(Served::new(system, Input::new(Vec::new(alloc))))
}

/// The address of a byte of a block's page.
fn place_of(block: u32, at: u32) -> u32 {
    DISKMAP + BLKSIZE * (block % CACHE_BLOCKS) + at % BLKSIZE
}

/// Why nothing came.
fn tell_stop(alloc: Global, stop: Stop) -> Result<String, AllocError> {
    format!(in alloc; "{stop:?}")
}

/// Whether the host's file has all blocks of the disk.
fn has_blocks(served: &Served, host: &MemHost) -> bool
    ensures { result ≡ true → HasBlocks (Some (files_of host.now.named)) served.now.disk }
{
    match served.disk() {
        Some(disk) => match host.file(disk.name.as_str()) {
            Some(bytes) => BLKSIZE as u64 * disk.blocks as u64 <= bytes.len() as u64,
            None => disk.blocks == 0,
        },
        None => true,
    }
}

impl CacheBench {
    /// The server that a line describes.
    pub(crate) fn new(alloc: Global, given: &str) -> Result<Option<CacheBench>, AllocError> {
        let [frames, blocks, length, failing, ..] = twelve_numbers(given);
        let host = host_with_disk(alloc, length, failing)?;
        let name = String::from_str(alloc, NAME)?;
        let Some(served) = server(alloc, frames) else {
            return Ok(None);
        };
        let served = served.with_disk(HostDisk { name, blocks });
        if !has_blocks(&served, &host) {
            return Ok(None);
        }
        Ok(Some(CacheBench { served, host }))
    }

    /// One step towards a block.
    fn want_once(&mut self, block: u32) -> Result<Cached, Failed> {
        self.served.serve(0);
        if !self.served.is_live() || !has_blocks(&self.served, &self.host) {
            return Err(Failed);
        }
        block_step(&mut self.served, &mut self.host, block % CACHE_BLOCKS)
    }

    /// Makes one step towards a block.
    pub(crate) fn once(&mut self, alloc: Global, block: u32) -> Result<String, AllocError> {
        match self.want_once(block) {
            Ok(cached) => format!(in alloc; "{cached:?}"),
            Err(Failed) => String::from_str(alloc, "the host failed"),
        }
    }

    /// Makes so many steps towards a block at most, until there is not more to do.
    pub(crate) fn want(
        &mut self,
        alloc: Global,
        block: u32,
        most: u32,
    ) -> Result<String, AllocError> {
        for calls in 0..most {
            match self.want_once(block) {
                Ok(Cached::Going) => {}
                Ok(Cached::Ready(va)) => return format!(in alloc; "{va:x} in {calls} calls"),
                Ok(Cached::NoPage) => return format!(in alloc; "no page in call {calls}"),
                Err(Failed) => return format!(in alloc; "the host failed in call {calls}"),
            }
        }
        String::from_str(alloc, "no end")
    }

    /// One step of a flush.
    fn flush_once(&mut self) -> Result<Flushed, Failed> {
        self.served.serve(0);
        if !self.served.is_live() || !has_blocks(&self.served, &self.host) {
            return Err(Failed);
        }
        flush_step(&mut self.served, &mut self.host)
    }

    /// Makes so many steps of a flush at most, until no page is dirty.
    pub(crate) fn flush(&mut self, alloc: Global, most: u32) -> Result<String, AllocError> {
        for calls in 0..most {
            match self.flush_once() {
                Ok(Flushed::Going) => {}
                Ok(Flushed::Clean) => return format!(in alloc; "clean in call {calls}"),
                Err(Failed) => return format!(in alloc; "the host failed in call {calls}"),
            }
        }
        String::from_str(alloc, "no end")
    }

    /// The byte of a block's page.
    pub(crate) fn byte(
        &mut self,
        alloc: Global,
        block: u32,
        at: u32,
    ) -> Result<String, AllocError> {
        self.served.serve(0);
        if !self.served.is_live() {
            return String::from_str(alloc, "gone");
        }
        match self.served.load_byte(&mut self.host, place_of(block, at)) {
            Ok(byte) => format!(in alloc; "{byte:x}"),
            Err(stop) => tell_stop(alloc, stop),
        }
    }

    /// Puts a byte into a block's page.
    pub(crate) fn put(
        &mut self,
        alloc: Global,
        block: u32,
        at: u32,
        byte: u32,
    ) -> Result<String, AllocError> {
        self.served.serve(0);
        if !self.served.is_live() {
            return String::from_str(alloc, "gone");
        }
        match self
            .served
            .store_byte(&mut self.host, place_of(block, at), (byte % 256) as u8)
        {
            Ok(()) => String::from_str(alloc, "done"),
            Err(stop) => tell_stop(alloc, stop),
        }
    }

    /// The twelve low bits of the entry of a block's page.
    pub(crate) fn bits(&mut self, alloc: Global, block: u32) -> Result<String, AllocError> {
        self.served.serve(0);
        if !self.served.is_live() {
            return String::from_str(alloc, "gone");
        }
        let entry = UVPT + 4 * (place_of(block, 0) / BLKSIZE);
        match self.served.load(&mut self.host, entry) {
            Ok(word) => format!(in alloc; "{:x}", word % BLKSIZE),
            Err(stop) => tell_stop(alloc, stop),
        }
    }

    /// Takes so many pages for the server, and tells how many there were.
    pub(crate) fn hold(&mut self, alloc: Global, pages: u32) -> Result<String, AllocError> {
        for page in 0..pages % CACHE_BLOCKS {
            self.served.serve(0);
            if !self.served.is_live() {
                return String::from_str(alloc, "gone");
            }
            let args = [0, HELD + BLKSIZE * page, HELD_PERM, 0, 0];
            match self.served.system(&mut self.host, SYS_PAGE_ALLOC, args) {
                Ok(called) => {
                    if answer_of(called) != 0 {
                        return format!(in alloc; "{page:x}");
                    }
                }
                Err(Failed) => return String::from_str(alloc, "the host failed"),
            }
        }
        format!(in alloc; "{pages:x}")
    }

    /// The byte at a place of the host's file.
    pub(crate) fn file(&self, alloc: Global, place: u32) -> Result<String, AllocError> {
        let bytes = self.host.file(NAME).unwrap_or(&[]);
        match bytes.get(place as usize) {
            Some(byte) => format!(in alloc; "{byte:x}"),
            None => String::from_str(alloc, "no byte"),
        }
    }
}

//! The machine: how it begins, and what is done for the environment of a slot.

ghost use Rattle.std.specs.Prelude.{◌%◌, ◌≡◌, true, Some};
ghost use Rattle.jos_host.specs.MemHost.{files_of};
ghost use Rattle.lib_os.specs.Disk.{HasBlocks};

use fs_layout::BLKSIZE;
use jos_base::{
    ENV_SIZE, EnvId, EnvType, FRAMES_MAX, FRAMES_MIN, NENV, PGSIZE, PTE_P, PTE_U, PTE_W, Perm,
    Status, UENVS, UTOP, UVPT,
};
use jos_host::{Failed, MemHost, NamedBytes};
use jos_run::{HostDisk, Served};
use jos_sys::{Input, System};
use lib_os::{UVPD, UserOs, answer_of};
use std::alloc::{AllocError, Global};
use test_cases::twelve_numbers;

/// The bits of a page of one's own.
pub const OWN_PERM: u32 = PTE_P + PTE_W + PTE_U;

/// The name of the disk's file.
pub(crate) const NAME: &str = "d";

/// The most blocks of a disk.
const BLOCKS_MAX: u32 = 16_384;

/// The bytes of a region, which has one table.
const TABLE_BYTES: u32 = 0x40_0000;

/// Why nothing was answered.
#[derive(Clone, Copy, Debug)]
pub enum Unanswered {
    /// The environment is not there, or has no such memory.
    Gone,
    /// The host failed.
    HostFailed,
    /// So many steps were made that no more are.
    NoEnd,
}

/// The kernel with its environments, and the host with the disk.
#[derive(Drop)]
pub struct ServerMachine {
    pub served: Served,
    pub host: MemHost,
}

/// A host with a file of zeros, whose call of this number fails, unless that is 0.
fn host_with_disk(alloc: Global, length: u32, failing: u32) -> Result<MemHost, AllocError> {
    let mut bytes = Vec::new(alloc);
    for _ in 0..length {
        bytes.push(0)?;
    }
    let mut files = Vec::new(alloc);
    files.push(NamedBytes {
        name: String::from_str(alloc, NAME)?,
        bytes,
    })?;
    let mut fails = Vec::new(alloc);
    if failing != 0 {
        fails.push(failing as u64 - 1)?;
    }
    Ok(MemHost::new(alloc, files, Vec::new(alloc), fails))
}

/// A file server in slot 0 of a machine of so many frames, with this page.
fn server(alloc: Global, frames: u32, page: u32) -> Option<Served> {
    if frames < FRAMES_MIN || FRAMES_MAX < frames || page >= UTOP || page % PGSIZE != 0 {
        return None;
    }
    let Ok(mut system) = System::new(alloc, frames) else {
        return None;
    };
    let Ok(slot) = system.make_environment(EnvId(0)) else {
        return None;
    };
    system.set_env_type(slot, EnvType::FileServer);
    system.set_status(slot, Status::Runnable);
    system.allocate(slot, page, Perm(OWN_PERM))?;
    Some(Served::new(system, Input::new(Vec::new(alloc))))
}

/// Whether the host's file has all blocks of the disk.
pub fn has_blocks(served: &Served, host: &MemHost) -> bool
    ensures { result ≡ true → HasBlocks (Some (files_of host.now.named)) served.now.disk }
{
    match served.disk() {
        Some(disk) => match host.file(disk.name.as_str()) {
            Some(bytes) => BLKSIZE as u64 * disk.blocks as u64 <= bytes.len() as u64,
            None => disk.blocks == 0,
        },
        None => true,
    }
}

/// The multiple of four at an address or before it.
fn aligned(va: u32) -> u32
    ensures { result % 4 ≡ 0 }
{
    va - va % 4
}

impl ServerMachine {
    /// The machine that a line describes, by its frames, the blocks of its disk and the number of the host's call that fails. The
    /// server has this page.
    pub fn new(alloc: Global, given: &str, page: u32) -> Result<Option<ServerMachine>, AllocError> {
        let [frames, blocks, failing, ..] = twelve_numbers(given);
        if blocks > BLOCKS_MAX {
            return Ok(None);
        }
        let host = host_with_disk(alloc, BLKSIZE * blocks, failing)?;
        let name = String::from_str(alloc, NAME)?;
        let Some(served) = server(alloc, frames, page) else {
            return Ok(None);
        };
        let served = served.with_disk(HostDisk { name, blocks });
        Ok(Some(ServerMachine { served, host }))
    }

    /// What a system call answers that the environment of a slot makes.
    pub fn system(&mut self, slot: u32, number: u32, args: [u32; 5]) -> Result<u32, Unanswered> {
        self.served.serve((slot % NENV) as usize);
        if !self.served.is_live() {
            return Err(Unanswered::Gone);
        }
        match self.served.system(&mut self.host, number, args) {
            Ok(called) => Ok(answer_of(called)),
            Err(Failed) => Err(Unanswered::HostFailed),
        }
    }

    /// The word at an address, or before it, at a multiple of four.
    pub fn load(&mut self, slot: u32, va: u32) -> Result<u32, Unanswered> {
        self.served.serve((slot % NENV) as usize);
        if !self.served.is_live() {
            return Err(Unanswered::Gone);
        }
        match self.served.load(&mut self.host, aligned(va)) {
            Ok(word) => Ok(word),
            Err(_) => Err(Unanswered::Gone),
        }
    }

    /// A word of the record of a slot, as the server reads it.
    pub fn record(&mut self, slot: u32, word: u32) -> Result<u32, Unanswered> {
        self.load(0, UENVS + ENV_SIZE * (slot % NENV) + 4 * (word % 16))
    }

    /// Whether the environment of a slot has a page at an address.
    pub fn has_page(&mut self, slot: u32, va: u32) -> Result<bool, Unanswered> {
        if self.load(slot, UVPD + 4 * (va / TABLE_BYTES))? % 2 != PTE_P {
            return Ok(false);
        }
        let entry = self.load(slot, UVPT + 4 * (va / PGSIZE))?;
        Ok(entry % 2 == PTE_P)
    }

    /// Puts bytes into a page, from an offset on, and behind its end at its beginning.
    pub fn put(&mut self, slot: u32, page: u32, from: u32, bytes: &[u8]) -> Result<(), Unanswered> {
        let mut at = from;
        for byte in bytes {
            self.served.serve((slot % NENV) as usize);
            if !self.served.is_live() {
                return Err(Unanswered::Gone);
            }
            let va = page.wrapping_add(at % PGSIZE);
            if self.served.store_byte(&mut self.host, va, *byte).is_err() {
                return Err(Unanswered::Gone);
            }
            at = at.wrapping_add(1);
        }
        Ok(())
    }

    /// The first bytes of a page, as far as they can be read.
    pub fn bytes(
        &mut self,
        alloc: Global,
        slot: u32,
        page: u32,
        count: u32,
    ) -> Result<Vec<u8>, AllocError> {
        let mut bytes = Vec::new(alloc);
        for at in 0..count % (PGSIZE + 1) {
            self.served.serve((slot % NENV) as usize);
            if self.served.is_live() {
                if let Ok(byte) = self.served.load_byte(&mut self.host, page.wrapping_add(at)) {
                    bytes.push(byte)?;
                }
            }
        }
        Ok(bytes)
    }
}

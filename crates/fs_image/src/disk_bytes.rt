//! A host's file, as far as it may be a disk.

ghost use Rattle.std.specs.Prelude.{◌≡◌, ◌≢◌, ◌+◌, ◌*◌, ◌≤◌, length, IfOk, IfErr, OnOk, MatchResult, Option, List, ℕ};
ghost use Rattle.jos_host.specs.Frames.{Unchanged, around};
ghost use Rattle.fs_image.specs.DiskHeld.{IsUnder, IsHeld, IsDiskFault, HasDiskCause, IsReadInPieces, blocks_held, held_of};
ghost use Rattle.fs_image.specs.Pieces.{IsReading, Comes, ReachesTo, Grows, HasSize};

use crate::blocks::block_count;
use crate::disk::MemoryDisk;
use fs_layout::{BLKSIZE, MAXBLOCKS};
use jos_host::Host;
use std::alloc::Global;
use std::marker::Model;

/// What is looked at of a host's file that may be a disk: the bytes of the blocks that it counts, and of no more than a disk
/// may have. What stands behind them is not read.
#[derive(Debug, Drop)]
pub struct DiskBytes {
    /// How many bytes the file has.
    total: u64,
    bytes: Vec<u8>,
}

impl Model for DiskBytes {
    ghost use Rattle.fs_image.specs.DiskHeld.{HeldDisk, IsLongEnough};

    ghost Value = { HeldDisk };

    ghost view = { λ d. record { total = d.total; bytes = d.bytes.items } };

    ghost invariant = { λ d. IsLongEnough d.total d.bytes.items };
}

impl DiskBytes {
    ghost use Rattle.fs_image.specs.DiskHeld.{IsLongEnough};

    /// How many bytes the file has.
    pub(crate) fn total(&self) -> u64
        ensures total { result ≡ self.now.total }
        ensures long_enough { IsLongEnough self.now.total self.now.bytes }
    {
        let _ = &self.bytes;
        self.total
    }

    /// The bytes that are looked at.
    pub fn bytes(&self) -> &[u8]
        ensures { result.now ≡ self.now.bytes }
    {
        &self.bytes
    }
}

/// Why a file is not read.
#[derive(Clone, Copy, Debug, PartialEq, Eq)]
pub enum DiskFault {
    /// No file has the name.
    Absent,
    /// A call of the host failed.
    Host,
    /// There was no memory for the bytes.
    NoMemory,
}

/// The boot block and the super block, by which the number of blocks is known.
const FIRST_BLOCKS: u32 = 2;

/// How many bytes one call asks for at most, those of 16 blocks.
const PIECE: usize = 16 * BLKSIZE as usize;

/// How many blocks are looked at, by the bytes of the first two.
fn blocks_held(first: &[u8]) -> u32
    ensures { result ≡ blocks_held first.now }
{
    block_count(&MemoryDisk::new(first))
        .min(MAXBLOCKS)
        .max(FIRST_BLOCKS)
}

/// Reads on where the bytes end, so many more, and says how many came: fewer only at the end of the file.
fn read_piece<H: Host>(
    alloc: Global,
    name: &str,
    count: usize,
    bytes: &mut Vec<u8>,
    host: &mut H,
) -> Result<usize, DiskFault>
    ensures told { IfOk result (λ came. Comes (H.files host.old) name.now count bytes.old.items came bytes.new.items) }
    ensures grows { IfOk result (λ came. Grows (length bytes.old.items + came) bytes.old.items bytes.new.items) }
    ensures len { IfOk result (λ came. length bytes.new.items ≡ length bytes.old.items + came) }
    ensures within { IfOk result (λ came. came ≤ count) }
    ensures there { IfErr result (λ fault. fault ≢ DiskFault.Absent) }
    ensures rest { Unchanged H.files H.input H.console H.notes host.old host.new }
    ensures asked { IsReading name.now (around H.asked host.old host.new) }
    ensures cause { HasDiskCause (around H.faults host.old host.new) result }
{
    let mut piece = match vec![in alloc; 0; count] {
        Ok(piece) => piece,
        Err(_) => return Err(DiskFault::NoMemory),
    };
    let came = match host.read_at(name, bytes.len() as u64, &mut piece) {
        Ok(came) => came,
        Err(_) => return Err(DiskFault::Host),
    };
    match bytes.extend_from_slice(&piece[..came]) {
        Ok(()) => Ok(came),
        Err(_) => Err(DiskFault::NoMemory),
    }
}

/// Reads on in pieces up to a place, or to the end of the file where that comes before it.
fn read_to<H: Host>(
    alloc: Global,
    name: &str,
    end: usize,
    bytes: &mut Vec<u8>,
    host: &mut H,
) -> Result<(), DiskFault>
    requires { length bytes.old.items ≤ end }
    ensures told { OnOk result (ReachesTo (H.files host.old) name.now end bytes.old.items bytes.new.items) }
    ensures grows { OnOk result (Grows end bytes.old.items bytes.new.items) }
    ensures there { IfErr result (λ fault. fault ≢ DiskFault.Absent) }
    ensures rest { Unchanged H.files H.input H.console H.notes host.old host.new }
    ensures asked { IsReading name.now (around H.asked host.old host.new) }
    ensures cause { HasDiskCause (around H.faults host.old host.new) result }
{
    while bytes.len() < end {
        let count = PIECE.min(end - bytes.len());
        match read_piece(alloc, name, count, bytes, host) {
            Ok(came) => {
                if came < count {
                    return Ok(());
                }
            }
            Err(fault) => return Err(fault),
        }
    }
    Ok(())
}

/// A file that ended with these bytes.
fn whole_file(bytes: Vec<u8>) -> DiskBytes
    requires { length bytes.items ≤ BLKSIZE * blocks_held bytes.items }
    ensures { result ≡ held_of bytes.items }
{
    let total = bytes.len() as u64;
    DiskBytes { total, bytes }
}

/// Reads a file of this size as far as it may be a disk.
fn read_held<H: Host>(
    alloc: Global,
    name: &str,
    size: u64,
    host: &mut H,
) -> Result<DiskBytes, DiskFault>
    requires { HasSize (H.files host.old) name.now size }
    ensures told { (file : Option (List ℕ)) × IsUnder (H.files host.old) name.now file
        × MatchResult result (IsHeld file) (IsDiskFault file) }
    ensures rest { Unchanged H.files H.input H.console H.notes host.old host.new }
    ensures asked { IsReading name.now (around H.asked host.old host.new) }
    ensures cause { HasDiskCause (around H.faults host.old host.new) result }
{
    let first = size.min(FIRST_BLOCKS as u64 * BLKSIZE as u64) as usize;
    let mut bytes = Vec::new(alloc);
    if let Err(fault) = read_to(alloc, name, first, &mut bytes, host) {
        return Err(fault);
    }
    if bytes.len() < first {
        return Ok(whole_file(bytes));
    }
    let end = size.min(BLKSIZE as u64 * blocks_held(&bytes) as u64) as usize;
    if let Err(_) = bytes.reserve_exact(end - bytes.len()) {
        return Err(DiskFault::NoMemory);
    }
    if let Err(fault) = read_to(alloc, name, end, &mut bytes, host) {
        return Err(fault);
    }
    if bytes.len() < end {
        return Ok(whole_file(bytes));
    }
    Ok(DiskBytes { total: size, bytes })
}

/// Reads a host's file as far as it may be a disk, each byte once, in pieces.
pub fn read_disk<H: Host>(alloc: Global, name: &str, host: &mut H) -> Result<DiskBytes, DiskFault>
    // It is what stands under the name, where the host tells its files, and else something.
    ensures told { (file : Option (List ℕ)) × IsUnder (H.files host.old) name.now file
        × MatchResult result (IsHeld file) (IsDiskFault file) }
    ensures rest { Unchanged H.files H.input H.console H.notes host.old host.new }
    ensures asked { IsReadInPieces name.now (around H.asked host.old host.new) }
    ensures cause { HasDiskCause (around H.faults host.old host.new) result }
{
    match host.size(name) {
        Ok(Some(size)) => read_held(alloc, name, size, host),
        Ok(None) => Err(DiskFault::Absent),
        Err(_) => Err(DiskFault::Host),
    }
}

//! The walk over the directories that stand in one another. It keeps its own way down, so that it takes no more of the
//! machine's stack however deep they stand.

ghost use Rattle.std.specs.Prelude.{◌≡◌, ◌+◌, ◌<◌, ◌≤◌, ◌^◌, [], ◌∷◌, ◌++◌, Ok, IfOk, OnOk, length, slice_index};
ghost use Rattle.fs_layout.specs.DiskImage as image;
ghost use Rattle.fs_image.specs.Answers.{blocks_in};
ghost use Rattle.fs_image.specs.Walk.{rest_of_way, Tells, IsFrame, AreFrames, steps_left};

use crate::checking::CheckFault;
use crate::disk::MemoryDisk;
use crate::names::{first_taken, slot_place};
use crate::records::{kind_at, size_of};
use crate::slots::own_test;
use fs_layout::{FTYPE_DIR, RECORDSIZE};
use std::alloc::{AllocError, Global};

/// A directory on the way down.
#[derive(Clone, Copy)]
struct WalkFrame {
    /// The place of its own record.
    directory: u64,
    /// How many records it holds.
    count: u32,
    /// The first of them whose name is taken, or their number.
    taken: u32,
    /// The record that is tested next.
    next: u32,
}

/// A directory of which no record was tested.
fn enter(alloc: Global, disk: &MemoryDisk, directory: u64) -> Result<WalkFrame, AllocError>
    requires { directory < 2 ^ 50 }
    ensures frame { IfOk result (IsFrame (slice_index disk.now.bytes.now)) }
    ensures directory { IfOk result (λ frame. frame.directory ≡ directory) }
    ensures count { IfOk result (λ frame. frame.count ≡ image.slot_count (slice_index disk.now.bytes.now) directory) }
    ensures few { IfOk result (λ frame. frame.count < 2 ^ 32) }
    ensures next { IfOk result (λ frame. frame.next ≡ 0) }
{
    let count = size_of(disk, directory) / RECORDSIZE;
    let taken = first_taken(alloc, disk, directory, count)?;
    Ok(WalkFrame {
        directory,
        count,
        taken,
        next: 0,
    })
}

/// Tests the next record of the last directory on the way, and goes on in it or into the directory that the record is. Where
/// all its records were tested it is left.
fn step(
    alloc: Global,
    disk: &MemoryDisk,
    named: &mut [bool],
    depth: u32,
    frame: WalkFrame,
    way: &mut Vec<WalkFrame>,
) -> Result<(), CheckFault>
    requires room { image.block_count (slice_index disk.now.bytes.now) ≤ length named.old }
    requires deep { length way.old.items < depth }
    requires frame { IsFrame (slice_index disk.now.bytes.now) frame }
    requires frames { AreFrames (slice_index disk.now.bytes.now) way.old.items }
    ensures exact { Tells result
        (rest_of_way (slice_index disk.now.bytes.now) depth (way.old.items ++ frame ∷ []) (blocks_in named.old))
        (rest_of_way (slice_index disk.now.bytes.now) depth way.new.items (blocks_in named.new)) }
    ensures deep { OnOk result (length way.new.items ≤ depth) }
    ensures frames { OnOk result (AreFrames (slice_index disk.now.bytes.now) way.new.items) }
    ensures fewer { OnOk result (steps_left depth way.new.items < steps_left depth (way.old.items ++ frame ∷ [])) }
{
    if frame.next == frame.count {
        return Ok(());
    }
    if let Err(_) = way.push(WalkFrame {
        next: frame.next + 1,
        ..frame
    }) {
        return Err(CheckFault::NoMemory);
    }
    let place = slot_place(disk, frame.directory, frame.next);
    if disk.byte(place) == 0 {
        return Ok(());
    }
    let is_taken = frame.next == frame.taken;
    if let Some(fault) = own_test(disk, named, frame.directory, frame.next, is_taken) {
        return Err(CheckFault::Bad(fault));
    }
    if kind_at(disk, place) != FTYPE_DIR {
        return Ok(());
    }
    if way.len() == depth as usize {
        return Ok(());
    }
    let below = match enter(alloc, disk, place) {
        Ok(below) => below,
        Err(_) => return Err(CheckFault::NoMemory),
    };
    match way.push(below) {
        Ok(()) => Ok(()),
        Err(_) => Err(CheckFault::NoMemory),
    }
}

/// The records of a directory, each with all that stands below it before the next.
pub(crate) fn contents_test(
    alloc: Global,
    disk: &MemoryDisk,
    named: &mut [bool],
    depth: u32,
    directory: u64,
) -> Result<(), CheckFault>
    requires room { image.block_count (slice_index disk.now.bytes.now) ≤ length named.old }
    requires directory { directory < 2 ^ 50 }
    ensures { Tells result (image.contents_test depth (slice_index disk.now.bytes.now) directory (blocks_in named.old)) (Ok (blocks_in named.new)) }
{
    if depth == 0 {
        return Ok(());
    }
    let first = match enter(alloc, disk, directory) {
        Ok(first) => first,
        Err(_) => return Err(CheckFault::NoMemory),
    };
    let mut way = Vec::new(alloc);
    if let Err(_) = way.push(first) {
        return Err(CheckFault::NoMemory);
    }
    while let Some(frame) = way.pop() {
        if let Err(fault) = step(alloc, disk, named, depth, frame, &mut way) {
            return Err(fault);
        }
    }
    Ok(())
}

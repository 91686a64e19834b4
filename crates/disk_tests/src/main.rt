//! What fs_layout, fs_image and fs_contents answer of disks, a case a line.
//!
//! Each line of `stdin` is a case, and the line of `stdout` with the same number has what is wanted for it, worked out by
//! hand from `docs/disk.md`. A comment and an empty line are repeated.
//!
//! | Case | What is told |
//! |---|---|
//! | `record WORD..` | the record with these bytes, and the bytes of it as it is written |
//! | `super WORD..` | the same of a super block |
//! | `parts PATH` | where the names stand in a path |
//! | `image-fault N` | the N-th fault of a list of them, and its text as `{}` has it and as `text` |
//! | `disk LEN WORD..` | what `check` tells of these bytes, to which the next cases go |
//! | `check LEN WORD..` | what it tells of them with other words, in so many bytes |
//! | `reads CALL NAME..` | what a host answers of its files, whose call of this number fails: the disk is its file `disk` |
//! | `list PATH`, `read PATH` | what `list` and `read_file` give |
//!
//! Bytes are told by the words in them that are not 0, in hexadecimal digits behind their places (`case_words`).
#![tactic(auto)]

mod disks;
mod layout;

use crate::disks::{checked, listed, read, reads};
use crate::layout::{names_in, record, super_block};
use case_words::changed;
use fs_image::ImageFault;
use std::alloc::{AllocError, Global};
use test_cases::tell_lines;

/// A fault of each kind, with the greatest numbers too.
static IMAGE_FAULTS: [ImageFault; 14] = [
    ImageFault::TooShort,
    ImageFault::Magic,
    ImageFault::BlockCount,
    ImageFault::RootKind,
    ImageFault::Kind(12_288),
    ImageFault::BadName(12_288),
    ImageFault::DirSize(4104),
    ImageFault::TooLong(12_544),
    ImageFault::Hole(0),
    ImageFault::Range(u32::MAX),
    ImageFault::NamedTwice(3),
    ImageFault::MarkedFree(2),
    ImageFault::Stray(12_288),
    ImageFault::SameName(u64::MAX),
];

/// The text of a fault of a disk.
fn image_fault(alloc: Global, place: &str) -> Result<String, AllocError> {
    match IMAGE_FAULTS.get(place.parse::<usize>().unwrap_or(usize::MAX)) {
        Some(fault) => {
            let text = fault.text();
            let text = text.as_str();
            format!(in alloc; "{fault:?}: {fault}; {text}")
        }
        None => String::from_str(alloc, "no fault"),
    }
}

/// What is told for a line, by the disk of the lines before it.
fn answer(alloc: Global, disk: &mut Vec<u8>, line: &str) -> Result<String, AllocError> {
    let (case, given) = line.split_once(' ').unwrap_or((line, ""));
    match case {
        "record" => record(alloc, given),
        "super" => super_block(alloc, given),
        "parts" => names_in(alloc, given),
        "image-fault" => image_fault(alloc, given),
        "disk" => {
            *disk = changed(alloc, &[], given)?;
            checked(alloc, disk)
        }
        "check" => checked(alloc, &changed(alloc, disk, given)?),
        "reads" => reads(alloc, disk, given),
        "list" => listed(alloc, disk, given),
        "read" => read(alloc, disk, given),
        _ => String::from_str(alloc, "no case"),
    }
}

fn main(rt: HostRuntime) -> anyhow::Result<()> {
    let mut disk = Vec::new(rt.alloc());
    tell_lines(
        &rt,
        rt.alloc(),
        |line| Ok(answer(rt.alloc(), &mut disk, line)?),
    )
}

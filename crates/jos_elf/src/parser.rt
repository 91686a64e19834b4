//! A file to an image.

ghost use Rattle.std.specs.Prelude.{◌≡◌, ◌+◌, ◌*◌, ◌^◌, ◌<◌, ◌≤◌, length, slice_index, All, AllPairs, IfNone, IfOk};
ghost use Rattle.jos_elf.specs.declared.image.Segment.{Segment};
ghost use Rattle.jos_elf.specs.Headers.{table_of, entry_count_of, header_of};
ghost use Rattle.jos_elf.specs.Tests.{first_failed, has_magic, header_tests, overlap_tests, segment_tests};
ghost use Rattle.jos_elf.specs.Parsed.{parsed, Lies, Apart};

use crate::fault::ElfFault;
use crate::header::{half_at, header_of, word_at};
use crate::image::{Image, Segment};
use crate::numbers::{
    E_ENTRY, E_MACHINE, E_PHENTSIZE, E_PHNUM, E_PHOFF, E_TYPE, EHDR_LEN, EI_CLASS, EI_DATA,
    ELFCLASS32, ELFDATA2LSB, EM_386, ET_EXEC, PF_W, PHDR_LEN,
};
use arrayvec::ArrayVec;
use jos_base::SEGMENT_MAX;

fn has_magic(file: &[u8]) -> bool
    requires { EHDR_LEN ≤ length file.now }
    ensures { result ≡ has_magic (slice_index file.now) }
{
    file[0] == 0x7f && file[1] == b'E' && file[2] == b'L' && file[3] == b'F'
}

/// What is wrong with the ELF header: the fault of the first test that fails.
#[tactic(auto, unfolding(crate::specs::Tests::header_tests))]
fn first_failed_header_test(file: &[u8]) -> Option<ElfFault>
    requires { length file.now < 2 ^ 32 }
    ensures exact { result ≡ first_failed (header_tests (length file.now) (slice_index file.now)) }
    ensures sized { IfNone result (EHDR_LEN ≤ length file.now) }
    ensures count { IfNone result (entry_count_of (slice_index file.now) ≤ SEGMENT_MAX) }
    ensures table { IfNone result (table_of (slice_index file.now)
        + PHDR_LEN * entry_count_of (slice_index file.now) ≤ length file.now) }
{
    let total = file.len() as u32;
    if file.len() < EHDR_LEN {
        return Some(ElfFault::Truncated(total));
    }
    if !has_magic(file) {
        return Some(ElfFault::Magic);
    }
    if !(file[EI_CLASS] == ELFCLASS32 && file[EI_DATA] == ELFDATA2LSB) {
        return Some(ElfFault::Class);
    }
    if half_at(file, E_TYPE) != ET_EXEC {
        return Some(ElfFault::Kind);
    }
    if half_at(file, E_MACHINE) != EM_386 {
        return Some(ElfFault::Machine);
    }
    if half_at(file, E_PHENTSIZE) as usize != PHDR_LEN {
        return Some(ElfFault::EntrySize);
    }
    let count = half_at(file, E_PHNUM);
    if count > SEGMENT_MAX {
        return Some(ElfFault::TooMany);
    }
    if word_at(file, E_PHOFF) as u64 + PHDR_LEN as u64 * count as u64 > total as u64 {
        return Some(ElfFault::Truncated(total));
    }
    None
}

/// The first segment in the table with which the segment at this place shares a byte.
fn first_failed_overlap_test(file: &[u8], place: u32) -> Option<ElfFault>
    requires sized { EHDR_LEN ≤ length file.now }
    requires table { table_of (slice_index file.now) + PHDR_LEN * entry_count_of (slice_index file.now)
        ≤ length file.now }
    requires within { place < entry_count_of (slice_index file.now) }
    ensures { result ≡ first_failed (overlap_tests (header_of (slice_index file.now)) place place) }
{
    let header = header_of(file, place);
    for earlier in 0..place {
        if !header_of(file, earlier).leaves_free(&header) {
            return Some(ElfFault::Overlap(place, earlier));
        }
    }
    None
}

/// What is wrong with the segment at this place.
#[tactic(auto, unfolding(crate::specs::Tests::segment_tests))]
fn first_failed_segment_test(file: &[u8], place: u32) -> Option<ElfFault>
    requires small { length file.now < 2 ^ 32 }
    requires sized { EHDR_LEN ≤ length file.now }
    requires table { table_of (slice_index file.now) + PHDR_LEN * entry_count_of (slice_index file.now)
        ≤ length file.now }
    requires within { place < entry_count_of (slice_index file.now) }
    ensures { result ≡ first_failed (segment_tests (length file.now) (header_of (slice_index file.now)) place) }
{
    let header = header_of(file, place);
    if header.file_at as u64 + header.file_len as u64 > file.len() as u64 {
        return Some(ElfFault::Truncated(file.len() as u32));
    }
    if !header.is_placed() {
        return Some(ElfFault::SegmentRange(place));
    }
    first_failed_overlap_test(file, place)
}

/// Reads a file: where the program starts and what stands where in memory. It takes no memory.
///
/// A file must have fewer than 2^32 bytes, since a fault may tell its length.
pub fn parse(bytes: &[u8]) -> Result<Image, ElfFault>
    requires { length bytes.now < 2 ^ 32 }
    ensures exact { result ≡ parsed bytes.now }
    ensures few { IfOk result (λ image. length image.segments ≤ SEGMENT_MAX) }
    ensures lie { IfOk result (λ image. All (Lies (length bytes.now)) image.segments) }
    ensures apart { IfOk result (λ image. AllPairs Apart image.segments) }
{
    if let Some(fault) = first_failed_header_test(bytes) {
        return Err(fault);
    }
    let mut segments = ArrayVec::new();
    for place in 0..half_at(bytes, E_PHNUM) as u32 {
        let header = header_of(bytes, place);
        if !header.is_loaded() {
            continue;
        }
        if let Some(fault) = first_failed_segment_test(bytes, place) {
            return Err(fault);
        }
        segments.push(Segment {
            va: header.va,
            mem_len: header.mem_len,
            file_at: header.file_at,
            file_len: header.file_len,
            writable: header.flags & PF_W != 0,
        });
    }
    Ok(Image {
        entry: word_at(bytes, E_ENTRY),
        segments,
    })
}

//! The headers' fields.

ghost use Rattle.std.specs.Prelude.{◌≡◌, ◌+◌, ◌*◌, ◌<◌, ◌≤◌, length, slice_index};
ghost use Rattle.jos_base.specs.Words.{word_at};
ghost use Rattle.jos_elf.specs.Headers.{half_at, program_header_at, header_of, table_of, entry_count_of};

use crate::numbers::{
    E_PHOFF, EHDR_LEN, P_FILESZ, P_FLAGS, P_MEMSZ, P_OFFSET, P_TYPE, P_VADDR, PHDR_LEN, PT_LOAD,
};
use jos_base::{FDTABLE, USTABDATA, UTEMP, UTEXT};

/// What a program header says. (System V ABI, edition 4.1, chapter 5)
#[derive(Clone, Copy)]
pub struct ProgramHeader {
    /// p_type: what it says of.
    pub kind: u32,
    /// p_offset: the place of the segment's bytes in the file.
    pub file_at: u32,
    /// p_vaddr: the segment's first address.
    pub va: u32,
    /// p_filesz: how many bytes of the file it has.
    pub file_len: u32,
    /// p_memsz: how many bytes of memory it has.
    pub mem_len: u32,
    /// p_flags: what may be done with its memory.
    pub flags: u32,
}

/// The number in the two bytes at a place.
pub(crate) fn half_at(file: &[u8], at: usize) -> u16
    requires { at + 2 ≤ length file.now }
    ensures { result ≡ half_at (slice_index file.now) at }
{
    u16::from_le_bytes([file[at], file[at + 1]])
}

/// The number in the four bytes at a place.
pub(crate) fn word_at(file: &[u8], at: usize) -> u32
    requires { at + 4 ≤ length file.now }
    ensures { result ≡ word_at (slice_index file.now) at }
{
    u32::from_le_bytes([file[at], file[at + 1], file[at + 2], file[at + 3]])
}

/// The program header at a place of the file.
#[tactic(auto, unfolding(crate::specs::Headers::program_header_at))]
fn program_header_at(file: &[u8], at: usize) -> ProgramHeader
    requires { at + PHDR_LEN ≤ length file.now }
    ensures { result ≡ program_header_at (slice_index file.now) at }
{
    ProgramHeader {
        kind: word_at(file, at + P_TYPE),
        file_at: word_at(file, at + P_OFFSET),
        va: word_at(file, at + P_VADDR),
        file_len: word_at(file, at + P_FILESZ),
        mem_len: word_at(file, at + P_MEMSZ),
        flags: word_at(file, at + P_FLAGS),
    }
}

/// The program header at a place of the table, counted from 0.
pub(crate) fn header_of(file: &[u8], place: u32) -> ProgramHeader
    requires sized { EHDR_LEN ≤ length file.now }
    requires table { table_of (slice_index file.now) + PHDR_LEN * entry_count_of (slice_index file.now)
        ≤ length file.now }
    requires within { place < entry_count_of (slice_index file.now) }
    ensures { result ≡ header_of (slice_index file.now) place }
{
    program_header_at(
        file,
        word_at(file, E_PHOFF) as usize + PHDR_LEN * place as usize,
    )
}

impl ProgramHeader {
    ghost use Rattle.jos_elf.specs.Tests.{is_loaded, is_placed, leaves_free};

    /// Whether it says of a segment.
    #[tactic(auto, unfolding(crate::specs::Tests::is_loaded))]
    pub(crate) fn is_loaded(&self) -> bool
        ensures { result ≡ is_loaded self.now }
    {
        self.kind == PT_LOAD && self.mem_len > 0
    }

    /// The first address behind its memory.
    fn end(&self) -> u64
        ensures { result ≡ self.now.va + self.now.mem_len }
    {
        self.va as u64 + self.mem_len as u64
    }

    /// Whether its memory has room for its bytes and lies where that of a program may.
    #[tactic(auto, unfolding(crate::specs::Tests::is_placed))]
    pub(crate) fn is_placed(&self) -> bool
        ensures { result ≡ is_placed self.now }
    {
        self.file_len <= self.mem_len
            && (self.va >= USTABDATA && self.end() <= UTEMP as u64
                || self.va >= UTEXT && self.end() <= FDTABLE as u64)
    }

    /// Whether no byte of memory is both in its segment, if it says of one, and in another.
    #[tactic(auto, unfolding(crate::specs::Tests::leaves_free))]
    pub(crate) fn leaves_free(&self, other: &ProgramHeader) -> bool
        ensures { result ≡ leaves_free self.now other.now }
    {
        !self.is_loaded() || self.end() <= other.va as u64 || other.end() <= self.va as u64
    }
}

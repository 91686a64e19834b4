//! The words of an ELF file's headers that are loaded, by the places of their first bytes, and what stands in them. (System V ABI, edition 4.1,
//! chapters 4 and 5)

use jos_elf::{P_FILESZ, P_FLAGS, P_MEMSZ, P_OFFSET, P_TYPE, P_VADDR};
use lib_os::PAGE_WORDS;

// ---- of the ELF header

/// The word that tells how wide words are, and which of their bytes comes first.
pub const HEADER_CLASS: u32 = 4;

/// The kind of the file, and the machine that it is for.
pub const HEADER_KIND: u32 = 16;

/// The address of the first instruction.
pub const HEADER_ENTRY_POINT: u32 = 24;

/// The place of the program headers in the file.
pub const HEADER_TABLE: u32 = 28;

/// The word that tells in its upper half how many bytes a program header has.
pub const HEADER_LENGTH: u32 = 40;

/// The word that tells in its lower half how many program headers there are.
pub const HEADER_COUNT: u32 = 44;

/// 0x7f and "ELF", the lowest byte first.
pub const MAGIC: u32 = 0x464c_457f;

/// Words of 32 bits, their lowest byte first.
pub const CLASS: u32 = 0x0101;

/// An executable, for the 80386.
pub const KIND: u32 = 0x0003_0002;

// ---- of a program header

/// What it says of.
pub const SEGMENT_KIND: u32 = P_TYPE as u32;

/// The place of the segment's bytes in the file.
pub const SEGMENT_OFFSET: u32 = P_OFFSET as u32;

/// The segment's first address.
pub const SEGMENT_ADDRESS: u32 = P_VADDR as u32;

/// How many bytes of the file the segment has.
pub const SEGMENT_LENGTH: u32 = P_FILESZ as u32;

/// How many bytes of memory it has.
pub const SEGMENT_MEMORY: u32 = P_MEMSZ as u32;

/// What may be done with its memory.
pub const SEGMENT_FLAGS: u32 = P_FLAGS as u32;

// ---- of both

/// How many bytes the ELF header has.
pub const HEADER_LEN: u32 = jos_elf::EHDR_LEN as u32;

/// How many bytes a program header has.
pub const SEGMENT_LEN: u32 = jos_elf::PHDR_LEN as u32;

/// How many program headers there may be.
pub const HEADERS: u32 = jos_base::SEGMENT_MAX as u32;

/// How many words there are in a program header.
pub const SEGMENT_WORDS: u32 = SEGMENT_LEN / 4;

const _: () = prove!(HEADERS * SEGMENT_WORDS <= PAGE_WORDS);

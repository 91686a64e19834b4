//! The names that the System V ABI (edition 4.1, chapters 4 and 5) gives to the places and values of a 32-bit
//! file's headers. A place is counted in bytes from where its header begins.

// ---- the ELF header

/// The bytes of the ELF header.
pub const EHDR_LEN: usize = 52;

/// How wide the file's words are.
pub const EI_CLASS: usize = 4;

/// Which byte of a number comes first.
pub const EI_DATA: usize = 5;

/// The kind of the file.
pub const E_TYPE: usize = 16;

/// The machine that the file is for.
pub const E_MACHINE: usize = 18;

/// The address of the first instruction.
pub const E_ENTRY: usize = 24;

/// The place of the program headers in the file.
pub const E_PHOFF: usize = 28;

/// The bytes of a program header.
pub const E_PHENTSIZE: usize = 42;

/// The number of program headers.
pub const E_PHNUM: usize = 44;

/// Words of 32 bits.
pub const ELFCLASS32: u8 = 1;

/// The lowest byte of a number comes first.
pub const ELFDATA2LSB: u8 = 1;

/// The version of the format.
pub const EV_CURRENT: u8 = 1;

/// An executable.
pub const ET_EXEC: u16 = 2;

/// The 80386.
pub const EM_386: u16 = 3;

// ---- a program header

/// The bytes of a program header.
pub const PHDR_LEN: usize = 32;

/// What the program header says of.
pub const P_TYPE: usize = 0;

/// The place of the segment's bytes in the file.
pub const P_OFFSET: usize = 4;

/// The segment's first address.
pub const P_VADDR: usize = 8;

/// How many bytes of the file the segment has.
pub const P_FILESZ: usize = 16;

/// How many bytes of memory the segment has.
pub const P_MEMSZ: usize = 20;

/// What may be done with the segment's memory.
pub const P_FLAGS: usize = 24;

/// A segment that is loaded.
pub const PT_LOAD: u32 = 1;

/// The memory may be run.
pub const PF_X: u32 = 1;

/// The memory may be written.
pub const PF_W: u32 = 2;

/// The memory may be read.
pub const PF_R: u32 = 4;

// ---- a program

/// How many words a program may be given. (This system's own.)
pub const ARGS_MAX: usize = 16;

/// The error of a file that is no image. (inc/error.h)
pub const E_NOT_EXEC: u32 = 14;

//! The numbers that MIT's headers and Intel's manual name, under their names, and the limits of this system.
//! Code, definitions and tests cite them from here.

// ---- pages and the address space (MIT 6.828, inc/mmu.h and inc/memlayout.h)

/// The bytes of a page.
pub const PGSIZE: u32 = 4096;

/// The entries of a directory or of a table.
pub const NPTENTRIES: u32 = 1024;

/// The entry of a page is there.
pub const PTE_P: u32 = 0x001;

/// The page may be written.
pub const PTE_W: u32 = 0x002;

/// A user may reach the page.
pub const PTE_U: u32 = 0x004;

/// The page, or a page of the region, was reached.
pub const PTE_A: u32 = 0x020;

/// The page was written.
pub const PTE_D: u32 = 0x040;

/// The bits of an entry that are left to software.
pub const PTE_AVAIL: u32 = 0xe00;

/// The bits that a system call may set in an entry.
pub const PTE_SYSCALL: u32 = 0xe07;

/// Where a program may have memory beside that from `UTEXT` on: from here to `UTEMP`.
pub const USTABDATA: u32 = 0x0020_0000;

/// The first address behind the lower range.
pub const UTEMP: u32 = 0x0040_0000;

/// Where the memory of programs begins.
pub const UTEXT: u32 = 0x0080_0000;

/// The first address behind the memory that an image may have. (MIT 6.828, lib/fd.c)
pub const FDTABLE: u32 = 0xd000_0000;

/// The first address behind the stack of a program.
pub const USTACKTOP: u32 = 0xeebf_e000;

/// The first address that a program may not map.
pub const UTOP: u32 = 0xeec0_0000;

/// The first address behind the exception stack, which is one page.
pub const UXSTACKTOP: u32 = UTOP;

/// Where a user reads the records of the environments.
pub const UENVS: u32 = UTOP;

/// Where a user reads how often each frame is named.
pub const UPAGES: u32 = 0xef00_0000;

/// Where a user reads the tables, and the directory as the table of this region.
pub const UVPT: u32 = 0xef40_0000;

/// The first address behind what a user may reach.
pub const ULIM: u32 = 0xef80_0000;

// ---- traps and the bits of a page fault's error code (MIT 6.828, inc/trap.h and inc/mmu.h)

/// The divide error.
pub const T_DIVIDE: u8 = 0;

/// The breakpoint.
pub const T_BRKPT: u8 = 3;

/// The illegal opcode.
pub const T_ILLOP: u8 = 6;

/// The general protection fault.
pub const T_GPFLT: u8 = 13;

/// The page fault.
pub const T_PGFLT: u8 = 14;

/// The gate of the system calls.
pub const T_SYSCALL: u8 = 0x30;

/// The gate of the library's services. (This system's own.)
pub const T_SERVICE: u8 = 0x40;

/// The entry is there, and does not allow the access.
pub const FEC_PR: u32 = 0x1;

/// The access was a write.
pub const FEC_WR: u32 = 0x2;

/// The access was a user's.
pub const FEC_U: u32 = 0x4;

// ---- EFLAGS (MIT 6.828, inc/mmu.h; Intel 80386 Programmer's Reference Manual, 1986, section 2.3.4.1)

/// Carry.
pub const FL_CF: u32 = 0x001;

/// The bit that is always set.
pub const FL_1: u32 = 0x002;

/// Parity.
pub const FL_PF: u32 = 0x004;

/// Auxiliary carry.
pub const FL_AF: u32 = 0x010;

/// Zero.
pub const FL_ZF: u32 = 0x040;

/// Sign.
pub const FL_SF: u32 = 0x080;

/// Interrupts are taken.
pub const FL_IF: u32 = 0x200;

/// Strings go downwards.
pub const FL_DF: u32 = 0x400;

/// Overflow.
pub const FL_OF: u32 = 0x800;

// ---- system calls and errors (MIT 6.828, inc/syscall.h and inc/error.h)

/// Writes bytes to the console.
pub const SYS_CPUTS: u32 = 0;

/// Takes a byte of the console's input.
pub const SYS_CGETC: u32 = 1;

/// Tells the caller's id.
pub const SYS_GETENVID: u32 = 2;

/// Destroys an environment.
pub const SYS_ENV_DESTROY: u32 = 3;

/// Gives an environment a new page of zeros.
pub const SYS_PAGE_ALLOC: u32 = 4;

/// Gives an environment a page of another, or a page of its own at another address.
pub const SYS_PAGE_MAP: u32 = 5;

/// Takes a page from an environment.
pub const SYS_PAGE_UNMAP: u32 = 6;

/// Makes an environment that has the caller's registers and no page.
pub const SYS_EXOFORK: u32 = 7;

/// Sets whether an environment may run.
pub const SYS_ENV_SET_STATUS: u32 = 8;

/// Sets the registers of an environment.
pub const SYS_ENV_SET_TRAPFRAME: u32 = 9;

/// Sets where an environment handles its page faults.
pub const SYS_ENV_SET_PGFAULT_UPCALL: u32 = 10;

/// Gives up the rest of the turn.
pub const SYS_YIELD: u32 = 11;

/// Sends a word, and a page with it, to an environment that waits for one.
pub const SYS_IPC_TRY_SEND: u32 = 12;

/// Waits for a word, and for a page with it.
pub const SYS_IPC_RECV: u32 = 13;

/// No such environment, or none that the caller may change.
pub const E_BAD_ENV: u32 = 2;

/// An argument is out of its range.
pub const E_INVAL: u32 = 3;

/// There is no free frame.
pub const E_NO_MEM: u32 = 4;

/// There is no free slot.
pub const E_NO_FREE_ENV: u32 = 5;

/// The environment does not wait for a word, or not for the caller's.
pub const E_IPC_NOT_RECV: u32 = 7;

/// Too few blocks of the disk are free, or a size would be past the greatest.
pub const E_NO_DISK: u32 = 9;

/// As many files or descriptors are open as there may be.
pub const E_MAX_OPEN: u32 = 10;

/// No file has the name.
pub const E_NOT_FOUND: u32 = 11;

/// A path or a name in it is too long.
pub const E_BAD_PATH: u32 = 12;

/// The file is there already.
pub const E_FILE_EXISTS: u32 = 13;

/// It cannot be asked of what the descriptor is for.
pub const E_NOT_SUPP: u32 = 15;

/// What `cgetc` answers where the console's input is at its end.
pub const END_OF_INPUT: u32 = 4;

// ---- environments (MIT 6.828, inc/env.h and kern/env.c)

/// The id of the first environment that has slot 0.
pub const FIRST_ENV_ID: u32 = 0x1000;

/// The slots of the environment table.
pub const NENV: u32 = 1024;

/// What an id is raised by when its slot is used again. (MIT 6.828, kern/env.c: 1 << ENVGENSHIFT)
pub const ENV_GENERATION: u32 = 4096;

/// Of a slot that has no environment.
pub const ENV_FREE: u32 = 0;

/// Never used on one processor.
pub const ENV_DYING: u32 = 1;

/// Of an environment that waits for a turn.
pub const ENV_RUNNABLE: u32 = 2;

/// Of the environment whose turn it is.
pub const ENV_RUNNING: u32 = 3;

/// Of an environment that may not run.
pub const ENV_NOT_RUNNABLE: u32 = 4;

/// Of an environment that runs a user's program. (MIT 6.828, lab 5, inc/env.h)
pub const ENV_TYPE_USER: u32 = 0;

/// Of the file server. (MIT 6.828, lab 5, inc/env.h)
pub const ENV_TYPE_FS: u32 = 1;

/// The words that an environment keeps for a library outside of the kernel. (This system's own.)
pub const EXTRA_WORDS: usize = 12;

/// The words of a record that a user reads of a slot. (This system's own.)
pub const ENV_WORDS: usize = 16;

/// The bytes of such a record.
pub const ENV_SIZE: u32 = 64;

/// The place in a record of the word that came. (MIT 6.828, inc/env.h: `env_ipc_value`)
pub const ENV_IPC_VALUE: u32 = 10;

/// The place in a record of who sent that word. (MIT 6.828, inc/env.h: `env_ipc_from`)
pub const ENV_IPC_FROM: u32 = 11;

/// The place in a record of the bits of the page that came with it. (MIT 6.828, inc/env.h: `env_ipc_perm`)
pub const ENV_IPC_PERM: u32 = 12;

// ---- page faults that a user handles (MIT 6.828, inc/trap.h)

/// The words of what a page fault's handler finds on its stack: `struct UTrapframe`.
pub const UTRAPFRAME_WORDS: usize = 13;

/// The words of all registers that the kernel saves: `struct Trapframe`.
pub const TRAPFRAME_WORDS: usize = 17;

// ---- the limits of this system

/// The most bytes that one `cputs` prints.
pub const CPUTS_MAX: u32 = 4096;

/// The most bytes of an image file.
pub const IMAGE_MAX: u64 = 16_777_216;

/// The most bytes of a file that is put on a disk.
pub const FILE_MAX: u64 = 16_777_216;

/// The most program headers of an image.
pub const SEGMENT_MAX: u16 = 16;

/// The most bytes of an instruction that are looked at.
pub const INSTRUCTION_MAX: usize = 15;

/// The steps of a turn where no schedule says how many.
pub const QUANTUM: u32 = 1000;

/// The steps of a run where the words say no number.
pub const STEPS: u64 = 100_000_000;

/// The most steps that the words may ask for.
pub const STEPS_MAX: u64 = 1_000_000_000;

/// The frames of a run where the words say no number.
pub const FRAMES: u32 = 16_384;

/// The fewest frames.
pub const FRAMES_MIN: u32 = 64;

/// The most frames.
pub const FRAMES_MAX: u32 = 65_536;

/// The most images of a run.
pub const IMAGES_MAX: usize = 64;

/// The most bytes of a schedule's text.
pub const SCHEDULE_TEXT_MAX: u64 = 16_777_216;

/// The most bytes of the console's input.
pub const INPUT_MAX: usize = 1_048_576;

/// The most turns of a run.
pub const TURN_MAX: usize = 1_048_576;

/// The most traps that a run lists at its end.
pub const TRACE_MAX: usize = 1024;

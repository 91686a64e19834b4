//! Numbers of the library.

/// The descriptors of an environment. (MIT 6.828, lib/fd.c: `MAXFD`)
pub const DESCRIPTORS: usize = 32;

/// Where the page of a descriptor has the word that tells what it names. (MIT 6.828, inc/fd.h: `fd_dev_id`)
pub const FD_DEVICE: u32 = 0;

/// The console, as that word tells it. (MIT 6.828, lib/console.c: `devcons`)
pub const DEVICE_CONSOLE: u32 = 0x63;

/// A file, as that word tells it. (MIT 6.828, lib/file.c: `devfile`)
pub const DEVICE_FILE: u32 = 0x66;

/// An end of a pipe, as that word tells it. (MIT 6.828, lib/pipe.c: `devpipe`)
pub const DEVICE_PIPE: u32 = 0x70;

/// Where the page of a descriptor of a file has the place of the next byte. (MIT 6.828, inc/fd.h: `fd_offset`)
pub const FD_OFFSET: u32 = 4;

/// Where it has the mode in which the file is open, or which end of a pipe it names: 0 for the reading end, 1 for the writing end.
/// (MIT 6.828, inc/fd.h: `fd_omode`)
pub const FD_MODE: u32 = 8;

/// Where it has the file's number at the file server. (MIT 6.828, inc/fd.h: `fd_file.id`)
pub const FD_FILE: u32 = 12;

/// How many bytes the file had when it was opened.
pub const FD_SIZE: u32 = 16;

/// The mode of what may be read and written. (MIT 6.828, inc/lib.h)
pub const O_RDWR: u32 = 2;

/// Behind the pages of descriptors and pipes, which lie from `FDTABLE` on.
pub const FDTABLE_END: u32 = 0xd040_0000;

/// From here up to `UTOP` lie the stacks of the library's own parts. No program goes on with its ESP there.
pub const RESIDENT: u32 = 0xeebf_e800;

/// The places of the table of open files. (MIT 6.828, fs/serv.c)
pub const MAXOPEN: u32 = 1024;

/// The bytes that a pipe can hold. (MIT 6.828, lib/pipe.c)
pub const PIPEBUFSIZ: usize = 32;

/// Where the page of a pipe has the word that is other than 0 while someone has its lock. (This system's own.)
pub const PIPE_LOCK: u32 = 0;

/// Where it has how many bytes have been taken from the pipe. (MIT 6.828, lib/pipe.c: `p_rpos`)
pub const PIPE_READ: u32 = 4;

/// Where it has how many have been put into it. (MIT 6.828, lib/pipe.c: `p_wpos`)
pub const PIPE_WRITE: u32 = 8;

/// From here on it has the bytes that it holds: that which is put as the nth stands at n modulo `PIPEBUFSIZ`. (MIT 6.828, lib/pipe.c: `p_buf`)
pub const PIPE_BYTES: u32 = 12;

/// The place of the word in a record of a slot that tells how often its environment has got a turn. (MIT 6.828, inc/env.h: `env_runs`)
pub const ENV_RUNS: u32 = 4;

/// The most bytes that one read moves, and one write to a pipe or the console.
pub const TRANSFER_MAX: u32 = 4096;

/// The most bytes that one write to a file moves: what fits a request.
pub const FILE_WRITE_MAX: u32 = 4088;

/// The greatest offset in a file.
pub const OFFSET_MAX: u32 = 0x7fff_ffff;

/// The bytes that stat gives: a name of 128 bytes, a size and a kind.
pub const STAT_SIZE: u32 = 136;

/// The bits that the mode of open_file may have.
pub const MODE_BITS: u32 = 0x703;

/// A turn of fewer steps may be too short to see that the other end of a pipe is closed.
pub const SHORT_QUANTUM: u32 = 16;

/// The bit of a page's entry that says that the page is shared. (MIT 6.828, inc/lib.h)
pub const PTE_SHARE: u32 = 0x400;

/// The bit of a page's entry that says that the page is copied when it is written. (MIT 6.828, lib/fork.c)
pub const PTE_COW: u32 = 0x800;

/// Where the handler of page faults makes its copy of a page. (MIT 6.828, inc/memlayout.h)
pub const PFTEMP: u32 = 0x007f_f000;

/// The page of the stack on which the handler of page faults finds its frame. (MIT 6.828, inc/memlayout.h: below `UXSTACKTOP`)
pub const UXSTACK: u32 = 0xeebf_f000;

/// Where the file server has the pages of its cache: block n at this address and 4,096 n. (MIT 6.828, lab 5: fs/fs.h)
pub const DISKMAP: u32 = 0x1000_0000;

/// The blocks that have an address there have numbers below this one.
pub const CACHE_BLOCKS: u32 = 65_536;

/// Where the file server has the page of a request. (MIT 6.828, lab 5: fs/serv.c: `fsreq`)
pub const REQUEST: u32 = 0x0fff_f000;

/// Where it has the page that tells, in a word for each file that it has open, where the file's record stands on the disk.
pub const OPEN_RECORDS: u32 = 0x0fff_e000;

// ---- requests to the file server, by the words of their messages (MIT 6.828, lab 5: inc/fs.h)

/// A file is opened.
pub const FSREQ_OPEN: u32 = 1;

/// A file gets another size.
pub const FSREQ_SET_SIZE: u32 = 2;

/// Bytes are read.
pub const FSREQ_READ: u32 = 3;

/// Bytes are written.
pub const FSREQ_WRITE: u32 = 4;

/// The name, the size and the kind of a file are wanted.
pub const FSREQ_STAT: u32 = 5;

/// A file is removed.
pub const FSREQ_REMOVE: u32 = 7;

/// What the disk lacks is written.
pub const FSREQ_SYNC: u32 = 8;

/// The place of the next byte is set. (MIT's clients set it themselves.)
pub const FSREQ_SEEK: u32 = 9;

/// Bytes are read from a place on that the request tells; no offset goes on by them.
pub const FSREQ_READ_AT: u32 = 10;

/// Where the page of a request has the number of its file.
pub const REQUEST_FILE: u32 = 0;

/// Where it has the number of bytes that are wanted or given, a size or an offset.
pub const REQUEST_COUNT: u32 = 4;

/// From here on it has the bytes that are written.
pub const REQUEST_BYTES: u32 = 8;

/// The place of the first byte that is read, in the page of a request that tells it.
pub const REQUEST_PLACE: u32 = 8;

/// Where it has the mode in which a file is to be opened, behind the path.
pub const REQUEST_MODE: u32 = 1024;

/// Where the page of spawn that has its path has the addresses of the strings that the program gives, behind the path and the mode.
pub const SPAWN_ADDRESSES: u32 = 2048;

/// Where spawn has the page of these strings, and then of the program headers of its file: the first page behind `UTEMP`.
pub const SPAWN_GIVEN: u32 = 0x0040_1000;

/// Where it makes the page of its child's stack: the second.
pub const SPAWN_STACK: u32 = 0x0040_2000;

/// Where it has a page of its child's while it puts bytes there: the third.
pub const SPAWN_HERE: u32 = 0x0040_3000;

/// The words of a page.
pub const PAGE_WORDS: u32 = 1024;

/// The numbers of services are below this one. Any number from here on names none.
pub const SERVICES: u32 = 22;

/// Where a user reads the directory: the region of `UVPT` has the directory for its table, and so the directory for one of its
/// pages. (MIT 6.828, inc/memlayout.h: `uvpd`)
pub const UVPD: u32 = 0xef7b_d000;

// ---- the numbers of the services, as a program has them in EAX (docs/library.md)

/// `exit`.
pub const SERVICE_EXIT: u32 = 0;

/// `cputs`.
pub const SERVICE_CPUTS: u32 = 1;

/// `getid`.
pub const SERVICE_GETID: u32 = 2;

/// `yield`.
pub const SERVICE_YIELD: u32 = 3;

/// `fork`.
pub const SERVICE_FORK: u32 = 4;

/// `wait`.
pub const SERVICE_WAIT: u32 = 5;

/// `page_new`.
pub const SERVICE_PAGE_NEW: u32 = 6;

/// `page_drop`.
pub const SERVICE_PAGE_DROP: u32 = 7;

/// `send`.
pub const SERVICE_SEND: u32 = 8;

/// `receive`.
pub const SERVICE_RECEIVE: u32 = 9;

/// `open_file`.
pub const SERVICE_OPEN_FILE: u32 = 10;

/// `close`.
pub const SERVICE_CLOSE: u32 = 11;

/// `read`.
pub const SERVICE_READ: u32 = 12;

/// `write`.
pub const SERVICE_WRITE: u32 = 13;

/// `seek`.
pub const SERVICE_SEEK: u32 = 14;

/// `stat`.
pub const SERVICE_STAT: u32 = 15;

/// `set_size`.
pub const SERVICE_SET_SIZE: u32 = 16;

/// `remove`.
pub const SERVICE_REMOVE: u32 = 17;

/// `sync`.
pub const SERVICE_SYNC: u32 = 18;

/// `dup`.
pub const SERVICE_DUP: u32 = 19;

/// `pipe`.
pub const SERVICE_PIPE: u32 = 20;

/// `spawn`.
pub const SERVICE_SPAWN: u32 = 21;

// ---- how far a service is, as a word that is kept for the library

/// Nothing of it is done.
pub const STEP_ENTERED: u32 = 0;

/// It is about to try.
pub const STEP_TRYING: u32 = 1;

/// It is about to give up its turn.
pub const STEP_PAUSING: u32 = 2;

/// It is about to read whether the region of its page has a table.
pub const STEP_READING_REGION: u32 = 3;

/// It is about to read the entry of its page.
pub const STEP_READING_ENTRY: u32 = 4;

/// It is about to wait for a word.
pub const STEP_RECEIVING: u32 = 5;

/// It waits, or is about to read the word that came.
pub const STEP_READING_VALUE: u32 = 6;

/// It is about to read who sent the word.
pub const STEP_READING_SENDER: u32 = 7;

/// It is about to read the bits of the page that came.
pub const STEP_READING_PERM: u32 = 8;

/// It is about to read whether a region has a table.
pub const STEP_FORK_REGION: u32 = 9;

/// It is about to read the entry of a page.
pub const STEP_FORK_ENTRY: u32 = 10;

/// It is about to map a page into its child.
pub const STEP_MAP_CHILD: u32 = 11;

/// It is about to map a page onto itself, so that it is copied when it is written.
pub const STEP_REMAP: u32 = 12;

/// It is about to give its child the stack of the handler of page faults.
pub const STEP_CHILD_STACK: u32 = 13;

/// It is about to give its child the handler.
pub const STEP_CHILD_UPCALL: u32 = 14;

/// It is about to let its child run.
pub const STEP_CHILD_RUNS: u32 = 15;

/// It was refused something, and is about to destroy its child.
pub const STEP_UNDOING: u32 = 16;

/// The number of exit's, close's and dup's step that reads the entry of a descriptor's page.
pub const STEP_DESCRIPTOR_ENTRY: u32 = 17;

/// The number of dup's step that reads the entry of the new descriptor's page.
pub const STEP_TARGET_ENTRY: u32 = 18;

/// The number of exit's, close's and dup's step that drops a descriptor.
pub const STEP_DROPPING_DESCRIPTOR: u32 = 19;

/// The number of dup's step that maps the new descriptor's page.
pub const STEP_MAPPING_DESCRIPTOR: u32 = 20;

/// The number of exit's step that ends the environment.
pub const STEP_ENDING: u32 = 21;

/// It is about to read what its descriptor names.
pub const STEP_READING_DEVICE: u32 = 22;

/// It is about to read whether the region of the next byte of its buffer has a table.
pub const STEP_BUFFER_REGION: u32 = 23;

/// It is about to read the entry of that byte's page.
pub const STEP_BUFFER_ENTRY: u32 = 24;

/// It is about to take the page in which it keeps what it moves.
pub const STEP_TAKING_PAGE: u32 = 25;

/// It is about to load the next bytes of its buffer.
pub const STEP_GATHERING: u32 = 26;

/// It is about to put what it has loaded into the page that it took.
pub const STEP_KEEPING: u32 = 27;

/// It is about to print the bytes that it has taken.
pub const STEP_PRINTING: u32 = 28;

/// It has answered to all who see it, and is about to give its page back.
pub const STEP_RELEASING: u32 = 29;

/// It is about to take a byte of the console.
pub const STEP_GETTING: u32 = 30;

/// It is about to put the next bytes into its buffer.
pub const STEP_DELIVERING: u32 = 31;

/// The next byte of its buffer can't be moved, and it is about to raise the fault by which the environment ends.
pub const STEP_FAULTING: u32 = 32;

/// A service of the file server's is about to ask.
pub const STEP_ASKING: u32 = 33;

/// It has asked, and is about to wait for the reply.
pub const STEP_AWAITING: u32 = 34;

/// It waits for the reply, or is about to read its word.
pub const STEP_READING_REPLY: u32 = 35;

/// Its page tells the request, and it is about to ask for its id.
pub const STEP_IDENTIFYING: u32 = 36;

/// It waits for the reply, or is about to give back the page that told its request.
pub const STEP_CLEARING: u32 = 37;

/// Its descriptor names a file, and it is about to read the mode of that.
pub const STEP_READING_MODE: u32 = 38;

/// It has a page for its request, and is about to read the number of its file.
pub const STEP_READING_NUMBER: u32 = 39;

/// It is about to put the number of its file into the page.
pub const STEP_STORING_NUMBER: u32 = 40;

/// The page has the number, and it is about to put there what goes with it.
pub const STEP_STORING_COUNT: u32 = 41;

/// Where write is that takes a page for its request to the file server.
pub const STEP_TAKING_REQUEST: u32 = 42;

/// Where write is that loads the next bytes of its buffer.
pub const STEP_GATHERING_BYTES: u32 = 43;

/// Where write is that puts what it has loaded into its page.
pub const STEP_KEEPING_BYTES: u32 = 44;

/// It waits for the reply, or is about to read the word that tells how many bytes its page has.
pub const STEP_COUNTING_REPLY: u32 = 45;

/// Its page has the bytes of a file, and it is about to read whether the region of the next byte of its buffer has a table.
pub const STEP_FILE_REGION: u32 = 46;

/// It is about to read the entry of the page of the next byte of its buffer.
pub const STEP_FILE_ENTRY: u32 = 47;

/// It is about to load the next bytes of the file.
pub const STEP_LOADING_BYTES: u32 = 48;

/// It is about to put the next bytes of the file into its buffer.
pub const STEP_PUTTING_BYTES: u32 = 49;

/// The next bytes of the file can't be put.
pub const STEP_FILE_FAULTING: u32 = 50;

/// All bytes of the file are put, and it is about to give its page back.
pub const STEP_RETURNING: u32 = 51;

/// It is about to load the second of two words, in which the next bytes of the file stand.
pub const STEP_LOADING_REST: u32 = 52;

/// It has its path, and is about to read whether the region of descriptors' pages has a table.
pub const STEP_FREE_REGION: u32 = 53;

/// It is about to read the entry of a descriptor's page, to find one that is free.
pub const STEP_FREE_ENTRY: u32 = 54;

/// It has found a free descriptor, and is about to put the mode into its page.
pub const STEP_STORING_MODE: u32 = 55;

/// It has asked that a file be opened, and is about to wait for the reply.
pub const STEP_OPEN_AWAITING: u32 = 56;

/// It waits for that reply, or is about to give back the page that told its request.
pub const STEP_OPEN_CLEARING: u32 = 57;

/// It is about to read the word of that reply.
pub const STEP_READING_OPENED: u32 = 58;

/// Its page tells which file is to be opened, and it is about to ask for its id.
pub const STEP_OPEN_IDENTIFYING: u32 = 59;

/// It is about to ask that the file be opened.
pub const STEP_OPEN_ASKING: u32 = 60;

/// It has asked that in vain, and is about to give up its turn.
pub const STEP_OPEN_PAUSING: u32 = 61;

// ---- how far the handler of page faults is, as the EIP of its environment. Nothing is fetched there: no page stands below the
// exception stack, and that the handler runs is told by ESP.

/// It is entered here, and nothing is done yet. (MIT 6.828, lib/pfentry.S: `_pgfault_upcall`)
pub const PGFAULT_UPCALL: u32 = 0xeebf_e000;

/// It is about to read the error code.
pub const HANDLER_READING_ERROR: u32 = 0xeebf_e001;

/// It is about to look at the entry of the page.
pub const HANDLER_LOOKING: u32 = 0xeebf_e002;

/// It is about to take a page for the copy.
pub const HANDLER_TAKING: u32 = 0xeebf_e003;

/// It is about to load a word of the page.
pub const HANDLER_LOADING: u32 = 0xeebf_e004;

/// It is about to store it in the copy.
pub const HANDLER_STORING: u32 = 0xeebf_e005;

/// It is about to map the copy over the page.
pub const HANDLER_MAPPING_OVER: u32 = 0xeebf_e006;

/// It is about to unmap the copy where it was made.
pub const HANDLER_UNMAPPING: u32 = 0xeebf_e007;

/// It is about to take the registers back from the frame.
pub const HANDLER_RESTORING: u32 = 0xeebf_e008;

/// It is about to read where the fault was raised.
pub const HANDLER_READING_IP: u32 = 0xeebf_e009;

/// It is about to set that the environment has no handler.
pub const HANDLER_UNSETTING: u32 = 0xeebf_e00a;

/// It is about to raise the fault again, which ends the environment.
pub const HANDLER_TOUCHING: u32 = 0xeebf_e00b;

//! How far spawn is behind its path, as a word that is kept for the library: all these are at least the first, and above those of other services'
//! steps.

// ---- how far spawn is with what the program gives: all these are at least the first, and below those that follow

/// Where it takes a page for the strings that the program gives.
pub const STEP_SPAWN_TAKING_GIVEN: u32 = 200;

/// Where it reads whether the region of the next byte of a string's address has a table.
pub const STEP_SPAWN_ADDRESS_REGION: u32 = 201;

/// Where it reads the entry of that byte's page.
pub const STEP_SPAWN_ADDRESS_ENTRY: u32 = 202;

/// Where it loads the address, or its next byte.
pub const STEP_SPAWN_ADDRESS_LOADING: u32 = 203;

/// Where that byte can't be loaded.
pub const STEP_SPAWN_ADDRESS_FAULTING: u32 = 204;

/// Where it puts the address into its page.
pub const STEP_SPAWN_ADDRESS_KEEPING: u32 = 205;

/// Where it loads the address of the next string from its page.
pub const STEP_SPAWN_STRING_ADDRESS: u32 = 206;

/// Where it reads whether the region of the next byte of a string has a table.
pub const STEP_SPAWN_STRING_REGION: u32 = 207;

/// Where it reads the entry of the page of the next byte of a string.
pub const STEP_SPAWN_STRING_ENTRY: u32 = 208;

/// Where it loads the next bytes of a string.
pub const STEP_SPAWN_STRING_LOADING: u32 = 209;

/// Where the next byte of a string can't be loaded.
pub const STEP_SPAWN_STRING_FAULTING: u32 = 210;

/// Where it puts the next byte of a string into their page.
pub const STEP_SPAWN_STRING_KEEPING: u32 = 211;

/// Where it takes the page of the child's stack.
pub const STEP_SPAWN_TAKING_STACK: u32 = 212;

/// Where it puts the address of a string into the page of the stack.
pub const STEP_SPAWN_STRING_FIRST: u32 = 213;

/// Where it loads the next byte of the strings.
pub const STEP_SPAWN_STRING_COPYING: u32 = 214;

/// Where it puts that byte into the page of the stack.
pub const STEP_SPAWN_STRING_PUTTING: u32 = 215;

/// Where it puts the place of the strings' addresses into the page of the stack.
pub const STEP_SPAWN_STORING_ARGV: u32 = 216;

/// Where it puts there how many strings there are.
pub const STEP_SPAWN_STORING_ARGC: u32 = 217;

// ---- how far it is with the opening of the file: all these are at least the first, and below those that follow

/// Where it reads whether the region of descriptors' pages has a table.
pub const STEP_SPAWN_FREE_REGION: u32 = 220;

/// Where it reads the entry of a descriptor's page, to find one that is free.
pub const STEP_SPAWN_FREE_ENTRY: u32 = 221;

/// Where it puts the mode into its page.
pub const STEP_SPAWN_STORING_MODE: u32 = 222;

/// Where it asks for its id, to have the file opened.
pub const STEP_SPAWN_OPEN_IDENTIFYING: u32 = 223;

/// Where it asks that the file be opened.
pub const STEP_SPAWN_OPEN_ASKING: u32 = 224;

/// Where it has asked that in vain, and gives up its turn.
pub const STEP_SPAWN_OPEN_PAUSING: u32 = 225;

/// Where it waits for the reply.
pub const STEP_SPAWN_OPEN_AWAITING: u32 = 226;

/// Where it reads the word of that reply.
pub const STEP_SPAWN_READING_OPENED: u32 = 227;

/// Where it loads how many bytes the file had when it was opened.
pub const STEP_SPAWN_LOADING_SIZE: u32 = 228;

// ---- how far it is with the tests of the file: all these are at least the first, and below those that follow

/// Where it loads how the header begins.
pub const STEP_SPAWN_HEADER_MAGIC: u32 = 230;

/// Where it loads what the header tells of words.
pub const STEP_SPAWN_HEADER_CLASS: u32 = 231;

/// Where it loads the kind of the file and its machine.
pub const STEP_SPAWN_HEADER_KIND: u32 = 232;

/// Where it loads the address of the first instruction.
pub const STEP_SPAWN_HEADER_ENTRY_POINT: u32 = 233;

/// Where it loads the place of the program headers.
pub const STEP_SPAWN_HEADER_TABLE: u32 = 234;

/// Where it loads how long a program header is.
pub const STEP_SPAWN_HEADER_LENGTH: u32 = 235;

/// Where it loads how many program headers there are.
pub const STEP_SPAWN_HEADER_COUNT: u32 = 236;

/// Where it loads the next word of the program headers.
pub const STEP_SPAWN_TABLE_LOADING: u32 = 237;

/// Where it puts that into the page that had the strings.
pub const STEP_SPAWN_TABLE_STORING: u32 = 238;

/// Where it tests a program header, and loads what it says of.
pub const STEP_SPAWN_SEGMENT_KIND: u32 = 239;

/// Where it loads how much memory the segment has.
pub const STEP_SPAWN_SEGMENT_MEMORY: u32 = 240;

/// Where it loads the segment's first address.
pub const STEP_SPAWN_SEGMENT_ADDRESS: u32 = 241;

/// Where it loads how many bytes of the file the segment has.
pub const STEP_SPAWN_SEGMENT_LENGTH: u32 = 242;

/// Where it loads the place of the segment's bytes in the file.
pub const STEP_SPAWN_SEGMENT_OFFSET: u32 = 243;

/// Where it loads what another program header says of.
pub const STEP_SPAWN_OTHER_KIND: u32 = 244;

/// Where it loads how much memory the other segment has.
pub const STEP_SPAWN_OTHER_MEMORY: u32 = 245;

/// Where it loads the other segment's first address.
pub const STEP_SPAWN_OTHER_ADDRESS: u32 = 246;

// ---- how far it is with its child, and with the segments of that: all these are at least the first, and below those that follow

/// Where it makes the child.
pub const STEP_SPAWN_MAKING_CHILD: u32 = 250;

/// Where it puts a word of the record of the child's registers into its page.
pub const STEP_SPAWN_STORING_REGISTER: u32 = 251;

/// Where it sets the child's registers.
pub const STEP_SPAWN_SETTING_REGISTERS: u32 = 252;

/// Where it loads what a program header says of whose segment is to have its pages.
pub const STEP_SPAWN_PLACING_KIND: u32 = 253;

/// Where it loads how much memory that segment has.
pub const STEP_SPAWN_PLACING_MEMORY: u32 = 254;

/// Where it loads that segment's first address.
pub const STEP_SPAWN_PLACING_ADDRESS: u32 = 255;

/// Where it gives the child a page of the segment.
pub const STEP_SPAWN_PLACING_PAGE: u32 = 256;

/// Where it loads what a program header says of whose segment is to have its bytes.
pub const STEP_SPAWN_PIECE_KIND: u32 = 257;

/// Where it loads how much memory the segment has, which is to have its bytes.
pub const STEP_SPAWN_PIECE_MEMORY: u32 = 258;

/// Where it loads how many bytes the segment is to have.
pub const STEP_SPAWN_PIECE_LENGTH: u32 = 259;

/// Where it loads the place of these bytes in the file.
pub const STEP_SPAWN_PIECE_OFFSET: u32 = 260;

/// Where it has a piece of the segment, and loads the segment's first address.
pub const STEP_SPAWN_PIECE_ADDRESS: u32 = 261;

/// Where it maps a page of the child's into its own memory.
pub const STEP_SPAWN_MAPPING_HERE: u32 = 262;

/// Where it loads the next bytes of the piece.
pub const STEP_SPAWN_PIECE_LOADING: u32 = 263;

/// Where it loads the second of two words of the piece.
pub const STEP_SPAWN_PIECE_REST: u32 = 264;

/// Where it puts bytes into the child's page.
pub const STEP_SPAWN_PIECE_PUTTING: u32 = 265;

/// Where it gives the child's page back.
pub const STEP_SPAWN_UNMAPPING_HERE: u32 = 266;

// ---- how far it is with a child that has all bytes: all these are at least the first, and below those that follow

/// Where it loads what a program header says of whose segment is to have its rights.
pub const STEP_SPAWN_RIGHTS_KIND: u32 = 270;

/// Where it loads whether that segment may be written.
pub const STEP_SPAWN_RIGHTS_FLAGS: u32 = 271;

/// Where it loads how much memory that segment has.
pub const STEP_SPAWN_RIGHTS_MEMORY: u32 = 272;

/// Where it loads the first address of that segment.
pub const STEP_SPAWN_RIGHTS_ADDRESS: u32 = 273;

/// Where it loads what another program header says of, whose segment may have a part of these pages.
pub const STEP_SPAWN_SHARED_KIND: u32 = 274;

/// Where it loads whether the other segment may be written.
pub const STEP_SPAWN_SHARED_FLAGS: u32 = 275;

/// Where it loads how much memory the other segment has, which may be written.
pub const STEP_SPAWN_SHARED_MEMORY: u32 = 276;

/// Where it loads the first address of the other segment, which may be written.
pub const STEP_SPAWN_SHARED_ADDRESS: u32 = 277;

/// Where it takes from the child that it may write a page.
pub const STEP_SPAWN_RIGHTS_PAGE: u32 = 278;

/// Where it gives the child the stack of the handler of page faults.
pub const STEP_SPAWN_CHILD_STACK: u32 = 279;

/// Where it gives the child the handler.
pub const STEP_SPAWN_CHILD_UPCALL: u32 = 280;

/// Where it gives the child the page of its stack.
pub const STEP_SPAWN_GIVING_STACK: u32 = 281;

/// Where it gives that page back where it had made it.
pub const STEP_SPAWN_RELEASING_STACK: u32 = 282;

/// Where it gives back the page that has the program headers.
pub const STEP_SPAWN_RELEASING_GIVEN: u32 = 283;

/// Where it gives its page back.
pub const STEP_SPAWN_RELEASING_PATH: u32 = 284;

/// Where it drops the descriptor of the file.
pub const STEP_SPAWN_DROPPING_FILE: u32 = 285;

/// Where it reads whether a region has a table, to pass shared pages on.
pub const STEP_SPAWN_PASSING_REGION: u32 = 286;

/// Where it reads the entry of a page that may be shared.
pub const STEP_SPAWN_PASSING_ENTRY: u32 = 287;

/// Where it maps a shared page into the child.
pub const STEP_SPAWN_PASSING_PAGE: u32 = 288;

/// Where it lets the child run.
pub const STEP_SPAWN_CHILD_RUNS: u32 = 289;

// ---- how far it is where it was refused something with this answer: all these are at least the first, and below those that follow

/// Where it was refused something, and destroys the child.
pub const STEP_SPAWN_DESTROYING_CHILD: u32 = 290;

/// Where it was refused something, and drops the descriptor of the file.
pub const STEP_SPAWN_CLOSING_FILE: u32 = 291;

/// Where it was refused something, and gives back the page of the child's stack.
pub const STEP_SPAWN_UNDOING_STACK: u32 = 292;

/// Where it gives back the page of the strings.
pub const STEP_SPAWN_UNDOING_GIVEN: u32 = 293;

/// Where it gives its page back, and answers.
pub const STEP_SPAWN_UNDOING_PATH: u32 = 294;

// ---- how far it is with a part of the file: all these are at least the first

/// Where it loads the number of its file, to read a part of that.
pub const STEP_SPAWN_LOADING_NUMBER: u32 = 300;

/// Where it puts the number into its page.
pub const STEP_SPAWN_STORING_NUMBER: u32 = 301;

/// Where it puts there how many bytes it wants.
pub const STEP_SPAWN_STORING_COUNT: u32 = 302;

/// Where it puts there the place of the first of them.
pub const STEP_SPAWN_STORING_PLACE: u32 = 303;

/// Where it asks for its id, to read a part of the file.
pub const STEP_SPAWN_IDENTIFYING: u32 = 304;

/// Where it asks for the part of the file.
pub const STEP_SPAWN_ASKING: u32 = 305;

/// Where it has asked for that in vain, and gives up its turn.
pub const STEP_SPAWN_PAUSING: u32 = 306;

/// Where it waits for the reply that has the part of the file.
pub const STEP_SPAWN_AWAITING: u32 = 307;

/// Where it reads how many bytes came.
pub const STEP_SPAWN_READING_REPLY: u32 = 308;

// ---- which part that is

/// The header is read.
pub const SPAWN_PART_HEADER: u32 = 0;

/// The program headers are read.
pub const SPAWN_PART_TABLE: u32 = 1;

/// Bytes of a segment are read.
pub const SPAWN_PART_PIECE: u32 = 2;

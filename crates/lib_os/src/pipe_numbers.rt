//! How far a service is that makes, moves or drops an end of a pipe, as a word that is kept for the library: all these are at least the first, and
//! above those of other steps.

/// Where pipe is that looks for the second descriptor that is free.
pub const STEP_PIPE_SECOND_ENTRY: u32 = 100;

/// Where it takes the page of the reading end's descriptor.
pub const STEP_PIPE_TAKING_READING: u32 = 101;

/// Where it puts there that a pipe is named.
pub const STEP_PIPE_STORING_READING: u32 = 102;

/// Where it takes the page of the writing end's descriptor.
pub const STEP_PIPE_TAKING_WRITING: u32 = 103;

/// Where it puts there that a pipe is named.
pub const STEP_PIPE_STORING_WRITING: u32 = 104;

/// Where it puts there that it is for writing.
pub const STEP_PIPE_STORING_END_MODE: u32 = 105;

/// Where it takes the pipe's page.
pub const STEP_PIPE_TAKING_PIPE: u32 = 106;

/// Where it maps that for the writing end.
pub const STEP_PIPE_MAPPING_PIPE: u32 = 107;

/// Where it was refused something, and gives the page of the writing end's descriptor back.
pub const STEP_PIPE_UNDOING_WRITING: u32 = 108;

/// Where it gives that of the reading end's back.
pub const STEP_PIPE_UNDOING_READING: u32 = 109;

/// Where exit, close and dup are that read whether a descriptor has a pipe's page.
pub const STEP_PIPE_ENTRY: u32 = 110;

/// Where they drop the page of a descriptor that names an end of a pipe.
pub const STEP_PIPE_DROPPING_END: u32 = 111;

/// Where they drop the pipe's page.
pub const STEP_PIPE_DROPPING_PIPE: u32 = 112;

/// Where dup reads whether the old descriptor has a pipe's page.
pub const STEP_PIPE_SOURCE_PIPE: u32 = 113;

/// Where it maps that as the new one's.
pub const STEP_PIPE_MAPPING_END: u32 = 114;

/// Where read and write are that read which end of a pipe their descriptor names.
pub const STEP_PIPE_END_MODE: u32 = 115;

/// Where they take a page for the bytes that they move.
pub const STEP_PIPE_TAKING_BYTES: u32 = 116;

/// Where they take the pipe's lock.
pub const STEP_PIPE_LOCKING: u32 = 117;

/// Where another has the lock, and they give up their turn.
pub const STEP_PIPE_LOCK_PAUSING: u32 = 118;

/// Where they read how many bytes have been taken from the pipe.
pub const STEP_PIPE_READ_FROM: u32 = 119;

/// Where they read how many have been put into it.
pub const STEP_PIPE_READ_TO: u32 = 120;

/// Where read loads the pipe's next byte.
pub const STEP_PIPE_LOADING_HELD: u32 = 121;

/// Where it puts that into its page.
pub const STEP_PIPE_KEEPING_HELD: u32 = 122;

/// Where it counts that as taken from the pipe.
pub const STEP_PIPE_TAKING_HELD: u32 = 123;

/// Where write loads the next byte of its page.
pub const STEP_PIPE_LOADING_OWN: u32 = 124;

/// Where it puts that into the pipe's page.
pub const STEP_PIPE_PUTTING_OWN: u32 = 125;

/// Where it counts that as put into the pipe.
pub const STEP_PIPE_PUTTING: u32 = 126;

/// Where they give the lock back behind a byte.
pub const STEP_PIPE_UNLOCKING_MOVED: u32 = 127;

/// Where read gives it back behind its last byte.
pub const STEP_PIPE_UNLOCKING_END: u32 = 128;

/// Where they give it back as no byte can be moved.
pub const STEP_PIPE_UNLOCKING_TEST: u32 = 129;

/// Where they ask for the environment's id, to test whether the other end is closed.
pub const STEP_PIPE_TEST_IDENTIFYING: u32 = 130;

/// Where they read how often the environment has got a turn.
pub const STEP_PIPE_TEST_RUNS: u32 = 131;

/// Where they read how many bytes their own end has moved.
pub const STEP_PIPE_TEST_OWN: u32 = 132;

/// Where they read how many the other end has moved.
pub const STEP_PIPE_TEST_OTHER: u32 = 133;

/// Where they read the entry of their descriptor's page.
pub const STEP_PIPE_TEST_DESCRIPTOR: u32 = 134;

/// Where they read how often that is mapped.
pub const STEP_PIPE_TEST_DESCRIPTOR_COUNT: u32 = 135;

/// Where they read the entry of the pipe's page.
pub const STEP_PIPE_TEST_PIPE: u32 = 136;

/// Where they read how often that is mapped.
pub const STEP_PIPE_TEST_PIPE_COUNT: u32 = 137;

/// Where they read whether the environment has got another turn meanwhile.
pub const STEP_PIPE_TEST_RUNS_AGAIN: u32 = 138;

/// Where the other end is open, and they give up their turn.
pub const STEP_PIPE_TEST_PAUSING: u32 = 139;

/// Where stat takes the pipe's lock.
pub const STEP_PIPE_STAT_LOCKING: u32 = 140;

/// Where another has the lock, and stat gives up its turn.
pub const STEP_PIPE_STAT_PAUSING: u32 = 141;

/// Where stat reads how many bytes have been taken from the pipe.
pub const STEP_PIPE_STAT_FROM: u32 = 142;

/// Where stat reads how many have been put into it.
pub const STEP_PIPE_STAT_TO: u32 = 143;

/// Where stat gives the lock back.
pub const STEP_PIPE_STAT_UNLOCKING: u32 = 144;

/// Where read and write have tried in vain behind a test, and read again how often the environment has got a turn.
pub const STEP_PIPE_TEST_AGAIN: u32 = 145;

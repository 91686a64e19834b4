//! The way of a path through the directories of a disk.

ghost use Rattle.std.specs.Prelude.{◌≡◌, ◌<◌, ◌≤◌, ◌^◌, ◌&&◌, true};
ghost use Rattle.fs_jobs.specs.TreeBounds as bounds;
ghost use Rattle.fs_jobs.specs.TreeTests as tests;
ghost use Rattle.fs_walks.specs.WalkPlans as walks;

use fs_jobs::{
    Changed, DAMAGED, DIRECT_AT, FilePlace, INDIRECT_AT, Job, KIND_AT, NONE, SIZE_AT, SLASH, Seek,
    TreeAsk, TreeNext, TreeState, WalkPlace, change_on, is_data_block, is_good_count, refused,
    walk_on,
};
use fs_layout::{
    BLKFILES, BLKSIZE, FS_MAGIC, FTYPE_DIR, FTYPE_REG, MAXFILESIZE, MAXNAMELEN, MAXPATHLEN,
    NDIRECT, O_CREAT, O_EXCL, O_TRUNC, RECORDSIZE,
};
use jos_base::{E_BAD_PATH, E_FILE_EXISTS, E_INVAL, E_NO_DISK, E_NOT_FOUND};

/// Where the root's record stands.
const ROOT: u32 = BLKSIZE + 8;

/// The place of the record at hand.
fn record_at(seek: Seek, block: u32) -> u32
    requires { block < 2 ^ 16 }
    ensures { result ≡ walks.record_at seek block }
{
    BLKSIZE * block + RECORDSIZE * (seek.slot % BLKFILES)
}

/// Where the number of the block of the record at hand is read.
fn slot_number_at(seek: Seek) -> u32
    requires { seek.directory < 2 ^ 28 }
    ensures { result ≡ walks.slot_number_at seek }
{
    let i = seek.slot / BLKFILES;
    if i < NDIRECT {
        seek.directory + DIRECT_AT + 4 * i
    } else {
        seek.directory + INDIRECT_AT
    }
}

/// What is asked on the way.
pub fn walk_ask(place: WalkPlace) -> TreeAsk
    requires bounded { bounds.is_bounded_walk place ≡ true }
    ensures { result ≡ walks.walk_ask place }
{
    match place {
        WalkPlace::Path { at, .. } => TreeAsk::Request { at },
        WalkPlace::Magic => TreeAsk::Load { at: BLKSIZE },
        WalkPlace::Count => TreeAsk::Load { at: BLKSIZE + 4 },
        WalkPlace::RootKind => TreeAsk::Load { at: ROOT + KIND_AT },
        WalkPlace::Component { from, .. } => TreeAsk::Request { at: from },
        WalkPlace::DirectoryKind { directory, .. } => TreeAsk::Load {
            at: directory + KIND_AT,
        },
        WalkPlace::DirectorySize { directory, .. } => TreeAsk::Load {
            at: directory + SIZE_AT,
        },
        WalkPlace::Slot { seek } => TreeAsk::Load {
            at: slot_number_at(seek),
        },
        WalkPlace::SlotIndirect { seek, indirect } => TreeAsk::Load {
            at: BLKSIZE * indirect + 4 * (seek.slot / BLKFILES).saturating_sub(NDIRECT),
        },
        WalkPlace::NameByte { seek, block, k } => TreeAsk::LoadByte {
            at: record_at(seek, block) + k,
        },
        WalkPlace::PathByte { seek, k, .. } => TreeAsk::Request { at: seek.from + k },
        WalkPlace::Missing { at, .. } => TreeAsk::Request { at },
        WalkPlace::FoundKind { home } => TreeAsk::Load { at: home + KIND_AT },
    }
}

/// The record with this number is to be looked at, whose block is not known; behind the last there is no such name.
fn at_slot(state: TreeState, seek: Seek) -> TreeNext
    ensures { result ≡ walks.at_slot state seek }
{
    if seek.slots <= seek.slot {
        walk_on(
            state,
            WalkPlace::Missing {
                seek,
                at: seek.from,
                within: true,
            },
        )
    } else {
        walk_on(state, WalkPlace::Slot { seek })
    }
}

/// The record at hand is not the one; the next is looked at.
fn next_slot(state: TreeState, seek: Seek, block: u32) -> TreeNext
    requires { seek.slot < 2 ^ 20 }
    ensures { result ≡ walks.next_slot state seek block }
{
    let seek = Seek {
        slot: seek.slot + 1,
        ..seek
    };
    if seek.slot % BLKFILES == 0 || seek.slots <= seek.slot {
        at_slot(state, seek)
    } else {
        walk_on(state, WalkPlace::NameByte { seek, block, k: 0 })
    }
}

/// The number of the block of the record at hand was read.
fn at_block(state: TreeState, seek: Seek, block: u32) -> TreeNext
    requires { state.count < 2 ^ 16 }
    ensures { result ≡ walks.at_block state seek block }
{
    if is_data_block(state.count, block) {
        walk_on(state, WalkPlace::NameByte { seek, block, k: 0 })
    } else {
        refused(DAMAGED)
    }
}

/// The path leads to this record.
fn found(state: TreeState, home: u32) -> TreeNext
    ensures { result ≡ walks.found state home }
{
    let wants_new = match state.job {
        Job::Open { mode } => mode & O_CREAT == O_CREAT && mode & O_EXCL == O_EXCL,
        _ => false,
    };
    if wants_new {
        refused(E_FILE_EXISTS)
    } else {
        walk_on(state, WalkPlace::FoundKind { home })
    }
}

/// The last name of the path is missing in the directory.
fn missing(state: TreeState, seek: Seek) -> TreeNext
    requires { seek.slots < 2 ^ 20 }
    ensures { result ≡ walks.missing state seek }
{
    let creates = match state.job {
        Job::Open { mode } => mode & O_CREAT == O_CREAT,
        _ => false,
    };
    if !creates {
        return refused(E_NOT_FOUND);
    }
    let size = seek.slots * RECORDSIZE;
    let (slot, end) = if seek.empty == NONE {
        (seek.slots, size + BLKSIZE)
    } else {
        (seek.empty, size)
    };
    if MAXFILESIZE < end {
        return refused(E_NO_DISK);
    }
    let job = Job::Create {
        directory: seek.directory,
        slot,
        from: seek.from,
    };
    change_on(
        state,
        job,
        changed_to(seek.directory, size, end),
        FilePlace::Indirect,
    )
}

/// A record of this size, which is to have another.
fn changed_to(home: u32, size: u32, end: u32) -> Changed
    ensures { result ≡ walks.changed_to home size end }
{
    Changed {
        home,
        size,
        indirect: 0,
        end,
    }
}

/// The disk is one: the path is walked, or the job turns to its record.
fn begun(state: TreeState) -> TreeNext
    ensures { result ≡ walks.begun state state.job }
{
    match state.job {
        Job::Open { .. } | Job::Find => walk_on(
            state,
            WalkPlace::Component {
                from: 0,
                home: ROOT,
            },
        ),
        Job::Remove { home }
        | Job::Read { home, .. }
        | Job::Write { home, .. }
        | Job::SetSize { home, .. }
        | Job::Stat { home }
        | Job::Size { home }
        | Job::Create {
            directory: home,
            ..
        } => change_on(state, state.job, changed_to(home, 0, 0), FilePlace::Kind),
    }
}

/// A file is opened, or found: then its record's place is told.
fn opened(state: TreeState, home: u32) -> TreeNext
    ensures { result ≡ walks.opened state state.job home }
{
    match state.job {
        Job::Open { mode } => {
            if mode & O_TRUNC == O_TRUNC {
                let job = Job::SetSize { home, size: 0 };
                change_on(state, job, changed_to(home, 0, 0), FilePlace::SizeNow)
            } else {
                TreeNext::Answer(0)
            }
        }
        _ => TreeNext::Answer(home),
    }
}

/// The record at hand is known to be the first that is empty, if none was before.
fn first_empty(seek: Seek) -> Seek
    ensures { result ≡ walks.first_empty seek }
{
    if seek.empty == NONE {
        Seek {
            empty: seek.slot,
            ..seek
        }
    } else {
        seek
    }
}

/// Where the way goes on by the reply.
pub fn walk_next(state: TreeState, place: WalkPlace, word: u32) -> TreeNext
    requires count { state.count < 2 ^ 16 }
    requires bounded { bounds.is_bounded_walk place ≡ true }
    ensures { result ≡ walks.walk_next state place word }
{
    let byte = word % 256;
    match place {
        WalkPlace::Path { at, run } => {
            let run = if byte == SLASH { 0 } else { run + 1 };
            if byte == 0 {
                walk_on(state, WalkPlace::Magic)
            } else if MAXNAMELEN <= run || MAXPATHLEN <= at + 1 {
                refused(E_BAD_PATH)
            } else {
                walk_on(state, WalkPlace::Path { at: at + 1, run })
            }
        }
        WalkPlace::Magic => {
            if word == FS_MAGIC {
                walk_on(state, WalkPlace::Count)
            } else {
                refused(DAMAGED)
            }
        }
        WalkPlace::Count => {
            if is_good_count(word) {
                walk_on(
                    TreeState {
                        count: word,
                        ..state
                    },
                    WalkPlace::RootKind,
                )
            } else {
                refused(DAMAGED)
            }
        }
        WalkPlace::RootKind => {
            if word == FTYPE_DIR {
                begun(state)
            } else {
                refused(DAMAGED)
            }
        }
        WalkPlace::Component { from, home } => match byte {
            0 => found(state, home),
            SLASH => walk_on(
                state,
                WalkPlace::Component {
                    from: from + 1,
                    home,
                },
            ),
            _ => walk_on(
                state,
                WalkPlace::DirectoryKind {
                    from,
                    directory: home,
                },
            ),
        },
        WalkPlace::DirectoryKind { from, directory } => match word {
            FTYPE_DIR => walk_on(state, WalkPlace::DirectorySize { from, directory }),
            FTYPE_REG => refused(E_NOT_FOUND),
            _ => refused(DAMAGED),
        },
        WalkPlace::DirectorySize { from, directory } => {
            if word % BLKSIZE == 0 && word <= MAXFILESIZE {
                let seek = Seek {
                    from,
                    directory,
                    slots: word / RECORDSIZE,
                    slot: 0,
                    empty: NONE,
                };
                at_slot(state, seek)
            } else {
                refused(DAMAGED)
            }
        }
        WalkPlace::Slot { seek } => {
            if seek.slot / BLKFILES < NDIRECT {
                at_block(state, seek, word)
            } else if is_data_block(state.count, word) {
                let indirect = word;
                walk_on(state, WalkPlace::SlotIndirect { seek, indirect })
            } else {
                refused(DAMAGED)
            }
        }
        WalkPlace::SlotIndirect { seek, .. } => at_block(state, seek, word),
        WalkPlace::NameByte { seek, block, k } => {
            if k == 0 && byte == 0 {
                next_slot(state, first_empty(seek), block)
            } else {
                walk_on(
                    state,
                    WalkPlace::PathByte {
                        seek,
                        block,
                        k,
                        byte,
                    },
                )
            }
        }
        WalkPlace::PathByte {
            seek,
            block,
            k,
            byte: has,
        } => {
            if byte == 0 || byte == SLASH {
                if has == 0 {
                    let from = seek.from + k;
                    let home = record_at(seek, block);
                    walk_on(state, WalkPlace::Component { from, home })
                } else {
                    next_slot(state, seek, block)
                }
            } else if byte == has {
                if MAXNAMELEN <= k + 1 {
                    refused(DAMAGED)
                } else {
                    walk_on(
                        state,
                        WalkPlace::NameByte {
                            seek,
                            block,
                            k: k + 1,
                        },
                    )
                }
            } else {
                next_slot(state, seek, block)
            }
        }
        WalkPlace::Missing { seek, at, within } => match byte {
            0 => missing(state, seek),
            SLASH => walk_on(
                state,
                WalkPlace::Missing {
                    seek,
                    at: at + 1,
                    within: false,
                },
            ),
            _ => {
                if within {
                    walk_on(
                        state,
                        WalkPlace::Missing {
                            seek,
                            at: at + 1,
                            within: true,
                        },
                    )
                } else {
                    refused(E_NOT_FOUND)
                }
            }
        },
        WalkPlace::FoundKind { home } => match word {
            FTYPE_DIR => refused(E_INVAL),
            FTYPE_REG => opened(state, home),
            _ => refused(DAMAGED),
        },
    }
}

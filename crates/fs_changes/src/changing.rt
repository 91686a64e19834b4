//! A file or a directory whose blocks are read or change.

ghost use Rattle.std.specs.Prelude.{◌≡◌, ◌<◌, ◌≤◌, ◌^◌, true, IfSome};
ghost use Rattle.fs_layout.specs.FileTree as trees;
ghost use Rattle.fs_changes.specs.ChangePlans as changes;
ghost use Rattle.fs_jobs.specs.TreeBounds as bounds;

use fs_jobs::{
    Change, Changed, DAMAGED, DIRECT_AT, FilePlace, INDIRECT_AT, Job, KIND_AT, SIZE_AT, SLASH,
    TreeAsk, TreeNext, TreeState, Wanted, change_on, first_data_block, is_data_block, refused,
};
use fs_layout::{
    BLKFILES, BLKSIZE, FTYPE_DIR, FTYPE_REG, MAXFILESIZE, MAXNAMELEN, NDIRECT, NINDIRECT,
    RECORDSIZE,
};
use jos_base::{E_INVAL, E_NO_DISK};

/// Where the bytes of a write begin in the request page.
const WRITE_BYTES: u32 = 8;

/// The bytes that stat tells: the first of a record, up to its kind.
const STAT_BYTES: u32 = MAXNAMELEN + 8;

/// The words of a record behind its name.
const RECORD_WORDS: u32 = (RECORDSIZE - MAXNAMELEN) / 4;

/// The bits of a word of the bitmap.
const WORD_BITS: u32 = 32;

/// How many blocks so many bytes take.
fn blocks_of(size: u32) -> u32
    ensures is { result ≡ trees.blocks_of size }
    ensures few { result ≤ 2 ^ 20 }
{
    size / BLKSIZE + (if size % BLKSIZE == 0 { 0 } else { 1 })
}

/// Whether they need an indirect block.
fn needs_indirect(size: u32) -> bool
    ensures { result ≡ trees.needs_indirect size }
{
    NDIRECT < blocks_of(size)
}

/// The blocks that so many bytes take, with an indirect block or without.
fn blocks_taken(size: u32, indirect: bool) -> u32
    ensures { result ≡ trees.blocks_taken size indirect }
{
    if indirect {
        blocks_of(size) + 1
    } else {
        blocks_of(size)
    }
}

/// How many bytes are read.
fn bytes_read(job: Job, size: u32) -> u32
    ensures { result ≡ changes.bytes_read job size }
{
    match job {
        Job::Read { at, count, .. } => count.min(BLKSIZE).min(size.saturating_sub(at)),
        _ => 0,
    }
}

/// How many are written.
fn bytes_written(job: Job) -> u32
    ensures { result ≡ changes.bytes_written job }
{
    match job {
        Job::Write { count, .. } => count,
        _ => 0,
    }
}

/// From which byte on a job reads or writes.
fn first_byte(job: Job) -> u32
    requires { bounds.is_bounded_job job ≡ true }
    ensures is { result ≡ changes.first_byte job }
    ensures below { result < 2 ^ 31 }
{
    match job {
        Job::Read { at, .. } | Job::Write { at, .. } => at,
        _ => 0,
    }
}

/// The place on the disk of a byte of a block, told by its place in the file.
fn byte_at_block(block: u32, at: u32) -> u32
    requires { block < 2 ^ 16 }
    ensures { result ≡ changes.byte_at_block block at }
{
    BLKSIZE * block + at % BLKSIZE
}

/// The place of the bitmap's word.
fn bitmap_word(word: u32) -> u32
    requires { word < 2 ^ 20 }
    ensures { result ≡ changes.bitmap_word word }
{
    2 * BLKSIZE + 4 * word
}

/// The place of the number of one of the blocks.
fn number_at(changed: Changed, i: u32) -> u32
    requires bounded { bounds.is_bounded_changed changed ≡ true }
    requires few { i ≤ 2 ^ 20 }
    ensures { result ≡ changes.number_at changed i }
{
    if i < NDIRECT {
        changed.home + DIRECT_AT + 4 * i
    } else {
        BLKSIZE * changed.indirect + 4 * (i - NDIRECT)
    }
}

/// The end of what is filled with zeros in the last block.
fn fill_end(changed: Changed) -> u32
    requires { changed.size < 2 ^ 28 }
    ensures { result ≡ changes.fill_end changed }
{
    changed.end.min(BLKSIZE * blocks_of(changed.size))
}

/// Whether a block is taken, or given back.
fn takes(change: Change) -> bool
    ensures { result ≡ changes.takes change }
{
    match change {
        Change::TakeBlock | Change::TakeIndirect => true,
        Change::GiveBlock | Change::GiveIndirect => false,
    }
}

/// What is asked.
pub fn change_ask(job: Job, changed: Changed, place: FilePlace) -> TreeAsk
    requires job { bounds.is_bounded_job job ≡ true }
    requires changed { bounds.is_bounded_changed changed ≡ true }
    requires place { bounds.is_bounded_file place ≡ true }
    ensures { result ≡ changes.change_ask job changed place }
{
    let home = changed.home;
    match place {
        FilePlace::Kind => TreeAsk::Load { at: home + KIND_AT },
        FilePlace::Size | FilePlace::SizeNow => TreeAsk::Load { at: home + SIZE_AT },
        FilePlace::Indirect | FilePlace::IndirectNow => TreeAsk::Load {
            at: home + INDIRECT_AT,
        },
        FilePlace::Free { word, .. } | FilePlace::Lowest { word, .. } => TreeAsk::Load {
            at: bitmap_word(word),
        },
        FilePlace::Number { i, .. } => {
            if i < NDIRECT {
                TreeAsk::Load {
                    at: home + DIRECT_AT + 4 * i,
                }
            } else {
                TreeAsk::Load {
                    at: home + INDIRECT_AT,
                }
            }
        }
        FilePlace::NumberIndirect { i, .. } => TreeAsk::Load {
            at: number_at(changed, i),
        },
        FilePlace::Reading { block, k } => TreeAsk::LoadByte {
            at: byte_at_block(block, first_byte(job) + k),
        },
        FilePlace::Handing { k, byte, .. } => TreeAsk::HandBack { at: k, byte },
        FilePlace::Gathering { k, .. } => TreeAsk::Request {
            at: WRITE_BYTES + k,
        },
        FilePlace::Writing { block, k, byte } => TreeAsk::StoreByte {
            at: byte_at_block(block, first_byte(job) + k),
            byte,
        },
        FilePlace::Filling { block, at } => TreeAsk::StoreByte {
            at: byte_at_block(block, at),
            byte: 0,
        },
        FilePlace::PutSize { size } => TreeAsk::Store {
            at: home + SIZE_AT,
            word: size,
        },
        FilePlace::Mark { block, .. } => TreeAsk::LoadByte {
            at: 2 * BLKSIZE + block / 8,
        },
        FilePlace::PutMark { block, byte, .. } => TreeAsk::StoreByte {
            at: 2 * BLKSIZE + block / 8,
            byte,
        },
        FilePlace::Zero { block, word, .. } => TreeAsk::Store {
            at: BLKSIZE * block + 4 * word,
            word: 0,
        },
        FilePlace::PutLess { .. } => TreeAsk::Store {
            at: home + SIZE_AT,
            word: BLKSIZE * blocks_of(changed.size).saturating_sub(1),
        },
        FilePlace::PutNumber { change, block } => {
            if takes(change) {
                TreeAsk::Store {
                    at: number_at(changed, blocks_of(changed.size)),
                    word: block,
                }
            } else {
                TreeAsk::Store {
                    at: number_at(changed, blocks_of(changed.size).saturating_sub(1)),
                    word: 0,
                }
            }
        }
        FilePlace::PutIndirect { change, block } => {
            let at = home + INDIRECT_AT;
            if takes(change) {
                TreeAsk::Store { at, word: block }
            } else {
                TreeAsk::Store { at, word: 0 }
            }
        }
        FilePlace::PutMore => TreeAsk::Store {
            at: home + SIZE_AT,
            word: changed.end.min(BLKSIZE * (blocks_of(changed.size) + 1)),
        },
        FilePlace::MakeName { from, k, .. } => TreeAsk::Request { at: from + k },
        FilePlace::PutName { new, k, byte, .. } => TreeAsk::StoreByte { at: new + k, byte },
        FilePlace::MakeWord { new, word, .. } => TreeAsk::Store {
            at: new + MAXNAMELEN + 4 * word,
            word: 0,
        },
        FilePlace::MakeFirst { from, .. } => TreeAsk::Request { at: from },
        FilePlace::PutFirst { new, byte } => TreeAsk::StoreByte { at: new, byte },
        FilePlace::Empty => TreeAsk::StoreByte { at: home, byte: 0 },
        FilePlace::StatByte { k, .. } => TreeAsk::LoadByte { at: home + k },
        FilePlace::HandStat { k, byte, .. } => TreeAsk::HandBack { at: k, byte },
    }
}

/// The job goes on at a place.
fn go_on(state: TreeState, changed: Changed, place: FilePlace) -> TreeNext
    ensures { result ≡ changes.go_on state changed place }
{
    change_on(state, state.job, changed, place)
}

/// The record has the size that it is to have.
fn settled(state: TreeState, changed: Changed) -> TreeNext
    ensures { result ≡ changes.settled state state.job changed }
{
    match state.job {
        Job::Remove { .. } => go_on(state, changed, FilePlace::Empty),
        Job::Write { at, .. } => go_on(
            state,
            changed,
            FilePlace::Number {
                i: at / BLKSIZE,
                wanted: Wanted::Writing { k: 0 },
            },
        ),
        Job::Create { slot, from, .. } => go_on(
            state,
            changed,
            FilePlace::Number {
                i: slot / BLKFILES,
                wanted: Wanted::Making { slot, from },
            },
        ),
        _ => TreeNext::Answer(0),
    }
}

/// The size is known, before anything is decided.
fn sized(state: TreeState, changed: Changed) -> TreeNext
    ensures { result ≡ changes.sized state state.job changed }
{
    let size = changed.size;
    match state.job {
        Job::Stat { .. } => go_on(state, changed, FilePlace::StatByte { k: 0, ended: false }),
        Job::Size { .. } => TreeNext::Answer(size),
        Job::Read { at, .. } => {
            if bytes_read(state.job, size) == 0 {
                TreeNext::Answer(0)
            } else {
                go_on(
                    state,
                    changed,
                    FilePlace::Number {
                        i: at / BLKSIZE,
                        wanted: Wanted::Reading { k: 0 },
                    },
                )
            }
        }
        Job::Write { at, count, .. } => {
            let end = at.saturating_add(count);
            if count == 0 {
                TreeNext::Answer(0)
            } else if MAXFILESIZE < end {
                refused(E_NO_DISK)
            } else if end <= size {
                settled(state, changed)
            } else {
                go_on(state, Changed { end, ..changed }, FilePlace::Indirect)
            }
        }
        Job::SetSize { size: end, .. } => {
            if MAXFILESIZE < end {
                refused(E_NO_DISK)
            } else {
                go_on(state, Changed { end, ..changed }, FilePlace::Indirect)
            }
        }
        Job::Remove { .. } => go_on(state, Changed { end: 0, ..changed }, FilePlace::SizeNow),
        Job::Open { .. } | Job::Find | Job::Create { .. } => refused(E_INVAL),
    }
}

/// Whether the indirect block goes where it is not needed.
fn gives_back(job: Job) -> bool
    ensures { result ≡ changes.gives_back job }
{
    match job {
        Job::SetSize { .. } | Job::Remove { .. } => true,
        _ => false,
    }
}

/// How many blocks more the record comes to hold.
fn more_blocks(job: Job, changed: Changed) -> u32
    ensures { result ≡ changes.more_blocks job changed }
{
    let has = changed.indirect != 0;
    let keeps = (!gives_back(job) && has) || needs_indirect(changed.end);
    blocks_taken(changed.end, keeps).saturating_sub(blocks_taken(changed.size, has))
}

/// Whether a bit of a word of the bitmap tells of a free block below the count.
fn is_free_bit(count: u32, word: u32, bits: u32, k: u32) -> bool
    requires word { word < 2 ^ 20 }
    requires bit { k < 32 }
    ensures { result ≡ changes.is_free_bit count word bits k }
{
    (bits >> k) % 2 == 1 && WORD_BITS * word + k < count
}

/// How many bits of the word do.
fn free_in_word(count: u32, word: u32, bits: u32) -> u32
    requires { word < 2 ^ 20 }
    ensures is { result ≡ changes.free_in_word count word bits }
    ensures few { result ≤ 32 }
{
    let mut free = 0;
    for k in 0..WORD_BITS {
        if is_free_bit(count, word, bits, k) {
            free += 1;
        }
    }
    free
}

/// The lowest bit of the word that tells of a free data block.
fn lowest_in_word(count: u32, word: u32, bits: u32) -> Option<u32>
    requires count { count < 2 ^ 16 }
    requires word { word < 2 ^ 20 }
    ensures is { result ≡ changes.lowest_in_word count word bits }
    ensures bit { IfSome result (λ k. k < 32) }
{
    let first = first_data_block(count);
    for k in 0..WORD_BITS {
        if is_free_bit(count, word, bits, k) && first <= WORD_BITS * word + k {
            return Some(k);
        }
    }
    None
}

/// The next change towards the size that the record is to have, by the size and the indirect block that it has now.
fn next_change(state: TreeState, changed: Changed) -> TreeNext
    requires { changed.size < 2 ^ 28 }
    ensures { result ≡ changes.next_change state changed }
{
    let (size, end) = (changed.size, changed.end);
    let (has, wants) = (blocks_of(size), blocks_of(end));
    let gives = gives_back(state.job);
    if gives && wants < has {
        go_on(
            state,
            changed,
            FilePlace::Number {
                i: has - 1,
                wanted: Wanted::Giving,
            },
        )
    } else if gives && !needs_indirect(end) && changed.indirect != 0 {
        go_on(
            state,
            changed,
            FilePlace::PutIndirect {
                change: Change::GiveIndirect,
                block: changed.indirect,
            },
        )
    } else if gives && end < size {
        go_on(state, changed, FilePlace::PutSize { size: end })
    } else if size < fill_end(changed) {
        go_on(
            state,
            changed,
            FilePlace::Number {
                i: size / BLKSIZE,
                wanted: Wanted::Filling { at: size },
            },
        )
    } else if has < wants {
        let change = if NDIRECT <= has && changed.indirect == 0 {
            Change::TakeIndirect
        } else {
            Change::TakeBlock
        };
        go_on(state, changed, FilePlace::Lowest { change, word: 0 })
    } else {
        settled(state, changed)
    }
}

/// The place where a block is used whose number was read.
fn place_for(block: u32, wanted: Wanted) -> FilePlace
    requires { block < 2 ^ 16 }
    ensures { result ≡ changes.place_for block wanted }
{
    match wanted {
        Wanted::Reading { k } => FilePlace::Reading { block, k },
        Wanted::Writing { k } => FilePlace::Gathering { block, k },
        Wanted::Filling { at } => FilePlace::Filling { block, at },
        Wanted::Giving => FilePlace::PutLess { block },
        Wanted::Making { slot, from } => FilePlace::MakeName {
            new: BLKSIZE * block + RECORDSIZE * (slot % BLKFILES),
            from,
            k: 1,
        },
    }
}

/// The number of a block was read.
fn at_number(state: TreeState, changed: Changed, wanted: Wanted, block: u32) -> TreeNext
    requires { state.count < 2 ^ 16 }
    ensures { result ≡ changes.at_number state changed wanted block }
{
    if is_data_block(state.count, block) {
        go_on(state, changed, place_for(block, wanted))
    } else {
        refused(DAMAGED)
    }
}

/// The byte behind one that was read or written, in its block or in the next.
fn next_byte(
    state: TreeState,
    changed: Changed,
    k: u32,
    same: FilePlace,
    wanted: Wanted,
) -> TreeNext
    requires job { bounds.is_bounded_job state.job ≡ true }
    requires byte { k ≤ 2 ^ 28 }
    ensures { result ≡ changes.next_byte state changed k same wanted }
{
    let at = first_byte(state.job) + k;
    if at % BLKSIZE == 0 {
        go_on(
            state,
            changed,
            FilePlace::Number {
                i: at / BLKSIZE,
                wanted,
            },
        )
    } else {
        go_on(state, changed, same)
    }
}

/// A free block is looked for in a word of the bitmap. Where there is none in all of it, the disk has a fault that nobody has looked for.
fn found_free(state: TreeState, changed: Changed, change: Change, word: u32, bits: u32) -> TreeNext
    requires count { state.count < 2 ^ 16 }
    requires word { word < 2 ^ 20 }
    ensures { result ≡ changes.found_free state changed change word (changes.lowest_in_word state.count word bits) }
{
    match lowest_in_word(state.count, word, bits) {
        Some(k) => {
            let block = WORD_BITS * word + k;
            go_on(state, changed, FilePlace::Mark { change, block })
        }
        None => {
            if WORD_BITS * (word + 1) < state.count {
                let word = word + 1;
                go_on(state, changed, FilePlace::Lowest { change, word })
            } else {
                settled(state, changed)
            }
        }
    }
}

/// What a byte of the bitmap becomes.
fn marked_byte(change: Change, block: u32, byte: u32) -> u32
    requires { byte < 256 }
    ensures { result ≡ changes.marked_byte change block byte }
{
    let bit = 1 << (block % 8);
    let is_set = (byte >> (block % 8)) % 2 == 1;
    if takes(change) {
        if is_set { byte - bit } else { byte }
    } else if is_set {
        byte
    } else {
        byte + bit
    }
}

/// Where the job goes on by the reply.
pub fn change_next(state: TreeState, changed: Changed, place: FilePlace, word: u32) -> TreeNext
    requires count { state.count < 2 ^ 16 }
    requires job { bounds.is_bounded_job state.job ≡ true }
    requires changed { bounds.is_bounded_changed changed ≡ true }
    requires place { bounds.is_bounded_file place ≡ true }
    ensures { result ≡ changes.change_next state changed place word }
{
    let byte = word % 256;
    match place {
        FilePlace::Kind => match word {
            FTYPE_DIR => refused(E_INVAL),
            FTYPE_REG => go_on(state, changed, FilePlace::Size),
            _ => refused(DAMAGED),
        },
        FilePlace::Size => {
            if MAXFILESIZE < word {
                refused(DAMAGED)
            } else {
                sized(
                    state,
                    Changed {
                        size: word,
                        ..changed
                    },
                )
            }
        }
        FilePlace::Indirect => {
            if word != 0 && !is_data_block(state.count, word) {
                return refused(DAMAGED);
            }
            let now = Changed {
                indirect: word,
                ..changed
            };
            if more_blocks(state.job, now) == 0 {
                go_on(state, now, FilePlace::SizeNow)
            } else {
                go_on(state, now, FilePlace::Free { word: 0, free: 0 })
            }
        }
        FilePlace::Free { word: n, free } => {
            let more = free + free_in_word(state.count, n, word);
            if WORD_BITS * (n + 1) < state.count {
                go_on(
                    state,
                    changed,
                    FilePlace::Free {
                        word: n + 1,
                        free: more,
                    },
                )
            } else if more_blocks(state.job, changed) <= more {
                go_on(state, changed, FilePlace::SizeNow)
            } else {
                refused(E_NO_DISK)
            }
        }
        FilePlace::SizeNow => {
            if MAXFILESIZE < word {
                refused(DAMAGED)
            } else {
                go_on(
                    state,
                    Changed {
                        size: word,
                        ..changed
                    },
                    FilePlace::IndirectNow,
                )
            }
        }
        FilePlace::IndirectNow => {
            if word != 0 && !is_data_block(state.count, word) {
                refused(DAMAGED)
            } else {
                next_change(
                    state,
                    Changed {
                        indirect: word,
                        ..changed
                    },
                )
            }
        }
        FilePlace::Number { i, wanted } => {
            if i < NDIRECT {
                at_number(state, changed, wanted, word)
            } else if is_data_block(state.count, word) {
                go_on(
                    state,
                    Changed {
                        indirect: word,
                        ..changed
                    },
                    FilePlace::NumberIndirect { i, wanted },
                )
            } else {
                refused(DAMAGED)
            }
        }
        FilePlace::NumberIndirect { wanted, .. } => at_number(state, changed, wanted, word),
        FilePlace::Reading { block, k } => {
            go_on(state, changed, FilePlace::Handing { block, k, byte })
        }
        FilePlace::Handing { block, k, .. } => {
            let count = bytes_read(state.job, changed.size);
            let k = k + 1;
            if count <= k {
                TreeNext::Answer(count)
            } else {
                let same = FilePlace::Reading { block, k };
                next_byte(state, changed, k, same, Wanted::Reading { k })
            }
        }
        FilePlace::Gathering { block, k } => {
            go_on(state, changed, FilePlace::Writing { block, k, byte })
        }
        FilePlace::Writing { block, k, .. } => {
            let count = bytes_written(state.job);
            let k = k + 1;
            if count <= k {
                TreeNext::Answer(count)
            } else {
                let same = FilePlace::Gathering { block, k };
                next_byte(state, changed, k, same, Wanted::Writing { k })
            }
        }
        FilePlace::Filling { block, at } => {
            let end = fill_end(changed);
            let at = at + 1;
            if end <= at {
                go_on(state, changed, FilePlace::PutSize { size: end })
            } else {
                go_on(state, changed, FilePlace::Filling { block, at })
            }
        }
        FilePlace::PutSize { .. } | FilePlace::PutMore => {
            go_on(state, changed, FilePlace::SizeNow)
        }
        FilePlace::Lowest { change, word: n } => found_free(state, changed, change, n, word),
        FilePlace::Mark { change, block } => {
            let byte = marked_byte(change, block, byte);
            go_on(
                state,
                changed,
                FilePlace::PutMark {
                    change,
                    block,
                    byte,
                },
            )
        }
        FilePlace::PutMark { change, block, .. } => {
            if takes(change) {
                let word = 0;
                go_on(
                    state,
                    changed,
                    FilePlace::Zero {
                        change,
                        block,
                        word,
                    },
                )
            } else {
                go_on(state, changed, FilePlace::SizeNow)
            }
        }
        FilePlace::Zero {
            change,
            block,
            word,
        } => {
            let word = word + 1;
            if word < NINDIRECT {
                go_on(
                    state,
                    changed,
                    FilePlace::Zero {
                        change,
                        block,
                        word,
                    },
                )
            } else {
                match change {
                    Change::TakeIndirect => {
                        go_on(state, changed, FilePlace::PutIndirect { change, block })
                    }
                    _ => go_on(state, changed, FilePlace::PutNumber { change, block }),
                }
            }
        }
        FilePlace::PutLess { block } => {
            let change = Change::GiveBlock;
            go_on(state, changed, FilePlace::PutNumber { change, block })
        }
        FilePlace::PutNumber { change, block } => {
            if takes(change) {
                go_on(state, changed, FilePlace::PutMore)
            } else {
                go_on(state, changed, FilePlace::Mark { change, block })
            }
        }
        FilePlace::PutIndirect { change, block } => {
            if takes(change) {
                go_on(state, changed, FilePlace::SizeNow)
            } else {
                go_on(state, changed, FilePlace::Mark { change, block })
            }
        }
        FilePlace::MakeName { new, from, k } => {
            let ended = byte == 0 || byte == SLASH;
            let byte = if ended { 0 } else { byte };
            go_on(
                state,
                changed,
                FilePlace::PutName {
                    new,
                    from,
                    k,
                    byte,
                    ended,
                },
            )
        }
        FilePlace::PutName {
            new,
            from,
            k,
            ended,
            ..
        } => {
            let k = k + 1;
            if MAXNAMELEN <= k {
                go_on(state, changed, FilePlace::MakeWord { new, from, word: 0 })
            } else if ended {
                go_on(
                    state,
                    changed,
                    FilePlace::PutName {
                        new,
                        from,
                        k,
                        byte: 0,
                        ended: true,
                    },
                )
            } else {
                go_on(state, changed, FilePlace::MakeName { new, from, k })
            }
        }
        FilePlace::MakeWord { new, from, word } => {
            let word = word + 1;
            if word < RECORD_WORDS {
                go_on(state, changed, FilePlace::MakeWord { new, from, word })
            } else {
                go_on(state, changed, FilePlace::MakeFirst { new, from })
            }
        }
        FilePlace::MakeFirst { new, .. } => {
            go_on(state, changed, FilePlace::PutFirst { new, byte })
        }
        FilePlace::PutFirst { .. } | FilePlace::Empty => TreeNext::Answer(0),
        FilePlace::StatByte { k, ended } => {
            let ended = ended || byte == 0;
            let byte = if ended && k < MAXNAMELEN { 0 } else { byte };
            go_on(state, changed, FilePlace::HandStat { k, byte, ended })
        }
        FilePlace::HandStat { k, ended, .. } => {
            let k = k + 1;
            if STAT_BYTES <= k {
                TreeNext::Answer(0)
            } else {
                go_on(state, changed, FilePlace::StatByte { k, ended })
            }
        }
    }
}

//! What the cache asks at a place, and where it goes by the reply.

ghost use Rattle.std.specs.Prelude.{◌≡◌, ◌*◌, ◌<◌};
ghost use Rattle.lib_os.specs.declared.numbers.TheConstants.{CACHE_BLOCKS};
ghost use Rattle.lib_os.specs.BlockCache.{block_address};
ghost use Rattle.fs_blocks.specs.CachePlans as plans;

use crate::place::{CachePlace, CacheState};
use fs_layout::BLKSIZE;
use jos_base::{
    NPTENTRIES, PGSIZE, PTE_A, PTE_D, PTE_P, PTE_U, PTE_W, SYS_PAGE_ALLOC, SYS_PAGE_MAP,
    SYS_PAGE_UNMAP, UVPT,
};
use lib_os::{CACHE_BLOCKS, DISKMAP, UVPD};

/// The bits of a block's page: it may be read and written.
const PAGE_PERM: u32 = PTE_P + PTE_U + PTE_W;

/// What is asked of the kernel at a place. Each is one call.
#[derive(Clone, Copy)]
pub enum CacheAsk {
    /// The word at an address that is a multiple of four.
    Load { va: u32 },
    /// The system call with a number, given these words.
    System { number: u32, args: [u32; 5] },
    /// The block of the disk is read into its page.
    ReadBlock { block: u32 },
    /// The page of the block is written to the disk.
    WriteBlock { block: u32 },
}

/// What a step tells.
#[derive(Clone, Copy)]
pub enum Told {
    /// There is more to do.
    Going,
    /// No page is to be had, and none can be given up.
    NoPage,
    /// No page is dirty.
    Clean,
}

/// Where the cache stands after a step, and what the step tells.
#[derive(Clone, Copy)]
pub struct CacheNext {
    pub state: CacheState,
    pub told: Told,
}

/// The block's number, by a word that may hold anything.
fn block_of(word: u32) -> u32
    ensures is { result ≡ plans.block_of word }
    ensures below { result < CACHE_BLOCKS }
{
    word % CACHE_BLOCKS
}

/// Where the page of a block lies.
pub fn address_of(block: u32) -> u32
    ensures { result ≡ block_address (plans.block_of block) }
{
    DISKMAP + BLKSIZE as u32 * block_of(block)
}

/// The number of the block's page.
fn page_of(block: u32) -> u32
    ensures { result ≡ plans.page_of block }
{
    DISKMAP / PGSIZE + block_of(block)
}

/// Asks whether there is a table for the block's page.
fn ask_region(block: u32) -> CacheAsk
    ensures { result ≡ plans.ask_region block }
{
    CacheAsk::Load {
        va: UVPD + 4 * (page_of(block) / NPTENTRIES),
    }
}

/// Asks for the entry of the block's page.
fn ask_entry(block: u32) -> CacheAsk
    ensures { result ≡ plans.ask_entry block }
{
    CacheAsk::Load {
        va: UVPT + 4 * page_of(block),
    }
}

/// Asks that a page is taken for a block.
fn ask_page(block: u32) -> CacheAsk
    ensures { result ≡ plans.ask_page block }
{
    CacheAsk::System {
        number: SYS_PAGE_ALLOC,
        args: [0, address_of(block), PAGE_PERM, 0, 0],
    }
}

/// Asks that the page of one block is mapped where another has its page.
fn ask_map(from: u32, to: u32) -> CacheAsk
    ensures { result ≡ plans.ask_map from to }
{
    CacheAsk::System {
        number: SYS_PAGE_MAP,
        args: [0, address_of(from), 0, address_of(to), PAGE_PERM],
    }
}

/// Asks that a block's page is taken away.
fn ask_unmap(block: u32) -> CacheAsk
    ensures { result ≡ plans.ask_unmap block }
{
    CacheAsk::System {
        number: SYS_PAGE_UNMAP,
        args: [0, address_of(block), 0, 0, 0],
    }
}

/// What the cache asks where it stands. Where nothing is under way it asks as for the first block's region.
pub fn ask_at(state: CacheState) -> CacheAsk
    ensures asks { result ≡ plans.ask_at state }
    ensures own { plans.IsOwnAsk result }
{
    let hand = state.hand;
    match state.place {
        CachePlace::Resting => ask_region(0),
        CachePlace::Found { block } => ask_region(block),
        CachePlace::LookingRegion { block } => ask_region(block),
        CachePlace::LookingPage { block } => ask_entry(block),
        CachePlace::Taking { block } => ask_page(block),
        CachePlace::Filling { block } => CacheAsk::ReadBlock {
            block: block_of(block),
        },
        CachePlace::Settling { block } => ask_map(block, block),
        CachePlace::HandRegion { .. } => ask_region(hand),
        CachePlace::HandPage { .. } => ask_entry(hand),
        CachePlace::WritingBack { .. } => CacheAsk::WriteBlock {
            block: block_of(hand),
        },
        CachePlace::Passing { .. } => ask_map(hand, hand),
        CachePlace::Moving { block } => ask_map(hand, block),
        CachePlace::Leaving { .. } => ask_unmap(hand),
        CachePlace::Freeing { .. } => ask_unmap(hand),
        CachePlace::TakingLast { block } => ask_page(block),
        CachePlace::FlushRegion { at } => ask_region(at),
        CachePlace::FlushPage { at } => ask_entry(at),
        CachePlace::FlushWriting { at } => CacheAsk::WriteBlock {
            block: block_of(at),
        },
        CachePlace::FlushSettling { at } => ask_map(at, at),
    }
}

/// Whether an entry's word says that a page, or a table, is there.
fn is_there(word: u32) -> bool
    ensures { result ≡ plans.is_there word }
{
    word & PTE_P == PTE_P
}

/// Whether it says that the page was written since D was cleared.
fn is_written(word: u32) -> bool
    ensures { result ≡ plans.is_written word }
{
    word & PTE_D == PTE_D
}

/// Whether it says that the page was accessed since A was cleared.
fn is_used(word: u32) -> bool
    ensures { result ≡ plans.is_used word }
{
    word & PTE_A == PTE_A
}

/// How many blocks there are from one on to the end of its region.
fn rest_of_region(block: u32) -> u32
    ensures { result ≡ plans.rest_of_region block }
{
    NPTENTRIES - block_of(block) % NPTENTRIES
}

/// The block that is so many behind another, in the round.
fn further(block: u32, blocks: u32) -> u32
    requires { blocks < 2 * CACHE_BLOCKS }
    ensures { result ≡ plans.further block blocks }
{
    block_of(block_of(block) + blocks)
}

/// There is more to do.
fn go_on(place: CachePlace, hand: u32) -> CacheNext
    ensures { result ≡ plans.go_on place hand }
{
    CacheNext {
        state: CacheState { place, hand },
        told: Told::Going,
    }
}

/// So many blocks at hand have no page, and the next is looked at, if one is left.
fn pass(block: u32, hand: u32, left: u32, blocks: u32) -> CacheNext
    requires { blocks < 2 * CACHE_BLOCKS }
    ensures { result ≡ plans.pass block hand left blocks }
{
    let next = further(hand, blocks);
    if left <= blocks {
        return go_on(CachePlace::TakingLast { block }, next);
    }
    let left = left - blocks;
    if next % NPTENTRIES == 0 {
        go_on(CachePlace::HandRegion { block, left }, next)
    } else {
        go_on(CachePlace::HandPage { block, left }, next)
    }
}

/// The page at hand is passed, and all blocks are left to look at.
fn pass_used(block: u32, hand: u32) -> CacheNext
    ensures { result ≡ plans.pass_used block hand }
{
    let left = CACHE_BLOCKS;
    go_on(CachePlace::HandRegion { block, left }, further(hand, 1))
}

/// The page at hand is there, and its entry has this word.
fn weigh(block: u32, hand: u32, word: u32) -> CacheNext
    ensures { result ≡ plans.weigh block hand word }
{
    let place = if is_written(word) {
        CachePlace::WritingBack { block }
    } else if is_used(word) {
        CachePlace::Passing { block }
    } else {
        CachePlace::Moving { block }
    };
    go_on(place, hand)
}

/// The pages of blocks before this one are clean.
fn flush_from(at: u32, hand: u32) -> CacheNext
    ensures { result ≡ plans.flush_from at hand }
{
    if at >= CACHE_BLOCKS {
        CacheNext {
            state: CacheState {
                place: CachePlace::Resting,
                hand,
            },
            told: Told::Clean,
        }
    } else if at % NPTENTRIES == 0 {
        go_on(CachePlace::FlushRegion { at }, hand)
    } else {
        go_on(CachePlace::FlushPage { at }, hand)
    }
}

/// Where the cache goes by the reply, a word, and what its step tells.
pub fn next_at(state: CacheState, word: u32) -> CacheNext
    ensures { result ≡ plans.next_at state word }
{
    let hand = state.hand;
    match state.place {
        CachePlace::Resting => go_on(CachePlace::Resting, hand),
        CachePlace::Found { block } => go_on(CachePlace::Found { block }, hand),
        CachePlace::LookingRegion { block } => {
            if is_there(word) {
                go_on(CachePlace::LookingPage { block }, hand)
            } else {
                go_on(CachePlace::Taking { block }, hand)
            }
        }
        CachePlace::LookingPage { block } => {
            if is_there(word) {
                go_on(CachePlace::Found { block }, hand)
            } else {
                go_on(CachePlace::Taking { block }, hand)
            }
        }
        CachePlace::Taking { block } => {
            if word == 0 {
                return go_on(CachePlace::Filling { block }, hand);
            }
            let left = CACHE_BLOCKS;
            go_on(CachePlace::HandRegion { block, left }, hand)
        }
        CachePlace::Filling { block } => go_on(CachePlace::Settling { block }, hand),
        CachePlace::Settling { block } => go_on(CachePlace::Found { block }, hand),
        CachePlace::HandRegion { block, left } => {
            if is_there(word) {
                go_on(CachePlace::HandPage { block, left }, hand)
            } else {
                pass(block, hand, left, rest_of_region(hand))
            }
        }
        CachePlace::HandPage { block, left } => {
            if is_there(word) {
                weigh(block, hand, word)
            } else {
                pass(block, hand, left, 1)
            }
        }
        CachePlace::WritingBack { block } => go_on(CachePlace::Passing { block }, hand),
        CachePlace::Passing { block } => pass_used(block, hand),
        CachePlace::Moving { block } => {
            if word == 0 {
                go_on(CachePlace::Leaving { block }, hand)
            } else {
                go_on(CachePlace::Freeing { block }, hand)
            }
        }
        CachePlace::Leaving { block } => go_on(CachePlace::Filling { block }, further(hand, 1)),
        CachePlace::Freeing { block } => go_on(CachePlace::Taking { block }, further(hand, 1)),
        CachePlace::TakingLast { block } => {
            if word == 0 {
                return go_on(CachePlace::Filling { block }, hand);
            }
            CacheNext {
                state: CacheState {
                    place: CachePlace::Resting,
                    hand,
                },
                told: Told::NoPage,
            }
        }
        CachePlace::FlushRegion { at } => {
            if is_there(word) {
                go_on(CachePlace::FlushPage { at }, hand)
            } else {
                flush_from(block_of(at) + rest_of_region(at), hand)
            }
        }
        CachePlace::FlushPage { at } => {
            if is_there(word) && is_written(word) {
                go_on(CachePlace::FlushWriting { at }, hand)
            } else {
                flush_from(block_of(at) + 1, hand)
            }
        }
        CachePlace::FlushWriting { at } => go_on(CachePlace::FlushSettling { at }, hand),
        CachePlace::FlushSettling { at } => flush_from(block_of(at) + 1, hand),
    }
}

/// Where the cache begins when a block is wanted: what is under way for another block is done first.
pub fn fetching(place: CachePlace, block: u32) -> CachePlace
    ensures { result ≡ plans.fetching place block }
{
    match place {
        CachePlace::Resting
        | CachePlace::Found { .. }
        | CachePlace::FlushRegion { .. }
        | CachePlace::FlushPage { .. }
        | CachePlace::FlushWriting { .. }
        | CachePlace::FlushSettling { .. } => CachePlace::LookingRegion { block },
        _ => place,
    }
}

/// Where it begins when it is to be flushed: what is under way for a block is done first.
pub fn flushing(place: CachePlace) -> CachePlace
    ensures { result ≡ plans.flushing place }
{
    match place {
        CachePlace::Resting | CachePlace::Found { .. } => CachePlace::FlushRegion { at: 0 },
        _ => place,
    }
}

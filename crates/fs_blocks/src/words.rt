//! Where the cache stands, as it is spelled in words.

ghost use Rattle.std.specs.Prelude.{◌≡◌};
ghost use Rattle.fs_blocks.specs.CachePlaces as places;

use crate::place::{CachePlace, CacheState};
use jos_base::Extra;
use lib_os::CACHE_BLOCKS;

// ---- the numbers of places, as they stand in the first of the cache's words
const RESTING: u32 = 0;

const FOUND: u32 = 1;

const LOOKING_REGION: u32 = 2;

const LOOKING_PAGE: u32 = 3;

const TAKING: u32 = 4;

const FILLING: u32 = 5;

const SETTLING: u32 = 6;

const HAND_REGION: u32 = 7;

const HAND_PAGE: u32 = 8;

const WRITING_BACK: u32 = 9;

const PASSING: u32 = 10;

const MOVING: u32 = 11;

const LEAVING: u32 = 12;

const FREEING: u32 = 13;

const TAKING_LAST: u32 = 14;

const FLUSH_REGION: u32 = 15;

const FLUSH_PAGE: u32 = 16;

const FLUSH_WRITING: u32 = 17;

const FLUSH_SETTLING: u32 = 18;

/// Where the cache stands, by the last four of the words that the environment keeps for the library: the place's number, the block,
/// the hand, and how many blocks are left to look at. All zero is a cache that rests.
#[tactic(auto, unfolding(crate::specs::CachePlaces::place_in))]
pub fn find_state(words: &Extra) -> CacheState
    ensures { result ≡ places.state_in words.now.0 }
{
    let [_, _, _, _, _, _, _, _, place, first, second, left] = words.0;
    let block = first % CACHE_BLOCKS;
    let at = block;
    let place = match place {
        RESTING => CachePlace::Resting,
        FOUND => CachePlace::Found { block },
        LOOKING_REGION => CachePlace::LookingRegion { block },
        LOOKING_PAGE => CachePlace::LookingPage { block },
        TAKING => CachePlace::Taking { block },
        FILLING => CachePlace::Filling { block },
        SETTLING => CachePlace::Settling { block },
        HAND_REGION => CachePlace::HandRegion { block, left },
        HAND_PAGE => CachePlace::HandPage { block, left },
        WRITING_BACK => CachePlace::WritingBack { block },
        PASSING => CachePlace::Passing { block },
        MOVING => CachePlace::Moving { block },
        LEAVING => CachePlace::Leaving { block },
        FREEING => CachePlace::Freeing { block },
        TAKING_LAST => CachePlace::TakingLast { block },
        FLUSH_REGION => CachePlace::FlushRegion { at },
        FLUSH_PAGE => CachePlace::FlushPage { at },
        FLUSH_WRITING => CachePlace::FlushWriting { at },
        _ => CachePlace::FlushSettling { at },
    };
    CacheState {
        place,
        hand: second % CACHE_BLOCKS,
    }
}

/// The last four of the words with which the cache stands so.
#[tactic(auto, unfolding(crate::specs::CachePlaces::place_words))]
fn last_words(state: CacheState) -> [u32; 4]
    ensures { result ≡ places.place_words state.place state.hand }
{
    let hand = state.hand;
    match state.place {
        CachePlace::Resting => [RESTING, 0, hand, 0],
        CachePlace::Found { block } => [FOUND, block, hand, 0],
        CachePlace::LookingRegion { block } => [LOOKING_REGION, block, hand, 0],
        CachePlace::LookingPage { block } => [LOOKING_PAGE, block, hand, 0],
        CachePlace::Taking { block } => [TAKING, block, hand, 0],
        CachePlace::Filling { block } => [FILLING, block, hand, 0],
        CachePlace::Settling { block } => [SETTLING, block, hand, 0],
        CachePlace::HandRegion { block, left } => [HAND_REGION, block, hand, left],
        CachePlace::HandPage { block, left } => [HAND_PAGE, block, hand, left],
        CachePlace::WritingBack { block } => [WRITING_BACK, block, hand, 0],
        CachePlace::Passing { block } => [PASSING, block, hand, 0],
        CachePlace::Moving { block } => [MOVING, block, hand, 0],
        CachePlace::Leaving { block } => [LEAVING, block, hand, 0],
        CachePlace::Freeing { block } => [FREEING, block, hand, 0],
        CachePlace::TakingLast { block } => [TAKING_LAST, block, hand, 0],
        CachePlace::FlushRegion { at } => [FLUSH_REGION, at, hand, 0],
        CachePlace::FlushPage { at } => [FLUSH_PAGE, at, hand, 0],
        CachePlace::FlushWriting { at } => [FLUSH_WRITING, at, hand, 0],
        CachePlace::FlushSettling { at } => [FLUSH_SETTLING, at, hand, 0],
    }
}

/// The words with which the cache stands so. The first eight stay.
pub fn with_state(words: &Extra, state: CacheState) -> Extra
    ensures { result.0 ≡ places.with_state words.now.0 state }
{
    let [place, block, hand, left] = last_words(state);
    let mut words = words.0;
    words[8] = place;
    words[9] = block;
    words[10] = hand;
    words[11] = left;
    Extra(words)
}

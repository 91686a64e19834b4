//! A path, which a service gathers in a page of its own.

ghost use Rattle.std.specs.Prelude.{◌≡◌};
ghost use Rattle.lib_request.specs.PathStages as stages;

use crate::page::ask_clearing;
use fs_layout::MAXPATHLEN;
use jos_base::{E_BAD_PATH, E_INVAL, PGSIZE};
use lib_file::{kept_at_once, moved_at_once};
use lib_os::{Step, in_fence};
use lib_stage::{Ask, Next};

/// Whether behind so many bytes of a path another may be taken.
fn may_follow(path: u32, done: u32) -> bool
    ensures { result ≡ stages.follows path done }
{
    done < MAXPATHLEN && in_fence(path.wrapping_add(done), 1)
}

/// How many bytes are taken at once, behind so many.
fn moved(path: u32, done: u32) -> u32
    ensures { result ≡ stages.moved path done }
{
    moved_at_once(path.wrapping_add(done), MAXPATHLEN.saturating_sub(done))
}

/// What is asked to take the next bytes, or to give the page back.
pub fn ask_gathering(path: u32, done: u32) -> Ask
    ensures { result ≡ stages.gathering_asked path done }
{
    if !may_follow(path, done) {
        return ask_clearing();
    }
    let va = path.wrapping_add(done);
    if moved(path, done) == 4 {
        Ask::Load { va }
    } else {
        Ask::LoadByte { va }
    }
}

/// What is done next by the bytes that are loaded, or when the page is given back.
pub fn next_of_gathering(path: u32, done: u32, word: u32) -> Next
    ensures { result ≡ stages.next_of_gathering path done word }
{
    if !may_follow(path, done) {
        return Next::Answer(refusal(done).wrapping_neg());
    }
    Next::Show(Step::Keeping {
        done,
        word,
        left: moved(path, done),
    })
}

/// What is done next when the page has so many bytes, none of them the path's end.
fn next_behind(path: u32, done: u32) -> Next
    ensures { result ≡ stages.next_behind path done }
{
    if may_follow(path, done) && path.wrapping_add(done) % PGSIZE == 0 {
        return Next::GoOn(Step::BufferRegion { done, word: 0 });
    }
    Next::GoOn(Step::Gathering { done })
}

/// What is done next when bytes of a word are put there; with the path's end, the service goes on to this step.
pub fn next_of_keeping(path: u32, whole: Step, done: u32, word: u32, left: u32) -> Next
    ensures { result ≡ stages.next_of_keeping path whole done word left }
{
    let kept = kept_at_once(done, left);
    let behind = done.wrapping_add(kept);
    if ends_in(kept, word) {
        return Next::GoOn(whole);
    }
    if left <= kept {
        return next_behind(path, behind);
    }
    Next::GoOn(Step::Keeping {
        done: behind,
        word: word / 256,
        left: left - kept,
    })
}

/// Why a path with so many bytes and no end is refused.
fn refusal(done: u32) -> u32
    ensures { result ≡ stages.refusal done }
{
    if done >= MAXPATHLEN {
        E_BAD_PATH
    } else {
        E_INVAL
    }
}

/// Whether one of the bytes of a word that are put is the end of a path: all four, or the lowest.
fn ends_in(kept: u32, word: u32) -> bool
    ensures { result ≡ stages.ends_in kept word }
{
    word % 256 == 0
        || kept == 4
            && (word / 256 % 256 == 0 || word / 65536 % 256 == 0 || word / 16777216 % 256 == 0)
}

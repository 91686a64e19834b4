//! The strings, each up to its NUL.

ghost use Rattle.std.specs.Prelude.{◌≡◌};
ghost use Rattle.lib_given.specs.Strings as strings;

use crate::given::{at_given, refused};
use crate::stack::fits_page;
use jos_base::PGSIZE;
use lib_file::moved_at_once;
use lib_os::{GivenStep, SPAWN_GIVEN, Step, in_fence};
use lib_stage::{Ask, Next};

/// Where spawn goes on that has so many bytes of the string at an address, and so many of the strings before it: it looks at the page of
/// the next byte where it comes to that.
fn at_string(index: u32, address: u32, used: u32, done: u32) -> Step
    ensures { result ≡ strings.at_string index address used done }
{
    let va = address.wrapping_add(done);
    if done >= PGSIZE || !in_fence(va, 1) {
        return refused();
    }
    if done == 0 || va % PGSIZE == 0 {
        return at_given(GivenStep::StringRegion {
            index,
            address,
            used,
            done,
        });
    }
    at_given(GivenStep::StringLoading {
        index,
        address,
        used,
        done,
    })
}

/// Where it goes on with the address of the next string, which is 0 behind the last: then it has so many.
pub(crate) fn behind_strings(index: u32, used: u32, address: u32) -> Step
    ensures { result ≡ strings.behind_strings index used address }
{
    if address != 0 {
        return at_string(index, address, used, 0);
    }
    if !fits_page(index, used) {
        return refused();
    }
    at_given(GivenStep::TakingStack {
        count: index,
        size: used,
    })
}

/// How many bytes of a string are loaded at once, behind so many.
fn moved(address: u32, done: u32) -> u32
    ensures { result ≡ strings.moved address done }
{
    moved_at_once(address.wrapping_add(done), PGSIZE.saturating_sub(done))
}

/// What is asked to load the next bytes of a string.
pub(crate) fn ask_string(address: u32, done: u32) -> Ask
    ensures { result ≡ strings.string_asked address done }
{
    let va = address.wrapping_add(done);
    if moved(address, done) == 4 {
        Ask::Load { va }
    } else {
        Ask::LoadByte { va }
    }
}

/// What is done next by these bytes.
pub(crate) fn next_of_string(index: u32, address: u32, used: u32, done: u32, word: u32) -> Next
    ensures { result ≡ strings.next_of_string index address used done word }
{
    Next::Show(at_given(GivenStep::StringKeeping {
        index,
        address,
        used,
        done,
        word,
        left: moved(address, done),
    }))
}

/// What is asked to put the next of them into the page of the strings. Where these take more than a page, they begin anew: then they are
/// refused.
pub(crate) fn ask_keeping(used: u32, done: u32, word: u32) -> Ask
    ensures { result ≡ strings.keeping_asked used done word }
{
    Ask::StoreByte {
        va: SPAWN_GIVEN + used.wrapping_add(done) % PGSIZE,
        byte: (word % 256) as u8,
    }
}

/// Where spawn goes on when it is put there. Of the strings' bytes no more are counted than one more than a page has.
pub(crate) fn behind_byte(
    index: u32,
    address: u32,
    used: u32,
    done: u32,
    word: u32,
    left: u32,
) -> Step
    ensures { result ≡ strings.behind_byte index address used done word left }
{
    let behind = done.wrapping_add(1);
    if word % 256 == 0 {
        return at_given(GivenStep::StringAddress {
            index: index.wrapping_add(1),
            used: used.saturating_add(behind).min(PGSIZE + 1),
        });
    }
    if left <= 1 {
        return at_string(index, address, used, behind);
    }
    at_given(GivenStep::StringKeeping {
        index,
        address,
        used,
        done: behind,
        word: word / 256,
        left: left - 1,
    })
}

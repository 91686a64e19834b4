//! The addresses of the strings, which the program gives in a list with a 0 behind the last.

ghost use Rattle.std.specs.Prelude.{◌≡◌};
ghost use Rattle.lib_given.specs.Addresses as addresses;

use crate::given::{at_given, refused};
use jos_base::PGSIZE;
use lib_file::moved_at_once;
use lib_os::{GivenStep, Step, in_fence};
use lib_stage::{Ask, Next};

/// How many strings a program may be given.
pub(crate) const ARGS_MAX: u32 = jos_elf::ARGS_MAX as u32;

/// Where the next byte of an address of the list is.
pub fn address_va(argv: u32, index: u32, done: u32) -> u32
    ensures { result ≡ addresses.address_va argv index done }
{
    argv.wrapping_add(4 * index.min(ARGS_MAX))
        .wrapping_add(done)
}

/// Where spawn goes on that has so many bytes of the address of this number, lowest in the word: it looks at the page of the next byte
/// where it comes to that.
pub(crate) fn at_address(argv: u32, index: u32, done: u32, word: u32) -> Step
    ensures { result ≡ addresses.at_address argv index done word }
{
    let va = address_va(argv, index, done);
    if !in_fence(va, 1) {
        return refused();
    }
    if index == 0 && done == 0 || va % PGSIZE == 0 {
        return at_given(GivenStep::AddressRegion { index, done, word });
    }
    at_given(GivenStep::AddressLoading { index, done, word })
}

/// How many bytes of an address are loaded at once, behind so many.
fn moved(argv: u32, index: u32, done: u32) -> u32
    ensures { result ≡ addresses.moved argv index done }
{
    moved_at_once(address_va(argv, index, done), 4u32.saturating_sub(done))
}

/// What is asked to load an address, or its next byte.
pub(crate) fn ask_address(argv: u32, index: u32, done: u32) -> Ask
    ensures { result ≡ addresses.address_asked argv index done }
{
    let va = address_va(argv, index, done);
    if moved(argv, index, done) == 4 {
        Ask::Load { va }
    } else {
        Ask::LoadByte { va }
    }
}

/// The bytes of an address of which so many stand lowest in a word, with the next.
fn with_byte(word: u32, done: u32, byte: u32) -> u32
    ensures { result ≡ addresses.with_byte word done byte }
{
    let byte = byte % 256;
    match done {
        0 => byte,
        1 => word % 256 + 256 * byte,
        2 => word % 65536 + 65536 * byte,
        _ => word % 16777216 + 16777216 * byte,
    }
}

/// Where spawn goes on with the address of this number, which is 0 behind the last.
fn behind_address(index: u32, address: u32) -> Step
    ensures { result ≡ addresses.behind_address index address }
{
    if index >= ARGS_MAX && address != 0 {
        return refused();
    }
    at_given(GivenStep::AddressKeeping {
        index,
        word: address,
    })
}

/// What is done next by what was loaded: the address, or its next byte.
pub(crate) fn next_of_address(argv: u32, index: u32, done: u32, word: u32, loaded: u32) -> Next
    ensures { result ≡ addresses.next_of_address argv index done word loaded }
{
    if moved(argv, index, done) == 4 {
        return Next::Show(behind_address(index, loaded));
    }
    let more = with_byte(word, done, loaded);
    if done >= 3 {
        return Next::Show(behind_address(index, more));
    }
    Next::Show(at_address(argv, index, done + 1, more))
}

/// Where spawn goes on when this address is put into its page: at the next, or, behind the last, at the strings.
pub(crate) fn behind_kept(argv: u32, index: u32, address: u32) -> Step
    ensures { result ≡ addresses.behind_kept argv index address }
{
    if address == 0 {
        return at_given(GivenStep::StringAddress { index: 0, used: 0 });
    }
    at_address(argv, index.wrapping_add(1), 0, 0)
}

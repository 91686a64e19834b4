//! The page of the stack, as it is made of the strings. (MIT 6.828, lib/spawn.c: init_stack)

ghost use Rattle.std.specs.Prelude.{◌≡◌, ◌≤◌, ◌<◌, ◌%◌};
ghost use Rattle.jos_base.specs.declared.numbers.TheConstants.{PGSIZE};
ghost use Rattle.lib_given.specs.StackWords as words;

use crate::address::ARGS_MAX;
use crate::given::at_given;
use jos_base::{PGSIZE, USTACKTOP};
use lib_os::{GivenStep, Step};

/// Where the page of the stack begins.
pub(crate) const STACK_VA: u32 = USTACKTOP - PGSIZE;

/// Whether so many strings with so many bytes, their addresses and their number have room on a page.
pub(crate) fn fits_page(count: u32, size: u32) -> bool
    ensures { result ≡ words.fits_page count size }
{
    count >= 1
        && count <= ARGS_MAX
        && size <= PGSIZE
        && (size + 3) / 4 * 4 + 4 * (count + 1) + 8 <= PGSIZE
}

/// Where in the page the strings' addresses begin.
pub(crate) fn addresses_place(count: u32, size: u32) -> u32
    ensures is { result ≡ words.addresses_place count size }
    ensures aligned { result % 4 ≡ 0 }
    ensures most { result ≤ PGSIZE }
{
    let strings = (size.min(PGSIZE) + 3) / 4 * 4;
    PGSIZE.saturating_sub(strings + 4 * (count.min(ARGS_MAX) + 1))
}

/// Where in the page the byte stands behind so many of the strings'.
pub(crate) fn byte_place(size: u32, copied: u32) -> u32
    ensures is { result ≡ words.byte_place size copied }
    ensures inside { result < PGSIZE }
{
    (PGSIZE - size.min(PGSIZE) + copied % PGSIZE) % PGSIZE
}

/// Where spawn goes on when this byte is put there: behind a NUL the next string begins.
pub(crate) fn behind_copy(count: u32, size: u32, index: u32, copied: u32, byte: u32) -> Step
    ensures { result ≡ words.behind_copy count size index copied byte }
{
    if size.saturating_sub(copied) <= 1 {
        return at_given(GivenStep::StoringArgv { count, size });
    }
    if byte == 0 {
        return at_given(GivenStep::StringFirst {
            count,
            size,
            index: index.wrapping_add(1),
            copied: copied + 1,
        });
    }
    at_given(GivenStep::StringCopying {
        count,
        size,
        index,
        copied: copied + 1,
    })
}

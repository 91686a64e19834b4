//! What a program may touch.

ghost use Rattle.std.specs.Prelude.{◌≡◌};
ghost use Rattle.lib_os.specs.Fence as fence;

use crate::numbers::{FDTABLE_END, RESIDENT};
use jos_base::{FDTABLE, PGSIZE, USTABDATA, USTACKTOP, UTEMP, UTEXT, UTOP};

/// Whether so many bytes from an address on lie between two addresses.
fn lies_within(va: u32, n: u32, from: u32, end: u32) -> bool
    ensures { result ≡ fence.lies_within va n from end }
{
    from <= va && va as u64 + n as u64 <= end as u64
}

/// Whether so many bytes from an address on lie in one of the three ranges that a program may touch.
#[tactic(auto, unfolding(crate::specs::Fence::in_fence))]
pub fn in_fence(va: u32, n: u32) -> bool
    ensures { result ≡ fence.in_fence va n }
{
    lies_within(va, n, USTABDATA, UTEMP)
        || lies_within(va, n, UTEXT, FDTABLE)
        || lies_within(va, n, FDTABLE_END, USTACKTOP)
}

/// Whether a service may be given a buffer of so many bytes: one of no bytes may lie anywhere.
pub fn is_buffer(va: u32, n: u32) -> bool
    ensures { result ≡ fence.is_buffer va n }
{
    n == 0 || in_fence(va, n)
}

/// Whether a program may have a page at an address.
pub fn is_page_inside(va: u32) -> bool
    ensures { result ≡ fence.is_page_inside va }
{
    va % PGSIZE == 0 && in_fence(va, PGSIZE)
}

/// Whether a stack pointer belongs to the library's own parts.
pub fn is_resident(esp: u32) -> bool
    ensures { result ≡ fence.is_resident esp }
{
    RESIDENT <= esp && esp < UTOP
}

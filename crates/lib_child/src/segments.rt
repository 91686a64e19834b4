//! The segments of the child, by the program headers that spawn has copied into its page at `SPAWN_GIVEN`.

ghost use Rattle.std.specs.Prelude.{◌≡◌, ◌<◌, ◌+◌};
ghost use Rattle.lib_child.specs.ChildSegments as segments;

use jos_base::{PGSIZE, PTE_P, PTE_U, PTE_W};
use lib_os::{BearingStep, FinishingStep, SpawnStep};

/// The bits of a page that may be written.
pub const WRITABLE_PERM: u32 = PTE_P + PTE_U + PTE_W;

/// The bits of a page that may only be read.
pub const READABLE_PERM: u32 = PTE_P + PTE_U;

/// A child that is not born, and its file.
#[derive(Clone, Copy, Debug)]
pub struct Child {
    /// The descriptor of the file.
    pub fd: u32,
    /// How many program headers the file has.
    pub headers: u32,
    /// The id of the child.
    pub child: u32,
}

/// The last page of a segment that begins at an address and has so many bytes of memory.
pub fn last_page(va: u32, memory: u32) -> u32
    ensures is { result ≡ segments.last_page va memory }
    ensures below { result < 1048576 }
{
    va.wrapping_add(memory.saturating_sub(1)) / PGSIZE
}

/// At the program header of a number it goes on with the rights of the segment's pages; behind the last comes what the child has beside its segments.
pub fn rights_from(of: Child, header: u32) -> SpawnStep
    ensures { result ≡ segments.rights_from of.fd of.headers of.child header }
{
    let Child { fd, headers, child } = of;
    if header < headers {
        SpawnStep::Finishing {
            at: FinishingStep::RightsKind {
                fd,
                headers,
                child,
                header,
            },
        }
    } else {
        SpawnStep::Finishing {
            at: FinishingStep::ChildStack { fd, child },
        }
    }
}

/// There it goes on with the segment's bytes; behind the last come the rights of pages.
pub(crate) fn pieces_from(of: Child, header: u32) -> SpawnStep
    ensures { result ≡ segments.pieces_from of.fd of.headers of.child header }
{
    let Child { fd, headers, child } = of;
    if header < headers {
        SpawnStep::Bearing {
            at: BearingStep::PieceKind {
                fd,
                headers,
                child,
                header,
            },
        }
    } else {
        rights_from(of, 0)
    }
}

/// There it goes on with the segment's pages; behind the last come the bytes of all.
pub(crate) fn pages_from(of: Child, header: u32) -> SpawnStep
    ensures { result ≡ segments.pages_from of.fd of.headers of.child header }
{
    let Child { fd, headers, child } = of;
    if header < headers {
        SpawnStep::Bearing {
            at: BearingStep::PlacingKind {
                fd,
                headers,
                child,
                header,
            },
        }
    } else {
        pieces_from(of, 0)
    }
}

/// The bytes of the segment of this program header are all there, or it has none.
pub(crate) fn pieces_behind(of: Child, header: u32) -> SpawnStep
    ensures { result ≡ segments.pieces_from of.fd of.headers of.child (header + 1) }
{
    pieces_from(of, header.saturating_add(1))
}

/// The child has the pages of the segment of this program header, or there are none.
pub(crate) fn pages_behind(of: Child, header: u32) -> SpawnStep
    ensures { result ≡ segments.pages_from of.fd of.headers of.child (header + 1) }
{
    pages_from(of, header.saturating_add(1))
}

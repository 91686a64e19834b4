//! Entries: the words that they are, and what they let an access reach.

ghost use Rattle.std.specs.Prelude.{◌≡◌, ◌+◌, ◌<◌, Some, None, Err, IfOk};
ghost use Rattle.jos_base.specs.declared.numbers.TheConstants.{FEC_PR, FEC_U, PGSIZE};
ghost use Rattle.jos_base.specs.Reach.{reach_entry, allows, write_bit};
ghost use Rattle.jos_base.specs.UserMemory.{access_bits};
ghost use Rattle.jos_space.specs.Calls.{located};
ghost use Rattle.jos_space.specs.Frames.{is_present};

use jos_base::{
    Access, FEC_PR, FEC_U, FEC_WR, Frame, Location, PGSIZE, PTE_A, PTE_D, PTE_P, PTE_U, PTE_W,
    PageFault, Perm,
};

/// Whether a word of a directory or of a table names a frame. It stands from bit 12 on.
pub(crate) fn is_present(word: u32) -> bool
    ensures { result ≡ is_present word }
{
    word % 2 == PTE_P
}

/// The bits that an access sets in the entry of its page.
pub(crate) fn access_bits(access: Access) -> u32
    ensures { result ≡ access_bits access }
{
    match access {
        Access::Read => PTE_A,
        Access::Write => PTE_A + PTE_D,
    }
}

/// The fault of an access where no page is.
pub(crate) fn absent_page(va: u32, access: Access) -> PageFault
    ensures { reach_entry None va access ≡ Err result }
{
    match access {
        Access::Read => PageFault { va, error: FEC_U },
        Access::Write => PageFault {
            va,
            error: FEC_U + FEC_WR,
        },
    }
}

/// The fault of an access that the entry does not allow.
fn denied_page(va: u32, access: Access) -> PageFault
    ensures { result ≡ record { va = va; error = FEC_U + FEC_PR + write_bit access } }
{
    match access {
        Access::Read => PageFault {
            va,
            error: FEC_U + FEC_PR,
        },
        Access::Write => PageFault {
            va,
            error: FEC_U + FEC_PR + FEC_WR,
        },
    }
}

/// Whether an entry's bits allow an access.
fn allows(perm: u32, access: Access) -> bool
    ensures { result ≡ allows perm access }
{
    const READ: u32 = PTE_P + PTE_U;
    const WRITE: u32 = PTE_P + PTE_W + PTE_U;
    match access {
        Access::Read => perm & READ == READ,
        Access::Write => perm & WRITE == WRITE,
    }
}

/// Where an access to a page with this frame and these bits leads.
pub(crate) fn reach_page(
    frame: Frame,
    perm: Perm,
    va: u32,
    access: Access,
) -> Result<Location, PageFault>
    ensures result { located result ≡ reach_entry (Some (record { frame = frame.0; perm = perm.0 })) va access }
    ensures location { IfOk result (λ location. (location.frame ≡ frame) × (location.offset < PGSIZE)) }
{
    if allows(perm.0, access) {
        Ok(Location {
            frame,
            offset: va % PGSIZE,
        })
    } else {
        Err(denied_page(va, access))
    }
}

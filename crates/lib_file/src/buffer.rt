//! The pages of a buffer that a program gives.

ghost use Rattle.std.specs.Prelude.{◌≡◌};
ghost use Rattle.lib_os.specs.Answers as answers;
ghost use Rattle.lib_file.specs.Buffers as buffers;

use jos_base::{NPTENTRIES, PGSIZE, PTE_W, UVPT};
use lib_fd::is_there;
use lib_os::{PTE_COW, UVPD};
use lib_stage::Ask;

/// The word of the directory for the region in which an address lies.
pub fn ask_page_region(va: u32) -> Ask
    ensures { result ≡ buffers.region_asked va }
{
    Ask::Load {
        va: UVPD + 4 * (va / PGSIZE / NPTENTRIES),
    }
}

/// The word of the entry of an address's page.
pub fn ask_page_entry(va: u32) -> Ask
    ensures { result ≡ buffers.entry_asked va }
{
    Ask::Load {
        va: UVPT + 4 * (va / PGSIZE),
    }
}

/// Whether the page of an entry's word may be written, where it stands or as a copy of it.
pub fn is_writable(entry: u32) -> bool
    ensures { result ≡ buffers.is_writable entry }
{
    is_there(entry) && (entry & PTE_W == PTE_W || entry & PTE_COW == PTE_COW)
}

/// How many bytes are moved at once to or from an address, where so many are wanted: those of a word, where one lies there whole.
pub fn moved_at_once(va: u32, wanted: u32) -> u32
    ensures { result ≡ answers.moved_at_once va wanted }
{
    if va % 4 == 0 && wanted >= 4 { 4 } else { 1 }
}

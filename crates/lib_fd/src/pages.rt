//! What is asked of the pages of descriptors. Numbers of descriptors may come from words that hold anything, so that they are
//! bounded here.

ghost use Rattle.std.specs.Prelude.{◌≡◌, ◌%◌, ◌<◌};
ghost use Rattle.lib_fd.specs.DescriptorStages as stages;

use jos_base::{
    FDTABLE, NPTENTRIES, PGSIZE, PTE_P, PTE_U, PTE_W, SYS_GETENVID, SYS_PAGE_MAP, SYS_PAGE_UNMAP,
    UVPT,
};
use lib_os::{PTE_SHARE, UVPD};
use lib_stage::Ask;

/// The descriptors of an environment.
pub(crate) const DESCRIPTORS: u32 = lib_os::DESCRIPTORS as u32;

/// The bits of the page of a descriptor, and of that of a pipe.
pub const DESCRIPTOR_PERM: u32 = PTE_P + PTE_W + PTE_U + PTE_SHARE;

/// The descriptor of a word that may hold anything.
pub(crate) fn descriptor_of(fd: u32) -> u32
    ensures is { result ≡ stages.descriptor_of fd }
    ensures below { result < 32 }
{
    fd % DESCRIPTORS
}

/// Where the page of a descriptor begins.
pub fn descriptor_va(fd: u32) -> u32
    ensures is { result ≡ stages.descriptor_va fd }
    ensures begins { result % 4096 ≡ 0 }
    ensures below { result < 0xD0020000 }
{
    FDTABLE + PGSIZE * descriptor_of(fd)
}

/// Where a descriptor that names an end of a pipe has the pipe's page.
pub fn pipe_va(fd: u32) -> u32
    ensures is { result ≡ stages.pipe_va fd }
    ensures begins { result % 4096 ≡ 0 }
    ensures below { result < 0xD0040000 }
{
    FDTABLE + PGSIZE * (DESCRIPTORS + descriptor_of(fd))
}

/// The word of the region in which the pages lie.
pub(crate) fn ask_region() -> Ask
    ensures { result ≡ stages.region_asked }
{
    Ask::Load {
        va: UVPD + 4 * (FDTABLE / PGSIZE / NPTENTRIES),
    }
}

/// The same for a descriptor that a program has given, which may be no number of one; then nothing.
pub fn ask_region_for(fd: u32) -> Ask
    ensures { result ≡ stages.region_asked_for fd }
{
    if fd < DESCRIPTORS {
        ask_region()
    } else {
        Ask::System {
            number: SYS_GETENVID,
            args: [0; 5],
        }
    }
}

/// The word of a descriptor's entry.
pub fn ask_entry(fd: u32) -> Ask
    ensures { result ≡ stages.entry_asked fd }
{
    Ask::Load {
        va: UVPT + 4 * (FDTABLE / PGSIZE + descriptor_of(fd)),
    }
}

/// The word of the entry of the pipe's page that a descriptor may have.
pub fn ask_pipe_entry(fd: u32) -> Ask
    ensures { result ≡ stages.pipe_entry_asked fd }
{
    Ask::Load {
        va: UVPT + 4 * (FDTABLE / PGSIZE + DESCRIPTORS + descriptor_of(fd)),
    }
}

/// The page at an address is unmapped.
pub fn ask_drop_at(va: u32) -> Ask
    ensures { result ≡ stages.drop_asked_at va }
{
    Ask::System {
        number: SYS_PAGE_UNMAP,
        args: [0, va, 0, 0, 0],
    }
}

/// A descriptor's page is unmapped.
pub(crate) fn ask_drop(fd: u32) -> Ask
    ensures { result ≡ stages.drop_asked fd }
{
    ask_drop_at(descriptor_va(fd))
}

/// The page at an address, which is a descriptor's or a pipe's, is mapped at another one too.
pub fn ask_map_at(old: u32, new: u32) -> Ask
    ensures { result ≡ stages.map_asked_at old new }
{
    Ask::System {
        number: SYS_PAGE_MAP,
        args: [0, old, 0, new, DESCRIPTOR_PERM],
    }
}

/// A descriptor's page is mapped as that of another one.
pub(crate) fn ask_map(old: u32, new: u32) -> Ask
    ensures { result ≡ stages.map_asked old new }
{
    ask_map_at(descriptor_va(old), descriptor_va(new))
}

/// Whether the word of an entry says that a page, or a region's table, is there.
pub fn is_there(word: u32) -> bool
    ensures { result ≡ stages.is_there word }
{
    word & PTE_P == PTE_P
}

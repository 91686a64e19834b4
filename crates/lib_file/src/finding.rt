//! What a descriptor names.

ghost use Rattle.std.specs.Prelude.{◌≡◌};
ghost use Rattle.lib_file.specs.Finding as finding;

use jos_base::E_INVAL;
use lib_fd::{descriptor_va, is_there};
use lib_os::{DESCRIPTORS, FD_DEVICE, Step};
use lib_stage::{Ask, Next};

/// The word of a descriptor's page that tells what it names.
pub fn ask_device(fd: u32) -> Ask
    ensures { result ≡ finding.device_asked fd }
{
    Ask::Load {
        va: descriptor_va(fd) + FD_DEVICE,
    }
}

/// What a service does next that was told whether the region of descriptors' pages has a table.
pub fn next_of_region(fd: u32, word: u32) -> Next
    ensures { result ≡ finding.next_of_region fd word }
{
    if fd >= DESCRIPTORS as u32 || !is_there(word) {
        return Next::Answer(E_INVAL.wrapping_neg());
    }
    Next::GoOn(Step::DescriptorEntry { fd })
}

/// What it does next by the entry of its descriptor's page.
pub fn next_of_entry(word: u32) -> Next
    ensures { result ≡ finding.next_of_entry word }
{
    if !is_there(word) {
        return Next::Answer(E_INVAL.wrapping_neg());
    }
    Next::GoOn(Step::ReadingDevice)
}

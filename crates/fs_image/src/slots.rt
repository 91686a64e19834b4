//! The tests of a directory's records.

ghost use Rattle.std.specs.Prelude.{◌≡◌, ◌<◌, ◌≤◌, ◌^◌, length, false, IfNone, slice_index};
ghost use Rattle.fs_layout.specs.DiskImage as image;
ghost use Rattle.fs_image.specs.Answers.{test_answer, blocks_in, own_tests};

use crate::disk::MemoryDisk;
use crate::fault::ImageFault;
use crate::names::{is_good_name, slot_place};
use crate::records::{kind_at, record_test};
use fs_layout::{FTYPE_DIR, FTYPE_REG};

fn is_good_kind(kind: u32) -> bool
    ensures { result ≡ image.is_good_kind kind }
{
    kind == FTYPE_REG || kind == FTYPE_DIR
}

/// The tests of a directory's record but for what stands below it; `is_taken` says whether a record before it has its name.
pub(crate) fn own_test(
    disk: &MemoryDisk,
    named: &mut [bool],
    directory: u64,
    i: u32,
    is_taken: bool,
) -> Option<ImageFault>
    requires room { image.block_count (slice_index disk.now.bytes.now) ≤ length named.old }
    requires directory { directory < 2 ^ 50 }
    requires taken { is_taken ≡ image.has_taken_name (slice_index disk.now.bytes.now) directory i }
    ensures free { IfNone result (is_taken ≡ false) }
    ensures exact { test_answer result named.new ≡ image.in_turn (own_tests (slice_index disk.now.bytes.now) directory i) (blocks_in named.old) }
{
    let place = slot_place(disk, directory, i);
    if !is_good_kind(kind_at(disk, place)) {
        return Some(ImageFault::Kind(place));
    }
    if !is_good_name(disk, place) {
        return Some(ImageFault::BadName(place));
    }
    if let Some(fault) = record_test(disk, named, place) {
        return Some(fault);
    }
    if is_taken {
        return Some(ImageFault::SameName(place));
    }
    None
}

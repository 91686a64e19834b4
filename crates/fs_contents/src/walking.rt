//! Where the record stands that a path names.

ghost use Rattle.std.specs.Prelude.{◌≡◌, ◌<◌, ◌^◌, [], IfOk, IfErr, IfSome, IfNone, Err, bytes_eq, length, slice_index};
ghost use Rattle.fs_layout.specs.DiskImage.{name_of};
ghost use Rattle.fs_layout.specs.DiskFiles.{IsDiskImage, file_system_of};
ghost use Rattle.fs_layout.specs.FileActs.{look_up};
ghost use Rattle.fs_contents.specs.Contents.{found_node};
ghost use Rattle.fs_contents.specs.Walks.{IsFirstNamed, NoneIsNamed, LeadsOn};

use fs_image::{MemoryDisk, ROOT_PLACE, kind_at, size_of, slot_place};
use fs_layout::{FTYPE_DIR, RECORDSIZE, parts};
use jos_base::Errno;

/// Whether the record at a place has this name.
fn has_name(disk: &MemoryDisk, place: u64, name: &[u8]) -> bool
    requires { place < 2 ^ 50 }
    ensures { result ≡ bytes_eq (name_of (slice_index disk.now.bytes.now) place) name.now }
{
    disk.name(place) == name
}

/// The place of the first record in a directory that has this name.
fn find_record(disk: &MemoryDisk, directory: u64, name: &[u8]) -> Option<u64>
    requires { directory < 2 ^ 50 }
    ensures found { IfSome result (IsFirstNamed (slice_index disk.now.bytes.now) directory name.now) }
    ensures small { IfSome result (λ place. place < 2 ^ 50) }
    ensures none { IfNone result (NoneIsNamed (slice_index disk.now.bytes.now) directory name.now) }
{
    if kind_at(disk, directory) != FTYPE_DIR {
        return None;
    }
    for i in 0..size_of(disk, directory) / RECORDSIZE {
        let place = slot_place(disk, directory, i);
        if has_name(disk, place, name) {
            return Some(place);
        }
    }
    None
}

/// The place of the record that a path names, or why it is refused.
pub(crate) fn place_of(image: &[u8], path: &[u8]) -> Result<u64, Errno>
    requires { IsDiskImage (length image.now) (slice_index image.now) }
    ensures found { IfOk result
        (LeadsOn (slice_index image.now) (found_node (look_up (file_system_of (slice_index image.now)) path.now)) []) }
    ensures small { IfOk result (λ place. place < 2 ^ 50) }
    ensures refused { IfErr result
        (λ errno. found_node (look_up (file_system_of (slice_index image.now)) path.now) ≡ Err errno) }
{
    let Ok(names) = parts(path) else {
        return Err(Errno::BadPath);
    };
    let disk = MemoryDisk::new(image);
    let mut place = ROOT_PLACE;
    for name in names.as_slice() {
        let name = &path[name.from as usize..name.to as usize];
        let Some(found) = find_record(&disk, place, name) else {
            return Err(Errno::NotFound);
        };
        place = found;
    }
    Ok(place)
}

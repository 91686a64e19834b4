//! The names of files.

ghost use Rattle.std.specs.Prelude.{◌≡◌, ◌<◌, ◌^◌, ◌==◌, ◌||◌, [], length, IfOk};
ghost use Rattle.std.specs.List.{list_any};
ghost use Rattle.fs_layout.specs.FileActs.{is_slash};
ghost use Rattle.fs_make.specs.MakeFaults.{is_file_name, first_taken};

use fs_layout::MAXNAMELEN;
use jos_host::NamedBytes;
use std::alloc::{AllocError, Global};
use std::collections::BTreeSet;

/// Whether one of the bytes is a slash or a NUL.
fn has_bad_byte(name: &[u8]) -> bool
    ensures { result ≡ list_any (λ byte. is_slash byte || (byte == 0)) name.now }
{
    name.iter().any(|byte| *byte == b'/' || *byte == 0)
}

/// Whether a file may have the name.
#[tactic(auto, unfolding(crate::specs::MakeFaults::is_file_name))]
pub(crate) fn is_file_name(name: &[u8]) -> bool
    ensures { result ≡ is_file_name name.now }
{
    0 < name.len() && name.len() < MAXNAMELEN as usize && !has_bad_byte(name)
}

/// The place of the first file that has the name of one before it. Memory is wanted for the names before it.
pub(crate) fn first_taken(alloc: Global, files: &[NamedBytes]) -> Result<Option<u32>, AllocError>
    requires { length files.now < 2 ^ 32 }
    ensures { IfOk result (λ place. place ≡ first_taken [] files.now) }
{
    let mut before = BTreeSet::new(alloc);
    for (place, file) in files.iter().enumerate() {
        match before.insert(file.name.as_str()) {
            Ok(true) => {}
            Ok(false) => return Ok(Some(place as u32)),
            Err(_) => return Err(AllocError),
        }
    }
    Ok(None)
}

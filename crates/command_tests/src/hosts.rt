//! Hosts in memory, and what is wanted of a command over them.
//!
//! A function's proof takes the longer the more the function does, and far more than twice as long where it does twice as
//! much. So the tests are made of small functions, which have no clauses, and their tables are statics, which are lent and
//! not copied.

use jos_cli::{Outcome, top};
use jos_host::{MemHost, NamedBytes};
use std::alloc::{AllocError, Global};
use std::process::Abort;

fn add_file(
    alloc: Global,
    files: &mut Vec<NamedBytes>,
    name: &str,
    bytes: &[u8],
) -> Result<(), AllocError> {
    let name = String::from_str(alloc, name)?;
    let bytes = Vec::from_slice(alloc, bytes)?;
    files.push(NamedBytes { name, bytes })?;
    Ok(())
}

/// A host with these files, of a name and of bytes, of which the calls of these numbers fail.
pub(crate) fn host_of(
    alloc: Global,
    named: &[(&str, &[u8])],
    fails: &[u64],
) -> Result<MemHost, AllocError> {
    let mut files = Vec::new(alloc);
    for (name, bytes) in named {
        add_file(alloc, &mut files, name, bytes)?;
    }
    let fails = Vec::from_slice(alloc, fails)?;
    Ok(MemHost::new(alloc, files, Vec::new(alloc), fails))
}

/// Does what the words ask, as `top` does.
pub(crate) fn ask(alloc: Global, words: &[&str], host: &mut MemHost) -> Outcome {
    top(alloc, words, host)
}

/// A disk of 16 blocks with this file.
pub(crate) fn disk_with(alloc: Global, name: &str, bytes: &[u8]) -> Result<Vec<u8>, AllocError> {
    let mut host = host_of(alloc, &[(name, bytes)], &[])?;
    let _ = ask(alloc, &["mkfs", "d", "16", name], &mut host);
    Vec::from_slice(alloc, host.file("d").unwrap_or(b""))
}

/// A disk of 16 blocks with an image, `h`, and a file of two bytes behind it.
pub(crate) fn disk_with_both(
    alloc: Global,
    image: &[u8],
    name: &str,
) -> Result<Vec<u8>, AllocError> {
    let mut host = host_of(alloc, &[("h", image), (name, b"hi")], &[])?;
    let _ = ask(alloc, &["mkfs", "d", "16", "h", name], &mut host);
    Vec::from_slice(alloc, host.file("d").unwrap_or(b""))
}

/// How many bytes a file has; 0 where there is none.
pub(crate) fn len_of(host: &MemHost, name: &str) -> usize {
    host.file(name).unwrap_or(b"").len()
}

/// Ends the test where this is not so.
pub(crate) fn holds(rt: &impl Abort, is_so: bool, case: &str) {
    assert!(rt; is_so, "{case}");
}

/// Ends the test where this exit status is not the one that is wanted.
pub(crate) fn same_status(rt: &impl Abort, got: u8, wanted: u8, case: &str) {
    assert_eq!(rt; got, wanted, "{case}");
}

/// Ends the test where these bytes are not those that are wanted.
pub(crate) fn same_bytes(rt: &impl Abort, got: &[u8], wanted: &[u8], case: &str) {
    assert_eq!(rt; got, wanted, "{case}");
}

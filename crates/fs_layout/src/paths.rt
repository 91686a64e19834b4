//! Paths.

ghost use Rattle.std.specs.Prelude.{◌≡◌, ◌≤◌, ◌<◌, ◌-◌, ◌++◌, Some, None, IfOk, OnErr, OnOk, All, true, false, nat_lt, length};
ghost use Rattle.fs_layout.specs.Paths.{span_between, parts_of, LiesIn};

use crate::numbers::{MAXNAMELEN, MAXPATHLEN};
use arrayvec::ArrayVec;

/// The most names that a path has: each is followed by a slash, or is the last.
pub const NAMES_MAX: usize = MAXPATHLEN as usize / 2;

/// Where a name stands in a path.
#[derive(Clone, Copy, Debug, Default, PartialEq, Eq)]
pub struct Span {
    /// The place of its first byte.
    pub from: u32,
    /// The place behind its last byte.
    pub to: u32,
}

/// A path, or a name in it, is too long.
#[derive(Clone, Copy, Debug, PartialEq, Eq)]
pub struct BadPath;

/// Puts a name behind the others if there is one between these places.
fn add_name(names: &mut ArrayVec<Span, NAMES_MAX>, from: usize, to: usize) -> Result<(), BadPath>
    requires room { length names.old.items < NAMES_MAX }
    requires order { from ≤ to }
    requires small { to < MAXPATHLEN }
    ensures ok { OnOk result (nat_lt (to - from) MAXNAMELEN ≡ true) }
    ensures err { OnErr result (nat_lt (to - from) MAXNAMELEN ≡ false) }
    ensures names { OnOk result (names.new.items ≡ names.old.items ++ span_between from to) }
{
    if to - from >= MAXNAMELEN as usize {
        return Err(BadPath);
    }
    if from < to {
        names.push(Span {
            from: from as u32,
            to: to as u32,
        });
    }
    Ok(())
}

/// Where the names stand in a path: between its slashes, where several slashes count as one and those at either end don't
/// count. It is refused exactly where the path has over 1,023 bytes or a name has over 127. (MIT 6.828, fs/fs.c,
/// `walk_path`)
pub fn parts(path: &[u8]) -> Result<ArrayVec<Span, NAMES_MAX>, BadPath>
    ensures ok { IfOk result (λ names. parts_of path.now ≡ Some names.items) }
    ensures lie { IfOk result (λ names. All (LiesIn (length path.now)) names.items) }
    ensures err { OnErr result (parts_of path.now ≡ None) }
{
    if path.len() >= MAXPATHLEN as usize {
        return Err(BadPath);
    }
    let mut names = ArrayVec::new();
    let mut from = 0;
    for (at, byte) in path.iter().enumerate() {
        if *byte == b'/' {
            add_name(&mut names, from, at)?;
            from = at + 1;
        }
    }
    add_name(&mut names, from, path.len())?;
    Ok(names)
}

//! What the shell asks the library for.

use crate::text::Text;
use arrayvec::ArrayVec;
use fs_layout::Span;
use jos_shell::WORDS_MAX;

/// A path, by where it stands in the line.
#[derive(Clone, Copy)]
pub struct Path {
    /// Whether a slash is put before it.
    pub slash: bool,
    pub word: Span,
}

/// A call of the library with what the shell gives it, as the script of a line has it. Words are told by where they stand in the
/// line.
#[derive(Drop)]
pub enum ShellCall {
    /// A text is printed on the console.
    Print(Text),
    /// A pipe is made.
    Pipe,
    /// A child is made.
    Fork,
    /// A descriptor is made to name what another one names.
    Dup {
        old: u32,
        new: u32,
    },
    /// A descriptor is closed.
    Close(u32),
    /// A file is opened in a mode.
    OpenFile {
        path: Span,
        mode: u32,
    },
    /// A program is started with words.
    Spawn {
        path: Path,
        words: ArrayVec<Span, WORDS_MAX>,
    },
    /// The end of the environment with this id is waited for.
    Wait(u32),
    /// The environment ends.
    Exit,
}

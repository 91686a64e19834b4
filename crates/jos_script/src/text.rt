//! What the shell prints.

ghost use Rattle.std.specs.Prelude.{◌≡◌, ◌+◌, ◌≤◌, ◌++◌, length, codes, decimal};
ghost use Rattle.arrayvec.specs.ArrayVec.{array_vec_len};
ghost use Rattle.jos_script.specs.ShellScript.{text_bytes};

use crate::numbers::TEXT_MAX;
use crate::words::word;
use arrayvec::ArrayVec;
use fs_layout::Span;
use itoa::Buffer;
use jos_shell::LINE_MAX;

/// A line that the shell prints.
#[derive(Clone, Copy)]
pub enum Text {
    /// The line of commands can't be read.
    SyntaxError,
    /// A file can't be opened.
    CannotBeOpened(Span),
    /// There is no such program.
    NotFound(Span),
    /// A program can't be started, for the error with this number.
    WordError(Span, u32),
    /// No pipe or no child can be made, for the error with this number.
    Error(u32),
}

/// The bytes of a text.
pub type TextBytes = ArrayVec<u8, TEXT_MAX>;

/// Puts bytes behind those of a text.
fn push(text: &mut TextBytes, bytes: &[u8])
    requires { array_vec_len text.old + length bytes.now ≤ TEXT_MAX }
    ensures { text.new.items ≡ text.old.items ++ bytes.now }
{
    text.try_extend_from_slice(bytes).unwrap();
}

/// What is said of a word, where there is one.
fn said(word: &[u8], what: &[u8]) -> TextBytes
    requires { length word.now + length what.now ≤ TEXT_MAX }
    ensures { result.items ≡ word.now ++ what.now }
{
    let mut text = TextBytes::new();
    push(&mut text, word);
    push(&mut text, what);
    text
}

/// What is said of a word, where there is one, with an error's number.
fn said_with_error(word: &[u8], what: &[u8], error: u32) -> TextBytes
    requires { length word.now + length what.now + 11 ≤ TEXT_MAX }
    ensures { result.items ≡ word.now ++ what.now ++ decimal error ++ codes "\n" }
{
    let mut text = said(word, what);
    let mut digits = Buffer::new();
    push(&mut text, digits.format(error).as_bytes());
    push(&mut text, b"\n");
    text
}

impl Text {
    /// Its bytes. The line may have a byte more than it is to have.
    #[tactic(auto, unfolding(crate::specs::ShellScript::text_bytes))]
    pub fn bytes(self, line: &[u8]) -> TextBytes
        requires { length line.now ≤ LINE_MAX + 1 }
        ensures { result.items ≡ text_bytes line.now self }
    {
        match self {
            Text::SyntaxError => said(b"", b"syntax error\n"),
            Text::CannotBeOpened(file) => said(word(line, file), b": cannot be opened\n"),
            Text::NotFound(program) => said(word(line, program), b": not found\n"),
            Text::WordError(program, error) => {
                said_with_error(word(line, program), b": error ", error)
            }
            Text::Error(error) => said_with_error(b"", b"error ", error),
        }
    }
}

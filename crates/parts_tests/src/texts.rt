//! Texts between quotes.

use std::alloc::{AllocError, Global};

/// The byte that a letter behind a backslash is, as in Rust, and `\v`.
fn escaped(letter: u8) -> u8 {
    match letter {
        b'0' => 0,
        b't' => b'\t',
        b'r' => b'\r',
        b'n' => b'\n',
        b'v' => 0x0b,
        other => other,
    }
}

/// The bytes of a text between quotes.
pub(crate) fn text_of(alloc: Global, quoted: &str) -> Result<Vec<u8>, AllocError> {
    let mut text = Vec::new(alloc);
    let mut behind_backslash = false;
    for byte in quoted.as_bytes() {
        if behind_backslash {
            text.push(escaped(*byte))?;
            behind_backslash = false;
        } else if *byte == b'\\' {
            behind_backslash = true;
        } else if *byte != b'"' {
            text.push(*byte)?;
        }
    }
    Ok(text)
}

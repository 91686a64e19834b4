//! What is told as text.

use std::alloc::{AllocError, Global};
use std::str::from_utf8;

/// Numbers, one behind another.
pub(crate) fn tell_numbers(alloc: Global, numbers: &[u32]) -> Result<String, AllocError> {
    let mut text = String::new(alloc);
    for number in numbers {
        if !text.is_empty() {
            text.push_str(" ")?;
        }
        write!(text, "{number:x}")?;
    }
    Ok(text)
}

/// What was printed, in quotes.
pub(crate) fn quoted(alloc: Global, printed: &[u8]) -> Result<String, AllocError> {
    match from_utf8(printed) {
        Ok(printed) => format!(in alloc; "{printed:?}"),
        Err(_) => String::from_str(alloc, "no text"),
    }
}

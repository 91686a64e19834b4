//! Words of a line, and bytes that are given in hexadecimal digits.

use std::alloc::{AllocError, Global};

/// What stands behind the first word.
pub fn rest_of(given: &str) -> &str {
    let (_, rest) = given.split_once(' ').unwrap_or((given, ""));
    rest
}

/// What a digit counts; 0 where it is none.
fn digit(byte: u8) -> u8 {
    match byte {
        b'0'..=b'9' => byte - b'0',
        b'a'..=b'f' => byte - b'a' + 10,
        _ => 0,
    }
}

/// The bytes that digits spell, two for each.
pub fn given_bytes(alloc: Global, digits: &str) -> Result<Vec<u8>, AllocError> {
    let mut bytes = Vec::new(alloc);
    for pair in digits.as_bytes().chunks_exact(2) {
        if let [high, low] = pair {
            bytes.push(digit(*high) << 4 | digit(*low))?;
        }
    }
    Ok(bytes)
}

/// Bytes as digits.
pub fn tell_bytes(alloc: Global, bytes: &[u8]) -> Result<String, AllocError> {
    let mut text = String::new(alloc);
    for byte in bytes {
        write!(text, "{byte:02x}")?;
    }
    Ok(text)
}

//! The words of a case, which are read one after another. A word that is none of its kind is read as 0 or as the first
//! of its kind, so that the answer is not the one that is wanted.

use std::alloc::Global;
use std::io;

/// The words that are not read yet.
#[derive(Clone, Copy)]
pub struct Words<'a> {
    rest: &'a str,
}

impl<'a> Words<'a> {
    /// The words of a case.
    pub fn new(rest: &'a str) -> Words<'a> {
        Words { rest }
    }

    /// All that is left.
    pub fn rest(&self) -> &'a str {
        self.rest
    }

    /// The next word; behind the last there are empty ones.
    pub fn word(&mut self) -> &'a str {
        let (word, rest) = self.rest.split_once(' ').unwrap_or((self.rest, ""));
        self.rest = rest;
        word
    }

    /// A number of 32 bits.
    pub fn number(&mut self) -> u32 {
        u32::from_str_radix(self.word(), 16).unwrap_or(0)
    }

    /// A number of 64 bits.
    pub fn long(&mut self) -> u64 {
        u64::from_str_radix(self.word(), 16).unwrap_or(0)
    }

    /// A number of 8 bits.
    pub fn byte(&mut self) -> u8 {
        self.register().unwrap_or(0)
    }

    /// The number of a register, or a word that is none.
    pub fn register(&mut self) -> Option<u8> {
        u8::from_str_radix(self.word(), 16).ok()
    }

    /// Bytes, each as two digits.
    pub fn bytes(&mut self, alloc: Global) -> io::Result<Vec<u8>> {
        bytes_of(alloc, self.word())
    }
}

/// The bytes that digits spell.
pub fn bytes_of(alloc: Global, digits: &str) -> io::Result<Vec<u8>> {
    match hex::decode(alloc, digits) {
        Ok(bytes) => Ok(bytes),
        Err(_) => Err(io::Error::from(io::ErrorKind::InvalidData)),
    }
}

/// What has this name in a table.
pub fn named<T: Copy>(table: &[(&str, T)], word: &str) -> Option<T> {
    for (name, value) in table {
        if *name == word {
            return Some(*value);
        }
    }
    None
}

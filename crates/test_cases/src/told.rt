//! What comes of a case.

use crate::digits::register_words;
use jos_base::Regs;
use std::alloc::{AllocError, Global};
use std::fmt;

/// What comes of a case, as it is printed.
#[derive(Drop)]
pub enum Shown {
    Nothing,
    /// Whether it is so.
    Is(bool),
    /// A count or a frame's number, in decimal.
    Count(u64),
    /// A word, in hexadecimal.
    Word(u32),
    /// Words, in hexadecimal, with a blank between them.
    Words(Vec<u32>),
    /// A text as it stands.
    Text(String),
}

impl Shown {
    /// A word, if there is one.
    pub fn word(word: Option<u32>) -> Shown {
        word.map_or(Shown::Nothing, Shown::Word)
    }

    /// A slot or a frame, if there is one.
    pub fn count(count: Option<u64>) -> Shown {
        count.map_or(Shown::Nothing, Shown::Count)
    }

    /// Whether it is so, if that can be said.
    pub fn is(is: Option<bool>) -> Shown {
        is.map_or(Shown::Nothing, Shown::Is)
    }

    /// Words.
    pub fn words(alloc: Global, words: &[u32]) -> Result<Shown, AllocError> {
        Ok(Shown::Words(words.to_vec(alloc)?))
    }

    /// EAX, ECX, EDX, EBX, ESP, EBP, ESI, EDI, EIP and EFLAGS.
    pub fn registers(alloc: Global, registers: &Regs) -> Result<Shown, AllocError> {
        Shown::words(alloc, &register_words(registers))
    }
}

impl fmt::Display for Shown {
    fn fmt<W: fmt::Write>(&self, f: &mut fmt::Formatter<W>) -> fmt::Result {
        match self {
            Shown::Nothing => write!(f, "none"),
            Shown::Is(is) => write!(f, "{is}"),
            Shown::Count(count) => write!(f, "{count}"),
            Shown::Word(word) => write!(f, "{word:#x}"),
            Shown::Words(words) => {
                for (place, word) in words.iter().enumerate() {
                    let blank = if place == 0 { "" } else { " " };
                    write!(f, "{blank}{word:#x}")?;
                }
                Ok(())
            }
            Shown::Text(text) => write!(f, "{text}"),
        }
    }
}

//! What the library answers.

ghost use Rattle.std.specs.Prelude.{◌≡◌, true, false, IfOk, OnOk, IfErr, OnErr};
ghost use Rattle.jos_script.specs.ShellScript.{word_of, is_count, error_of};

/// The descriptors of a pipe.
#[derive(Clone, Copy)]
pub struct Ends {
    /// Of its reading end.
    pub reading: u8,
    /// Of its writing end.
    pub writing: u8,
}

/// What a call of the library answers.
#[derive(Clone, Copy)]
pub enum Answer {
    /// A word: an id, a descriptor, 0, or an error's number, negated.
    Word(u32),
    /// A pipe was made.
    Made(Ends),
    /// A byte was read.
    Byte(u8),
}

impl Answer {
    /// The word that is answered.
    pub(crate) fn word(self) -> u32
        ensures { result ≡ word_of self }
    {
        match self {
            Answer::Word(word) => word,
            Answer::Made(_) => 0,
            Answer::Byte(_) => 1,
        }
    }
}

/// The number of the error that a word answers.
pub(crate) fn error_of(word: u32) -> u32
    ensures { result ≡ error_of word }
{
    0u32.wrapping_sub(word)
}

/// What a word answers: a count, as an id or a descriptor, or the number of an error.
pub(crate) fn count_of(word: u32) -> Result<u32, u32>
    ensures count { OnOk result (is_count word ≡ true) }
    ensures ok { IfOk result (λ count. count ≡ word) }
    ensures error { OnErr result (is_count word ≡ false) }
    ensures err { IfErr result (λ error. error ≡ error_of word) }
{
    if word < 0x8000_0000 {
        Ok(word)
    } else {
        Err(error_of(word))
    }
}

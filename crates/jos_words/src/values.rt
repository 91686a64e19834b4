//! The values of options.

ghost use Rattle.std.specs.Prelude.{◌≡◌};
ghost use Rattle.std.specs.Str.{all_ascii_digits};
ghost use Rattle.jos_words.specs.Values.{is_value, is_number, number_of};

/// The most digits that a number may have.
pub const DIGITS_MAX: usize = 20;

/// A number of the command line, and the place of the word that has it, as in `WordAt`.
#[derive(Clone, Copy, Debug, PartialEq, Eq)]
pub struct NumberAt {
    pub place: usize,
    /// Any number of at most 20 digits: no range is tested.
    pub value: u128,
}

/// Whether a text may be an option's value: it is not empty and does not begin with `-`.
pub(crate) fn is_value(text: &str) -> bool
    ensures { result ≡ is_value text.now }
{
    match text.as_bytes() {
        [] => false,
        [first, ..] => *first != b'-',
    }
}

/// Whether all bytes are decimal digits.
fn all_ascii_digits(text: &[u8]) -> bool
    ensures { result ≡ all_ascii_digits text.now }
{
    for byte in text {
        if !byte.is_ascii_digit() {
            return false;
        }
    }
    true
}

/// Whether a text is 1 to 20 decimal digits.
fn is_number(text: &str) -> bool
    ensures { result ≡ is_number text.now }
{
    text.len() >= 1 && text.len() <= DIGITS_MAX && all_ascii_digits(text.as_bytes())
}

/// The number that a text is.
#[tactic(auto, unfolding(crate::specs::Values::number_of))]
pub(crate) fn number_of(text: &str) -> Option<u128>
    ensures { result ≡ number_of text.now }
{
    if is_number(text) {
        Some(text.parse().unwrap())
    } else {
        None
    }
}

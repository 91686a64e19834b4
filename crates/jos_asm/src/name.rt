//! Names of labels.

ghost use Rattle.std.specs.Prelude.{◌≡◌, ◌≤◌, Some, length, nat_eq};
ghost use Rattle.std.specs.Cmp.{on_equiv, on_per, partial_equiv_from_equiv};
ghost use Rattle.std.specs.Cmp.Lexicographic.{pointwise, nat_list_eq_equiv};
ghost use Rattle.std.specs.Fmt.{styled_text};

use crate::limits::NAME_MAX;
use arrayvec::ArrayString;
use std::fmt;
use std::marker::Model;

/// The name of a label: 1 to `NAME_MAX` ASCII bytes.
#[derive(Drop)]
pub struct Name(ArrayString<NAME_MAX>);

impl Model for Name {
    ghost use Rattle.std.specs.Prelude.{ℕ, List};

    ghost Value = { List ℕ };

    ghost view = { λ n. n.0.bytes };
}

impl Name {
    /// A name of this text, which has at most `NAME_MAX` bytes.
    pub(crate) fn new(text: &str) -> Name
        requires { length text.now ≤ NAME_MAX }
        ensures { result ≡ text.now }
    {
        let mut name = ArrayString::new();
        name.push_str(text);
        Name(name)
    }

    /// The same name.
    pub(crate) fn copy(&self) -> Name
        ensures { result ≡ self.now }
    {
        Name(self.0)
    }

    /// The text.
    pub fn as_str(&self) -> &str
        ensures { result.now ≡ self.now }
    {
        self.0.as_str()
    }
}

impl PartialEq for Name {
    ghost eq = { λ a b. pointwise nat_eq a b };

    ghost laws = { on_per (λ n. n) (partial_equiv_from_equiv nat_list_eq_equiv) };

    fn eq(&self, other: &Self) -> bool {
        self.as_str() == other.as_str()
    }
}

impl Eq for Name {
    ghost laws = { on_equiv (λ n. n) nat_list_eq_equiv };
}

impl fmt::Display for Name {
    ghost output = { λ n. Some n };

    ghost styled_output = { λ n spec. Some (styled_text spec n) };

    fn fmt<W: fmt::Write>(&self, f: &mut fmt::Formatter<W>) -> fmt::Result {
        f.pad(self.as_str())
    }
}

impl fmt::Debug for Name {
    fn fmt<W: fmt::Write>(&self, f: &mut fmt::Formatter<W>) -> fmt::Result {
        fmt::Debug::fmt(&self.as_str(), f)
    }
}

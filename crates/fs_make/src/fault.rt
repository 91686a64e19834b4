//! Why no image is made.

ghost use Rattle.std.specs.Prelude.{◌≡◌, ◌+◌, ◌≤◌, ◌++◌, length, decimal};
ghost use Rattle.arrayvec.specs.ArrayString.{array_string_len};

use arrayvec::ArrayString;
use itoa::Buffer;
use std::error::Error;
use std::fmt;

/// Why no image is made of files: the first test that fails. A file is told by its place, from 0.
#[derive(Clone, Copy, Debug, PartialEq, Eq)]
pub enum MakeFault {
    /// The number of blocks is not one that a disk may have.
    TooManyBlocks,
    /// The file's name is empty, too long, or has a slash or a NUL.
    BadName(u32),
    /// The file has the name of one before it.
    TwiceNamed(u32),
    /// The file is longer than a disk can hold.
    TooLong(u32),
    /// The blocks are too few, or the root directory would be too long.
    NoRoom,
    /// There was no memory for the image.
    NoMemory,
}

/// The text of a fault.
pub type MakeFaultText = ArrayString<MAKE_FAULT_TEXT_MAX>;

/// The bytes of the longest text, `twice named` with a number of ten digits.
const MAKE_FAULT_TEXT_MAX: usize = 22;

/// Adds a number in decimal digits, of which a `u32` has ten at most.
fn push_number(text: &mut MakeFaultText, number: u32)
    requires { array_string_len text.old + 10 ≤ MAKE_FAULT_TEXT_MAX }
    ensures bytes { text.new.bytes ≡ text.old.bytes ++ decimal number }
    ensures len { array_string_len text.new ≤ array_string_len text.old + 10 }
{
    text.push_str(Buffer::new().format(number));
}

impl MakeFault {
    ghost use Rattle.fs_make.specs.FaultTexts.{make_fault_text};

    /// The text by which the fault is told, made without memory.
    #[tactic(auto, unfolding(crate::specs::FaultTexts::make_fault_text))]
    pub fn text(&self) -> MakeFaultText
        ensures text { result.bytes ≡ make_fault_text self.now }
        ensures len { length result.bytes ≤ MAKE_FAULT_TEXT_MAX }
    {
        let mut text = MakeFaultText::new();
        match self {
            MakeFault::TooManyBlocks => text.push_str("too many blocks"),
            MakeFault::BadName(place) => {
                text.push_str("bad name ");
                push_number(&mut text, *place);
            }
            MakeFault::TwiceNamed(place) => {
                text.push_str("twice named ");
                push_number(&mut text, *place);
            }
            MakeFault::TooLong(place) => {
                text.push_str("too long ");
                push_number(&mut text, *place);
            }
            MakeFault::NoRoom => text.push_str("no room"),
            MakeFault::NoMemory => text.push_str("out of memory"),
        }
        text
    }
}

impl fmt::Display for MakeFault {
    ghost use Rattle.std.specs.Prelude.{Some};
    ghost use Rattle.fs_make.specs.FaultTexts.{make_fault_text};

    ghost output = { λ fault. Some (make_fault_text fault) };

    fn fmt<W: fmt::Write>(&self, f: &mut fmt::Formatter<W>) -> fmt::Result {
        f.write_str(self.text().as_str())
    }
}

impl Error for MakeFault {}

//! Why a file is not read.

ghost use Rattle.std.specs.Prelude.{◌≡◌, ◌+◌, ◌≤◌, ◌++◌, length, decimal};
ghost use Rattle.arrayvec.specs.ArrayString.{array_string_len};

use arrayvec::ArrayString;
use itoa::Buffer;
use std::error::Error;
use std::fmt;

/// Why a file is no image: the first test that fails. The numbers of segments are places in the table of
/// program headers, from 0.
#[derive(Clone, Copy, Debug, PartialEq, Eq)]
pub enum ElfFault {
    /// The ELF header, the program headers or the bytes of a segment do not lie wholly in the file, which
    /// has this many bytes.
    Truncated(u32),
    /// The file does not begin as an ELF file does.
    Magic,
    /// Its words are not 32 bits wide with the lowest byte first.
    Class,
    /// It is no executable.
    Kind,
    /// It is not for the 80386.
    Machine,
    /// A program header has not `PHDR_LEN` bytes.
    EntrySize,
    /// There are more than `SEGMENT_MAX` program headers.
    TooMany,
    /// This segment has less memory than bytes, or lies where no program may.
    SegmentRange(u32),
    /// The first segment shares a byte of memory with the second, the first in the table that does.
    Overlap(u32, u32),
}

/// The text of a fault.
pub type FaultText = ArrayString<FAULT_TEXT_MAX>;

/// The bytes of the longest text, `overlap` with two numbers of ten digits.
const FAULT_TEXT_MAX: usize = 29;

/// Adds a number in decimal digits, of which a `u32` has ten at most.
fn push_number(text: &mut FaultText, number: u32)
    requires { array_string_len text.old + 10 ≤ FAULT_TEXT_MAX }
    ensures bytes { text.new.bytes ≡ text.old.bytes ++ decimal number }
    ensures len { array_string_len text.new ≤ array_string_len text.old + 10 }
{
    text.push_str(Buffer::new().format(number));
}

impl ElfFault {
    ghost use Rattle.jos_elf.specs.FaultTexts.{fault_text};

    /// The text by which the fault is told, made without memory.
    #[tactic(auto, unfolding(crate::specs::FaultTexts::fault_text))]
    pub fn text(&self) -> FaultText
        ensures text { result.bytes ≡ fault_text self.now }
        ensures len { length result.bytes ≤ FAULT_TEXT_MAX }
    {
        let mut text = FaultText::new();
        match self {
            ElfFault::Truncated(len) => {
                text.push_str("truncated ");
                push_number(&mut text, *len);
            }
            ElfFault::Magic => text.push_str("magic"),
            ElfFault::Class => text.push_str("class"),
            ElfFault::Kind => text.push_str("kind"),
            ElfFault::Machine => text.push_str("machine"),
            ElfFault::EntrySize => text.push_str("entry size"),
            ElfFault::TooMany => text.push_str("too many"),
            ElfFault::SegmentRange(place) => {
                text.push_str("segment range ");
                push_number(&mut text, *place);
            }
            ElfFault::Overlap(place, other) => {
                text.push_str("overlap ");
                push_number(&mut text, *place);
                text.push_str(" ");
                push_number(&mut text, *other);
            }
        }
        text
    }
}

impl fmt::Display for ElfFault {
    ghost use Rattle.std.specs.Prelude.{Some};
    ghost use Rattle.jos_elf.specs.FaultTexts.{fault_text};

    ghost output = { λ fault. Some (fault_text fault) };

    fn fmt<W: fmt::Write>(&self, f: &mut fmt::Formatter<W>) -> fmt::Result {
        f.write_str(self.text().as_str())
    }
}

impl Error for ElfFault {}

//! Why bytes are no disk image.

ghost use Rattle.std.specs.Prelude.{◌≡◌, ◌+◌, ◌≤◌, ◌++◌, length, decimal};
ghost use Rattle.arrayvec.specs.ArrayString.{array_string_len};

use arrayvec::ArrayString;
use itoa::Buffer;
use std::error::Error;
use std::fmt;

/// Why bytes are no disk image: the first test that fails. A record is told by its place.
#[derive(Clone, Copy, Debug, PartialEq, Eq)]
pub enum ImageFault {
    /// There are under three blocks, or fewer bytes than the number of blocks says.
    TooShort,
    /// The magic word is another.
    Magic,
    /// The number of blocks is not one that a disk may have.
    BlockCount,
    /// The root is no directory.
    RootKind,
    /// The record's kind is neither a file's nor a directory's.
    Kind(u64),
    /// Its name has no NUL, or a slash.
    BadName(u64),
    /// It is a directory whose size is not that of whole blocks.
    DirSize(u64),
    /// Its size is past the greatest.
    TooLong(u64),
    /// It lacks a block within its size.
    Hole(u64),
    /// This block is named and is none that a record may name.
    Range(u32),
    /// This block was named before.
    NamedTwice(u32),
    /// This block is in use and marked free.
    MarkedFree(u32),
    /// The record names a block past its size.
    Stray(u64),
    /// A record that comes before it in its directory has its name.
    SameName(u64),
}

/// The text of a fault.
pub type ImageFaultText = ArrayString<FAULT_TEXT_MAX>;

/// The bytes of the longest text, `same name` with a number of twenty digits.
const FAULT_TEXT_MAX: usize = 30;

/// Adds a place in decimal digits, of which a `u64` has twenty at most.
fn push_place(text: &mut ImageFaultText, place: u64)
    requires { array_string_len text.old + 20 ≤ FAULT_TEXT_MAX }
    ensures bytes { text.new.bytes ≡ text.old.bytes ++ decimal place }
    ensures len { array_string_len text.new ≤ array_string_len text.old + 20 }
{
    text.push_str(Buffer::new().format(place));
}

/// Adds a block's number in decimal digits, of which a `u32` has ten at most.
fn push_block(text: &mut ImageFaultText, block: u32)
    requires { array_string_len text.old + 10 ≤ FAULT_TEXT_MAX }
    ensures bytes { text.new.bytes ≡ text.old.bytes ++ decimal block }
    ensures len { array_string_len text.new ≤ array_string_len text.old + 10 }
{
    text.push_str(Buffer::new().format(block));
}

impl ImageFault {
    ghost use Rattle.fs_image.specs.FaultTexts.{image_fault_text};

    /// The text by which the fault is told, made without memory.
    #[tactic(auto, unfolding(crate::specs::FaultTexts::image_fault_text))]
    pub fn text(&self) -> ImageFaultText
        ensures text { result.bytes ≡ image_fault_text self.now }
        ensures len { length result.bytes ≤ FAULT_TEXT_MAX }
    {
        let mut text = ImageFaultText::new();
        match self {
            ImageFault::TooShort => text.push_str("too short"),
            ImageFault::Magic => text.push_str("magic"),
            ImageFault::BlockCount => text.push_str("block count"),
            ImageFault::RootKind => text.push_str("root kind"),
            ImageFault::Kind(place) => {
                text.push_str("kind ");
                push_place(&mut text, *place);
            }
            ImageFault::BadName(place) => {
                text.push_str("bad name ");
                push_place(&mut text, *place);
            }
            ImageFault::DirSize(place) => {
                text.push_str("dir size ");
                push_place(&mut text, *place);
            }
            ImageFault::TooLong(place) => {
                text.push_str("too long ");
                push_place(&mut text, *place);
            }
            ImageFault::Hole(place) => {
                text.push_str("hole ");
                push_place(&mut text, *place);
            }
            ImageFault::Range(block) => {
                text.push_str("range ");
                push_block(&mut text, *block);
            }
            ImageFault::NamedTwice(block) => {
                text.push_str("named twice ");
                push_block(&mut text, *block);
            }
            ImageFault::MarkedFree(block) => {
                text.push_str("marked free ");
                push_block(&mut text, *block);
            }
            ImageFault::Stray(place) => {
                text.push_str("stray ");
                push_place(&mut text, *place);
            }
            ImageFault::SameName(place) => {
                text.push_str("same name ");
                push_place(&mut text, *place);
            }
        }
        text
    }
}

impl fmt::Display for ImageFault {
    ghost use Rattle.std.specs.Prelude.{Some};
    ghost use Rattle.fs_image.specs.FaultTexts.{image_fault_text};

    ghost output = { λ fault. Some (image_fault_text fault) };

    fn fmt<W: fmt::Write>(&self, f: &mut fmt::Formatter<W>) -> fmt::Result {
        f.write_str(self.text().as_str())
    }
}

impl Error for ImageFault {}

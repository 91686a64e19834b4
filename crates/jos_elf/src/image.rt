//! Images as values.

ghost use Rattle.std.specs.Prelude.{◌≡◌};

use arrayvec::ArrayVec;
use jos_base::SEGMENT_MAX;
use std::marker::Model;

/// The most segments, each of which has a program header.
const SEGMENTS: usize = SEGMENT_MAX as usize;

/// A run of memory and the bytes of the file that begin it.
#[derive(Clone, Copy, Debug, Default, PartialEq, Eq)]
pub struct Segment {
    /// The first address.
    pub va: u32,
    /// How many bytes of memory.
    pub mem_len: u32,
    /// The place of the bytes in the file.
    pub file_at: u32,
    /// How many bytes of the file.
    pub file_len: u32,
    /// Whether its pages may be written.
    pub writable: bool,
}

/// Where a program starts, and its segments in the order of their headers.
#[derive(Debug, Drop)]
pub struct Image {
    pub entry: u32,
    pub segments: ArrayVec<Segment, SEGMENTS>,
}

impl Model for Image {
    ghost use Rattle.jos_elf.specs.Parsed.{Layout};

    ghost Value = { Layout };

    ghost view = { λ i. record { entry = i.entry; segments = i.segments.items } };
}

impl Image {
    /// The address of the first instruction.
    pub fn entry(&self) -> u32
        ensures { result ≡ self.now.entry }
    {
        self.entry
    }

    /// The segments, in the order of their headers.
    pub fn segments(&self) -> &[Segment]
        ensures { result.now ≡ self.now.segments }
    {
        self.segments.as_slice()
    }
}

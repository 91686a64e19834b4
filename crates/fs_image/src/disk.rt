//! What is read.

ghost use Rattle.std.specs.Prelude.{◌≡◌, ◌+◌, ◌<◌, ◌≤◌, ◌^◌, length, take, drop, slice_index};
ghost use Rattle.jos_base.specs.Words.{word_at};
ghost use Rattle.fs_layout.specs.DiskImage.{name_of};

use fs_layout::MAXNAMELEN;

/// Bytes in memory that may be a disk image. Each place has a byte, past the last too: there it is 0.
#[derive(Clone, Copy)]
pub struct MemoryDisk<'a> {
    bytes: &'a [u8],
}

impl<'a> MemoryDisk<'a> {
    pub fn new(bytes: &'a [u8]) -> MemoryDisk<'a>
        ensures { result.bytes.now ≡ bytes.now }
    {
        MemoryDisk { bytes }
    }

    /// The byte at a place.
    pub fn byte(&self, place: u64) -> u8
        ensures { result ≡ slice_index self.now.bytes.now place }
    {
        if place < self.bytes.len() as u64 {
            self.bytes[place as usize]
        } else {
            0
        }
    }

    /// The word at a place, the lowest byte first.
    pub(crate) fn word(&self, place: u64) -> u32
        requires { place < 2 ^ 60 }
        ensures { result ≡ word_at (slice_index self.now.bytes.now) place }
    {
        u32::from_le_bytes([
            self.byte(place),
            self.byte(place + 1),
            self.byte(place + 2),
            self.byte(place + 3),
        ])
    }

    /// So many bytes from a place on.
    fn piece(&self, place: u64, len: usize) -> &'a [u8]
        requires { 0 < len → place + len ≤ length self.now.bytes.now }
        ensures { result.now ≡ take len (drop place self.now.bytes.now) }
    {
        if len == 0 {
            return &[];
        }
        &self.bytes[place as usize..place as usize + len]
    }

    /// The bytes of the name at a place, before its NUL or all of them.
    pub fn name(&self, place: u64) -> &'a [u8]
        requires { place < 2 ^ 60 }
        ensures { result.now ≡ name_of (slice_index self.now.bytes.now) place }
    {
        for len in 0..MAXNAMELEN {
            if self.byte(place + len as u64) == 0 {
                return self.piece(place, len as usize);
            }
        }
        self.piece(place, MAXNAMELEN as usize)
    }
}

//! Frames, and accesses to memory.

/// A page frame, by its number: the physical address of its first byte, divided by `PGSIZE`.
#[derive(Clone, Copy, Debug, PartialEq, Eq)]
pub struct Frame(pub u32);

/// Where a byte lies in memory.
#[derive(Clone, Copy, Debug, PartialEq, Eq)]
pub struct Location {
    pub frame: Frame,
    /// The place in the frame, below `PGSIZE`.
    pub offset: u32,
}

/// How memory is reached.
#[derive(Clone, Copy, Debug, PartialEq, Eq)]
pub enum Access {
    Read,
    Write,
}

/// A user access that the page tables refuse.
#[derive(Clone, Copy, Debug, PartialEq, Eq)]
pub struct PageFault {
    /// The address.
    pub va: u32,
    /// The processor's error code: bit 0 where an entry is there, bit 1 for a write, bit 2 for a user.
    /// (Intel 80386 Programmer's Reference Manual, 1986, section 9.8.14)
    pub error: u32,
}

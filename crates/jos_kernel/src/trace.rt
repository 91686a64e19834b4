//! The traps that a run raised, the last of which are kept.

use circular_buffer::HeapCircularBuffer;

/// A trap that an instruction raised.
#[derive(Clone, Copy, Debug, PartialEq, Eq)]
pub struct TrapLine {
    /// The id of the environment.
    pub id: u32,
    /// The trap's number. (MIT 6.828, inc/trap.h)
    pub trap: u8,
    /// Its error code.
    pub error: u32,
    /// The address of a page fault, and else 0.
    pub va: u32,
    /// The address that it is told for: that of the instruction, and for the breakpoint that after it.
    pub ip: u32,
}

/// The last traps, the earliest first.
pub type Trace = HeapCircularBuffer<TrapLine>;

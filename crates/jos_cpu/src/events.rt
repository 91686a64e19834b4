//! What comes of a step.

/// Which gate is open to a program beside the breakpoint's, 3.
#[derive(Clone, Copy, Debug, PartialEq, Eq)]
pub enum Gates {
    /// That of the exokernel's system calls, 0x30.
    Exo,
    /// That of the library's services, 0x40.
    Run,
}

/// What comes of a step.
#[derive(Clone, Copy, Debug, PartialEq, Eq)]
pub enum Event {
    /// The instruction is done, or one repetition of it.
    Next,
    /// An interrupt whose gate is open. EIP is past the instruction.
    Soft(u8),
    /// A trap with its error code. The registers are as they were. The address is that of a page fault, else 0.
    Raised { trap: u8, error: u32, va: u32 },
}

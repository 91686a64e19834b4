//! The conditions of jumps and of SETcc.

/// A condition on the flags, in the order of the opcode map.
/// (Intel 80386 Programmer's Reference Manual, 1986, appendix D)
#[derive(Clone, Copy, Debug, PartialEq, Eq)]
pub enum Condition {
    Overflow,
    NotOverflow,
    /// Of unsigned numbers.
    Below,
    AboveOrEqual,
    Equal,
    NotEqual,
    BelowOrEqual,
    Above,
    Sign,
    NotSign,
    ParityEven,
    ParityOdd,
    /// Of signed numbers.
    Less,
    GreaterOrEqual,
    LessOrEqual,
    Greater,
}

//! The operations of arithmetic and logic that share their forms.

/// An operation on two numbers, in the order of the opcode map.
/// (Intel 80386 Programmer's Reference Manual, 1986, section 17.2.2, each under its name)
#[derive(Clone, Copy, Debug, PartialEq, Eq)]
pub enum Operation {
    Add,
    Or,
    /// Adds CF too.
    Adc,
    /// Takes away CF too.
    Sbb,
    And,
    Sub,
    Xor,
    /// A difference that sets the flags alone.
    Cmp,
}

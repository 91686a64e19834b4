//! The registers of the processor that a user sees.

/// The general registers, the instruction pointer and the flags.
/// (Intel 80386 Programmer's Reference Manual, 1986, section 2.3)
#[derive(Clone, Copy, Debug, PartialEq, Eq)]
pub struct Regs {
    pub eax: u32,
    pub ecx: u32,
    pub edx: u32,
    pub ebx: u32,
    pub esp: u32,
    pub ebp: u32,
    pub esi: u32,
    pub edi: u32,
    pub eip: u32,
    pub eflags: u32,
}

//! Instructions as values.

/// A single form of an instruction, its operand kinds and width included. `R8` and `R32` are registers, `Rm8`,
/// `Rm16` and `Rm32` operands that are registers or in memory, `Imm8`, `Imm16` and `Imm32` immediates.
///
/// (Intel 80386 Programmer's Reference Manual, 1986, chapter 17; the opcodes are in appendix A.)
#[derive(Clone, Copy, Debug, PartialEq, Eq)]
pub enum Row {
    // An operation by its number: 0 ADD, 1 OR, 2 ADC, 3 SBB, 4 AND, 5 SUB, 6 XOR and 7 CMP.
    AluRm8R8(u8),
    AluRm32R32(u8),
    AluR8Rm8(u8),
    AluR32Rm32(u8),
    AluAlImm8(u8),
    AluEaxImm32(u8),
    AluRm8Imm8(u8),
    AluRm32Imm32(u8),
    /// The immediate is a byte, extended with its sign.
    AluRm32Imm8(u8),

    // one more or one less, and the stack
    IncR32,
    DecR32,
    IncRm8,
    DecRm8,
    IncRm32,
    DecRm32,
    PushR32,
    PopR32,
    PushImm32,
    /// The immediate is a byte, extended with its sign.
    PushImm8,
    PushRm32,
    PopRm32,
    Pusha,
    Popa,
    Pushf,
    Popf,

    // products and quotients
    ImulR32Rm32Imm32,
    /// The immediate is a byte, extended with its sign.
    ImulR32Rm32Imm8,
    ImulR32Rm32,
    MulRm8,
    MulRm32,
    ImulRm8,
    ImulRm32,
    DivRm8,
    DivRm32,
    IdivRm8,
    IdivRm32,
    Cwde,
    Cdq,

    // A jump, or a byte set, by condition c, 0 to 15.
    JccRel8(u8),
    JccRel32(u8),
    SetccRm8(u8),

    // tests, negations and exchanges
    TestRm8R8,
    TestRm32R32,
    TestAlImm8,
    TestEaxImm32,
    TestRm8Imm8,
    TestRm32Imm32,
    NotRm8,
    NotRm32,
    NegRm8,
    NegRm32,
    XchgRm8R8,
    XchgRm32R32,
    XchgEaxR32,

    // moves; `Addr` is an address that stands in the instruction
    MovRm8R8,
    MovRm32R32,
    MovR8Rm8,
    MovR32Rm32,
    MovAlAddr,
    MovEaxAddr,
    MovAddrAl,
    MovAddrEax,
    MovR8Imm8,
    MovR32Imm32,
    MovRm8Imm8,
    MovRm32Imm32,
    MovzxR32Rm8,
    MovzxR32Rm16,
    MovsxR32Rm8,
    MovsxR32Rm16,
    LeaR32Mem,

    // strings
    Movsb,
    Movsd,
    Cmpsb,
    Cmpsd,
    Stosb,
    Stosd,
    Lodsb,
    Lodsd,
    Scasb,
    Scasd,

    // A shift by its number: 0 ROL, 1 ROR, 4 SHL, 5 SHR and 7 SAR. It is by an immediate, by one or by CL.
    ShiftRm8Imm8(u8),
    ShiftRm32Imm8(u8),
    ShiftRm8One(u8),
    ShiftRm32One(u8),
    ShiftRm8Cl(u8),
    ShiftRm32Cl(u8),
    ShldRm32R32Imm8,
    ShldRm32R32Cl,
    ShrdRm32R32Imm8,
    ShrdRm32R32Cl,

    // calls, jumps and returns
    CallRel32,
    CallRm32,
    JmpRel32,
    JmpRel8,
    JmpRm32,
    RetImm16,
    Ret,
    Leave,
    Int3,
    IntImm8,

    // flags
    Cmc,
    Clc,
    Stc,
    Cld,
    Std,

    // what a user program may not do
    InAlImm8,
    InEaxImm8,
    OutImm8Al,
    OutImm8Eax,
    InAlDx,
    InEaxDx,
    OutDxAl,
    OutDxEax,
    Hlt,
    Cli,
    Sti,

    Nop,
}

/// How often an instruction on strings is done.
#[derive(Clone, Copy, Debug, PartialEq, Eq)]
pub enum Repeat {
    Once,
    /// REP and REPE: as often as ECX says, a comparison only while it finds both equal.
    WhileEqual,
    /// REPNE: as often as ECX says, while the comparison finds both different.
    WhileNot,
}

/// Where an instruction's r/m operand is.
#[derive(Clone, Copy, Debug, PartialEq, Eq)]
pub enum Operand {
    /// The instruction has none.
    Absent,
    /// A register, 0 to 7: EAX, ECX, EDX, EBX, ESP, EBP, ESI, EDI; of bytes AL, CL, DL, BL, AH, CH, DH, BH.
    Reg(u8),
    Mem(MemArg),
}

/// An operand in memory, at the sum of base, index times 2^scale, and displacement.
#[derive(Clone, Copy, Debug, PartialEq, Eq)]
pub struct MemArg {
    pub base: Option<u8>,
    pub index: Option<u8>,
    /// 0 to 3; 0 where there is no index.
    pub scale: u8,
    pub disp: Disp,
}

/// A displacement, and how it is spelled.
#[derive(Clone, Copy, Debug, PartialEq, Eq)]
pub enum Disp {
    /// None is spelled.
    Zero,
    /// A byte, which is extended with its sign.
    Byte(i8),
    Word(u32),
}

/// An instruction.
#[derive(Clone, Copy, Debug, PartialEq, Eq)]
pub struct Insn {
    pub row: Row,
    pub repeat: Repeat,
    pub operand: Operand,
    /// The register that the opcode or the reg field names, 0 to 7; 0 where neither names one.
    pub reg: u8,
    /// What ends the instruction, extended to 32 bits: its immediate, the distance of a relative jump or call, or
    /// its address; 0 where there is none.
    pub imm: u32,
}

//! What programs are made of, and the image of a program.

ghost use Rattle.std.specs.Prelude.{◌≡◌, ◌<◌, ◌≤◌, IsTrue, IfOk, length};
ghost use Rattle.jos_isa.specs.Lawful.{is_lawful};
ghost use Rattle.jos_demo.specs.Code.{int, store_byte, load_al, mov_byte, lodsb, stosb, test_al, test_eax, push_eax, pop, dec};
ghost use Rattle.jos_demo.specs.Code.{mov_register, add_register, sub_register, service, with_items, image};
ghost use Rattle.jos_demo.specs.Code.{inc, inc_word, add_byte, div, lodsd, stosd, rep_stosb, store_at_edi};

use jos_asm::{Builder, CODE_MAX};
use jos_base::{NoMemory, T_SERVICE, UTEXT};
use jos_elf::{Part, write};
use jos_isa::{Disp, Insn, MemArg, Operand, Repeat, Row, mov};
use std::alloc::Global;

/// Where the code of programs begins. (MIT 6.828, user/user.ld)
pub(crate) const TEXT: u32 = UTEXT + 0x20;

/// The number of EAX.
pub(crate) const EAX: u8 = 0;

/// The number of ECX.
pub(crate) const ECX: u8 = 1;

/// The number of EDX.
pub(crate) const EDX: u8 = 2;

/// The number of EBX.
pub(crate) const EBX: u8 = 3;

/// The number of ESP.
pub(crate) const ESP: u8 = 4;

/// The number of EBP.
pub(crate) const EBP: u8 = 5;

/// The number of ESI.
pub(crate) const ESI: u8 = 6;

/// The number of EDI.
pub(crate) const EDI: u8 = 7;

/// The number of AL.
pub(crate) const AL: u8 = 0;

/// The number of DL.
pub(crate) const DL: u8 = 2;

/// The number of BL.
pub(crate) const BL: u8 = 3;

/// The number of AH.
pub(crate) const AH: u8 = 4;

/// The number of the operation ADD. (`jos_isa`, `Row`)
const ADD: u8 = 0;

/// The number of the operation SUB. (`jos_isa`, `Row`)
const SUB: u8 = 5;

/// The condition of a jump where what was tested is zero.
pub(crate) const ZERO: u8 = 4;

/// The condition of a jump where what was tested is not zero.
pub(crate) const NOT_ZERO: u8 = 5;

/// The condition of a jump where what was tested is negative.
pub(crate) const NEGATIVE: u8 = 8;

/// The condition of a jump where what was tested is zero or negative.
pub(crate) const NOT_POSITIVE: u8 = 14;

/// The page that a program makes.
pub(crate) const PAGE: u32 = 0x0090_0000;

/// The flags of a page of one's own that may be written. (docs/library.md: page_new)
pub(crate) const PRIVATE: u32 = 1;

pub(crate) const NEWLINE: u8 = b'\n';

pub(crate) const SPACE: u8 = b' ';

/// The number of the service that ends a program. (`lib_os`, specs/Services.antt)
pub(crate) const SERVICE_EXIT: u32 = 0;

/// The number of the service that prints bytes. (`lib_os`, specs/Services.antt)
pub(crate) const SERVICE_CPUTS: u32 = 1;

/// The number of the service that makes a child. (`lib_os`, specs/Services.antt)
pub(crate) const SERVICE_FORK: u32 = 4;

/// The number of the service that waits for the end of another. (`lib_os`, specs/Services.antt)
pub(crate) const SERVICE_WAIT: u32 = 5;

/// The number of the service that makes a page. (`lib_os`, specs/Services.antt)
pub(crate) const SERVICE_PAGE_NEW: u32 = 6;

/// The number of the service that sends a message. (`lib_os`, specs/Services.antt)
pub(crate) const SERVICE_SEND: u32 = 8;

/// The number of the service that receives a message. (`lib_os`, specs/Services.antt)
pub(crate) const SERVICE_RECEIVE: u32 = 9;

/// The number of the service that closes a descriptor. (`lib_os`, specs/Services.antt)
pub(crate) const SERVICE_CLOSE: u32 = 11;

/// The number of the service that reads. (`lib_os`, specs/Services.antt)
pub(crate) const SERVICE_READ: u32 = 12;

/// The number of the service that writes. (`lib_os`, specs/Services.antt)
pub(crate) const SERVICE_WRITE: u32 = 13;

/// The number of the service that makes a pipe. (`lib_os`, specs/Services.antt)
pub(crate) const SERVICE_PIPE: u32 = 20;

/// A software interrupt.
pub(crate) fn int(vector: u8) -> Insn
    ensures value { result ≡ int vector }
    ensures lawful { IsTrue (is_lawful result) }
{
    Insn {
        row: Row::IntImm8,
        repeat: Repeat::Once,
        operand: Operand::Absent,
        reg: 0,
        imm: vector as u32,
    }
}

/// A move of a byte to an address.
pub(crate) fn store_byte(va: u32, byte: u8) -> Insn
    ensures value { result ≡ store_byte va byte }
    ensures lawful { IsTrue (is_lawful result) }
{
    Insn {
        row: Row::MovRm8Imm8,
        repeat: Repeat::Once,
        operand: Operand::Mem(MemArg {
            base: None,
            index: None,
            scale: 0,
            disp: Disp::Word(va),
        }),
        reg: 0,
        imm: byte as u32,
    }
}

/// A move of the byte at an address into AL.
pub(crate) fn load_al(va: u32) -> Insn
    ensures value { result ≡ load_al va }
    ensures lawful { IsTrue (is_lawful result) }
{
    Insn {
        row: Row::MovAlAddr,
        repeat: Repeat::Once,
        operand: Operand::Absent,
        reg: 0,
        imm: va,
    }
}

/// A move of a byte into a register of a byte, 0 to 7.
pub(crate) fn mov_byte(reg: u8, byte: u8) -> Insn
    requires { reg < 8 }
    ensures value { result ≡ mov_byte reg byte }
    ensures lawful { IsTrue (is_lawful result) }
{
    Insn {
        row: Row::MovR8Imm8,
        repeat: Repeat::Once,
        operand: Operand::Absent,
        reg,
        imm: byte as u32,
    }
}

/// The byte to which ESI points into AL; ESI points behind it then.
pub(crate) fn lodsb() -> Insn
    ensures value { result ≡ lodsb }
    ensures lawful { IsTrue (is_lawful result) }
{
    Insn {
        row: Row::Lodsb,
        repeat: Repeat::Once,
        operand: Operand::Absent,
        reg: 0,
        imm: 0,
    }
}

/// AL to where EDI points; EDI points behind it then.
pub(crate) fn stosb() -> Insn
    ensures value { result ≡ stosb }
    ensures lawful { IsTrue (is_lawful result) }
{
    Insn {
        row: Row::Stosb,
        repeat: Repeat::Once,
        operand: Operand::Absent,
        reg: 0,
        imm: 0,
    }
}

/// A test of AL, which tells whether it is 0.
pub(crate) fn test_al() -> Insn
    ensures value { result ≡ test_al }
    ensures lawful { IsTrue (is_lawful result) }
{
    Insn {
        row: Row::TestRm8R8,
        repeat: Repeat::Once,
        operand: Operand::Reg(AL),
        reg: AL,
        imm: 0,
    }
}

/// A test of EAX, which tells whether it is 0, and whether it is negative.
pub(crate) fn test_eax() -> Insn
    ensures value { result ≡ test_eax }
    ensures lawful { IsTrue (is_lawful result) }
{
    Insn {
        row: Row::TestRm32R32,
        repeat: Repeat::Once,
        operand: Operand::Reg(EAX),
        reg: EAX,
        imm: 0,
    }
}

/// EAX onto the stack.
pub(crate) fn push_eax() -> Insn
    ensures value { result ≡ push_eax }
    ensures lawful { IsTrue (is_lawful result) }
{
    Insn {
        row: Row::PushR32,
        repeat: Repeat::Once,
        operand: Operand::Absent,
        reg: EAX,
        imm: 0,
    }
}

/// What is on the stack into a register, 0 to 7.
pub(crate) fn pop(reg: u8) -> Insn
    requires { reg < 8 }
    ensures value { result ≡ pop reg }
    ensures lawful { IsTrue (is_lawful result) }
{
    Insn {
        row: Row::PopR32,
        repeat: Repeat::Once,
        operand: Operand::Absent,
        reg,
        imm: 0,
    }
}

/// One less in a register, 0 to 7.
pub(crate) fn dec(reg: u8) -> Insn
    requires { reg < 8 }
    ensures value { result ≡ dec reg }
    ensures lawful { IsTrue (is_lawful result) }
{
    Insn {
        row: Row::DecR32,
        repeat: Repeat::Once,
        operand: Operand::Absent,
        reg,
        imm: 0,
    }
}

/// A move of one register into another, each 0 to 7.
pub(crate) fn mov_register(to: u8, from: u8) -> Insn
    requires to { to < 8 }
    requires from { from < 8 }
    ensures value { result ≡ mov_register to from }
    ensures lawful { IsTrue (is_lawful result) }
{
    Insn {
        row: Row::MovRm32R32,
        repeat: Repeat::Once,
        operand: Operand::Reg(to),
        reg: from,
        imm: 0,
    }
}

/// One register is added to another, each 0 to 7.
pub(crate) fn add_register(to: u8, from: u8) -> Insn
    requires to { to < 8 }
    requires from { from < 8 }
    ensures value { result ≡ add_register to from }
    ensures lawful { IsTrue (is_lawful result) }
{
    Insn {
        row: Row::AluRm32R32(ADD),
        repeat: Repeat::Once,
        operand: Operand::Reg(to),
        reg: from,
        imm: 0,
    }
}

/// One register is taken from another, each 0 to 7.
pub(crate) fn sub_register(to: u8, from: u8) -> Insn
    requires to { to < 8 }
    requires from { from < 8 }
    ensures value { result ≡ sub_register to from }
    ensures lawful { IsTrue (is_lawful result) }
{
    Insn {
        row: Row::AluRm32R32(SUB),
        repeat: Repeat::Once,
        operand: Operand::Reg(to),
        reg: from,
        imm: 0,
    }
}

/// One more in a register, 0 to 7.
pub(crate) fn inc(reg: u8) -> Insn
    requires { reg < 8 }
    ensures value { result ≡ inc reg }
    ensures lawful { IsTrue (is_lawful result) }
{
    Insn {
        row: Row::IncR32,
        repeat: Repeat::Once,
        operand: Operand::Absent,
        reg,
        imm: 0,
    }
}

/// One more in the word of the number EAX, from an address on.
pub(crate) fn inc_word(va: u32) -> Insn
    ensures value { result ≡ inc_word va }
    ensures lawful { IsTrue (is_lawful result) }
{
    Insn {
        row: Row::IncRm32,
        repeat: Repeat::Once,
        operand: Operand::Mem(MemArg {
            base: None,
            index: Some(EAX),
            scale: 2,
            disp: Disp::Word(va),
        }),
        reg: 0,
        imm: 0,
    }
}

/// A byte is added to a register of a byte, 0 to 7.
pub(crate) fn add_byte(reg: u8, byte: u8) -> Insn
    requires { reg < 8 }
    ensures value { result ≡ add_byte reg byte }
    ensures lawful { IsTrue (is_lawful result) }
{
    Insn {
        row: Row::AluRm8Imm8(ADD),
        repeat: Repeat::Once,
        operand: Operand::Reg(reg),
        reg: 0,
        imm: byte as u32,
    }
}

/// EDX and EAX are divided by a register, 0 to 7: the quotient goes into EAX, and the rest into EDX.
pub(crate) fn div(reg: u8) -> Insn
    requires { reg < 8 }
    ensures value { result ≡ div reg }
    ensures lawful { IsTrue (is_lawful result) }
{
    Insn {
        row: Row::DivRm32,
        repeat: Repeat::Once,
        operand: Operand::Reg(reg),
        reg: 0,
        imm: 0,
    }
}

/// The word to which ESI points into EAX; ESI points behind it then.
pub(crate) fn lodsd() -> Insn
    ensures value { result ≡ lodsd }
    ensures lawful { IsTrue (is_lawful result) }
{
    Insn {
        row: Row::Lodsd,
        repeat: Repeat::Once,
        operand: Operand::Absent,
        reg: 0,
        imm: 0,
    }
}

/// EAX to where EDI points; EDI points behind it then.
pub(crate) fn stosd() -> Insn
    ensures value { result ≡ stosd }
    ensures lawful { IsTrue (is_lawful result) }
{
    Insn {
        row: Row::Stosd,
        repeat: Repeat::Once,
        operand: Operand::Absent,
        reg: 0,
        imm: 0,
    }
}

/// AL to each of the ECX bytes from EDI on.
pub(crate) fn rep_stosb() -> Insn
    ensures value { result ≡ rep_stosb }
    ensures lawful { IsTrue (is_lawful result) }
{
    Insn {
        row: Row::Stosb,
        repeat: Repeat::WhileEqual,
        operand: Operand::Absent,
        reg: 0,
        imm: 0,
    }
}

/// A register of a byte, 0 to 7, to where EDI points.
pub(crate) fn store_at_edi(reg: u8) -> Insn
    requires { reg < 8 }
    ensures value { result ≡ store_at_edi reg }
    ensures lawful { IsTrue (is_lawful result) }
{
    Insn {
        row: Row::MovRm8R8,
        repeat: Repeat::Once,
        operand: Operand::Mem(MemArg {
            base: Some(EDI),
            index: None,
            scale: 0,
            disp: Disp::Zero,
        }),
        reg,
        imm: 0,
    }
}

/// Asks for the service of this number.
#[tactic(auto, unfolding(crate::specs::Code::with_items))]
pub(crate) fn service(program: &mut Builder, number: u32) -> Result<(), NoMemory>
    ensures { IfOk result (λ _. program.new ≡ with_items program.old (service number)) }
{
    program.insn(mov(EAX, number))?;
    program.insn(int(T_SERVICE))?;
    Ok(())
}

/// The image of code that begins at `TEXT` and starts with its first byte.
#[tactic(auto, unfolding(crate::specs::Code::image))]
pub(crate) fn image(alloc: Global, code: &[u8]) -> Result<Vec<u8>, NoMemory>
    requires some { 0 < length code.now }
    requires small { length code.now ≤ CODE_MAX }
    ensures { IfOk result (λ file. file.items ≡ image code.now) }
{
    let len = code.len() as u32;
    let part = Part {
        va: TEXT,
        at: 0,
        len,
        mem_len: len,
        writable: false,
    };
    write(alloc, TEXT, &[part], code)
}

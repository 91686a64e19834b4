//! What each row does, in common terms.

ghost use Rattle.std.specs.Prelude.{◌≡◌};
ghost use Rattle.jos_cpu.specs.Forms.{form_of, operation_of, condition_of, shift_of, drops_result, operation_form};
ghost use Rattle.jos_cpu.specs.Forms.{shift_form};

use jos_alu::{Condition, Operation, Shift, Sign, Width};
use jos_isa::Row;

/// Where an operand comes from, or a result goes.
#[derive(Clone, Copy)]
pub(crate) enum Site {
    /// Nowhere: it is 0, and a result is dropped.
    Nowhere,
    /// The r/m operand, a register or memory.
    Operand,
    /// The register that the instruction names.
    Named,
    /// AL, AX or EAX.
    Accumulator,
    Immediate,
    /// The number 1.
    One,
    /// CL.
    Cl,
}

/// What is computed of a left and a right number.
#[derive(Clone, Copy)]
pub(crate) enum Act {
    /// The right one.
    Move,
    Operate(Operation),
    Test,
    /// The sum; CF is kept.
    Increase,
    /// The difference; CF is kept.
    Decrease,
    Complement,
    /// The left one shifted by as many places as the right one says.
    ShiftBy(Shift),
    /// 1 where the condition holds, else 0.
    SetIf(Condition),
    /// The signed product.
    Multiply,
}

/// An instruction on strings.
#[derive(Clone, Copy)]
pub(crate) enum StringOperation {
    Movs,
    Cmps,
    Stos,
    Lods,
    Scas,
}

/// A change of one flag.
#[derive(Clone, Copy)]
pub(crate) enum FlagChange {
    ComplementCarry,
    ClearCarry,
    SetCarry,
    ClearDirection,
    SetDirection,
}

/// What a row does.
#[derive(Clone, Copy)]
pub(crate) enum Form {
    /// At a width, a target gets what an act makes of a left and a right number.
    Compute(Act, Width, Site, Site, Site),
    /// The r/m operand or the accumulator and the named register are exchanged.
    Exchange(Width, Site),
    /// The named register gets the r/m operand of a width, extended to a word.
    Extend(Sign, Width),
    /// The named register gets the address of the operand.
    LoadAddress,
    /// The accumulator and memory at the address in the immediate.
    LoadFrom(Width),
    StoreTo(Width),
    /// The r/m operand is shifted by the count at a place, and gets bits of the named register.
    ShiftTwo(Shift, Site),
    /// The accumulator by the r/m operand.
    Product(Sign, Width),
    Quotient(Sign, Width),
    /// AX extended to EAX.
    ExtendAccumulator,
    /// EAX extended to EDX and EAX.
    ExtendDouble,
    Push(Site),
    Pop(Site),
    PushAll,
    PopAll,
    PushFlags,
    PopFlags,
    Leave,
    /// A jump by a distance where a condition holds.
    Branch(Condition),
    /// By a distance.
    Jump,
    /// To the r/m operand.
    JumpTo,
    Call,
    CallTo,
    Return,
    Breakpoint,
    Interrupt,
    Strings(StringOperation, Width),
    Flag(FlagChange),
    /// What a user program may not do.
    Privileged,
    Nothing,
}

/// The operation of this number: bits 5, 4 and 3 of its opcode, or reg of its ModRM byte.
#[tactic(auto, unfolding(crate::specs::Forms::operation_of))]
#[inline(always)]
pub(crate) fn operation_of(k: u8) -> Operation
    ensures { result ≡ operation_of k }
{
    match k {
        0 => Operation::Add,
        1 => Operation::Or,
        2 => Operation::Adc,
        3 => Operation::Sbb,
        4 => Operation::And,
        5 => Operation::Sub,
        6 => Operation::Xor,
        _ => Operation::Cmp,
    }
}

/// The condition of this number: the low four bits of its opcode.
#[tactic(auto, unfolding(crate::specs::Forms::condition_of))]
#[inline(always)]
pub(crate) fn condition_of(c: u8) -> Condition
    ensures { result ≡ condition_of c }
{
    match c {
        0 => Condition::Overflow,
        1 => Condition::NotOverflow,
        2 => Condition::Below,
        3 => Condition::AboveOrEqual,
        4 => Condition::Equal,
        5 => Condition::NotEqual,
        6 => Condition::BelowOrEqual,
        7 => Condition::Above,
        8 => Condition::Sign,
        9 => Condition::NotSign,
        10 => Condition::ParityEven,
        11 => Condition::ParityOdd,
        12 => Condition::Less,
        13 => Condition::GreaterOrEqual,
        14 => Condition::LessOrEqual,
        _ => Condition::Greater,
    }
}

/// The shift of this number: reg of its ModRM byte.
pub(crate) fn shift_of(k: u8) -> Shift
    ensures { result ≡ shift_of k }
{
    match k {
        0 => Shift::Rol,
        1 => Shift::Ror,
        4 => Shift::Shl,
        5 => Shift::Shr,
        _ => Shift::Sar,
    }
}

/// Whether an operation sets flags alone.
#[inline(always)]
pub(crate) fn drops_result(operation: Operation) -> bool
    ensures { result ≡ drops_result operation }
{
    match operation {
        Operation::Cmp => true,
        Operation::Add
        | Operation::Or
        | Operation::Adc
        | Operation::Sbb
        | Operation::And
        | Operation::Sub
        | Operation::Xor => false,
    }
}

fn operation_form(k: u8, width: Width, left: Site, right: Site) -> Form
    ensures { result ≡ operation_form k width left right }
{
    let operation = operation_of(k);
    if drops_result(operation) {
        Form::Compute(Act::Operate(operation), width, Site::Nowhere, left, right)
    } else {
        Form::Compute(Act::Operate(operation), width, left, left, right)
    }
}

fn shift_form(k: u8, width: Width, count: Site) -> Form
    ensures { result ≡ shift_form k width count }
{
    Form::Compute(
        Act::ShiftBy(shift_of(k)),
        width,
        Site::Operand,
        Site::Operand,
        count,
    )
}

/// What a row does.
#[tactic(auto, unfolding(crate::specs::Forms::form_of))]
pub(crate) fn form_of(row: Row) -> Form
    ensures { result ≡ form_of row }
{
    match row {
        Row::AluRm8R8(k) => operation_form(k, Width::Bits8, Site::Operand, Site::Named),
        Row::AluRm32R32(k) => operation_form(k, Width::Bits32, Site::Operand, Site::Named),
        Row::AluR8Rm8(k) => operation_form(k, Width::Bits8, Site::Named, Site::Operand),
        Row::AluR32Rm32(k) => operation_form(k, Width::Bits32, Site::Named, Site::Operand),
        Row::AluAlImm8(k) => operation_form(k, Width::Bits8, Site::Accumulator, Site::Immediate),
        Row::AluEaxImm32(k) => operation_form(k, Width::Bits32, Site::Accumulator, Site::Immediate),
        Row::AluRm8Imm8(k) => operation_form(k, Width::Bits8, Site::Operand, Site::Immediate),
        Row::AluRm32Imm32(k) | Row::AluRm32Imm8(k) => operation_form(
            k,
            Width::Bits32,
            Site::Operand,
            Site::Immediate,
        ),
        Row::IncR32 => Form::Compute(
            Act::Increase,
            Width::Bits32,
            Site::Named,
            Site::Named,
            Site::One,
        ),
        Row::DecR32 => Form::Compute(
            Act::Decrease,
            Width::Bits32,
            Site::Named,
            Site::Named,
            Site::One,
        ),
        Row::IncRm8 => Form::Compute(
            Act::Increase,
            Width::Bits8,
            Site::Operand,
            Site::Operand,
            Site::One,
        ),
        Row::DecRm8 => Form::Compute(
            Act::Decrease,
            Width::Bits8,
            Site::Operand,
            Site::Operand,
            Site::One,
        ),
        Row::IncRm32 => Form::Compute(
            Act::Increase,
            Width::Bits32,
            Site::Operand,
            Site::Operand,
            Site::One,
        ),
        Row::DecRm32 => Form::Compute(
            Act::Decrease,
            Width::Bits32,
            Site::Operand,
            Site::Operand,
            Site::One,
        ),
        Row::PushR32 => Form::Push(Site::Named),
        Row::PopR32 => Form::Pop(Site::Named),
        Row::PushImm32 | Row::PushImm8 => Form::Push(Site::Immediate),
        Row::PushRm32 => Form::Push(Site::Operand),
        Row::PopRm32 => Form::Pop(Site::Operand),
        Row::Pusha => Form::PushAll,
        Row::Popa => Form::PopAll,
        Row::Pushf => Form::PushFlags,
        Row::Popf => Form::PopFlags,
        Row::ImulR32Rm32Imm32 | Row::ImulR32Rm32Imm8 => Form::Compute(
            Act::Multiply,
            Width::Bits32,
            Site::Named,
            Site::Operand,
            Site::Immediate,
        ),
        Row::ImulR32Rm32 => Form::Compute(
            Act::Multiply,
            Width::Bits32,
            Site::Named,
            Site::Named,
            Site::Operand,
        ),
        Row::MulRm8 => Form::Product(Sign::Unsigned, Width::Bits8),
        Row::MulRm32 => Form::Product(Sign::Unsigned, Width::Bits32),
        Row::ImulRm8 => Form::Product(Sign::Signed, Width::Bits8),
        Row::ImulRm32 => Form::Product(Sign::Signed, Width::Bits32),
        Row::DivRm8 => Form::Quotient(Sign::Unsigned, Width::Bits8),
        Row::DivRm32 => Form::Quotient(Sign::Unsigned, Width::Bits32),
        Row::IdivRm8 => Form::Quotient(Sign::Signed, Width::Bits8),
        Row::IdivRm32 => Form::Quotient(Sign::Signed, Width::Bits32),
        Row::Cwde => Form::ExtendAccumulator,
        Row::Cdq => Form::ExtendDouble,
        Row::JccRel8(c) | Row::JccRel32(c) => Form::Branch(condition_of(c)),
        Row::SetccRm8(c) => Form::Compute(
            Act::SetIf(condition_of(c)),
            Width::Bits8,
            Site::Operand,
            Site::Nowhere,
            Site::Nowhere,
        ),
        Row::TestRm8R8 => Form::Compute(
            Act::Test,
            Width::Bits8,
            Site::Nowhere,
            Site::Operand,
            Site::Named,
        ),
        Row::TestRm32R32 => Form::Compute(
            Act::Test,
            Width::Bits32,
            Site::Nowhere,
            Site::Operand,
            Site::Named,
        ),
        Row::TestAlImm8 => Form::Compute(
            Act::Test,
            Width::Bits8,
            Site::Nowhere,
            Site::Accumulator,
            Site::Immediate,
        ),
        Row::TestEaxImm32 => Form::Compute(
            Act::Test,
            Width::Bits32,
            Site::Nowhere,
            Site::Accumulator,
            Site::Immediate,
        ),
        Row::TestRm8Imm8 => Form::Compute(
            Act::Test,
            Width::Bits8,
            Site::Nowhere,
            Site::Operand,
            Site::Immediate,
        ),
        Row::TestRm32Imm32 => Form::Compute(
            Act::Test,
            Width::Bits32,
            Site::Nowhere,
            Site::Operand,
            Site::Immediate,
        ),
        Row::NotRm8 => Form::Compute(
            Act::Complement,
            Width::Bits8,
            Site::Operand,
            Site::Operand,
            Site::Nowhere,
        ),
        Row::NotRm32 => Form::Compute(
            Act::Complement,
            Width::Bits32,
            Site::Operand,
            Site::Operand,
            Site::Nowhere,
        ),
        Row::NegRm8 => Form::Compute(
            Act::Operate(Operation::Sub),
            Width::Bits8,
            Site::Operand,
            Site::Nowhere,
            Site::Operand,
        ),
        Row::NegRm32 => Form::Compute(
            Act::Operate(Operation::Sub),
            Width::Bits32,
            Site::Operand,
            Site::Nowhere,
            Site::Operand,
        ),
        Row::XchgRm8R8 => Form::Exchange(Width::Bits8, Site::Operand),
        Row::XchgRm32R32 => Form::Exchange(Width::Bits32, Site::Operand),
        Row::XchgEaxR32 => Form::Exchange(Width::Bits32, Site::Accumulator),
        Row::MovRm8R8 => Form::Compute(
            Act::Move,
            Width::Bits8,
            Site::Operand,
            Site::Nowhere,
            Site::Named,
        ),
        Row::MovRm32R32 => Form::Compute(
            Act::Move,
            Width::Bits32,
            Site::Operand,
            Site::Nowhere,
            Site::Named,
        ),
        Row::MovR8Rm8 => Form::Compute(
            Act::Move,
            Width::Bits8,
            Site::Named,
            Site::Nowhere,
            Site::Operand,
        ),
        Row::MovR32Rm32 => Form::Compute(
            Act::Move,
            Width::Bits32,
            Site::Named,
            Site::Nowhere,
            Site::Operand,
        ),
        Row::MovAlAddr => Form::LoadFrom(Width::Bits8),
        Row::MovEaxAddr => Form::LoadFrom(Width::Bits32),
        Row::MovAddrAl => Form::StoreTo(Width::Bits8),
        Row::MovAddrEax => Form::StoreTo(Width::Bits32),
        Row::MovR8Imm8 => Form::Compute(
            Act::Move,
            Width::Bits8,
            Site::Named,
            Site::Nowhere,
            Site::Immediate,
        ),
        Row::MovR32Imm32 => Form::Compute(
            Act::Move,
            Width::Bits32,
            Site::Named,
            Site::Nowhere,
            Site::Immediate,
        ),
        Row::MovRm8Imm8 => Form::Compute(
            Act::Move,
            Width::Bits8,
            Site::Operand,
            Site::Nowhere,
            Site::Immediate,
        ),
        Row::MovRm32Imm32 => Form::Compute(
            Act::Move,
            Width::Bits32,
            Site::Operand,
            Site::Nowhere,
            Site::Immediate,
        ),
        Row::MovzxR32Rm8 => Form::Extend(Sign::Unsigned, Width::Bits8),
        Row::MovzxR32Rm16 => Form::Extend(Sign::Unsigned, Width::Bits16),
        Row::MovsxR32Rm8 => Form::Extend(Sign::Signed, Width::Bits8),
        Row::MovsxR32Rm16 => Form::Extend(Sign::Signed, Width::Bits16),
        Row::LeaR32Mem => Form::LoadAddress,
        Row::Movsb => Form::Strings(StringOperation::Movs, Width::Bits8),
        Row::Movsd => Form::Strings(StringOperation::Movs, Width::Bits32),
        Row::Cmpsb => Form::Strings(StringOperation::Cmps, Width::Bits8),
        Row::Cmpsd => Form::Strings(StringOperation::Cmps, Width::Bits32),
        Row::Stosb => Form::Strings(StringOperation::Stos, Width::Bits8),
        Row::Stosd => Form::Strings(StringOperation::Stos, Width::Bits32),
        Row::Lodsb => Form::Strings(StringOperation::Lods, Width::Bits8),
        Row::Lodsd => Form::Strings(StringOperation::Lods, Width::Bits32),
        Row::Scasb => Form::Strings(StringOperation::Scas, Width::Bits8),
        Row::Scasd => Form::Strings(StringOperation::Scas, Width::Bits32),
        Row::ShiftRm8Imm8(k) => shift_form(k, Width::Bits8, Site::Immediate),
        Row::ShiftRm32Imm8(k) => shift_form(k, Width::Bits32, Site::Immediate),
        Row::ShiftRm8One(k) => shift_form(k, Width::Bits8, Site::One),
        Row::ShiftRm32One(k) => shift_form(k, Width::Bits32, Site::One),
        Row::ShiftRm8Cl(k) => shift_form(k, Width::Bits8, Site::Cl),
        Row::ShiftRm32Cl(k) => shift_form(k, Width::Bits32, Site::Cl),
        Row::ShldRm32R32Imm8 => Form::ShiftTwo(Shift::Shld, Site::Immediate),
        Row::ShldRm32R32Cl => Form::ShiftTwo(Shift::Shld, Site::Cl),
        Row::ShrdRm32R32Imm8 => Form::ShiftTwo(Shift::Shrd, Site::Immediate),
        Row::ShrdRm32R32Cl => Form::ShiftTwo(Shift::Shrd, Site::Cl),
        Row::CallRel32 => Form::Call,
        Row::CallRm32 => Form::CallTo,
        Row::JmpRel32 | Row::JmpRel8 => Form::Jump,
        Row::JmpRm32 => Form::JumpTo,
        Row::RetImm16 | Row::Ret => Form::Return,
        Row::Leave => Form::Leave,
        Row::Int3 => Form::Breakpoint,
        Row::IntImm8 => Form::Interrupt,
        Row::Cmc => Form::Flag(FlagChange::ComplementCarry),
        Row::Clc => Form::Flag(FlagChange::ClearCarry),
        Row::Stc => Form::Flag(FlagChange::SetCarry),
        Row::Cld => Form::Flag(FlagChange::ClearDirection),
        Row::Std => Form::Flag(FlagChange::SetDirection),
        Row::InAlImm8
        | Row::InEaxImm8
        | Row::OutImm8Al
        | Row::OutImm8Eax
        | Row::InAlDx
        | Row::InEaxDx
        | Row::OutDxAl
        | Row::OutDxEax
        | Row::Hlt
        | Row::Cli
        | Row::Sti => Form::Privileged,
        Row::Nop => Form::Nothing,
    }
}

//! What an instruction reaches for in memory.

ghost use Rattle.std.specs.Prelude.{◌≡◌};
ghost use Rattle.jos_cpu.specs.Accesses.{names_operand, usage_of, access_at, operand_access, used_operand, below_stack};
ghost use Rattle.jos_cpu.specs.Accesses.{read_word, pushed_word, operand_and_push, push_accesses, pop_to_operand};
ghost use Rattle.jos_cpu.specs.Accesses.{pop_accesses, string_accesses, is_repeated, is_over, accesses_of, bytes_in_width};
ghost use Rattle.jos_cpu.specs.Accesses.{is_written, is_read, access_of};

use crate::addresses::address_of;
use crate::forms::{Form, Site, StringOperation};
use jos_alu::Width;
use jos_base::{Access, Regs};
use jos_isa::{Insn, Operand, Repeat};

/// What an instruction does with what it reaches.
#[derive(Clone, Copy)]
pub(crate) enum Usage {
    Reads,
    Writes,
    /// It reads and then writes.
    Changes,
}

/// One access.
#[derive(Clone, Copy)]
pub(crate) struct AccessAt {
    pub(crate) va: u32,
    pub(crate) width: Width,
    pub(crate) usage: Usage,
}

/// An instruction's accesses, in the order in which they are probed.
#[derive(Clone, Copy)]
pub(crate) enum Accesses {
    None,
    One(AccessAt),
    Two(AccessAt, AccessAt),
    /// The eight general registers are written, from an address upwards.
    PushAll(u32),
    PopAll(u32),
}

/// In bytes.
pub(crate) fn bytes_in_width(width: Width) -> u32
    ensures { result ≡ bytes_in_width width }
{
    match width {
        Width::Bits8 => 1,
        Width::Bits16 => 2,
        Width::Bits32 => 4,
    }
}

pub(crate) fn is_written(usage: Usage) -> bool
    ensures { result ≡ is_written usage }
{
    match usage {
        Usage::Reads => false,
        Usage::Writes => true,
        Usage::Changes => true,
    }
}

pub(crate) fn is_read(usage: Usage) -> bool
    ensures { result ≡ is_read usage }
{
    match usage {
        Usage::Reads => true,
        Usage::Writes => false,
        Usage::Changes => true,
    }
}

/// The access by which it is probed: where a number is read and then written, a write stands for both.
pub(crate) fn access_of(usage: Usage) -> Access
    ensures { result ≡ access_of usage }
{
    match usage {
        Usage::Reads => Access::Read,
        Usage::Writes => Access::Write,
        Usage::Changes => Access::Write,
    }
}

fn names_operand(place: Site) -> bool
    ensures { result ≡ names_operand place }
{
    match place {
        Site::Operand => true,
        Site::Nowhere | Site::Named | Site::Accumulator | Site::Immediate | Site::One | Site::Cl =>
            false,
    }
}

fn access_at(va: u32, width: Width, usage: Usage) -> AccessAt
    ensures { result ≡ access_at va width usage }
{
    AccessAt { va, width, usage }
}

/// How a target, a left and a right number use the r/m operand.
pub(crate) fn usage_of(target: Site, left: Site, right: Site) -> Option<Usage>
    ensures { result ≡ usage_of target left right }
{
    if names_operand(target) {
        if names_operand(left) || names_operand(right) {
            Some(Usage::Changes)
        } else {
            Some(Usage::Writes)
        }
    } else if names_operand(left) || names_operand(right) {
        Some(Usage::Reads)
    } else {
        None
    }
}

/// The access to the r/m operand, where that is in memory.
fn operand_access(width: Width, usage: Usage, operand: &Operand, regs: &Regs) -> Accesses
    ensures { result ≡ operand_access width usage operand.now regs.now }
{
    match operand {
        Operand::Mem(arg) => Accesses::One(access_at(address_of(arg, regs), width, usage)),
        Operand::Reg(_) => Accesses::None,
        Operand::Absent => Accesses::None,
    }
}

/// The same, where the operand is used at all.
#[inline(always)]
pub(crate) fn used_operand(
    usage: Option<Usage>,
    width: Width,
    operand: &Operand,
    regs: &Regs,
) -> Accesses
    ensures { result ≡ used_operand usage width operand.now regs.now }
{
    match usage {
        None => Accesses::None,
        Some(usage) => operand_access(width, usage, operand, regs),
    }
}

/// ESP less so many bytes.
pub(crate) fn below_stack(regs: &Regs, n: u32) -> u32
    ensures { result ≡ below_stack regs.now n }
{
    regs.esp.wrapping_sub(n)
}

/// A word that is read, as from the stack.
fn read_word(va: u32) -> AccessAt
    ensures { result ≡ read_word va }
{
    access_at(va, Width::Bits32, Usage::Reads)
}

/// The word that is pushed.
fn pushed_word(regs: &Regs) -> AccessAt
    ensures { result ≡ pushed_word regs.now }
{
    access_at(below_stack(regs, 4), Width::Bits32, Usage::Writes)
}

/// The r/m operand is read, and then a word is pushed.
fn operand_and_push(operand: &Operand, regs: &Regs) -> Accesses
    ensures { result ≡ operand_and_push operand.now regs.now }
{
    match operand {
        Operand::Mem(arg) => { Accesses::Two(read_word(address_of(arg, regs)), pushed_word(regs)) }
        Operand::Reg(_) => Accesses::One(pushed_word(regs)),
        Operand::Absent => Accesses::One(pushed_word(regs)),
    }
}

/// Those of PUSH.
fn push_accesses(place: Site, operand: &Operand, regs: &Regs) -> Accesses
    ensures { result ≡ push_accesses place operand.now regs.now }
{
    if names_operand(place) {
        operand_and_push(operand, regs)
    } else {
        Accesses::One(pushed_word(regs))
    }
}

/// POP to the r/m operand, whose address is made with ESP past the word.
fn pop_to_operand(operand: &Operand, regs: &Regs) -> Accesses
    ensures { result ≡ pop_to_operand operand.now regs.now }
{
    match operand {
        Operand::Mem(arg) => {
            let raised = Regs {
                esp: regs.esp.wrapping_add(4),
                ..*regs
            };
            Accesses::Two(
                read_word(regs.esp),
                access_at(address_of(arg, &raised), Width::Bits32, Usage::Writes),
            )
        }
        Operand::Reg(_) => Accesses::One(read_word(regs.esp)),
        Operand::Absent => Accesses::One(read_word(regs.esp)),
    }
}

/// Those of POP.
fn pop_accesses(place: Site, operand: &Operand, regs: &Regs) -> Accesses
    ensures { result ≡ pop_accesses place operand.now regs.now }
{
    if names_operand(place) {
        pop_to_operand(operand, regs)
    } else {
        Accesses::One(read_word(regs.esp))
    }
}

/// Those of one repetition. MOVS and CMPS reach for ESI first.
fn string_accesses(operation: StringOperation, width: Width, regs: &Regs) -> Accesses
    ensures { result ≡ string_accesses operation width regs.now }
{
    match operation {
        StringOperation::Movs => Accesses::Two(
            access_at(regs.esi, width, Usage::Reads),
            access_at(regs.edi, width, Usage::Writes),
        ),
        StringOperation::Cmps => Accesses::Two(
            access_at(regs.esi, width, Usage::Reads),
            access_at(regs.edi, width, Usage::Reads),
        ),
        StringOperation::Stos => Accesses::One(access_at(regs.edi, width, Usage::Writes)),
        StringOperation::Lods => Accesses::One(access_at(regs.esi, width, Usage::Reads)),
        StringOperation::Scas => Accesses::One(access_at(regs.edi, width, Usage::Reads)),
    }
}

pub(crate) fn is_repeated(repeat: Repeat) -> bool
    ensures { result ≡ is_repeated repeat }
{
    match repeat {
        Repeat::Once => false,
        Repeat::WhileEqual => true,
        Repeat::WhileNot => true,
    }
}

/// Whether a repeated instruction has nothing to do.
pub(crate) fn is_over(repeat: Repeat, regs: &Regs) -> bool
    ensures { result ≡ is_over repeat regs.now }
{
    is_repeated(repeat) && regs.ecx == 0
}

/// What an instruction reaches for.
#[tactic(auto, unfolding(crate::specs::Accesses::accesses_of))]
pub(crate) fn accesses_of(form: Form, insn: &Insn, regs: &Regs) -> Accesses
    ensures { result ≡ accesses_of form insn.now regs.now }
{
    match form {
        Form::Compute(_, width, target, left, right) => used_operand(
            usage_of(target, left, right),
            width,
            &insn.operand,
            regs,
        ),
        Form::Exchange(width, place) => used_operand(
            usage_of(place, place, Site::Nowhere),
            width,
            &insn.operand,
            regs,
        ),
        Form::Extend(_, width) => operand_access(width, Usage::Reads, &insn.operand, regs),
        Form::LoadFrom(width) => Accesses::One(access_at(insn.imm, width, Usage::Reads)),
        Form::StoreTo(width) => Accesses::One(access_at(insn.imm, width, Usage::Writes)),
        Form::ShiftTwo(_, _) => operand_access(Width::Bits32, Usage::Changes, &insn.operand, regs),
        Form::Product(_, width) => operand_access(width, Usage::Reads, &insn.operand, regs),
        Form::Quotient(_, width) => operand_access(width, Usage::Reads, &insn.operand, regs),
        Form::Push(place) => push_accesses(place, &insn.operand, regs),
        Form::Pop(place) => pop_accesses(place, &insn.operand, regs),
        Form::PushAll => Accesses::PushAll(below_stack(regs, 32)),
        Form::PopAll => Accesses::PopAll(regs.esp),
        Form::PushFlags => Accesses::One(pushed_word(regs)),
        Form::PopFlags => Accesses::One(read_word(regs.esp)),
        Form::Leave => Accesses::One(read_word(regs.ebp)),
        Form::JumpTo => operand_access(Width::Bits32, Usage::Reads, &insn.operand, regs),
        Form::Call => Accesses::One(pushed_word(regs)),
        Form::CallTo => operand_and_push(&insn.operand, regs),
        Form::Return => Accesses::One(read_word(regs.esp)),
        Form::Strings(operation, width) => {
            if is_over(insn.repeat, regs) {
                Accesses::None
            } else {
                string_accesses(operation, width, regs)
            }
        }
        Form::LoadAddress
        | Form::ExtendAccumulator
        | Form::ExtendDouble
        | Form::Branch(_)
        | Form::Jump
        | Form::Breakpoint
        | Form::Interrupt
        | Form::Flag(_)
        | Form::Privileged
        | Form::Nothing => Accesses::None,
    }
}

//! Instructions on strings, one repetition at a time.

ghost use Rattle.std.specs.Prelude.{◌≡◌};
ghost use Rattle.jos_cpu.specs.declared.events.Event.TheVariants.{Next};
ghost use Rattle.jos_cpu.specs.Effects.{gives, string_step, with_esi, with_edi, compared, repetition_effect};
ghost use Rattle.jos_cpu.specs.Effects.{compares, breaks, counted_down, repeated_at, after_repetition, strings_effect};

use crate::accesses::{bytes_in_width, is_over, is_repeated};
use crate::forms::StringOperation;
use crate::places::{first_input, second_input};
use crate::transfers::Inputs;
use jos_alu::{Width, is_set, register_at, set_register_at, subtract};
use jos_base::{FL_DF, FL_ZF, Regs};
use jos_isa::{Insn, Repeat};

/// What ESI and EDI move by: the width, or its negative where DF is set.
#[inline(always)]
fn string_step(width: Width, eflags: u32) -> u32
    ensures { result ≡ string_step width eflags }
{
    if is_set(eflags, FL_DF) {
        0u32.wrapping_sub(bytes_in_width(width))
    } else {
        bytes_in_width(width)
    }
}

#[inline(always)]
fn move_esi(width: Width, regs: &mut Regs)
    ensures { regs.new ≡ with_esi width regs.old }
{
    regs.esi = regs.esi.wrapping_add(string_step(width, regs.eflags));
}

#[inline(always)]
fn move_edi(width: Width, regs: &mut Regs)
    ensures { regs.new ≡ with_edi width regs.old }
{
    regs.edi = regs.edi.wrapping_add(string_step(width, regs.eflags));
}

/// The flags of `a` less `b`.
fn compare(width: Width, a: u32, b: u32, regs: &mut Regs)
    ensures { regs.new ≡ compared width a b regs.old }
{
    regs.eflags = subtract(width, a, b, 0, regs.eflags).eflags;
}

/// One repetition; the result is the number that is written.
#[tactic(auto, unfolding(crate::specs::Effects::repetition_effect))]
#[inline(always)]
fn make_repetition(
    operation: StringOperation,
    width: Width,
    regs: &mut Regs,
    inputs: &Inputs,
) -> u32
    ensures { repetition_effect operation width regs.old inputs.now ≡ record { registers = regs.new; value = result; event = Next } }
{
    match operation {
        StringOperation::Movs => {
            move_esi(width, regs);
            move_edi(width, regs);
            first_input(inputs)
        }
        StringOperation::Cmps => {
            compare(width, first_input(inputs), second_input(inputs), regs);
            move_esi(width, regs);
            move_edi(width, regs);
            0
        }
        StringOperation::Stos => {
            let value = register_at(width, regs, 0);
            move_edi(width, regs);
            value
        }
        StringOperation::Lods => {
            set_register_at(width, regs, 0, first_input(inputs));
            move_esi(width, regs);
            0
        }
        StringOperation::Scas => {
            let value = register_at(width, regs, 0);
            compare(width, value, first_input(inputs), regs);
            move_edi(width, regs);
            0
        }
    }
}

/// Whether it is CMPS or SCAS.
#[inline(always)]
fn compares(operation: StringOperation) -> bool
    ensures { result ≡ compares operation }
{
    match operation {
        StringOperation::Movs => false,
        StringOperation::Cmps => true,
        StringOperation::Stos => false,
        StringOperation::Lods => false,
        StringOperation::Scas => true,
    }
}

/// Whether a comparison ends the repetition.
#[inline(always)]
fn breaks(repeat: Repeat, eflags: u32) -> bool
    ensures { result ≡ breaks repeat eflags }
{
    match repeat {
        Repeat::Once => false,
        Repeat::WhileEqual => !is_set(eflags, FL_ZF),
        Repeat::WhileNot => is_set(eflags, FL_ZF),
    }
}

#[inline(always)]
fn count_down(regs: &mut Regs)
    ensures { regs.new ≡ counted_down regs.old }
{
    regs.ecx = regs.ecx.wrapping_sub(1);
}

/// Puts EIP back to the instruction, unless this was the last repetition.
#[inline(always)]
fn repeat_at(operation: StringOperation, repeat: Repeat, ip: u32, regs: &mut Regs)
    ensures { regs.new ≡ repeated_at operation repeat ip regs.old }
{
    if regs.ecx == 0 || compares(operation) && breaks(repeat, regs.eflags) {} else {
        regs.eip = ip;
    }
}

/// What comes after one repetition.
#[inline(always)]
fn finish_repetition(
    operation: StringOperation,
    repeat: Repeat,
    ip: u32,
    regs: &mut Regs,
    value: u32,
) -> u32
    ensures { after_repetition operation repeat ip (gives regs.old value) ≡ record { registers = regs.new; value = result; event = Next } }
{
    if is_repeated(repeat) {
        count_down(regs);
        repeat_at(operation, repeat, ip, regs);
        value
    } else {
        value
    }
}

/// One repetition, if there is one; the result is the number for memory.
#[inline(always)]
pub(crate) fn make_strings(
    operation: StringOperation,
    width: Width,
    insn: &Insn,
    old: &Regs,
    regs: &mut Regs,
    inputs: &Inputs,
) -> u32
    ensures { strings_effect operation width insn.now old.now regs.old inputs.now ≡ record { registers = regs.new; value = result; event = Next } }
{
    if is_over(insn.repeat, old) {
        0
    } else {
        let value = make_repetition(operation, width, regs, inputs);
        finish_repetition(operation, insn.repeat, old.eip, regs, value)
    }
}

//! What an instruction does with the registers, when all that it reads is read.

ghost use Rattle.std.specs.Prelude.{◌≡◌, if◌then◌else◌};
ghost use Rattle.jos_cpu.specs.declared.events.Event.TheVariants.{Next};
ghost use Rattle.jos_alu.specs.declared.width.Width.TheVariants.{Bits32};
ghost use Rattle.jos_alu.specs.Flags.{is_negative};
ghost use Rattle.jos_cpu.specs.Effects.{IfRaised, form_effect};

use crate::accesses::below_stack;
use crate::acts::{make_computation, make_shift_two};
use crate::control::{branch, call, change_flags, interrupt, raise_protection_fault, return_to};
use crate::events::{Event, Gates};
use crate::forms::{Form, Site};
use crate::moves::{load_address, make_exchange};
use crate::places::{first_input, value_at};
use crate::products::{make_product, make_quotient};
use crate::stack::{leave, move_esp_up, pop, pop_all, popped_flags, push};
use crate::strings::make_strings;
use crate::transfers::Inputs;
use jos_alu::{
    Width, advance, extend, is_negative, register_at, set_register, set_register_at, sign_extend,
};
use jos_base::{Regs, T_BRKPT};
use jos_isa::Insn;

/// What comes of an instruction, and the number that it writes, if it writes one.
#[derive(Clone, Copy)]
pub(crate) struct Completion {
    pub(crate) value: u32,
    pub(crate) event: Event,
}

fn going_on(value: u32) -> Completion
    ensures { result ≡ record { value = value; event = Next } }
{
    Completion {
        value,
        event: Event::Next,
    }
}

fn ending(event: Event) -> Completion
    ensures { result ≡ record { value = 0; event = event } }
{
    Completion { value: 0, event }
}

/// The sign in each bit.
fn sign_word(n: u32) -> u32
    ensures { result ≡ (if is_negative Bits32 n then 0xffff_ffff else 0) }
{
    if is_negative(Width::Bits32, n) {
        0xffff_ffff
    } else {
        0
    }
}

/// Does what a form does. `old` are the registers before the instruction, and `regs` those with EIP past it.
#[tactic(auto, unfolding(crate::specs::Effects::form_effect))]
pub(crate) fn apply_form(
    form: Form,
    insn: &Insn,
    old: &Regs,
    regs: &mut Regs,
    inputs: &Inputs,
    gates: Gates,
) -> Completion
    ensures done { form_effect form insn.now old.now regs.old inputs.now gates ≡ record { registers = regs.new; value = result.value; event = result.event } }
    ensures kept { IfRaised result.event (regs.new ≡ old.now) }
{
    match form {
        Form::Compute(act, width, target, left, right) => going_on(make_computation(
            act, width, target, left, right, insn, regs, inputs,
        )),
        Form::Exchange(width, other) => going_on(make_exchange(width, other, insn, regs, inputs)),
        Form::Extend(sign, width) => {
            let value = value_at(Site::Operand, width, insn, regs, inputs);
            set_register(regs, insn.reg, extend(sign, width, value));
            going_on(0)
        }
        Form::LoadAddress => {
            load_address(insn, regs);
            going_on(0)
        }
        Form::LoadFrom(width) => {
            set_register_at(width, regs, 0, first_input(inputs));
            going_on(0)
        }
        Form::StoreTo(width) => going_on(register_at(width, regs, 0)),
        Form::ShiftTwo(shift, count) => {
            going_on(make_shift_two(shift, count, insn, regs, inputs))
        }
        Form::Product(sign, width) => {
            make_product(sign, width, insn, regs, inputs);
            going_on(0)
        }
        Form::Quotient(sign, width) => {
            ending(make_quotient(sign, width, insn, old, regs, inputs))
        }
        Form::ExtendAccumulator => {
            regs.eax = sign_extend(Width::Bits16, regs.eax);
            going_on(0)
        }
        Form::ExtendDouble => {
            regs.edx = sign_word(regs.eax);
            going_on(0)
        }
        Form::Push(source) => {
            let value = value_at(source, Width::Bits32, insn, regs, inputs);
            going_on(push(regs, value))
        }
        Form::Pop(target) => going_on(pop(target, insn, regs, first_input(inputs))),
        Form::PushAll => {
            regs.esp = below_stack(regs, 32);
            going_on(0)
        }
        Form::PopAll => {
            pop_all(inputs, regs);
            going_on(0)
        }
        Form::PushFlags => {
            let eflags = regs.eflags;
            going_on(push(regs, eflags))
        }
        Form::PopFlags => {
            let eflags = popped_flags(regs.eflags, first_input(inputs));
            move_esp_up(regs, 4);
            regs.eflags = eflags;
            going_on(0)
        }
        Form::Leave => {
            leave(regs, first_input(inputs));
            going_on(0)
        }
        Form::Branch(condition) => {
            branch(condition, insn, regs);
            going_on(0)
        }
        Form::Jump => {
            advance(regs, insn.imm);
            going_on(0)
        }
        Form::JumpTo => {
            regs.eip = value_at(Site::Operand, Width::Bits32, insn, regs, inputs);
            going_on(0)
        }
        Form::Call => {
            let target = regs.eip.wrapping_add(insn.imm);
            going_on(call(regs, target))
        }
        Form::CallTo => {
            let target = value_at(Site::Operand, Width::Bits32, insn, regs, inputs);
            going_on(call(regs, target))
        }
        Form::Return => {
            return_to(insn, regs, first_input(inputs));
            going_on(0)
        }
        Form::Breakpoint => ending(Event::Soft(T_BRKPT)),
        Form::Interrupt => ending(interrupt(gates, (insn.imm % 256) as u8, old, regs)),
        Form::Strings(operation, width) => {
            going_on(make_strings(operation, width, insn, old, regs, inputs))
        }
        Form::Flag(change) => {
            regs.eflags = change_flags(change, regs.eflags);
            going_on(0)
        }
        Form::Privileged => ending(raise_protection_fault(0, old, regs)),
        Form::Nothing => going_on(0),
    }
}

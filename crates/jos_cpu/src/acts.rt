//! What an act makes of two numbers, and where that goes.

ghost use Rattle.std.specs.Prelude.{◌≡◌, ◌-◌, ◌%◌};
ghost use Rattle.jos_alu.specs.Flags.{modulus};
ghost use Rattle.jos_cpu.specs.declared.events.Event.TheVariants.{Next};
ghost use Rattle.jos_cpu.specs.Effects.{computed, with_computed, compute_effect, shift_two_effect, exchange_effect};
ghost use Rattle.jos_cpu.specs.Effects.{load_address_effect};

use crate::addresses::address_of;
use crate::forms::{Act, Site};
use crate::places::{set_value_at, value_at};
use crate::transfers::Inputs;
use jos_alu::{
    Computed, Shift, Width, bit_of, combine, condition_holds, decrease, increase, lowest, multiply,
    operate, register, register_at, set_register, set_register_at, shift_by,
};
use jos_base::Regs;
use jos_isa::{Insn, Operand};

/// NOT.
fn complement(width: Width, n: u32) -> u32
    ensures { result ≡ (0xffff_ffff - n) % modulus width }
{
    lowest(width, (0xffff_ffff - n) as u64)
}

/// What an act makes of two numbers.
#[tactic(auto, unfolding(crate::specs::Effects::computed))]
fn compute(act: Act, width: Width, a: u32, b: u32, eflags: u32) -> Computed
    ensures { result ≡ computed act width a b eflags }
{
    match act {
        Act::Move => Computed { value: b, eflags },
        Act::Operate(operation) => operate(operation, width, a, b, eflags),
        Act::Test => combine(width, a & b, eflags),
        Act::Increase => increase(width, a, b, eflags),
        Act::Decrease => decrease(width, a, b, eflags),
        Act::Complement => Computed {
            value: complement(width, a),
            eflags,
        },
        Act::ShiftBy(shift) => shift_by(shift, width, a, 0, b, eflags),
        Act::SetIf(condition) => Computed {
            value: bit_of(condition_holds(eflags, condition)),
            eflags,
        },
        Act::Multiply => multiply(width, a, b, eflags),
    }
}

/// Puts what was computed into the flags and the target, and gives the number.
fn set_computed(target: Site, width: Width, insn: &Insn, computed: Computed, regs: &mut Regs) -> u32
    ensures { with_computed target width insn.now computed regs.old ≡ record { registers = regs.new; value = result; event = Next } }
{
    let Computed { value, eflags } = computed;
    regs.eflags = eflags;
    set_value_at(target, width, insn, value, regs);
    value
}

/// Does `Form::Compute`; the result is the number for memory.
pub(crate) fn make_computation(
    act: Act,
    width: Width,
    target: Site,
    left: Site,
    right: Site,
    insn: &Insn,
    regs: &mut Regs,
    inputs: &Inputs,
) -> u32
    ensures { compute_effect act width target left right insn.now regs.old inputs.now ≡ record { registers = regs.new; value = result; event = Next } }
{
    let a = value_at(left, width, insn, regs, inputs);
    let b = value_at(right, width, insn, regs, inputs);
    let made = compute(act, width, a, b, regs.eflags);
    set_computed(target, width, insn, made, regs)
}

/// SHLD and SHRD; the result is the number for memory.
pub(crate) fn make_shift_two(
    shift: Shift,
    count: Site,
    insn: &Insn,
    regs: &mut Regs,
    inputs: &Inputs,
) -> u32
    ensures { shift_two_effect shift count insn.now regs.old inputs.now ≡ record { registers = regs.new; value = result; event = Next } }
{
    let value = value_at(Site::Operand, Width::Bits32, insn, regs, inputs);
    let other = register(regs, insn.reg);
    let places = value_at(count, Width::Bits8, insn, regs, inputs);
    let made = shift_by(shift, Width::Bits32, value, other, places, regs.eflags);
    set_computed(Site::Operand, Width::Bits32, insn, made, regs)
}

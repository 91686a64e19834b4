//! Where an operand comes from and where a result goes.

ghost use Rattle.std.specs.Prelude.{◌≡◌};
ghost use Rattle.jos_cpu.specs.Effects.{first_input, second_input, operand_value, with_operand, value_at, with_value_at};

use crate::forms::Site;
use crate::transfers::Inputs;
use jos_alu::{Width, lowest, register_at, set_register_at};
use jos_base::Regs;
use jos_isa::{Insn, Operand};

/// The number that the first access reads.
pub(crate) fn first_input(inputs: &Inputs) -> u32
    ensures { result ≡ first_input inputs.now }
{
    match inputs {
        Inputs::Numbers(a, _) => *a,
        Inputs::Popped(_) => 0,
    }
}

/// The number that the second access reads.
pub(crate) fn second_input(inputs: &Inputs) -> u32
    ensures { result ≡ second_input inputs.now }
{
    match inputs {
        Inputs::Numbers(_, b) => *b,
        Inputs::Popped(_) => 0,
    }
}

/// The r/m operand: a register, or what was read.
fn operand_value(width: Width, operand: &Operand, regs: &Regs, inputs: &Inputs) -> u32
    ensures { result ≡ operand_value width operand.now regs.now inputs.now }
{
    match operand {
        Operand::Reg(n) => register_at(width, regs, *n),
        Operand::Mem(_) => first_input(inputs),
        Operand::Absent => 0,
    }
}

/// Puts a number into the r/m operand, if that is a register.
fn set_operand(width: Width, operand: &Operand, value: u32, regs: &mut Regs)
    ensures { regs.new ≡ with_operand width operand.now value regs.old }
{
    match operand {
        Operand::Reg(n) => set_register_at(width, regs, *n, value),
        Operand::Mem(_) => {}
        Operand::Absent => {}
    }
}

/// The number at a place.
#[tactic(auto, unfolding(crate::specs::Effects::value_at))]
#[inline(always)]
pub(crate) fn value_at(place: Site, width: Width, insn: &Insn, regs: &Regs, inputs: &Inputs) -> u32
    ensures { result ≡ value_at place width insn.now regs.now inputs.now }
{
    match place {
        Site::Nowhere => 0,
        Site::Operand => operand_value(width, &insn.operand, regs, inputs),
        Site::Named => register_at(width, regs, insn.reg),
        Site::Accumulator => register_at(width, regs, 0),
        Site::Immediate => lowest(width, insn.imm as u64),
        Site::One => 1,
        Site::Cl => regs.ecx % 256,
    }
}

/// Puts a number into a register that is a place. Memory is written when the registers are done.
#[tactic(auto, unfolding(crate::specs::Effects::with_value_at))]
pub(crate) fn set_value_at(place: Site, width: Width, insn: &Insn, value: u32, regs: &mut Regs)
    ensures { regs.new ≡ with_value_at place width insn.now value regs.old }
{
    match place {
        Site::Nowhere => {}
        Site::Operand => set_operand(width, &insn.operand, value, regs),
        Site::Named => set_register_at(width, regs, insn.reg, value),
        Site::Accumulator => set_register_at(width, regs, 0, value),
        Site::Immediate => {}
        Site::One => {}
        Site::Cl => {}
    }
}

//! Exchanges, and addresses in registers.

ghost use Rattle.std.specs.Prelude.{◌≡◌};
ghost use Rattle.jos_cpu.specs.declared.events.Event.TheVariants.{Next};
ghost use Rattle.jos_cpu.specs.Effects.{exchange_effect, load_address_effect};

use crate::addresses::address_of;
use crate::forms::Site;
use crate::places::{set_value_at, value_at};
use crate::transfers::Inputs;
use jos_alu::{Width, register_at, set_register, set_register_at};
use jos_base::Regs;
use jos_isa::{Insn, Operand};

/// XCHG; the result is the number for memory, which is that of the register.
pub(crate) fn make_exchange(
    width: Width,
    other: Site,
    insn: &Insn,
    regs: &mut Regs,
    inputs: &Inputs,
) -> u32
    ensures { exchange_effect width other insn.now regs.old inputs.now ≡ record { registers = regs.new; value = result; event = Next } }
{
    let a = value_at(other, width, insn, regs, inputs);
    let b = register_at(width, regs, insn.reg);
    set_value_at(other, width, insn, b, regs);
    set_register_at(width, regs, insn.reg, a);
    b
}

/// LEA.
pub(crate) fn load_address(insn: &Insn, regs: &mut Regs)
    ensures { load_address_effect insn.now.operand insn.now regs.old ≡ record { registers = regs.new; value = 0; event = Next } }
{
    match &insn.operand {
        Operand::Mem(arg) => {
            let va = address_of(arg, regs);
            set_register(regs, insn.reg, va);
        }
        Operand::Reg(_) => {}
        Operand::Absent => {}
    }
}

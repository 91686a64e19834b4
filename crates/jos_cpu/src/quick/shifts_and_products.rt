//! Shifts and rotations, and signed products, of words.

ghost use Rattle.std.specs.Prelude.{◌≡◌, true, false};
ghost use Rattle.jos_cpu.specs.Bursts.{IsQuick};

use crate::addresses::address_of;
use crate::events::Gates;
use crate::forms::shift_of;
use crate::memory::Mem;
use jos_alu::{Computed, Width, advance, lowest, multiply, register, set_register, shift_by};
use jos_base::Regs;
use jos_isa::{Insn, Operand, Row};

/// As `execute_quickly`, of shifts and products.
#[inline(never)]
pub(crate) fn shift_or_multiply_quickly<M: Mem>(
    insn: &Insn,
    len: u32,
    regs: &mut Regs,
    mem: &mut M,
    gates: Gates,
) -> bool
    ensures { IsQuick M.table insn.now len gates result (record { regs = regs.old; memory = M.seen mem.old }) (record { regs = regs.new; memory = M.seen mem.new }) }
{
    match insn.row {
        // ROL to SAR
        Row::ShiftRm32Imm8(k) => match &insn.operand {
            Operand::Reg(n) => {
                advance(regs, len);
                let a = register(regs, *n);
                let count = lowest(Width::Bits32, insn.imm as u64);
                let Computed { value, eflags } = shift_by(
                    shift_of(k),
                    Width::Bits32,
                    a,
                    0,
                    count,
                    regs.eflags,
                );
                regs.eflags = eflags;
                set_register(regs, *n, value);
                true
            }
            Operand::Mem(_) => false,
            Operand::Absent => false,
        },

        // IMUL
        Row::ImulR32Rm32 => match &insn.operand {
            Operand::Reg(n) => {
                advance(regs, len);
                let a = register(regs, insn.reg);
                let b = register(regs, *n);
                let Computed { value, eflags } = multiply(Width::Bits32, a, b, regs.eflags);
                regs.eflags = eflags;
                set_register(regs, insn.reg, value);
                true
            }
            Operand::Mem(arg) => match mem.get_at_hand(Width::Bits32, address_of(arg, regs)) {
                Some(b) => {
                    advance(regs, len);
                    let a = register(regs, insn.reg);
                    let Computed { value, eflags } = multiply(Width::Bits32, a, b, regs.eflags);
                    regs.eflags = eflags;
                    set_register(regs, insn.reg, value);
                    true
                }
                None => false,
            },
            Operand::Absent => false,
        },
        _ => false,
    }
}

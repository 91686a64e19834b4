//! Moves, conversions, sums, differences and logic of bytes, and bytes set by a condition.

ghost use Rattle.std.specs.Prelude.{◌≡◌, true, false};
ghost use Rattle.jos_cpu.specs.Bursts.{IsQuick};

use crate::addresses::address_of;
use crate::events::Gates;
use crate::forms::{condition_of, drops_result, operation_of};
use crate::memory::Mem;
use crate::quick::operate_bytes;
use jos_alu::{
    Computed, Width, advance, bit_of, combine, condition_holds, lowest, register_at, set_register,
    set_register_at, sign_extend,
};
use jos_base::Regs;
use jos_isa::{Insn, Operand, Row};

/// As `execute_quickly`, of bytes.
#[inline(never)]
pub(crate) fn change_bytes_quickly<M: Mem>(
    insn: &Insn,
    len: u32,
    regs: &mut Regs,
    mem: &mut M,
    gates: Gates,
) -> bool
    ensures { IsQuick M.table insn.now len gates result (record { regs = regs.old; memory = M.seen mem.old }) (record { regs = regs.new; memory = M.seen mem.new }) }
{
    match insn.row {
        // MOV
        Row::MovRm8R8 => match &insn.operand {
            Operand::Reg(n) => {
                advance(regs, len);
                let value = register_at(Width::Bits8, regs, insn.reg);
                set_register_at(Width::Bits8, regs, *n, value);
                true
            }
            Operand::Mem(arg) => {
                let value = register_at(Width::Bits8, regs, insn.reg);
                if mem.put_at_hand(Width::Bits8, address_of(arg, regs), value) {
                    advance(regs, len);
                    true
                } else {
                    false
                }
            }
            Operand::Absent => false,
        },
        Row::MovR8Rm8 => match &insn.operand {
            Operand::Reg(n) => {
                advance(regs, len);
                let value = register_at(Width::Bits8, regs, *n);
                set_register_at(Width::Bits8, regs, insn.reg, value);
                true
            }
            Operand::Mem(arg) => match mem.get_at_hand(Width::Bits8, address_of(arg, regs)) {
                Some(value) => {
                    advance(regs, len);
                    set_register_at(Width::Bits8, regs, insn.reg, value);
                    true
                }
                None => false,
            },
            Operand::Absent => false,
        },
        Row::MovR8Imm8 => {
            advance(regs, len);
            let value = lowest(Width::Bits8, insn.imm as u64);
            set_register_at(Width::Bits8, regs, insn.reg, value);
            true
        }
        Row::MovRm8Imm8 => match &insn.operand {
            Operand::Reg(n) => {
                advance(regs, len);
                let value = lowest(Width::Bits8, insn.imm as u64);
                set_register_at(Width::Bits8, regs, *n, value);
                true
            }
            Operand::Mem(arg) => {
                let value = lowest(Width::Bits8, insn.imm as u64);
                if mem.put_at_hand(Width::Bits8, address_of(arg, regs), value) {
                    advance(regs, len);
                    true
                } else {
                    false
                }
            }
            Operand::Absent => false,
        },
        Row::MovAlAddr => match mem.get_at_hand(Width::Bits8, insn.imm) {
            Some(value) => {
                advance(regs, len);
                set_register_at(Width::Bits8, regs, 0, value);
                true
            }
            None => false,
        },

        // MOVZX and MOVSX
        Row::MovzxR32Rm8 => match &insn.operand {
            Operand::Reg(n) => {
                advance(regs, len);
                let value = register_at(Width::Bits8, regs, *n);
                set_register(regs, insn.reg, lowest(Width::Bits8, value as u64));
                true
            }
            Operand::Mem(arg) => match mem.get_at_hand(Width::Bits8, address_of(arg, regs)) {
                Some(value) => {
                    advance(regs, len);
                    set_register(regs, insn.reg, lowest(Width::Bits8, value as u64));
                    true
                }
                None => false,
            },
            Operand::Absent => false,
        },
        Row::MovsxR32Rm8 => match &insn.operand {
            Operand::Reg(n) => {
                advance(regs, len);
                let value = register_at(Width::Bits8, regs, *n);
                set_register(regs, insn.reg, sign_extend(Width::Bits8, value));
                true
            }
            Operand::Mem(arg) => match mem.get_at_hand(Width::Bits8, address_of(arg, regs)) {
                Some(value) => {
                    advance(regs, len);
                    set_register(regs, insn.reg, sign_extend(Width::Bits8, value));
                    true
                }
                None => false,
            },
            Operand::Absent => false,
        },

        // ADD to CMP
        Row::AluRm8R8(k) => match &insn.operand {
            Operand::Reg(n) => {
                advance(regs, len);
                let a = register_at(Width::Bits8, regs, *n);
                let b = register_at(Width::Bits8, regs, insn.reg);
                let operation = operation_of(k);
                let Computed { value, eflags } = operate_bytes(operation, a, b, regs.eflags);
                regs.eflags = eflags;
                if !drops_result(operation) {
                    set_register_at(Width::Bits8, regs, *n, value);
                }
                true
            }
            Operand::Mem(arg) => {
                let va = address_of(arg, regs);
                match mem.get_at_hand(Width::Bits8, va) {
                    Some(a) => {
                        let b = register_at(Width::Bits8, regs, insn.reg);
                        let operation = operation_of(k);
                        let Computed { value, eflags } = operate_bytes(
                            operation,
                            a,
                            b,
                            regs.eflags,
                        );
                        if drops_result(operation) || mem.put_at_hand(Width::Bits8, va, value) {
                            advance(regs, len);
                            regs.eflags = eflags;
                            true
                        } else {
                            false
                        }
                    }
                    None => false,
                }
            }
            Operand::Absent => false,
        },
        Row::AluRm8Imm8(k) => match &insn.operand {
            Operand::Reg(n) => {
                advance(regs, len);
                let a = register_at(Width::Bits8, regs, *n);
                let b = lowest(Width::Bits8, insn.imm as u64);
                let operation = operation_of(k);
                let Computed { value, eflags } = operate_bytes(operation, a, b, regs.eflags);
                regs.eflags = eflags;
                if !drops_result(operation) {
                    set_register_at(Width::Bits8, regs, *n, value);
                }
                true
            }
            Operand::Mem(arg) => {
                let va = address_of(arg, regs);
                match mem.get_at_hand(Width::Bits8, va) {
                    Some(a) => {
                        let b = lowest(Width::Bits8, insn.imm as u64);
                        let operation = operation_of(k);
                        let Computed { value, eflags } = operate_bytes(
                            operation,
                            a,
                            b,
                            regs.eflags,
                        );
                        if drops_result(operation) || mem.put_at_hand(Width::Bits8, va, value) {
                            advance(regs, len);
                            regs.eflags = eflags;
                            true
                        } else {
                            false
                        }
                    }
                    None => false,
                }
            }
            Operand::Absent => false,
        },
        Row::AluR8Rm8(k) => match &insn.operand {
            Operand::Reg(n) => {
                advance(regs, len);
                let a = register_at(Width::Bits8, regs, insn.reg);
                let b = register_at(Width::Bits8, regs, *n);
                let operation = operation_of(k);
                let Computed { value, eflags } = operate_bytes(operation, a, b, regs.eflags);
                regs.eflags = eflags;
                if !drops_result(operation) {
                    set_register_at(Width::Bits8, regs, insn.reg, value);
                }
                true
            }
            Operand::Mem(arg) => match mem.get_at_hand(Width::Bits8, address_of(arg, regs)) {
                Some(b) => {
                    advance(regs, len);
                    let a = register_at(Width::Bits8, regs, insn.reg);
                    let operation = operation_of(k);
                    let Computed { value, eflags } = operate_bytes(operation, a, b, regs.eflags);
                    regs.eflags = eflags;
                    if !drops_result(operation) {
                        set_register_at(Width::Bits8, regs, insn.reg, value);
                    }
                    true
                }
                None => false,
            },
            Operand::Absent => false,
        },
        Row::AluAlImm8(k) => {
            advance(regs, len);
            let a = register_at(Width::Bits8, regs, 0);
            let b = lowest(Width::Bits8, insn.imm as u64);
            let operation = operation_of(k);
            let Computed { value, eflags } = operate_bytes(operation, a, b, regs.eflags);
            regs.eflags = eflags;
            if !drops_result(operation) {
                set_register_at(Width::Bits8, regs, 0, value);
            }
            true
        }

        // TEST
        Row::TestRm8R8 => match &insn.operand {
            Operand::Reg(n) => {
                advance(regs, len);
                let a = register_at(Width::Bits8, regs, *n);
                let b = register_at(Width::Bits8, regs, insn.reg);
                regs.eflags = combine(Width::Bits8, a & b, regs.eflags).eflags;
                true
            }
            Operand::Mem(_) => false,
            Operand::Absent => false,
        },
        Row::TestRm8Imm8 => match &insn.operand {
            Operand::Reg(n) => {
                advance(regs, len);
                let a = register_at(Width::Bits8, regs, *n);
                let b = lowest(Width::Bits8, insn.imm as u64);
                regs.eflags = combine(Width::Bits8, a & b, regs.eflags).eflags;
                true
            }
            Operand::Mem(_) => false,
            Operand::Absent => false,
        },

        // SETcc
        Row::SetccRm8(c) => match &insn.operand {
            Operand::Reg(n) => {
                advance(regs, len);
                let value = bit_of(condition_holds(regs.eflags, condition_of(c)));
                set_register_at(Width::Bits8, regs, *n, value);
                true
            }
            Operand::Mem(_) => false,
            Operand::Absent => false,
        },
        _ => false,
    }
}

//! The common case: a frequent instruction whose memory is at hand.
//!
//! A function here answers true only where it did what `execute` does and the program goes on, and else it changed
//! nothing: then `execute` is to do it. Memory is at hand where reaching it changes no accessed and no dirty bit,
//! so that one load or store is the probe as well. Rows stand in the manual's families; those that are not here
//! are made by `execute`. (`bench/rows.sh` tells what each row costs.)
//! (Intel 80386 Programmer's Reference Manual, 1986, chapter 3.)
#![tactic(auto, using(crate::proofs::Moved::register_moved, crate::proofs::Moved::address_moved), unfolding(crate::specs::Steps::executed, crate::specs::Steps::accesses, crate::specs::Steps::done_by, crate::specs::Forms::form_of, crate::specs::Accesses::accesses_of, crate::specs::Probes::probes_of, crate::specs::Probes::probed_all, crate::specs::Transfers::inputs_of, crate::specs::Transfers::writes_of, crate::specs::Transfers::stored_all, crate::specs::Effects::form_effect, crate::specs::Effects::value_at, crate::specs::Effects::with_value_at, crate::specs::Effects::computed, crate::specs::Effects::repetition_effect, jos_alu::specs::Registers::register_at, jos_alu::specs::Registers::with_register_at))]

ghost use Rattle.std.specs.Prelude.{◌≡◌, true, false};
ghost use Rattle.jos_alu.specs.declared.width.Width.TheVariants.{Bits8, Bits32};
ghost use Rattle.jos_alu.specs.Flags.{operated};
ghost use Rattle.jos_cpu.specs.Bursts.{IsQuick};

mod at_hand;
mod bytes;
mod shifts_and_products;
mod strings;

pub(crate) use self::at_hand::execute_at_hand;
use self::bytes::change_bytes_quickly;
use self::shifts_and_products::shift_or_multiply_quickly;
use self::strings::repeat_quickly;
use crate::accesses::is_over;
use crate::addresses::address_of;
use crate::events::Gates;
use crate::forms::{StringOperation, condition_of, drops_result, operation_of};
use crate::memory::Mem;
use crate::strings::make_strings;
use crate::transfers::Inputs;
use jos_alu::{
    Computed, Operation, Width, advance, combine, condition_holds, decrease, increase, operate,
    register, set_register,
};
use jos_base::Regs;
use jos_isa::{Insn, Operand, Row};

/// An operation on words. It is many instructions, and stands here once for all rows.
#[inline(never)]
fn operate_words(operation: Operation, a: u32, b: u32, eflags: u32) -> Computed
    ensures { result ≡ operated operation Bits32 a b eflags }
{
    operate(operation, Width::Bits32, a, b, eflags)
}

/// The same on bytes.
#[inline(never)]
fn operate_bytes(operation: Operation, a: u32, b: u32, eflags: u32) -> Computed
    ensures { result ≡ operated operation Bits8 a b eflags }
{
    operate(operation, Width::Bits8, a, b, eflags)
}

/// Executes a frequent instruction. Of any other, and where memory is not at hand, nothing is done and the result
/// is false.
#[inline(always)]
pub(crate) fn execute_quickly<M: Mem>(
    insn: &Insn,
    len: u32,
    regs: &mut Regs,
    mem: &mut M,
    gates: Gates,
) -> bool
    ensures { IsQuick M.table insn.now len gates result (record { regs = regs.old; memory = M.seen mem.old }) (record { regs = regs.new; memory = M.seen mem.new }) }
{
    match insn.row {
        // ---- data movement

        // MOV
        Row::MovRm32R32 => match &insn.operand {
            Operand::Reg(n) => {
                advance(regs, len);
                let value = register(regs, insn.reg);
                set_register(regs, *n, value);
                true
            }
            Operand::Mem(arg) => {
                let value = register(regs, insn.reg);
                if mem.put_at_hand(Width::Bits32, address_of(arg, regs), value) {
                    advance(regs, len);
                    true
                } else {
                    false
                }
            }
            Operand::Absent => false,
        },
        Row::MovR32Rm32 => match &insn.operand {
            Operand::Reg(n) => {
                advance(regs, len);
                let value = register(regs, *n);
                set_register(regs, insn.reg, value);
                true
            }
            Operand::Mem(arg) => match mem.get_at_hand(Width::Bits32, address_of(arg, regs)) {
                Some(value) => {
                    advance(regs, len);
                    set_register(regs, insn.reg, value);
                    true
                }
                None => false,
            },
            Operand::Absent => false,
        },
        Row::MovR32Imm32 => {
            advance(regs, len);
            set_register(regs, insn.reg, insn.imm);
            true
        }
        Row::MovRm32Imm32 => match &insn.operand {
            Operand::Reg(n) => {
                advance(regs, len);
                set_register(regs, *n, insn.imm);
                true
            }
            Operand::Mem(arg) => {
                if mem.put_at_hand(Width::Bits32, address_of(arg, regs), insn.imm) {
                    advance(regs, len);
                    true
                } else {
                    false
                }
            }
            Operand::Absent => false,
        },
        Row::MovEaxAddr => match mem.get_at_hand(Width::Bits32, insn.imm) {
            Some(value) => {
                advance(regs, len);
                set_register(regs, 0, value);
                true
            }
            None => false,
        },
        Row::MovAddrEax => {
            if mem.put_at_hand(Width::Bits32, insn.imm, register(regs, 0)) {
                advance(regs, len);
                true
            } else {
                false
            }
        }

        // LEA
        Row::LeaR32Mem => match &insn.operand {
            Operand::Mem(arg) => {
                let va = address_of(arg, regs);
                advance(regs, len);
                set_register(regs, insn.reg, va);
                true
            }
            Operand::Reg(_) => false,
            Operand::Absent => false,
        },

        // PUSH, POP and LEAVE
        Row::PushR32 => {
            let value = register(regs, insn.reg);
            let at = regs.esp.wrapping_sub(4);
            if mem.put_at_hand(Width::Bits32, at, value) {
                regs.esp = at;
                advance(regs, len);
                true
            } else {
                false
            }
        }
        Row::PushImm32 | Row::PushImm8 => {
            let at = regs.esp.wrapping_sub(4);
            if mem.put_at_hand(Width::Bits32, at, insn.imm) {
                regs.esp = at;
                advance(regs, len);
                true
            } else {
                false
            }
        }
        Row::PopR32 => match mem.get_at_hand(Width::Bits32, regs.esp) {
            Some(value) => {
                advance(regs, len);
                regs.esp = regs.esp.wrapping_add(4);
                set_register(regs, insn.reg, value);
                true
            }
            None => false,
        },
        Row::Leave => match mem.get_at_hand(Width::Bits32, regs.ebp) {
            Some(value) => {
                advance(regs, len);
                regs.esp = regs.ebp.wrapping_add(4);
                regs.ebp = value;
                true
            }
            None => false,
        },

        // ---- arithmetic and logic

        // ADD to CMP
        Row::AluRm32R32(k) => match &insn.operand {
            Operand::Reg(n) => {
                advance(regs, len);
                let a = register(regs, *n);
                let b = register(regs, insn.reg);
                let operation = operation_of(k);
                let Computed { value, eflags } = operate_words(operation, a, b, regs.eflags);
                regs.eflags = eflags;
                if !drops_result(operation) {
                    set_register(regs, *n, value);
                }
                true
            }
            Operand::Mem(arg) => {
                let va = address_of(arg, regs);
                match mem.get_at_hand(Width::Bits32, va) {
                    Some(a) => {
                        let b = register(regs, insn.reg);
                        let operation = operation_of(k);
                        let Computed { value, eflags } = operate_words(
                            operation,
                            a,
                            b,
                            regs.eflags,
                        );
                        if drops_result(operation) || mem.put_at_hand(Width::Bits32, va, value) {
                            advance(regs, len);
                            regs.eflags = eflags;
                            true
                        } else {
                            false
                        }
                    }
                    None => false,
                }
            }
            Operand::Absent => false,
        },
        Row::AluR32Rm32(k) => match &insn.operand {
            Operand::Reg(n) => {
                advance(regs, len);
                let a = register(regs, insn.reg);
                let b = register(regs, *n);
                let operation = operation_of(k);
                let Computed { value, eflags } = operate_words(operation, a, b, regs.eflags);
                regs.eflags = eflags;
                if !drops_result(operation) {
                    set_register(regs, insn.reg, value);
                }
                true
            }
            Operand::Mem(arg) => match mem.get_at_hand(Width::Bits32, address_of(arg, regs)) {
                Some(b) => {
                    advance(regs, len);
                    let a = register(regs, insn.reg);
                    let operation = operation_of(k);
                    let Computed { value, eflags } = operate_words(operation, a, b, regs.eflags);
                    regs.eflags = eflags;
                    if !drops_result(operation) {
                        set_register(regs, insn.reg, value);
                    }
                    true
                }
                None => false,
            },
            Operand::Absent => false,
        },
        Row::AluRm32Imm32(k) | Row::AluRm32Imm8(k) => match &insn.operand {
            Operand::Reg(n) => {
                advance(regs, len);
                let a = register(regs, *n);
                let operation = operation_of(k);
                let Computed { value, eflags } = operate_words(operation, a, insn.imm, regs.eflags);
                regs.eflags = eflags;
                if !drops_result(operation) {
                    set_register(regs, *n, value);
                }
                true
            }
            Operand::Mem(arg) => {
                let va = address_of(arg, regs);
                match mem.get_at_hand(Width::Bits32, va) {
                    Some(a) => {
                        let operation = operation_of(k);
                        let Computed { value, eflags } = operate_words(
                            operation,
                            a,
                            insn.imm,
                            regs.eflags,
                        );
                        if drops_result(operation) || mem.put_at_hand(Width::Bits32, va, value) {
                            advance(regs, len);
                            regs.eflags = eflags;
                            true
                        } else {
                            false
                        }
                    }
                    None => false,
                }
            }
            Operand::Absent => false,
        },
        Row::AluEaxImm32(k) => {
            advance(regs, len);
            let a = register(regs, 0);
            let operation = operation_of(k);
            let Computed { value, eflags } = operate_words(operation, a, insn.imm, regs.eflags);
            regs.eflags = eflags;
            if !drops_result(operation) {
                set_register(regs, 0, value);
            }
            true
        }

        // INC and DEC
        Row::IncR32 => {
            advance(regs, len);
            let a = register(regs, insn.reg);
            let Computed { value, eflags } = increase(Width::Bits32, a, 1, regs.eflags);
            regs.eflags = eflags;
            set_register(regs, insn.reg, value);
            true
        }
        Row::DecR32 => {
            advance(regs, len);
            let a = register(regs, insn.reg);
            let Computed { value, eflags } = decrease(Width::Bits32, a, 1, regs.eflags);
            regs.eflags = eflags;
            set_register(regs, insn.reg, value);
            true
        }

        // TEST
        Row::TestRm32R32 => match &insn.operand {
            Operand::Reg(n) => {
                advance(regs, len);
                let a = register(regs, *n);
                let b = register(regs, insn.reg);
                regs.eflags = combine(Width::Bits32, a & b, regs.eflags).eflags;
                true
            }
            Operand::Mem(_) => false,
            Operand::Absent => false,
        },

        // ---- control transfer

        Row::JmpRel8 | Row::JmpRel32 => {
            advance(regs, len);
            advance(regs, insn.imm);
            true
        }
        Row::JmpRm32 => match &insn.operand {
            Operand::Reg(n) => {
                regs.eip = register(regs, *n);
                true
            }
            Operand::Mem(arg) => match mem.get_at_hand(Width::Bits32, address_of(arg, regs)) {
                Some(value) => {
                    regs.eip = value;
                    true
                }
                None => false,
            },
            Operand::Absent => false,
        },
        Row::JccRel8(c) | Row::JccRel32(c) => {
            advance(regs, len);
            if condition_holds(regs.eflags, condition_of(c)) {
                advance(regs, insn.imm);
            }
            true
        }
        Row::CallRel32 => {
            let back = regs.eip.wrapping_add(len);
            let at = regs.esp.wrapping_sub(4);
            if mem.put_at_hand(Width::Bits32, at, back) {
                regs.esp = at;
                regs.eip = back.wrapping_add(insn.imm);
                true
            } else {
                false
            }
        }
        Row::Ret | Row::RetImm16 => match mem.get_at_hand(Width::Bits32, regs.esp) {
            Some(value) => {
                regs.esp = regs.esp.wrapping_add(4).wrapping_add(insn.imm);
                regs.eip = value;
                true
            }
            None => false,
        },

        // ---- strings, one repetition

        Row::Movsb => {
            if is_over(insn.repeat, regs) {
                false
            } else {
                match mem.get_at_hand(Width::Bits8, regs.esi) {
                    Some(value) => {
                        if mem.put_at_hand(Width::Bits8, regs.edi, value) {
                            let old = *regs;
                            advance(regs, len);
                            let inputs = Inputs::Numbers(value, 0);
                            make_strings(
                                StringOperation::Movs,
                                Width::Bits8,
                                insn,
                                &old,
                                regs,
                                &inputs,
                            );
                            true
                        } else {
                            false
                        }
                    }
                    None => false,
                }
            }
        }
        Row::Movsd => {
            if is_over(insn.repeat, regs) {
                false
            } else {
                match mem.get_at_hand(Width::Bits32, regs.esi) {
                    Some(value) => {
                        if mem.put_at_hand(Width::Bits32, regs.edi, value) {
                            let old = *regs;
                            advance(regs, len);
                            let inputs = Inputs::Numbers(value, 0);
                            make_strings(
                                StringOperation::Movs,
                                Width::Bits32,
                                insn,
                                &old,
                                regs,
                                &inputs,
                            );
                            true
                        } else {
                            false
                        }
                    }
                    None => false,
                }
            }
        }
        Row::Stosd => {
            if is_over(insn.repeat, regs) {
                false
            } else if mem.put_at_hand(Width::Bits32, regs.edi, register(regs, 0)) {
                let old = *regs;
                advance(regs, len);
                let inputs = Inputs::Numbers(0, 0);
                make_strings(
                    StringOperation::Stos,
                    Width::Bits32,
                    insn,
                    &old,
                    regs,
                    &inputs,
                );
                true
            } else {
                false
            }
        }

        Row::Stosb | Row::Lodsb | Row::Lodsd | Row::Scasb | Row::Scasd | Row::Cmpsb | Row::Cmpsd =>
            repeat_quickly(insn, len, regs, mem, gates),

        // ---- bytes

        Row::MovRm8R8
        | Row::MovR8Rm8
        | Row::MovR8Imm8
        | Row::MovRm8Imm8
        | Row::MovAlAddr
        | Row::MovzxR32Rm8
        | Row::MovsxR32Rm8
        | Row::AluRm8R8(_)
        | Row::AluRm8Imm8(_)
        | Row::AluR8Rm8(_)
        | Row::AluAlImm8(_)
        | Row::TestRm8R8
        | Row::TestRm8Imm8
        | Row::SetccRm8(_) => change_bytes_quickly(insn, len, regs, mem, gates),

        // ---- shifts and products

        Row::ShiftRm32Imm8(_) | Row::ImulR32Rm32 => {
            shift_or_multiply_quickly(insn, len, regs, mem, gates)
        }
        _ => false,
    }
}

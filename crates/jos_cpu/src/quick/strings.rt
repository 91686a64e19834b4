//! One repetition of the other instructions on strings.

ghost use Rattle.std.specs.Prelude.{◌≡◌, true, false};
ghost use Rattle.jos_cpu.specs.Bursts.{IsQuick};

use crate::accesses::is_over;
use crate::events::Gates;
use crate::forms::StringOperation;
use crate::memory::Mem;
use crate::strings::make_strings;
use crate::transfers::Inputs;
use jos_alu::{Width, advance, register_at};
use jos_base::Regs;
use jos_isa::{Insn, Row};

/// As `execute_quickly`, of one repetition.
#[inline(never)]
pub(crate) fn repeat_quickly<M: Mem>(
    insn: &Insn,
    len: u32,
    regs: &mut Regs,
    mem: &mut M,
    gates: Gates,
) -> bool
    ensures { IsQuick M.table insn.now len gates result (record { regs = regs.old; memory = M.seen mem.old }) (record { regs = regs.new; memory = M.seen mem.new }) }
{
    match insn.row {
        Row::Stosb => {
            if is_over(insn.repeat, regs) {
                return false;
            }
            let value = register_at(Width::Bits8, regs, 0);
            if mem.put_at_hand(Width::Bits8, regs.edi, value) {
                let old = *regs;
                advance(regs, len);
                let inputs = Inputs::Numbers(0, 0);
                make_strings(
                    StringOperation::Stos,
                    Width::Bits8,
                    insn,
                    &old,
                    regs,
                    &inputs,
                );
                true
            } else {
                false
            }
        }
        Row::Lodsb => {
            if is_over(insn.repeat, regs) {
                return false;
            }
            match mem.get_at_hand(Width::Bits8, regs.esi) {
                Some(value) => {
                    let old = *regs;
                    advance(regs, len);
                    let inputs = Inputs::Numbers(value, 0);
                    make_strings(
                        StringOperation::Lods,
                        Width::Bits8,
                        insn,
                        &old,
                        regs,
                        &inputs,
                    );
                    true
                }
                None => false,
            }
        }
        Row::Lodsd => {
            if is_over(insn.repeat, regs) {
                return false;
            }
            match mem.get_at_hand(Width::Bits32, regs.esi) {
                Some(value) => {
                    let old = *regs;
                    advance(regs, len);
                    let inputs = Inputs::Numbers(value, 0);
                    make_strings(
                        StringOperation::Lods,
                        Width::Bits32,
                        insn,
                        &old,
                        regs,
                        &inputs,
                    );
                    true
                }
                None => false,
            }
        }
        Row::Scasb => {
            if is_over(insn.repeat, regs) {
                return false;
            }
            match mem.get_at_hand(Width::Bits8, regs.edi) {
                Some(value) => {
                    let old = *regs;
                    advance(regs, len);
                    let inputs = Inputs::Numbers(value, 0);
                    make_strings(
                        StringOperation::Scas,
                        Width::Bits8,
                        insn,
                        &old,
                        regs,
                        &inputs,
                    );
                    true
                }
                None => false,
            }
        }
        Row::Scasd => {
            if is_over(insn.repeat, regs) {
                return false;
            }
            match mem.get_at_hand(Width::Bits32, regs.edi) {
                Some(value) => {
                    let old = *regs;
                    advance(regs, len);
                    let inputs = Inputs::Numbers(value, 0);
                    make_strings(
                        StringOperation::Scas,
                        Width::Bits32,
                        insn,
                        &old,
                        regs,
                        &inputs,
                    );
                    true
                }
                None => false,
            }
        }
        Row::Cmpsb => {
            if is_over(insn.repeat, regs) {
                return false;
            }
            match (
                mem.get_at_hand(Width::Bits8, regs.esi),
                mem.get_at_hand(Width::Bits8, regs.edi),
            ) {
                (Some(a), Some(b)) => {
                    let old = *regs;
                    advance(regs, len);
                    let inputs = Inputs::Numbers(a, b);
                    make_strings(
                        StringOperation::Cmps,
                        Width::Bits8,
                        insn,
                        &old,
                        regs,
                        &inputs,
                    );
                    true
                }
                _ => false,
            }
        }
        Row::Cmpsd => {
            if is_over(insn.repeat, regs) {
                return false;
            }
            match (
                mem.get_at_hand(Width::Bits32, regs.esi),
                mem.get_at_hand(Width::Bits32, regs.edi),
            ) {
                (Some(a), Some(b)) => {
                    let old = *regs;
                    advance(regs, len);
                    let inputs = Inputs::Numbers(a, b);
                    make_strings(
                        StringOperation::Cmps,
                        Width::Bits32,
                        insn,
                        &old,
                        regs,
                        &inputs,
                    );
                    true
                }
                _ => false,
            }
        }
        _ => false,
    }
}

//! Any row that computes, by its form.
#![tactic(auto)]

ghost use Rattle.std.specs.Prelude.{◌≡◌, IfSome};
ghost use Rattle.jos_cpu.specs.declared.forms.Form.TheVariants.{Compute};
ghost use Rattle.jos_cpu.specs.Forms.{form_of};
ghost use Rattle.jos_cpu.specs.AtHand.{IsInputAt};
ghost use Rattle.jos_cpu.specs.Bursts.{IsQuick};

use crate::accesses::{AccessAt, Accesses, is_read, is_written, usage_of, used_operand};
use crate::acts::make_computation;
use crate::events::Gates;
use crate::forms::{Act, Form, Site};
use crate::memory::Mem;
use crate::transfers::Inputs;
use jos_alu::{Width, advance};
use jos_base::Regs;
use jos_isa::Insn;

/// What an access reads, where that is at hand: 0 where it only writes.
#[inline(always)]
fn input_at_hand<M: Mem>(mem: &M, reach: AccessAt) -> Option<u32>
    ensures { IfSome result (IsInputAt M.table (M.seen mem.now) reach.usage reach.width reach.va) }
{
    if is_read(reach.usage) {
        mem.get_at_hand(reach.width, reach.va)
    } else {
        Some(0)
    }
}

/// Executes a row that computes, where its operand is at hand or a register.
fn compute_at_hand<M: Mem>(
    act: Act,
    width: Width,
    places: (Site, Site, Site),
    insn: &Insn,
    len: u32,
    regs: &mut Regs,
    mem: &mut M,
    gates: Gates,
) -> bool
    requires { form_of insn.now.row ≡ Compute act width places.0 places.1 places.2 }
    ensures { IsQuick M.table insn.now len gates result (record { regs = regs.old; memory = M.seen mem.old }) (record { regs = regs.new; memory = M.seen mem.new }) }
{
    let (target, left, right) = places;
    let usage = usage_of(target, left, right);
    match used_operand(usage, width, &insn.operand, regs) {
        Accesses::None => {
            advance(regs, len);
            let inputs = Inputs::Numbers(0, 0);
            make_computation(act, width, target, left, right, insn, regs, &inputs);
            true
        }
        Accesses::One(reach) => match input_at_hand(mem, reach) {
            None => false,
            Some(input) => {
                let mut next = *regs;
                advance(&mut next, len);
                let inputs = Inputs::Numbers(input, 0);
                let value = make_computation(
                    act, width, target, left, right, insn, &mut next, &inputs,
                );
                if is_written(reach.usage) {
                    if !mem.put_at_hand(reach.width, reach.va, value) {
                        return false;
                    }
                }
                *regs = next;
                true
            }
        },
        _ => false,
    }
}

/// Executes a row by its form, where it computes and its operand is at hand or a register. Of any other nothing is
/// done, and the result is false.
#[inline(always)]
pub(crate) fn execute_at_hand<M: Mem>(
    insn: &Insn,
    form: &Form,
    len: u32,
    regs: &mut Regs,
    mem: &mut M,
    gates: Gates,
) -> bool
    requires { form.now ≡ form_of insn.now.row }
    ensures { IsQuick M.table insn.now len gates result (record { regs = regs.old; memory = M.seen mem.old }) (record { regs = regs.new; memory = M.seen mem.new }) }
{
    match form {
        Form::Compute(act, width, target, left, right) => compute_at_hand(
            *act,
            *width,
            (*target, *left, *right),
            insn,
            len,
            regs,
            mem,
            gates,
        ),
        _ => false,
    }
}

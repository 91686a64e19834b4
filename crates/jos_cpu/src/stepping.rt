//! One step.

ghost use Rattle.std.specs.Prelude.{◌≡◌};
ghost use Rattle.jos_alu.specs.Registers.{advanced};
ghost use Rattle.jos_cpu.specs.Forms.{form_of};
ghost use Rattle.jos_cpu.specs.Effects.{IfRaised, form_effect};
ghost use Rattle.jos_cpu.specs.Steps.{Stepped, fault_event, executed, step_of, accesses_left, probes_left};

use crate::accesses::{Accesses, accesses_of};
use crate::effects::{Completion, apply_form};
use crate::events::{Event, Gates};
use crate::fetching::{Fetched, fetch};
use crate::forms::{Form, form_of};
use crate::memory::{Mem, MemFault};
use crate::probes::probe_all;
use crate::transfers::{Inputs, inputs_of, write_outputs};
use jos_alu::advance;
use jos_base::{Regs, T_GPFLT, T_ILLOP, T_PGFLT};
use jos_isa::Insn;

/// A page fault, or at the fence a general protection fault.
fn fault_event(fault: MemFault) -> Event
    ensures { result ≡ fault_event fault }
{
    match fault {
        MemFault::Page(fault) => Event::Raised {
            trap: T_PGFLT,
            error: fault.error,
            va: fault.va,
        },
        MemFault::Fence => Event::Raised {
            trap: T_GPFLT,
            error: 0,
            va: 0,
        },
    }
}

/// Does with the registers what the instruction does.
#[inline(always)]
fn take_effect(
    form: Form,
    insn: &Insn,
    len: u32,
    old: &Regs,
    regs: &mut Regs,
    inputs: &Inputs,
    gates: Gates,
) -> Completion
    requires { regs.old ≡ old.now }
    ensures done { form_effect form insn.now old.now (advanced old.now len) inputs.now gates ≡ record { registers = regs.new; value = result.value; event = result.event } }
    ensures kept { IfRaised result.event (regs.new ≡ old.now) }
{
    advance(regs, len);
    apply_form(form, insn, old, regs, inputs, gates)
}

/// Executes an instruction that so many bytes spell, of the form of its row.
#[inline(never)]
#[tactic(auto, unfolding(crate::specs::Steps::executed, crate::specs::Steps::accesses, crate::specs::Steps::done_by))]
pub(crate) fn execute<M: Mem>(
    insn: &Insn,
    form: &Form,
    len: u32,
    regs: &mut Regs,
    mem: &mut M,
    gates: Gates,
) -> Event
    requires { form.now ≡ form_of insn.now.row }
    ensures done { executed M.table insn.now len regs.old (M.seen mem.old) gates ≡ record { regs = regs.new; memory = M.seen mem.new; event = result } }
    ensures kept { IfRaised result (regs.new ≡ regs.old) }
    ensures untouched { IfRaised result (M.seen mem.new ≡ accesses_left M.table insn.now regs.old (M.seen mem.old)) }
{
    let accesses = accesses_of(*form, insn, regs);
    match probe_all(mem, &accesses) {
        Err(fault) => fault_event(fault),
        Ok(()) => {
            let inputs = inputs_of(mem, &accesses);
            let mut next = *regs;
            let Completion { value, event } = take_effect(
                *form, insn, len, regs, &mut next, &inputs, gates,
            );
            write_outputs(mem, &accesses, regs, value);
            *regs = next;
            event
        }
    }
}

/// Makes one step: the instruction at EIP or, of a repeated one, one repetition, by `specs/Steps.antt`. A trap
/// changes no register, and of memory only what its probes set.
#[inline(never)]
#[tactic(auto, unfolding(crate::specs::Steps::step_of, crate::specs::Steps::probes_left))]
pub fn step<M: Mem>(regs: &mut Regs, mem: &mut M, gates: Gates) -> Event
    ensures done { step_of M.table regs.old (M.seen mem.old) gates ≡ record { regs = regs.new; memory = M.seen mem.new; event = result } }
    ensures kept { IfRaised result (regs.new ≡ regs.old) }
    ensures untouched { IfRaised result (M.seen mem.new ≡ probes_left M.table regs.old (M.seen mem.old)) }
{
    match fetch(mem, regs.eip) {
        Fetched::Unknown => Event::Raised {
            trap: T_ILLOP,
            error: 0,
            va: 0,
        },
        Fetched::Fault(fault) => fault_event(fault),
        Fetched::Instruction(insn, len) => {
            execute(&insn, &form_of(insn.row), len, regs, mem, gates)
        }
    }
}

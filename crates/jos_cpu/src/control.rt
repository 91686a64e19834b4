//! Calls, jumps, returns, interrupts and flags.

ghost use Rattle.std.specs.Prelude.{◌≡◌, if◌then◌else◌};
ghost use Rattle.jos_cpu.specs.declared.events.Event.TheVariants.{Next};
ghost use Rattle.jos_alu.specs.Registers.{advanced};
ghost use Rattle.jos_alu.specs.Flags.{condition_holds};
ghost use Rattle.jos_cpu.specs.Effects.{IfRaised, raised, call_effect, return_effect, gate_of, interrupt_effect};
ghost use Rattle.jos_cpu.specs.Effects.{changed_flags};

use crate::accesses::below_stack;
use crate::events::{Event, Gates};
use crate::forms::FlagChange;
use jos_alu::{Condition, advance, condition_holds};
use jos_base::{FL_CF, FL_DF, Regs, T_BRKPT, T_GPFLT, T_SERVICE, T_SYSCALL};
use jos_isa::Insn;

/// Jcc.
pub(crate) fn branch(condition: Condition, insn: &Insn, regs: &mut Regs)
    ensures { regs.new ≡ (if condition_holds regs.old.eflags condition then advanced regs.old insn.now.imm else regs.old) }
{
    if condition_holds(regs.eflags, condition) {
        advance(regs, insn.imm);
    }
}

/// Makes room for the address behind the call, which is the number that is written.
pub(crate) fn call(regs: &mut Regs, target: u32) -> u32
    ensures { call_effect regs.old target ≡ record { registers = regs.new; value = result; event = Next } }
{
    let back = regs.eip;
    regs.esp = below_stack(regs, 4);
    regs.eip = target;
    back
}

/// RET: past the word and as many further bytes as the immediate says.
pub(crate) fn return_to(insn: &Insn, regs: &mut Regs, value: u32)
    ensures { return_effect insn.now regs.old value ≡ record { registers = regs.new; value = 0; event = Next } }
{
    regs.esp = regs.esp.wrapping_add(4).wrapping_add(insn.imm);
    regs.eip = value;
}

/// The interrupt whose gate is open beside the breakpoint's.
fn gate_of(gates: Gates) -> u8
    ensures { result ≡ gate_of gates }
{
    match gates {
        Gates::Exo => T_SYSCALL,
        Gates::Run => T_SERVICE,
    }
}

/// A general protection fault, which leaves the registers as they were.
pub(crate) fn raise_protection_fault(error: u32, old: &Regs, regs: &mut Regs) -> Event
    ensures done { raised old.now T_GPFLT error ≡ record { registers = regs.new; value = 0; event = result } }
    ensures kept { IfRaised result (regs.new ≡ old.now) }
{
    *regs = *old;
    Event::Raised {
        trap: T_GPFLT,
        error,
        va: 0,
    }
}

/// INT n. Where the gate is closed, the error code names the number.
pub(crate) fn interrupt(gates: Gates, n: u8, old: &Regs, regs: &mut Regs) -> Event
    ensures done { interrupt_effect gates n old.now regs.old ≡ record { registers = regs.new; value = 0; event = result } }
    ensures kept { IfRaised result (regs.new ≡ old.now) }
{
    if n == T_BRKPT || n == gate_of(gates) {
        Event::Soft(n)
    } else {
        raise_protection_fault(8 * n as u32 + 2, old, regs)
    }
}

/// CMC, CLC, STC, CLD and STD.
pub(crate) fn change_flags(change: FlagChange, eflags: u32) -> u32
    ensures { result ≡ changed_flags change eflags }
{
    match change {
        FlagChange::ComplementCarry => eflags ^ FL_CF,
        FlagChange::ClearCarry => eflags & (0xffff_ffff - FL_CF),
        FlagChange::SetCarry => eflags | FL_CF,
        FlagChange::ClearDirection => eflags & (0xffff_ffff - FL_DF),
        FlagChange::SetDirection => eflags | FL_DF,
    }
}

//! The stack.

ghost use Rattle.std.specs.Prelude.{◌≡◌};
ghost use Rattle.jos_cpu.specs.declared.events.Event.TheVariants.{Next};
ghost use Rattle.jos_cpu.specs.Effects.{push_effect, with_esp_up, pop_effect, pop_all_effect, popped_flags};
ghost use Rattle.jos_cpu.specs.Effects.{leave_effect};

use crate::accesses::below_stack;
use crate::forms::Site;
use crate::places::set_value_at;
use crate::transfers::Inputs;
use jos_alu::Width;
use jos_base::{FL_AF, FL_CF, FL_DF, FL_OF, FL_PF, FL_SF, FL_ZF, Regs};
use jos_isa::Insn;

/// The flags that POPF takes.
const POPPED: u32 = FL_CF + FL_PF + FL_AF + FL_ZF + FL_SF + FL_DF + FL_OF;

/// Makes room for a word, which is the number that is written.
pub(crate) fn push(regs: &mut Regs, value: u32) -> u32
    ensures { push_effect regs.old value ≡ record { registers = regs.new; value = result; event = Next } }
{
    regs.esp = below_stack(regs, 4);
    value
}

/// By so many bytes.
pub(crate) fn move_esp_up(regs: &mut Regs, n: u32)
    ensures { regs.new ≡ with_esp_up regs.old n }
{
    regs.esp = regs.esp.wrapping_add(n);
}

/// POP; the result is the number for an operand in memory.
pub(crate) fn pop(target: Site, insn: &Insn, regs: &mut Regs, value: u32) -> u32
    ensures { pop_effect target insn.now regs.old value ≡ record { registers = regs.new; value = result; event = Next } }
{
    move_esp_up(regs, 4);
    set_value_at(target, Width::Bits32, insn, value, regs);
    value
}

/// POPA: ESP goes past the eight words.
pub(crate) fn pop_all(inputs: &Inputs, regs: &mut Regs)
    ensures { pop_all_effect inputs.now regs.old ≡ record { registers = regs.new; value = 0; event = Next } }
{
    match inputs {
        Inputs::Popped(words) => {
            regs.edi = words.edi;
            regs.esi = words.esi;
            regs.ebp = words.ebp;
            regs.esp = regs.esp.wrapping_add(32);
            regs.ebx = words.ebx;
            regs.edx = words.edx;
            regs.ecx = words.ecx;
            regs.eax = words.eax;
        }
        Inputs::Numbers(_, _) => {}
    }
}

/// What POPF takes of a word, and what it keeps.
pub(crate) fn popped_flags(eflags: u32, value: u32) -> u32
    ensures { result ≡ popped_flags eflags value }
{
    eflags & (0xffff_ffff - POPPED) | value & POPPED
}

/// LEAVE: ESP is EBP, and then EBP is popped.
pub(crate) fn leave(regs: &mut Regs, value: u32)
    ensures { leave_effect regs.old value ≡ record { registers = regs.new; value = 0; event = Next } }
{
    regs.esp = regs.ebp.wrapping_add(4);
    regs.ebp = value;
}

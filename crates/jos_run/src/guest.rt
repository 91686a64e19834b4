//! What comes of an instruction of the program of an environment that the library serves.

ghost use Rattle.std.specs.Prelude.{◌≡◌, true, false, OnErr};
ghost use Rattle.jos_host.specs.Told.{HasCause};
ghost use Rattle.jos_host.specs.Frames.{Unchanged, from_to};
ghost use Rattle.jos_base.specs.Environments.{is_live};
ghost use Rattle.jos_base.specs.KernelState.{slot_at};
ghost use Rattle.jos_kernel.specs.Steps.{after_trap, is_handed};
ghost use Rattle.lib_os.specs.Places.{words_entered};
ghost use Rattle.lib_os.specs.UserCalls.{output};
ghost use Rattle.jos_run.specs.Guest.{Follows};
ghost use Rattle.jos_run.specs.GuestSteps.{after_event, is_handed_over};
ghost use Rattle.jos_run.specs.Served.{kernel_state};

use crate::served::Served;
use jos_base::{Extra, Regs, T_BRKPT, T_GPFLT, T_SERVICE};
use jos_cpu::Event;
use jos_host::{Failed, Host};
use jos_kernel::TrapLine;
use lib_os::{SERVICES, Step, UserOs, is_resident, words_at};

/// The words with which a program's INT 0x40 leaves it.
fn words_entered(registers: &Regs) -> Extra
    ensures { result.0 ≡ words_entered registers.now }
{
    words_at(registers.eax.min(SERVICES), Step::Entered)
}

impl Served {
    /// Does what comes of a trap, given by its number, error code and address, at an address: a page fault may have a handler,
    /// and any other trap ends the environment with its line.
    #[cold]
    fn follow_trap<H: Host>(
        &mut self,
        host: &mut H,
        trap: u8,
        error: u32,
        va: u32,
        ip: u32,
    ) -> Result<Option<TrapLine>, Failed>
        requires { is_live (slot_at (kernel_state self.old) self.old.slot) ≡ true }
        ensures told { Follows result (after_trap (kernel_state self.old) self.old.slot trap error va ip) (kernel_state self.new) (output H.console (λ s. s.written) (from_to host.old host.new) (from_to self.old self.new)) }
        ensures ended { OnErr result (is_handed (kernel_state self.old) self.old.slot trap error va ≡ false) }
        ensures slot { self.new.slot ≡ self.old.slot }
        ensures calls { self.new.calls ≡ self.old.calls }
        ensures disk { self.new.disk ≡ self.old.disk }
        ensures rest { Unchanged H.files H.input H.asked H.notes host.old host.new }
        ensures cause { HasCause (H.faults host.old) (H.faults host.new) result }
    {
        match self
            .machine
            .follow_trap(host, self.slot, trap, error, va, ip)
        {
            Ok(followed) => {
                self.count(followed.written);
                Ok(followed.trap)
            }
            Err(failed) => Err(failed),
        }
    }

    /// Does what comes of the instruction at an address, which has left the registers that stand in the slot.
    pub(crate) fn follow_guest<H: Host>(
        &mut self,
        host: &mut H,
        ip: u32,
        event: Event,
    ) -> Result<Option<TrapLine>, Failed>
        requires { is_live (slot_at (kernel_state self.old) self.old.slot) ≡ true }
        ensures told { Follows result (after_event (kernel_state self.old) self.old.slot ip event) (kernel_state self.new) (output H.console (λ s. s.written) (from_to host.old host.new) (from_to self.old self.new)) }
        ensures ended { OnErr result (is_handed_over (kernel_state self.old) self.old.slot event ≡ false) }
        ensures slot { self.new.slot ≡ self.old.slot }
        ensures calls { self.new.calls ≡ self.old.calls }
        ensures disk { self.new.disk ≡ self.old.disk }
        ensures rest { Unchanged H.files H.input H.asked H.notes host.old host.new }
        ensures cause { HasCause (H.faults host.old) (H.faults host.new) result }
    {
        let registers = self.registers();
        match event {
            Event::Next => {
                if is_resident(registers.esp) {
                    return self.follow_trap(host, T_GPFLT, 0, 0, ip);
                }
                Ok(None)
            }
            Event::Soft(vector) => {
                if vector != T_SERVICE {
                    return self.follow_trap(host, T_BRKPT, 0, 0, registers.eip);
                }
                self.machine.set_extra(self.slot, words_entered(&registers));
                Ok(None)
            }
            Event::Raised { trap, error, va } => self.follow_trap(host, trap, error, va, ip),
        }
    }
}

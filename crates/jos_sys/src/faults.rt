//! Page faults that are handed to the handler of the environment that raised them.

ghost use Rattle.std.specs.Prelude.{◌≡◌, ℕ, List, true};
ghost use Rattle.jos_base.specs.SystemCalls.{handled};
ghost use Rattle.jos_sys.specs.System.{state_of, Keeps, is_live_in, IsFaulted};

use crate::system::System;
use jos_base::{Access, PageFault, Regs};
use jos_trap::{UpcallPlace, frame_bytes, upcall_place};

/// What becomes of a page fault.
#[derive(Clone, Copy, Debug, PartialEq, Eq)]
pub enum Faulted {
    /// Its handler goes on, with the fault's frame on its stack.
    Upcall,
    /// There is no handler, or no room for the frame: the environment is to be destroyed. Nothing is changed.
    Killed,
}

impl System {
    /// Hands a page fault of an environment to its handler: the frame that tells of it is written on the exception stack, ESP
    /// is the frame's address, and EIP is the handler's. (MIT 6.828, page_fault_handler of kern/trap.c)
    pub fn fault(&mut self, current: usize, fault: PageFault) -> Faulted
        requires live { is_live_in self.old current ≡ true }
        requires spaces { Keeps self.old }
        ensures told { (input : List ℕ) → IsFaulted result (handled (state_of self.old input) current fault) (state_of self.old input) (state_of self.new input) }
        ensures live { is_live_in self.new current ≡ true }
        ensures spaces { Keeps self.new }
    {
        let environment = self.environment(current);
        if environment.upcall == 0 {
            return Faulted::Killed;
        }
        let place = match upcall_place(environment.registers.esp) {
            UpcallPlace::At(place) => place,
            UpcallPlace::Overflow => return Faulted::Killed,
        };
        let space = self.space(current);
        match self.spaces.access(space, place, Access::Write) {
            Ok(location) => {
                let frame = frame_bytes(fault, &environment.registers);
                self.spaces.fill(location.frame, location.offset, &frame);
                self.set_registers(
                    current,
                    Regs {
                        esp: place,
                        eip: environment.upcall,
                        ..environment.registers
                    },
                );
                self.upcalls = self.upcalls.saturating_add(1);
                Faulted::Upcall
            }
            Err(_) => Faulted::Killed,
        }
    }
}

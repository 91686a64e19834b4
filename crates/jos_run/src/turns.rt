//! The turns of the environments that the library serves.

ghost use Rattle.std.specs.Prelude.{◌≡◌, ◌-◌, ◌<◌, ◌^◌, true};
ghost use Rattle.std.specs.Option.{ForSome};
ghost use Rattle.jos_base.specs.declared.numbers.TheConstants.{NENV};
ghost use Rattle.jos_base.specs.Environments.{is_live, is_running};
ghost use Rattle.jos_base.specs.KernelState.{slot_at, turn_begun, turn_ended};
ghost use Rattle.jos_sched.specs.RoundRobin.{next};
ghost use Rattle.jos_run.specs.LibraryRuns.{others_live};
ghost use Rattle.jos_run.specs.Served.{kernel_state};

use crate::served::Served;
use jos_base::{NENV, Status};

impl Served {
    /// Whether there is an environment in a slot.
    pub(crate) fn is_live_in(&self, slot: usize) -> bool
        requires { slot < NENV }
        ensures { result ≡ is_live (slot_at (kernel_state self.now) slot) }
    {
        !matches!(self.machine.system().environment(slot).status, Status::Free)
    }

    /// Whether it is the turn of the environment in a slot.
    pub(crate) fn is_running_in(&self, slot: usize) -> bool
        requires { slot < NENV }
        ensures { result ≡ is_running (slot_at (kernel_state self.now) slot).status }
    {
        matches!(
            self.machine.system().environment(slot).status,
            Status::Running
        )
    }

    /// Whether there is an environment in another slot than the first, where the file server stands.
    pub(crate) fn others_live(&self) -> bool
        ensures { result ≡ others_live (kernel_state self.now) }
    {
        for slot in 1..NENV as usize {
            if self.is_live_in(slot) {
                return true;
            }
        }
        false
    }

    /// The slot that gets the next turn.
    pub(crate) fn next_slot(&self) -> Option<usize>
        requires { ForSome (kernel_state self.now).last (λ n. n < NENV) }
        ensures { result ≡ next (kernel_state self.now).environments (kernel_state self.now).last }
    {
        self.machine.next_slot()
    }

    /// How many page faults were handed to their handlers.
    pub(crate) fn upcalls(&self) -> u64
        ensures { result ≡ (kernel_state self.now).upcalls }
    {
        self.machine.upcalls()
    }

    /// How often frames or slots were asked for and there was none.
    pub(crate) fn refused(&self) -> u64
        ensures { result ≡ (kernel_state self.now).refusals }
    {
        self.machine.refused()
    }

    /// The slot whose environment is served.
    pub(crate) fn slot(&self) -> usize
        ensures slot { result ≡ self.now.slot }
        ensures within { result < NENV }
    {
        self.slot
    }

    /// How many bytes were printed in all.
    pub fn written(&self) -> u64
        ensures { result ≡ self.now.written }
    {
        self.written
    }

    /// Begins a turn of the environment in a slot.
    pub(crate) fn begin_turn(&mut self, slot: usize)
        requires live { is_live (slot_at (kernel_state self.old) slot) ≡ true }
        requires turns { (kernel_state self.old).turns < 2 ^ 32 - 1 }
        ensures state { kernel_state self.new ≡ turn_begun (kernel_state self.old) slot }
        ensures slot { self.new.slot ≡ self.old.slot }
        ensures calls { self.new.calls ≡ self.old.calls }
        ensures written { self.new.written ≡ self.old.written }
        ensures disk { self.new.disk ≡ self.old.disk }
    {
        self.machine.begin_turn(slot);
    }

    /// Ends a turn: an environment that is running waits for the next.
    pub(crate) fn end_turn(&mut self, slot: usize)
        requires { slot < NENV }
        ensures state { kernel_state self.new ≡ turn_ended (kernel_state self.old) slot }
        ensures slot { self.new.slot ≡ self.old.slot }
        ensures calls { self.new.calls ≡ self.old.calls }
        ensures written { self.new.written ≡ self.old.written }
        ensures disk { self.new.disk ≡ self.old.disk }
    {
        self.machine.end_turn(slot);
    }
}

//! The system: address spaces and environments, and what becomes of both together.

ghost use Rattle.std.specs.Prelude.{◌≡◌, ◌≢◌, ℕ, ◌<◌, ◌≤◌, ◌-◌, ◌^◌, List, [], Ok, Err, IfOk, IfErr, OnErr, true};
ghost use Rattle.jos_base.specs.declared.environment.Status.TheVariants.{Free};
ghost use Rattle.jos_base.specs.KernelState.{first_state, slot_at, with_registers, with_status, turn_begun, turn_ended};
ghost use Rattle.jos_base.specs.KernelState.{with_upcall, with_rendezvous, with_extra, with_env_type};
ghost use Rattle.jos_ipc.specs.Messages.{rendezvous_of};
ghost use Rattle.jos_base.specs.Environments.{records_of};
ghost use Rattle.jos_base.specs.SystemCalls.{environment_made, without_environment};
ghost use Rattle.jos_space.specs.Frames.{state, records};
ghost use Rattle.jos_envs.specs.Slots.{slot_of};
ghost use Rattle.jos_envs.specs.Table.{environments, KeepsLive, KeepsOthersLive};
ghost use Rattle.jos_sys.specs.System.{state_of, environments_of, Keeps, HasSoundFrames, ShowsOthers, is_live_in, in_use};

use jos_base::{
    Called, EnvId, EnvType, Errno, Extra, FRAMES_MAX, FRAMES_MIN, NENV, NoMemory, Regs, Status,
};
use jos_envs::{Environment, Table};
use jos_ipc::Rendezvous;
use jos_space::{Space, Spaces};
use std::alloc::Global;

/// What a system call or a trap is to its caller, and how many bytes it has written to the console.
#[derive(Clone, Copy, Debug, PartialEq, Eq)]
pub struct CallAnswer {
    pub called: Called,
    pub written: u32,
}

/// Address spaces, environments, and the counts of what they were refused and of the turns that they had.
#[derive(Drop)]
pub struct System {
    pub(crate) spaces: Spaces,
    pub(crate) table: Table,
    pub(crate) refusals: u64,
    pub(crate) upcalls: u64,
    last: Option<usize>,
    turns: u32,
}

/// Shows the environment of a slot in the record that users read of it.
fn show(spaces: &mut Spaces, table: &Table, slot: usize)
    requires { slot < NENV }
    ensures state { state spaces.new ≡ state spaces.old }
    ensures records { ShowsOthers (records spaces.old) (environments table.now) slot → records spaces.new ≡ records_of (environments table.now) }
{
    let record = table.get(slot).record();
    spaces.set_env_record(slot, record);
}

impl System {
    /// So many frames, and no environment. It takes all the memory that a system ever takes.
    pub fn new(alloc: Global, frames: u32) -> Result<System, NoMemory>
        requires least { FRAMES_MIN ≤ frames }
        requires most { frames ≤ FRAMES_MAX }
        ensures state { IfOk result (λ system. (input : List ℕ) → state_of system input ≡ first_state frames input) }
        ensures spaces { IfOk result Keeps }
    {
        let spaces = Spaces::new(alloc, frames)?;
        let table = Table::new(alloc)?;
        Ok(System {
            spaces,
            table,
            refusals: 0,
            upcalls: 0,
            last: None,
            turns: 0,
        })
    }

    /// Tells what holds of the frames at every moment. Nothing is done.
    #[inline(always)]
    pub fn keep_sound(&self)
        ensures { HasSoundFrames self.now }
    {
        self.spaces.keep_sound();
    }

    /// How often the free list or the table of environments was asked and empty.
    pub fn refused(&self) -> u64
        ensures { (input : List ℕ) → result ≡ (state_of self.now input).refusals }
    {
        self.refusals
    }

    /// How many page faults were handed to the handlers of those that raised them.
    pub fn upcalls(&self) -> u64
        ensures { (input : List ℕ) → result ≡ (state_of self.now input).upcalls }
    {
        self.upcalls
    }

    /// The slot that had the last turn.
    #[inline(always)]
    pub fn last(&self) -> Option<usize>
        ensures { (input : List ℕ) → result ≡ (state_of self.now input).last }
    {
        self.last
    }

    /// The environments.
    #[inline(always)]
    pub fn table(&self) -> &Table
        ensures { (input : List ℕ) → environments result.now ≡ (state_of self.now input).environments }
    {
        &self.table
    }

    /// The environment of a slot.
    pub fn environment(&self, slot: usize) -> Environment
        requires { slot < NENV }
        ensures { (input : List ℕ) → slot_of result ≡ slot_at (state_of self.now input) slot }
    {
        self.table.get(slot)
    }

    /// The registers of an environment.
    #[inline(always)]
    pub fn registers(&self, slot: usize) -> Regs
        requires { is_live_in self.now slot ≡ true }
        ensures { (input : List ℕ) → result ≡ (slot_at (state_of self.now input) slot).registers }
    {
        self.table.registers(slot)
    }

    /// Sets the registers of an environment.
    #[inline(always)]
    pub fn set_registers(&mut self, slot: usize, registers: Regs)
        requires { is_live_in self.old slot ≡ true }
        ensures state { (input : List ℕ) → state_of self.new input ≡ with_registers (state_of self.old input) slot registers }
        ensures live { KeepsLive (environments_of self.old) (environments_of self.new) }
        ensures spaces { Keeps self.old → Keeps self.new }
    {
        self.table.set_registers(slot, registers);
    }

    /// Sets what an environment keeps for a library outside of the kernel.
    pub fn set_extra(&mut self, slot: usize, extra: Extra)
        requires { is_live_in self.old slot ≡ true }
        ensures state { (input : List ℕ) → state_of self.new input ≡ with_extra (state_of self.old input) slot extra.0 }
        ensures live { KeepsLive (environments_of self.old) (environments_of self.new) }
        ensures spaces { Keeps self.old → Keeps self.new }
    {
        self.table.set_extra(slot, extra);
    }

    /// Sets what an environment is there for.
    pub fn set_env_type(&mut self, slot: usize, env_type: EnvType)
        requires { is_live_in self.old slot ≡ true }
        ensures state { (input : List ℕ) → state_of self.new input ≡ with_env_type (state_of self.old input) slot env_type }
        ensures live { KeepsLive (environments_of self.old) (environments_of self.new) }
        ensures spaces { Keeps self.old → Keeps self.new }
    {
        self.table.set_env_type(slot, env_type);
        show(&mut self.spaces, &self.table, slot);
    }

    /// Sets whether an environment may run.
    pub fn set_status(&mut self, slot: usize, status: Status)
        requires live { is_live_in self.old slot ≡ true }
        requires status { status ≢ Free }
        ensures state { (input : List ℕ) → state_of self.new input ≡ with_status (state_of self.old input) slot status }
        ensures live { KeepsLive (environments_of self.old) (environments_of self.new) }
        ensures spaces { Keeps self.old → Keeps self.new }
    {
        self.table.set_status(slot, status);
        show(&mut self.spaces, &self.table, slot);
    }

    /// Sets where an environment handles its page faults; 0 where it does not.
    pub fn set_upcall(&mut self, slot: usize, address: u32)
        requires live { is_live_in self.old slot ≡ true }
        ensures state { (input : List ℕ) → state_of self.new input ≡ with_upcall (state_of self.old input) slot address }
        ensures live { KeepsLive (environments_of self.old) (environments_of self.new) }
        ensures spaces { Keeps self.old → Keeps self.new }
    {
        self.table.set_upcall(slot, address);
        show(&mut self.spaces, &self.table, slot);
    }

    /// Sets what an environment waits for.
    pub(crate) fn set_rendezvous(&mut self, slot: usize, rendezvous: Rendezvous)
        requires live { is_live_in self.old slot ≡ true }
        ensures state { (input : List ℕ) → state_of self.new input ≡ with_rendezvous (state_of self.old input) slot (rendezvous_of rendezvous) }
        ensures live { KeepsLive (environments_of self.old) (environments_of self.new) }
        ensures spaces { Keeps self.old → Keeps self.new }
    {
        self.table.set_rendezvous(slot, rendezvous);
        show(&mut self.spaces, &self.table, slot);
    }

    /// Begins a turn of an environment.
    pub fn begin_turn(&mut self, slot: usize)
        requires live { is_live_in self.old slot ≡ true }
        requires turns { (state_of self.old []).turns < 2 ^ 32 - 1 }
        ensures state { (input : List ℕ) → state_of self.new input ≡ turn_begun (state_of self.old input) slot }
        ensures live { KeepsLive (environments_of self.old) (environments_of self.new) }
        ensures spaces { Keeps self.old → Keeps self.new }
    {
        self.table.begin_turn(slot);
        show(&mut self.spaces, &self.table, slot);
        self.last = Some(slot);
        self.turns += 1;
    }

    /// Ends a turn: an environment that is running waits for the next.
    pub fn end_turn(&mut self, slot: usize)
        requires { slot < NENV }
        ensures state { (input : List ℕ) → state_of self.new input ≡ turn_ended (state_of self.old input) slot }
        ensures live { KeepsLive (environments_of self.old) (environments_of self.new) }
        ensures spaces { Keeps self.old → Keeps self.new }
    {
        if matches!(self.table.get(slot).status, Status::Running) {
            self.table.set_status(slot, Status::Runnable);
            show(&mut self.spaces, &self.table, slot);
        }
    }

    /// The space of an environment.
    pub fn space(&self, slot: usize) -> Space
        requires { is_live_in self.now slot ≡ true }
        ensures directory { (input : List ℕ) → result.directory.0 ≡ (slot_at (state_of self.now input) slot).directory }
        ensures in_use { Keeps self.now → in_use self.now result.directory.0 ≡ true }
    {
        Space {
            directory: self.table.get(slot).directory,
        }
    }

    /// Makes an environment, which may not run yet, with a space of its own.
    pub fn make_environment(&mut self, parent: EnvId) -> Result<usize, Errno>
        requires spaces { Keeps self.old }
        ensures ok { IfOk result (λ slot. (input : List ℕ) → environment_made (state_of self.old input) parent.0 ≡ Ok (slot, state_of self.new input)) }
        ensures err { IfErr result (λ error. (input : List ℕ) → environment_made (state_of self.old input) parent.0 ≡ Err error) }
        ensures stays { OnErr result ((input : List ℕ) → state_of self.new input ≡ state_of self.old input) }
        ensures is_live { IfOk result (λ slot. is_live_in self.new slot ≡ true) }
        ensures live { KeepsLive (environments_of self.old) (environments_of self.new) }
        ensures spaces { Keeps self.new }
    {
        let slot = match self.table.allot(parent) {
            Some(slot) => slot,
            None => return Err(Errno::NoFreeEnv),
        };
        match self.spaces.create() {
            Some(space) => {
                self.table.set_directory(slot, space.directory);
                show(&mut self.spaces, &self.table, slot);
                Ok(slot)
            }
            None => {
                self.table.undo(slot);
                Err(Errno::NoMem)
            }
        }
    }

    /// Destroys an environment: its space, and then its slot is free.
    pub(crate) fn destroy(&mut self, slot: usize)
        requires live { is_live_in self.old slot ≡ true }
        requires spaces { Keeps self.old }
        ensures state { (input : List ℕ) → state_of self.new input ≡ without_environment (state_of self.old input) slot }
        ensures live { KeepsOthersLive slot (environments_of self.old) (environments_of self.new) }
        ensures spaces { Keeps self.new }
    {
        let space = self.space(slot);
        self.spaces.destroy(space);
        self.table.free(slot);
        show(&mut self.spaces, &self.table, slot);
    }
}

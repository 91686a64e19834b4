//! The table.

ghost use Rattle.std.specs.Prelude.{◌≡◌, ◌<◌, ◌≤◌, ◌+◌, ◌%◌, ◌^◌, true, false, Some, not, IfOk, IfSome, IsNone};
ghost use Rattle.std.specs.Option.{option_map};
ghost use Rattle.jos_base.specs.declared.numbers.TheConstants.{NENV};
ghost use Rattle.jos_base.specs.Environments.{is_live, is_free, with_slot, allotted, slot_freed, found};
ghost use Rattle.jos_base.specs.Environments.{first_environments};
ghost use Rattle.jos_ipc.specs.Messages.{rendezvous_of};
ghost use Rattle.jos_envs.specs.Slots.{slot_of};
ghost use Rattle.jos_envs.specs.SlotSets.{IsFirstSlot};
ghost use Rattle.jos_envs.specs.Table.{environments, recent_slot, undone, any_live, may_run};
ghost use Rattle.jos_envs.specs.Table.{KeepsLive, KeepsOthersLive};

use crate::beginning::first_order;
use crate::environment::{Environment, is_runnable, next_id};
use crate::recent::Recent;
use crate::slot_set::SlotSet;
use jos_base::{EnvId, EnvType, Extra, Frame, NENV, NoMemory, Regs, Status};
use jos_ipc::Rendezvous;
use std::alloc::Global;
use std::marker::Model;

/// The environments, by slots. (MIT 6.828, kern/env.c)
#[derive(Drop)]
pub struct Table {
    slots: Vec<Environment>,
    /// The free slots, the next to be given last, in the first `free_len` places.
    order: Vec<usize>,
    free_len: usize,
    runnable: SlotSet,
    recent: Option<Recent>,
}

impl Model for Table {
    ghost use Rattle.jos_envs.specs.Table.{Kept};
    ghost use Rattle.jos_envs.specs.Lawful.{Lawful};

    ghost Value = { Kept };

    ghost view = { λ t. record {
      slots = t.slots.items;
      order = t.order.items;
      free_len = t.free_len;
      runnable = t.runnable.words;
      recent = t.recent;
    } };

    ghost invariant = { λ t. Lawful (record {
      slots = t.slots.items;
      order = t.order.items;
      free_len = t.free_len;
      runnable = t.runnable.words;
      recent = t.recent;
    }) };
}

impl Table {
    /// A table without an environment. This takes about 100 KB.
    pub fn new(alloc: Global) -> Result<Table, NoMemory>
        ensures { IfOk result (λ table. environments table ≡ first_environments) }
    {
        Ok(Table {
            slots: vec![in alloc; Environment::free(EnvId(0)); NENV as usize]?,
            order: first_order(alloc)?,
            free_len: NENV as usize,
            runnable: SlotSet::empty(),
            recent: None,
        })
    }

    /// What stands in a slot.
    pub fn get(&self, slot: usize) -> Environment
        requires { slot < NENV }
        ensures { slot_of result ≡ (environments self.now).slots slot }
    {
        self.slots[slot]
    }

    /// The registers of an environment.
    pub fn registers(&self, slot: usize) -> Regs
        requires { is_live ((environments self.now).slots slot) ≡ true }
        ensures { result ≡ ((environments self.now).slots slot).registers }
    {
        self.get(slot).registers
    }

    /// Puts an environment in the place of another.
    fn put(&mut self, slot: usize, environment: Environment)
        requires live { is_live ((environments self.old).slots slot) ≡ true }
        requires status { is_free environment.status ≡ false }
        ensures put { environments self.new ≡ with_slot (environments self.old) slot (slot_of environment) }
        ensures live { KeepsLive (environments self.old) (environments self.new) }
    {
        self.slots[slot] = environment;
        self.runnable.set(slot, is_runnable(environment.status));
    }

    /// Sets the registers of an environment.
    pub fn set_registers(&mut self, slot: usize, registers: Regs)
        requires { is_live ((environments self.old).slots slot) ≡ true }
        ensures set { environments self.new ≡ with_slot (environments self.old) slot
            (record ((environments self.old).slots slot) { registers = registers }) }
        ensures live { KeepsLive (environments self.old) (environments self.new) }
    {
        let old = self.get(slot);
        self.put(slot, Environment { registers, ..old });
    }

    /// Sets what an environment is doing. An environment does not end by this; `free` ends it.
    pub fn set_status(&mut self, slot: usize, status: Status)
        requires live { is_live ((environments self.old).slots slot) ≡ true }
        requires status { is_free status ≡ false }
        ensures set { environments self.new ≡ with_slot (environments self.old) slot
            (record ((environments self.old).slots slot) { status = status }) }
        ensures live { KeepsLive (environments self.old) (environments self.new) }
    {
        let old = self.get(slot);
        self.put(slot, Environment { status, ..old });
    }

    /// Sets the frame of an environment's directory.
    pub fn set_directory(&mut self, slot: usize, directory: Frame)
        requires { is_live ((environments self.old).slots slot) ≡ true }
        ensures set { environments self.new ≡ with_slot (environments self.old) slot
            (record ((environments self.old).slots slot) { directory = directory.0 }) }
        ensures live { KeepsLive (environments self.old) (environments self.new) }
    {
        let old = self.get(slot);
        self.put(slot, Environment { directory, ..old });
    }

    /// Sets where an environment handles its page faults.
    pub fn set_upcall(&mut self, slot: usize, address: u32)
        requires { is_live ((environments self.old).slots slot) ≡ true }
        ensures set { environments self.new ≡ with_slot (environments self.old) slot
            (record ((environments self.old).slots slot) { upcall = address }) }
        ensures live { KeepsLive (environments self.old) (environments self.new) }
    {
        let old = self.get(slot);
        self.put(
            slot,
            Environment {
                upcall: address,
                ..old
            },
        );
    }

    /// Sets what an environment waits for, and what came.
    pub fn set_rendezvous(&mut self, slot: usize, rendezvous: Rendezvous)
        requires { is_live ((environments self.old).slots slot) ≡ true }
        ensures set { environments self.new ≡ with_slot (environments self.old) slot
            (record ((environments self.old).slots slot) { rendezvous = rendezvous_of rendezvous }) }
        ensures live { KeepsLive (environments self.old) (environments self.new) }
    {
        let old = self.get(slot);
        self.put(slot, Environment { rendezvous, ..old });
    }

    /// Sets what an environment keeps for a library outside of the kernel.
    pub fn set_extra(&mut self, slot: usize, extra: Extra)
        requires { is_live ((environments self.old).slots slot) ≡ true }
        ensures set { environments self.new ≡ with_slot (environments self.old) slot
            (record ((environments self.old).slots slot) { extra = extra.0 }) }
        ensures live { KeepsLive (environments self.old) (environments self.new) }
    {
        let old = self.get(slot);
        self.put(slot, Environment { extra, ..old });
    }

    /// Sets what an environment is there for.
    pub fn set_env_type(&mut self, slot: usize, env_type: EnvType)
        requires { is_live ((environments self.old).slots slot) ≡ true }
        ensures set { environments self.new ≡ with_slot (environments self.old) slot
            (record ((environments self.old).slots slot) { env_type = env_type }) }
        ensures live { KeepsLive (environments self.old) (environments self.new) }
    {
        let old = self.get(slot);
        self.put(slot, Environment { env_type, ..old });
    }

    /// Begins a turn of an environment, which counts it.
    pub fn begin_turn(&mut self, slot: usize)
        requires { is_live ((environments self.old).slots slot) ≡ true }
        ensures set { environments self.new ≡ with_slot (environments self.old) slot
            (record ((environments self.old).slots slot) { status = Status.Running; runs = (((environments self.old).slots slot).runs + 1) % 2 ^ 32 }) }
        ensures live { KeepsLive (environments self.old) (environments self.new) }
    {
        let old = self.get(slot);
        let environment = Environment {
            status: Status::Running,
            runs: old.runs.wrapping_add(1),
            ..old
        };
        self.put(slot, environment);
    }

    /// Gives the first free slot to a new environment of this parent, which may not run yet. None where no slot is
    /// free.
    pub fn allot(&mut self, parent: EnvId) -> Option<usize>
        ensures exact { allotted (environments self.old) parent.0 ≡ option_map (λ slot. (slot, environments self.new)) result }
        ensures none { IsNone result → environments self.new ≡ environments self.old }
        ensures within { IfSome result (λ slot. slot < NENV) }
        ensures was_free { IfSome result (λ slot. is_live ((environments self.old).slots slot) ≡ false) }
        ensures is_live { IfSome result (λ slot. is_live ((environments self.new).slots slot) ≡ true) }
        ensures live { KeepsLive (environments self.old) (environments self.new) }

        // Until a slot is given or freed, it may be taken back, and then all is as it was.
        ensures recent { IfSome result (λ slot. recent_slot self.new ≡ Some slot) }
        ensures undone { IfSome result (λ slot. undone self.new ≡ environments self.old) }
    {
        if self.free_len == 0 {
            return None;
        }
        let slot = self.order[self.free_len - 1];
        let last = self.get(slot).id;
        self.slots[slot] = Environment::new(next_id(last, slot), parent);
        self.free_len -= 1;
        self.recent = Some(Recent { slot, id: last });
        Some(slot)
    }

    /// Frees a slot, which keeps this id as its last.
    fn release(&mut self, slot: usize, id: EnvId)
        requires { is_live ((environments self.old).slots slot) ≡ true }
        ensures freed { environments self.new ≡ slot_freed (environments self.old) slot id.0 }
        ensures live { KeepsOthersLive slot (environments self.old) (environments self.new) }
    {
        self.slots[slot] = Environment::free(id);
        self.order[self.free_len] = slot;
        self.free_len += 1;
        self.runnable.set(slot, false);
        self.recent = None;
    }

    /// Ends an environment. Its slot is the next that is given, and its id is not given again at once.
    pub fn free(&mut self, slot: usize)
        requires { is_live ((environments self.old).slots slot) ≡ true }
        ensures freed { environments self.new ≡ slot_freed (environments self.old) slot ((environments self.old).slots slot).id }
        ensures live { KeepsOthersLive slot (environments self.old) (environments self.new) }
    {
        let id = self.get(slot).id;
        self.release(slot, id);
    }

    /// Takes back the slot that was given last, with the id that its environment had.
    pub fn undo(&mut self, slot: usize)
        requires { recent_slot self.old ≡ Some slot }
        ensures { environments self.new ≡ undone self.old }
    {
        if let Some(recent) = self.recent {
            self.release(slot, recent.id);
        }
    }

    /// The slot of the environment that the caller names by an id; 0 names the caller itself. Where control is wanted,
    /// it is the caller's own or that of a child.
    #[tactic(auto, unfolding(jos_base::specs::Environments::found))]
    pub fn find(&self, id: EnvId, caller: usize, control: bool) -> Option<usize>
        requires { is_live ((environments self.now).slots caller) ≡ true }
        ensures { result ≡ found (environments self.now) id.0 caller control }
    {
        if id.0 == 0 {
            return Some(caller);
        }
        let slot = (id.0 % NENV) as usize;
        let named = self.get(slot);
        if named.status == Status::Free || named.id != id {
            return None;
        }
        let own = self.get(caller).id;
        if control && slot != caller && named.parent != own {
            return None;
        }
        Some(slot)
    }

    /// The first slot, from a slot on, whose environment waits for a turn.
    pub fn first_runnable(&self, from: usize) -> Option<usize>
        requires { from ≤ NENV }
        ensures { IsFirstSlot (may_run (environments self.now)) from result }
    {
        self.runnable.first_from(from)
    }

    /// Whether there is no environment.
    pub fn is_unused(&self) -> bool
        ensures { result ≡ not (any_live (environments self.now)) }
    {
        self.free_len == NENV as usize
    }
}

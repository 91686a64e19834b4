//! The system calls on pages.

ghost use Rattle.std.specs.Prelude.{◌≡◌, ℕ, ◌<◌, ◌*◌, List, Some, None, IfSome, OnOk, OnErr, true, option_map};
ghost use Rattle.jos_base.specs.declared.numbers.TheConstants.{PGSIZE, UTOP};
ghost use Rattle.jos_base.specs.SpacesState.{inserted, page};
ghost use Rattle.jos_base.specs.Environments.{found};
ghost use Rattle.jos_base.specs.KernelState.{with_spaces, with_refusal};
ghost use Rattle.jos_base.specs.declared.errno.Errno.TheVariants.{NoMem};
ghost use Rattle.jos_base.specs.SystemCalls.{refused, is_page_address, is_page_perm, shared_entry, entry_at};
ghost use Rattle.jos_base.specs.SystemCalls.{page_alloc_of, page_map_of, page_unmap_of};
ghost use Rattle.jos_space.specs.Calls.{entry_looked};
ghost use Rattle.jos_sys.specs.System.{state_of, spaces_of, environments_of, Keeps, is_live_in, IsDone};

use crate::system::{CallAnswer, System};
use jos_base::{EnvId, Errno, Frame, PGSIZE, PTE_P, PTE_SYSCALL, PTE_U, PTE_W, Perm, UTOP};
use jos_space::Empty;

/// A page, as a caller names it.
#[derive(Clone, Copy)]
pub(crate) struct PageOf {
    /// Whose it is.
    pub(crate) id: EnvId,
    pub(crate) va: u32,
}

/// Whether a program may map a page at an address.
fn is_page_address(va: u32) -> bool
    ensures { result ≡ is_page_address va }
{
    va % PGSIZE == 0 && va < UTOP
}

/// Whether a program may give a page's entry these bits: P and U, and beside them W and those that are left to software.
fn is_page_perm(perm: u32) -> bool
    ensures { result ≡ is_page_perm perm }
{
    const USER: u32 = PTE_P + PTE_U;
    perm & USER == USER && perm & PTE_SYSCALL == perm
}

/// The frame of a page that may be given on with these bits, where that is so. W is given on only where it was had.
fn shared_frame(found: Option<(Frame, Perm)>, perm: u32) -> Option<Frame>
    ensures exact { option_map (λ frame. record { frame = frame.0; perm = perm }) result ≡ shared_entry (entry_looked found) perm }
    ensures perm { IfSome result (λ frame. is_page_perm perm ≡ true) }
    ensures frame { IfSome result (λ frame. option_map (λ f. f.0) found ≡ Some frame) }
{
    let (frame, had) = found?;
    if !is_page_perm(perm) || perm & PTE_W == PTE_W && had.0 & PTE_W != PTE_W {
        return None;
    }
    Some(frame)
}

impl System {
    /// Refuses a system call for want of a frame, and counts that.
    pub(crate) fn refuse_frame(&mut self, current: usize) -> CallAnswer
        requires live { is_live_in self.old current ≡ true }
        requires spaces { Keeps self.old }
        ensures state { (input : List ℕ) → IsDone result (refused (with_refusal (state_of self.old input)) current NoMem) (state_of self.new input) }
        ensures spaces { Keeps self.new }
    {
        self.refusals = self.refusals.saturating_add(1);
        self.refuse(current, Errno::NoMem)
    }

    /// The frame of a page of an environment that may be given on with these bits, where there is one.
    pub(crate) fn page_to_share(&self, slot: usize, va: u32, perm: u32) -> Option<Frame>
        requires live { is_live_in self.now slot ≡ true }
        requires spaces { Keeps self.now }
        ensures exact { (input : List ℕ) → option_map (λ frame. record { frame = frame.0; perm = perm }) result ≡ shared_entry (entry_at (state_of self.now input) slot va) perm }
        ensures perm { IfSome result (λ frame. is_page_perm perm ≡ true) }
        ensures page { IfSome result (λ frame. (spaces_of self.now).uses frame.0 ≡ page) }
    {
        shared_frame(self.spaces.look(self.space(slot), va), perm)
    }

    /// Puts a page into the space of an environment by this number, in the place of what stood there. `Empty` where a table
    /// is needed and no frame is free; nothing is changed then.
    pub fn insert(&mut self, slot: usize, number: u32, frame: Frame, perm: u32) -> Result<(), Empty>
        requires live { is_live_in self.old slot ≡ true }
        requires spaces { Keeps self.old }
        requires number { number * PGSIZE < UTOP }
        requires frame { (spaces_of self.old).uses frame.0 ≡ page }
        requires perm { is_page_perm perm ≡ true }
        ensures ok { OnOk result (inserted (spaces_of self.old) ((environments_of self.old).slots slot).directory number (record { frame = frame.0; perm = perm }) ≡ Some (spaces_of self.new)) }
        ensures empty { OnErr result (inserted (spaces_of self.old) ((environments_of self.old).slots slot).directory number (record { frame = frame.0; perm = perm }) ≡ None) }
        ensures stays { OnErr result (self.new ≡ self.old) }
        ensures rest { (input : List ℕ) → state_of self.new input ≡ with_spaces (state_of self.old input) (spaces_of self.new) }
        ensures spaces { Keeps self.new }
    {
        let space = self.space(slot);
        self.spaces
            .insert(space, number * PGSIZE, frame, Perm(perm))
    }

    /// Gives the environment that an id names, the caller or a child of its own, a new page of zeros.
    pub(crate) fn page_alloc(&mut self, current: usize, id: EnvId, va: u32, perm: u32) -> CallAnswer
        requires live { is_live_in self.old current ≡ true }
        requires spaces { Keeps self.old }
        ensures state { (input : List ℕ) → IsDone result (page_alloc_of (state_of self.old input) current (found (state_of self.old input).environments id.0 current true) va perm) (state_of self.new input) }
        ensures spaces { Keeps self.new }
    {
        match self.table.find(id, current, true) {
            Some(target) => {
                if !is_page_address(va) {
                    return self.refuse(current, Errno::Invalid);
                }
                if !is_page_perm(perm) {
                    return self.refuse(current, Errno::Invalid);
                }
                match self.allocate(target, va, Perm(perm)) {
                    Some(_) => self.answer(current, 0),
                    None => self.refuse_frame(current),
                }
            }
            None => self.refuse(current, Errno::BadEnv),
        }
    }

    /// Gives a page of one environment to another, or to the same, each of which is the caller or a child of its own.
    pub(crate) fn page_map(
        &mut self,
        current: usize,
        from: PageOf,
        to: PageOf,
        perm: u32,
    ) -> CallAnswer
        requires live { is_live_in self.old current ≡ true }
        requires spaces { Keeps self.old }
        ensures state { (input : List ℕ) → IsDone result (page_map_of (state_of self.old input) current (found (state_of self.old input).environments from.id.0 current true) from.va (found (state_of self.old input).environments to.id.0 current true) to.va perm) (state_of self.new input) }
        ensures spaces { Keeps self.new }
    {
        let source = match self.table.find(from.id, current, true) {
            Some(source) => source,
            None => return self.refuse(current, Errno::BadEnv),
        };
        let target = match self.table.find(to.id, current, true) {
            Some(target) => target,
            None => return self.refuse(current, Errno::BadEnv),
        };
        if !is_page_address(from.va) {
            return self.refuse(current, Errno::Invalid);
        }
        if !is_page_address(to.va) {
            return self.refuse(current, Errno::Invalid);
        }
        match self.page_to_share(source, from.va, perm) {
            Some(frame) => match self.insert(target, to.va / PGSIZE, frame, perm) {
                Ok(()) => self.answer(current, 0),
                Err(Empty) => self.refuse_frame(current),
            },
            None => self.refuse(current, Errno::Invalid),
        }
    }

    /// Takes a page from the environment that an id names, the caller or a child of its own, if it has one there.
    pub(crate) fn page_unmap(&mut self, current: usize, id: EnvId, va: u32) -> CallAnswer
        requires live { is_live_in self.old current ≡ true }
        requires spaces { Keeps self.old }
        ensures state { (input : List ℕ) → IsDone result (page_unmap_of (state_of self.old input) current (found (state_of self.old input).environments id.0 current true) va) (state_of self.new input) }
        ensures spaces { Keeps self.new }
    {
        match self.table.find(id, current, true) {
            Some(target) => {
                if !is_page_address(va) {
                    return self.refuse(current, Errno::Invalid);
                }
                let space = self.space(target);
                self.spaces.remove(space, va);
                self.answer(current, 0)
            }
            None => self.refuse(current, Errno::BadEnv),
        }
    }
}

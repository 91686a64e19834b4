//! The kernel in its run: steps and turns.

ghost use Rattle.std.specs.Prelude.{◌≡◌, ◌<◌, ◌≤◌, ◌+◌, ◌-◌, ◌^◌, [], Some, None, Ok, Err, IfOk, IfErr, OnOk};
ghost use Rattle.std.specs.Prelude.{All, true, false, length, vec_len, unwrap_or};
ghost use Rattle.std.specs.Option.{ForSome};
ghost use Rattle.jos_host.specs.Told.{HasCause};
ghost use Rattle.jos_host.specs.Frames.{Unchanged, around, from_to};
ghost use Rattle.jos_base.specs.declared.numbers.TheConstants.{TURN_MAX, FRAMES_MIN, FRAMES_MAX, NENV};
ghost use Rattle.jos_base.specs.Environments.{is_live, is_running};
ghost use Rattle.jos_base.specs.KernelState.{slot_at};
ghost use Rattle.jos_sched.specs.Quantum.{quantum};
ghost use Rattle.jos_kernel.specs.Boot.{booted, loadables};
ghost use Rattle.jos_kernel.specs.Loading.{IsRead};
ghost use Rattle.jos_kernel.specs.Books.{made, HasRoom};
ghost use Rattle.jos_kernel.specs.ExoRun.{current, turn_entered, end_of, before_steps, report_of};
ghost use Rattle.circular_buffer.specs.Buffer.{keep_last};
ghost use Rattle.jos_kernel.specs.Kernel.{state_of, progress_of, ToldSoFar, nothing, Counts, Holds, Counted, Advances, StepsOnce, IsRun};
ghost use Rattle.jos_kernel.specs.Ends.{result_of, IfEnded};
ghost use Rattle.jos_kernel.specs.declared.report.End.TheVariants.{Budget};
ghost use Rattle.jos_kernel.specs.declared.kernel.BootFault.TheVariants.{NoMemory};

use crate::book::{Book, take_room};
use crate::boot::boot_images;
use crate::fence::Open;
use crate::machine::Machine;
use crate::report::{End, Report, Stopped};
use crate::trace::Trace;
use jos_base::NoMemory;
use jos_cpu::{Decodings, Gates, make_burst};
use jos_elf::Image;
use jos_host::{Failed, Host};
use jos_sched::Schedule;
use jos_sys::{Input, System};
use std::alloc::{AllocError, Global};

/// Why images are not booted.
#[derive(Clone, Copy, Debug, PartialEq, Eq)]
pub enum BootFault {
    /// There are too few frames.
    Pool,
    NoMemory,
}

impl From<AllocError> for BootFault {
    ghost from_gives = { λ _ fault. fault ≡ NoMemory };

    fn from(_fault: AllocError) -> BootFault {
        BootFault::NoMemory
    }
}

impl From<NoMemory> for BootFault {
    ghost from_gives = { λ _ fault. fault ≡ NoMemory };

    fn from(_fault: NoMemory) -> BootFault {
        BootFault::NoMemory
    }
}

/// How `exo_run` ends.
#[derive(Clone, Copy, Debug, PartialEq, Eq)]
pub enum ExoEnd {
    Ended(End),
    /// A call of the host failed.
    HostFault,
}

/// The kernel in its run.
#[derive(Drop)]
pub struct Kernel {
    machine: Machine<Open>,
    /// What was decoded.
    decodings: Decodings,
    book: Book,
    /// The bytes written to the console.
    written: u64,
}

impl Kernel {
    /// Boots the images, each of which was read from the file at its place, in so many frames, with the console's input.
    /// The last traps, so many, are kept in the order in which they come. All the memory that a run takes is taken here.
    pub fn boot(
        alloc: Global,
        images: &[Image],
        files: &[Vec<u8>],
        frames: u32,
        input: Vec<u8>,
        schedule: Schedule,
        trace: u32,
    ) -> Result<Kernel, BootFault>
        requires images { All IsRead (loadables images.now files.now) }
        requires least { FRAMES_MIN ≤ frames }
        requires most { frames ≤ FRAMES_MAX }
        ensures booted { IfOk result (λ kernel. booted (loadables images.now files.now) frames input.items ≡ Some (state_of kernel)) }
        ensures first { IfOk result (λ kernel. progress_of kernel nothing ≡ before_steps (state_of kernel)) }
        ensures schedule { IfOk result (λ kernel. kernel.book.schedule ≡ schedule) }
        ensures pool { IfErr result (λ fault. fault ≡ BootFault.Pool → booted (loadables images.now files.now) frames input.items ≡ None) }
        ensures holds { IfOk result Holds }
        ensures counts { IfOk result (λ kernel. Counts kernel (record nothing { kept = trace })) }
    {
        let (turns, trace) = take_room(alloc, trace)?;
        let decodings = Decodings::new(alloc)?;
        let mut system = System::new(alloc, frames)?;
        if !boot_images(&mut system, images, files) {
            return Err(BootFault::Pool);
        }
        Ok(Kernel {
            machine: Machine::new(system, Input::new(input)),
            decodings,
            book: Book::open(schedule, turns, trace),
            written: 0,
        })
    }

    /// The end test that holds before the next step, if one does, while there are steps left of the budget. `step` and
    /// `turn` ask that none does.
    pub fn ended(&self) -> Option<End>
        requires { Holds self.now }
        ensures { result ≡ end_of (progress_of self.now nothing) false }
    {
        match self.chosen() {
            Ok(_) => None,
            Err(end) => Some(end),
        }
    }

    /// The slot whose turn is under way or would be the next, or the end test that holds.
    #[tactic(auto, unfolding(crate::specs::ExoRun::end_of))]
    fn chosen(&self) -> Result<usize, End>
        requires { Holds self.now }
        ensures end { IfErr result (λ end. end_of (progress_of self.now nothing) false ≡ Some end) }
        ensures slot { IfOk result (λ slot. end_of (progress_of self.now nothing) false ≡ None) }
        ensures turn { IfOk result (λ slot. slot ≡ current (turn_entered (state_of self.now) (made self.now.book))) }
        ensures room { OnOk result (vec_len self.now.book.turns < TURN_MAX) }
        ensures live { IfOk result (λ slot. is_live (slot_at (state_of self.now) slot) ≡ true) }
        ensures within { IfOk result (λ slot. slot < NENV) }
    {
        if self.book.made() > 0 {
            return Ok(self.machine.current());
        }
        if self.machine.is_unused() {
            return Err(End::Done);
        }
        match self.machine.next_slot() {
            None => Err(End::Stuck),
            Some(slot) => {
                if self.book.is_full() {
                    Err(End::TurnsFull)
                } else {
                    Ok(slot)
                }
            }
        }
    }

    /// Counts the steps that the environment in a slot made, which wrote so many bytes, in a turn of which so many were
    /// left, and ends it where it is over. `refused` says whether the last step was refused a frame or a slot.
    fn count_steps(&mut self, slot: usize, steps: u32, left: u32, written: u32, refused: bool)
        requires room { HasRoom self.old.book }
        requires place { vec_len self.old.book.turns < TURN_MAX }
        requires visible { self.old.book.hidden ≡ 0 }
        requires slot { slot < NENV }
        requires current { slot ≡ current (state_of self.old) }
        requires steps { self.old.book.steps + steps < 2 ^ 64 }
        requires left { made self.old.book + left ≡ quantum self.old.book.schedule (length self.old.book.turns.items) }
        requires small { made self.old.book + left < 2 ^ 31 }
        requires within { steps ≤ left }
        requires some { 0 < steps }
        requires last { ForSome (state_of self.old).last (λ n. n < NENV) }
        requires turns { (state_of self.old).turns ≤ vec_len self.old.book.turns + 1 }
        ensures counted { Counted self.old self.new slot steps written refused }
        ensures one { length self.new.book.turns.items ≤ length self.old.book.turns.items + 1 }
        ensures under_way { 0 < made self.new.book → self.new.book.turns.items ≡ self.old.book.turns.items }
        ensures current { current (state_of self.new) ≡ slot }
        ensures holds { Holds self.new }
    {
        self.book.note_refusal(refused, self.written);
        self.written = self.written.saturating_add(written as u64);
        let running = self.machine.is_running(slot);
        if !self.book.count(slot, steps, 0, left, running) {
            self.machine.end_turn(slot);
        }
    }

    /// Begins the turn of the environment in a slot, where none is under way.
    #[inline(always)]
    fn enter_turn(&mut self, slot: usize)
        requires holds { Holds self.old }
        requires place { vec_len self.old.book.turns < TURN_MAX }
        requires slot { slot ≡ current (turn_entered (state_of self.old) (made self.old.book)) }
        requires live { is_live (slot_at (state_of self.old) slot) ≡ true }
        ensures state { state_of self.new ≡ turn_entered (state_of self.old) (made self.old.book) }
        ensures rest { self.new ≡ record self.old { machine = self.new.machine } }
        ensures running { is_running (slot_at (state_of self.new) slot).status ≡ true }
        ensures turns { (state_of self.new).turns ≤ vec_len self.new.book.turns + 1 }
    {
        if self.book.made() == 0 {
            self.machine.begin_turn(slot);
        }
    }

    /// Makes the next steps of the environment in a slot, in the turn under way or in one that begins: up to the end of
    /// the turn or to the first step that calls or raises something, and as many as are left at most. The result is
    /// their number.
    fn advance<H: Host>(&mut self, host: &mut H, slot: usize, left: u64) -> Result<u32, Failed>
        requires holds { Holds self.old }
        requires left { 0 < left }
        requires steps { self.old.book.steps + left < 2 ^ 64 }
        requires goes_on { end_of (progress_of self.old nothing) false ≡ None }
        requires slot { slot ≡ current (turn_entered (state_of self.old) (made self.old.book)) }
        requires live { is_live (slot_at (state_of self.old) slot) ≡ true }
        requires within { slot < NENV }
        requires place { vec_len self.old.book.turns < TURN_MAX }
        ensures told { Advances result left (from_to self.old self.new) (around H.console host.old host.new) }
        ensures one { OnOk result (length self.new.book.turns.items ≤ length self.old.book.turns.items + 1) }
        ensures under_way { OnOk result (0 < made self.new.book → self.new.book.turns.items ≡ self.old.book.turns.items) }
        ensures holds { OnOk result (Holds self.new) }
        ensures current { OnOk result (current (state_of self.new) ≡ slot) }
        ensures rest { Unchanged H.files H.input H.asked H.notes host.old host.new }
        ensures cause { HasCause (H.faults host.old) (H.faults host.new) result }
    {
        let left_of_turn = self.book.steps_left();
        let limit = (left_of_turn as u64).min(left) as u32;
        self.enter_turn(slot);
        let mut registers = self.machine.registers(slot);
        self.machine.load(slot, registers.eip);
        let burst = make_burst(
            &mut self.decodings,
            &mut registers,
            &mut self.machine,
            Gates::Exo,
            limit,
        );
        let refusals = self.machine.refused();
        match self.machine.follow(host, slot, registers, burst.event) {
            Ok(followed) => {
                let refused = self.machine.refused() != refusals;
                self.book.keep_trap(followed.trap);
                self.count_steps(slot, burst.steps, left_of_turn, followed.written, refused);
                Ok(burst.steps)
            }
            Err(failed) => Err(failed),
        }
    }

    /// Makes steps of the environment in a slot up to the end of its turn, and as many as are left at most.
    fn go_on<H: Host>(&mut self, host: &mut H, slot: usize, left: u64) -> Result<u64, Failed>
        requires holds { Holds self.old }
        requires left { 0 < left }
        requires steps { self.old.book.steps + left < 2 ^ 64 }
        requires goes_on { end_of (progress_of self.old nothing) false ≡ None }
        requires slot { slot ≡ current (turn_entered (state_of self.old) (made self.old.book)) }
        requires live { is_live (slot_at (state_of self.old) slot) ≡ true }
        requires within { slot < NENV }
        requires place { vec_len self.old.book.turns < TURN_MAX }
        ensures told { Advances result left (from_to self.old self.new) (around H.console host.old host.new) }
        ensures whole { IfOk result (λ n. n < left → made self.new.book ≡ 0) }
        ensures one { OnOk result (length self.new.book.turns.items ≤ length self.old.book.turns.items + 1) }
        ensures under_way { OnOk result (0 < made self.new.book → self.new.book.turns.items ≡ self.old.book.turns.items) }
        ensures holds { OnOk result (Holds self.new) }
        ensures rest { Unchanged H.files H.input H.asked H.notes host.old host.new }
        ensures cause { HasCause (H.faults host.old) (H.faults host.new) result }
    {
        let mut steps = match self.advance(host, slot, left) {
            Ok(steps) => steps as u64,
            Err(failed) => return Err(failed),
        };
        while self.book.made() > 0 && steps < left {
            match self.advance(host, slot, left - steps) {
                Ok(more) => steps += more as u64,
                Err(failed) => return Err(failed),
            }
        }
        Ok(steps)
    }

    /// Makes one step, in the turn under way or in the next. It takes no memory.
    pub fn step<H: Host>(&mut self, host: &mut H) -> Result<(), Failed>
        requires holds { Holds self.old }
        requires steps { self.old.book.steps + 1 < 2 ^ 64 }
        requires goes_on { end_of (progress_of self.old nothing) false ≡ None }
        ensures told { StepsOnce result (from_to self.old self.new) (around H.console host.old host.new) }
        ensures holds { OnOk result (Holds self.new) }
        ensures rest { Unchanged H.files H.input H.asked H.notes host.old host.new }
        ensures cause { HasCause (H.faults host.old) (H.faults host.new) result }
    {
        match self.chosen() {
            Ok(slot) => match self.advance(host, slot, 1) {
                Ok(_) => Ok(()),
                Err(failed) => Err(failed),
            },
            Err(_) => unreachable!(),
        }
    }

    /// Goes on with the turn under way, or begins the next, and makes its steps, as many as are left at most. The
    /// result is their number. It takes no memory.
    pub fn turn<H: Host>(&mut self, host: &mut H, left: u64) -> Result<u64, Failed>
        requires holds { Holds self.old }
        requires left { 0 < left }
        requires steps { self.old.book.steps + left < 2 ^ 64 }
        requires goes_on { end_of (progress_of self.old nothing) false ≡ None }
        ensures told { Advances result left (from_to self.old self.new) (around H.console host.old host.new) }
        // The turn is over, unless no step is left.
        ensures whole { IfOk result (λ n. n < left → made self.new.book ≡ 0) }
        // No more than one turn ends,
        ensures one { OnOk result (length self.new.book.turns.items ≤ length self.old.book.turns.items + 1) }
        // and where one is under way then, none has ended.
        ensures under_way { OnOk result (0 < made self.new.book → self.new.book.turns.items ≡ self.old.book.turns.items) }
        ensures holds { OnOk result (Holds self.new) }
        ensures rest { Unchanged H.files H.input H.asked H.notes host.old host.new }
        ensures cause { HasCause (H.faults host.old) (H.faults host.new) result }
    {
        match self.chosen() {
            Ok(slot) => self.go_on(host, slot, left),
            Err(_) => unreachable!(),
        }
    }

    /// The end of a run whose budget is used up.
    fn end_of_budget(&self) -> End
        requires { Holds self.now }
        ensures { unwrap_or (end_of (progress_of self.now nothing) true) Budget ≡ result }
    {
        match self.chosen() {
            Ok(_) => End::Budget,
            Err(end) => match end {
                End::Done => End::Done,
                End::Stuck => End::Stuck,
                End::Budget | End::TurnsFull => End::Budget,
            },
        }
    }

    /// All steps that were made.
    fn steps(&self) -> u64
        ensures { result ≡ self.now.book.steps }
    {
        self.book.steps()
    }

    /// Runs until an end test holds, with so many steps left.
    #[inline(never)]
    fn run<H: Host>(&mut self, host: &mut H, budget: u64) -> Result<End, Failed>
        requires holds { Holds self.old }
        requires steps { self.old.book.steps + budget < 2 ^ 64 }
        ensures told { IsRun result budget (from_to self.old self.new) (around H.console host.old host.new) }
        ensures holds { OnOk result (Holds self.new) }
        ensures rest { Unchanged H.files H.input H.asked H.notes host.old host.new }
        ensures cause { HasCause (H.faults host.old) (H.faults host.new) result }
    {
        let mut left = budget;
        while left > 0 {
            let slot = match self.chosen() {
                Ok(slot) => slot,
                Err(end) => return Ok(end),
            };
            match self.go_on(host, slot, left) {
                Ok(steps) => left -= steps,
                Err(failed) => return Err(failed),
            }
        }
        Ok(self.end_of_budget())
    }

    /// What is told of the run, with its turns, and the last of its traps.
    pub fn finish(self, end: End) -> (Report, Trace)
        requires { Holds self }
        ensures report { result.0 ≡ report_of (progress_of self nothing) end }
        ensures trace { (told : ToldSoFar) → Counts self told → result.1.items ≡ keep_last told.kept told.traps }
    {
        self.book.finish(
            self.machine.current(),
            end,
            self.machine.refused(),
            self.machine.upcalls(),
        )
    }

    /// What is told of a run where a call of the host failed: nothing.
    pub fn cut_off(self) -> Stopped
        ensures turns { result.turns ≡ [] }
        ensures first_refused { result.first_refused ≡ None }
    {
        self.book.tell_nothing()
    }
}

/// Runs the kernel until an end test holds. The budget counts all steps of the kernel, also those that were made before.
/// It takes no memory. Where the run ends by itself, the kernel stands where the run ends: every register and page, what
/// was counted and the turns.
pub fn exo_run<H: Host>(kernel: &mut Kernel, host: &mut H, budget: u64) -> ExoEnd
    requires holds { Holds kernel.old }
    requires steps { kernel.old.book.steps ≤ budget }
    ensures told { IsRun (result_of result) (budget - kernel.old.book.steps) (from_to kernel.old kernel.new) (around H.console host.old host.new) }
    ensures holds { IfEnded result (Holds kernel.new) }
    ensures rest { Unchanged H.files H.input H.asked H.notes host.old host.new }
    ensures cause { HasCause (H.faults host.old) (H.faults host.new) (result_of result) }
{
    match kernel.run(host, budget - kernel.steps()) {
        Ok(end) => ExoEnd::Ended(end),
        Err(_) => ExoEnd::HostFault,
    }
}

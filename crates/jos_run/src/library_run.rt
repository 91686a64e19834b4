//! A run of the library's programs: steps and turns.

ghost use Rattle.std.specs.Prelude.{◌≡◌, ◌<◌, ◌≤◌, ◌+◌, ◌-◌, ◌^◌, ℕ, [], Option, Some, None, IfOk, IfErr, OnOk, OnErr};
ghost use Rattle.std.specs.Prelude.{true, false, length, vec_len, vec_capacity};
ghost use Rattle.jos_host.specs.Told.{HasCause};
ghost use Rattle.jos_host.specs.Frames.{around, from_to};
ghost use Rattle.jos_base.specs.declared.numbers.TheConstants.{TURN_MAX};
ghost use Rattle.jos_base.specs.Environments.{is_running};
ghost use Rattle.jos_base.specs.KernelState.{slot_at};
ghost use Rattle.jos_sched.specs.Quantum.{quantum};
ghost use Rattle.jos_sched.specs.RoundRobin.{next};
ghost use Rattle.jos_kernel.specs.Books.{made, HasRoom, HasStepsLeft};
ghost use Rattle.jos_kernel.specs.declared.report.End.TheVariants.{Budget};
ghost use Rattle.lib_os.specs.AbstractState.{AbstractState};
ghost use Rattle.lib_os.specs.Disk.{Disk, HasBlocks};
ghost use Rattle.jos_run.specs.Begun.{IsNew};
ghost use Rattle.jos_run.specs.ServerStands.{StandsWhole};
ghost use Rattle.jos_run.specs.LibraryRuns.{others_live, end_seen, visible_steps, hidden_steps};
ghost use Rattle.jos_run.specs.Served.{kernel_state};
ghost use Rattle.jos_run.specs.Running.{state_of, Holds, Runs, IsChosen, entered, Counted};
ghost use Rattle.jos_run.specs.Running.{Advances, HasRunToEnd, disks_of, turns_so_far, report_of, cut_off_of};
ghost use Rattle.jos_run.specs.DiskTouches.{TouchesDiskOnly};
ghost use Rattle.jos_run.specs.Worlds.{beside};

use crate::served::Served;
use jos_cpu::Decodings;
use jos_host::{Failed, Host};
use jos_kernel::{Book, End, Report, Stopped, Trace, Turn};
use jos_sched::Schedule;
use lib_os::Progress;

/// A run.
#[derive(Drop)]
pub(crate) struct LibraryRun {
    served: Served,
    /// What was decoded.
    decodings: Decodings,
    /// The turn under way is that of the environment that is served.
    book: Book,
}

/// How many visible steps a step is that has come to this: one, or none.
fn visible_steps(progress: Progress) -> u32
    ensures { result ≡ visible_steps progress }
{
    match progress {
        Progress::Hidden | Progress::Waited => 0,
        Progress::Visible | Progress::Finished | Progress::Ended => 1,
    }
}

/// How many hidden ones.
fn hidden_steps(progress: Progress) -> u32
    ensures { result ≡ hidden_steps progress }
{
    match progress {
        Progress::Hidden | Progress::Waited => 1,
        Progress::Visible | Progress::Finished | Progress::Ended => 0,
    }
}

impl LibraryRun {
    /// Begins a run of the programs that are served. The list has room for each of its turns.
    pub(crate) fn begin(
        served: Served,
        schedule: Schedule,
        decodings: Decodings,
        turns: Vec<Turn>,
        trace: Trace,
    ) -> LibraryRun
        requires room { TURN_MAX ≤ vec_capacity turns }
        requires empty { turns.items ≡ [] }
        requires turns { (kernel_state served).turns ≡ 0 }
        requires last { (kernel_state served).last ≡ None }
        requires written { served.written ≡ 0 }
        ensures state { state_of result ≡ kernel_state served }
        ensures schedule { result.book.schedule ≡ schedule }
        ensures steps { result.book.steps ≡ 0 }
        ensures told { turns_so_far result ≡ [] }
        ensures trace { result.book.trace ≡ trace }
        ensures holds { Holds result }
        ensures disk { result.served.disk ≡ served.disk }
        ensures runs { (first : AbstractState) (frames : ℕ) (disk : Option Disk) → StandsWhole (beside (kernel_state served) disk) first →
            IsNew (kernel_state served) frames → Runs first frames disk result [] }
    {
        LibraryRun {
            served,
            decodings,
            book: Book::open(schedule, turns, trace),
        }
    }

    /// Whether there is an environment but the file server, given who gets the next turn.
    fn is_used(&self, chosen: Option<usize>) -> bool
        requires { chosen ≡ next (state_of self.now).environments (state_of self.now).last }
        ensures { result ≡ others_live (state_of self.now) }
    {
        match chosen {
            // who gets the next turn is there
            Some(slot) => slot != 0 || self.served.others_live(),
            None => self.served.others_live(),
        }
    }

    /// The slot whose turn is under way or would be the next, or the end test that holds while steps are left.
    fn chosen(&self) -> Result<usize, End>
        requires { Holds self.now }
        ensures slot { IfOk result (IsChosen self.now) }
        ensures over { IfErr result (λ end. made self.now.book ≡ 0) }
        ensures end { IfErr result (λ end. end_seen (state_of self.now) (vec_len self.now.book.turns) false ≡ Some end) }
    {
        if self.book.made() > 0 {
            return Ok(self.served.slot());
        }
        let next = self.served.next_slot();
        if !self.is_used(next) {
            return Err(End::Done);
        }
        match next {
            None => Err(End::Stuck),
            Some(slot) => {
                if self.book.is_full() {
                    Err(End::TurnsFull)
                } else {
                    Ok(slot)
                }
            }
        }
    }

    /// Serves the environment in a slot, whose turn begins where none is under way.
    fn enter_turn(&mut self, slot: usize)
        requires holds { Holds self.old }
        requires chosen { IsChosen self.old slot }
        ensures state { state_of self.new ≡ entered self.old slot }
        ensures running { is_running (slot_at (state_of self.new) slot).status ≡ true }
        ensures slot { self.new.served.slot ≡ slot }
        ensures calls { self.new.served.calls ≡ 0 }
        ensures written { self.new.served.written ≡ self.old.served.written }
        ensures disk { self.new.served.disk ≡ self.old.served.disk }
        ensures rest { self.new ≡ record self.old { served = self.new.served } }
    {
        self.served.serve(slot);
        if self.book.made() == 0 {
            self.served.begin_turn(slot);
        }
    }

    /// Counts steps of the environment that is served, those that the abstract system makes too and the others, in a turn
    /// of which so many were left, and ends it where it is over.
    fn count_steps(&mut self, visible: u32, hidden: u32, left: u32)
        requires room { HasRoom self.old.book }
        requires place { vec_len self.old.book.turns < TURN_MAX }
        requires steps { self.old.book.steps + (visible + hidden) < 2 ^ 64 }
        requires left { made self.old.book + left ≡ quantum self.old.book.schedule (length self.old.book.turns.items) }
        requires small { made self.old.book + left < 2 ^ 31 }
        requires within { visible + hidden ≤ left }
        ensures counted { Counted self.old self.new visible hidden }
        ensures room { HasRoom self.new.book }
        ensures left { HasStepsLeft self.new.book }
    {
        let slot = self.served.slot();
        let running = self.served.is_running_in(slot);
        if !self.book.count(slot, visible, hidden, left, running) {
            self.served.end_turn(slot);
        }
    }

    /// Makes the next steps of the environment in a slot, in the turn under way or in one that begins: instructions of its
    /// program up to the end of the turn or to the first that calls or raises something, or one step of a service, and as many
    /// as are left at most. The result is their number.
    ///
    /// # Errors
    /// A call of the host failed while the last step wrote to the console, or, of the file server, moved a block; then it is told as a hidden
    /// one.
    fn advance<H: Host>(&mut self, host: &mut H, slot: usize, left: u64) -> Result<u32, Failed>
        requires holds { Holds self.old }
        requires left { 0 < left }
        requires steps { self.old.book.steps + left < 2 ^ 64 }
        requires chosen { IsChosen self.old slot }
        requires whole { HasBlocks (H.files host.old) self.old.served.disk }
        ensures told { Advances left result (from_to self.old self.new) (disks_of (around H.files host.old host.new) (from_to self.old self.new)) (around H.console host.old host.new) }
        ensures holds { OnOk result (Holds self.new) }
        ensures room { OnErr result (HasRoom self.new.book) }
        ensures disk { self.new.served.disk ≡ self.old.served.disk }
        ensures disk_only { TouchesDiskOnly self.old.served.disk (around H.files host.old host.new) (around H.asked host.old host.new) }
        ensures input { H.input host.new ≡ H.input host.old }
        ensures notes { H.notes host.new ≡ H.notes host.old }
        ensures cause { HasCause (H.faults host.old) (H.faults host.new) result }
    {
        let left_of_turn = self.book.steps_left();
        let most = (left_of_turn as u64).min(left) as u32;
        self.enter_turn(slot);
        let refusals = self.served.refused();
        let printed = self.served.written();
        let made = self.served.make_steps(host, &mut self.decodings, most);
        match made.last {
            Ok(stepped) => {
                let refused = self.served.refused() != refusals;
                self.book.note_refusal(refused, printed);
                self.book.keep_trap(stepped.trap);
                let visible = made.going + visible_steps(stepped.progress);
                let hidden = hidden_steps(stepped.progress);
                self.count_steps(visible, hidden, left_of_turn);
                Ok(made.going + 1)
            }
            Err(failed) => {
                if slot == 0 {
                    self.count_steps(made.going, 1, left_of_turn);
                    return Err(failed);
                }
                self.book.tell_failed_steps(made.going + 1);
                Err(failed)
            }
        }
    }

    /// The end of a run whose steps are used up.
    fn end_of_steps(&self) -> End
        requires { Holds self.now }
        ensures between { made self.now.book ≡ 0 → end_seen (state_of self.now) (vec_len self.now.book.turns) true ≡ Some result }
        ensures in_turn { 0 < made self.now.book → result ≡ Budget }
    {
        match self.chosen() {
            Ok(_) => End::Budget,
            Err(end) => match end {
                End::Done => End::Done,
                End::Stuck => End::Stuck,
                End::Budget | End::TurnsFull => End::Budget,
            },
        }
    }

    /// Runs until an end test holds, with so many steps at most.
    ///
    /// # Errors
    /// A call of the host failed.
    pub(crate) fn go<H: Host>(&mut self, host: &mut H, budget: u64) -> Result<End, Failed>
        requires holds { Holds self.old }
        requires steps { self.old.book.steps + budget < 2 ^ 64 }
        requires whole { HasBlocks (H.files host.old) self.old.served.disk }
        ensures told { HasRunToEnd budget result (from_to self.old self.new) (disks_of (around H.files host.old host.new) (from_to self.old self.new)) (around H.console host.old host.new) }
        ensures holds { OnOk result (Holds self.new) }
        ensures room { OnErr result (HasRoom self.new.book) }
        ensures disk { self.new.served.disk ≡ self.old.served.disk }
        ensures disk_only { TouchesDiskOnly self.old.served.disk (around H.files host.old host.new) (around H.asked host.old host.new) }
        ensures input { H.input host.new ≡ H.input host.old }
        ensures notes { H.notes host.new ≡ H.notes host.old }
        ensures cause { HasCause (H.faults host.old) (H.faults host.new) result }
    {
        let mut left = budget;
        while left > 0 {
            let slot = match self.chosen() {
                Ok(slot) => slot,
                Err(end) => return Ok(end),
            };
            match self.advance(host, slot, left) {
                Ok(steps) => left -= steps as u64,
                Err(failed) => return Err(failed),
            }
        }
        Ok(self.end_of_steps())
    }

    /// What is told of the run, with its turns, the last of its traps, and what was served.
    pub(crate) fn finish(self, end: End) -> (Report, Trace, Served)
        requires { HasRoom self.book }
        ensures report { result.0 ≡ report_of self end }
        ensures trace { result.1 ≡ self.book.trace }
        ensures served { result.2 ≡ self.served }
    {
        let LibraryRun { served, book, .. } = self;
        let (report, trace) = book.finish(served.slot(), end, served.refused(), served.upcalls());
        (report, trace, served)
    }

    /// What is told of a run that a failed call of the host cut off.
    pub(crate) fn cut_off(self) -> Stopped
        requires { HasRoom self.book }
        ensures { result ≡ cut_off_of self }
    {
        self.book.cut_off(self.served.slot())
    }
}

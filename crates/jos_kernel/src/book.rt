//! The book of a run.

ghost use Rattle.std.specs.Prelude.{◌≡◌, ◌<◌, ◌≤◌, ◌+◌, ◌^◌, ◌++◌, ◌∷◌, [], None, IfOk, nat_le, length, vec_len, vec_capacity};
ghost use Rattle.circular_buffer.specs.Buffer.{buffer};
ghost use Rattle.jos_base.specs.declared.numbers.TheConstants.{TURN_MAX, NENV};
ghost use Rattle.jos_sched.specs.Quantum.{quantum};
ghost use Rattle.jos_kernel.specs.Books.{turn_of, noted, traced, report_with, made, turns_so_far, cut_off_of, HasRoom, HasStepsLeft};
ghost use Rattle.jos_kernel.specs.Books.{goes_on_in, IsCounted};

use crate::report::{End, Refusal, Report, Stopped, Turn};
use crate::trace::{Trace, TrapLine};
use circular_buffer::HeapCircularBuffer;
use jos_base::TURN_MAX;
use jos_sched::Schedule;
use std::alloc::{AllocError, Global};

/// Room for each turn of a run, and for the last of its traps.
pub fn take_room(alloc: Global, traps: u32) -> Result<(Vec<Turn>, Trace), AllocError>
    ensures room { IfOk result (λ taken. TURN_MAX ≤ vec_capacity taken.0) }
    ensures empty { IfOk result (λ taken. taken.0.items ≡ []) }
    ensures trace { IfOk result (λ taken. taken.1 ≡ buffer [] traps) }
{
    let turns = Vec::with_capacity(alloc, TURN_MAX)?;
    let trace = HeapCircularBuffer::with_capacity(alloc, traps as usize)?;
    Ok((turns, trace))
}

/// What a run keeps of its turns, its steps, its first refusal and its last traps. It takes no memory.
#[derive(Drop)]
pub struct Book {
    schedule: Schedule,
    /// The turns that are over.
    turns: Vec<Turn>,
    /// The steps of the turn under way that the abstract system makes too, and the others; 0 where none is. Under `exo`
    /// all are visible.
    visible: u32,
    hidden: u32,
    /// All steps.
    steps: u64,
    first_refused: Option<Refusal>,
    /// The last traps.
    trace: Trace,
}

impl Book {
    /// Opens the book of a run that is to begin. The list has room for each of its turns.
    pub fn open(schedule: Schedule, turns: Vec<Turn>, trace: Trace) -> Book
        requires room { TURN_MAX ≤ vec_capacity turns }
        requires empty { turns.items ≡ [] }
        ensures room { HasRoom result }
        ensures book { result ≡ record {
          schedule = schedule;
          turns = turns;
          visible = 0;
          hidden = 0;
          steps = 0;
          first_refused = None;
          trace = trace;
        } }
    {
        Book {
            schedule,
            turns,
            visible: 0,
            hidden: 0,
            steps: 0,
            first_refused: None,
            trace,
        }
    }

    /// All steps.
    #[inline(always)]
    pub fn steps(&self) -> u64
        ensures { result ≡ self.now.steps }
    {
        self.steps
    }

    /// The steps of the turn under way; 0 where none is.
    #[inline(always)]
    pub fn made(&self) -> u32
        requires { HasRoom self.now }
        ensures { result ≡ made self.now }
    {
        self.visible + self.hidden
    }

    /// Whether no other turn may begin.
    #[inline(always)]
    pub fn is_full(&self) -> bool
        ensures { result ≡ nat_le TURN_MAX (vec_len self.now.turns) }
    {
        self.turns.len() >= TURN_MAX
    }

    /// The steps that are left of the turn under way, or of the next.
    #[inline(always)]
    pub fn steps_left(&self) -> u32
        requires room { HasRoom self.now }
        requires left { HasStepsLeft self.now }
        requires place { vec_len self.now.turns < TURN_MAX }
        ensures exact { made self.now + result ≡ quantum self.now.schedule (length self.now.turns.items) }
        ensures some { 0 < result }
        ensures small { made self.now + result < 2 ^ 31 }
    {
        self.schedule.quantum(self.turns.len() as u32) - self.made()
    }

    /// Tells where something was refused first, if it was, when so many bytes were written.
    #[inline(always)]
    pub fn note_refusal(&mut self, refused: bool, written: u64)
        requires { vec_len self.old.turns < TURN_MAX }
        ensures { self.new ≡ record self.old { first_refused = noted self.old.first_refused refused (vec_len self.old.turns) written } }
    {
        if refused && self.first_refused.is_none() {
            self.first_refused = Some(Refusal {
                turn: self.turns.len() as u32,
                console_len: written,
            });
        }
    }

    /// Keeps a trap that was raised, if one was.
    #[inline(always)]
    pub fn keep_trap(&mut self, raised: Option<TrapLine>)
        ensures { self.new ≡ record self.old { trace = traced self.old.trace raised } }
    {
        if let Some(trap) = raised {
            self.trace.push_back(trap);
        }
    }

    /// Lists a turn behind those that are over.
    fn list_turn(&mut self, slot: usize, visible: u32, hidden: u32)
        requires room { TURN_MAX ≤ vec_capacity self.old.turns }
        requires place { vec_len self.old.turns < TURN_MAX }
        requires slot { slot < NENV }
        ensures turns { self.new.turns.items ≡ self.old.turns.items ++ turn_of slot visible hidden ∷ [] }
        ensures room { TURN_MAX ≤ vec_capacity self.new.turns }
        ensures rest { self.new ≡ record self.old { turns = self.new.turns } }
    {
        self.turns
            .push(Turn {
                slot: slot as u16,
                visible,
                hidden,
            })
            .unwrap();
    }

    /// Counts steps of the environment in a slot, those that the abstract system makes too and the others, in a turn of
    /// which so many were left, and says whether it goes on. It does while the environment is RUNNING and has steps left;
    /// else it is over.
    pub fn count(
        &mut self,
        slot: usize,
        visible: u32,
        hidden: u32,
        left: u32,
        running: bool,
    ) -> bool
        requires room { HasRoom self.old }
        requires place { vec_len self.old.turns < TURN_MAX }
        requires slot { slot < NENV }
        requires steps { self.old.steps + (visible + hidden) < 2 ^ 64 }
        requires left { made self.old + left ≡ quantum self.old.schedule (length self.old.turns.items) }
        requires small { made self.old + left < 2 ^ 31 }
        requires within { visible + hidden ≤ left }
        ensures goes_on { result ≡ goes_on_in self.old (visible + hidden) running }
        ensures counted { IsCounted result self.old self.new slot visible hidden }
        ensures room { HasRoom self.new }
        ensures left { HasStepsLeft self.new }
    {
        self.steps += (visible + hidden) as u64;
        self.visible += visible;
        self.hidden += hidden;
        if running && visible + hidden < left {
            return true;
        }
        self.list_turn(slot, self.visible, self.hidden);
        self.visible = 0;
        self.hidden = 0;
        false
    }

    /// Tells so many visible steps more of the turn, in the last of which a call of the host failed. They are counted nowhere
    /// else.
    pub fn tell_failed_steps(&mut self, steps: u32)
        requires { made self.old + steps < 2 ^ 31 }
        ensures { self.new ≡ record self.old { visible = self.old.visible + steps } }
    {
        self.visible += steps;
    }

    /// Lists the turn under way, that of a slot, as one that is over.
    fn close_turn(&mut self, slot: usize)
        requires room { HasRoom self.old }
        requires slot { slot < NENV }
        ensures turns { self.new.turns.items ≡ turns_so_far self.old slot }
        ensures rest { self.new ≡ record self.old { turns = self.new.turns } }
    {
        if self.made() > 0 {
            self.list_turn(slot, self.visible, self.hidden);
        }
    }

    /// What is told of a run that is over, in a turn of a slot where one is under way, with how often something was refused
    /// and how often a handler was called; and the last of its traps.
    pub fn finish(mut self, slot: usize, end: End, refused: u64, upcalls: u64) -> (Report, Trace)
        requires room { HasRoom self }
        requires slot { slot < NENV }
        ensures report { result.0 ≡ report_with end self.steps (turns_so_far self slot) self.first_refused refused upcalls }
        ensures trace { result.1 ≡ self.trace }
    {
        self.close_turn(slot);
        let report = Report {
            end,
            steps: self.steps,
            turns: self.turns,
            closing: 0,
            refused,
            first_refused: self.first_refused,
            upcalls,
        };
        (report, self.trace)
    }

    /// What is told of a run that a failed call of the host cut off, in a turn of a slot where one is under way.
    pub fn cut_off(mut self, slot: usize) -> Stopped
        requires room { HasRoom self }
        requires slot { slot < NENV }
        ensures { result ≡ cut_off_of self slot }
    {
        self.close_turn(slot);
        Stopped {
            turns: self.turns,
            first_refused: self.first_refused,
        }
    }

    /// What is told of a run of which nothing is.
    pub fn tell_nothing(mut self) -> Stopped
        ensures turns { result.turns ≡ [] }
        ensures first_refused { result.first_refused ≡ None }
    {
        self.turns.clear();
        Stopped {
            turns: self.turns,
            first_refused: None,
        }
    }
}

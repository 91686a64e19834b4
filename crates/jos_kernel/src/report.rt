//! What is told of a run.

ghost use Rattle.std.specs.Prelude.{◌≡◌, [], None};

use std::alloc::Global;
use std::marker::Model;

/// How a run has ended by itself.
#[derive(Clone, Copy, Debug, PartialEq, Eq)]
pub enum End {
    /// No environment is live.
    Done,
    /// One is live, and none can run.
    Stuck,
    /// The steps of the budget are made.
    Budget,
    /// The list of turns is full (`TURN_MAX`), and another would begin.
    TurnsFull,
}

/// A turn: the slot of its environment, and its steps.
#[derive(Clone, Copy, Debug, PartialEq, Eq)]
pub struct Turn {
    pub slot: u16,
    /// The steps that the abstract system makes too; under `exo`, all.
    pub visible: u32,
    /// The other steps; under `exo`, none.
    pub hidden: u32,
}

/// Where a run was first refused a page or an environment.
#[derive(Clone, Copy, Debug, PartialEq, Eq)]
pub struct Refusal {
    /// The turn, counted from 0.
    pub turn: u32,
    /// How many console bytes were written before the step.
    pub console_len: u64,
}

/// What a run has come to.
#[derive(Debug, Drop)]
pub struct Report {
    pub end: End,
    pub steps: u64,
    /// In their order, the turn under way among them.
    pub turns: Vec<Turn>,
    /// The steps after the end; under `exo`, none.
    pub closing: u32,
    /// How often the pool or the environment table was asked for more than it had.
    pub refused: u64,
    pub first_refused: Option<Refusal>,
    /// How often a program's handler of page faults was called.
    pub upcalls: u64,
}

impl Model for Report {
    ghost use Rattle.jos_kernel.specs.Reports.{Reported};

    ghost Value = { Reported };

    ghost view = { λ r. record {
      end = r.end;
      steps = r.steps;
      turns = r.turns.items;
      closing = r.closing;
      refused = r.refused;
      first_refused = r.first_refused;
      upcalls = r.upcalls;
    } };
}

/// What was done before a failed call of the host; under `exo`, both are empty.
#[derive(Debug, Drop)]
pub struct Stopped {
    pub turns: Vec<Turn>,
    pub first_refused: Option<Refusal>,
}

impl Model for Stopped {
    ghost use Rattle.jos_kernel.specs.Reports.{CutOff};

    ghost Value = { CutOff };

    ghost view = { λ s. record { turns = s.turns.items; first_refused = s.first_refused } };
}

impl Stopped {
    /// Nothing was done.
    pub fn at_no_turn(alloc: Global) -> Stopped
        ensures turns { result.turns ≡ [] }
        ensures first_refused { result.first_refused ≡ None }
    {
        Stopped {
            turns: Vec::new(alloc),
            first_refused: None,
        }
    }
}

//! Schedules: how many steps each turn may have.

ghost use Rattle.std.specs.Prelude.{◌≡◌, ◌≤◌, IfOk};

use jos_base::NoMemory;
use std::alloc::Global;
use std::marker::Model;

/// The most numbers of a schedule.
pub const SCHEDULE_MAX: usize = 1_048_576;

/// The most steps of a turn that a schedule may give.
pub const QUANTUM_MAX: u32 = 2_147_483_647;

/// The steps of the turns, in their order; the last number goes for all turns behind it.
#[derive(Drop)]
pub struct Schedule {
    numbers: Vec<u32>,
}

impl Model for Schedule {
    ghost use Rattle.std.specs.Prelude.{ℕ, List};
    ghost use Rattle.jos_sched.specs.Quantum.{IsSchedule};

    ghost Value = { List ℕ };

    ghost view = { λ s. s.numbers.items };

    ghost invariant = { λ s. IsSchedule s.numbers.items };
}

impl Schedule {
    ghost use Rattle.jos_sched.specs.Quantum.{IsSchedule, quantum};

    /// The schedule that has these numbers.
    pub(crate) fn new(numbers: Vec<u32>) -> Schedule
        requires { IsSchedule numbers.items }
        ensures { result ≡ numbers.items }
    {
        Schedule { numbers }
    }

    /// The schedule of these numbers.
    pub fn from_numbers(alloc: Global, numbers: &[u32]) -> Result<Schedule, NoMemory>
        requires { IsSchedule numbers.now }
        ensures { IfOk result (λ schedule. schedule ≡ numbers.now) }
    {
        Ok(Schedule::new(numbers.to_vec(alloc)?))
    }

    /// The numbers, of which there is one at least.
    pub fn numbers(&self) -> &[u32]
        ensures numbers { result.now ≡ self.now }
        ensures lawful { IsSchedule self.now }
    {
        &self.numbers
    }

    /// The most steps of a turn, by how many turns were before it.
    pub fn quantum(&self, turn: u32) -> u32
        ensures quantum { result ≡ quantum self.now turn }
        ensures least { 1 ≤ result }
        ensures most { result ≤ QUANTUM_MAX }
    {
        let last = self.numbers.len() - 1;
        self.numbers[last.min(turn as usize)]
    }
}

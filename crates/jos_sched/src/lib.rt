//! Turns: who gets the next one, and how many steps it may have.
//!
//! `specs/RoundRobin.antt` says which slot has the next turn, and `specs/Schedule.antt` what the text of a schedule
//! says; `next` and `parse_schedule` answer exactly by them. A schedule takes memory for its numbers; nothing else
//! here takes any.
#![tactic(auto)]

mod fault;
mod parser;
mod round_robin;
mod schedule;

pub use fault::ScheduleFault;
pub use parser::parse_schedule;
pub use round_robin::next;
pub use schedule::{QUANTUM_MAX, SCHEDULE_MAX, Schedule};

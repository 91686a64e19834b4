//! The text of a schedule.

ghost use Rattle.std.specs.Prelude.{◌≡◌, ◌≢◌, ℕ, ◌-◌, ◌^◌, ◌<◌, ◌≤◌, Ok, Err, true, false, length, drop, get_or, min};
ghost use Rattle.std.specs.Prelude.{IfOk, IfErr};
ghost use Rattle.jos_sched.specs.declared.fault.ScheduleFault.TheVariants.{NoMemory};
ghost use Rattle.jos_sched.specs.Quantum.{AreLawful};
ghost use Rattle.jos_sched.specs.Schedule.{parsed, read_from, leading_number, number_fault, is_blank, is_digit};

use crate::fault::ScheduleFault;
use crate::schedule::{QUANTUM_MAX, SCHEDULE_MAX, Schedule};
use jos_base::QUANTUM;
use std::alloc::Global;

/// Whether a byte stands between numbers.
fn is_blank(byte: u8) -> bool
    ensures { result ≡ is_blank byte }
{
    matches!(byte, b' ' | b'\t' | b'\r' | b'\n')
}

/// Whether a byte is a digit of a number.
fn is_digit(byte: u8) -> bool
    ensures { result ≡ is_digit byte }
{
    matches!(byte, b'0'..=b'9')
}

/// The number whose digits begin here, or the highest word where it is more, and the place behind them.
fn read_number(text: &[u8], from: usize) -> (u32, usize)
    requires within { from < length text.now }
    requires digit { is_digit (get_or text.now from 0) ≡ true }
    ensures value { result.0 ≡ min (leading_number (drop from text.now)) (2 ^ 32 - 1) }
    ensures end { (count : ℕ) → read_from (drop from text.now) from true count ≡ read_from (drop result.1 text.now) result.1 false count }
    ensures within { result.1 ≤ length text.now }
    ensures further { from < result.1 }
{
    let mut value = 0u32;
    let mut end = from;
    while end < text.len() && is_digit(text[end]) {
        value = value
            .saturating_mul(10)
            .saturating_add((text[end] - b'0') as u32);
        end += 1;
    }
    (value, end)
}

/// What is wrong with a number that begins at a place, behind so many numbers.
fn number_fault(count: usize, at: u32, number: u32) -> Option<ScheduleFault>
    ensures { result ≡ number_fault count at number }
{
    if count == SCHEDULE_MAX {
        Some(ScheduleFault::TooMany)
    } else if number == 0 {
        Some(ScheduleFault::Zero(at))
    } else if number > QUANTUM_MAX {
        Some(ScheduleFault::TooBig(at))
    } else {
        None
    }
}

/// The numbers of a text.
fn read_numbers(alloc: Global, text: &[u8]) -> Result<Vec<u32>, ScheduleFault>
    requires { length text.now < 2 ^ 32 }
    ensures read { IfOk result (λ numbers. read_from text.now 0 false 0 ≡ Ok numbers.items) }
    ensures lawful { IfOk result (λ numbers. AreLawful numbers.items) }
    ensures fault { IfErr result (λ fault. fault ≢ NoMemory → read_from text.now 0 false 0 ≡ Err fault) }
{
    let mut numbers = Vec::new(alloc);
    let mut at = 0;
    while at < text.len() {
        if is_digit(text[at]) {
            let (number, end) = read_number(text, at);
            if let Some(fault) = number_fault(numbers.len(), at as u32, number) {
                return Err(fault);
            }
            match numbers.push(number) {
                Ok(()) => at = end,
                Err(_) => return Err(ScheduleFault::NoMemory),
            }
        } else if is_blank(text[at]) {
            at += 1;
        } else {
            return Err(ScheduleFault::NotANumber(at as u32));
        }
    }
    Ok(numbers)
}

/// The schedule that a text is: decimal numbers with blanks between them, or the schedule `QUANTUM` where there is no
/// number. Else its first fault; that there was no memory may come in place of any answer.
pub fn parse_schedule(alloc: Global, text: &[u8]) -> Result<Schedule, ScheduleFault>
    requires { length text.now < 2 ^ 32 }
    ensures schedule { IfOk result (λ schedule. parsed text.now ≡ Ok schedule) }
    ensures fault { IfErr result (λ fault. fault ≢ NoMemory → parsed text.now ≡ Err fault) }
{
    let numbers = match read_numbers(alloc, text) {
        Ok(numbers) => numbers,
        Err(fault) => return Err(fault),
    };
    if numbers.is_empty() {
        return Schedule::from_numbers(alloc, &[QUANTUM]).map_err(|_| ScheduleFault::NoMemory);
    }
    Ok(Schedule::new(numbers))
}

//! Steps one after another.

ghost use Rattle.std.specs.Prelude.{◌≡◌, ◌<◌};
ghost use Rattle.jos_cpu.specs.Forms.{form_of};
ghost use Rattle.jos_cpu.specs.Effects.{IfRaised};
ghost use Rattle.jos_cpu.specs.Steps.{executed, step_of};
ghost use Rattle.jos_cpu.specs.Bursts.{IsBurst};

use crate::decodings::{Decoding, Decodings};
use crate::events::{Event, Gates};
use crate::memory::Mem;
use crate::quick::{execute_at_hand, execute_quickly};
use crate::stepping::{execute, step};
use jos_base::Regs;

/// How many steps a burst has, and what comes of the last; of those before it comes nothing.
#[derive(Clone, Copy, Debug, PartialEq, Eq)]
pub struct Burst {
    pub steps: u32,
    /// Where the last instruction stands, if that has ended the burst.
    pub ip: u32,
    pub event: Event,
}

/// Executes an instruction that was decoded before.
#[inline(never)]
fn execute_known<M: Mem>(known: &Decoding, regs: &mut Regs, mem: &mut M, gates: Gates) -> Event
    requires { known.now.form ≡ form_of known.now.insn.row }
    ensures done { executed M.table known.now.insn known.now.len regs.old (M.seen mem.old) gates ≡ record { regs = regs.new; memory = M.seen mem.new; event = result } }
    ensures kept { IfRaised result (regs.new ≡ regs.old) }
{
    if execute_at_hand(&known.insn, &known.form, known.len, regs, mem, gates) {
        Event::Next
    } else {
        execute(&known.insn, &known.form, known.len, regs, mem, gates)
    }
}

/// Makes one step, and keeps what is decoded.
#[cold]
#[inline(never)]
fn step_and_learn<M: Mem>(
    decodings: &mut Decodings,
    regs: &mut Regs,
    mem: &mut M,
    gates: Gates,
) -> Event
    ensures done { step_of M.table regs.old (M.seen mem.old) gates ≡ record { regs = regs.new; memory = M.seen mem.new; event = result } }
    ensures kept { IfRaised result (regs.new ≡ regs.old) }
{
    decodings.learn(regs.eip, mem.window(regs.eip));
    step(regs, mem, gates)
}

/// Makes steps up to the first of which more comes than the next one, or which leaves the stack pointer where it may not
/// stand, and as many as `limit` at most. Each of them is a `step`.
///
/// What was decoded before is kept in `decodings`, which changes nothing but the time that a step takes.
#[inline(never)]
pub fn make_burst<M: Mem>(
    decodings: &mut Decodings,
    regs: &mut Regs,
    mem: &mut M,
    gates: Gates,
    limit: u32,
) -> Burst
    requires { 0 < limit }
    ensures { IsBurst M.table M.stands gates limit result.steps result.ip result.event (record { regs = regs.old; memory = M.seen mem.old }) (record { regs = regs.new; memory = M.seen mem.new }) }
{
    for before in 0..limit {
        let ip = regs.eip;
        match decodings.find(ip, mem.window(ip)) {
            Some(known) => {
                if !execute_quickly(&known.insn, known.len, regs, mem, gates) {
                    // read again, so that it is not kept while an instruction is executed quickly
                    let ip = regs.eip;
                    match execute_known(known, regs, mem, gates) {
                        Event::Next => {}
                        event => {
                            return Burst {
                                steps: before + 1,
                                ip,
                                event,
                            };
                        }
                    }
                }
            }
            None => match step_and_learn(decodings, regs, mem, gates) {
                Event::Next => {}
                event => {
                    return Burst {
                        steps: before + 1,
                        ip,
                        event,
                    };
                }
            },
        }
        if !mem.may_stand(regs.esp) {
            return Burst {
                steps: before + 1,
                ip,
                event: Event::Next,
            };
        }
    }
    Burst {
        steps: limit,
        ip: regs.eip,
        event: Event::Next,
    }
}

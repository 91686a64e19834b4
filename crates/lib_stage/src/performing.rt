//! An ask is done by a call of the kernel.

ghost use Rattle.std.specs.Prelude.{◌≡◌, ◌+◌, ◌-◌, ◌<◌, ◌^◌, true};
ghost use Rattle.jos_host.specs.Frames.{Unchanged, around, from_to};
ghost use Rattle.jos_base.specs.Environments.{is_live};
ghost use Rattle.jos_base.specs.KernelState.{slot_at};
ghost use Rattle.lib_os.specs.InOrder.{IsInOrder};
ghost use Rattle.lib_os.specs.UserCalls.{HasStopCause, IsStep, output};
ghost use Rattle.lib_stage.specs.Asks.{performed, touching, IsAligned, IsPerformed};

use crate::ask::Ask;
use jos_base::{Called, Regs, SYS_EXOFORK};
use jos_host::{Failed, Host};
use lib_os::{Stop, UserOs};

/// Loads the byte at an address, or, for a write, puts 0 there.
///
/// # Errors
/// The access faulted, or the host failed.
fn touch<O: UserOs, H: Host>(os: &mut O, host: &mut H, va: u32, write: bool) -> Result<Called, Stop>
    requires live { is_live (slot_at (O.state os.old) (O.slot os.old)) ≡ true }
    requires few { O.calls os.old < 2 ^ 32 - 1 }
    ensures step { IsStep (touching (O.state os.old) (O.slot os.old) va write) result (O.state os.new) (output H.console O.written (from_to host.old host.new) (from_to os.old os.new)) }
    ensures in_order { IsInOrder (O.state os.new) }
    ensures slot { O.slot os.new ≡ O.slot os.old }
    ensures disk { O.disk os.new ≡ O.disk os.old }
    ensures calls { O.calls os.new ≡ O.calls os.old + 1 }
    ensures rest { Unchanged H.files H.input H.asked H.notes host.old host.new }
    ensures cause { HasStopCause (around H.faults host.old host.new) result }
{
    if write {
        match os.store_byte(host, va, 0) {
            Ok(()) => Ok(Called::Answered(0)),
            Err(stop) => Err(stop),
        }
    } else {
        match os.load_byte(host, va) {
            Ok(byte) => Ok(Called::Answered(byte as u32)),
            Err(stop) => Err(stop),
        }
    }
}

/// Makes the call that is asked for. What a load gives is told as an answer, and 0 where a call gives nothing.
///
/// # Errors
/// The access faulted, or the host failed.
#[tactic(auto, unfolding(crate::specs::Asks::performed))]
pub fn perform<O: UserOs, H: Host>(os: &mut O, host: &mut H, ask: Ask) -> Result<Called, Stop>
    requires live { is_live (slot_at (O.state os.old) (O.slot os.old)) ≡ true }
    requires few { O.calls os.old < 2 ^ 32 - 1 }
    requires aligned { IsAligned ask }
    ensures step { IsPerformed ask (performed (O.state os.old) (O.slot os.old) ask) result (O.state os.new) (output H.console O.written (from_to host.old host.new) (from_to os.old os.new)) }
    ensures in_order { IsInOrder (O.state os.new) }
    ensures slot { O.slot os.new ≡ O.slot os.old }
    ensures disk { O.disk os.new ≡ O.disk os.old }
    ensures calls { O.calls os.new ≡ O.calls os.old + 1 }
    ensures rest { Unchanged H.files H.input H.asked H.notes host.old host.new }
    ensures cause { HasStopCause (around H.faults host.old host.new) result }
{
    match ask {
        Ask::System { number, args } => match os.system(host, number, args) {
            Ok(called) => Ok(called),
            Err(Failed) => Err(Stop::Failed),
        },
        Ask::Exofork => {
            let registers = os.registers();
            let given = [
                registers.edx,
                registers.ecx,
                registers.ebx,
                registers.edi,
                registers.esi,
            ];
            match os.system(host, SYS_EXOFORK, given) {
                Ok(called) => Ok(called),
                Err(Failed) => Err(Stop::Failed),
            }
        }
        Ask::Load { va } => match os.load(host, va) {
            Ok(word) => Ok(Called::Answered(word)),
            Err(stop) => Err(stop),
        },
        Ask::LoadByte { va } => match os.load_byte(host, va) {
            Ok(byte) => Ok(Called::Answered(byte as u32)),
            Err(stop) => Err(stop),
        },
        Ask::Store { va, word } => match os.store(host, va, word) {
            Ok(()) => Ok(Called::Answered(0)),
            Err(stop) => Err(stop),
        },
        Ask::StoreByte { va, byte } => match os.store_byte(host, va, byte) {
            Ok(()) => Ok(Called::Answered(0)),
            Err(stop) => Err(stop),
        },
        Ask::Exchange { va, word } => match os.exchange(host, va, word) {
            Ok(stood) => Ok(Called::Answered(stood)),
            Err(stop) => Err(stop),
        },
        Ask::RestoreFrame => match os.restore_frame(host) {
            Ok(()) => Ok(Called::Answered(0)),
            Err(stop) => Err(stop),
        },
        Ask::Touch { ip, va, write } => {
            let registers = os.registers();
            os.set_registers(Regs {
                eip: ip,
                ..registers
            });
            touch(os, host, va, write)
        }
    }
}

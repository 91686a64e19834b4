//! The one driver of all services.

ghost use Rattle.std.specs.Prelude.{◌≡◌, ◌≤◌, ◌-◌, ◌<◌, ◌^◌, true, IfOk};
ghost use Rattle.jos_host.specs.Told.{HasCause};
ghost use Rattle.jos_host.specs.Frames.{Unchanged, around, from_to};
ghost use Rattle.jos_base.specs.Environments.{is_live};
ghost use Rattle.jos_base.specs.KernelState.{slot_at};
ghost use Rattle.lib_os.specs.declared.numbers.TheConstants.{SERVICES};
ghost use Rattle.lib_os.specs.LibrarySteps.{IsLibraryStep, Leaves, Lowers, GivesUp, MakesOneCall, TakesAtMost, TakesByPlace};
ghost use Rattle.lib_os.specs.UserCalls.{output};
ghost use Rattle.lib_stage.specs.Asks.{IsAligned, frames_of};
ghost use Rattle.lib_stage.specs.ServiceSteps.{Plan, IsServiceStep, ServiceHolds};

use crate::ask::{Ask, Next};
use crate::performing::perform;
use crate::settling::settle;
use jos_base::Called;
use jos_host::{Failed, Host};
use lib_os::{Progress, UserOs, stopped};

/// A service at a stage, or the handler of page faults at a step, with what it was given: a plan of what it asks, and of what it
/// does next.
pub trait Planned {
    /// What it asks, and what it does next by the reply.
    ghost plan: { Self → Plan };

    /// The service's number; the handler of page faults has that of none.
    fn number(&self) -> u32
        ensures number { result ≡ (plan self.now).number }
        ensures below { result ≤ SERVICES };

    /// What it asks.
    fn ask(&self) -> Ask
        ensures asks { result ≡ (plan self.now).asks }
        ensures aligned { IsAligned result };

    /// What it does next.
    fn next(&self, called: Called) -> Next
        ensures { result ≡ (plan self.now).next called };
}

/// Makes one step of a service, or of the handler of page faults, with one call of the kernel.
///
/// # Errors
/// The host failed.
pub fn drive<S: Planned, O: UserOs, H: Host>(
    stage: &S,
    os: &mut O,
    host: &mut H,
) -> Result<Progress, Failed>
    requires live { is_live (slot_at (O.state os.old) (O.slot os.old)) ≡ true }
    requires few { O.calls os.old < 2 ^ 32 - 1 }
    requires holds { ServiceHolds (O.state os.old) (O.slot os.old) (S.plan stage.now) }
    ensures made { IsServiceStep result (O.state os.old) (O.slot os.old) (S.plan stage.now) (O.state os.new) (output H.console O.written (from_to host.old host.new) (from_to os.old os.new)) }
    ensures step { IsLibraryStep result (O.slot os.old) (O.state os.old) (O.state os.new) (output H.console O.written (from_to host.old host.new) (from_to os.old os.new)) }
    ensures leaves { Leaves result (O.slot os.old) (O.state os.old) (O.state os.new) }
    ensures lowers { Lowers result (O.slot os.old) (O.state os.old) (O.state os.new) }
    ensures gives_up { GivesUp result (slot_at (O.state os.old) (O.slot os.old)) (slot_at (O.state os.new) (O.slot os.new)) }
    ensures frames { IfOk result (λ done. TakesAtMost (frames_of (S.plan stage.now).asks) (O.state os.old).spaces (O.state os.new).spaces) }
    ensures by_place { IfOk result (λ done. TakesByPlace (O.slot os.old) (O.state os.old) (O.state os.new)) }
    ensures disk { O.disk os.new ≡ O.disk os.old }
    ensures one { MakesOneCall (around O.slot os.old os.new) (around O.calls os.old os.new) }
    ensures rest { Unchanged H.files H.input H.asked H.notes host.old host.new }
    ensures cause { HasCause (H.faults host.old) (H.faults host.new) result }
{
    match perform(os, host, stage.ask()) {
        Ok(called) => Ok(settle(os, stage.number(), stage.next(called))),
        Err(stop) => stopped(stop),
    }
}

//! How a service goes on and how it ends.

ghost use Rattle.std.specs.Prelude.{◌≡◌, ◌≤◌, true};
ghost use Rattle.jos_base.specs.Environments.{is_live};
ghost use Rattle.jos_base.specs.KernelState.{slot_at, with_extra};
ghost use Rattle.lib_os.specs.declared.numbers.TheConstants.{SERVICES};
ghost use Rattle.lib_os.specs.Places.{words_at};
ghost use Rattle.lib_os.specs.LibrarySteps.{gone_back, service_answered, IsStopped};
ghost use Rattle.lib_os.specs.UserCalls.{answer_of};

use crate::place::{Step, words_at};
use crate::progress::Progress;
use crate::user_os::{Stop, UserOs};
use jos_base::{Called, EXTRA_WORDS, Extra, Regs};
use jos_host::Failed;

/// The service is over: the program goes on with these registers. This is no call of the kernel.
pub fn go_back<O: UserOs>(os: &mut O, registers: Regs)
    requires { is_live (slot_at (O.state os.old) (O.slot os.old)) ≡ true }
    ensures state { O.state os.new ≡ gone_back (O.state os.old) (O.slot os.old) registers }
    ensures slot { O.slot os.new ≡ O.slot os.old }
    ensures disk { O.disk os.new ≡ O.disk os.old }
    ensures calls { O.calls os.new ≡ O.calls os.old }
    ensures written { O.written os.new ≡ O.written os.old }
{
    os.set_registers(registers);
    os.set_extra(Extra([0; EXTRA_WORDS]));
}

/// The service is over, and answers with a word.
pub fn answer<O: UserOs>(os: &mut O, word: u32)
    requires { is_live (slot_at (O.state os.old) (O.slot os.old)) ≡ true }
    ensures state { O.state os.new ≡ service_answered (O.state os.old) (O.slot os.old) word }
    ensures slot { O.slot os.new ≡ O.slot os.old }
    ensures disk { O.disk os.new ≡ O.disk os.old }
    ensures calls { O.calls os.new ≡ O.calls os.old }
    ensures written { O.written os.new ≡ O.written os.old }
{
    let registers = os.registers();
    go_back(
        os,
        Regs {
            eax: word,
            ..registers
        },
    );
}

/// The word that a system call has answered; 0 where it has answered nothing.
pub fn answer_of(called: Called) -> u32
    ensures { result ≡ answer_of called }
{
    match called {
        Called::Answered(word) => word,
        Called::Ended | Called::Blocked => 0,
    }
}

/// What a step comes to when an access gave it nothing: the handler of page faults goes on, or the environment is gone.
///
/// # Errors
/// The host failed.
pub fn stopped(stop: Stop) -> Result<Progress, Failed>
    ensures { IsStopped stop result }
{
    match stop {
        Stop::Failed => Err(Failed),
        Stop::Upcall => Ok(Progress::Hidden),
        Stop::Ended => Ok(Progress::Ended),
    }
}

/// The service, which is named by its number, goes on at a step.
pub fn go_on<O: UserOs>(os: &mut O, number: u32, step: Step)
    requires live { is_live (slot_at (O.state os.old) (O.slot os.old)) ≡ true }
    requires number { number ≤ SERVICES }
    ensures state { O.state os.new ≡ with_extra (O.state os.old) (O.slot os.old) (words_at number step) }
    ensures slot { O.slot os.new ≡ O.slot os.old }
    ensures disk { O.disk os.new ≡ O.disk os.old }
    ensures calls { O.calls os.new ≡ O.calls os.old }
    ensures written { O.written os.new ≡ O.written os.old }
{
    os.set_extra(words_at(number, step));
}

//! A step of the server, which is one call.

ghost use Rattle.std.specs.Prelude.{◌≡◌, ◌+◌, ◌-◌, ◌<◌, ◌^◌, true, OnErr, OnOk};
ghost use Rattle.jos_host.specs.Told.{HasCause};
ghost use Rattle.jos_host.specs.Frames.{Unchanged, around, from_to};
ghost use Rattle.jos_base.specs.Environments.{is_live};
ghost use Rattle.jos_base.specs.KernelState.{slot_at};
ghost use Rattle.lib_os.specs.Disk.{HasBlocks};
ghost use Rattle.lib_os.specs.InOrder.{IsInOrder};
ghost use Rattle.lib_os.specs.MadeCalls.{MakesServersCall, PrintsPartOfSome, TouchesDisk};
ghost use Rattle.lib_os.specs.UserCalls.{HasStopCause, output};
ghost use Rattle.fs_requests.specs.ServerPlans.{IsOwnCall};
ghost use Rattle.fs_server.specs.ServerSteps as steps;

use fs_cache::{Flushed, flush_step};
use fs_jobs::Job;
use fs_places::with_state;
use fs_requests::{
    ServerAsk, ServerCall, ServerNext, ServerState, ask_at, find_server, next_at, with_server,
};
use fs_runs::begin;
use fs_tree::{Acted, tree_step};
use jos_base::{Extra, Regs};
use jos_host::{Failed, Host};
use lib_os::{Progress, Stop, UserOs, answer_of, stopped};

/// Makes a call of the kernel. A word comes of it, which is 0 for a store.
fn reply<O: UserOs, H: Host>(os: &mut O, host: &mut H, call: ServerCall) -> Result<u32, Stop>
    requires live { is_live (slot_at (O.state os.old) (O.slot os.old)) ≡ true }
    requires few { O.calls os.old < 2 ^ 32 - 1 }
    requires own { IsOwnCall call }
    ensures step { steps.IsReply call (O.state os.old) (O.slot os.old) result (O.state os.new) (output H.console O.written (from_to host.old host.new) (from_to os.old os.new)) }
    ensures lives { OnOk result (is_live (slot_at (O.state os.new) (O.slot os.new)) ≡ true) }
    ensures in_order { IsInOrder (O.state os.new) }
    ensures slot { O.slot os.new ≡ O.slot os.old }
    ensures disk { O.disk os.new ≡ O.disk os.old }
    ensures calls { O.calls os.new ≡ O.calls os.old + 1 }
    ensures rest { Unchanged H.files H.input H.asked H.notes host.old host.new }
    ensures cause { HasStopCause (around H.faults host.old host.new) result }
{
    match call {
        ServerCall::Load { va } => match os.load(host, va) {
            Ok(word) => Ok(word),
            Err(stop) => Err(stop),
        },
        ServerCall::Store { va, word } => match os.store(host, va, word) {
            Ok(()) => Ok(0),
            Err(stop) => Err(stop),
        },
        ServerCall::System { number, args } => match os.system(host, number, args) {
            Ok(called) => Ok(answer_of(called)),
            Err(Failed) => Err(Stop::Failed),
        },
    }
}

/// The registers and the words with which a job begins, where one does.
fn with_job(registers: Regs, extra: Extra, begins: Option<Job>) -> (Regs, Extra)
    ensures registers { result.0 ≡ steps.registers_begun begins registers }
    ensures words { result.1.0 ≡ steps.words_begun begins extra.0 }
{
    match begins {
        Some(job) => with_state(registers, &extra, begin(job)),
        None => (registers, extra),
    }
}

/// The server goes on, and a job begins where one does. This is no call of the kernel.
fn go_on<O: UserOs>(os: &mut O, next: ServerNext) -> Progress
    requires live { is_live (slot_at (O.state os.old) (O.slot os.old)) ≡ true }
    ensures seen { result ≡ next.seen }
    ensures state { O.state os.new ≡ steps.gone_on (O.state os.old) (O.slot os.old) next }
    ensures in_order { IsInOrder (O.state os.new) }
    ensures slot { O.slot os.new ≡ O.slot os.old }
    ensures disk { O.disk os.new ≡ O.disk os.old }
    ensures calls { O.calls os.new ≡ O.calls os.old }
    ensures written { O.written os.new ≡ O.written os.old }
{
    let registers = os.registers();
    let extra = os.extra();
    let (registers, extra) = with_server(registers, &extra, next.state);
    let (registers, extra) = with_job(registers, extra, next.begins);
    os.set_registers(registers);
    os.set_extra(extra);
    next.seen
}

/// Makes a call of its own, and goes on by the reply.
fn make_call<O: UserOs, H: Host>(
    os: &mut O,
    host: &mut H,
    state: ServerState,
    call: ServerCall,
) -> Result<Progress, Failed>
    requires live { is_live (slot_at (O.state os.old) (O.slot os.old)) ≡ true }
    requires few { O.calls os.old < 2 ^ 32 - 1 }
    requires own { IsOwnCall call }
    ensures made { steps.IsCalled call state result (O.slot os.old) (around O.state os.old os.new) (output H.console O.written (from_to host.old host.new) (from_to os.old os.new)) }
    ensures failed { OnErr result (PrintsPartOfSome (output H.console O.written (from_to host.old host.new) (from_to os.old os.new))) }
    ensures in_order { IsInOrder (O.state os.new) }
    ensures slot { O.slot os.new ≡ O.slot os.old }
    ensures disk { O.disk os.new ≡ O.disk os.old }
    ensures calls { O.calls os.new ≡ O.calls os.old + 1 }
    ensures rest { Unchanged H.files H.input H.asked H.notes host.old host.new }
    ensures cause { HasCause (H.faults host.old) (H.faults host.new) result }
{
    match reply(os, host, call) {
        Ok(word) => Ok(go_on(os, next_at(state, word))),
        Err(stop) => stopped(stop),
    }
}

/// Makes a step of the job on files, and goes on when that answers. It is one call (`made`). Where the host tells its files and the job's next step is
/// lawful nothing is printed, whether or not the host fails (`quiet`).
fn work<O: UserOs, H: Host>(
    os: &mut O,
    host: &mut H,
    state: ServerState,
) -> Result<Progress, Failed>
    requires live { is_live (slot_at (O.state os.old) (O.slot os.old)) ≡ true }
    requires few { O.calls os.old < 2 ^ 32 - 1 }
    requires whole { HasBlocks (H.files host.old) (O.disk os.old) }
    ensures told { steps.WorksWhereTold state result (O.disk os.old) (O.slot os.old) (around O.state os.old os.new) (around H.files host.old host.new) }
    ensures quiet { steps.WorksQuietly result (O.disk os.old) (O.slot os.old) (O.state os.old) (H.files host.old) (output H.console O.written (from_to host.old host.new) (from_to os.old os.new)) }
    ensures made { OnOk result (MakesServersCall (around O.state os.old os.new) (O.slot os.old) (O.disk os.old) (around H.files host.old host.new) (output H.console O.written (from_to host.old host.new) (from_to os.old os.new))) }
    ensures disk_only { TouchesDisk (O.disk os.old) (around H.files host.old host.new) (around H.asked host.old host.new) }
    ensures failed { OnErr result (PrintsPartOfSome (output H.console O.written (from_to host.old host.new) (from_to os.old os.new))) }
    ensures whole { OnOk result (HasBlocks (H.files host.new) (O.disk os.new)) }
    ensures in_order { IsInOrder (O.state os.old) → IsInOrder (O.state os.new) }
    ensures slot { O.slot os.new ≡ O.slot os.old }
    ensures disk { O.disk os.new ≡ O.disk os.old }
    ensures calls { O.calls os.new ≡ O.calls os.old + 1 }
    ensures input { H.input host.new ≡ H.input host.old }
    ensures notes { H.notes host.new ≡ H.notes host.old }
    ensures cause { HasCause (H.faults host.old) (H.faults host.new) result }
{
    match tree_step(os, host) {
        Ok(Acted::Going) => Ok(Progress::Hidden),
        Ok(Acted::Answer(word)) => Ok(go_on(os, next_at(state, word))),
        Err(failed) => Err(failed),
    }
}

/// Makes a step of a flush, and goes on when no page is dirty.
fn flush<O: UserOs, H: Host>(
    os: &mut O,
    host: &mut H,
    state: ServerState,
) -> Result<Progress, Failed>
    requires live { is_live (slot_at (O.state os.old) (O.slot os.old)) ≡ true }
    requires few { O.calls os.old < 2 ^ 32 - 1 }
    requires whole { HasBlocks (H.files host.old) (O.disk os.old) }
    ensures made { steps.IsFlushed state result (O.disk os.old) (O.slot os.old) (around O.state os.old os.new) (around H.files host.old host.new) (output H.console O.written (from_to host.old host.new) (from_to os.old os.new)) }
    ensures disk_only { TouchesDisk (O.disk os.old) (around H.files host.old host.new) (around H.asked host.old host.new) }
    ensures failed { OnErr result (PrintsPartOfSome (output H.console O.written (from_to host.old host.new) (from_to os.old os.new))) }
    ensures whole { OnOk result (HasBlocks (H.files host.new) (O.disk os.new)) }
    ensures in_order { IsInOrder (O.state os.new) }
    ensures slot { O.slot os.new ≡ O.slot os.old }
    ensures disk { O.disk os.new ≡ O.disk os.old }
    ensures calls { O.calls os.new ≡ O.calls os.old + 1 }
    ensures input { H.input host.new ≡ H.input host.old }
    ensures notes { H.notes host.new ≡ H.notes host.old }
    ensures cause { HasCause (H.faults host.old) (H.faults host.new) result }
{
    match flush_step(os, host) {
        Ok(Flushed::Going) => Ok(Progress::Hidden),
        Ok(Flushed::Clean) => Ok(go_on(os, next_at(state, 0))),
        Err(failed) => Err(failed),
    }
}

/// Makes the next step of the file server, which is one call: one of those that it makes, whatever stands, and behind it no more than own words and
/// registers are set (`made`). Of the host's files at most a block of the disk's is read or written, whether or not the host fails (`disk_only`).
///
/// # Errors
/// The host failed. The console keeps what it has, and at most a part of some bytes came behind that (`failed`).
pub fn server_step<O: UserOs, H: Host>(os: &mut O, host: &mut H) -> Result<Progress, Failed>
    requires live { is_live (slot_at (O.state os.old) (O.slot os.old)) ≡ true }
    requires few { O.calls os.old < 2 ^ 32 - 1 }
    requires whole { HasBlocks (H.files host.old) (O.disk os.old) }
    ensures step { steps.Serves result (O.disk os.old) (O.slot os.old) (around O.state os.old os.new) (around H.files host.old host.new) (output H.console O.written (from_to host.old host.new) (from_to os.old os.new)) }
    ensures made { OnOk result (MakesServersCall (around O.state os.old os.new) (O.slot os.old) (O.disk os.old) (around H.files host.old host.new) (output H.console O.written (from_to host.old host.new) (from_to os.old os.new))) }
    ensures disk_only { TouchesDisk (O.disk os.old) (around H.files host.old host.new) (around H.asked host.old host.new) }
    ensures failed { OnErr result (PrintsPartOfSome (output H.console O.written (from_to host.old host.new) (from_to os.old os.new))) }
    ensures whole { OnOk result (HasBlocks (H.files host.new) (O.disk os.new)) }
    ensures in_order { IsInOrder (O.state os.old) → IsInOrder (O.state os.new) }
    ensures slot { O.slot os.new ≡ O.slot os.old }
    ensures disk { O.disk os.new ≡ O.disk os.old }
    ensures calls { O.calls os.new ≡ O.calls os.old + 1 }
    ensures input { H.input host.new ≡ H.input host.old }
    ensures notes { H.notes host.new ≡ H.notes host.old }
    ensures cause { HasCause (H.faults host.old) (H.faults host.new) result }
{
    let registers = os.registers();
    let extra = os.extra();
    let state = find_server(&registers, &extra);
    match ask_at(state) {
        ServerAsk::Call(call) => make_call(os, host, state, call),
        ServerAsk::Work => work(os, host, state),
        ServerAsk::Flush => flush(os, host, state),
    }
}

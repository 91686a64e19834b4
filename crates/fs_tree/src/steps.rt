//! Steps of a job, each of which is one call.

ghost use Rattle.std.specs.Prelude.{◌≡◌, ◌+◌, ◌-◌, ◌*◌, ◌/◌, ◌%◌, ◌<◌, ◌^◌, true, [], OnErr, OnOk};
ghost use Rattle.jos_host.specs.Told.{HasCause};
ghost use Rattle.jos_host.specs.Frames.{Unchanged, around, from_to};
ghost use Rattle.jos_base.specs.Environments.{is_live};
ghost use Rattle.jos_base.specs.KernelState.{slot_at, with_extra, with_registers};
ghost use Rattle.lib_os.specs.Disk.{HasBlocks};
ghost use Rattle.lib_os.specs.InOrder.{IsInOrder};
ghost use Rattle.lib_os.specs.MadeCalls.{MakesServersCall, PrintsPartOfSome, TouchesDisk};
ghost use Rattle.lib_os.specs.UserCalls.{HasStopCause, Prints, output};
ghost use Rattle.fs_tree.specs.TreeMakes as makes;
ghost use Rattle.fs_places.specs.TreePlaces as places;
ghost use Rattle.fs_tree.specs.TreeSteps.{LivesWhereAnswered, QuietWhereTold, RestWhereTold, StepsWhereTold};

use fs_cache::{Cached, block_step};
use fs_jobs::{TreeAsk, TreeNext, TreeState, is_bounded, negated};
use fs_layout::BLKSIZE;
use fs_places::{find_state, with_state};
use fs_runs::{ask_at, next_at};
use jos_base::{E_INVAL, E_NO_MEM, PGSIZE, SYS_GETENVID};
use jos_host::{Failed, Host};
use lib_os::{CACHE_BLOCKS, REQUEST, Stop, UserOs};

/// What comes of a step.
#[derive(Clone, Copy, Debug, PartialEq, Eq)]
pub enum Acted {
    /// There is more to do.
    Going,
    /// The job is done, and answers this.
    Answer(u32),
}

/// What comes of a call for what is asked.
#[derive(Clone, Copy)]
enum Done {
    /// It is done, and this is the reply.
    Word(u32),
    /// The block comes nearer.
    Going,
    /// No page is to be had for the block.
    NoPage,
}

/// Makes the access that is asked, at an address. Words lie at multiples of four.
fn access<O: UserOs, H: Host>(os: &mut O, host: &mut H, ask: TreeAsk, va: u32) -> Result<u32, Stop>
    requires live { is_live (slot_at (O.state os.old) (O.slot os.old)) ≡ true }
    requires few { O.calls os.old < 2 ^ 32 - 1 }
    ensures step { makes.IsAccess ask va (O.state os.old) (O.slot os.old) result (O.state os.new) (output H.console O.written (from_to host.old host.new) (from_to os.old os.new)) }
    ensures in_order { IsInOrder (O.state os.new) }
    ensures slot { O.slot os.new ≡ O.slot os.old }
    ensures disk { O.disk os.new ≡ O.disk os.old }
    ensures calls { O.calls os.new ≡ O.calls os.old + 1 }
    ensures rest { Unchanged H.files H.input H.asked H.notes host.old host.new }
    ensures cause { HasStopCause (around H.faults host.old host.new) result }
{
    match ask {
        TreeAsk::Load { .. } => os.load(host, va - va % 4),
        TreeAsk::LoadByte { .. } | TreeAsk::Request { .. } => match os.load_byte(host, va) {
            Ok(byte) => Ok(byte as u32),
            Err(stop) => Err(stop),
        },
        TreeAsk::Store { word, .. } => match os.store(host, va - va % 4, word) {
            Ok(()) => Ok(0),
            Err(stop) => Err(stop),
        },
        TreeAsk::StoreByte { byte: word, .. } | TreeAsk::HandBack { byte: word, .. } => {
            match os.store_byte(host, va, (word % 256) as u8) {
                Ok(()) => Ok(0),
                Err(stop) => Err(stop),
            }
        }
    }
}

/// Does what is asked of the disk at a place. Where the place's block has no page yet, the cache makes a step. Either is one call (`made`).
fn make_at_block<O: UserOs, H: Host>(
    os: &mut O,
    host: &mut H,
    ask: TreeAsk,
    at: u32,
) -> Result<Done, Failed>
    requires live { is_live (slot_at (O.state os.old) (O.slot os.old)) ≡ true }
    requires few { O.calls os.old < 2 ^ 32 - 1 }
    requires whole { HasBlocks (H.files host.old) (O.disk os.old) }
    requires place { makes.IsOfDisk ask at }
    ensures told { makes.DoesWhereTold ask result (O.disk os.old) (O.slot os.old) (around O.state os.old os.new) (around H.files host.old host.new) }
    ensures leaves { makes.LeavesWhereInside ask result (O.disk os.old) (O.slot os.old) (around O.state os.old os.new) (H.files host.old) (output H.console O.written (from_to host.old host.new) (from_to os.old os.new)) }
    ensures call { makes.CallsWhereInside ask result (O.disk os.old) (O.slot os.old) (around O.state os.old os.new) (around H.files host.old host.new) }
    ensures kept { makes.KeepsSlot result (O.slot os.old) (around O.state os.old os.new) }
    ensures made { OnOk result (MakesServersCall (around O.state os.old os.new) (O.slot os.old) (O.disk os.old) (around H.files host.old host.new) (output H.console O.written (from_to host.old host.new) (from_to os.old os.new))) }
    ensures disk_only { TouchesDisk (O.disk os.old) (around H.files host.old host.new) (around H.asked host.old host.new) }
    ensures failed { OnErr result (PrintsPartOfSome (output H.console O.written (from_to host.old host.new) (from_to os.old os.new))) }
    ensures whole { OnOk result (HasBlocks (H.files host.new) (O.disk os.new)) }
    ensures in_order { IsInOrder (O.state os.old) → IsInOrder (O.state os.new) }
    ensures slot { O.slot os.new ≡ O.slot os.old }
    ensures disk { O.disk os.new ≡ O.disk os.old }
    ensures calls { O.calls os.new ≡ O.calls os.old + 1 }
    ensures input { H.input host.new ≡ H.input host.old }
    ensures notes { H.notes host.new ≡ H.notes host.old }
    ensures cause { HasCause (H.faults host.old) (H.faults host.new) result }
{
    match block_step(os, host, at / BLKSIZE % CACHE_BLOCKS) {
        Ok(Cached::Ready(va)) => match access(os, host, ask, va + at % BLKSIZE) {
            Ok(word) => Ok(Done::Word(word)),
            Err(Stop::Failed) => Err(Failed),
            // The block has its page.
            Err(Stop::Upcall | Stop::Ended) => Ok(Done::Going),
        },
        Ok(Cached::Going) => Ok(Done::Going),
        Ok(Cached::NoPage) => Ok(Done::NoPage),
        Err(failed) => Err(failed),
    }
}

/// Does what is asked of a byte of the page of the request, by one call (`made`).
fn make_at_request<O: UserOs, H: Host>(
    os: &mut O,
    host: &mut H,
    ask: TreeAsk,
    at: u32,
) -> Result<Done, Failed>
    requires live { is_live (slot_at (O.state os.old) (O.slot os.old)) ≡ true }
    requires few { O.calls os.old < 2 ^ 32 - 1 }
    requires whole { HasBlocks (H.files host.old) (O.disk os.old) }
    requires place { makes.IsOfRequest ask at }
    ensures told { makes.DoesWhereTold ask result (O.disk os.old) (O.slot os.old) (around O.state os.old os.new) (around H.files host.old host.new) }
    ensures leaves { makes.LeavesWhereInside ask result (O.disk os.old) (O.slot os.old) (around O.state os.old os.new) (H.files host.old) (output H.console O.written (from_to host.old host.new) (from_to os.old os.new)) }
    ensures call { makes.CallsWhereInside ask result (O.disk os.old) (O.slot os.old) (around O.state os.old os.new) (around H.files host.old host.new) }
    ensures kept { makes.KeepsSlot result (O.slot os.old) (around O.state os.old os.new) }
    ensures made { OnOk result (MakesServersCall (around O.state os.old os.new) (O.slot os.old) (O.disk os.old) (around H.files host.old host.new) (output H.console O.written (from_to host.old host.new) (from_to os.old os.new))) }
    ensures disk_only { TouchesDisk (O.disk os.old) (around H.files host.old host.new) (around H.asked host.old host.new) }
    ensures failed { OnErr result (PrintsPartOfSome (output H.console O.written (from_to host.old host.new) (from_to os.old os.new))) }
    ensures whole { OnOk result (HasBlocks (H.files host.new) (O.disk os.new)) }
    ensures in_order { IsInOrder (O.state os.new) }
    ensures slot { O.slot os.new ≡ O.slot os.old }
    ensures disk { O.disk os.new ≡ O.disk os.old }
    ensures calls { O.calls os.new ≡ O.calls os.old + 1 }
    ensures input { H.input host.new ≡ H.input host.old }
    ensures notes { H.notes host.new ≡ H.notes host.old }
    ensures cause { HasCause (H.faults host.old) (H.faults host.new) result }
{
    match access(os, host, ask, REQUEST + at % PGSIZE) {
        Ok(word) => Ok(Done::Word(word)),
        Err(Stop::Failed) => Err(Failed),
        // The page is there.
        Err(Stop::Upcall | Stop::Ended) => Ok(Done::Going),
    }
}

/// Does what is asked, by one call (`made`).
fn make<O: UserOs, H: Host>(os: &mut O, host: &mut H, ask: TreeAsk) -> Result<Done, Failed>
    requires live { is_live (slot_at (O.state os.old) (O.slot os.old)) ≡ true }
    requires few { O.calls os.old < 2 ^ 32 - 1 }
    requires whole { HasBlocks (H.files host.old) (O.disk os.old) }
    ensures told { makes.DoesWhereTold ask result (O.disk os.old) (O.slot os.old) (around O.state os.old os.new) (around H.files host.old host.new) }
    ensures leaves { makes.LeavesWhereInside ask result (O.disk os.old) (O.slot os.old) (around O.state os.old os.new) (H.files host.old) (output H.console O.written (from_to host.old host.new) (from_to os.old os.new)) }
    ensures call { makes.CallsWhereInside ask result (O.disk os.old) (O.slot os.old) (around O.state os.old os.new) (around H.files host.old host.new) }
    ensures kept { makes.KeepsSlot result (O.slot os.old) (around O.state os.old os.new) }
    ensures made { OnOk result (MakesServersCall (around O.state os.old os.new) (O.slot os.old) (O.disk os.old) (around H.files host.old host.new) (output H.console O.written (from_to host.old host.new) (from_to os.old os.new))) }
    ensures disk_only { TouchesDisk (O.disk os.old) (around H.files host.old host.new) (around H.asked host.old host.new) }
    ensures failed { OnErr result (PrintsPartOfSome (output H.console O.written (from_to host.old host.new) (from_to os.old os.new))) }
    ensures whole { OnOk result (HasBlocks (H.files host.new) (O.disk os.new)) }
    ensures in_order { IsInOrder (O.state os.old) → IsInOrder (O.state os.new) }
    ensures slot { O.slot os.new ≡ O.slot os.old }
    ensures disk { O.disk os.new ≡ O.disk os.old }
    ensures calls { O.calls os.new ≡ O.calls os.old + 1 }
    ensures input { H.input host.new ≡ H.input host.old }
    ensures notes { H.notes host.new ≡ H.notes host.old }
    ensures cause { HasCause (H.faults host.old) (H.faults host.new) result }
{
    match ask {
        TreeAsk::Load { at }
        | TreeAsk::LoadByte { at }
        | TreeAsk::Store { at, .. }
        | TreeAsk::StoreByte { at, .. } => make_at_block(os, host, ask, at),
        TreeAsk::Request { at } | TreeAsk::HandBack { at, .. } => {
            make_at_request(os, host, ask, at)
        }
    }
}

/// The job goes on from another state.
fn go_on<O: UserOs>(os: &mut O, state: TreeState)
    requires live { is_live (slot_at (O.state os.old) (O.slot os.old)) ≡ true }
    ensures state { O.state os.new ≡ with_extra (with_registers (O.state os.old) (O.slot os.old) (places.registers_with (slot_at (O.state os.old) (O.slot os.old)).registers state)) (O.slot os.old) (places.words_with (slot_at (O.state os.old) (O.slot os.old)).extra state) }
    ensures in_order { IsInOrder (O.state os.new) }
    ensures slot { O.slot os.new ≡ O.slot os.old }
    ensures disk { O.disk os.new ≡ O.disk os.old }
    ensures calls { O.calls os.new ≡ O.calls os.old }
    ensures written { O.written os.new ≡ O.written os.old }
{
    let registers = os.registers();
    let extra = os.extra();
    let (registers, extra) = with_state(registers, &extra, state);
    os.set_registers(registers);
    os.set_extra(extra);
}

/// A job that stands where no job comes to is refused. A call is made that asks for nothing.
fn refuse<O: UserOs, H: Host>(os: &mut O, host: &mut H) -> Result<Acted, Failed>
    requires live { is_live (slot_at (O.state os.old) (O.slot os.old)) ≡ true }
    requires few { O.calls os.old < 2 ^ 32 - 1 }
    ensures files { H.files host.new ≡ H.files host.old }
    ensures quiet { Prints (output H.console O.written (from_to host.old host.new) (from_to os.old os.new)) [] }
    ensures made { OnOk result (MakesServersCall (around O.state os.old os.new) (O.slot os.old) (O.disk os.old) (around H.files host.old host.new) (output H.console O.written (from_to host.old host.new) (from_to os.old os.new))) }
    ensures disk_only { TouchesDisk (O.disk os.old) (around H.files host.old host.new) (around H.asked host.old host.new) }
    ensures failed { OnErr result (PrintsPartOfSome (output H.console O.written (from_to host.old host.new) (from_to os.old os.new))) }
    ensures lives { LivesWhereAnswered result (slot_at (O.state os.new) (O.slot os.new)) }
    ensures in_order { IsInOrder (O.state os.new) }
    ensures slot { O.slot os.new ≡ O.slot os.old }
    ensures disk { O.disk os.new ≡ O.disk os.old }
    ensures calls { O.calls os.new ≡ O.calls os.old + 1 }
    ensures input { H.input host.new ≡ H.input host.old }
    ensures notes { H.notes host.new ≡ H.notes host.old }
    ensures cause { HasCause (H.faults host.old) (H.faults host.new) result }
{
    match os.system(host, SYS_GETENVID, [0; 5]) {
        Ok(_) => Ok(Acted::Answer(negated(E_INVAL))),
        Err(failed) => Err(failed),
    }
}

/// Makes a step of the job: the block that it wants comes nearer, or it does what it asks and goes on by the reply. Each step is one call, one of
/// those that the file server makes, whatever stands and whether or not the host tells its files (`made`). Where it tells them and all stands, the
/// call is one of the cache's or an access to the page of a block or of the request, and no space is changed behind it (`call`). Of the host's files
/// at most a block of the disk's is read or written, whether or not the host fails (`disk_only`).
///
/// # Errors
/// The host failed. The console keeps what it has, and at most a part of some bytes came behind that (`failed`).
pub fn tree_step<O: UserOs, H: Host>(os: &mut O, host: &mut H) -> Result<Acted, Failed>
    requires live { is_live (slot_at (O.state os.old) (O.slot os.old)) ≡ true }
    requires few { O.calls os.old < 2 ^ 32 - 1 }
    requires whole { HasBlocks (H.files host.old) (O.disk os.old) }
    ensures told { StepsWhereTold result (O.disk os.old) (O.slot os.old) (around O.state os.old os.new) (around H.files host.old host.new) }
    ensures quiet { QuietWhereTold result (O.disk os.old) (O.slot os.old) (around O.state os.old os.new) (H.files host.old) (output H.console O.written (from_to host.old host.new) (from_to os.old os.new)) }
    ensures rest { RestWhereTold result (O.disk os.old) (O.slot os.old) (around O.state os.old os.new) (H.files host.old) }
    ensures call { makes.CallsWhereTold result (O.disk os.old) (O.slot os.old) (around O.state os.old os.new) (around H.files host.old host.new) }
    ensures made { OnOk result (MakesServersCall (around O.state os.old os.new) (O.slot os.old) (O.disk os.old) (around H.files host.old host.new) (output H.console O.written (from_to host.old host.new) (from_to os.old os.new))) }
    ensures disk_only { TouchesDisk (O.disk os.old) (around H.files host.old host.new) (around H.asked host.old host.new) }
    ensures failed { OnErr result (PrintsPartOfSome (output H.console O.written (from_to host.old host.new) (from_to os.old os.new))) }
    ensures lives { LivesWhereAnswered result (slot_at (O.state os.new) (O.slot os.old)) }
    ensures whole { OnOk result (HasBlocks (H.files host.new) (O.disk os.new)) }
    ensures in_order { IsInOrder (O.state os.old) → IsInOrder (O.state os.new) }
    ensures slot { O.slot os.new ≡ O.slot os.old }
    ensures disk { O.disk os.new ≡ O.disk os.old }
    ensures calls { O.calls os.new ≡ O.calls os.old + 1 }
    ensures input { H.input host.new ≡ H.input host.old }
    ensures notes { H.notes host.new ≡ H.notes host.old }
    ensures cause { HasCause (H.faults host.old) (H.faults host.new) result }
{
    let registers = os.registers();
    let extra = os.extra();
    let state = find_state(&registers, &extra);
    if !is_bounded(state) {
        return refuse(os, host);
    }
    match make(os, host, ask_at(state)) {
        Ok(Done::Word(word)) => match next_at(state, word) {
            TreeNext::Answer(answer) => Ok(Acted::Answer(answer)),
            TreeNext::GoOn(next) => {
                go_on(os, next);
                Ok(Acted::Going)
            }
        },
        Ok(Done::Going) => Ok(Acted::Going),
        Ok(Done::NoPage) => Ok(Acted::Answer(negated(E_NO_MEM))),
        Err(failed) => Err(failed),
    }
}

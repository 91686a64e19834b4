//! Steps of the cache, each of which is one call.

ghost use Rattle.std.specs.Prelude.{◌≡◌, ◌+◌, ◌-◌, ◌<◌, ◌^◌, true, OnErr, OnOk};
ghost use Rattle.jos_host.specs.Told.{HasCause};
ghost use Rattle.jos_host.specs.Frames.{around, from_to};
ghost use Rattle.jos_base.specs.Environments.{is_live};
ghost use Rattle.jos_base.specs.KernelState.{slot_at};
ghost use Rattle.lib_os.specs.declared.numbers.TheConstants.{CACHE_BLOCKS};
ghost use Rattle.lib_os.specs.Disk.{HasBlocks};
ghost use Rattle.lib_os.specs.InOrder.{IsInOrder};
ghost use Rattle.lib_os.specs.MadeCalls.{PrintsPartOfSome, TouchesDisk};
ghost use Rattle.lib_os.specs.UserCalls.{HasStopCause, output};
ghost use Rattle.fs_blocks.specs.CachePlans as plans;
ghost use Rattle.fs_cache.specs.CacheSteps as cache;
ghost use Rattle.fs_cache.specs.CacheSteps.{caller, calls_made, IsReply, FilesAfter, IsCacheStep, IsBlockStep, IsFlushStep};
ghost use Rattle.fs_cache.specs.CacheSteps.{KeepsCacheWhereDone, FetchTold, FlushTold};

use fs_blocks::{
    CacheAsk, CachePlace, CacheState, Told, address_of, ask_at, fetching, find_state, flushing,
    next_at, with_state,
};
use jos_host::{Failed, Host};
use lib_os::{Stop, UserOs, answer_of};

/// What comes of a step towards a block.
#[derive(Clone, Copy, Debug, PartialEq, Eq)]
pub enum Cached {
    /// The block's page is there, at this address, until the next answer that is not this one.
    Ready(u32),
    /// There is more to do.
    Going,
    /// No page is to be had, and no block is cached that could be given up.
    NoPage,
}

/// What comes of a step of a flush.
#[derive(Clone, Copy, Debug, PartialEq, Eq)]
pub enum Flushed {
    /// No page is dirty: what each block holds is what the disk's block holds.
    Clean,
    /// There is more to do.
    Going,
}

/// Makes the call that the cache asks for at a place.
fn reply<O: UserOs, H: Host>(os: &mut O, host: &mut H, asked: CacheAsk) -> Result<u32, Stop>
    requires live { is_live (slot_at (O.state os.old) (O.slot os.old)) ≡ true }
    requires few { O.calls os.old < 2 ^ 32 - 1 }
    requires whole { HasBlocks (H.files host.old) (O.disk os.old) }
    requires own { plans.IsOwnAsk asked }
    ensures step { IsReply asked (caller (O.state os.old) (O.slot os.old) (O.disk os.old)) (H.files host.old) result (O.state os.new) (output H.console O.written (from_to host.old host.new) (from_to os.old os.new)) }
    ensures files { FilesAfter asked (caller (O.state os.old) (O.slot os.old) (O.disk os.old)) result (around H.files host.old host.new) }
    ensures disk_only { TouchesDisk (O.disk os.old) (around H.files host.old host.new) (around H.asked host.old host.new) }
    ensures in_order { IsInOrder (O.state os.new) }
    ensures slot { O.slot os.new ≡ O.slot os.old }
    ensures disk { O.disk os.new ≡ O.disk os.old }
    ensures calls { O.calls os.new ≡ O.calls os.old + 1 }
    ensures input { H.input host.new ≡ H.input host.old }
    ensures notes { H.notes host.new ≡ H.notes host.old }
    ensures cause { HasStopCause (around H.faults host.old host.new) result }
{
    match asked {
        CacheAsk::Load { va } => os.load(host, va),
        CacheAsk::System { number, args } => match os.system(host, number, args) {
            Ok(called) => Ok(answer_of(called)),
            Err(Failed) => Err(Stop::Failed),
        },
        CacheAsk::ReadBlock { block } => match os.block_read(host, block, address_of(block)) {
            Ok(word) => Ok(word),
            Err(Failed) => Err(Stop::Failed),
        },
        CacheAsk::WriteBlock { block } => match os.block_write(host, block, address_of(block)) {
            Ok(word) => Ok(word),
            Err(Failed) => Err(Stop::Failed),
        },
    }
}

/// Makes the step of the cache where it stands so.
fn step<O: UserOs, H: Host>(os: &mut O, host: &mut H, state: CacheState) -> Result<Told, Failed>
    requires live { is_live (slot_at (O.state os.old) (O.slot os.old)) ≡ true }
    requires few { O.calls os.old < 2 ^ 32 - 1 }
    requires whole { HasBlocks (H.files host.old) (O.disk os.old) }
    ensures made { IsCacheStep state (caller (O.state os.old) (O.slot os.old) (O.disk os.old)) result (around H.files host.old host.new) (O.state os.new) (output H.console O.written (from_to host.old host.new) (from_to os.old os.new)) }
    ensures whole { OnOk result (HasBlocks (H.files host.new) (O.disk os.new)) }
    ensures disk_only { TouchesDisk (O.disk os.old) (around H.files host.old host.new) (around H.asked host.old host.new) }
    ensures failed { OnErr result (PrintsPartOfSome (output H.console O.written (from_to host.old host.new) (from_to os.old os.new))) }
    ensures in_order { IsInOrder (O.state os.new) }
    ensures slot { O.slot os.new ≡ O.slot os.old }
    ensures disk { O.disk os.new ≡ O.disk os.old }
    ensures calls { O.calls os.new ≡ O.calls os.old + 1 }
    ensures input { H.input host.new ≡ H.input host.old }
    ensures notes { H.notes host.new ≡ H.notes host.old }
    ensures cause { HasCause (H.faults host.old) (H.faults host.new) result }
{
    match reply(os, host, ask_at(state)) {
        Ok(word) => {
            let next = next_at(state, word);
            let words = os.extra();
            os.set_extra(with_state(&words, next.state));
            Ok(next.told)
        }
        Err(Stop::Failed) => Err(Failed),
        // The environment has no such page.
        Err(Stop::Upcall) => Ok(Told::Going),
        Err(Stop::Ended) => Ok(Told::Going),
    }
}

/// What is told of a step towards a block.
fn as_cached(told: Told) -> Cached
    ensures { result ≡ cache.as_cached told }
{
    match told {
        Told::NoPage => Cached::NoPage,
        Told::Going | Told::Clean => Cached::Going,
    }
}

/// What is told of a step of a flush.
fn as_flushed(told: Told) -> Flushed
    ensures { result ≡ cache.as_flushed told }
{
    match told {
        Told::Clean => Flushed::Clean,
        Told::Going | Told::NoPage => Flushed::Going,
    }
}

/// Whether this block was found.
fn is_found(place: CachePlace, block: u32) -> bool
    ensures { result ≡ cache.is_found block place }
{
    match place {
        CachePlace::Found { block: found } => found == block,
        _ => false,
    }
}

/// Makes a step towards a block in the cache. Nothing is done where it is ready; else the step is one call. What is under way for
/// another block is done first. Of the host's files at most a block of the disk's is read or written, whether or not the host fails
/// (`disk_only`). (MIT 6.828, lab 5: fs/bc.c, bc_pgfault)
///
/// # Errors
/// The host failed while a block was read or written, or while a line was written. The console keeps what it has, and at most a part of some
/// bytes came behind that (`failed`).
pub fn block_step<O: UserOs, H: Host>(
    os: &mut O,
    host: &mut H,
    block: u32,
) -> Result<Cached, Failed>
    requires live { is_live (slot_at (O.state os.old) (O.slot os.old)) ≡ true }
    requires few { O.calls os.old < 2 ^ 32 - 1 }
    requires whole { HasBlocks (H.files host.old) (O.disk os.old) }
    requires block { block < CACHE_BLOCKS }
    ensures made { IsBlockStep block (caller (O.state os.old) (O.slot os.old) (O.disk os.old)) result (around H.files host.old host.new) (O.state os.new) (output H.console O.written (from_to host.old host.new) (from_to os.old os.new)) }
    ensures cache { KeepsCacheWhereDone result (O.disk os.old) (O.slot os.old) (around O.state os.old os.new) (around H.files host.old host.new) }
    ensures tells { FetchTold block result (O.disk os.old) (O.slot os.old) (around O.state os.old os.new) (H.files host.old) }
    ensures whole { OnOk result (HasBlocks (H.files host.new) (O.disk os.new)) }
    ensures disk_only { TouchesDisk (O.disk os.old) (around H.files host.old host.new) (around H.asked host.old host.new) }
    ensures failed { OnErr result (PrintsPartOfSome (output H.console O.written (from_to host.old host.new) (from_to os.old os.new))) }
    ensures in_order { IsInOrder (O.state os.old) → IsInOrder (O.state os.new) }
    ensures slot { O.slot os.new ≡ O.slot os.old }
    ensures disk { O.disk os.new ≡ O.disk os.old }
    ensures calls { O.calls os.new ≡ O.calls os.old + calls_made result }
    ensures input { H.input host.new ≡ H.input host.old }
    ensures notes { H.notes host.new ≡ H.notes host.old }
    ensures cause { HasCause (H.faults host.old) (H.faults host.new) result }
{
    let state = find_state(&os.extra());
    if is_found(state.place, block) {
        return Ok(Cached::Ready(address_of(block)));
    }
    let place = fetching(state.place, block);
    match step(os, host, CacheState { place, ..state }) {
        Ok(told) => Ok(as_cached(told)),
        Err(failed) => Err(failed),
    }
}

/// Makes a step of a flush, in which all dirty pages are written to the disk, in the order of their blocks. The step is one
/// call. Of the host's files at most a block of the disk's is read or written, whether or not the host fails (`disk_only`).
/// (MIT 6.828, lab 5: fs/fs.c, fs_sync)
///
/// # Errors
/// The host failed while a block was read or written, or while a line was written. The console keeps what it has, and at most a part of some
/// bytes came behind that (`failed`).
pub fn flush_step<O: UserOs, H: Host>(os: &mut O, host: &mut H) -> Result<Flushed, Failed>
    requires live { is_live (slot_at (O.state os.old) (O.slot os.old)) ≡ true }
    requires few { O.calls os.old < 2 ^ 32 - 1 }
    requires whole { HasBlocks (H.files host.old) (O.disk os.old) }
    ensures made { IsFlushStep (caller (O.state os.old) (O.slot os.old) (O.disk os.old)) result (around H.files host.old host.new) (O.state os.new) (output H.console O.written (from_to host.old host.new) (from_to os.old os.new)) }
    ensures cache { KeepsCacheWhereDone result (O.disk os.old) (O.slot os.old) (around O.state os.old os.new) (around H.files host.old host.new) }
    ensures tells { FlushTold result (O.disk os.old) (O.slot os.old) (around O.state os.old os.new) (H.files host.old) }
    ensures whole { OnOk result (HasBlocks (H.files host.new) (O.disk os.new)) }
    ensures disk_only { TouchesDisk (O.disk os.old) (around H.files host.old host.new) (around H.asked host.old host.new) }
    ensures failed { OnErr result (PrintsPartOfSome (output H.console O.written (from_to host.old host.new) (from_to os.old os.new))) }
    ensures in_order { IsInOrder (O.state os.new) }
    ensures slot { O.slot os.new ≡ O.slot os.old }
    ensures disk { O.disk os.new ≡ O.disk os.old }
    ensures calls { O.calls os.new ≡ O.calls os.old + 1 }
    ensures input { H.input host.new ≡ H.input host.old }
    ensures notes { H.notes host.new ≡ H.notes host.old }
    ensures cause { HasCause (H.faults host.old) (H.faults host.new) result }
{
    let state = find_state(&os.extra());
    let place = flushing(state.place);
    match step(os, host, CacheState { place, ..state }) {
        Ok(told) => Ok(as_flushed(told)),
        Err(failed) => Err(failed),
    }
}

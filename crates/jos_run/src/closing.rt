//! What is done behind the turns of a run.

ghost use Rattle.std.specs.Prelude.{◌≡◌, ◌<◌, ◌≤◌, ◌^◌, ◌&&◌, length, [], true, Err, IfOk, OnErr, OnOk, IfSome};
ghost use Rattle.jos_host.specs.Told.{HasCause};
ghost use Rattle.jos_host.specs.Frames.{around, from_to};
ghost use Rattle.jos_host.specs.Gains.{Gains};
ghost use Rattle.jos_base.specs.declared.numbers.TheConstants.{TURN_MAX};
ghost use Rattle.jos_base.specs.Environments.{is_live};
ghost use Rattle.jos_base.specs.KernelState.{slot_at};
ghost use Rattle.jos_base.specs.Words.{is_exactly, page_number};
ghost use Rattle.jos_kernel.specs.Books.{noted};
ghost use Rattle.lib_os.specs.Disk.{HasBlocks};
ghost use Rattle.lib_os.specs.LibrarySteps.{LeavesRest};
ghost use Rattle.lib_os.specs.MadeCalls.{TouchesDisk};
ghost use Rattle.lib_os.specs.UserCalls.{output};
ghost use Rattle.lib_os.specs.declared.numbers.TheConstants.{CACHE_BLOCKS};
ghost use Rattle.lib_os.specs.BlockCache.{block_address, is_dirty};
ghost use Rattle.fs_cache.specs.CacheStands.{filling_at};
ghost use Rattle.fs_serving.specs.ServerRuns.{is_serving};
ghost use Rattle.jos_run.specs.Closing.{ActsSooner, ClosesRequest, is_to_write};
ghost use Rattle.jos_run.specs.DiskTouches.{TouchesDiskOnly};
ghost use Rattle.jos_run.specs.RunSteps.{IsWrittenBack, acts_in};
ghost use Rattle.jos_run.specs.Served.{kernel_state};
ghost use Rattle.jos_run.specs.ServerStands.{IsWholeStep, LeavesServed};
ghost use Rattle.jos_run.specs.Worlds.{told_disk, world_of};

use crate::served::Served;
use fs_blocks::{CachePlace, find_state};
use fs_layout::BLKSIZE;
use fs_requests::{ServerStep, find_server};
use fs_server::server_step;
use jos_base::PTE_D;
use jos_host::{Failed, Host};
use jos_kernel::Refusal;
use lib_os::{CACHE_BLOCKS, DISKMAP, Progress, UserOs};

/// The most steps of the file server behind the turns: more than it needs to make its act.
pub const CLOSING_MAX: u64 = 0x20_0000_0000_0000;

/// The closing steps that were made, where something was refused first in the run, if it was, and whether a call of the host failed.
#[derive(Clone, Copy)]
pub(crate) struct Closing {
    pub(crate) steps: u64,
    pub(crate) first_refused: Option<Refusal>,
    pub(crate) outcome: Result<(), Failed>,
}

/// Whether the server stands between a request that has come and the reply.
fn is_serving(step: ServerStep) -> bool
    ensures { result ≡ is_serving step }
{
    !matches!(
        step,
        ServerStep::Releasing | ServerStep::Receiving | ServerStep::Replying | ServerStep::Pausing
    )
}

/// What is told of the first refusal, where something was refused in the turn with this number, when so much was written.
fn noted(first: Option<Refusal>, refused: bool, turn: u32, written: u64) -> Option<Refusal>
    ensures { result ≡ noted first refused turn written }
{
    match first {
        Some(refusal) => Some(refusal),
        None => {
            if refused {
                Some(Refusal {
                    turn,
                    console_len: written,
                })
            } else {
                None
            }
        }
    }
}

/// Whether the page of a block is there, but is not filled.
fn is_filling(place: CachePlace, block: u32) -> bool
    ensures { result ≡ is_exactly block (filling_at place) }
{
    match place {
        CachePlace::Filling { block: at } | CachePlace::Leaving { block: at } => block == at,
        _ => false,
    }
}

/// Where the page of a block lies.
fn address_of(block: u32) -> u32
    requires { block < CACHE_BLOCKS }
    ensures { result ≡ block_address block }
{
    DISKMAP + BLKSIZE as u32 * block
}

impl Served {
    /// Whether the file server, which is served, may run, and stands where it has a request whose act is not made.
    fn is_acting(&self) -> bool
        requires { self.now.slot ≡ 0 }
        ensures { result ≡ acts_in (kernel_state self.now) }
    {
        if !self.is_server() {
            return false;
        }
        if !self.is_awake() {
            return false;
        }
        let registers = self.registers();
        let words = self.extra();
        is_serving(find_server(&registers, &words).step)
    }

    /// Makes a step of the file server, in slot 0.
    ///
    /// # Errors
    /// A call of the host failed.
    fn make_server_step<H: Host>(&mut self, host: &mut H) -> Result<Progress, Failed>
        requires slot { self.old.slot ≡ 0 }
        requires acts { acts_in (kernel_state self.old) ≡ true }
        requires whole { HasBlocks (H.files host.old) self.old.disk }
        ensures step { IsWholeStep result 0 (world_of (kernel_state self.old) (H.files host.old) self.old.disk) (world_of (kernel_state self.new) (H.files host.new) self.new.disk) (output H.console (λ s. s.written) (from_to host.old host.new) (from_to self.old self.new)) }
        ensures rest { IfOk result (λ done. LeavesRest (kernel_state self.old) (kernel_state self.new)) }
        ensures leaves { LeavesServed (told_disk (H.files host.old) self.old.disk) result (kernel_state self.old) (kernel_state self.new) }
        ensures soon { ActsSooner result (world_of (kernel_state self.old) (H.files host.old) self.old.disk) (world_of (kernel_state self.new) (H.files host.new) self.new.disk) }
        ensures slot { self.new.slot ≡ 0 }
        ensures disk { self.new.disk ≡ self.old.disk }
        ensures disk_only { TouchesDisk self.old.disk (around H.files host.old host.new) (around H.asked host.old host.new) }
        ensures whole { OnOk result (HasBlocks (H.files host.new) self.new.disk) }
        ensures small { self.old.written < 2 ^ 64 }
        ensures input { H.input host.new ≡ H.input host.old }
        ensures notes { H.notes host.new ≡ H.notes host.old }
        ensures cause { HasCause (H.faults host.old) (H.faults host.new) result }
    {
        let _ = &self.machine;
        self.serve(0);
        self.keep_words();
        server_step(self, host)
    }

    /// Lets the file server alone go on while it has a request whose act is not made, behind so many turns, and notes where something was
    /// refused first.
    pub(crate) fn finish_request<H: Host>(
        &mut self,
        host: &mut H,
        turn: u32,
        first_refused: Option<Refusal>,
    ) -> Closing
        requires whole { HasBlocks (H.files host.old) self.old.disk }
        ensures told { ClosesRequest turn first_refused result (from_to self.old self.new) (from_to (told_disk (H.files host.old) self.old.disk) (told_disk (H.files host.new) self.new.disk)) (around H.console host.old host.new) }
        ensures disk { self.new.disk ≡ self.old.disk }
        ensures disk_only { TouchesDiskOnly self.old.disk (around H.files host.old host.new) (around H.asked host.old host.new) }
        ensures input { H.input host.new ≡ H.input host.old }
        ensures notes { H.notes host.new ≡ H.notes host.old }
        ensures cause { HasCause (H.faults host.old) (H.faults host.new) result.outcome }
    {
        self.serve(0);
        let mut first_refused = first_refused;
        for steps in 0..CLOSING_MAX {
            if !self.is_acting() {
                return Closing {
                    steps,
                    first_refused,
                    outcome: Ok(()),
                };
            }
            let refusals = self.refused();
            let printed = self.written();
            match self.make_server_step(host) {
                Ok(_) => {
                    let refused = self.refused() != refusals;
                    first_refused = noted(first_refused, refused, turn, printed);
                }
                Err(failed) => {
                    return Closing {
                        steps,
                        first_refused,
                        outcome: Err(failed),
                    };
                }
            }
        }
        Closing {
            steps: CLOSING_MAX,
            first_refused,
            outcome: Ok(()),
        }
    }

    /// Whether the page of a block, in the space of the file server, which is served, is dirty, and is filled.
    fn is_to_write(&self, block: u32) -> bool
        requires slot { self.now.slot ≡ 0 }
        requires live { is_live (slot_at (kernel_state self.now) 0) ≡ true }
        requires below { block < CACHE_BLOCKS }
        ensures { result ≡ is_to_write (kernel_state self.now) block }
    {
        if is_filling(find_state(&self.extra()).place, block) {
            return false;
        }
        self.is_dirty_at(address_of(block))
    }

    /// Whether the page at an address is dirty.
    fn is_dirty_at(&self, va: u32) -> bool
        requires { is_live (slot_at (kernel_state self.now) self.now.slot) ≡ true }
        ensures { result ≡ is_dirty ((kernel_state self.now).spaces.entries (slot_at (kernel_state self.now) self.now.slot).directory (page_number va)) }
    {
        let system = self.machine.system();
        match system.page_perm(system.space(self.slot), va) {
            Some(perm) => perm.0 & PTE_D == PTE_D,
            None => false,
        }
    }

    /// Writes the dirty blocks of the file server's cache to the disk.
    ///
    /// # Errors
    /// A call of the host failed.
    pub(crate) fn write_back<H: Host>(&mut self, host: &mut H) -> Result<(), Failed>
        requires whole { HasBlocks (H.files host.old) self.old.disk }
        ensures told { OnOk result (IsWrittenBack (world_of (kernel_state self.old) (H.files host.old) self.old.disk) (world_of (kernel_state self.new) (H.files host.new) self.new.disk)) }
        ensures quiet { Gains (around H.console host.old host.new) [] }
        ensures disk { self.new.disk ≡ self.old.disk }
        ensures disk_only { TouchesDiskOnly self.old.disk (around H.files host.old host.new) (around H.asked host.old host.new) }
        ensures input { H.input host.new ≡ H.input host.old }
        ensures notes { H.notes host.new ≡ H.notes host.old }
        ensures cause { HasCause (H.faults host.old) (H.faults host.new) result }
    {
        self.serve(0);
        self.keep_in_order();
        if !self.is_live() {
            return Ok(());
        }
        let blocks = self.block_count().min(CACHE_BLOCKS);
        for block in 0..blocks {
            if self.is_to_write(block) {
                match self.block_write(host, block, address_of(block)) {
                    Ok(_) => {}
                    Err(failed) => return Err(failed),
                }
            }
        }
        Ok(())
    }
}

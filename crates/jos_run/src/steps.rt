//! Steps of an environment that the library serves.

ghost use Rattle.std.specs.Prelude.{◌≡◌, ◌+◌, ◌-◌, ◌<◌, ◌≤◌, ◌^◌, true, false, None, IfOk, OnOk, is_some, if◌then◌else◌};
ghost use Rattle.jos_host.specs.Told.{HasCause};
ghost use Rattle.jos_host.specs.Frames.{Unchanged, around, from_to};
ghost use Rattle.jos_base.specs.Environments.{is_live, is_runnable, is_running};
ghost use Rattle.jos_base.specs.KernelState.{slot_at};
ghost use Rattle.lib_os.specs.Disk.{HasBlocks};
ghost use Rattle.lib_os.specs.MadeCalls.{TouchesDisk};
ghost use Rattle.lib_os.specs.Places.{place_of};
ghost use Rattle.lib_os.specs.UserCalls.{output};
ghost use Rattle.lib_os.specs.declared.place.Place.TheVariants as place;
ghost use Rattle.jos_run.specs.Served.{kernel_state};
ghost use Rattle.jos_base.specs.Words.{page_number};
ghost use Rattle.lib_os.specs.LibrarySteps.{is_to_copy};
ghost use Rattle.lib_os.specs.Rows.{rows_of};
ghost use Rattle.lib_os.specs.StandsFor.{writes_buffer};
ghost use Rattle.lib_os.specs.StandsInHandler.{AreSmall, buffer_of};
ghost use Rattle.jos_run.specs.GuestSteps.{is_copying};
ghost use Rattle.jos_run.specs.Steps.{entry_at, fault_line, is_awake, is_servers, raised_again, raised_by, raised_by_given, step_progress, unread_line};
ghost use Rattle.jos_run.specs.StepsAtOnce.{came_to, MakesSteps};
ghost use Rattle.jos_run.specs.Worlds.{world_of};

use crate::served::Served;
use crate::services::stage_of;
use fs_server::server_step;
use jos_base::{EnvType, FEC_PR, FEC_U, FEC_WR, PTE_SYSCALL, Status, T_PGFLT};
use jos_cpu::{Decodings, Event, Gates, make_burst};
use jos_host::{Failed, Host};
use jos_kernel::TrapLine;
use lib_fault::PageFaultHandler;
use lib_given::address_va;
use lib_os::{
    GivenStep, HandlerStep, PTE_COW, Place, Progress, Service, SpawnStep, Step, UserOs, find_place,
};
use lib_stage::drive;

/// What a step has come to, and the trap that it raised, if it raised one.
#[derive(Clone, Copy, Debug, PartialEq, Eq)]
pub struct StepOutcome {
    pub progress: Progress,
    pub trap: Option<TrapLine>,
}

/// Steps that were made: how many of a program went on before the last, and what the last has come to.
#[derive(Clone, Copy, Debug, PartialEq, Eq)]
pub struct Steps {
    pub going: u32,
    pub last: Result<StepOutcome, Failed>,
}

/// What the last instruction of a program has come to, by whether it was stopped by a page to be copied and whether its
/// environment is live, and the trap that it raised, if it raised one.
fn came_to(
    copying: bool,
    live: bool,
    followed: Result<Option<TrapLine>, Failed>,
) -> Result<StepOutcome, Failed>
    ensures { result ≡ came_to copying live followed }
{
    match followed {
        Ok(trap) => {
            let progress = if copying {
                Progress::Hidden
            } else if live {
                Progress::Visible
            } else {
                Progress::Ended
            };
            Ok(StepOutcome { progress, trap })
        }
        Err(failed) => Err(failed),
    }
}

/// A step of the library has come to this, with the trap that it raised, if it raised one.
fn came_with(
    answer: Result<Progress, Failed>,
    trap: Option<TrapLine>,
) -> Result<StepOutcome, Failed>
    ensures answer { step_progress result ≡ answer }
    ensures trap { IfOk result (λ stepped. stepped.trap ≡ trap) }
{
    match answer {
        Ok(progress) => Ok(StepOutcome { progress, trap }),
        Err(failed) => Err(failed),
    }
}

/// The address of the buffer, or of the path, that a service is given; 0 where it is given none.
fn buffer_of(service: Service) -> u32
    ensures { result ≡ buffer_of service }
{
    match service {
        Service::Read { va, .. } | Service::Write { va, .. } | Service::Stat { va, .. } => va,
        Service::OpenFile { path, .. } | Service::Remove { path } | Service::Spawn { path, .. } =>
            path,
        _ => 0,
    }
}

/// Whether a service that moves bytes puts them into its buffer.
fn writes_buffer(service: Service) -> bool
    ensures { result ≡ writes_buffer service }
{
    !matches!(
        service,
        Service::OpenFile { .. }
            | Service::Write { .. }
            | Service::Remove { .. }
            | Service::Spawn { .. }
    )
}

impl Served {
    /// Whether the environment waits for its turn.
    fn is_runnable(&self) -> bool
        ensures { result ≡ is_runnable (slot_at (kernel_state self.now) self.now.slot).status }
    {
        matches!(
            self.machine.system().environment(self.slot).status,
            Status::Runnable
        )
    }

    /// Whether it is its turn.
    fn is_running(&self) -> bool
        ensures { result ≡ is_running (slot_at (kernel_state self.now) self.now.slot).status }
    {
        self.is_running_in(self.slot)
    }

    /// Whether the environment may have steps.
    pub fn is_awake(&self) -> bool
        ensures { result ≡ is_awake (slot_at (kernel_state self.now) self.now.slot).status }
    {
        self.is_runnable() || self.is_running()
    }

    /// Whether the environment is the file server.
    pub(crate) fn is_server(&self) -> bool
        ensures { result ≡ is_servers (kernel_state self.now) self.now.slot }
    {
        matches!(
            self.machine.system().environment(self.slot).env_type,
            EnvType::FileServer
        )
    }

    /// Tells that the registers of the environment have 32 bits each. Nothing is done.
    #[inline(always)]
    fn keep_small(&self)
        requires { is_live (slot_at (kernel_state self.now) self.now.slot) ≡ true }
        ensures { AreSmall (slot_at (kernel_state self.now) self.now.slot).registers }
    {
        self.registers();
    }

    /// Whether what came of the program's instruction is that it was stopped by a page to be copied.
    fn is_copying(&self, event: Event) -> bool
        requires { is_live (slot_at (kernel_state self.now) self.now.slot) ≡ true }
        ensures { result ≡ is_copying (kernel_state self.now) self.now.slot event }
    {
        match event {
            Event::Raised { trap, error, va } => {
                trap == T_PGFLT && (error & FEC_WR == FEC_WR && self.waits_to_be_copied(va))
            }
            Event::Next | Event::Soft(_) => false,
        }
    }

    /// Whether the page of an address waits to be copied.
    #[tactic(auto, unfolding(lib_os::specs::Rows::rows_of))]
    fn waits_to_be_copied(&self, va: u32) -> bool
        requires { is_live (slot_at (kernel_state self.now) self.now.slot) ≡ true }
        ensures { result ≡ is_to_copy (rows_of (kernel_state self.now).spaces (slot_at (kernel_state self.now) self.now.slot).directory (page_number va)) }
    {
        let system = self.machine.system();
        match system.page_perm(system.space(self.slot), va) {
            Some(perm) => perm.0 & PTE_SYSCALL & PTE_COW == PTE_COW,
            None => false,
        }
    }

    /// The trap that a step of the handler of page faults raises, if it raises one.
    fn raised_again(&self, step: HandlerStep) -> Option<TrapLine>
        ensures { result ≡ raised_again (kernel_state self.now) self.now.slot step }
    {
        match step {
            HandlerStep::Touching { va, error, ip } => Some(TrapLine {
                id: self.machine.system().environment(self.slot).id.0,
                trap: T_PGFLT,
                error,
                va,
                ip,
            }),
            _ => None,
        }
    }

    /// Whether a page is there at an address.
    #[tactic(auto, unfolding(lib_os::specs::Rows::rows_of))]
    fn is_there(&self, va: u32) -> bool
        requires { is_live (slot_at (kernel_state self.now) self.now.slot) ≡ true }
        ensures { result ≡ is_some (entry_at (kernel_state self.now) self.now.slot va) }
    {
        let system = self.machine.system();
        system.page_perm(system.space(self.slot), va).is_some()
    }

    /// The page fault of an access by the service that the environment is in.
    fn fault_line(&self, error: u32, va: u32) -> TrapLine
        requires { is_live (slot_at (kernel_state self.now) self.now.slot) ≡ true }
        ensures { result ≡ fault_line (kernel_state self.now) self.now.slot error va }
    {
        TrapLine {
            id: self.machine.system().environment(self.slot).id.0,
            trap: T_PGFLT,
            error,
            va,
            ip: self.registers().eip,
        }
    }

    /// The page fault of spawn, where it can't load the byte at an address.
    fn unread_line(&self, va: u32) -> TrapLine
        requires { is_live (slot_at (kernel_state self.now) self.now.slot) ≡ true }
        ensures { result ≡ unread_line (kernel_state self.now) self.now.slot va }
    {
        let present = if self.is_there(va) { FEC_PR } else { 0 };
        self.fault_line(FEC_U + present, va)
    }

    /// The trap that spawn raises with what the program gives, if it raises one.
    fn raised_by_given(&self, service: Service, step: GivenStep) -> Option<TrapLine>
        requires { is_live (slot_at (kernel_state self.now) self.now.slot) ≡ true }
        ensures { result ≡ raised_by_given (kernel_state self.now) self.now.slot service step }
    {
        match (service, step) {
            (Service::Spawn { argv, .. }, GivenStep::AddressFaulting { index, done }) => {
                Some(self.unread_line(address_va(argv, index, done)))
            }
            (Service::Spawn { .. }, GivenStep::StringFaulting { address, done }) => {
                Some(self.unread_line(address.wrapping_add(done)))
            }
            _ => None,
        }
    }

    /// The trap that a step of a service raises, if it raises one.
    fn raised_by(&self, service: Service, step: Step) -> Option<TrapLine>
        requires { is_live (slot_at (kernel_state self.now) self.now.slot) ≡ true }
        ensures { result ≡ raised_by (kernel_state self.now) self.now.slot service step }
    {
        match step {
            Step::Delivering { done, .. } | Step::PuttingBytes { done, .. } => {
                let va = buffer_of(service).wrapping_add(done);
                if self.waits_to_be_copied(va) {
                    Some(self.fault_line(FEC_U + FEC_PR + FEC_WR, va))
                } else {
                    None
                }
            }
            Step::Faulting { done, .. } | Step::FileFaulting { done, .. } => {
                let va = buffer_of(service).wrapping_add(done);
                let present = if self.is_there(va) { FEC_PR } else { 0 };
                let write = if writes_buffer(service) { FEC_WR } else { 0 };
                Some(self.fault_line(FEC_U + present + write, va))
            }
            Step::Spawning {
                at: SpawnStep::Given { at },
            } => self.raised_by_given(service, at),
            _ => None,
        }
    }

    /// Makes instructions of the program: up to the first that raises or calls something, or that leaves the stack pointer
    /// among the library's stacks, and so many at most.
    fn run_program<H: Host>(&mut self, host: &mut H, decodings: &mut Decodings, limit: u32) -> Steps
        requires live { is_live (slot_at (kernel_state self.old) self.old.slot) ≡ true }
        requires awake { is_awake (slot_at (kernel_state self.old) self.old.slot).status ≡ true }
        requires user { is_servers (kernel_state self.old) self.old.slot ≡ false }
        requires at { place_of (slot_at (kernel_state self.old) self.old.slot) ≡ place.Guest }
        requires limit { 0 < limit }
        ensures made { MakesSteps self.old.slot result.going result.last (world_of (kernel_state self.old) (H.files host.old) self.old.disk) (world_of (kernel_state self.new) (H.files host.new) self.new.disk) (output H.console (λ s. s.written) (from_to host.old host.new) (from_to self.old self.new)) }
        ensures within { result.going < limit }
        ensures slot { self.new.slot ≡ self.old.slot }
        ensures calls { self.new.calls ≡ self.old.calls }
        ensures disk { self.new.disk ≡ self.old.disk }
        ensures rest { Unchanged H.files H.input H.asked H.notes host.old host.new }
        ensures cause { HasCause (H.faults host.old) (H.faults host.new) result.last }
    {
        let mut registers = self.registers();
        self.machine.load(self.slot, registers.eip);
        let burst = make_burst(
            decodings,
            &mut registers,
            &mut self.machine,
            Gates::Run,
            limit,
        );
        self.machine.set_registers(self.slot, registers);
        self.keep_small();
        let copying = self.is_copying(burst.event);
        let followed = self.follow_guest(host, burst.ip, burst.event);
        self.keep_in_order();
        Steps {
            going: burst.steps - 1,
            last: came_to(copying, self.is_live(), followed),
        }
    }

    /// Makes steps of the environment that is served: instructions of its program, so many at most, or one step of the
    /// service that it is in, or of its handler of page faults; or one step of the file server, which may read or write a
    /// block of the disk.
    ///
    /// # Errors
    /// A call of the host failed, while the last step wrote to the console or moved a block.
    pub fn make_steps<H: Host>(
        &mut self,
        host: &mut H,
        decodings: &mut Decodings,
        limit: u32,
    ) -> Steps
        requires live { is_live (slot_at (kernel_state self.old) self.old.slot) ≡ true }
        requires awake { is_awake (slot_at (kernel_state self.old) self.old.slot).status ≡ true }
        requires few { self.old.calls < 2 ^ 32 - 1 }
        requires limit { 0 < limit }
        requires whole { HasBlocks (H.files host.old) self.old.disk }
        ensures made { MakesSteps self.old.slot result.going result.last (world_of (kernel_state self.old) (H.files host.old) self.old.disk) (world_of (kernel_state self.new) (H.files host.new) self.new.disk) (output H.console (λ s. s.written) (from_to host.old host.new) (from_to self.old self.new)) }
        ensures within { result.going < limit }
        ensures slot { self.new.slot ≡ self.old.slot }
        ensures calls { self.new.calls ≤ self.old.calls + 1 }
        ensures disk { self.new.disk ≡ self.old.disk }
        ensures disk_only { TouchesDisk self.old.disk (around H.files host.old host.new) (around H.asked host.old host.new) }
        ensures whole { OnOk result.last (HasBlocks (H.files host.new) self.new.disk) }
        ensures input { H.input host.new ≡ H.input host.old }
        ensures notes { H.notes host.new ≡ H.notes host.old }
        ensures cause { HasCause (H.faults host.old) (H.faults host.new) result.last }
    {
        self.keep_words();
        if self.is_server() {
            let answer = server_step(self, host);
            return Steps {
                going: 0,
                last: came_with(answer, None),
            };
        }
        let registers = self.registers();
        let words = self.extra();
        match find_place(&registers, &words) {
            Place::Guest => self.run_program(host, decodings, limit),
            Place::InService { service, step } => {
                self.keep_small();
                let trap = self.raised_by(service, step);
                let answer = drive(&stage_of(service, step), self, host);
                Steps {
                    going: 0,
                    last: came_with(answer, trap),
                }
            }
            Place::InHandler { step } => {
                let trap = self.raised_again(step);
                let handled = drive(&PageFaultHandler { step }, self, host);
                Steps {
                    going: 0,
                    last: came_with(handled, trap),
                }
            }
        }
    }
}

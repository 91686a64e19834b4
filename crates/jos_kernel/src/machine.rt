//! The machine: the system with the console's input, and the memory of the environment that runs.

ghost use Rattle.std.specs.Prelude.{◌≡◌, ◌≢◌, ◌==◌, ◌<◌, ◌≤◌, ◌-◌, ◌^◌, Bool, None, Some, Ok, Err, IfOk, IfErr, OnOk, OnErr, is_ok, true, false, not, length};
ghost use Rattle.std.specs.Option.{ForSome};
ghost use Rattle.std.specs.Result.{result_err};
ghost use Rattle.jos_host.specs.Told.{HasCause};
ghost use Rattle.jos_host.specs.Frames.{Unchanged, around};
ghost use Rattle.jos_base.specs.declared.called.Called.TheVariants.{Ended};
ghost use Rattle.jos_base.specs.declared.memory.Access.TheVariants.{Write};
ghost use Rattle.jos_base.specs.declared.numbers.TheConstants.{NENV, CPUTS_MAX, SYS_CPUTS};
ghost use Rattle.jos_base.specs.Environments.{is_live, is_running};
ghost use Rattle.jos_base.specs.KernelState.{KernelState, slot_at, with_registers, with_extra, with_spaces, turn_begun, turn_ended};
ghost use Rattle.jos_base.specs.SystemCalls.{handled, killed, system_call, user_bytes, with_bytes_reached, may_print};
ghost use Rattle.jos_base.specs.UserMemory.{is_allowed, fault_at, touched, stored_byte};
ghost use Rattle.jos_cpu.specs.Memory.{StandAt, probed};
ghost use Rattle.jos_envs.specs.Table.{any_live};
ghost use Rattle.jos_sys.specs.System.{state_of, left_of, Keeps, Does, IsFaulted, in_use};
ghost use Rattle.jos_kernel.specs.Machine.{kernel_state, loaded, running_of, KnowsCode, Follows, IsHanded};
ghost use Rattle.jos_kernel.specs.Running.{memory_inside, unloaded};
ghost use Rattle.jos_kernel.specs.Steps.{after_trap, after_event, is_handed};
ghost use Rattle.jos_kernel.specs.ExoRun.{current, next_slot};

use crate::fence::Fence;
use crate::trace::TrapLine;
use arrayvec::ArrayVec;
use jos_alu::Width;
use jos_base::{
    Access, Extra, FEC_U, FEC_WR, Line, PGSIZE, PageFault, Regs, Status, T_BRKPT, T_PGFLT,
    T_SYSCALL,
};
use jos_cpu::{Event, Mem, MemFault};
use jos_host::{Failed, Host};
use jos_sched::next;
use jos_space::{PageAtHand, Space};
use jos_sys::{BUFFER_LEN, CallAnswer, Faulted, Input, System};
use std::marker::{Model, PhantomData};

/// What comes of a step: how many bytes were written, and the trap that was raised, if one was.
#[derive(Clone, Copy)]
pub struct Followed {
    pub written: u32,
    pub trap: Option<TrapLine>,
}

/// The system, the console's input, and the space that the processor uses, where one is loaded; with a fence around what a
/// program may touch there.
#[derive(Drop)]
pub struct Machine<F: Fence> {
    system: System,
    input: Input,
    space: Option<Space>,
    /// The page at which the environment stood when its space was loaded, as long as it is known to be at hand.
    code: Option<PageAtHand>,
    fence: PhantomData<F>,
}

impl<F: Fence> Model for Machine<F> {
    ghost use Rattle.jos_kernel.specs.Machine.{Parts, Lawful};

    ghost Value = { Parts };

    ghost view = { λ m. record { system = m.system; input = m.input; space = m.space; code = m.code } };

    ghost invariant = { λ m. Lawful F.inside (record { system = m.system; input = m.input; space = m.space; code = m.code }) };
}

impl<F: Fence> Mem for Machine<F> {
    ghost use Rattle.jos_kernel.specs.Running.{Running, memory_inside};

    ghost State = { Running };

    ghost seen = { running_of };

    ghost table = { memory_inside F.inside };

    ghost stands = { F.stands };

    fn probe(&mut self, va: u32, len: u32, access: Access) -> Result<(), MemFault> {
        let space = match self.space {
            Some(space) => space,
            None => return probe_nothing::<F>(va, len, access),
        };
        self.code = None;
        let mut at = va;
        for _ in 0..len {
            if !F::is_inside(at) {
                return Err(MemFault::Fence);
            }
            match self.system.reach(space, at, access) {
                Ok(()) => {}
                Err(fault) => return Err(MemFault::Page(fault)),
            }
            at = at.wrapping_add(1);
        }
        Ok(())
    }

    #[tactic(auto, unfolding(crate::specs::Running::user_memory))]
    fn get(&self, va: u32) -> u8 {
        match self.space {
            Some(space) => self.system.byte_at(space, va),
            None => 0,
        }
    }

    #[inline(always)]
    fn may_stand(&self, esp: u32) -> bool {
        F::may_stand(esp)
    }

    #[inline(always)]
    fn window(&self, va: u32) -> &[u8] {
        if let Some(page) = self.code {
            if page.number == va / PGSIZE {
                return self.system.bytes_by(page, va);
            }
        }
        self.walked(va)
    }

    #[inline(always)]
    fn get_at_hand(&self, width: Width, va: u32) -> Option<u32> {
        match (width, self.walked(va)) {
            (Width::Bits8, [a, ..]) => Some(*a as u32),
            (Width::Bits16, [a, b, ..]) => Some(u16::from_le_bytes([*a, *b]) as u32),
            (Width::Bits32, [a, b, c, d, ..]) => Some(u32::from_le_bytes([*a, *b, *c, *d])),
            _ => None,
        }
    }

    #[inline(always)]
    fn put_at_hand(&mut self, width: Width, va: u32, value: u32) -> bool {
        if !F::is_inside(va) {
            return false;
        }
        match self.space {
            Some(space) => match width {
                Width::Bits8 => self.system.put_byte(space, va, (value % 256) as u8),
                Width::Bits16 => false,
                Width::Bits32 => self.system.put_word(space, va, value),
            },
            None => false,
        }
    }

    #[tactic(auto, unfolding(crate::specs::Running::user_memory))]
    fn set(&mut self, va: u32, byte: u8) {
        if let Some(space) = self.space {
            self.code = None;
            self.system.store_byte(space, va, byte);
        }
    }

    ghost use Rattle.jos_kernel.specs.MemoryProofs.{memory_inside_is_lawful};

    ghost lawful = { memory_inside_is_lawful F.inside };
}

/// The fault of the first of so many bytes where no page is, if there is one.
#[cold]
fn probe_nothing<F: Fence>(va: u32, len: u32, access: Access) -> Result<(), MemFault>
    ensures after { (s : KernelState) → probed (memory_inside F.inside) (unloaded s) va len access ≡ record { memory = unloaded s; refusal = result_err result } }
    ensures none { is_ok result ≡ (len == 0) }
{
    if len == 0 {
        return Ok(());
    }
    if !F::is_inside(va) {
        return Err(MemFault::Fence);
    }
    match access {
        Access::Read => Err(MemFault::Page(PageFault { va, error: FEC_U })),
        Access::Write => Err(MemFault::Page(PageFault {
            va,
            error: FEC_U | FEC_WR,
        })),
    }
}

impl<F: Fence> Machine<F> {
    /// The bytes from an address on that stand, as a walk finds them: for data, which seldom lie where the code does.
    #[inline(always)]
    fn walked(&self, va: u32) -> &[u8]
        ensures { StandAt (memory_inside F.inside) (running_of self.now) va result.now }
    {
        if !F::is_inside(va) {
            return &[];
        }
        match self.space {
            Some(space) => self.system.user_bytes(space, va),
            None => &[],
        }
    }

    /// The page of an address in a space, where a program may touch it and it is at hand.
    #[inline(always)]
    fn page_inside(&self, space: Space, va: u32) -> Option<PageAtHand>
        requires { in_use self.now.system space.directory.0 ≡ true }
        ensures { KnowsCode F.inside self.now.system (Some space) result }
    {
        if F::is_inside(va) {
            self.system.page_at_hand(space, va)
        } else {
            None
        }
    }

    /// A machine that has loaded no space yet.
    pub fn new(system: System, input: Input) -> Machine<F>
        requires { Keeps system }
        ensures state { kernel_state result ≡ state_of system (left_of input) }
        ensures loaded { loaded result ≡ None }
    {
        Machine {
            system,
            input,
            space: None,
            code: None,
            fence: PhantomData,
        }
    }

    /// The system and the input.
    pub fn into_parts(self) -> (System, Input)
        ensures keeps { Keeps result.0 }
        ensures state { state_of result.0 (left_of result.1) ≡ kernel_state self }
    {
        (self.system, self.input)
    }

    /// The system.
    #[inline(always)]
    pub fn system(&self) -> &System
        ensures system { result.now ≡ self.now.system }
        ensures keeps { Keeps result.now }
    {
        &self.system
    }

    /// Loads the space of an environment that stands at an address.
    #[inline(always)]
    pub fn load(&mut self, slot: usize, eip: u32)
        requires { is_live (slot_at (kernel_state self.old) slot) ≡ true }
        ensures state { kernel_state self.new ≡ kernel_state self.old }
        ensures loaded { loaded self.new ≡ Some (slot_at (kernel_state self.old) slot).directory }
    {
        let space = self.system.space(slot);
        self.code = self.page_inside(space, eip);
        self.space = Some(space);
    }

    /// Loads no space.
    #[inline(always)]
    pub fn unload(&mut self)
        ensures state { kernel_state self.new ≡ kernel_state self.old }
        ensures loaded { loaded self.new ≡ None }
    {
        self.space = None;
        self.code = None;
    }

    /// The registers of an environment.
    #[inline(always)]
    pub fn registers(&self, slot: usize) -> Regs
        requires { is_live (slot_at (kernel_state self.now) slot) ≡ true }
        ensures { result ≡ (slot_at (kernel_state self.now) slot).registers }
    {
        self.system.registers(slot)
    }

    /// The slot that had the last turn.
    #[inline(always)]
    pub fn current(&self) -> usize
        ensures { result ≡ current (kernel_state self.now) }
    {
        self.system.last().unwrap_or(0)
    }

    /// Whether no environment is live.
    pub fn is_unused(&self) -> bool
        ensures { result ≡ not (any_live (kernel_state self.now).environments) }
    {
        self.system.table().is_unused()
    }

    /// The slot that gets the next turn.
    pub fn next_slot(&self) -> Option<usize>
        requires { ForSome (kernel_state self.now).last (λ n. n < NENV) }
        ensures { result ≡ next_slot (kernel_state self.now) }
    {
        next(self.system.table(), self.system.last())
    }

    /// Whether the environment of a slot is in its turn.
    #[inline(always)]
    pub fn is_running(&self, slot: usize) -> bool
        requires { slot < NENV }
        ensures { result ≡ is_running (slot_at (kernel_state self.now) slot).status }
    {
        matches!(self.system.environment(slot).status, Status::Running)
    }

    /// How many page faults were handed to their handlers.
    pub fn upcalls(&self) -> u64
        ensures { result ≡ (kernel_state self.now).upcalls }
    {
        self.system.upcalls()
    }

    /// How often frames or slots were asked for and there was none.
    #[inline(always)]
    pub fn refused(&self) -> u64
        ensures { result ≡ (kernel_state self.now).refusals }
    {
        self.system.refused()
    }

    /// Begins a turn of an environment.
    pub fn begin_turn(&mut self, slot: usize)
        requires live { is_live (slot_at (kernel_state self.old) slot) ≡ true }
        requires turns { (kernel_state self.old).turns < 2 ^ 32 - 1 }
        ensures { kernel_state self.new ≡ turn_begun (kernel_state self.old) slot }
    {
        self.system.begin_turn(slot);
    }

    /// Ends a turn: an environment that is running waits for the next.
    pub fn end_turn(&mut self, slot: usize)
        requires { slot < NENV }
        ensures { kernel_state self.new ≡ turn_ended (kernel_state self.old) slot }
    {
        self.system.end_turn(slot);
    }

    /// Sets the registers of an environment.
    #[inline(always)]
    pub fn set_registers(&mut self, slot: usize, registers: Regs)
        requires { is_live (slot_at (kernel_state self.old) slot) ≡ true }
        ensures { kernel_state self.new ≡ with_registers (kernel_state self.old) slot registers }
    {
        self.system.set_registers(slot, registers);
    }

    /// Sets what an environment keeps for a library outside of the kernel.
    pub fn set_extra(&mut self, slot: usize, extra: Extra)
        requires { is_live (slot_at (kernel_state self.old) slot) ≡ true }
        ensures { kernel_state self.new ≡ with_extra (kernel_state self.old) slot extra.0 }
    {
        self.system.set_extra(slot, extra);
    }

    /// Reaches for a byte as an environment does, and sets the bits of what it reaches.
    pub fn reach(&mut self, slot: usize, va: u32, access: Access) -> Result<(), PageFault>
        requires { is_live (slot_at (kernel_state self.old) slot) ≡ true }
        ensures allowed { is_ok result ≡ is_allowed (kernel_state self.old).spaces (slot_at (kernel_state self.old) slot).directory va access }
        ensures fault { IfErr result (λ fault. fault ≡ fault_at (kernel_state self.old).spaces (slot_at (kernel_state self.old) slot).directory va access) }
        ensures state { kernel_state self.new ≡ with_spaces (kernel_state self.old) (touched (kernel_state self.old).spaces (slot_at (kernel_state self.old) slot).directory va access) }
    {
        let space = self.system.space(slot);
        self.code = None;
        self.system.reach(space, va, access)
    }

    /// Puts a byte at an address where an environment may write. It sets no bit.
    pub fn store_byte(&mut self, slot: usize, va: u32, byte: u8)
        requires live { is_live (slot_at (kernel_state self.old) slot) ≡ true }
        requires allowed { is_allowed (kernel_state self.old).spaces (slot_at (kernel_state self.old) slot).directory va Write ≡ true }
        ensures { kernel_state self.new ≡ with_spaces (kernel_state self.old) (stored_byte (kernel_state self.old).spaces (slot_at (kernel_state self.old) slot).directory va byte) }
    {
        let space = self.system.space(slot);
        self.code = None;
        self.system.store_byte(space, va, byte);
    }

    /// The bytes at an address as an environment reads them, which sets the bits of what is reached. Where one of them can't
    /// be read, nothing is set, and its fault is the result.
    pub fn read_user(
        &mut self,
        slot: usize,
        va: u32,
        len: u32,
    ) -> Result<ArrayVec<u8, BUFFER_LEN>, PageFault>
        requires live { is_live (slot_at (kernel_state self.old) slot) ≡ true }
        requires len { len ≤ CPUTS_MAX }
        ensures ok { IfOk result (λ bytes. user_bytes (kernel_state self.old) slot va len ≡ Ok bytes.items) }
        ensures len { IfOk result (λ bytes. length bytes.items ≡ len) }
        ensures reached { OnOk result (kernel_state self.new ≡ with_bytes_reached (kernel_state self.old) slot va len) }
        ensures err { IfErr result (λ fault. user_bytes (kernel_state self.old) slot va len ≡ Err fault) }
        ensures stays { OnErr result (kernel_state self.new ≡ kernel_state self.old) }
    {
        self.space = None;
        self.code = None;
        self.system.read_user(slot, va, len)
    }

    /// Hands a page fault of an environment to its handler. No space is loaded then.
    pub fn fault(&mut self, slot: usize, fault: PageFault) -> Faulted
        requires { is_live (slot_at (kernel_state self.old) slot) ≡ true }
        ensures told { IsFaulted result (handled (kernel_state self.old) slot fault) (kernel_state self.old) (kernel_state self.new) }
        ensures live { is_live (slot_at (kernel_state self.new) slot) ≡ true }
    {
        self.space = None;
        self.code = None;
        self.system.fault(slot, fault)
    }

    /// Destroys an environment, with a line on the console. No space is loaded then.
    pub fn kill<H: Host>(
        &mut self,
        host: &mut H,
        slot: usize,
        line: Line,
    ) -> Result<CallAnswer, Failed>
        requires { is_live (slot_at (kernel_state self.old) slot) ≡ true }
        ensures told { Does result (killed (kernel_state self.old) slot line) (kernel_state self.new) (around H.console host.old host.new) }
        ensures small { IfOk result (λ answer. answer.written ≤ CPUTS_MAX) }
        ensures rest { Unchanged H.files H.input H.asked H.notes host.old host.new }
        ensures cause { HasCause (H.faults host.old) (H.faults host.new) result }
    {
        self.space = None;
        self.code = None;
        self.system.kill(host, slot, line)
    }

    /// Makes the system call that the registers of an environment ask for. No space is loaded then.
    pub fn call<H: Host>(&mut self, host: &mut H, slot: usize) -> Result<CallAnswer, Failed>
        requires { is_live (slot_at (kernel_state self.old) slot) ≡ true }
        ensures told { Does result (system_call (kernel_state self.old) slot) (kernel_state self.new) (around H.console host.old host.new) }
        ensures small { IfOk result (λ answer. answer.written ≤ CPUTS_MAX) }
        ensures fails { OnErr result (may_print (slot_at (kernel_state self.old) slot).registers.eax ≡ true) }
        ensures ended { OnErr result ((slot_at (kernel_state self.old) slot).registers.eax ≢ SYS_CPUTS → (system_call (kernel_state self.old) slot).called ≡ Ended) }
        ensures rest { Unchanged H.files H.input H.asked H.notes host.old host.new }
        ensures cause { HasCause (H.faults host.old) (H.faults host.new) result }
    {
        self.space = None;
        self.code = None;
        self.system.call(host, &mut self.input, slot)
    }

    /// Hands a page fault of the instruction at an address to its handler. Where there is none, or no room for its frame,
    /// the result is the line of its environment's end.
    fn hand_fault(&mut self, slot: usize, fault: PageFault, ip: u32) -> Option<Line>
        requires { is_live (slot_at (kernel_state self.old) slot) ≡ true }
        ensures told { IsHanded result (handled (kernel_state self.old) slot fault) fault.va ip (kernel_state self.old) (kernel_state self.new) }
        ensures live { is_live (slot_at (kernel_state self.new) slot) ≡ true }
    {
        match self.fault(slot, fault) {
            Faulted::Upcall => None,
            Faulted::Killed => Some(Line::UserFault { va: fault.va, ip }),
        }
    }

    /// Does what comes of a trap, given by its number, error code and address, at an address: a page fault may have a handler,
    /// and any other trap ends the environment with its line. No space is loaded then.
    #[cold]
    #[inline(never)]
    pub fn follow_trap<H: Host>(
        &mut self,
        host: &mut H,
        slot: usize,
        trap: u8,
        error: u32,
        va: u32,
        ip: u32,
    ) -> Result<Followed, Failed>
        requires { is_live (slot_at (kernel_state self.old) slot) ≡ true }
        ensures told { Follows result (after_trap (kernel_state self.old) slot trap error va ip) (kernel_state self.new) (around H.console host.old host.new) }
        ensures ended { OnErr result (is_handed (kernel_state self.old) slot trap error va ≡ false) }
        ensures small { IfOk result (λ followed. followed.written ≤ CPUTS_MAX) }
        ensures rest { Unchanged H.files H.input H.asked H.notes host.old host.new }
        ensures cause { HasCause (H.faults host.old) (H.faults host.new) result }
    {
        let environment = self.system.environment(slot);
        let raised = Some(TrapLine {
            id: environment.id.0,
            trap,
            error,
            va,
            ip,
        });
        let line = if trap == T_PGFLT {
            match self.hand_fault(slot, PageFault { va, error }, environment.registers.eip) {
                None => {
                    return Ok(Followed {
                        written: 0,
                        trap: raised,
                    });
                }
                Some(line) => line,
            }
        } else {
            Line::Trap { trap, error, ip }
        };
        match self.kill(host, slot, line) {
            Ok(answer) => Ok(Followed {
                written: answer.written,
                trap: raised,
            }),
            Err(failed) => Err(failed),
        }
    }

    /// Does what comes of an instruction of the environment in a slot, which has left these registers: the system call
    /// or the trap that it raised. No space is loaded then.
    #[inline(always)]
    pub(crate) fn follow<H: Host>(
        &mut self,
        host: &mut H,
        slot: usize,
        registers: Regs,
        event: Event,
    ) -> Result<Followed, Failed>
        requires live { is_live (slot_at (kernel_state self.old) slot) ≡ true }
        ensures told { Follows result (after_event (with_registers (kernel_state self.old) slot registers) slot event) (kernel_state self.new) (around H.console host.old host.new) }
        ensures small { IfOk result (λ followed. followed.written ≤ CPUTS_MAX) }
        ensures rest { Unchanged H.files H.input H.asked H.notes host.old host.new }
        ensures cause { HasCause (H.faults host.old) (H.faults host.new) result }
    {
        self.unload();
        self.set_registers(slot, registers);
        match event {
            Event::Next => Ok(Followed {
                written: 0,
                trap: None,
            }),
            Event::Soft(vector) => {
                if vector == T_SYSCALL {
                    match self.call(host, slot) {
                        Ok(answer) => Ok(Followed {
                            written: answer.written,
                            trap: None,
                        }),
                        Err(failed) => Err(failed),
                    }
                } else {
                    self.follow_trap(host, slot, T_BRKPT, 0, 0, registers.eip)
                }
            }
            Event::Raised { trap, error, va } => {
                self.follow_trap(host, slot, trap, error, va, registers.eip)
            }
        }
    }
}

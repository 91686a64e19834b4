//! The system calls, and the ends of an environment.

ghost use Rattle.std.specs.Prelude.{◌≡◌, ◌≢◌, ℕ, ◌≤◌, List, Ok, Err, MatchResult, IfOk, IfErr, OnOk, OnErr, IfSome, true, length};
ghost use Rattle.jos_host.specs.Told.{HasCause};
ghost use Rattle.jos_host.specs.Frames.{Unchanged, around};
ghost use Rattle.jos_base.specs.declared.called.Called.TheVariants.{Ended};
ghost use Rattle.jos_base.specs.declared.environment.Status.TheVariants.{Free};
ghost use Rattle.jos_base.specs.Reach.{bytes_read};
ghost use Rattle.jos_base.specs.SpacesState.{directories};
ghost use Rattle.jos_base.specs.UserMemory.{all_touched, read_byte};
ghost use Rattle.jos_base.specs.Environments.{found};
ghost use Rattle.jos_base.specs.KernelState.{slot_at};
ghost use Rattle.jos_base.specs.SystemCalls.{answered, refused, killed, cputs, status_named, env_destroy_of, exofork};
ghost use Rattle.jos_base.specs.SystemCalls.{env_set_status_of, env_set_trapframe_of, env_set_pgfault_upcall_of, system_call};
ghost use Rattle.jos_base.specs.SystemCalls.{user_bytes, with_bytes_reached, may_print};
ghost use Rattle.jos_space.specs.Frames.{state, records};
ghost use Rattle.jos_sys.specs.System.{state_of, environments_of, left_of, Keeps, is_live_in, Does, IsDone};

use crate::input::Input;
use crate::pages::PageOf;
use crate::system::{CallAnswer, System};
use arrayvec::ArrayVec;
use jos_base::{
    Access, CPUTS_MAX, Called, ENV_NOT_RUNNABLE, ENV_RUNNABLE, EnvId, Errno, Line, PageFault, Regs,
    SYS_CGETC, SYS_CPUTS, SYS_ENV_DESTROY, SYS_ENV_SET_PGFAULT_UPCALL, SYS_ENV_SET_STATUS,
    SYS_ENV_SET_TRAPFRAME, SYS_EXOFORK, SYS_GETENVID, SYS_IPC_RECV, SYS_IPC_TRY_SEND,
    SYS_PAGE_ALLOC, SYS_PAGE_MAP, SYS_PAGE_UNMAP, SYS_YIELD, Status, line_text,
};
use jos_host::{Failed, Host};
use jos_space::{Space, Spaces};
use jos_trap::{RECORD_SIZE, from_record, words_of_record};

/// The room for the bytes of one `cputs`.
pub const BUFFER_LEN: usize = CPUTS_MAX as usize;

/// The bytes at `len` addresses from `va` on, or the fault of the first that can't be read. Nothing is set.
fn read_bytes(
    spaces: &Spaces,
    space: Space,
    va: u32,
    len: u32,
) -> Result<ArrayVec<u8, BUFFER_LEN>, PageFault>
    requires space { directories (state spaces.now) space.directory.0 ≡ true }
    requires len { len ≤ CPUTS_MAX }
    ensures read { MatchResult result
        (λ bytes. bytes_read (read_byte (records spaces.now) (state spaces.now) space.directory.0) va len ≡ Ok bytes.items)
        (λ fault. bytes_read (read_byte (records spaces.now) (state spaces.now) space.directory.0) va len ≡ Err fault) }
    ensures len { IfOk result (λ bytes. length bytes.items ≡ len) }
{
    let mut bytes = ArrayVec::new();
    let mut at = va;
    for _ in 0..len {
        match spaces.read(space, at) {
            Ok(byte) => bytes.push(byte),
            Err(fault) => return Err(fault),
        }
        at = at.wrapping_add(1);
    }
    Ok(bytes)
}

/// Reaches for so many bytes from an address on, which may be read.
fn touch_all(spaces: &mut Spaces, space: Space, va: u32, len: u32)
    requires space { directories (state spaces.old) space.directory.0 ≡ true }
    ensures state { state spaces.new ≡ all_touched (state spaces.old) space.directory.0 va len }
    ensures directories { directories (state spaces.new) ≡ directories (state spaces.old) }
    ensures records { records spaces.new ≡ records spaces.old }
{
    let mut at = va;
    for _ in 0..len {
        let _ = spaces.access(space, at, Access::Read);
        at = at.wrapping_add(1);
    }
}

/// The status that a number names.
fn status_named(number: u32) -> Option<Status>
    ensures { result ≡ status_named number }
{
    match number {
        ENV_RUNNABLE => Some(Status::Runnable),
        ENV_NOT_RUNNABLE => Some(Status::NotRunnable),
        _ => None,
    }
}

impl System {
    /// Answers a system call.
    pub(crate) fn answer(&mut self, current: usize, value: u32) -> CallAnswer
        requires live { is_live_in self.old current ≡ true }
        requires spaces { Keeps self.old }
        ensures state { (input : List ℕ) → IsDone result (answered (state_of self.old input) current value) (state_of self.new input) }
        ensures spaces { Keeps self.new }
    {
        let registers = self.registers(current);
        self.set_registers(
            current,
            Regs {
                eax: value,
                ..registers
            },
        );
        CallAnswer {
            called: Called::Answered(value),
            written: 0,
        }
    }

    /// Refuses a system call.
    pub(crate) fn refuse(&mut self, current: usize, error: Errno) -> CallAnswer
        requires live { is_live_in self.old current ≡ true }
        requires spaces { Keeps self.old }
        ensures state { (input : List ℕ) → IsDone result (refused (state_of self.old input) current error) (state_of self.new input) }
        ensures spaces { Keeps self.new }
    {
        self.answer(current, u32::MAX - error.code() + 1)
    }

    /// Destroys an environment, and writes the line that tells why.
    #[cold]
    #[inline(never)]
    pub fn kill<H: Host>(
        &mut self,
        host: &mut H,
        current: usize,
        line: Line,
    ) -> Result<CallAnswer, Failed>
        requires live { is_live_in self.old current ≡ true }
        requires spaces { Keeps self.old }
        ensures told { (input : List ℕ) → Does result (killed (state_of self.old input) current line) (state_of self.new input) (around H.console host.old host.new) }
        ensures small { IfOk result (λ answer. answer.written ≤ CPUTS_MAX) }
        ensures spaces { Keeps self.new }
        ensures rest { Unchanged H.files H.input H.asked H.notes host.old host.new }
        ensures cause { HasCause (H.faults host.old) (H.faults host.new) result }
    {
        let text = line_text(self.environment(current).id, line);
        self.destroy(current);
        match host.console_write(text.as_slice()) {
            Ok(()) => Ok(CallAnswer {
                called: Called::Ended,
                written: text.len() as u32,
            }),
            Err(failed) => Err(failed),
        }
    }

    /// The bytes at an address as an environment reads them, which sets the bits of what is reached. Where one of them can't
    /// be read, nothing is set, and its fault is the result.
    pub fn read_user(
        &mut self,
        current: usize,
        va: u32,
        len: u32,
    ) -> Result<ArrayVec<u8, BUFFER_LEN>, PageFault>
        requires live { is_live_in self.old current ≡ true }
        requires spaces { Keeps self.old }
        requires len { len ≤ CPUTS_MAX }
        ensures ok { IfOk result (λ bytes. (input : List ℕ) → user_bytes (state_of self.old input) current va len ≡ Ok bytes.items) }
        ensures len { IfOk result (λ bytes. length bytes.items ≡ len) }
        ensures reached { OnOk result ((input : List ℕ) → state_of self.new input ≡ with_bytes_reached (state_of self.old input) current va len) }
        ensures err { IfErr result (λ fault. (input : List ℕ) → user_bytes (state_of self.old input) current va len ≡ Err fault) }
        ensures stays { OnErr result (self.new ≡ self.old) }
        ensures live { environments_of self.new ≡ environments_of self.old }
        ensures spaces { Keeps self.new }
    {
        let space = self.space(current);
        match read_bytes(&self.spaces, space, va, len) {
            Ok(bytes) => {
                touch_all(&mut self.spaces, space, va, len);
                Ok(bytes)
            }
            Err(fault) => Err(fault),
        }
    }

    /// Writes the bytes at an address to the console.
    fn cputs<H: Host>(
        &mut self,
        host: &mut H,
        current: usize,
        va: u32,
        len: u32,
    ) -> Result<CallAnswer, Failed>
        requires live { is_live_in self.old current ≡ true }
        requires spaces { Keeps self.old }
        ensures told { (input : List ℕ) → Does result (cputs (state_of self.old input) current va len) (state_of self.new input) (around H.console host.old host.new) }
        ensures small { IfOk result (λ answer. answer.written ≤ CPUTS_MAX) }
        ensures spaces { Keeps self.new }
        ensures rest { Unchanged H.files H.input H.asked H.notes host.old host.new }
        ensures cause { HasCause (H.faults host.old) (H.faults host.new) result }
    {
        if len > CPUTS_MAX {
            return Ok(self.refuse(current, Errno::Invalid));
        }
        match self.read_user(current, va, len) {
            Ok(bytes) => {
                let answer = self.answer(current, 0);
                match host.console_write(bytes.as_slice()) {
                    Ok(()) => Ok(CallAnswer {
                        written: bytes.len() as u32,
                        ..answer
                    }),
                    Err(failed) => Err(failed),
                }
            }
            Err(fault) => self.kill(host, current, Line::UserMemCheck { va: fault.va }),
        }
    }

    /// Destroys the environment that an id names: the caller, or a child of its own.
    fn env_destroy(&mut self, current: usize, id: EnvId) -> CallAnswer
        requires live { is_live_in self.old current ≡ true }
        requires spaces { Keeps self.old }
        ensures state { (input : List ℕ) → IsDone result (env_destroy_of (state_of self.old input) current (found (state_of self.old input).environments id.0 current true)) (state_of self.new input) }
        ensures spaces { Keeps self.new }
    {
        match self.table.find(id, current, true) {
            Some(target) => {
                self.destroy(target);
                if target == current {
                    CallAnswer {
                        called: Called::Ended,
                        written: 0,
                    }
                } else {
                    self.answer(current, 0)
                }
            }
            None => self.refuse(current, Errno::BadEnv),
        }
    }

    /// Makes an environment with the caller's registers and no page.
    fn exofork(&mut self, current: usize) -> CallAnswer
        requires live { is_live_in self.old current ≡ true }
        requires spaces { Keeps self.old }
        ensures state { (input : List ℕ) → IsDone result (exofork (state_of self.old input) current) (state_of self.new input) }
        ensures spaces { Keeps self.new }
    {
        let parent = self.environment(current);
        match self.make_environment(parent.id) {
            Ok(child) => {
                self.set_registers(
                    child,
                    Regs {
                        eax: 0,
                        ..parent.registers
                    },
                );
                let id = self.environment(child).id;
                self.answer(current, id.0)
            }
            Err(error) => {
                self.refusals = self.refusals.saturating_add(1);
                self.refuse(current, error)
            }
        }
    }

    /// Sets whether an environment may run: the caller, or a child of its own.
    fn env_set_status(&mut self, current: usize, id: EnvId, status: Option<Status>) -> CallAnswer
        requires live { is_live_in self.old current ≡ true }
        requires spaces { Keeps self.old }
        requires status { IfSome status (λ s. s ≢ Free) }
        ensures state { (input : List ℕ) → IsDone result (env_set_status_of (state_of self.old input) current (found (state_of self.old input).environments id.0 current true) status) (state_of self.new input) }
        ensures spaces { Keeps self.new }
    {
        match (self.table.find(id, current, true), status) {
            (Some(target), Some(status)) => {
                self.set_status(target, status);
                self.answer(current, 0)
            }
            (Some(_), None) => self.refuse(current, Errno::Invalid),
            (None, _) => self.refuse(current, Errno::BadEnv),
        }
    }

    /// Sets the registers of the environment that an id names, the caller or a child of its own, from a record in the
    /// caller's memory.
    fn env_set_trapframe<H: Host>(
        &mut self,
        host: &mut H,
        current: usize,
        id: EnvId,
        va: u32,
    ) -> Result<CallAnswer, Failed>
        requires live { is_live_in self.old current ≡ true }
        requires spaces { Keeps self.old }
        ensures told { (input : List ℕ) → Does result (env_set_trapframe_of (state_of self.old input) current (found (state_of self.old input).environments id.0 current true) va) (state_of self.new input) (around H.console host.old host.new) }
        ensures small { IfOk result (λ answer. answer.written ≤ CPUTS_MAX) }
        ensures ended { OnErr result ((input : List ℕ) → (env_set_trapframe_of (state_of self.old input) current (found (state_of self.old input).environments id.0 current true) va).called ≡ Ended) }
        ensures spaces { Keeps self.new }
        ensures rest { Unchanged H.files H.input H.asked H.notes host.old host.new }
        ensures cause { HasCause (H.faults host.old) (H.faults host.new) result }
    {
        match self.table.find(id, current, true) {
            Some(target) => match self.read_user(current, va, RECORD_SIZE as u32) {
                Ok(bytes) => {
                    let registers = from_record(&words_of_record(bytes.as_slice()));
                    self.set_registers(target, registers);
                    Ok(self.answer(current, 0))
                }
                Err(fault) => self.kill(host, current, Line::UserMemCheck { va: fault.va }),
            },
            None => Ok(self.refuse(current, Errno::BadEnv)),
        }
    }

    /// Sets where the environment that an id names, the caller or a child of its own, handles its page faults.
    fn env_set_pgfault_upcall(&mut self, current: usize, id: EnvId, address: u32) -> CallAnswer
        requires live { is_live_in self.old current ≡ true }
        requires spaces { Keeps self.old }
        ensures state { (input : List ℕ) → IsDone result (env_set_pgfault_upcall_of (state_of self.old input) current (found (state_of self.old input).environments id.0 current true) address) (state_of self.new input) }
        ensures spaces { Keeps self.new }
    {
        match self.table.find(id, current, true) {
            Some(target) => {
                self.set_upcall(target, address);
                self.answer(current, 0)
            }
            None => self.refuse(current, Errno::BadEnv),
        }
    }

    /// Makes the system call that the registers of an environment name: its number stands in EAX, what it is given in
    /// EDX, ECX, EBX, EDI and ESI, and it is answered in EAX. (MIT 6.828, kern/syscall.c)
    ///
    /// # Errors
    /// The host failed, in a call that prints (`fails`): in cputs, or else in the line of the caller's end (`ended`).
    #[cold]
    #[inline(never)]
    pub fn call<H: Host>(
        &mut self,
        host: &mut H,
        input: &mut Input,
        current: usize,
    ) -> Result<CallAnswer, Failed>
        requires live { is_live_in self.old current ≡ true }
        requires spaces { Keeps self.old }
        ensures told { Does result (system_call (state_of self.old (left_of input.old)) current) (state_of self.new (left_of input.new)) (around H.console host.old host.new) }
        ensures small { IfOk result (λ answer. answer.written ≤ CPUTS_MAX) }
        ensures fails { OnErr result (may_print (slot_at (state_of self.old (left_of input.old)) current).registers.eax ≡ true) }
        ensures ended { OnErr result ((slot_at (state_of self.old (left_of input.old)) current).registers.eax ≢ SYS_CPUTS → (system_call (state_of self.old (left_of input.old)) current).called ≡ Ended) }
        ensures spaces { Keeps self.new }
        ensures rest { Unchanged H.files H.input H.asked H.notes host.old host.new }
        ensures cause { HasCause (H.faults host.old) (H.faults host.new) result }
    {
        let registers = self.registers(current);
        match registers.eax {
            SYS_CPUTS => self.cputs(host, current, registers.edx, registers.ecx),
            SYS_CGETC => {
                let byte = input.take();
                Ok(self.answer(current, byte))
            }
            SYS_GETENVID => {
                let id = self.environment(current).id;
                Ok(self.answer(current, id.0))
            }
            SYS_ENV_DESTROY => Ok(self.env_destroy(current, EnvId(registers.edx))),
            SYS_PAGE_ALLOC => {
                let id = EnvId(registers.edx);
                Ok(self.page_alloc(current, id, registers.ecx, registers.ebx))
            }
            SYS_PAGE_MAP => {
                let from = PageOf {
                    id: EnvId(registers.edx),
                    va: registers.ecx,
                };
                let to = PageOf {
                    id: EnvId(registers.ebx),
                    va: registers.edi,
                };
                Ok(self.page_map(current, from, to, registers.esi))
            }
            SYS_PAGE_UNMAP => Ok(self.page_unmap(current, EnvId(registers.edx), registers.ecx)),
            SYS_EXOFORK => Ok(self.exofork(current)),
            SYS_ENV_SET_STATUS => {
                let status = status_named(registers.ecx);
                Ok(self.env_set_status(current, EnvId(registers.edx), status))
            }
            SYS_ENV_SET_TRAPFRAME => {
                self.env_set_trapframe(host, current, EnvId(registers.edx), registers.ecx)
            }
            SYS_ENV_SET_PGFAULT_UPCALL => {
                let id = EnvId(registers.edx);
                Ok(self.env_set_pgfault_upcall(current, id, registers.ecx))
            }
            SYS_YIELD => {
                self.set_status(current, Status::Runnable);
                Ok(self.answer(current, 0))
            }
            SYS_IPC_TRY_SEND => {
                let id = EnvId(registers.edx);
                Ok(self.ipc_try_send(current, id, registers.ecx, registers.ebx, registers.edi))
            }
            SYS_IPC_RECV => Ok(self.ipc_recv(current, registers.edx, EnvId(registers.ecx))),
            _ => Ok(self.refuse(current, Errno::Invalid)),
        }
    }
}

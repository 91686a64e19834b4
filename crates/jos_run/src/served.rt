//! An environment that the library serves.

ghost use Rattle.std.specs.Prelude.{ℕ, get_or, ◌≡◌, ◌+◌, ◌-◌, ◌*◌, ◌%◌, ◌^◌, ◌<◌, min, [], length, true, false, IfOk, IfErr, OnOk, OnErr, option_copied};
ghost use Rattle.jos_host.specs.declared.host.HostCall.TheVariants as file_call;
ghost use Rattle.jos_host.specs.Asked.{and_asked};
ghost use Rattle.jos_host.specs.Frames.{Unchanged, around, from_to};
ghost use Rattle.jos_host.specs.Told.{HasCause, WritesAt};
ghost use Rattle.jos_base.specs.declared.memory.Access.TheVariants.{Write};
ghost use Rattle.jos_base.specs.declared.numbers.TheConstants.{NENV, UTRAPFRAME_WORDS};
ghost use Rattle.jos_base.specs.Environments.{is_live};
ghost use Rattle.jos_base.specs.KernelState.{slot_at, with_spaces};
ghost use Rattle.jos_base.specs.SystemCalls.{is_page_address};
ghost use Rattle.jos_base.specs.TrapFrames.{words_of_bytes};
ghost use Rattle.jos_base.specs.UserMemory.{is_allowed, fault_at, touched};
ghost use Rattle.jos_sys.specs.System.{state_of, left_of, Keeps};
ghost use Rattle.fs_layout.specs.declared.numbers.TheConstants.{BLKSIZE};
ghost use Rattle.lib_os.specs.Disk.{BlockCame, HasBlocks, no_disk};
ghost use Rattle.lib_os.specs.InOrder.{IsInOrder};
ghost use Rattle.lib_os.specs.UserCalls.{user_byte, user_word, with_user_byte, with_user_word, with_bytes_put};
ghost use Rattle.lib_os.specs.UserCalls.{asking, sets_own, taken_back, HasStopCause, Prints, output};
ghost use Rattle.lib_os.specs.UserCalls.{block_call, may_move, page_accessed, page_bytes};
ghost use Rattle.fs_seen.specs.ServerMemory.{HasWords};
ghost use Rattle.jos_run.specs.Served.{kernel_state, disk_of, serves_block, IsRaised};

use crate::disk::HostDisk;
use crate::fence::LibraryFence;
use byteorder::{ByteOrder, LittleEndian};
use fs_layout::BLKSIZE;
use jos_base::{
    Access, Called, E_INVAL, EnvId, EnvType, Extra, Line, NENV, PageFault, Regs,
    SYS_ENV_SET_TRAPFRAME, UTRAPFRAME_WORDS,
};
use jos_host::{Failed, Host};
use jos_kernel::Machine;
use jos_sys::{Faulted, Input, System};
use jos_trap::{FRAME_SIZE, from_frame};
use lib_os::{Stop, UserOs};
use std::marker::Model;

/// The machine, an environment of it that the library serves, how many calls it has made for it, how many bytes were printed
/// in all, and the disk, if there is one.
#[derive(Drop)]
pub struct Served {
    pub(crate) machine: Machine<LibraryFence>,
    pub(crate) slot: usize,
    calls: u32,
    pub(crate) written: u64,
    disk: Option<HostDisk>,
}

impl Model for Served {
    ghost use Rattle.jos_run.specs.Served.{Parts, Lawful, disk_of};

    ghost Value = { Parts };

    ghost view = { λ s. record { machine = s.machine; slot = s.slot; calls = s.calls; written = s.written; disk = disk_of s.disk } };

    ghost invariant = { λ s. Lawful (record { machine = s.machine; slot = s.slot; calls = s.calls; written = s.written; disk = disk_of s.disk }) };
}

/// The registers with which a system call with this number is made, given these words.
fn asking(registers: Regs, number: u32, args: [u32; 5]) -> Regs
    ensures { result ≡ asking registers number args }
{
    let [first, second, third, fourth, fifth] = args;
    Regs {
        eax: number,
        edx: first,
        ecx: second,
        ebx: third,
        edi: fourth,
        esi: fifth,
        ..registers
    }
}

/// The words that stand in the bytes of a page fault's frame.
fn words_of_frame(bytes: &[u8]) -> [u32; UTRAPFRAME_WORDS]
    requires { length bytes.now ≡ 4 * UTRAPFRAME_WORDS }
    ensures { result ≡ words_of_bytes bytes.now }
{
    let mut words = [0; UTRAPFRAME_WORDS];
    LittleEndian::read_u32_into(bytes, &mut words);
    words
}

/// Tells that words have 32 bits each. Nothing is done.
#[inline(always)]
fn are_words(words: &[u32])
    ensures { (i : ℕ) → get_or words.now i 0 < 2 ^ 32 }
{
    let _ = words;
}

impl Served {
    /// Begins to serve the environment of slot 0, with no disk.
    pub fn new(system: System, input: Input) -> Served
        requires { Keeps system }
        ensures state { kernel_state result ≡ state_of system (left_of input) }
        ensures slot { result.slot ≡ 0 }
        ensures calls { result.calls ≡ 0 }
        ensures written { result.written ≡ 0 }
        ensures disk { result.disk ≡ no_disk }
    {
        Served {
            machine: Machine::new(system, input),
            slot: 0,
            calls: 0,
            written: 0,
            disk: None,
        }
    }

    /// The same with this disk.
    pub fn with_disk(mut self, disk: HostDisk) -> Served
        ensures { result ≡ record self { disk = disk } }
    {
        self.disk = Some(disk);
        self
    }

    /// Begins to serve the environment of another slot. No call is made for it yet.
    pub fn serve(&mut self, slot: usize)
        requires { slot < NENV }
        ensures state { kernel_state self.new ≡ kernel_state self.old }
        ensures slot { self.new.slot ≡ slot }
        ensures calls { self.new.calls ≡ 0 }
        ensures written { self.new.written ≡ self.old.written }
        ensures disk { self.new.disk ≡ self.old.disk }
    {
        self.slot = slot;
        self.calls = 0;
    }

    /// The disk, if there is one.
    pub fn disk(&self) -> Option<&HostDisk>
        ensures { disk_of (option_copied result) ≡ self.now.disk }
    {
        self.disk.as_ref()
    }

    /// Ends the service.
    pub fn into_parts(self) -> (System, Input)
        ensures keeps { Keeps result.0 }
        ensures state { state_of result.0 (left_of result.1) ≡ kernel_state self }
    {
        self.machine.into_parts()
    }

    /// Tells that the kernel's state is in order. Nothing is done.
    #[inline(always)]
    pub(crate) fn keep_in_order(&self)
        ensures { IsInOrder (kernel_state self.now) }
    {
        self.machine.system().keep_sound();
    }

    /// Tells that what the kernel keeps of the environment is words, and that it counts by a word how often each page's frame is
    /// named. Nothing is done.
    #[inline(always)]
    pub(crate) fn keep_words(&self)
        ensures { HasWords (kernel_state self.now) self.now.slot }
    {
        let system = self.machine.system();
        system.keep_sound();
        let environment = system.environment(self.slot);
        are_words(&environment.extra.0);
    }

    /// Counts bytes that were printed. The count stands still at the end of its type.
    pub(crate) fn count(&mut self, bytes: u32)
        ensures state { kernel_state self.new ≡ kernel_state self.old }
        ensures slot { self.new.slot ≡ self.old.slot }
        ensures calls { self.new.calls ≡ self.old.calls }
        ensures written { self.new.written ≡ min (self.old.written + bytes) (2 ^ 64 - 1) }
        ensures disk { self.new.disk ≡ self.old.disk }
    {
        self.written = self.written.saturating_add(bytes as u64);
    }

    /// Hands a page fault of the environment to its handler, or destroys the environment where it has none.
    #[cold]
    fn raise<H: Host>(&mut self, host: &mut H, fault: PageFault) -> Stop
        requires { is_live (slot_at (kernel_state self.old) self.old.slot) ≡ true }
        ensures raised { IsRaised (kernel_state self.old) self.old.slot fault result (kernel_state self.new) (output H.console (λ s. s.written) (from_to host.old host.new) (from_to self.old self.new)) }
        ensures slot { self.new.slot ≡ self.old.slot }
        ensures calls { self.new.calls ≡ self.old.calls }
        ensures disk { self.new.disk ≡ self.old.disk }
        ensures rest { Unchanged H.files H.input H.asked H.notes host.old host.new }
        ensures cause { HasStopCause {X = Unit {0}} (around H.faults host.old host.new) (Err result) }
    {
        match self.machine.fault(self.slot, fault) {
            Faulted::Upcall => Stop::Upcall,
            Faulted::Killed => {
                let ip = self.machine.registers(self.slot).eip;
                match self
                    .machine
                    .kill(host, self.slot, Line::UserFault { va: fault.va, ip })
                {
                    Ok(answer) => {
                        self.count(answer.written);
                        Stop::Ended
                    }
                    Err(_) => Stop::Failed,
                }
            }
        }
    }

    /// Counts a call, and reaches for a byte as the environment does.
    fn reach<H: Host>(&mut self, host: &mut H, va: u32, access: Access) -> Result<(), Stop>
        requires live { is_live (slot_at (kernel_state self.old) self.old.slot) ≡ true }
        requires few { self.old.calls < 2 ^ 32 - 1 }
        ensures allowed { OnOk result (is_allowed (kernel_state self.old).spaces (slot_at (kernel_state self.old) self.old.slot).directory va access ≡ true) }
        ensures reached { OnOk result (kernel_state self.new ≡ with_spaces (kernel_state self.old)
            (touched (kernel_state self.old).spaces (slot_at (kernel_state self.old) self.old.slot).directory va access)) }
        ensures still { OnOk result (is_allowed (kernel_state self.new).spaces (slot_at (kernel_state self.new) self.new.slot).directory va access ≡ true) }
        ensures quiet { OnOk result (Prints (output H.console (λ s. s.written) (from_to host.old host.new) (from_to self.old self.new)) []) }
        ensures refused { OnErr result (is_allowed (kernel_state self.old).spaces (slot_at (kernel_state self.old) self.old.slot).directory va access ≡ false) }
        ensures raised { IfErr result (λ why. IsRaised (kernel_state self.old) self.old.slot
            (fault_at (kernel_state self.old).spaces (slot_at (kernel_state self.old) self.old.slot).directory va access) why (kernel_state self.new) (output H.console (λ s. s.written) (from_to host.old host.new) (from_to self.old self.new))) }
        ensures slot { self.new.slot ≡ self.old.slot }
        ensures calls { self.new.calls ≡ self.old.calls + 1 }
        ensures disk { self.new.disk ≡ self.old.disk }
        ensures in_order { IsInOrder (kernel_state self.new) }
        ensures rest { Unchanged H.files H.input H.asked H.notes host.old host.new }
        ensures cause { HasStopCause (around H.faults host.old host.new) result }
    {
        self.calls += 1;
        match self.machine.reach(self.slot, va, access) {
            Ok(()) => {
                self.keep_in_order();
                Ok(())
            }
            Err(fault) => {
                let stop = self.raise(host, fault);
                self.keep_in_order();
                Err(stop)
            }
        }
    }

    /// The byte that the environment reads at an address.
    pub(crate) fn byte(&self, va: u32) -> u8
        requires { is_live (slot_at (kernel_state self.now) self.now.slot) ≡ true }
        ensures { result ≡ user_byte (kernel_state self.now) self.now.slot va }
    {
        let system = self.machine.system();
        system.byte_at(system.space(self.slot), va)
    }

    /// The word that it reads at a multiple of four.
    fn word(&self, va: u32) -> u32
        requires live { is_live (slot_at (kernel_state self.now) self.now.slot) ≡ true }
        requires aligned { va % 4 ≡ 0 }
        ensures { result ≡ user_word (kernel_state self.now) self.now.slot va }
    {
        u32::from_le_bytes([
            self.byte(va),
            self.byte(va + 1),
            self.byte(va + 2),
            self.byte(va + 3),
        ])
    }

    /// Puts a byte at an address that the environment may write.
    fn put_byte(&mut self, va: u32, byte: u8)
        requires live { is_live (slot_at (kernel_state self.old) self.old.slot) ≡ true }
        requires allowed { is_allowed (kernel_state self.old).spaces (slot_at (kernel_state self.old) self.old.slot).directory va Write ≡ true }
        ensures state { kernel_state self.new ≡ with_user_byte (kernel_state self.old) self.old.slot va byte }
        ensures slot { self.new.slot ≡ self.old.slot }
        ensures calls { self.new.calls ≡ self.old.calls }
        ensures written { self.new.written ≡ self.old.written }
        ensures disk { self.new.disk ≡ self.old.disk }
        ensures in_order { IsInOrder (kernel_state self.new) }
    {
        self.machine.store_byte(self.slot, va, byte);
        self.keep_in_order();
    }

    /// Puts a word at a multiple of four that it may write.
    fn put_word(&mut self, va: u32, word: u32)
        requires live { is_live (slot_at (kernel_state self.old) self.old.slot) ≡ true }
        requires aligned { va % 4 ≡ 0 }
        requires allowed { is_allowed (kernel_state self.old).spaces (slot_at (kernel_state self.old) self.old.slot).directory va Write ≡ true }
        ensures state { kernel_state self.new ≡ with_user_word (kernel_state self.old) self.old.slot va word }
        ensures slot { self.new.slot ≡ self.old.slot }
        ensures calls { self.new.calls ≡ self.old.calls }
        ensures written { self.new.written ≡ self.old.written }
        ensures disk { self.new.disk ≡ self.old.disk }
        ensures in_order { IsInOrder (kernel_state self.new) }
    {
        let [first, second, third, fourth] = word.to_le_bytes();
        self.put_byte(va, first);
        self.put_byte(va + 1, second);
        self.put_byte(va + 2, third);
        self.put_byte(va + 3, fourth);
    }

    /// How many blocks the disk has.
    pub(crate) fn block_count(&self) -> u32
        ensures { result ≡ self.now.disk.blocks }
    {
        match &self.disk {
            Some(disk) => disk.blocks,
            None => 0,
        }
    }

    /// Whether the environment is the file server and the disk has a block.
    fn serves_block(&self, block: u32) -> bool
        requires { is_live (slot_at (kernel_state self.now) self.now.slot) ≡ true }
        ensures { result ≡ serves_block (kernel_state self.now) self.now.slot self.now.disk block }
    {
        match self.machine.system().environment(self.slot).env_type {
            EnvType::FileServer => block < self.block_count(),
            EnvType::User => false,
        }
    }

    /// Counts a call for a block of the disk, and reaches for the page at an address as the environment does, where it may be
    /// moved. Where it may not, nothing else is done.
    fn reach_page(&mut self, block: u32, va: u32, access: Access) -> bool
        requires live { is_live (slot_at (kernel_state self.old) self.old.slot) ≡ true }
        requires few { self.old.calls < 2 ^ 32 - 1 }
        ensures may { result ≡ may_move (block_call (kernel_state self.old) self.old.slot self.old.disk block va) access }
        ensures there { result ≡ true → block < self.old.disk.blocks }
        ensures allowed { result ≡ true → is_allowed (kernel_state self.new).spaces (slot_at (kernel_state self.new) self.new.slot).directory va access ≡ true }
        ensures reached { result ≡ true → kernel_state self.new ≡ page_accessed (kernel_state self.old) self.old.slot va access }
        ensures refused { result ≡ false → kernel_state self.new ≡ kernel_state self.old }
        ensures slot { self.new.slot ≡ self.old.slot }
        ensures calls { self.new.calls ≡ self.old.calls + 1 }
        ensures written { self.new.written ≡ self.old.written }
        ensures small { self.old.written < 2 ^ 64 }
        ensures disk { self.new.disk ≡ self.old.disk }
        ensures live { is_live (slot_at (kernel_state self.new) self.new.slot) ≡ true }
        ensures in_order { IsInOrder (kernel_state self.new) }
    {
        self.calls += 1;
        if !self.serves_block(block) {
            self.keep_in_order();
            return false;
        }
        let reached = self.machine.reach(self.slot, va, access);
        self.keep_in_order();
        match reached {
            Ok(()) => true,
            Err(_) => false,
        }
    }

    /// The bytes of the page at an address.
    fn page(&self, va: u32) -> [u8; BLKSIZE as usize]
        requires live { is_live (slot_at (kernel_state self.now) self.now.slot) ≡ true }
        requires page { is_page_address va ≡ true }
        ensures { result ≡ page_bytes (kernel_state self.now) self.now.slot va }
    {
        let mut bytes = [0; BLKSIZE as usize];
        for place in 0..BLKSIZE {
            bytes[place as usize] = self.byte(va + place);
        }
        bytes
    }

    /// Puts bytes into the page at an address, which the environment may write.
    fn put_page(&mut self, va: u32, bytes: &[u8; BLKSIZE as usize])
        requires live { is_live (slot_at (kernel_state self.old) self.old.slot) ≡ true }
        requires page { is_page_address va ≡ true }
        requires allowed { is_allowed (kernel_state self.old).spaces (slot_at (kernel_state self.old) self.old.slot).directory va Write ≡ true }
        ensures state { kernel_state self.new ≡ with_bytes_put (kernel_state self.old) self.old.slot va bytes.now }
        ensures slot { self.new.slot ≡ self.old.slot }
        ensures calls { self.new.calls ≡ self.old.calls }
        ensures written { self.new.written ≡ self.old.written }
        ensures disk { self.new.disk ≡ self.old.disk }
    {
        for place in 0..BLKSIZE {
            self.put_byte(va + place, bytes[place as usize]);
        }
    }

    /// The bytes of a block that the disk has.
    fn bytes_of<H: Host>(&self, host: &mut H, block: u32) -> Result<[u8; BLKSIZE as usize], Failed>
        requires { block < self.now.disk.blocks }
        ensures came { IfOk result (λ bytes. BlockCame (H.files host.old) self.now.disk block bytes) }
        ensures files { H.files host.new ≡ H.files host.old }
        ensures asked { H.asked host.new ≡ and_asked (H.asked host.old) file_call.Read self.now.disk.name }
        ensures input { H.input host.new ≡ H.input host.old }
        ensures console { H.console host.new ≡ H.console host.old }
        ensures notes { H.notes host.new ≡ H.notes host.old }
        ensures cause { HasCause (H.faults host.old) (H.faults host.new) result }
    {
        match &self.disk {
            Some(disk) => disk.read_block(host, block),
            // it has no block
            None => Err(Failed),
        }
    }

    /// Puts bytes into a block that the disk has.
    fn put_block<H: Host>(
        &self,
        host: &mut H,
        block: u32,
        bytes: &[u8; BLKSIZE as usize],
    ) -> Result<(), Failed>
        requires there { block < self.now.disk.blocks }
        requires whole { HasBlocks (H.files host.old) self.now.disk }
        ensures told { WritesAt (H.files host.old) self.now.disk.name (BLKSIZE * block) bytes.now result (H.files host.new) }
        ensures asked { H.asked host.new ≡ and_asked (H.asked host.old) file_call.Write self.now.disk.name }
        ensures input { H.input host.new ≡ H.input host.old }
        ensures console { H.console host.new ≡ H.console host.old }
        ensures notes { H.notes host.new ≡ H.notes host.old }
        ensures cause { HasCause (H.faults host.old) (H.faults host.new) result }
    {
        match &self.disk {
            Some(disk) => disk.write_block(host, block, bytes),
            // it has no block
            None => Err(Failed),
        }
    }

    /// Whether the environment is there still.
    pub fn is_live(&self) -> bool
        ensures { result ≡ is_live (slot_at (kernel_state self.now) self.now.slot) }
    {
        self.is_live_in(self.slot)
    }

    /// Whether a system call sets the registers of the environment that makes it.
    fn sets_own(&self, number: u32, args: [u32; 5]) -> bool
        requires { is_live (slot_at (kernel_state self.now) self.now.slot) ≡ true }
        ensures { result ≡ sets_own (kernel_state self.now) self.now.slot number args }
    {
        if number != SYS_ENV_SET_TRAPFRAME {
            return false;
        }
        match self
            .machine
            .system()
            .table()
            .find(EnvId(args[0]), self.slot, true)
        {
            Some(target) => target == self.slot,
            None => false,
        }
    }

    /// Puts the registers back with which a system call was made, but where the environment is gone or has set its own.
    fn take_back(&mut self, own: bool, registers: Regs)
        ensures state { kernel_state self.new ≡ taken_back (kernel_state self.old) self.old.slot own registers }
        ensures slot { self.new.slot ≡ self.old.slot }
        ensures calls { self.new.calls ≡ self.old.calls }
        ensures written { self.new.written ≡ self.old.written }
        ensures disk { self.new.disk ≡ self.old.disk }
    {
        if self.is_live() && !own {
            self.machine.set_registers(self.slot, registers);
        }
    }
}

impl UserOs for Served {
    ghost state = { kernel_state };

    ghost slot = { λ s. s.slot };

    ghost calls = { λ s. s.calls };

    ghost written = { λ s. s.written };

    ghost disk = { λ s. s.disk };

    fn load<H: Host>(&mut self, host: &mut H, va: u32) -> Result<u32, Stop> {
        match self.reach(host, va, Access::Read) {
            Ok(()) => Ok(self.word(va)),
            Err(stop) => Err(stop),
        }
    }

    fn load_byte<H: Host>(&mut self, host: &mut H, va: u32) -> Result<u8, Stop> {
        match self.reach(host, va, Access::Read) {
            Ok(()) => Ok(self.byte(va)),
            Err(stop) => Err(stop),
        }
    }

    fn store<H: Host>(&mut self, host: &mut H, va: u32, word: u32) -> Result<(), Stop> {
        match self.reach(host, va, Access::Write) {
            Ok(()) => {
                self.put_word(va, word);
                Ok(())
            }
            Err(stop) => Err(stop),
        }
    }

    fn store_byte<H: Host>(&mut self, host: &mut H, va: u32, byte: u8) -> Result<(), Stop> {
        match self.reach(host, va, Access::Write) {
            Ok(()) => {
                self.put_byte(va, byte);
                Ok(())
            }
            Err(stop) => Err(stop),
        }
    }

    fn exchange<H: Host>(&mut self, host: &mut H, va: u32, word: u32) -> Result<u32, Stop> {
        match self.reach(host, va, Access::Write) {
            Ok(()) => {
                let stood = self.word(va);
                self.put_word(va, word);
                Ok(stood)
            }
            Err(stop) => Err(stop),
        }
    }

    fn system<H: Host>(
        &mut self,
        host: &mut H,
        number: u32,
        args: [u32; 5],
    ) -> Result<Called, Failed> {
        let own = self.sets_own(number, args);
        let registers = self.registers();
        self.calls += 1;
        self.machine
            .set_registers(self.slot, asking(registers, number, args));
        match self.machine.call(host, self.slot) {
            Ok(answer) => {
                self.count(answer.written);
                self.take_back(own, registers);
                self.keep_in_order();
                Ok(answer.called)
            }
            Err(failed) => {
                self.keep_in_order();
                Err(failed)
            }
        }
    }

    fn restore_frame<H: Host>(&mut self, host: &mut H) -> Result<(), Stop> {
        let esp = self.registers().esp;
        self.calls += 1;
        match self.machine.read_user(self.slot, esp, FRAME_SIZE as u32) {
            Ok(bytes) => {
                let words = words_of_frame(bytes.as_slice());
                self.machine.set_registers(self.slot, from_frame(&words));
                self.keep_in_order();
                Ok(())
            }
            Err(fault) => {
                let stop = self.raise(host, fault);
                self.keep_in_order();
                Err(stop)
            }
        }
    }

    fn block_read<H: Host>(&mut self, host: &mut H, block: u32, va: u32) -> Result<u32, Failed> {
        if !self.reach_page(block, va, Access::Write) {
            return Ok(E_INVAL.wrapping_neg());
        }
        match self.bytes_of(host, block) {
            Ok(bytes) => {
                self.put_page(va, &bytes);
                self.keep_in_order();
                Ok(0)
            }
            Err(failed) => Err(failed),
        }
    }

    fn block_write<H: Host>(&mut self, host: &mut H, block: u32, va: u32) -> Result<u32, Failed> {
        // as they are before the access, whose bit a page of the window may show
        let bytes = self.page(va);
        if !self.reach_page(block, va, Access::Read) {
            return Ok(E_INVAL.wrapping_neg());
        }
        match self.put_block(host, block, &bytes) {
            Ok(()) => Ok(0),
            Err(failed) => Err(failed),
        }
    }

    fn registers(&self) -> Regs {
        self.machine.registers(self.slot)
    }

    fn set_registers(&mut self, registers: Regs) {
        self.machine.set_registers(self.slot, registers);
        self.keep_in_order();
    }

    fn extra(&self) -> Extra {
        self.machine.system().environment(self.slot).extra
    }

    fn set_extra(&mut self, extra: Extra) {
        self.machine.set_extra(self.slot, extra);
        self.keep_in_order();
    }
}

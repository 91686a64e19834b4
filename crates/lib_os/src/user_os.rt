//! What the library asks of the kernel for an environment.

ghost use Rattle.std.specs.Prelude.{◌≡◌, ◌≢◌, ℕ, ◌+◌, ◌-◌, ◌%◌, ◌<◌, ◌^◌, [], true, OnErr};
ghost use Rattle.jos_host.specs.declared.host.HostCall.TheVariants.{Read, Write};
ghost use Rattle.jos_host.specs.Told.{HasCause};
ghost use Rattle.jos_host.specs.Frames.{Unchanged, around, from_to};
ghost use Rattle.jos_base.specs.declared.called.Called.TheVariants.{Ended};
ghost use Rattle.jos_base.specs.declared.numbers.TheConstants.{SYS_CPUTS};
ghost use Rattle.jos_base.specs.Environments.{is_live};
ghost use Rattle.jos_base.specs.KernelState.{KernelState, slot_at, with_registers, with_extra};
ghost use Rattle.jos_base.specs.SystemCalls.{is_page_address, may_print};
ghost use Rattle.lib_os.specs.InOrder.{IsInOrder};
ghost use Rattle.lib_os.specs.Disk.{DiskFile, HasBlocks};
ghost use Rattle.lib_os.specs.UserCalls as call;
ghost use Rattle.lib_os.specs.UserCalls.{got, IsStep, IsCallStep, HasStopCause, Prints, output};
ghost use Rattle.lib_os.specs.UserCalls.{block_call, may_read_block, may_write_block, asked_by, IsBlockRead, IsBlockWrite, FilesBehind};

use jos_base::{Called, Extra, Regs};
use jos_host::{Failed, Host};

/// Why a call gave the library nothing.
#[derive(Clone, Copy, Debug, PartialEq, Eq)]
pub enum Stop {
    /// The access faulted, and the environment's handler goes on.
    Upcall,
    /// The access faulted, and the environment is destroyed, with its line.
    Ended,
    /// The host failed while the line was written.
    Failed,
}

/// The kernel, as the library has it while it serves one environment: each call is one step of the kernel's state, and is
/// counted. (`specs/UserCalls.antt` has each call.)
pub trait UserOs {
    /// The kernel's state.
    ghost state: { Self → KernelState };
    /// The slot of the environment that is served.
    ghost slot: { Self → ℕ };
    /// How many calls were made.
    ghost calls: { Self → ℕ };
    /// How many bytes they have printed.
    ghost written: { Self → ℕ };
    /// The disk: the name of its file, and how many blocks there are.
    ghost disk: { Self → DiskFile };

    /// The word at an address that is a multiple of four.
    fn load<H: Host>(&mut self, host: &mut H, va: u32) -> Result<u32, Stop>
        requires live { is_live (slot_at (state self.old) (slot self.old)) ≡ true }
        requires aligned { va % 4 ≡ 0 }
        requires few { calls self.old < 2 ^ 32 - 1 }
        ensures step { IsStep (call.load (state self.old) (slot self.old) va) result (state self.new) (output H.console written (from_to host.old host.new) (from_to self.old self.new)) }
        ensures in_order { IsInOrder (state self.new) }
        ensures slot { slot self.new ≡ slot self.old }
        ensures disk { disk self.new ≡ disk self.old }
        ensures calls { calls self.new ≡ calls self.old + 1 }
        ensures rest { Unchanged H.files H.input H.asked H.notes host.old host.new }
        ensures cause { HasStopCause (around H.faults host.old host.new) result };

    /// The byte at an address.
    fn load_byte<H: Host>(&mut self, host: &mut H, va: u32) -> Result<u8, Stop>
        requires live { is_live (slot_at (state self.old) (slot self.old)) ≡ true }
        requires few { calls self.old < 2 ^ 32 - 1 }
        ensures step { IsStep (call.load_byte (state self.old) (slot self.old) va) result (state self.new) (output H.console written (from_to host.old host.new) (from_to self.old self.new)) }
        ensures in_order { IsInOrder (state self.new) }
        ensures slot { slot self.new ≡ slot self.old }
        ensures disk { disk self.new ≡ disk self.old }
        ensures calls { calls self.new ≡ calls self.old + 1 }
        ensures rest { Unchanged H.files H.input H.asked H.notes host.old host.new }
        ensures cause { HasStopCause (around H.faults host.old host.new) result };

    /// Puts a word at an address that is a multiple of four.
    fn store<H: Host>(&mut self, host: &mut H, va: u32, word: u32) -> Result<(), Stop>
        requires live { is_live (slot_at (state self.old) (slot self.old)) ≡ true }
        requires aligned { va % 4 ≡ 0 }
        requires few { calls self.old < 2 ^ 32 - 1 }
        ensures step { IsStep (call.store (state self.old) (slot self.old) va word) result (state self.new) (output H.console written (from_to host.old host.new) (from_to self.old self.new)) }
        ensures in_order { IsInOrder (state self.new) }
        ensures slot { slot self.new ≡ slot self.old }
        ensures disk { disk self.new ≡ disk self.old }
        ensures calls { calls self.new ≡ calls self.old + 1 }
        ensures rest { Unchanged H.files H.input H.asked H.notes host.old host.new }
        ensures cause { HasStopCause (around H.faults host.old host.new) result };

    /// Puts a byte at an address.
    fn store_byte<H: Host>(&mut self, host: &mut H, va: u32, byte: u8) -> Result<(), Stop>
        requires live { is_live (slot_at (state self.old) (slot self.old)) ≡ true }
        requires few { calls self.old < 2 ^ 32 - 1 }
        ensures step { IsStep (call.store_byte (state self.old) (slot self.old) va byte) result (state self.new) (output H.console written (from_to host.old host.new) (from_to self.old self.new)) }
        ensures in_order { IsInOrder (state self.new) }
        ensures slot { slot self.new ≡ slot self.old }
        ensures disk { disk self.new ≡ disk self.old }
        ensures calls { calls self.new ≡ calls self.old + 1 }
        ensures rest { Unchanged H.files H.input H.asked H.notes host.old host.new }
        ensures cause { HasStopCause (around H.faults host.old host.new) result };

    /// Puts a word at an address that is a multiple of four, and gives the one that stood there.
    fn exchange<H: Host>(&mut self, host: &mut H, va: u32, word: u32) -> Result<u32, Stop>
        requires live { is_live (slot_at (state self.old) (slot self.old)) ≡ true }
        requires aligned { va % 4 ≡ 0 }
        requires few { calls self.old < 2 ^ 32 - 1 }
        ensures step { IsStep (call.exchange (state self.old) (slot self.old) va word) result (state self.new) (output H.console written (from_to host.old host.new) (from_to self.old self.new)) }
        ensures in_order { IsInOrder (state self.new) }
        ensures slot { slot self.new ≡ slot self.old }
        ensures disk { disk self.new ≡ disk self.old }
        ensures calls { calls self.new ≡ calls self.old + 1 }
        ensures rest { Unchanged H.files H.input H.asked H.notes host.old host.new }
        ensures cause { HasStopCause (around H.faults host.old host.new) result };

    /// Makes the system call with a number, given these words. The environment's registers are as before, but where the call
    /// set them.
    ///
    /// # Errors
    /// The host failed, in a call that prints (`fails`): in cputs, or else in the line of the environment's end (`ended`).
    fn system<H: Host>(
        &mut self,
        host: &mut H,
        number: u32,
        args: [u32; 5],
    ) -> Result<Called, Failed>
        requires live { is_live (slot_at (state self.old) (slot self.old)) ≡ true }
        requires few { calls self.old < 2 ^ 32 - 1 }
        ensures step { IsCallStep (call.system (state self.old) (slot self.old) number args) result (state self.new) (output H.console written (from_to host.old host.new) (from_to self.old self.new)) }
        ensures fails { OnErr result (may_print number ≡ true) }
        ensures ended { OnErr result (number ≢ SYS_CPUTS → (call.system (state self.old) (slot self.old) number args).gives ≡ got Ended) }
        ensures in_order { IsInOrder (state self.new) }
        ensures slot { slot self.new ≡ slot self.old }
        ensures disk { disk self.new ≡ disk self.old }
        ensures calls { calls self.new ≡ calls self.old + 1 }
        ensures rest { Unchanged H.files H.input H.asked H.notes host.old host.new }
        ensures cause { HasCause (H.faults host.old) (H.faults host.new) result };

    /// Takes the registers back from the frame of a page fault that stands at ESP.
    fn restore_frame<H: Host>(&mut self, host: &mut H) -> Result<(), Stop>
        requires live { is_live (slot_at (state self.old) (slot self.old)) ≡ true }
        requires few { calls self.old < 2 ^ 32 - 1 }
        ensures step { IsStep (call.restore_frame (state self.old) (slot self.old)) result (state self.new) (output H.console written (from_to host.old host.new) (from_to self.old self.new)) }
        ensures in_order { IsInOrder (state self.new) }
        ensures slot { slot self.new ≡ slot self.old }
        ensures disk { disk self.new ≡ disk self.old }
        ensures calls { calls self.new ≡ calls self.old + 1 }
        ensures rest { Unchanged H.files H.input H.asked H.notes host.old host.new }
        ensures cause { HasStopCause (around H.faults host.old host.new) result };

    /// Reads a block of the disk into the page at an address, for the file server: 0 where it has done that, and 3 negated where
    /// another asks, where the disk has no such block, or where the page may not be written. The page is accessed as by a store, and
    /// behind the end of the disk's file it has zeros.
    ///
    /// # Errors
    /// The host failed while the file was read.
    fn block_read<H: Host>(&mut self, host: &mut H, block: u32, va: u32) -> Result<u32, Failed>
        requires live { is_live (slot_at (state self.old) (slot self.old)) ≡ true }
        requires page { is_page_address va ≡ true }
        requires few { calls self.old < 2 ^ 32 - 1 }
        ensures step { IsBlockRead (block_call (state self.old) (slot self.old) (disk self.old) block va) (H.files host.old) result (state self.new) }
        ensures quiet { Prints (output H.console written (from_to host.old host.new) (from_to self.old self.new)) [] }
        ensures in_order { IsInOrder (state self.new) }
        ensures slot { slot self.new ≡ slot self.old }
        ensures disk { disk self.new ≡ disk self.old }
        ensures calls { calls self.new ≡ calls self.old + 1 }
        ensures files { H.files host.new ≡ H.files host.old }
        ensures asked { H.asked host.new ≡ asked_by (may_read_block (block_call (state self.old) (slot self.old) (disk self.old) block va)) (H.asked host.old) Read (disk self.old) }
        ensures input { H.input host.new ≡ H.input host.old }
        ensures notes { H.notes host.new ≡ H.notes host.old }
        ensures cause { HasCause (H.faults host.old) (H.faults host.new) result };

    /// Writes the page at an address to a block of the disk, for the file server: 0 where it has done that, and 3 negated where
    /// another asks, where the disk has no such block, or where the page may not be read. The page is accessed as by a load.
    ///
    /// # Errors
    /// The host failed while the file was written.
    fn block_write<H: Host>(&mut self, host: &mut H, block: u32, va: u32) -> Result<u32, Failed>
        requires live { is_live (slot_at (state self.old) (slot self.old)) ≡ true }
        requires page { is_page_address va ≡ true }
        requires few { calls self.old < 2 ^ 32 - 1 }
        requires whole { HasBlocks (H.files host.old) (disk self.old) }
        ensures step { IsBlockWrite (block_call (state self.old) (slot self.old) (disk self.old) block va) result (state self.new) }
        ensures quiet { Prints (output H.console written (from_to host.old host.new) (from_to self.old self.new)) [] }
        ensures in_order { IsInOrder (state self.new) }
        ensures slot { slot self.new ≡ slot self.old }
        ensures disk { disk self.new ≡ disk self.old }
        ensures calls { calls self.new ≡ calls self.old + 1 }
        ensures files { FilesBehind (block_call (state self.old) (slot self.old) (disk self.old) block va) result (around H.files host.old host.new) }
        ensures asked { H.asked host.new ≡ asked_by (may_write_block (block_call (state self.old) (slot self.old) (disk self.old) block va)) (H.asked host.old) Write (disk self.old) }
        ensures input { H.input host.new ≡ H.input host.old }
        ensures notes { H.notes host.new ≡ H.notes host.old }
        ensures cause { HasCause (H.faults host.old) (H.faults host.new) result };

    /// The environment's registers. This is no call that is counted, nor are the next three.
    fn registers(&self) -> Regs
        requires { is_live (slot_at (state self.now) (slot self.now)) ≡ true }
        ensures { result ≡ (slot_at (state self.now) (slot self.now)).registers };

    /// Sets the environment's registers.
    fn set_registers(&mut self, registers: Regs)
        requires { is_live (slot_at (state self.old) (slot self.old)) ≡ true }
        ensures state { state self.new ≡ with_registers (state self.old) (slot self.old) registers }
        ensures in_order { IsInOrder (state self.new) }
        ensures slot { slot self.new ≡ slot self.old }
        ensures disk { disk self.new ≡ disk self.old }
        ensures calls { calls self.new ≡ calls self.old }
        ensures written { written self.new ≡ written self.old };

    /// The words that the environment keeps for the library.
    fn extra(&self) -> Extra
        requires { is_live (slot_at (state self.now) (slot self.now)) ≡ true }
        ensures { result.0 ≡ (slot_at (state self.now) (slot self.now)).extra };

    /// Sets the words that the environment keeps for the library.
    fn set_extra(&mut self, extra: Extra)
        requires { is_live (slot_at (state self.old) (slot self.old)) ≡ true }
        ensures state { state self.new ≡ with_extra (state self.old) (slot self.old) extra.0 }
        ensures in_order { IsInOrder (state self.new) }
        ensures slot { slot self.new ≡ slot self.old }
        ensures disk { disk self.new ≡ disk self.old }
        ensures calls { calls self.new ≡ calls self.old }
        ensures written { written self.new ≡ written self.old };
}

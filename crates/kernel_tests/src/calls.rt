//! Calls of environments, over a host that is all in memory.

ghost use Rattle.std.specs.Prelude.{◌≡◌, ◌<◌, IfSome, IsSome, true};
ghost use Rattle.jos_base.specs.declared.numbers.TheConstants.{NENV};
ghost use Rattle.jos_sys.specs.System.{Keeps, in_use, is_live_in};

use anyhow::{Context, bail, ensure};
use jos_base::{
    Access, Called, EnvId, FRAMES_MAX, FRAMES_MIN, NENV, PGSIZE, PageFault, Perm, Regs,
    SYS_EXOFORK, SYS_PAGE_ALLOC, Status, UTEXT,
};
use jos_host::MemHost;
use jos_space::Space;
use jos_sys::{CallAnswer, Faulted, Input, System};
use std::alloc::Global;
use std::marker::Model;
use test_cases::{Bench, Shown, WRITE, given, number, numbers};

/// A system and what stands outside it.
#[derive(Drop)]
pub(crate) struct CallBench {
    system: System,
    host: MemHost,
    input: Input,
}

impl Model for CallBench {
    ghost Value = { Unit {0} };

    ghost view = { λ bench. tt };

    ghost invariant = { λ bench. Keeps bench.system };
}

/// The space of the environment in a slot, where there is one.
fn live_space(system: &System, slot: usize) -> Option<Space>
    requires slot { slot < NENV }
    requires spaces { Keeps system.now }
    ensures space { IfSome result (λ space. in_use system.now space.directory.0 ≡ true) }
    ensures live { IsSome result → is_live_in system.now slot ≡ true }
{
    match system.environment(slot).status {
        Status::Free => None,
        _ => Some(system.space(slot)),
    }
}

impl CallBench {
    /// A system of so many frames with an environment in slot 0, and the input `ab`.
    fn new(alloc: Global, frames: u32) -> anyhow::Result<CallBench> {
        ensure!(
            FRAMES_MIN <= frames && frames <= FRAMES_MAX,
            "{frames} frames"
        );
        let host = MemHost::new(alloc, Vec::new(alloc), Vec::new(alloc), Vec::new(alloc));
        let input = Input::new(Vec::from_slice(alloc, b"ab")?);
        let mut system = match System::new(alloc, frames) {
            Ok(system) => system,
            Err(_) => bail!("no memory"),
        };
        match system.make_environment(EnvId(0)) {
            Ok(_) => Ok(CallBench {
                system,
                host,
                input,
            }),
            Err(_) => bail!("no environment"),
        }
    }

    /// What the environment in a slot has in EAX after the call that EAX, EDX, ECX, EBX, EDI and ESI name. None where it is
    /// gone, or waits.
    fn call(&mut self, slot: usize, call: &[u32]) -> Option<u32>
        requires { slot < NENV }
    {
        let _ = live_space(&self.system, slot)?;
        let registers = self.system.registers(slot);
        self.system.set_registers(
            slot,
            Regs {
                eax: given(call, 0),
                edx: given(call, 1),
                ecx: given(call, 2),
                ebx: given(call, 3),
                edi: given(call, 4),
                esi: given(call, 5),
                ..registers
            },
        );
        match self.system.call(&mut self.host, &mut self.input, slot) {
            Ok(
                CallAnswer {
                    called: Called::Answered(value),
                    ..
                },
            ) => Some(value),
            _ => None,
        }
    }

    /// How many pages from UTEXT on the environment in a slot is given, until it is refused one.
    fn pages_taken(&mut self, slot: usize) -> u32
        requires { slot < NENV }
    {
        for page in 0..FRAMES_MIN {
            let call = [SYS_PAGE_ALLOC, 0, UTEXT + page * PGSIZE, WRITE];
            if self.call(slot, &call) != Some(0) {
                return page;
            }
        }
        FRAMES_MIN
    }

    /// How many children with the ids 0x1001, 0x1002 and so on the environment in a slot is given.
    fn children_made(&mut self, slot: usize) -> u32
        requires { slot < NENV }
    {
        for child in 1..NENV {
            if self.call(slot, &[SYS_EXOFORK]) != Some(0x1000 + child) {
                return child - 1;
            }
        }
        NENV - 1
    }

    /// A page of the environment in a slot, in which its user writes `h` before the kernel's `i`.
    fn write_page(&mut self, slot: usize) -> Option<bool>
        requires { slot < NENV }
    {
        let space = live_space(&self.system, slot)?;
        let frame = self.system.allocate(slot, UTEXT, Perm(WRITE))?;
        self.system.fill(frame, 1, b"i\n");
        let _ = self.system.reach(space, UTEXT, Access::Write);
        Some(self.system.put_byte(space, UTEXT, b'h'))
    }

    /// Writes a word, its lowest byte first, as the user of a slot. False where it may not.
    fn write(&mut self, slot: usize, va: u32, word: u32) -> bool
        requires { slot < NENV }
    {
        match live_space(&self.system, slot) {
            Some(space) => {
                let _ = self.system.reach(space, va, Access::Write);
                self.system.put_word(space, va, word)
            }
            None => false,
        }
    }

    /// The word that the user of a slot reads at an address, its lowest byte first: 0 where none may be read.
    fn word(&self, slot: usize, va: u32) -> Option<u32>
        requires { slot < NENV }
    {
        let space = live_space(&self.system, slot)?;
        let mut word = 0;
        for at in 0..4 {
            let byte = self.system.byte_at(space, va.wrapping_add(at));
            word |= (byte as u32) << (8 * at);
        }
        Some(word)
    }

    /// What becomes of a write to an address that faults, where the environment in a slot has this ESP. None where it is gone.
    fn fault(&mut self, slot: usize, esp: u32, va: u32) -> Option<Faulted>
        requires { slot < NENV }
    {
        let _ = live_space(&self.system, slot)?;
        let registers = self.system.registers(slot);
        self.system.set_registers(slot, Regs { esp, ..registers });
        Some(self.system.fault(slot, PageFault { va, error: 6 }))
    }

    /// What comes of a case that names a slot.
    fn answer_slot(
        &mut self,
        alloc: Global,
        what: &str,
        slot: usize,
        numbers: &[u32],
    ) -> anyhow::Result<Shown>
        requires { slot < NENV }
    {
        let (first, second) = (given(numbers, 0), given(numbers, 1));
        match what {
            "call" => Ok(Shown::word(self.call(slot, numbers))),
            "writes" => Ok(Shown::Is(self.write(slot, first, second))),
            "reads" => Ok(Shown::word(self.word(slot, first))),
            "faults" => Ok(match self.fault(slot, first, second) {
                Some(faulted) => Shown::Text(format!(in alloc; "{faulted:?}")?),
                None => Shown::Nothing,
            }),
            "eax" => Ok(Shown::Word(self.system.environment(slot).registers.eax)),
            "esp" => Ok(Shown::Word(self.system.environment(slot).registers.esp)),
            "eip" => Ok(Shown::Word(self.system.environment(slot).registers.eip)),
            "registers" => {
                let registers = self.system.environment(slot).registers;
                Ok(Shown::registers(alloc, &registers)?)
            }
            "status" => {
                let status = self.system.environment(slot).status;
                Ok(Shown::Text(format!(in alloc; "{status:?}")?))
            }
            "writes_hi" => Ok(Shown::is(self.write_page(slot))),
            "takes_pages" => Ok(Shown::Count(self.pages_taken(slot) as u64)),
            "makes_children" => Ok(Shown::Count(self.children_made(slot) as u64)),
            _ => bail!("{what} is no case of calls"),
        }
    }

    /// The console's bytes, as text.
    fn console(&self, alloc: Global) -> anyhow::Result<Shown> {
        let text = String::from_utf8_lossy(alloc, self.host.console())?;
        Ok(Shown::Text(format!(in alloc; "{text:?}")?))
    }
}

impl Bench for CallBench {
    fn of(alloc: Global, line: &str) -> anyhow::Result<CallBench> {
        let frames = line
            .strip_prefix("calls in ")
            .and_then(number)
            .context(format_args!("{line} is not tried"))?;
        CallBench::new(alloc, frames)
    }

    fn answer(&mut self, alloc: Global, what: &str, words: &str) -> anyhow::Result<Shown> {
        let numbers = numbers(alloc, words)?;
        match what {
            "refused" => Ok(Shown::Count(self.system.refused())),
            "upcalls" => Ok(Shown::Count(self.system.upcalls())),
            "console" => self.console(alloc),
            _ => match numbers.split_first() {
                Some((slot, rest)) if *slot < NENV => {
                    self.answer_slot(alloc, what, *slot as usize, rest)
                }
                _ => Ok(Shown::Nothing),
            },
        }
    }
}

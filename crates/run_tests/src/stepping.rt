//! Programs step by step: the server in slot 0, and one environment, or two that ask it.

ghost use Rattle.std.specs.Prelude.{◌<◌, IfSome};
ghost use Rattle.jos_base.specs.declared.numbers.TheConstants.{NENV};
ghost use Rattle.jos_sys.specs.System.{Keeps};

use crate::calls::ServedBench;
use jos_base::{
    EnvId, EnvType, FDTABLE, FRAMES_MIN, PTE_P, PTE_U, PTE_W, Perm, Regs, SYS_PAGE_ALLOC, Status,
    USTACKTOP, UTEXT,
};
use jos_host::MemHost;
use jos_run::Served;
use jos_sys::{Input, System};
use lib_os::{DEVICE_CONSOLE, PTE_SHARE, SERVICE_SYNC, UserOs};
use std::alloc::{AllocError, Global};
use test_cases::twelve_numbers;

/// The system with the server, and an environment in slot 1 with a page at `UTEXT`, which it may read and write; and the console's input.
fn environment(alloc: Global, input: Vec<u8>) -> Option<Served> {
    let Ok(mut system) = System::new(alloc, FRAMES_MIN) else {
        return None;
    };
    let Ok(server) = system.make_environment(EnvId(0)) else {
        return None;
    };
    system.set_env_type(server, EnvType::FileServer);
    let Ok(slot) = system.make_environment(EnvId(0)) else {
        return None;
    };
    system.set_status(slot, Status::Runnable);
    system.allocate(slot, UTEXT, Perm(PTE_P + PTE_W + PTE_U))?;
    Some(Served::new(system, Input::new(input)))
}

/// Opens its first descriptor, on the console; false where it can't.
fn open_console(served: &mut Served, host: &mut MemHost) -> bool {
    served.serve(1);
    if !served.is_live() {
        return false;
    }
    let perm = PTE_P + PTE_W + PTE_U + PTE_SHARE;
    let taken = served.system(host, SYS_PAGE_ALLOC, [0, FDTABLE, perm, 0, 0]);
    if taken.is_err() || !served.is_live() {
        return false;
    }
    served.store(host, FDTABLE, DEVICE_CONSOLE).is_ok()
}

/// Such an environment with two words of code, which stands before the first of them.
fn program(
    alloc: Global,
    code: [u32; 2],
    registers: Regs,
    input: Option<Vec<u8>>,
) -> Option<ServedBench> {
    let has_console = input.is_some();
    let mut served = environment(alloc, input.unwrap_or(Vec::new(alloc)))?;
    let mut host = MemHost::new(alloc, Vec::new(alloc), Vec::new(alloc), Vec::new(alloc));
    if has_console && !open_console(&mut served, &mut host) {
        return None;
    }
    served.serve(1);
    if !served.is_live() {
        return None;
    }
    served.set_registers(registers);
    let [first, second] = code;
    if !served.is_live() || served.store(&mut host, UTEXT, first).is_err() {
        return None;
    }
    if !served.is_live() || served.store(&mut host, UTEXT + 4, second).is_err() {
        return None;
    }
    Some(ServedBench::new(alloc, served, 1))
}

/// The registers with which it stands there.
fn registers_with(eax: u32, edx: u32, ecx: u32, ebx: u32) -> Regs {
    Regs {
        eax,
        ecx,
        edx,
        ebx,
        esp: USTACKTOP,
        ebp: 0,
        esi: 0,
        edi: 0,
        eip: UTEXT,
        eflags: 0x202,
    }
}

/// What comes of so many steps of a program.
pub(crate) fn steps(alloc: Global, given: &str) -> Result<String, AllocError> {
    let [first, second, eax, edx, ecx, ebx, count, ..] = twelve_numbers(given);
    let registers = registers_with(eax, edx, ecx, ebx);
    match program(alloc, [first, second], registers, None) {
        Some(mut bench) => bench.go(alloc, count),
        None => String::from_str(alloc, "no program"),
    }
}

/// The same of one with a descriptor of the console and a byte of input, which is asked in the lines that follow.
pub(crate) fn on_console(
    alloc: Global,
    asked: &mut Option<ServedBench>,
    given: &str,
) -> Result<String, AllocError> {
    let [first, second, eax, edx, ecx, ebx, count, byte, ..] = twelve_numbers(given);
    let registers = registers_with(eax, edx, ecx, ebx);
    let mut input = Vec::new(alloc);
    input.push((byte % 256) as u8)?;
    match program(alloc, [first, second], registers, Some(input)) {
        Some(mut bench) => {
            let told = bench.go(alloc, count)?;
            *asked = Some(bench);
            Ok(told)
        }
        None => String::from_str(alloc, "no program"),
    }
}

/// INT 0x40.
const SERVICE_CALL: u32 = 0x40cd;

/// An environment in the next slot, with a page at `UTEXT`, which it may read and write; false where there is none.
fn add_client(system: &mut System) -> bool
    requires { Keeps system.old }
    ensures { Keeps system.new }
{
    let Ok(slot) = system.make_environment(EnvId(0)) else {
        return false;
    };
    system.set_status(slot, Status::Runnable);
    system
        .allocate(slot, UTEXT, Perm(PTE_P + PTE_W + PTE_U))
        .is_some()
}

/// The system with the server before its first step, and two environments.
fn server_with_two(alloc: Global) -> Option<System>
    ensures { IfSome result (λ system. Keeps system) }
{
    let Ok(mut system) = System::new(alloc, FRAMES_MIN) else {
        return None;
    };
    let Ok(server) = system.make_environment(EnvId(0)) else {
        return None;
    };
    system.set_env_type(server, EnvType::FileServer);
    system.set_status(server, Status::Runnable);
    if !add_client(&mut system) || !add_client(&mut system) {
        return None;
    }
    Some(system)
}

/// Puts the environment of a slot before an INT 0x40 by which it asks for sync; false where it can't.
fn about_to_ask(served: &mut Served, host: &mut MemHost, slot: usize) -> bool
    requires { slot < NENV }
{
    served.serve(slot);
    if !served.is_live() {
        return false;
    }
    served.set_registers(registers_with(SERVICE_SYNC, 0, 0, 0));
    served.is_live() && served.store(host, UTEXT, SERVICE_CALL).is_ok()
}

/// Begins with the file server before its first step, in slot 0, and two environments that are about to ask for sync.
pub(crate) fn clients(
    alloc: Global,
    asked: &mut Option<ServedBench>,
) -> Result<String, AllocError> {
    let Some(system) = server_with_two(alloc) else {
        return String::from_str(alloc, "no environment");
    };
    let mut served = Served::new(system, Input::new(Vec::new(alloc)));
    let mut host = MemHost::new(alloc, Vec::new(alloc), Vec::new(alloc), Vec::new(alloc));
    if !about_to_ask(&mut served, &mut host, 1) || !about_to_ask(&mut served, &mut host, 2) {
        return String::from_str(alloc, "no program");
    }
    *asked = Some(ServedBench::new(alloc, served, 0));
    String::from_str(alloc, "begins")
}

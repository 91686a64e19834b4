//! How environments begin.

ghost use Rattle.std.specs.Prelude.{◌<◌, ◌^◌, IfOk, length};

use crate::calls::ServedBench;
use crate::disks::{disk_of, host_with_disk};
use jos_base::{
    EnvId, EnvType, FRAMES_MAX, FRAMES_MIN, PGSIZE, PTE_P, PTE_U, PTE_W, Perm, Status, UTEMP, UTEXT,
};
use jos_elf::{Part, parse, write};
use jos_kernel::BootFault;
use jos_run::{Served, boot_frames, boot_program};
use jos_sys::{Input, System};
use lib_spawn::fits_stack;
use std::alloc::{AllocError, Global};
use test_cases::{program_words, twelve_numbers};

/// The file of a program with one page, which begins with a byte.
fn one_page(alloc: Global) -> Result<Vec<u8>, AllocError>
    ensures { IfOk result (λ file. length file.items < 2 ^ 32) }
{
    let part = Part {
        va: UTEXT,
        at: 0,
        len: 1,
        mem_len: PGSIZE,
        writable: false,
    };
    match write(alloc, UTEXT + 4, &[part], &[7]) {
        Ok(file) => Ok(file),
        Err(_) => Err(AllocError),
    }
}

/// How many frames its run wants.
pub(crate) fn frames(alloc: Global) -> Result<String, AllocError> {
    match parse(&one_page(alloc)?) {
        Ok(image) => {
            let frames = boot_frames(&image);
            format!(in alloc; "{frames}")
        }
        Err(_) => String::from_str(alloc, "no image"),
    }
}

/// How the server and the program stand in a system.
fn tell_system(alloc: Global, system: &System) -> Result<String, AllocError> {
    let server = system.environment(0);
    let program = system.environment(1);
    let (kind, waits) = (server.env_type, server.status);
    let (EnvId(id), status, registers) = (program.id, program.status, program.registers);
    let (eip, esp, eflags) = (registers.eip, registers.esp, registers.eflags);
    format!(in alloc;
        "{kind:?} {waits:?}, {id:x} {status:?} eip {eip:x} esp {esp:x} eflags {eflags:x}"
    )
}

/// Boots the program, which is asked in the lines that follow.
pub(crate) fn boot(
    alloc: Global,
    bench: &mut Option<ServedBench>,
    given: &str,
) -> Result<String, AllocError> {
    let (frames, words) = given.split_once(' ').unwrap_or((given, ""));
    let frames = frames.parse().unwrap_or(0);
    let words = program_words(alloc, words)?;
    if frames < FRAMES_MIN || FRAMES_MAX < frames || !fits_stack(&words) {
        return String::from_str(alloc, "no run");
    }
    let file = one_page(alloc)?;
    let Ok(image) = parse(&file) else {
        return String::from_str(alloc, "no image");
    };
    match boot_program(alloc, &image, &file, &words, frames) {
        Ok(system) => {
            let told = tell_system(alloc, &system)?;
            let served = Served::new(system, Input::new(Vec::new(alloc)));
            *bench = Some(ServedBench::new(alloc, served, 1));
            Ok(told)
        }
        Err(BootFault::Pool) => String::from_str(alloc, "Pool"),
        Err(BootFault::NoMemory) => Err(AllocError),
    }
}

/// The first environment, in slot 0, of a kind, with a page of zeros at `UTEMP` that it may write.
fn first_environment(alloc: Global, kind: EnvType) -> Option<Served> {
    let Ok(mut system) = System::new(alloc, FRAMES_MIN) else {
        return None;
    };
    let Ok(slot) = system.make_environment(EnvId(0)) else {
        return None;
    };
    system.set_env_type(slot, kind);
    system.set_status(slot, Status::Runnable);
    system.allocate(slot, UTEMP, Perm(PTE_P + PTE_W + PTE_U))?;
    Some(Served::new(system, Input::new(Vec::new(alloc))))
}

/// Begins with a user, without a disk.
pub(crate) fn first(alloc: Global, bench: &mut Option<ServedBench>) -> Result<String, AllocError> {
    match first_environment(alloc, EnvType::User) {
        Some(served) => {
            *bench = Some(ServedBench::new(alloc, served, 0));
            String::from_str(alloc, "begins")
        }
        None => String::from_str(alloc, "no environment"),
    }
}

/// Begins with an environment of a kind and a disk: how many blocks there are, how many bytes the host's file has, and which
/// call of the host fails.
pub(crate) fn with_disk(
    alloc: Global,
    bench: &mut Option<ServedBench>,
    kind: EnvType,
    given: &str,
) -> Result<String, AllocError> {
    let [blocks, len, fails, ..] = twelve_numbers(given);
    match first_environment(alloc, kind) {
        Some(served) => {
            let served = served.with_disk(disk_of(alloc, blocks)?);
            let host = host_with_disk(alloc, len, fails)?;
            *bench = Some(ServedBench::over(served, host));
            String::from_str(alloc, "begins")
        }
        None => String::from_str(alloc, "no environment"),
    }
}

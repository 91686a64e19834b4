//! The services of the library, and which of them a program asks for.

ghost use Rattle.std.specs.Prelude.{◌≡◌};
ghost use Rattle.lib_os.specs.Services as services;

use crate::numbers::{
    SERVICE_CLOSE, SERVICE_CPUTS, SERVICE_DUP, SERVICE_EXIT, SERVICE_FORK, SERVICE_GETID,
    SERVICE_OPEN_FILE, SERVICE_PAGE_DROP, SERVICE_PAGE_NEW, SERVICE_PIPE, SERVICE_READ,
    SERVICE_RECEIVE, SERVICE_REMOVE, SERVICE_SEEK, SERVICE_SEND, SERVICE_SET_SIZE, SERVICE_SPAWN,
    SERVICE_STAT, SERVICE_SYNC, SERVICE_WAIT, SERVICE_WRITE, SERVICE_YIELD,
};
use jos_base::Regs;

/// A service with what it is given. Addresses and ids are words, as the program has them in its registers. Those that
/// open, read and write follow MIT 6.828, inc/lib.h.
#[derive(Clone, Copy, Debug)]
pub enum Service {
    /// Drops all descriptors, and ends the environment.
    Exit,
    /// Prints so many bytes.
    Cputs { va: u32, len: u32 },
    /// Answers the environment's id.
    GetId,
    /// Gives up the turn.
    Yield,
    /// Makes a child that is a copy of the environment.
    Fork,
    /// Waits until no live environment has the id.
    Wait { id: u32 },
    /// Makes a page of zeros: bit 0 of the flags says that it may be written, bit 1 that it is shared.
    PageNew { va: u32, flags: u32 },
    /// Takes a page away.
    PageDrop { va: u32 },
    /// Sends a word and, where the address is not 0, the page there.
    Send { id: u32, value: u32, va: u32 },
    /// Waits for a word and, where the address is not 0, for a page; from one sender alone, where that is not 0.
    Receive { va: u32, from: u32 },
    /// Opens a file.
    OpenFile { path: u32, mode: u32 },
    /// Closes a descriptor.
    Close { fd: u32 },
    /// Reads at most so many bytes.
    Read { fd: u32, va: u32, len: u32 },
    /// Writes at most so many bytes.
    Write { fd: u32, va: u32, len: u32 },
    /// Sets the place of the next byte in a file.
    Seek { fd: u32, offset: u32 },
    /// Gives name, size and kind of what a descriptor names.
    Stat { fd: u32, va: u32 },
    /// Sets the size of a file.
    SetSize { fd: u32, size: u32 },
    /// Removes a file.
    Remove { path: u32 },
    /// Writes what the disk lacks.
    Sync,
    /// Makes a descriptor name what another one names.
    Dup { old: u32, new: u32 },
    /// Makes a pipe, with a descriptor for each end.
    Pipe,
    /// Starts a program with these words.
    Spawn { path: u32, argv: u32 },
    /// A number that names no service.
    Unknown,
}

/// Whether a number names a service.
fn is_built(number: u32) -> bool
    ensures { result ≡ services.is_built number }
{
    number <= SERVICE_SPAWN
}

/// The service that a program asks for by INT 0x40, with its number in EAX and what it gives in EDX, ECX and EBX.
#[tactic(auto, unfolding(crate::specs::Services::service_of))]
pub fn service_of(regs: &Regs) -> Service
    ensures { result ≡ services.service_of regs.now }
{
    if is_built(regs.eax) {
        named_service(regs)
    } else {
        Service::Unknown
    }
}

/// The service of a number in EAX.
#[tactic(auto, unfolding(crate::specs::Services::named_service))]
fn named_service(regs: &Regs) -> Service
    ensures { result ≡ services.named_service regs.now }
{
    match regs.eax {
        SERVICE_EXIT => Service::Exit,
        SERVICE_CPUTS => Service::Cputs {
            va: regs.edx,
            len: regs.ecx,
        },
        SERVICE_GETID => Service::GetId,
        SERVICE_YIELD => Service::Yield,
        SERVICE_FORK => Service::Fork,
        SERVICE_WAIT => Service::Wait { id: regs.edx },
        SERVICE_PAGE_NEW => Service::PageNew {
            va: regs.edx,
            flags: regs.ecx,
        },
        SERVICE_PAGE_DROP => Service::PageDrop { va: regs.edx },
        SERVICE_SEND => Service::Send {
            id: regs.edx,
            value: regs.ecx,
            va: regs.ebx,
        },
        SERVICE_RECEIVE => Service::Receive {
            va: regs.edx,
            from: regs.ecx,
        },
        SERVICE_OPEN_FILE => Service::OpenFile {
            path: regs.edx,
            mode: regs.ecx,
        },
        SERVICE_CLOSE => Service::Close { fd: regs.edx },
        SERVICE_READ => Service::Read {
            fd: regs.edx,
            va: regs.ecx,
            len: regs.ebx,
        },
        SERVICE_WRITE => Service::Write {
            fd: regs.edx,
            va: regs.ecx,
            len: regs.ebx,
        },
        SERVICE_SEEK => Service::Seek {
            fd: regs.edx,
            offset: regs.ecx,
        },
        SERVICE_STAT => Service::Stat {
            fd: regs.edx,
            va: regs.ecx,
        },
        SERVICE_SET_SIZE => Service::SetSize {
            fd: regs.edx,
            size: regs.ecx,
        },
        SERVICE_REMOVE => Service::Remove { path: regs.edx },
        SERVICE_SYNC => Service::Sync,
        SERVICE_DUP => Service::Dup {
            old: regs.edx,
            new: regs.ecx,
        },
        SERVICE_PIPE => Service::Pipe,
        SERVICE_SPAWN => Service::Spawn {
            path: regs.edx,
            argv: regs.ecx,
        },
        _ => Service::Unknown,
    }
}

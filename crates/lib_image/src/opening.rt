//! spawn, where it has its file opened.

ghost use Rattle.std.specs.Prelude.{◌≡◌};
ghost use Rattle.lib_stage.specs.Asks.{IsAligned};
ghost use Rattle.lib_request.specs.PageRequests as requests;
ghost use Rattle.lib_image.specs.OpeningStages as stages;

use crate::nexts::{go_on, next_by, no_image, show};
use crate::numbers::HEADER_LEN;
use jos_base::{
    E_MAX_OPEN, FDTABLE, FIRST_ENV_ID, NPTENTRIES, PGSIZE, SYS_GETENVID, SYS_IPC_RECV, SYS_YIELD,
    UTEMP, UTOP,
};
use lib_fd::{ask_entry, descriptor_va, is_there};
use lib_os::{
    FD_SIZE, FSREQ_OPEN, FilePart, OpeningStep, REQUEST_MODE, ReadStep, SpawnStep, UVPD,
    UndoingStep,
};
use lib_request::{ask_with_page, reply_place};
use lib_stage::{Ask, Next};

/// The descriptors of an environment.
const DESCRIPTORS: u32 = lib_os::DESCRIPTORS as u32;

/// It waits for the reply; the page of the file is to come where that of the descriptor is, or nowhere, if none is free.
fn ask_opened(fd: u32) -> Ask
    ensures { result ≡ requests.reply_asked_at (stages.opened_va fd) }
{
    let va = if fd < DESCRIPTORS {
        descriptor_va(fd)
    } else {
        UTOP
    };
    Ask::System {
        number: SYS_IPC_RECV,
        args: [va, FIRST_ENV_ID, 0, 0, 0],
    }
}

/// What it asks of the kernel, where it has its file opened.
pub(crate) fn ask_of_opening(at: OpeningStep) -> Ask
    ensures is { result ≡ stages.opening_asks at }
    ensures aligned { IsAligned result }
{
    match at {
        OpeningStep::FreeRegion { .. } => Ask::Load {
            va: UVPD + 4 * (FDTABLE / PGSIZE / NPTENTRIES),
        },
        OpeningStep::FreeEntry { fd, .. } => ask_entry(fd),
        OpeningStep::StoringMode { .. } => Ask::Store {
            va: UTEMP + REQUEST_MODE,
            word: 0,
        },
        OpeningStep::OpenIdentifying { .. } => Ask::System {
            number: SYS_GETENVID,
            args: [0; 5],
        },
        OpeningStep::OpenAsking { .. } => ask_with_page(FSREQ_OPEN),
        OpeningStep::OpenPausing { .. } => Ask::System {
            number: SYS_YIELD,
            args: [0; 5],
        },
        OpeningStep::OpenAwaiting { fd, .. } => ask_opened(fd),
        OpeningStep::ReadingOpened { id, .. } => Ask::Load {
            va: reply_place(id),
        },
        OpeningStep::LoadingSize { fd, .. } => Ask::Load {
            va: descriptor_va(fd) + FD_SIZE,
        },
    }
}

/// By the entry of a descriptor's page: it looks at the next where that one is open, and goes on with it else.
fn free_by(esp: u32, fd: u32, word: u32) -> OpeningStep
    ensures { result ≡ stages.free_by esp fd word }
{
    if !is_there(word) {
        return OpeningStep::StoringMode { esp, fd };
    }
    if fd >= DESCRIPTORS - 1 {
        return OpeningStep::StoringMode {
            esp,
            fd: DESCRIPTORS,
        };
    }
    OpeningStep::FreeEntry { esp, fd: fd + 1 }
}

/// Refused with this answer, it gives its pages back.
fn not_opened(answer: u32) -> SpawnStep
    ensures { result ≡ stages.not_opened answer }
{
    SpawnStep::Undoing {
        at: UndoingStep::UndoingStack { error: answer },
    }
}

/// By the word that the file server has replied: 0, or the answer of an error.
fn opened_by(esp: u32, fd: u32, word: u32) -> SpawnStep
    ensures { result ≡ stages.opened_by esp fd word }
{
    if word != 0 {
        return not_opened(word);
    }
    if fd >= DESCRIPTORS {
        return not_opened(E_MAX_OPEN.wrapping_neg());
    }
    SpawnStep::Opening {
        at: OpeningStep::LoadingSize { esp, fd },
    }
}

/// By how many bytes the file had when it was opened.
fn sized_by(esp: u32, fd: u32, size: u32) -> SpawnStep
    ensures { result ≡ stages.sized_by esp fd size }
{
    if size < HEADER_LEN {
        return no_image(fd);
    }
    SpawnStep::Reading {
        part: FilePart::Header { esp, fd, size },
        at: ReadStep::LoadingNumber,
    }
}

/// What it does next by the word with which the kernel has answered, where it has its file opened.
pub(crate) fn next_of_opening(at: OpeningStep, word: u32) -> Next
    ensures { result ≡ stages.opening_next at word }
{
    let next = match at {
        OpeningStep::FreeRegion { esp } => if is_there(word) {
            OpeningStep::FreeEntry { esp, fd: 0 }
        } else {
            OpeningStep::StoringMode { esp, fd: 0 }
        },
        OpeningStep::FreeEntry { esp, fd } => free_by(esp, fd, word),
        OpeningStep::StoringMode { esp, fd } => OpeningStep::OpenIdentifying { esp, fd },
        OpeningStep::OpenIdentifying { esp, fd } => OpeningStep::OpenAsking { esp, fd, id: word },
        OpeningStep::OpenAsking { esp, fd, id } => {
            return next_by(
                SpawnStep::Opening {
                    at: OpeningStep::OpenPausing { esp, fd, id },
                },
                SpawnStep::Opening {
                    at: OpeningStep::OpenAwaiting { esp, fd, id },
                },
                not_opened(word),
                word,
            );
        }
        OpeningStep::OpenPausing { esp, fd, id } => OpeningStep::OpenAsking { esp, fd, id },
        OpeningStep::OpenAwaiting { esp, fd, id } => {
            return show(SpawnStep::Opening {
                at: OpeningStep::ReadingOpened { esp, fd, id },
            });
        }
        OpeningStep::ReadingOpened { esp, fd, .. } => return go_on(opened_by(esp, fd, word)),
        OpeningStep::LoadingSize { esp, fd } => return go_on(sized_by(esp, fd, word)),
    };
    go_on(SpawnStep::Opening { at: next })
}

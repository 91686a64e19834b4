//! spawn, where it reads a part of its file.

ghost use Rattle.std.specs.Prelude.{◌≡◌};
ghost use Rattle.lib_stage.specs.Asks.{IsAligned};
ghost use Rattle.lib_os.specs.FileServer as told;
ghost use Rattle.lib_image.specs.ReadingStages as stages;

use crate::nexts::{go_on, next_by, show};
use crate::numbers::{HEADER_LEN, HEADERS, SEGMENT_LEN};
use crate::testing::{Headed, words_from};
use jos_base::{SYS_GETENVID, SYS_YIELD, UTEMP};
use jos_elf::E_NOT_EXEC;
use lib_fd::descriptor_va;
use lib_os::{
    BearingStep, FD_FILE, FSREQ_READ_AT, FilePart, REQUEST_COUNT, REQUEST_FILE, REQUEST_PLACE,
    ReadStep, SpawnStep, TestingStep, UndoingStep,
};
use lib_request::{ask_reply, ask_with_page, reply_place};
use lib_stage::{Ask, Next};

/// What a request for a part tells the file server.
#[derive(Clone, Copy)]
struct PartRequest {
    /// The descriptor of the file.
    fd: u32,
    /// How many bytes are wanted.
    count: u32,
    /// The place of the first of them in the file.
    place: u32,
}

/// What a request for this part tells.
fn request_for(part: FilePart) -> PartRequest
    ensures fd { result.fd ≡ stages.fd_of part }
    ensures count { result.count ≡ stages.wanted part }
    ensures place { result.place ≡ stages.first_of part }
{
    match part {
        FilePart::Header { fd, .. } => PartRequest {
            fd,
            count: HEADER_LEN,
            place: 0,
        },
        FilePart::Table {
            fd,
            headers,
            place,
            ..
        } => PartRequest {
            fd,
            count: SEGMENT_LEN * headers.min(HEADERS),
            place,
        },
        FilePart::Piece {
            fd,
            done,
            end,
            place,
            ..
        } => PartRequest {
            fd,
            count: end.saturating_sub(done),
            place,
        },
    }
}

/// Refused with this answer, it undoes what it has done.
fn not_read(part: FilePart, answer: u32) -> SpawnStep
    ensures { result ≡ stages.not_read part answer }
{
    let at = match part {
        FilePart::Header { fd, .. } | FilePart::Table { fd, .. } => {
            UndoingStep::ClosingFile { fd, error: answer }
        }
        FilePart::Piece { fd, child, .. } => UndoingStep::DestroyingChild {
            fd,
            child,
            error: answer,
        },
    };
    SpawnStep::Undoing { at }
}

/// The page has the part: it is tested, or given to the child.
fn once_read(part: FilePart) -> SpawnStep
    ensures { result ≡ stages.once_read part }
{
    match part {
        FilePart::Header { esp, fd, size } => SpawnStep::Testing {
            at: TestingStep::HeaderMagic { esp, fd, size },
        },
        FilePart::Table {
            esp,
            fd,
            size,
            entry_point,
            headers,
            ..
        } => words_from(
            Headed {
                esp,
                fd,
                size,
                entry_point,
                headers,
            },
            0,
        ),
        FilePart::Piece {
            fd,
            headers,
            child,
            header,
            done,
            end,
            ..
        } => SpawnStep::Bearing {
            at: BearingStep::PieceAddress {
                fd,
                headers,
                child,
                header,
                done,
                end,
            },
        },
    }
}

/// A reply of less than this tells how many bytes have come.
fn is_count(word: u32) -> bool
    ensures { result ≡ told.is_count word }
{
    word < 0x8000_0000
}

/// By the word of a reply: it tells how many bytes have come, or an error.
fn read_by(part: FilePart, word: u32) -> SpawnStep
    ensures { result ≡ stages.read_by part word }
{
    if !is_count(word) {
        return not_read(part, word);
    }
    let count = request_for(part).count;
    if word == count || count == 0 {
        return once_read(part);
    }
    not_read(part, E_NOT_EXEC.wrapping_neg())
}

/// What it asks of the kernel, where it reads a part of its file.
pub(crate) fn ask_of_reading(part: FilePart, at: ReadStep) -> Ask
    ensures is { result ≡ stages.reading_asks part at }
    ensures aligned { IsAligned result }
{
    match at {
        ReadStep::LoadingNumber => Ask::Load {
            va: descriptor_va(request_for(part).fd) + FD_FILE,
        },
        ReadStep::StoringNumber { number } => Ask::Store {
            va: UTEMP + REQUEST_FILE,
            word: number,
        },
        ReadStep::StoringCount => Ask::Store {
            va: UTEMP + REQUEST_COUNT,
            word: request_for(part).count,
        },
        ReadStep::StoringPlace => Ask::Store {
            va: UTEMP + REQUEST_PLACE,
            word: request_for(part).place,
        },
        ReadStep::Identifying => Ask::System {
            number: SYS_GETENVID,
            args: [0; 5],
        },
        ReadStep::Asking { .. } => ask_with_page(FSREQ_READ_AT),
        ReadStep::Pausing { .. } => Ask::System {
            number: SYS_YIELD,
            args: [0; 5],
        },
        ReadStep::Awaiting { .. } => ask_reply(),
        ReadStep::ReadingReply { id } => Ask::Load {
            va: reply_place(id),
        },
    }
}

/// What it does next by the word with which the kernel has answered, where it reads a part of its file.
pub(crate) fn next_of_reading(part: FilePart, at: ReadStep, word: u32) -> Next
    ensures { result ≡ stages.reading_next part at word }
{
    let next = match at {
        ReadStep::LoadingNumber => ReadStep::StoringNumber { number: word },
        ReadStep::StoringNumber { .. } => ReadStep::StoringCount,
        ReadStep::StoringCount => ReadStep::StoringPlace,
        ReadStep::StoringPlace => ReadStep::Identifying,
        ReadStep::Identifying => ReadStep::Asking { id: word },
        ReadStep::Asking { id } => {
            return next_by(
                SpawnStep::Reading {
                    part,
                    at: ReadStep::Pausing { id },
                },
                SpawnStep::Reading {
                    part,
                    at: ReadStep::Awaiting { id },
                },
                not_read(part, word),
                word,
            );
        }
        ReadStep::Pausing { id } => ReadStep::Asking { id },
        ReadStep::Awaiting { id } => {
            return show(SpawnStep::Reading {
                part,
                at: ReadStep::ReadingReply { id },
            });
        }
        ReadStep::ReadingReply { .. } => return go_on(read_by(part, word)),
    };
    go_on(SpawnStep::Reading { part, at: next })
}

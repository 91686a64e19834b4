//! What the server asks where it stands, and where it goes by the reply.

ghost use Rattle.std.specs.Prelude.{◌≡◌, ◌%◌, ◌<◌};
ghost use Rattle.lib_os.specs.declared.numbers.TheConstants.{MAXOPEN};
ghost use Rattle.fs_requests.specs.ServerPlans as plans;

use crate::state::{ServerState, ServerStep};
use fs_jobs::{Job, negated};
use jos_base::{
    E_INVAL, E_IPC_NOT_RECV, E_MAX_OPEN, E_NO_MEM, ENV_IPC_FROM, ENV_IPC_VALUE, FDTABLE, PGSIZE,
    PTE_P, PTE_U, PTE_W, SYS_GETENVID, SYS_IPC_RECV, SYS_IPC_TRY_SEND, SYS_PAGE_ALLOC,
    SYS_PAGE_UNMAP, SYS_YIELD, UENVS, UPAGES, UTOP, UVPT,
};
use lib_os::{
    DEVICE_FILE, FD_DEVICE, FD_FILE, FD_MODE, FD_OFFSET, FD_SIZE, MAXOPEN, OPEN_RECORDS, PTE_SHARE,
    Progress, REQUEST, REQUEST_COUNT, REQUEST_FILE, REQUEST_MODE, REQUEST_PLACE, RequestKind,
    request_kind,
};

/// A call of the kernel.
#[derive(Clone, Copy)]
pub enum ServerCall {
    /// The word at an address that is a multiple of four.
    Load { va: u32 },
    /// Puts a word at an address that is a multiple of four.
    Store { va: u32, word: u32 },
    /// The system call with a number, given these words.
    System { number: u32, args: [u32; 5] },
}

/// What is asked where the server stands. Each is one call.
#[derive(Clone, Copy)]
pub enum ServerAsk {
    /// A call of the server's own.
    Call(ServerCall),
    /// A step of the job on files.
    Work,
    /// A step of a flush of the cache.
    Flush,
}

/// Where the server goes: what it is about to do, the job that begins, if one does, and what the step that it has made is to those who see the
/// abstract system.
#[derive(Clone, Copy)]
pub struct ServerNext {
    pub state: ServerState,
    pub begins: Option<Job>,
    pub seen: Progress,
}

/// The bits of the page of a descriptor, which is shared.
const OPEN_PERM: u32 = PTE_P + PTE_U + PTE_W + PTE_SHARE;

/// The address of the page of an open file, which is that of its descriptors. (MIT 6.828, lab 5: fs/serv.c, `FILEVA`)
fn open_page(number: u32) -> u32
    ensures is { result ≡ plans.open_page number }
    ensures aligned { result % 4 ≡ 0 }
    ensures below { result < 0xd0400000 }
{
    FDTABLE + PGSIZE * (number % MAXOPEN)
}

/// The word of the table that tells where the record of an open file stands.
fn open_record(number: u32) -> u32
    ensures { result ≡ plans.open_record number }
{
    OPEN_RECORDS + 4 * (number % MAXOPEN)
}

/// Where the place of the next byte stands: in the page of the file, or in that of a request which tells it.
fn place_va(kind: Option<RequestKind>, number: u32) -> u32
    ensures is { result ≡ plans.place_va kind number }
    ensures aligned { result % 4 ≡ 0 }
{
    match kind {
        Some(RequestKind::ReadAt) => REQUEST + REQUEST_PLACE,
        _ => open_page(number) + FD_OFFSET,
    }
}

/// The bits with which a page goes with a reply, and its address: what was opened goes with its page, and no other reply has one.
fn page_with(state: ServerState) -> (u32, u32)
    ensures { result ≡ plans.page_with state }
{
    match state.kind {
        Some(RequestKind::Open) if state.count == 0 => (open_page(state.number), OPEN_PERM),
        _ => (UTOP, 0),
    }
}

/// What the server asks of the kernel where it stands. Where a job or a flush makes a step, that asks in its place.
fn call_at(state: ServerState) -> ServerCall
    ensures asks { result ≡ plans.call_at state }
    ensures own { plans.IsOwnCall result }
{
    let page = open_page(state.number);
    match state.step {
        ServerStep::Releasing => ServerCall::System {
            number: SYS_PAGE_UNMAP,
            args: [0, REQUEST, 0, 0, 0],
        },
        ServerStep::Receiving => ServerCall::System {
            number: SYS_IPC_RECV,
            args: [REQUEST, 0, 0, 0, 0],
        },
        ServerStep::ReadingKind => ServerCall::Load {
            va: UENVS + 4 * ENV_IPC_VALUE,
        },
        ServerStep::ReadingClient => ServerCall::Load {
            va: UENVS + 4 * ENV_IPC_FROM,
        },
        ServerStep::ReadingFile => ServerCall::Load {
            va: REQUEST + REQUEST_FILE,
        },
        ServerStep::ReadingCount => ServerCall::Load {
            va: REQUEST + REQUEST_COUNT,
        },
        ServerStep::ReadingMode | ServerStep::ReadingModeAgain => ServerCall::Load {
            va: REQUEST + REQUEST_MODE,
        },
        ServerStep::ReadingOffset => ServerCall::Load {
            va: place_va(state.kind, state.number),
        },
        ServerStep::Advancing => ServerCall::Load {
            va: page + FD_OFFSET,
        },
        ServerStep::ReadingRecord
        | ServerStep::LookingRecord
        | ServerStep::CheckingRecord
        | ServerStep::ReadingRecordAgain => ServerCall::Load {
            va: open_record(state.number),
        },
        ServerStep::LookingEntry | ServerStep::CheckingEntry => ServerCall::Load {
            va: UVPT + 4 * (page / PGSIZE),
        },
        // The record of a frame has two words, of which the second is its count.
        ServerStep::LookingHolders | ServerStep::CheckingHolders => ServerCall::Load {
            va: UPAGES + 8 * (state.at / PGSIZE) + 4,
        },
        ServerStep::TakingPage => ServerCall::System {
            number: SYS_PAGE_ALLOC,
            args: [0, page, OPEN_PERM, 0, 0],
        },
        ServerStep::StoringRecord => ServerCall::Store {
            va: open_record(state.number),
            word: state.home,
        },
        ServerStep::StoringDevice => ServerCall::Store {
            va: page + FD_DEVICE,
            word: DEVICE_FILE,
        },
        ServerStep::StoringMode => ServerCall::Store {
            va: page + FD_MODE,
            word: state.count % 4,
        },
        ServerStep::StoringFile => ServerCall::Store {
            va: page + FD_FILE,
            word: state.number,
        },
        ServerStep::StoringSize => ServerCall::Store {
            va: page + FD_SIZE,
            word: state.count,
        },
        ServerStep::StoringOffset => ServerCall::Store {
            va: page + FD_OFFSET,
            word: state.at,
        },
        ServerStep::Acting
        | ServerStep::Working
        | ServerStep::Finding
        | ServerStep::Sizing
        | ServerStep::Flushing => ServerCall::System {
            number: SYS_GETENVID,
            args: [0; 5],
        },
        ServerStep::Replying => {
            let (va, perm) = page_with(state);
            ServerCall::System {
                number: SYS_IPC_TRY_SEND,
                args: [state.client, state.count, va, perm, 0],
            }
        }
        ServerStep::Pausing => ServerCall::System {
            number: SYS_YIELD,
            args: [0; 5],
        },
    }
}

/// What it asks.
pub fn ask_at(state: ServerState) -> ServerAsk
    ensures asks { result ≡ plans.ask_at state }
    ensures own { plans.IsOwnAsk result }
{
    match state.step {
        ServerStep::Working | ServerStep::Finding | ServerStep::Sizing => ServerAsk::Work,
        ServerStep::Flushing => ServerAsk::Flush,
        _ => ServerAsk::Call(call_at(state)),
    }
}

/// It goes on, which nobody sees.
fn hidden(state: ServerState, step: ServerStep) -> ServerNext
    ensures { result ≡ plans.hidden state step }
{
    ServerNext {
        state: ServerState { step, ..state },
        begins: None,
        seen: Progress::Hidden,
    }
}

/// It goes on, and has made a step of the abstract system.
fn shown(state: ServerState, step: ServerStep) -> ServerNext
    ensures { result ≡ plans.shown state step }
{
    ServerNext {
        state: ServerState { step, ..state },
        begins: None,
        seen: Progress::Visible,
    }
}

/// A job begins.
fn begun(state: ServerState, step: ServerStep, job: Job) -> ServerNext
    ensures { result ≡ plans.begun state step job }
{
    ServerNext {
        state: ServerState { step, ..state },
        begins: Some(job),
        seen: Progress::Hidden,
    }
}

/// The act comes to this answer, which the next step shows.
fn acting(state: ServerState, answer: u32) -> ServerNext
    ensures { result ≡ plans.acting state answer }
{
    hidden(
        ServerState {
            count: answer,
            ..state
        },
        ServerStep::Acting,
    )
}

/// The act was made in this step, and comes to this answer.
fn acted(state: ServerState, answer: u32) -> ServerNext
    ensures { result ≡ plans.acted state answer }
{
    shown(
        ServerState {
            count: answer,
            ..state
        },
        ServerStep::Replying,
    )
}

/// A request has come from this client.
fn next_request(state: ServerState) -> ServerNext
    ensures { result ≡ plans.next_request state }
{
    let first = ServerState { number: 0, ..state };
    match state.kind {
        Some(RequestKind::Open) => hidden(first, ServerStep::LookingRecord),
        Some(RequestKind::Remove) => begun(first, ServerStep::Finding, Job::Find),
        Some(RequestKind::Sync) => hidden(first, ServerStep::Flushing),
        Some(
            RequestKind::Read
            | RequestKind::ReadAt
            | RequestKind::Write
            | RequestKind::SetSize
            | RequestKind::Stat
            | RequestKind::Seek,
        ) => hidden(first, ServerStep::ReadingFile),
        None => acting(first, negated(E_INVAL)),
    }
}

/// A count, a size or an offset was read: a seek has all that it wants.
fn next_count(state: ServerState, word: u32) -> ServerNext
    ensures { result ≡ plans.next_count state word }
{
    match state.kind {
        Some(RequestKind::Seek) => hidden(
            ServerState {
                at: word,
                count: 0,
                ..state
            },
            ServerStep::StoringOffset,
        ),
        _ => hidden(
            ServerState {
                count: word,
                ..state
            },
            ServerStep::ReadingRecord,
        ),
    }
}

/// The record of the file stands here, and the job begins.
fn next_record(state: ServerState, home: u32) -> ServerNext
    ensures { result ≡ plans.next_record state home }
{
    let job = match state.kind {
        Some(RequestKind::Read | RequestKind::ReadAt) => Job::Read {
            home,
            at: state.at,
            count: state.count,
        },
        Some(RequestKind::Write) => Job::Write {
            home,
            at: state.at,
            count: state.count,
        },
        Some(RequestKind::SetSize) => Job::SetSize {
            home,
            size: state.count,
        },
        _ => Job::Stat { home },
    };
    begun(state, ServerStep::Working, job)
}

/// A job that answers less than this has made its act.
fn is_count(answer: u32) -> bool
    ensures { result ≡ plans.is_count answer }
{
    answer < 0x8000_0000
}

/// The job has answered: what was opened is looked up once more, for its record; where bytes were moved the place of the next goes on by them.
fn next_worked(state: ServerState, answer: u32) -> ServerNext
    ensures { result ≡ plans.next_worked state answer }
{
    match state.kind {
        Some(RequestKind::Open) if answer == 0 => begun(state, ServerStep::Finding, Job::Find),
        Some(RequestKind::Read | RequestKind::Write) if is_count(answer) => hidden(
            ServerState {
                count: answer,
                ..state
            },
            ServerStep::Advancing,
        ),
        _ => acting(state, answer),
    }
}

/// A path was looked up: the place of the record, or an error.
fn next_found(state: ServerState, answer: u32) -> ServerNext
    ensures { result ≡ plans.next_found state answer }
{
    let found = ServerState {
        home: answer,
        ..state
    };
    match state.kind {
        Some(RequestKind::Open) if is_count(answer) => hidden(found, ServerStep::StoringRecord),
        Some(RequestKind::Remove) if is_count(answer) => {
            hidden(found, ServerStep::CheckingRecord)
        }
        _ => acting(state, answer),
    }
}

/// The size of what was opened is told.
fn next_sized(state: ServerState, size: u32) -> ServerNext
    ensures { result ≡ plans.next_sized state size }
{
    if is_count(size) {
        hidden(
            ServerState {
                count: size,
                ..state
            },
            ServerStep::StoringSize,
        )
    } else {
        acting(state, size)
    }
}

/// Whether a frame with this count is mapped by another, beside the server.
fn is_held(holders: u32) -> bool
    ensures { result ≡ plans.is_held holders }
{
    holders >= 2
}

/// The place is held or not: then the next is looked at, if there is one, or the file is opened there.
fn next_holders(state: ServerState, holders: u32) -> ServerNext
    ensures { result ≡ plans.next_holders state holders }
{
    if !is_held(holders) {
        shown(state, ServerStep::ReadingMode)
    } else if state.number % MAXOPEN + 1 < MAXOPEN {
        shown(
            ServerState {
                number: state.number % MAXOPEN + 1,
                ..state
            },
            ServerStep::LookingRecord,
        )
    } else {
        acted(state, negated(E_MAX_OPEN))
    }
}

/// The file that is to be removed is not open at the place at hand: the next is looked at, or the file is removed.
fn next_check(state: ServerState) -> ServerNext
    ensures { result ≡ plans.next_check state }
{
    if state.number % MAXOPEN + 1 < MAXOPEN {
        hidden(
            ServerState {
                number: state.number % MAXOPEN + 1,
                ..state
            },
            ServerStep::CheckingRecord,
        )
    } else {
        begun(state, ServerStep::Working, Job::Remove { home: state.home })
    }
}

/// The reply has gone, or the client does not wait yet. Where no table was to be had for the page that goes with it, the answer is that error, and no
/// page goes with it.
fn next_replied(state: ServerState, answer: u32) -> ServerNext
    ensures { result ≡ plans.next_replied state answer }
{
    if answer == negated(E_IPC_NOT_RECV) {
        ServerNext {
            state: ServerState {
                step: ServerStep::Pausing,
                ..state
            },
            begins: None,
            seen: Progress::Waited,
        }
    } else if answer == negated(E_NO_MEM) && state.count != answer {
        hidden(
            ServerState {
                count: answer,
                ..state
            },
            ServerStep::Replying,
        )
    } else {
        shown(state, ServerStep::Releasing)
    }
}

/// Where the server goes by the reply.
pub fn next_at(state: ServerState, word: u32) -> ServerNext
    ensures { result ≡ plans.next_at state word }
{
    match state.step {
        ServerStep::Releasing => hidden(state, ServerStep::Receiving),
        ServerStep::Receiving => shown(state, ServerStep::ReadingKind),
        ServerStep::ReadingKind => hidden(
            ServerState {
                kind: request_kind(word),
                ..state
            },
            ServerStep::ReadingClient,
        ),
        ServerStep::ReadingClient => next_request(ServerState {
            client: word,
            ..state
        }),
        ServerStep::ReadingFile => hidden(
            ServerState {
                number: word % MAXOPEN,
                ..state
            },
            ServerStep::ReadingOffset,
        ),
        ServerStep::ReadingOffset => {
            hidden(ServerState { at: word, ..state }, ServerStep::ReadingCount)
        }
        ServerStep::ReadingCount => next_count(state, word),
        ServerStep::ReadingRecord => next_record(state, word),
        ServerStep::LookingRecord => {
            if word == 0 {
                shown(state, ServerStep::TakingPage)
            } else {
                hidden(state, ServerStep::LookingEntry)
            }
        }
        ServerStep::LookingEntry => hidden(
            ServerState { at: word, ..state },
            ServerStep::LookingHolders,
        ),
        ServerStep::LookingHolders => next_holders(state, word),
        ServerStep::TakingPage => {
            if word == 0 {
                hidden(state, ServerStep::ReadingMode)
            } else {
                acting(state, word)
            }
        }
        ServerStep::ReadingMode => begun(state, ServerStep::Working, Job::Open { mode: word }),
        ServerStep::Working => next_worked(state, word),
        ServerStep::Finding => next_found(state, word),
        ServerStep::StoringRecord => hidden(state, ServerStep::StoringDevice),
        ServerStep::StoringDevice => hidden(state, ServerStep::ReadingModeAgain),
        ServerStep::ReadingModeAgain => hidden(
            ServerState {
                count: word,
                ..state
            },
            ServerStep::StoringMode,
        ),
        ServerStep::StoringMode => hidden(state, ServerStep::StoringFile),
        ServerStep::StoringFile => hidden(state, ServerStep::ReadingRecordAgain),
        ServerStep::ReadingRecordAgain => {
            begun(state, ServerStep::Sizing, Job::Size { home: word })
        }
        ServerStep::Sizing => next_sized(state, word),
        ServerStep::StoringSize => hidden(
            ServerState {
                at: 0,
                count: 0,
                ..state
            },
            ServerStep::StoringOffset,
        ),
        ServerStep::Advancing => hidden(
            ServerState {
                at: word.wrapping_add(state.count),
                ..state
            },
            ServerStep::StoringOffset,
        ),
        ServerStep::StoringOffset => shown(state, ServerStep::Replying),
        ServerStep::CheckingRecord => {
            if word == state.home {
                hidden(state, ServerStep::CheckingEntry)
            } else {
                next_check(state)
            }
        }
        ServerStep::CheckingEntry => hidden(
            ServerState { at: word, ..state },
            ServerStep::CheckingHolders,
        ),
        ServerStep::CheckingHolders => {
            if is_held(word) {
                acted(state, negated(E_INVAL))
            } else {
                next_check(state)
            }
        }
        ServerStep::Flushing => acting(state, 0),
        ServerStep::Acting => shown(state, ServerStep::Replying),
        ServerStep::Replying => next_replied(state, word),
        ServerStep::Pausing => hidden(state, ServerStep::Replying),
    }
}

//! Where the file server stands between two steps.

ghost use Rattle.std.specs.Prelude.{◌≡◌, ◌<◌};
ghost use Rattle.fs_requests.specs.ServerWords as words;

use jos_base::{Extra, Regs};
use lib_os::{MAXOPEN, RequestKind, request_kind, request_word};

/// What the server is about to do. "The file" is that of the place at hand of the table of open files.
#[derive(Clone, Copy, Debug, PartialEq, Eq)]
pub enum ServerStep {
    /// It takes the page of the last request away.
    Releasing,
    /// It waits for a request.
    Receiving,
    /// It reads what is asked for, and who asks.
    ReadingKind,
    ReadingClient,
    /// It reads of the request which file is meant, of the file's page the place of the next byte, of the request a count, a size or an offset, and
    /// of the table where the file's record stands.
    ReadingFile,
    ReadingOffset,
    ReadingCount,
    ReadingRecord,
    /// For a file that is to be opened it looks for a place that nobody holds: whether a record stands there, which frame the place's page
    /// has, and how often that is mapped.
    LookingRecord,
    LookingEntry,
    LookingHolders,
    /// The place was never used, and it takes a page for it.
    TakingPage,
    /// It reads of the request the mode in which the file is to be opened.
    ReadingMode,
    /// It makes a step of the act on the files.
    Working,
    /// It makes a step of looking up a path: what was opened, or is to be removed.
    Finding,
    /// What is opened gets its place: where the record stands, and in the place's page what a descriptor names, the mode and the file's number.
    StoringRecord,
    StoringDevice,
    ReadingModeAgain,
    StoringMode,
    StoringFile,
    /// And its size: where the record stands is read of the table again, it makes a step of asking how many bytes the file has, and stores that.
    ReadingRecordAgain,
    Sizing,
    StoringSize,
    /// The place of the next byte goes on by what was read or written.
    Advancing,
    /// It stores the place of the next byte. This is the act that is seen.
    StoringOffset,
    /// For a file that is to be removed it looks whether it is open at a place: whether its record stands there, which frame the place's page has, and
    /// how often that is mapped.
    CheckingRecord,
    CheckingEntry,
    CheckingHolders,
    /// It writes the next dirty block to the disk.
    Flushing,
    /// The act is made, and this step shows it.
    Acting,
    /// It replies.
    Replying,
    /// The client does not wait yet, and it gives up its turn.
    Pausing,
}

/// Where the server stands: what it is about to do; what it was asked for, if that is anything; by whom; the number of the place at hand of the
/// table of open files; and three words: where a file's record stands on the disk, the place of the next byte or an entry, and a count, a size or an
/// answer.
#[derive(Clone, Copy, Debug, PartialEq, Eq)]
pub struct ServerState {
    pub step: ServerStep,
    pub kind: Option<RequestKind>,
    pub client: u32,
    pub number: u32,
    pub home: u32,
    pub at: u32,
    pub count: u32,
}

/// The number of a step.
#[tactic(auto, unfolding(crate::specs::ServerWords::step_word))]
fn step_word(step: ServerStep) -> u32
    ensures word { result ≡ words.step_word step }
    ensures small { result < 32 }
{
    match step {
        ServerStep::Releasing => 0,
        ServerStep::Receiving => 1,
        ServerStep::ReadingKind => 2,
        ServerStep::ReadingClient => 3,
        ServerStep::ReadingFile => 4,
        ServerStep::ReadingOffset => 5,
        ServerStep::ReadingCount => 6,
        ServerStep::ReadingRecord => 7,
        ServerStep::LookingRecord => 8,
        ServerStep::LookingEntry => 9,
        ServerStep::LookingHolders => 10,
        ServerStep::TakingPage => 11,
        ServerStep::ReadingMode => 12,
        ServerStep::Working => 13,
        ServerStep::Finding => 14,
        ServerStep::StoringRecord => 15,
        ServerStep::StoringDevice => 16,
        ServerStep::ReadingModeAgain => 17,
        ServerStep::StoringMode => 18,
        ServerStep::StoringFile => 19,
        ServerStep::ReadingRecordAgain => 20,
        ServerStep::Sizing => 21,
        ServerStep::StoringSize => 22,
        ServerStep::Advancing => 23,
        ServerStep::StoringOffset => 24,
        ServerStep::CheckingRecord => 25,
        ServerStep::CheckingEntry => 26,
        ServerStep::CheckingHolders => 27,
        ServerStep::Flushing => 28,
        ServerStep::Acting => 29,
        ServerStep::Replying => 30,
        ServerStep::Pausing => 31,
    }
}

/// The step that a number names.
#[tactic(auto, unfolding(crate::specs::ServerWords::step_in))]
fn step_in(word: u32) -> ServerStep
    ensures { result ≡ words.step_in word }
{
    match word {
        0 => ServerStep::Releasing,
        1 => ServerStep::Receiving,
        2 => ServerStep::ReadingKind,
        3 => ServerStep::ReadingClient,
        4 => ServerStep::ReadingFile,
        5 => ServerStep::ReadingOffset,
        6 => ServerStep::ReadingCount,
        7 => ServerStep::ReadingRecord,
        8 => ServerStep::LookingRecord,
        9 => ServerStep::LookingEntry,
        10 => ServerStep::LookingHolders,
        11 => ServerStep::TakingPage,
        12 => ServerStep::ReadingMode,
        13 => ServerStep::Working,
        14 => ServerStep::Finding,
        15 => ServerStep::StoringRecord,
        16 => ServerStep::StoringDevice,
        17 => ServerStep::ReadingModeAgain,
        18 => ServerStep::StoringMode,
        19 => ServerStep::StoringFile,
        20 => ServerStep::ReadingRecordAgain,
        21 => ServerStep::Sizing,
        22 => ServerStep::StoringSize,
        23 => ServerStep::Advancing,
        24 => ServerStep::StoringOffset,
        25 => ServerStep::CheckingRecord,
        26 => ServerStep::CheckingEntry,
        27 => ServerStep::CheckingHolders,
        28 => ServerStep::Flushing,
        29 => ServerStep::Acting,
        30 => ServerStep::Replying,
        _ => ServerStep::Pausing,
    }
}

/// The word of what was asked for; 0 where that is nothing.
fn kind_word(kind: Option<RequestKind>) -> u32
    ensures word { result ≡ words.kind_word kind }
    ensures small { result < 16 }
{
    match kind {
        Some(kind) => request_word(kind),
        None => 0,
    }
}

/// Where the server stands, by the registers and the words that its environment keeps for the library.
#[tactic(auto, unfolding(crate::specs::ServerWords::server_in))]
pub fn find_server(registers: &Regs, extra: &Extra) -> ServerState
    ensures { result ≡ words.server_in registers.now extra.now.0 }
{
    let [_, home, at, count, _, _, _, _, _, _, _, _] = extra.0;
    let told = registers.eip;
    ServerState {
        step: step_in(told % 32),
        kind: request_kind(told / 32 % 16),
        client: registers.esi,
        number: told / 512 % MAXOPEN,
        home,
        at,
        count,
    }
}

/// The registers and the words with which it stands so.
#[tactic(auto, unfolding(crate::specs::ServerWords::words_with))]
pub fn with_server(registers: Regs, extra: &Extra, state: ServerState) -> (Regs, Extra)
    ensures registers { result.0 ≡ words.registers_with registers state }
    ensures words { result.1.0 ≡ words.words_with extra.now.0 state }
{
    let eip = step_word(state.step) + 32 * kind_word(state.kind) + 512 * (state.number % MAXOPEN);
    let mut words = extra.0;
    words[1] = state.home;
    words[2] = state.at;
    words[3] = state.count;
    (
        Regs {
            esi: state.client,
            eip,
            ..registers
        },
        Extra(words),
    )
}

//! What read and stat of a file ask at each stage behind the look at their descriptor, and what they do next.

ghost use Rattle.std.specs.Prelude.{◌≡◌};
ghost use Rattle.lib_bytes.specs.FileStages as stages;

use jos_base::{PGSIZE, PTE_P, PTE_U, PTE_W, SYS_GETENVID, SYS_PAGE_ALLOC, SYS_YIELD, UTEMP};
use lib_fd::{descriptor_va, is_there};
use lib_file::{ask_page_entry, ask_page_region, is_writable, moved_at_once};
use lib_os::{
    FD_FILE, REQUEST_COUNT, REQUEST_FILE, RequestKind, STAT_SIZE, Step, TRANSFER_MAX, request_word,
};
use lib_request::{ask_clearing, ask_reply, ask_with_page, next_of_asking, reply_place};
use lib_stage::{Ask, Next};

/// Which of the two it is. (MIT 6.828, lab 5: lib/file.c, `devfile_read` and `devfile_stat`)
#[derive(Clone, Copy, Debug, PartialEq, Eq)]
pub enum FileService {
    /// read(fd, va, len): at most `len` bytes from the file's offset on, and at most `TRANSFER_MAX`, go to `va`; it answers how many.
    Read { len: u32 },
    /// stat(fd, va): `STAT_SIZE` bytes, the name, the size in bytes and the kind, go to `va`; it answers 0.
    Stat,
}

/// How far it is, of a file. `done` and `count` are numbers of bytes, `word` and `first` are four bytes, the lowest first, and `id` is the
/// environment's id.
#[derive(Clone, Copy, Debug, PartialEq, Eq)]
pub enum FileStage {
    /// It is about to take a page for its request.
    TakingPage,
    /// It is about to read the number of the file.
    ReadingNumber,
    /// It is about to put the number into its page.
    StoringNumber { number: u32 },
    /// It is about to put there how many bytes it wants.
    StoringCount,
    /// Its page tells the request, and it is about to ask for its id.
    Identifying,
    /// It is about to ask the server, and has this id.
    Asking { id: u32 },
    /// It has asked in vain, and is about to give up its turn.
    Pausing { id: u32 },
    /// It has asked, and is about to wait for the reply.
    Awaiting { id: u32 },
    /// It waits, or is about to read from the word that came how many bytes its page has.
    CountingReply { id: u32 },
    /// It has none, and it is about to give its page back.
    Clearing { id: u32 },
    /// It is about to read the word that came, which it answers.
    ReadingReply { id: u32 },
    /// It has put `done` of `count` bytes, and is about to read whether the region of the next has a table.
    Region { done: u32, count: u32 },
    /// It is about to read the entry of the next byte's page.
    Entry { done: u32, count: u32 },
    /// It is about to load the next bytes, or the word that has the first of them.
    Loading { done: u32, count: u32 },
    /// It has loaded that word, and is about to load the next, which has the others.
    Rest { done: u32, count: u32, first: u32 },
    /// It has loaded the next bytes, and is about to put them.
    Putting { done: u32, count: u32, word: u32 },
    /// The next byte can't be put, and it is about to raise the fault that ends the environment.
    Faulting { done: u32, count: u32 },
    /// All bytes are put, and it is about to give its page back, and to answer this.
    Returning { answer: u32 },
}

/// The stage that is kept as a step, if it is one of these.
pub fn file_stage_at(step: Step) -> Option<FileStage>
    ensures { result ≡ stages.stage_at step }
{
    let at = match step {
        Step::TakingPage => FileStage::TakingPage,
        Step::ReadingNumber => FileStage::ReadingNumber,
        Step::StoringNumber { number } => FileStage::StoringNumber { number },
        Step::StoringCount => FileStage::StoringCount,
        Step::Identifying => FileStage::Identifying,
        Step::Asking { id } => FileStage::Asking { id },
        Step::Pausing { perm } => FileStage::Pausing { id: perm },
        Step::Awaiting { id } => FileStage::Awaiting { id },
        Step::CountingReply { id } => FileStage::CountingReply { id },
        Step::Clearing { id } => FileStage::Clearing { id },
        Step::ReadingReply { id } => FileStage::ReadingReply { id },
        Step::FileRegion { done, count } => FileStage::Region { done, count },
        Step::FileEntry { done, count } => FileStage::Entry { done, count },
        Step::LoadingBytes { done, count } => FileStage::Loading { done, count },
        Step::LoadingRest { done, count, first } => FileStage::Rest { done, count, first },
        Step::PuttingBytes { done, count, word } => FileStage::Putting { done, count, word },
        Step::FileFaulting { done, count } => FileStage::Faulting { done, count },
        Step::Returning { answer } => FileStage::Returning { answer },
        _ => return None,
    };
    Some(at)
}

/// The word of its request.
fn word_of(service: FileService) -> u32
    ensures { result ≡ stages.word_of service }
{
    match service {
        FileService::Read { .. } => request_word(RequestKind::Read),
        FileService::Stat => request_word(RequestKind::Stat),
    }
}

/// How many bytes are wanted by it.
fn wanted(service: FileService) -> u32
    ensures { result ≡ stages.wanted service }
{
    match service {
        FileService::Read { len } => len.min(TRANSFER_MAX),
        FileService::Stat => 0,
    }
}

/// How many bytes come with a reply, by its word; none come with an error's number.
fn handed(service: FileService, word: u32) -> u32
    ensures { result ≡ stages.handed service word }
{
    match service {
        FileService::Read { len } => {
            if word <= len.min(TRANSFER_MAX) {
                word
            } else {
                0
            }
        }
        FileService::Stat => { if word == 0 { STAT_SIZE } else { 0 } }
    }
}

/// What is answered behind so many bytes.
fn answer_behind(service: FileService, count: u32) -> u32
    ensures { result ≡ stages.answer_behind service count }
{
    match service {
        FileService::Read { .. } => count,
        FileService::Stat => 0,
    }
}

/// How many bytes are put at once, behind so many.
pub fn moved(va: u32, done: u32, count: u32) -> u32
    ensures { result ≡ stages.moved va done count }
{
    moved_at_once(va.wrapping_add(done), count.saturating_sub(done))
}

/// What is asked to load the next bytes.
pub fn ask_loading(va: u32, done: u32, count: u32) -> Ask
    ensures { result ≡ stages.loading_asked va done count }
{
    if moved(va, done, count) == 4 {
        Ask::Load {
            va: UTEMP + (done - done % 4) % PGSIZE,
        }
    } else {
        Ask::LoadByte {
            va: UTEMP + done % PGSIZE,
        }
    }
}

/// What is asked to load the word that has the others of them.
pub fn ask_rest(done: u32) -> Ask
    ensures { result ≡ stages.rest_asked done }
{
    Ask::Load {
        va: UTEMP + (done - done % 4).wrapping_add(4) % PGSIZE,
    }
}

/// What is asked to put them.
fn ask_putting(va: u32, done: u32, count: u32, word: u32) -> Ask
    ensures { result ≡ stages.putting_asked va done count word }
{
    let at = va.wrapping_add(done);
    if moved(va, done, count) == 4 {
        Ask::Store { va: at, word }
    } else {
        Ask::StoreByte {
            va: at,
            byte: (word % 256) as u8,
        }
    }
}

/// What read or stat of a file asks of the kernel at a stage: `fd` is its descriptor, and `va` the address of its buffer.
pub fn ask_of_file(service: FileService, fd: u32, va: u32, at: FileStage) -> Ask
    ensures { result ≡ stages.ask_of service fd va at }
{
    match at {
        FileStage::TakingPage => Ask::System {
            number: SYS_PAGE_ALLOC,
            args: [0, UTEMP, PTE_P + PTE_U + PTE_W, 0, 0],
        },
        FileStage::ReadingNumber => Ask::Load {
            va: descriptor_va(fd) + FD_FILE,
        },
        FileStage::StoringNumber { number } => Ask::Store {
            va: UTEMP + REQUEST_FILE,
            word: number,
        },
        FileStage::StoringCount => Ask::Store {
            va: UTEMP + REQUEST_COUNT,
            word: wanted(service),
        },
        FileStage::Identifying => Ask::System {
            number: SYS_GETENVID,
            args: [0; 5],
        },
        FileStage::Asking { id: _ } => ask_with_page(word_of(service)),
        FileStage::Pausing { id: _ } => Ask::System {
            number: SYS_YIELD,
            args: [0; 5],
        },
        FileStage::Awaiting { id: _ } => ask_reply(),
        FileStage::CountingReply { id } | FileStage::ReadingReply { id } => Ask::Load {
            va: reply_place(id),
        },
        FileStage::Clearing { id: _ } => ask_clearing(),
        FileStage::Region { done, .. } => ask_page_region(va.wrapping_add(done)),
        FileStage::Entry { done, .. } => ask_page_entry(va.wrapping_add(done)),
        FileStage::Loading { done, count } => ask_loading(va, done, count),
        FileStage::Rest { done, .. } => ask_rest(done),
        FileStage::Putting { done, count, word } => ask_putting(va, done, count, word),
        FileStage::Faulting { done, .. } => Ask::StoreByte {
            va: va.wrapping_add(done),
            byte: 0,
        },
        FileStage::Returning { answer: _ } => ask_clearing(),
    }
}

/// What is done next when so many bytes come with the reply.
fn next_of_counting(id: u32, count: u32) -> Next
    ensures { result ≡ stages.next_of_counting id count }
{
    if count == 0 {
        return Next::GoOn(Step::Clearing { id });
    }
    Next::GoOn(Step::FileRegion { done: 0, count })
}

/// What is done next by whether the region has a table.
fn next_of_region(done: u32, count: u32, word: u32) -> Next
    ensures { result ≡ stages.next_of_region done count word }
{
    if !is_there(word) {
        return Next::GoOn(Step::FileFaulting { done, count });
    }
    Next::GoOn(Step::FileEntry { done, count })
}

/// What is done next by whether the page may be written.
fn next_of_entry(done: u32, count: u32, word: u32) -> Next
    ensures { result ≡ stages.next_of_entry done count word }
{
    if !is_writable(word) {
        return Next::GoOn(Step::FileFaulting { done, count });
    }
    Next::GoOn(Step::LoadingBytes { done, count })
}

/// What is done next by the word, or the byte, that is loaded.
fn next_of_loading(va: u32, done: u32, count: u32, word: u32) -> Next
    ensures { result ≡ stages.next_of_loading va done count word }
{
    if moved(va, done, count) == 4 && done % 4 != 0 {
        return Next::GoOn(Step::LoadingRest {
            done,
            count,
            first: word,
        });
    }
    Next::GoOn(Step::PuttingBytes { done, count, word })
}

/// The four bytes of two words behind `left` of the first, which are left away.
pub fn joined(left: u32, first: u32, second: u32) -> u32
    ensures { result ≡ stages.joined left first second }
{
    if left == 1 {
        first / 256 + second % 256 * 16777216
    } else if left == 2 {
        first / 65536 + second % 65536 * 65536
    } else if left == 3 {
        first / 16777216 + second % 16777216 * 256
    } else {
        first
    }
}

/// What is done next when the next bytes are put; `answer` is answered behind the last.
fn next_of_putting(va: u32, done: u32, count: u32, answer: u32) -> Next
    ensures { result ≡ stages.next_of_putting va done count answer }
{
    let done = done.wrapping_add(moved(va, done, count));
    if count <= done {
        return Next::Show(Step::Returning { answer });
    }
    if va.wrapping_add(done) % PGSIZE == 0 {
        return Next::Show(Step::FileRegion { done, count });
    }
    Next::Show(Step::LoadingBytes { done, count })
}

/// What read or stat of a file does next by the word with which the kernel has answered: it answers an error's number as the kernel, or the
/// file server, has told it.
pub fn next_of_file(service: FileService, va: u32, at: FileStage, word: u32) -> Next
    ensures { result ≡ stages.next_of service va at word }
{
    match at {
        FileStage::TakingPage => {
            if word != 0 {
                return Next::Answer(word);
            }
            Next::GoOn(Step::ReadingNumber)
        }
        FileStage::ReadingNumber => Next::GoOn(Step::StoringNumber { number: word }),
        FileStage::StoringNumber { number: _ } => Next::GoOn(Step::StoringCount),
        FileStage::StoringCount => Next::GoOn(Step::Identifying),
        FileStage::Identifying => Next::GoOn(Step::Asking { id: word }),
        FileStage::Asking { id } => next_of_asking(id, word),
        FileStage::Pausing { id } => Next::GoOn(Step::Asking { id }),
        FileStage::Awaiting { id } => Next::Show(Step::CountingReply { id }),
        FileStage::CountingReply { id } => next_of_counting(id, handed(service, word)),
        FileStage::Clearing { id } => Next::GoOn(Step::ReadingReply { id }),
        FileStage::ReadingReply { id: _ } => Next::Answer(word),
        FileStage::Region { done, count } => next_of_region(done, count, word),
        FileStage::Entry { done, count } => next_of_entry(done, count, word),
        FileStage::Loading { done, count } => next_of_loading(va, done, count, word),
        FileStage::Rest { done, count, first } => Next::GoOn(Step::PuttingBytes {
            done,
            count,
            word: joined(done % 4, first, word),
        }),
        FileStage::Putting { done, count, .. } => {
            next_of_putting(va, done, count, answer_behind(service, count))
        }
        FileStage::Faulting { .. } => Next::Gone,
        FileStage::Returning { answer } => Next::GoBack(answer),
    }
}

//! Where a job stands, as it is spelled in words: seven of those that the environment keeps for the library, and six registers.

ghost use Rattle.std.specs.Prelude.{◌≡◌, ◌<◌};
ghost use Rattle.fs_places.specs.TreePlaces as places;

use fs_jobs::{Change, Changed, FilePlace, Job, Seek, TreePlace, TreeState, WalkPlace, Wanted};
use jos_base::{Extra, Regs};

/// The number of a job, and its words.
#[tactic(auto, unfolding(crate::specs::TreePlaces::job_words))]
fn job_words(job: Job) -> [u32; 4]
    ensures words { result ≡ places.job_words job }
    ensures small { places.word result 0 < 8 }
{
    match job {
        Job::Open { mode } => [0, mode, 0, 0],
        Job::Find => [1, 0, 0, 0],
        Job::Remove { home } => [2, home, 0, 0],
        Job::Read { home, at, count } => [3, home, at, count],
        Job::Write { home, at, count } => [4, home, at, count],
        Job::Create {
            directory,
            slot,
            from,
        } => [5, directory, slot, from],
        Job::SetSize { home, size } => [6, home, size, 0],
        Job::Stat { home } => [7, home, 0, 0],
        Job::Size { home } => [7, home, 1, 0],
    }
}

/// The job that a number and words tell.
#[tactic(auto, unfolding(crate::specs::TreePlaces::job_in))]
fn job_in(words: [u32; 4]) -> Job
    ensures { result ≡ places.job_in words }
{
    let [number, first, second, third] = words;
    match number {
        0 => Job::Open { mode: first },
        1 => Job::Find,
        2 => Job::Remove { home: first },
        3 => Job::Read {
            home: first,
            at: second,
            count: third,
        },
        4 => Job::Write {
            home: first,
            at: second,
            count: third,
        },
        5 => Job::Create {
            directory: first,
            slot: second,
            from: third,
        },
        6 => Job::SetSize {
            home: first,
            size: second,
        },
        _ if second == 1 => Job::Size { home: first },
        _ => Job::Stat { home: first },
    }
}

/// The words of a record that is looked at, between the number of the place and three words more.
fn seek_words(number: u32, seek: Seek, a: u32, b: u32, c: u32) -> [u32; 9]
    ensures { result ≡ places.seek_words number seek a b c }
{
    [
        number,
        seek.from,
        seek.directory,
        seek.slots,
        seek.slot,
        seek.empty,
        a,
        b,
        c,
    ]
}

/// The number of a place of the way, and its words.
#[tactic(auto, unfolding(crate::specs::TreePlaces::walk_words))]
fn walk_words(place: WalkPlace) -> [u32; 9]
    ensures words { result ≡ places.walk_words place }
    ensures small { places.word result 0 < 14 }
{
    match place {
        WalkPlace::Path { at, run } => [0, at, run, 0, 0, 0, 0, 0, 0],
        WalkPlace::Magic => [1, 0, 0, 0, 0, 0, 0, 0, 0],
        WalkPlace::Count => [2, 0, 0, 0, 0, 0, 0, 0, 0],
        WalkPlace::RootKind => [3, 0, 0, 0, 0, 0, 0, 0, 0],
        WalkPlace::Component { from, home } => [4, from, home, 0, 0, 0, 0, 0, 0],
        WalkPlace::DirectoryKind { from, directory } => [5, from, directory, 0, 0, 0, 0, 0, 0],
        WalkPlace::DirectorySize { from, directory } => [6, from, directory, 0, 0, 0, 0, 0, 0],
        WalkPlace::Slot { seek } => seek_words(7, seek, 0, 0, 0),
        WalkPlace::SlotIndirect { seek, indirect } => seek_words(8, seek, indirect, 0, 0),
        WalkPlace::NameByte { seek, block, k } => seek_words(9, seek, block, k, 0),
        WalkPlace::PathByte {
            seek,
            block,
            k,
            byte,
        } => seek_words(10, seek, block, k, byte),
        WalkPlace::Missing { seek, at, within } => {
            if within {
                seek_words(11, seek, at, 0, 0)
            } else {
                seek_words(12, seek, at, 0, 0)
            }
        }
        WalkPlace::FoundKind { home } => [13, home, 0, 0, 0, 0, 0, 0, 0],
    }
}

/// The place of the way that a number and words tell.
#[tactic(auto, unfolding(crate::specs::TreePlaces::walk_in))]
fn walk_in(words: [u32; 9]) -> WalkPlace
    ensures { result ≡ places.walk_in words }
{
    let [number, a, b, c, d, e, f, g, h] = words;
    let seek = Seek {
        from: a,
        directory: b,
        slots: c,
        slot: d,
        empty: e,
    };
    match number {
        0 => WalkPlace::Path { at: a, run: b },
        1 => WalkPlace::Magic,
        2 => WalkPlace::Count,
        3 => WalkPlace::RootKind,
        4 => WalkPlace::Component { from: a, home: b },
        5 => WalkPlace::DirectoryKind {
            from: a,
            directory: b,
        },
        6 => WalkPlace::DirectorySize {
            from: a,
            directory: b,
        },
        7 => WalkPlace::Slot { seek },
        8 => WalkPlace::SlotIndirect { seek, indirect: f },
        9 => WalkPlace::NameByte {
            seek,
            block: f,
            k: g,
        },
        10 => WalkPlace::PathByte {
            seek,
            block: f,
            k: g,
            byte: h,
        },
        11 => WalkPlace::Missing {
            seek,
            at: f,
            within: true,
        },
        12 => WalkPlace::Missing {
            seek,
            at: f,
            within: false,
        },
        _ => WalkPlace::FoundKind { home: a },
    }
}

/// What the number of a block is wanted for, as a number and words.
#[tactic(auto, unfolding(crate::specs::TreePlaces::wanted_words))]
fn wanted_words(wanted: Wanted) -> [u32; 3]
    ensures { result ≡ places.wanted_words wanted }
{
    match wanted {
        Wanted::Reading { k } => [0, k, 0],
        Wanted::Writing { k } => [1, k, 0],
        Wanted::Filling { at } => [2, at, 0],
        Wanted::Giving => [3, 0, 0],
        Wanted::Making { slot, from } => [4, slot, from],
    }
}

/// What a number and words tell of it.
#[tactic(auto, unfolding(crate::specs::TreePlaces::wanted_in))]
fn wanted_in(number: u32, first: u32, second: u32) -> Wanted
    ensures { result ≡ places.wanted_in number first second }
{
    match number {
        0 => Wanted::Reading { k: first },
        1 => Wanted::Writing { k: first },
        2 => Wanted::Filling { at: first },
        3 => Wanted::Giving,
        _ => Wanted::Making {
            slot: first,
            from: second,
        },
    }
}

#[tactic(auto, unfolding(crate::specs::TreePlaces::change_word))]
fn change_word(change: Change) -> u32
    ensures { result ≡ places.change_word change }
{
    match change {
        Change::TakeBlock => 0,
        Change::TakeIndirect => 1,
        Change::GiveBlock => 2,
        Change::GiveIndirect => 3,
    }
}

#[tactic(auto, unfolding(crate::specs::TreePlaces::change_in))]
fn change_in(word: u32) -> Change
    ensures { result ≡ places.change_in word }
{
    match word {
        0 => Change::TakeBlock,
        1 => Change::TakeIndirect,
        2 => Change::GiveBlock,
        _ => Change::GiveIndirect,
    }
}

/// The number of a place of a file, and its words.
#[tactic(auto, unfolding(crate::specs::TreePlaces::file_words))]
fn file_words(place: FilePlace) -> [u32; 5]
    ensures words { result ≡ places.file_words place }
    ensures small { places.word result 0 < 33 }
{
    match place {
        FilePlace::Kind => [0, 0, 0, 0, 0],
        FilePlace::Size => [1, 0, 0, 0, 0],
        FilePlace::Indirect => [2, 0, 0, 0, 0],
        FilePlace::Free { word, free } => [3, word, free, 0, 0],
        FilePlace::SizeNow => [4, 0, 0, 0, 0],
        FilePlace::IndirectNow => [5, 0, 0, 0, 0],
        FilePlace::Number { i, wanted } => {
            let [number, first, second] = wanted_words(wanted);
            [6, i, number, first, second]
        }
        FilePlace::NumberIndirect { i, wanted } => {
            let [number, first, second] = wanted_words(wanted);
            [7, i, number, first, second]
        }
        FilePlace::Reading { block, k } => [8, block, k, 0, 0],
        FilePlace::Handing { block, k, byte } => [9, block, k, byte, 0],
        FilePlace::Gathering { block, k } => [10, block, k, 0, 0],
        FilePlace::Writing { block, k, byte } => [11, block, k, byte, 0],
        FilePlace::Filling { block, at } => [12, block, at, 0, 0],
        FilePlace::PutSize { size } => [13, size, 0, 0, 0],
        FilePlace::Lowest { change, word } => [14, change_word(change), word, 0, 0],
        FilePlace::Mark { change, block } => [15, change_word(change), block, 0, 0],
        FilePlace::PutMark {
            change,
            block,
            byte,
        } => [16, change_word(change), block, byte, 0],
        FilePlace::Zero {
            change,
            block,
            word,
        } => [17, change_word(change), block, word, 0],
        FilePlace::PutLess { block } => [18, block, 0, 0, 0],
        FilePlace::PutNumber { change, block } => [19, change_word(change), block, 0, 0],
        FilePlace::PutIndirect { change, block } => [20, change_word(change), block, 0, 0],
        FilePlace::PutMore => [21, 0, 0, 0, 0],
        FilePlace::MakeName { new, from, k } => [22, new, from, k, 0],
        FilePlace::PutName {
            new,
            from,
            k,
            byte,
            ended,
        } => {
            if ended {
                [24, new, from, k, byte]
            } else {
                [23, new, from, k, byte]
            }
        }
        FilePlace::MakeWord { new, from, word } => [25, new, from, word, 0],
        FilePlace::MakeFirst { new, from } => [26, new, from, 0, 0],
        FilePlace::PutFirst { new, byte } => [27, new, byte, 0, 0],
        FilePlace::Empty => [28, 0, 0, 0, 0],
        FilePlace::StatByte { k, ended } => {
            if ended {
                [30, k, 0, 0, 0]
            } else {
                [29, k, 0, 0, 0]
            }
        }
        FilePlace::HandStat { k, byte, ended } => {
            if ended {
                [32, k, byte, 0, 0]
            } else {
                [31, k, byte, 0, 0]
            }
        }
    }
}

/// The first places of files, up to that where a block becomes zero.
#[tactic(auto, unfolding(crate::specs::TreePlaces::first_files_in))]
fn first_files_in(words: [u32; 5]) -> FilePlace
    ensures { result ≡ places.first_files_in words }
{
    let [number, a, b, c, d] = words;
    match number {
        0 => FilePlace::Kind,
        1 => FilePlace::Size,
        2 => FilePlace::Indirect,
        3 => FilePlace::Free { word: a, free: b },
        4 => FilePlace::SizeNow,
        5 => FilePlace::IndirectNow,
        6 => FilePlace::Number {
            i: a,
            wanted: wanted_in(b, c, d),
        },
        7 => FilePlace::NumberIndirect {
            i: a,
            wanted: wanted_in(b, c, d),
        },
        8 => FilePlace::Reading { block: a, k: b },
        9 => FilePlace::Handing {
            block: a,
            k: b,
            byte: c,
        },
        10 => FilePlace::Gathering { block: a, k: b },
        11 => FilePlace::Writing {
            block: a,
            k: b,
            byte: c,
        },
        12 => FilePlace::Filling { block: a, at: b },
        13 => FilePlace::PutSize { size: a },
        14 => FilePlace::Lowest {
            change: change_in(a),
            word: b,
        },
        15 => FilePlace::Mark {
            change: change_in(a),
            block: b,
        },
        16 => FilePlace::PutMark {
            change: change_in(a),
            block: b,
            byte: c,
        },
        _ => FilePlace::Zero {
            change: change_in(a),
            block: b,
            word: c,
        },
    }
}

/// The places behind it.
#[tactic(auto, unfolding(crate::specs::TreePlaces::last_files_in))]
fn last_files_in(words: [u32; 5]) -> FilePlace
    ensures { result ≡ places.last_files_in words }
{
    let [number, a, b, c, d] = words;
    match number {
        18 => FilePlace::PutLess { block: a },
        19 => FilePlace::PutNumber {
            change: change_in(a),
            block: b,
        },
        20 => FilePlace::PutIndirect {
            change: change_in(a),
            block: b,
        },
        21 => FilePlace::PutMore,
        22 => FilePlace::MakeName {
            new: a,
            from: b,
            k: c,
        },
        23 => FilePlace::PutName {
            new: a,
            from: b,
            k: c,
            byte: d,
            ended: false,
        },
        24 => FilePlace::PutName {
            new: a,
            from: b,
            k: c,
            byte: d,
            ended: true,
        },
        25 => FilePlace::MakeWord {
            new: a,
            from: b,
            word: c,
        },
        26 => FilePlace::MakeFirst { new: a, from: b },
        27 => FilePlace::PutFirst { new: a, byte: b },
        28 => FilePlace::Empty,
        29 => FilePlace::StatByte { k: a, ended: false },
        30 => FilePlace::StatByte { k: a, ended: true },
        31 => FilePlace::HandStat {
            k: a,
            byte: b,
            ended: false,
        },
        _ => FilePlace::HandStat {
            k: a,
            byte: b,
            ended: true,
        },
    }
}

/// Places of files have numbers from here on.
const FILES: u32 = 32;

/// The number of a place, and its words.
#[tactic(auto, unfolding(crate::specs::TreePlaces::place_words))]
fn place_words(place: TreePlace) -> [u32; 9]
    ensures words { result ≡ places.place_words place }
    ensures small { places.word result 0 < 65 }
{
    match place {
        TreePlace::Walking(place) => walk_words(place),
        TreePlace::Changing(changed, place) => {
            let [number, a, b, c, d] = file_words(place);
            [
                FILES + number,
                changed.home,
                changed.size,
                changed.indirect,
                changed.end,
                a,
                b,
                c,
                d,
            ]
        }
    }
}

/// The place that a number and words tell.
#[tactic(auto, unfolding(crate::specs::TreePlaces::place_in, crate::specs::TreePlaces::file_in))]
fn place_in(words: [u32; 9]) -> TreePlace
    ensures { result ≡ places.place_in words }
{
    let [number, a, b, c, d, e, f, g, h] = words;
    if number < FILES {
        return TreePlace::Walking(walk_in(words));
    }
    let changed = Changed {
        home: a,
        size: b,
        indirect: c,
        end: d,
    };
    let number = number - FILES;
    if number < 18 {
        TreePlace::Changing(changed, first_files_in([number, e, f, g, h]))
    } else {
        TreePlace::Changing(changed, last_files_in([number, e, f, g, h]))
    }
}

/// Where the job of an environment stands.
#[tactic(auto, unfolding(crate::specs::TreePlaces::state_in))]
pub fn find_state(registers: &Regs, extra: &Extra) -> TreeState
    ensures { result ≡ places.state_in registers.now extra.now.0 }
{
    let [_, first, second, third, count, a, b, c, _, _, _, _] = extra.0;
    let number = registers.edi;
    TreeState {
        job: job_in([number % 8, first, second, third]),
        count,
        place: place_in([
            number / 8,
            a,
            b,
            c,
            registers.eax,
            registers.ebx,
            registers.ecx,
            registers.edx,
            registers.ebp,
        ]),
    }
}

/// The registers and the words with which it stands so.
#[tactic(auto, unfolding(crate::specs::TreePlaces::registers_with, crate::specs::TreePlaces::words_with))]
pub fn with_state(registers: Regs, extra: &Extra, state: TreeState) -> (Regs, Extra)
    ensures registers { result.0 ≡ places.registers_with registers state }
    ensures words { result.1.0 ≡ places.words_with extra.now.0 state }
{
    let [job, first, second, third] = job_words(state.job);
    let [place, a, b, c, eax, ebx, ecx, edx, ebp] = place_words(state.place);
    let [_, _, _, _, _, _, _, _, i, j, k, l] = extra.0;
    let registers = Regs {
        eax,
        ebx,
        ecx,
        edx,
        ebp,
        edi: 8 * place + job,
        ..registers
    };
    (
        registers,
        Extra([0, first, second, third, state.count, a, b, c, i, j, k, l]),
    )
}

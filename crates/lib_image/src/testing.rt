//! spawn, where it tests whether its file is an image.

ghost use Rattle.std.specs.Prelude.{◌≡◌, ◌+◌, ◌<◌, ◌%◌};
ghost use Rattle.lib_stage.specs.Asks.{IsAligned};
ghost use Rattle.lib_image.specs.TestingStages as stages;
ghost use Rattle.lib_image.specs.WordTests as tests;

use crate::nexts::no_image;
use crate::numbers::{
    CLASS, HEADER_CLASS, HEADER_COUNT, HEADER_ENTRY_POINT, HEADER_KIND, HEADER_LENGTH,
    HEADER_TABLE, HEADERS, KIND, MAGIC, SEGMENT_ADDRESS, SEGMENT_KIND, SEGMENT_LEN, SEGMENT_LENGTH,
    SEGMENT_MEMORY, SEGMENT_OFFSET, SEGMENT_WORDS,
};
use jos_base::{FDTABLE, USTABDATA, UTEMP, UTEXT};
use jos_elf::PT_LOAD;
use lib_os::{BearingStep, FilePart, PAGE_WORDS, ReadStep, SPAWN_GIVEN, SpawnStep, TestingStep};
use lib_stage::Ask;

/// What it has found out of its file before it looks at the program headers.
#[derive(Clone, Copy)]
pub(crate) struct Headed {
    /// The ESP of the child.
    pub(crate) esp: u32,
    /// The descriptor of the file.
    pub(crate) fd: u32,
    /// How many bytes the file had.
    pub(crate) size: u32,
    /// The address of the first instruction.
    pub(crate) entry_point: u32,
    /// How many program headers there are.
    pub(crate) headers: u32,
}

/// The memory of the segment that is looked at.
#[derive(Clone, Copy)]
struct Looked {
    /// The number of its program header.
    header: u32,
    /// Its first address.
    va: u32,
    /// How many bytes it has.
    memory: u32,
}

/// Where a word of a table of program headers stands, in bytes from where the table begins on. The number may be any.
fn word_place(number: u32) -> u32
    ensures { result ≡ stages.word_place number }
{
    4 * (number % PAGE_WORDS)
}

/// A word of the program header of a number, which may be any, by the place of its first byte.
pub fn ask_segment(header: u32, place: u32) -> Ask
    requires inside { place < 32 }
    requires begins { place % 4 ≡ 0 }
    ensures is { result ≡ stages.segment_asked header place }
    ensures aligned { IsAligned result }
{
    Ask::Load {
        va: SPAWN_GIVEN + SEGMENT_LEN * (header % HEADERS) + place,
    }
}

/// What it asks of the kernel, where it tests its file.
pub(crate) fn ask_of_testing(at: TestingStep) -> Ask
    ensures is { result ≡ stages.testing_asks at }
    ensures aligned { IsAligned result }
{
    match at {
        TestingStep::HeaderMagic { .. } => Ask::Load { va: UTEMP },
        TestingStep::HeaderClass { .. } => Ask::Load {
            va: UTEMP + HEADER_CLASS,
        },
        TestingStep::HeaderKind { .. } => Ask::Load {
            va: UTEMP + HEADER_KIND,
        },
        TestingStep::HeaderEntryPoint { .. } => Ask::Load {
            va: UTEMP + HEADER_ENTRY_POINT,
        },
        TestingStep::HeaderTable { .. } => Ask::Load {
            va: UTEMP + HEADER_TABLE,
        },
        TestingStep::HeaderLength { .. } => Ask::Load {
            va: UTEMP + HEADER_LENGTH,
        },
        TestingStep::HeaderCount { .. } => Ask::Load {
            va: UTEMP + HEADER_COUNT,
        },
        TestingStep::TableLoading { copied, .. } => Ask::Load {
            va: UTEMP + word_place(copied),
        },
        TestingStep::TableStoring { copied, word, .. } => Ask::Store {
            va: SPAWN_GIVEN + word_place(copied),
            word,
        },
        TestingStep::SegmentKind { header, .. } => ask_segment(header, SEGMENT_KIND),
        TestingStep::SegmentMemory { header, .. } => ask_segment(header, SEGMENT_MEMORY),
        TestingStep::SegmentAddress { header, .. } => ask_segment(header, SEGMENT_ADDRESS),
        TestingStep::SegmentLength { header, .. } => ask_segment(header, SEGMENT_LENGTH),
        TestingStep::SegmentOffset { header, .. } => ask_segment(header, SEGMENT_OFFSET),
        TestingStep::OtherKind { other, .. } => ask_segment(other, SEGMENT_KIND),
        TestingStep::OtherMemory { other, .. } => ask_segment(other, SEGMENT_MEMORY),
        TestingStep::OtherAddress { other, .. } => ask_segment(other, SEGMENT_ADDRESS),
    }
}

/// It goes on at a step where a test holds.
fn where_holds(holds: bool, fd: u32, at: SpawnStep) -> SpawnStep
    ensures { result ≡ stages.where_holds holds fd at }
{
    if holds { at } else { no_image(fd) }
}

/// The table of so many program headers at a place of a file is not too long, and stands in the file.
fn table_fits(size: u32, place: u32, count: u32) -> bool
    ensures { result ≡ tests.table_fits size place count }
{
    count <= HEADERS && place as u64 + (SEGMENT_LEN * count) as u64 <= size as u64
}

/// So many bytes of memory lie in one of the two ranges that a program may have.
fn lies_in_range(va: u32, memory: u32) -> bool
    ensures { result ≡ tests.lies_in_range va memory }
{
    let end = va as u64 + memory as u64;
    va >= USTABDATA && end <= UTEMP as u64 || va >= UTEXT && end <= FDTABLE as u64
}

/// So many bytes from a place on stand in the file.
fn bytes_fit(size: u32, place: u32, length: u32) -> bool
    ensures { result ≡ tests.bytes_fit size place length }
{
    place as u64 + length as u64 <= size as u64
}

/// No byte of memory is in both.
fn are_apart(va: u32, memory: u32, other_va: u32, other_memory: u32) -> bool
    ensures { result ≡ tests.are_apart va memory other_va other_memory }
{
    other_va as u64 + other_memory as u64 <= va as u64
        || va as u64 + memory as u64 <= other_va as u64
}

/// By the word that tells how many program headers there are: these are read.
fn table_by(esp: u32, fd: u32, size: u32, entry_point: u32, place: u32, word: u32) -> SpawnStep
    ensures { result ≡ stages.table_by esp fd size entry_point place word }
{
    let headers = word % 65536;
    where_holds(
        table_fits(size, place, headers),
        fd,
        SpawnStep::Reading {
            part: FilePart::Table {
                esp,
                fd,
                size,
                entry_point,
                headers,
                place,
            },
            at: ReadStep::LoadingNumber,
        },
    )
}

/// The segments of the program headers before this one are as they should be: the file is an image behind the last.
fn segments_from(file: Headed, header: u32) -> SpawnStep
    ensures { result ≡ stages.segments_from file.esp file.fd file.size file.entry_point file.headers header }
{
    let Headed {
        esp,
        fd,
        size,
        entry_point,
        headers,
    } = file;
    if header < headers {
        SpawnStep::Testing {
            at: TestingStep::SegmentKind {
                esp,
                fd,
                size,
                entry_point,
                headers,
                header,
            },
        }
    } else {
        SpawnStep::Bearing {
            at: BearingStep::MakingChild {
                esp,
                fd,
                entry_point,
                headers,
            },
        }
    }
}

/// So many words of the program headers are copied.
pub(crate) fn words_from(file: Headed, copied: u32) -> SpawnStep
    ensures { result ≡ stages.words_from file.esp file.fd file.size file.entry_point file.headers copied }
{
    if copied >= SEGMENT_WORDS * file.headers.min(HEADERS) {
        return segments_from(file, 0);
    }
    let Headed {
        esp,
        fd,
        size,
        entry_point,
        headers,
    } = file;
    SpawnStep::Testing {
        at: TestingStep::TableLoading {
            esp,
            fd,
            size,
            entry_point,
            headers,
            copied,
        },
    }
}

/// The segments of the program headers before the other one lie elsewhere.
fn others_from(file: Headed, segment: Looked, other: u32) -> SpawnStep
    ensures { result ≡ stages.others_from file.esp file.fd file.size file.entry_point file.headers segment.header segment.va segment.memory other }
{
    let Looked { header, va, memory } = segment;
    if other >= header {
        return segments_behind(file, header);
    }
    let Headed {
        esp,
        fd,
        size,
        entry_point,
        headers,
    } = file;
    SpawnStep::Testing {
        at: TestingStep::OtherKind {
            esp,
            fd,
            size,
            entry_point,
            headers,
            header,
            va,
            memory,
            other,
        },
    }
}

/// The segment of this program header is as it should be, too, or there is none.
fn segments_behind(file: Headed, header: u32) -> SpawnStep
    ensures { result ≡ stages.segments_from file.esp file.fd file.size file.entry_point file.headers (header + 1) }
{
    segments_from(file, header.saturating_add(1))
}

/// The segment of the other one lies elsewhere, too, or there is none.
fn others_behind(file: Headed, segment: Looked, other: u32) -> SpawnStep
    ensures { result ≡ stages.others_from file.esp file.fd file.size file.entry_point file.headers segment.header segment.va segment.memory (other + 1) }
{
    others_from(file, segment, other.saturating_add(1))
}

/// Another word of the program headers is copied.
fn words_behind(file: Headed, copied: u32) -> SpawnStep
    ensures { result ≡ stages.words_from file.esp file.fd file.size file.entry_point file.headers (copied + 1) }
{
    words_from(file, copied.saturating_add(1))
}

/// The step at which it goes on by the word with which the kernel has answered, where it tests its file.
pub(crate) fn tested(at: TestingStep, word: u32) -> SpawnStep
    ensures { result ≡ stages.tested at word }
{
    match at {
        TestingStep::HeaderMagic { esp, fd, size } => where_holds(
            word == MAGIC,
            fd,
            SpawnStep::Testing {
                at: TestingStep::HeaderClass { esp, fd, size },
            },
        ),
        TestingStep::HeaderClass { esp, fd, size } => where_holds(
            word % 65536 == CLASS,
            fd,
            SpawnStep::Testing {
                at: TestingStep::HeaderKind { esp, fd, size },
            },
        ),
        TestingStep::HeaderKind { esp, fd, size } => where_holds(
            word == KIND,
            fd,
            SpawnStep::Testing {
                at: TestingStep::HeaderEntryPoint { esp, fd, size },
            },
        ),
        TestingStep::HeaderEntryPoint { esp, fd, size } => SpawnStep::Testing {
            at: TestingStep::HeaderTable {
                esp,
                fd,
                size,
                entry_point: word,
            },
        },
        TestingStep::HeaderTable {
            esp,
            fd,
            size,
            entry_point,
        } => SpawnStep::Testing {
            at: TestingStep::HeaderLength {
                esp,
                fd,
                size,
                entry_point,
                place: word,
            },
        },
        TestingStep::HeaderLength {
            esp,
            fd,
            size,
            entry_point,
            place,
        } => where_holds(
            word / 65536 == SEGMENT_LEN,
            fd,
            SpawnStep::Testing {
                at: TestingStep::HeaderCount {
                    esp,
                    fd,
                    size,
                    entry_point,
                    place,
                },
            },
        ),
        TestingStep::HeaderCount {
            esp,
            fd,
            size,
            entry_point,
            place,
        } => table_by(esp, fd, size, entry_point, place, word),
        TestingStep::TableLoading {
            esp,
            fd,
            size,
            entry_point,
            headers,
            copied,
        } => SpawnStep::Testing {
            at: TestingStep::TableStoring {
                esp,
                fd,
                size,
                entry_point,
                headers,
                copied,
                word,
            },
        },
        TestingStep::TableStoring {
            esp,
            fd,
            size,
            entry_point,
            headers,
            copied,
            ..
        } => words_behind(
            Headed {
                esp,
                fd,
                size,
                entry_point,
                headers,
            },
            copied,
        ),
        TestingStep::SegmentKind {
            esp,
            fd,
            size,
            entry_point,
            headers,
            header,
        } => if word == PT_LOAD {
            SpawnStep::Testing {
                at: TestingStep::SegmentMemory {
                    esp,
                    fd,
                    size,
                    entry_point,
                    headers,
                    header,
                },
            }
        } else {
            segments_behind(
                Headed {
                    esp,
                    fd,
                    size,
                    entry_point,
                    headers,
                },
                header,
            )
        },
        TestingStep::SegmentMemory {
            esp,
            fd,
            size,
            entry_point,
            headers,
            header,
        } => if word == 0 {
            segments_behind(
                Headed {
                    esp,
                    fd,
                    size,
                    entry_point,
                    headers,
                },
                header,
            )
        } else {
            SpawnStep::Testing {
                at: TestingStep::SegmentAddress {
                    esp,
                    fd,
                    size,
                    entry_point,
                    headers,
                    header,
                    memory: word,
                },
            }
        },
        TestingStep::SegmentAddress {
            esp,
            fd,
            size,
            entry_point,
            headers,
            header,
            memory,
        } => where_holds(
            lies_in_range(word, memory),
            fd,
            SpawnStep::Testing {
                at: TestingStep::SegmentLength {
                    esp,
                    fd,
                    size,
                    entry_point,
                    headers,
                    header,
                    va: word,
                    memory,
                },
            },
        ),
        TestingStep::SegmentLength {
            esp,
            fd,
            size,
            entry_point,
            headers,
            header,
            va,
            memory,
        } => where_holds(
            word <= memory,
            fd,
            SpawnStep::Testing {
                at: TestingStep::SegmentOffset {
                    esp,
                    fd,
                    size,
                    entry_point,
                    headers,
                    header,
                    va,
                    memory,
                    length: word,
                },
            },
        ),
        TestingStep::SegmentOffset {
            esp,
            fd,
            size,
            entry_point,
            headers,
            header,
            va,
            memory,
            length,
        } => where_holds(
            bytes_fit(size, word, length),
            fd,
            others_from(
                Headed {
                    esp,
                    fd,
                    size,
                    entry_point,
                    headers,
                },
                Looked { header, va, memory },
                0,
            ),
        ),
        TestingStep::OtherKind {
            esp,
            fd,
            size,
            entry_point,
            headers,
            header,
            va,
            memory,
            other,
        } => if word == PT_LOAD {
            SpawnStep::Testing {
                at: TestingStep::OtherMemory {
                    esp,
                    fd,
                    size,
                    entry_point,
                    headers,
                    header,
                    va,
                    memory,
                    other,
                },
            }
        } else {
            others_behind(
                Headed {
                    esp,
                    fd,
                    size,
                    entry_point,
                    headers,
                },
                Looked { header, va, memory },
                other,
            )
        },
        TestingStep::OtherMemory {
            esp,
            fd,
            size,
            entry_point,
            headers,
            header,
            va,
            memory,
            other,
        } => if word == 0 {
            others_behind(
                Headed {
                    esp,
                    fd,
                    size,
                    entry_point,
                    headers,
                },
                Looked { header, va, memory },
                other,
            )
        } else {
            SpawnStep::Testing {
                at: TestingStep::OtherAddress {
                    esp,
                    fd,
                    size,
                    entry_point,
                    headers,
                    header,
                    va,
                    memory,
                    other,
                    other_memory: word,
                },
            }
        },
        TestingStep::OtherAddress {
            esp,
            fd,
            size,
            entry_point,
            headers,
            header,
            va,
            memory,
            other,
            other_memory,
        } => where_holds(
            are_apart(va, memory, word, other_memory),
            fd,
            others_behind(
                Headed {
                    esp,
                    fd,
                    size,
                    entry_point,
                    headers,
                },
                Looked { header, va, memory },
                other,
            ),
        ),
    }
}

//! spawn, where it makes its child: what it asks at each stage, and what it does next.

ghost use Rattle.std.specs.Prelude.{◌≡◌};
ghost use Rattle.lib_stage.specs.Asks.{IsAligned};
ghost use Rattle.lib_child.specs.BearingStages as stages;

use crate::nexts::unless_refused;
use crate::registers::{register_of, register_word, registers_from};
use crate::segments::{Child, WRITABLE_PERM, last_page, pages_behind, pages_from, pieces_behind};
use jos_base::{Called, PGSIZE, SYS_ENV_SET_TRAPFRAME, SYS_PAGE_ALLOC, SYS_PAGE_MAP, UTEMP};
use jos_elf::PT_LOAD;
use lib_bytes::{ask_loading, ask_rest, joined, moved};
use lib_fd::ask_drop_at;
use lib_fork::{is_error, page_va};
use lib_image::{
    SEGMENT_ADDRESS, SEGMENT_KIND, SEGMENT_LENGTH, SEGMENT_MEMORY, SEGMENT_OFFSET, ask_segment,
    go_on, show,
};
use lib_os::{
    BearingStep, FilePart, ReadStep, SERVICE_SPAWN, SPAWN_HERE, SpawnStep, TRANSFER_MAX,
    UndoingStep, answer_of,
};
use lib_stage::{Ask, Next, Planned};

/// spawn, where it makes its child. What it is refused then, it answers once it has undone what it has done: the error of which the kernel tells,
/// negated. (MIT 6.828, lab 5: lib/spawn.c, `spawn` and `map_segment`)
#[derive(Clone, Copy, Debug)]
pub struct Bearing {
    pub at: BearingStep,
}

impl Bearing {
    /// spawn at a step of its own, if it is one of these.
    pub fn at_step(step: SpawnStep) -> Option<Bearing>
        ensures { result ≡ stages.bearing_at step }
    {
        match step {
            SpawnStep::Bearing { at } => Some(Bearing { at }),
            _ => None,
        }
    }
}

/// What is asked to map the child's page of the next byte of a segment, behind `done` of them.
fn ask_mapping(child: u32, va: u32, done: u32) -> Ask
    ensures { result ≡ stages.mapping_asked child va done }
{
    Ask::System {
        number: SYS_PAGE_MAP,
        args: [
            child,
            page_va(va.wrapping_add(done) / PGSIZE),
            0,
            SPAWN_HERE,
            WRITABLE_PERM,
        ],
    }
}

/// What is asked to put the next bytes there.
fn ask_putting(va: u32, done: u32, end: u32, word: u32) -> Ask
    ensures is { result ≡ stages.putting_asked va done end word }
    ensures aligned { IsAligned result }
{
    let at = SPAWN_HERE + va.wrapping_add(done) % PGSIZE;
    if moved(va, done, end) == 4 {
        Ask::Store { va: at, word }
    } else {
        Ask::StoreByte {
            va: at,
            byte: (word % 256) as u8,
        }
    }
}

/// What is asked at a stage.
fn ask_of(at: BearingStep) -> Ask
    ensures is { result ≡ stages.ask_of at }
    ensures aligned { IsAligned result }
{
    match at {
        BearingStep::MakingChild { .. } => Ask::Exofork,
        BearingStep::StoringRegister {
            esp,
            entry_point,
            index,
            ..
        } => Ask::Store {
            va: UTEMP + 4 * register_of(index),
            word: register_word(esp, entry_point, register_of(index)),
        },
        BearingStep::SettingRegisters { child, .. } => Ask::System {
            number: SYS_ENV_SET_TRAPFRAME,
            args: [child, UTEMP, 0, 0, 0],
        },
        BearingStep::PlacingKind { header, .. } => ask_segment(header, SEGMENT_KIND),
        BearingStep::PlacingMemory { header, .. } => ask_segment(header, SEGMENT_MEMORY),
        BearingStep::PlacingAddress { header, .. } => ask_segment(header, SEGMENT_ADDRESS),
        BearingStep::PlacingPage { child, page, .. } => Ask::System {
            number: SYS_PAGE_ALLOC,
            args: [child, page_va(page), WRITABLE_PERM, 0, 0],
        },
        BearingStep::PieceKind { header, .. } => ask_segment(header, SEGMENT_KIND),
        BearingStep::PieceMemory { header, .. } => ask_segment(header, SEGMENT_MEMORY),
        BearingStep::PieceLength { header, .. } => ask_segment(header, SEGMENT_LENGTH),
        BearingStep::PieceOffset { header, .. } => ask_segment(header, SEGMENT_OFFSET),
        BearingStep::PieceAddress { header, .. } => ask_segment(header, SEGMENT_ADDRESS),
        BearingStep::MappingHere {
            child,
            va,
            done,
            ..
        } => ask_mapping(child, va, done),
        BearingStep::PieceLoading { va, done, end, .. } => ask_loading(va, done, end),
        BearingStep::PieceRest { done, .. } => ask_rest(done),
        BearingStep::PiecePutting {
            va,
            done,
            end,
            word,
            ..
        } => ask_putting(va, done, end, word),
        BearingStep::UnmappingHere { .. } => ask_drop_at(SPAWN_HERE),
    }
}

/// What is done next by the child's id, or by the error where no child could be made.
fn next_of_making(esp: u32, fd: u32, entry_point: u32, headers: u32, word: u32) -> Next
    ensures { result ≡ stages.next_of_making esp fd entry_point headers word }
{
    if is_error(word) {
        return show(SpawnStep::Undoing {
            at: UndoingStep::ClosingFile { fd, error: word },
        });
    }
    let of = Child {
        fd,
        headers,
        child: word,
    };
    show(registers_from(esp, entry_point, of, 0))
}

/// Behind a page of a segment comes the next, up to the last.
fn page_behind(of: Child, header: u32, page: u32, last: u32) -> SpawnStep
    ensures { result ≡ stages.page_behind of.fd of.headers of.child header page last }
{
    if page >= last {
        return pages_behind(of, header);
    }
    let Child { fd, headers, child } = of;
    SpawnStep::Bearing {
        at: BearingStep::PlacingPage {
            fd,
            headers,
            child,
            header,
            page: page + 1,
            last,
        },
    }
}

/// The next piece of a segment of this length, behind so many bytes that are done.
fn piece_from(of: Child, header: u32, done: u32, length: u32) -> SpawnStep
    ensures { result ≡ stages.piece_from of.fd of.headers of.child header done length }
{
    if done >= length {
        return pieces_behind(of, header);
    }
    let Child { fd, headers, child } = of;
    SpawnStep::Bearing {
        at: BearingStep::PieceOffset {
            fd,
            headers,
            child,
            header,
            done,
            end: done + (length - done).min(TRANSFER_MAX),
        },
    }
}

/// A piece of a segment of the child.
#[derive(Clone, Copy, Debug)]
struct Piece {
    /// The child, and its file.
    of: Child,
    /// The program header of the segment.
    header: u32,
    /// How many bytes of the segment the child has.
    done: u32,
    /// How many of them it has with the piece.
    end: u32,
}

/// The piece is asked for, where the segment's bytes stand in the file from this place on.
fn piece_read(piece: Piece, offset: u32) -> SpawnStep
    ensures { result ≡ stages.piece_read piece.of.fd piece.of.headers piece.of.child piece.header piece.done piece.end offset }
{
    let Child { fd, headers, child } = piece.of;
    SpawnStep::Reading {
        part: FilePart::Piece {
            fd,
            headers,
            child,
            header: piece.header,
            done: piece.done,
            end: piece.end,
            place: offset.wrapping_add(piece.done),
        },
        at: ReadStep::LoadingNumber,
    }
}

/// A word of the piece is loaded, or a byte.
fn piece_loaded(piece: Piece, va: u32, word: u32) -> SpawnStep
    ensures { result ≡ stages.piece_loaded piece.of.fd piece.of.headers piece.of.child piece.header va piece.done piece.end word }
{
    let Piece {
        of,
        header,
        done,
        end,
    } = piece;
    let Child { fd, headers, child } = of;
    let at = if moved(va, done, end) == 4 && done % 4 != 0 {
        BearingStep::PieceRest {
            fd,
            headers,
            child,
            header,
            va,
            done,
            end,
            first: word,
        }
    } else {
        BearingStep::PiecePutting {
            fd,
            headers,
            child,
            header,
            va,
            done,
            end,
            word,
        }
    };
    SpawnStep::Bearing { at }
}

/// The child has the bytes of the segment up to `piece.done`.
fn put_behind(piece: Piece, va: u32) -> SpawnStep
    ensures { result ≡ stages.put_behind piece.of.fd piece.of.headers piece.of.child piece.header va piece.done piece.end }
{
    let Piece {
        of,
        header,
        done,
        end,
    } = piece;
    let Child { fd, headers, child } = of;
    let at = if end <= done {
        BearingStep::UnmappingHere {
            fd,
            headers,
            child,
            header,
            end,
        }
    } else if va.wrapping_add(done) % PGSIZE == 0 {
        BearingStep::MappingHere {
            fd,
            headers,
            child,
            header,
            va,
            done,
            end,
        }
    } else {
        BearingStep::PieceLoading {
            fd,
            headers,
            child,
            header,
            va,
            done,
            end,
        }
    };
    SpawnStep::Bearing { at }
}

/// What is done next at a stage, by the word that came.
fn next_of(at: BearingStep, word: u32) -> Next
    ensures { result ≡ stages.next_of at word }
{
    let at = match at {
        BearingStep::MakingChild {
            esp,
            fd,
            entry_point,
            headers,
        } => return next_of_making(esp, fd, entry_point, headers, word),
        BearingStep::StoringRegister {
            esp,
            fd,
            entry_point,
            headers,
            child,
            index,
        } => {
            let of = Child { fd, headers, child };
            registers_from(esp, entry_point, of, register_of(index) + 1)
        }
        BearingStep::SettingRegisters { fd, headers, child } => {
            pages_from(Child { fd, headers, child }, 0)
        }
        BearingStep::PlacingKind {
            fd,
            headers,
            child,
            header,
        } => {
            if word == PT_LOAD {
                SpawnStep::Bearing {
                    at: BearingStep::PlacingMemory {
                        fd,
                        headers,
                        child,
                        header,
                    },
                }
            } else {
                pages_behind(Child { fd, headers, child }, header)
            }
        }
        BearingStep::PlacingMemory {
            fd,
            headers,
            child,
            header,
        } => {
            if word == 0 {
                pages_behind(Child { fd, headers, child }, header)
            } else {
                SpawnStep::Bearing {
                    at: BearingStep::PlacingAddress {
                        fd,
                        headers,
                        child,
                        header,
                        memory: word,
                    },
                }
            }
        }
        BearingStep::PlacingAddress {
            fd,
            headers,
            child,
            header,
            memory,
        } => SpawnStep::Bearing {
            at: BearingStep::PlacingPage {
                fd,
                headers,
                child,
                header,
                page: word / PGSIZE,
                last: last_page(word, memory),
            },
        },
        BearingStep::PlacingPage {
            fd,
            headers,
            child,
            header,
            page,
            last,
        } => {
            let of = Child { fd, headers, child };
            return unless_refused(fd, child, word, page_behind(of, header, page, last));
        }
        BearingStep::PieceKind {
            fd,
            headers,
            child,
            header,
        } => {
            if word == PT_LOAD {
                SpawnStep::Bearing {
                    at: BearingStep::PieceMemory {
                        fd,
                        headers,
                        child,
                        header,
                    },
                }
            } else {
                pieces_behind(Child { fd, headers, child }, header)
            }
        }
        BearingStep::PieceMemory {
            fd,
            headers,
            child,
            header,
        } => {
            if word == 0 {
                pieces_behind(Child { fd, headers, child }, header)
            } else {
                SpawnStep::Bearing {
                    at: BearingStep::PieceLength {
                        fd,
                        headers,
                        child,
                        header,
                        done: 0,
                    },
                }
            }
        }
        BearingStep::PieceLength {
            fd,
            headers,
            child,
            header,
            done,
        } => piece_from(Child { fd, headers, child }, header, done, word),
        BearingStep::PieceOffset {
            fd,
            headers,
            child,
            header,
            done,
            end,
        } => {
            let of = Child { fd, headers, child };
            let piece = Piece {
                of,
                header,
                done,
                end,
            };
            piece_read(piece, word)
        }
        BearingStep::PieceAddress {
            fd,
            headers,
            child,
            header,
            done,
            end,
        } => SpawnStep::Bearing {
            at: BearingStep::MappingHere {
                fd,
                headers,
                child,
                header,
                va: word,
                done,
                end,
            },
        },
        BearingStep::MappingHere {
            fd,
            headers,
            child,
            header,
            va,
            done,
            end,
        } => {
            let at = BearingStep::PieceLoading {
                fd,
                headers,
                child,
                header,
                va,
                done,
                end,
            };
            return unless_refused(fd, child, word, SpawnStep::Bearing { at });
        }
        BearingStep::PieceLoading {
            fd,
            headers,
            child,
            header,
            va,
            done,
            end,
        } => {
            let of = Child { fd, headers, child };
            let piece = Piece {
                of,
                header,
                done,
                end,
            };
            piece_loaded(piece, va, word)
        }
        BearingStep::PieceRest {
            fd,
            headers,
            child,
            header,
            va,
            done,
            end,
            first,
        } => SpawnStep::Bearing {
            at: BearingStep::PiecePutting {
                fd,
                headers,
                child,
                header,
                va,
                done,
                end,
                word: joined(done % 4, first, word),
            },
        },
        BearingStep::PiecePutting {
            fd,
            headers,
            child,
            header,
            va,
            done,
            end,
            ..
        } => {
            let piece = Piece {
                of: Child { fd, headers, child },
                header,
                done: done.wrapping_add(moved(va, done, end)),
                end,
            };
            put_behind(piece, va)
        }
        BearingStep::UnmappingHere {
            fd,
            headers,
            child,
            header,
            end,
        } => SpawnStep::Bearing {
            at: BearingStep::PieceLength {
                fd,
                headers,
                child,
                header,
                done: end,
            },
        },
    };
    go_on(at)
}

/// Whether the child's registers are set at a stage, of which the record is read in a page: whoever has no such page is ended by that call.
fn reads_record(at: BearingStep) -> bool
    ensures { result ≡ stages.reads_record at }
{
    match at {
        BearingStep::SettingRegisters { .. } => true,
        _ => false,
    }
}

/// Whether whoever made a call is ended by it.
fn is_ended(called: Called) -> bool
    ensures { result ≡ stages.is_ended called }
{
    match called {
        Called::Ended => true,
        Called::Answered(_) | Called::Blocked => false,
    }
}

impl Planned for Bearing {
    ghost use Rattle.lib_child.specs.BearingStages.{bears};

    ghost plan = { bears };

    fn number(&self) -> u32 {
        SERVICE_SPAWN
    }

    fn ask(&self) -> Ask {
        ask_of(self.at)
    }

    fn next(&self, called: Called) -> Next {
        if reads_record(self.at) && is_ended(called) {
            return Next::Gone;
        }
        next_of(self.at, answer_of(called))
    }
}

//! What read, write and stat on an end of a pipe ask at each stage behind the look at their descriptor, and what they do next.

ghost use Rattle.std.specs.Prelude.{◌≡◌};
ghost use Rattle.lib_pipe.specs.PipeStages as stages;

use jos_base::{
    E_INVAL, ENV_SIZE, NENV, PGSIZE, PTE_P, PTE_U, PTE_W, SYS_GETENVID, SYS_PAGE_ALLOC, SYS_YIELD,
    UENVS, UPAGES, UTEMP,
};
use lib_fd::{ask_entry, ask_pipe_entry, descriptor_va, pipe_va};
use lib_os::{
    ENV_RUNS, FD_MODE, PIPE_BYTES, PIPE_LOCK, PIPE_READ, PIPE_WRITE, PIPEBUFSIZ, PipeStep, Step,
    TRANSFER_MAX, is_buffer,
};
use lib_stage::{Ask, Next};

/// Which of the three it is. (MIT 6.828, lab 5: lib/pipe.c, `devpipe_read`, `devpipe_write` and `devpipe_stat`)
#[derive(Clone, Copy, Debug, PartialEq, Eq)]
pub enum PipeService {
    /// read(fd, va, len): at least a byte, and at most `len` and `TRANSFER_MAX`, goes from the pipe to `va`, and it answers how many; or none
    /// where the pipe is empty and its other end is closed.
    Read { len: u32 },
    /// write(fd, va, len): the bytes at `va` go into the pipe, `TRANSFER_MAX` at most, and it answers how many; fewer only where the pipe is full
    /// and its other end is closed.
    Write { len: u32 },
    /// stat(fd, va): it tells of the bytes that the pipe holds.
    Stat,
}

/// How far it is. `done` is how many bytes it has moved; `from` and `to` are how many have been taken from the pipe and put into it so far, each
/// modulo 2^32, of which `own` is that of the bytes that its end has moved; `id` is the environment's id, and `runs` how often it had got a turn at
/// the test before.
#[derive(Clone, Copy, Debug, PartialEq, Eq)]
pub enum PipeStage {
    /// read and write: they are about to read which end their descriptor names.
    EndMode,
    /// read and write: they are about to take a page for the bytes that they move.
    TakingBytes,
    /// read and write: they are about to take the lock. `id` is 0, or a test has found that a byte may be moved.
    Locking {
        done: u32,
        id: u32,
        runs: u32,
    },
    /// Another has it, and they are about to give up their turn.
    LockPausing {
        done: u32,
    },
    /// They are about to read how many bytes have been taken from the pipe.
    ReadFrom {
        done: u32,
        id: u32,
        runs: u32,
    },
    /// They are about to read how many have been put into it.
    ReadTo {
        done: u32,
        id: u32,
        runs: u32,
        from: u32,
    },
    /// read: it is about to load the pipe's next byte.
    LoadingHeld {
        done: u32,
        from: u32,
    },
    /// It is about to put that into its page.
    KeepingHeld {
        done: u32,
        from: u32,
        byte: u32,
    },
    /// It is about to count that as taken.
    TakingHeld {
        done: u32,
        from: u32,
    },
    /// write: it is about to load the next byte of its page.
    LoadingOwn {
        done: u32,
        to: u32,
    },
    /// It is about to put that into the pipe's page.
    PuttingOwn {
        done: u32,
        to: u32,
        byte: u32,
    },
    /// It is about to count that as put.
    Putting {
        done: u32,
        to: u32,
    },
    /// read and write: behind a byte they are about to give the lock back.
    UnlockingMoved {
        done: u32,
    },
    /// read: the pipe is empty, and behind its last byte read is about to give the lock back.
    UnlockingEnd {
        done: u32,
    },
    /// read and write: no byte can be moved, and they are about to give the lock back.
    UnlockingTest {
        done: u32,
        id: u32,
        runs: u32,
    },
    /// They are about to ask for their id, to test whether the other end is closed.
    TestIdentifying {
        done: u32,
    },
    /// They are about to read how often they have got a turn.
    TestRuns {
        done: u32,
        id: u32,
    },
    /// They have tried in vain behind a test, at which they had got so many, and are about to read that again.
    TestAgain {
        done: u32,
        id: u32,
        runs: u32,
    },
    /// They are about to read how many bytes their own end has moved: read's has taken them, and write's has put them.
    TestOwn {
        done: u32,
        id: u32,
        runs: u32,
    },
    /// They are about to read how many the other end has moved.
    TestOther {
        done: u32,
        id: u32,
        runs: u32,
        own: u32,
    },
    /// Still none can be moved, and they are about to read the entry of their descriptor's page.
    TestDescriptor {
        done: u32,
        id: u32,
        runs: u32,
    },
    /// They are about to read how often that is mapped.
    TestDescriptorCount {
        done: u32,
        id: u32,
        runs: u32,
        entry: u32,
    },
    /// They are about to read the entry of the pipe's page.
    TestPipe {
        done: u32,
        id: u32,
        runs: u32,
        count: u32,
    },
    /// They are about to read how often that is mapped.
    TestPipeCount {
        done: u32,
        id: u32,
        runs: u32,
        count: u32,
        entry: u32,
    },
    /// They are about to read whether they have got another turn meanwhile.
    TestRunsAgain {
        done: u32,
        id: u32,
        runs: u32,
        closed: u32,
    },
    /// The other end is open, and they are about to give up their turn.
    TestPausing {
        done: u32,
    },
    /// stat: it is about to take the lock.
    StatLocking,
    /// Another has it, and stat is about to give up its turn.
    StatPausing,
    /// It is about to read how many bytes have been taken from the pipe.
    StatFrom,
    /// It is about to read how many have been put into it.
    StatTo {
        from: u32,
    },
    /// The pipe holds so many, and stat is about to give the lock back.
    StatUnlocking {
        held: u32,
    },
}

/// The stage that is kept as a step, if it is one of these.
pub fn pipe_stage_of(at: PipeStep) -> Option<PipeStage>
    ensures { result ≡ stages.stage_of at }
{
    let at = match at {
        PipeStep::EndMode => PipeStage::EndMode,
        PipeStep::TakingBytes => PipeStage::TakingBytes,
        PipeStep::Locking { done, id, runs } => PipeStage::Locking { done, id, runs },
        PipeStep::LockPausing { done } => PipeStage::LockPausing { done },
        PipeStep::ReadFrom { done, id, runs } => PipeStage::ReadFrom { done, id, runs },
        PipeStep::ReadTo {
            done,
            id,
            runs,
            from,
        } => PipeStage::ReadTo {
            done,
            id,
            runs,
            from,
        },
        PipeStep::LoadingHeld { done, from } => PipeStage::LoadingHeld { done, from },
        PipeStep::KeepingHeld { done, from, byte } => PipeStage::KeepingHeld { done, from, byte },
        PipeStep::TakingHeld { done, from } => PipeStage::TakingHeld { done, from },
        PipeStep::LoadingOwn { done, to } => PipeStage::LoadingOwn { done, to },
        PipeStep::PuttingOwn { done, to, byte } => PipeStage::PuttingOwn { done, to, byte },
        PipeStep::Putting { done, to } => PipeStage::Putting { done, to },
        PipeStep::UnlockingMoved { done } => PipeStage::UnlockingMoved { done },
        PipeStep::UnlockingEnd { done } => PipeStage::UnlockingEnd { done },
        PipeStep::UnlockingTest { done, id, runs } => PipeStage::UnlockingTest { done, id, runs },
        PipeStep::TestIdentifying { done } => PipeStage::TestIdentifying { done },
        PipeStep::TestRuns { done, id } => PipeStage::TestRuns { done, id },
        PipeStep::TestAgain { done, id, runs } => PipeStage::TestAgain { done, id, runs },
        PipeStep::TestOwn { done, id, runs } => PipeStage::TestOwn { done, id, runs },
        PipeStep::TestOther {
            done,
            id,
            runs,
            own,
        } => PipeStage::TestOther {
            done,
            id,
            runs,
            own,
        },
        PipeStep::TestDescriptor { done, id, runs } => PipeStage::TestDescriptor { done, id, runs },
        PipeStep::TestDescriptorCount {
            done,
            id,
            runs,
            entry,
        } => PipeStage::TestDescriptorCount {
            done,
            id,
            runs,
            entry,
        },
        PipeStep::TestPipe {
            done,
            id,
            runs,
            count,
        } => PipeStage::TestPipe {
            done,
            id,
            runs,
            count,
        },
        PipeStep::TestPipeCount {
            done,
            id,
            runs,
            count,
            entry,
        } => PipeStage::TestPipeCount {
            done,
            id,
            runs,
            count,
            entry,
        },
        PipeStep::TestRunsAgain {
            done,
            id,
            runs,
            closed,
        } => PipeStage::TestRunsAgain {
            done,
            id,
            runs,
            closed,
        },
        PipeStep::TestPausing { done } => PipeStage::TestPausing { done },
        PipeStep::StatLocking => PipeStage::StatLocking,
        PipeStep::StatPausing => PipeStage::StatPausing,
        PipeStep::StatFrom => PipeStage::StatFrom,
        PipeStep::StatTo { from } => PipeStage::StatTo { from },
        PipeStep::StatUnlocking { held } => PipeStage::StatUnlocking { held },
        _ => return None,
    };
    Some(at)
}

/// How many bytes are to be moved.
fn wanted(service: PipeService) -> u32
    ensures { result ≡ stages.wanted service }
{
    match service {
        PipeService::Read { len } | PipeService::Write { len } => len.min(TRANSFER_MAX),
        PipeService::Stat => 0,
    }
}

/// Whether the other end of a pipe is closed, by how often a descriptor of this end is mapped and how often the pipe's page is: that is mapped
/// once for each descriptor of either end. (MIT 6.828, lib/pipe.c, `_pipeisclosed`)
pub fn is_closed(descriptors: u32, pages: u32) -> bool
    ensures { result ≡ stages.is_closed descriptors pages }
{
    descriptors == pages
}

/// Whether no byte can be moved, where so many have been taken and so many put: the pipe is empty, or, for write, full.
fn is_stuck(service: PipeService, from: u32, to: u32) -> bool
    ensures { result ≡ stages.is_stuck service from to }
{
    match service {
        PipeService::Write { .. } => to.wrapping_sub(from) >= PIPEBUFSIZ as u32,
        PipeService::Read { .. } | PipeService::Stat => to == from,
    }
}

/// Whether the test finds that no byte can be moved, by how many bytes the own end has moved, which it reads first, and how many the other end has.
/// Without the lock others may move bytes between the two loads. But no number falls, and a pipe holds 32 bytes at most: where just 32 lie between
/// the two, or none, it was full, or empty, all that time.
fn seems_stuck(service: PipeService, own: u32, other: u32) -> bool
    ensures { result ≡ stages.seems_stuck service own other }
{
    match service {
        PipeService::Write { .. } => own.wrapping_sub(other) == PIPEBUFSIZ as u32,
        PipeService::Read { .. } | PipeService::Stat => other == own,
    }
}

/// Where the pipe's page has how many bytes the own end has moved.
fn own_offset(service: PipeService) -> u32
    ensures { result ≡ stages.own_offset service }
{
    match service {
        PipeService::Write { .. } => PIPE_WRITE,
        PipeService::Read { .. } | PipeService::Stat => PIPE_READ,
    }
}

/// Where it has how many the other end has.
fn other_offset(service: PipeService) -> u32
    ensures { result ≡ stages.other_offset service }
{
    match service {
        PipeService::Write { .. } => PIPE_READ,
        PipeService::Read { .. } | PipeService::Stat => PIPE_WRITE,
    }
}

/// Where the pipe's page has the byte that is put as this one.
fn byte_place(fd: u32, position: u32) -> u32
    ensures { result ≡ stages.byte_place fd position }
{
    pipe_va(fd) + PIPE_BYTES + position % PIPEBUFSIZ as u32
}

/// The address of the word that tells how often an environment has got a turn, in the record of its slot.
fn runs_place(id: u32) -> u32
    ensures { result ≡ stages.runs_place id }
{
    UENVS + ENV_SIZE * (id % NENV) + 4 * ENV_RUNS
}

/// The address of the word that tells how often the page of an entry is mapped. (MIT 6.828, inc/memlayout.h: `pp_ref`)
fn count_place(entry: u32) -> u32
    ensures { result ≡ stages.count_place entry }
{
    UPAGES + 8 * (entry / PGSIZE) + 4
}

/// What read, write or stat on an end of a pipe asks of the kernel at a stage: `fd` is its descriptor.
pub fn ask_of_pipe(service: PipeService, fd: u32, at: PipeStage) -> Ask
    ensures { result ≡ stages.ask_of service fd at }
{
    match at {
        PipeStage::EndMode => Ask::Load {
            va: descriptor_va(fd) + FD_MODE,
        },
        PipeStage::TakingBytes => Ask::System {
            number: SYS_PAGE_ALLOC,
            args: [0, UTEMP, PTE_P + PTE_U + PTE_W, 0, 0],
        },
        PipeStage::Locking { .. } | PipeStage::StatLocking => Ask::Exchange {
            va: pipe_va(fd) + PIPE_LOCK,
            word: 1,
        },
        PipeStage::LockPausing { .. } | PipeStage::TestPausing { .. } | PipeStage::StatPausing => {
            Ask::System {
                number: SYS_YIELD,
                args: [0; 5],
            }
        }
        PipeStage::ReadFrom { .. } | PipeStage::StatFrom => Ask::Load {
            va: pipe_va(fd) + PIPE_READ,
        },
        PipeStage::ReadTo { .. } | PipeStage::StatTo { .. } => Ask::Load {
            va: pipe_va(fd) + PIPE_WRITE,
        },
        PipeStage::TestOwn { .. } => Ask::Load {
            va: pipe_va(fd) + own_offset(service),
        },
        PipeStage::TestOther { .. } => Ask::Load {
            va: pipe_va(fd) + other_offset(service),
        },
        PipeStage::LoadingHeld { from, .. } => Ask::LoadByte {
            va: byte_place(fd, from),
        },
        PipeStage::KeepingHeld { done, byte, .. } => Ask::StoreByte {
            va: UTEMP + done % PGSIZE,
            byte: (byte % 256) as u8,
        },
        PipeStage::TakingHeld { from, .. } => Ask::Store {
            va: pipe_va(fd) + PIPE_READ,
            word: from.wrapping_add(1),
        },
        PipeStage::LoadingOwn { done, .. } => Ask::LoadByte {
            va: UTEMP + done % PGSIZE,
        },
        PipeStage::PuttingOwn { to, byte, .. } => Ask::StoreByte {
            va: byte_place(fd, to),
            byte: (byte % 256) as u8,
        },
        PipeStage::Putting { to, .. } => Ask::Store {
            va: pipe_va(fd) + PIPE_WRITE,
            word: to.wrapping_add(1),
        },
        PipeStage::UnlockingMoved { .. }
        | PipeStage::UnlockingEnd { .. }
        | PipeStage::UnlockingTest { .. }
        | PipeStage::StatUnlocking { .. } => Ask::Store {
            va: pipe_va(fd) + PIPE_LOCK,
            word: 0,
        },
        PipeStage::TestIdentifying { .. } => Ask::System {
            number: SYS_GETENVID,
            args: [0; 5],
        },
        PipeStage::TestRuns { id, .. }
        | PipeStage::TestAgain { id, .. }
        | PipeStage::TestRunsAgain { id, .. } => Ask::Load { va: runs_place(id) },
        PipeStage::TestDescriptor { .. } => ask_entry(fd),
        PipeStage::TestPipe { .. } => ask_pipe_entry(fd),
        PipeStage::TestDescriptorCount { entry, .. } | PipeStage::TestPipeCount { entry, .. } => {
            Ask::Load {
                va: count_place(entry),
            }
        }
    }
}

/// The step at this place in a service on an end of a pipe.
fn piped(at: PipeStep) -> Next
    ensures { result ≡ stages.piped at }
{
    Next::GoOn(Step::Piped { at })
}

/// What read and write do next by the word that tells which end their descriptor names.
fn next_of_mode(service: PipeService, va: u32, mode: u32) -> Next
    ensures { result ≡ stages.next_of_mode service va mode }
{
    let other = match service {
        PipeService::Write { .. } => 0,
        PipeService::Read { .. } | PipeService::Stat => 1,
    };
    if mode == other || !is_buffer(va, wanted(service)) {
        return Next::Answer(E_INVAL.wrapping_neg());
    }
    if wanted(service) == 0 {
        return Next::Answer(0);
    }
    piped(PipeStep::TakingBytes)
}

/// What they do next by whether they have got their page. write gathers its bytes there, as those for the console, from behind `PGSIZE` bytes.
fn next_of_taking(service: PipeService, word: u32) -> Next
    ensures { result ≡ stages.next_of_taking service word }
{
    if word != 0 {
        return Next::Answer(word);
    }
    match service {
        PipeService::Write { .. } => Next::GoOn(Step::BufferRegion {
            done: 0,
            word: PGSIZE,
        }),
        PipeService::Read { .. } | PipeService::Stat => piped(PipeStep::Locking {
            done: 0,
            id: 0,
            runs: 0,
        }),
    }
}

/// What they do next that have the lock, and were told how many bytes have been put.
fn next_of_positions(
    service: PipeService,
    done: u32,
    id: u32,
    runs: u32,
    from: u32,
    to: u32,
) -> Next
    ensures { result ≡ stages.next_of_positions service done id runs from to }
{
    if is_stuck(service, from, to) {
        return next_of_stuck(service, done, id, runs);
    }
    match service {
        PipeService::Write { .. } => piped(PipeStep::LoadingOwn { done, to }),
        PipeService::Read { .. } | PipeService::Stat => piped(PipeStep::LoadingHeld { done, from }),
    }
}

/// What they do next where no byte can be moved: read ends with those that it has, if there are any.
fn next_of_stuck(service: PipeService, done: u32, id: u32, runs: u32) -> Next
    ensures { result ≡ stages.next_of_stuck service done id runs }
{
    match service {
        PipeService::Write { .. } => piped(PipeStep::UnlockingTest { done, id, runs }),
        PipeService::Read { .. } | PipeService::Stat => {
            if done == 0 {
                return piped(PipeStep::UnlockingTest { done, id, runs });
            }
            Next::Show(Step::Piped {
                at: PipeStep::UnlockingEnd { done },
            })
        }
    }
}

/// What they do next that have given the lock back behind a byte: read delivers its bytes behind the last, and write is over.
fn next_of_moved(service: PipeService, done: u32) -> Next
    ensures { result ≡ stages.next_of_moved service done }
{
    if done < wanted(service) {
        return piped(PipeStep::Locking {
            done,
            id: 0,
            runs: 0,
        });
    }
    match service {
        PipeService::Write { .. } => Next::Show(Step::Returning { answer: done }),
        PipeService::Read { .. } | PipeService::Stat => Next::Show(Step::FileRegion {
            done: 0,
            count: done,
        }),
    }
}

/// What they do next at the test by how many bytes the other end has moved.
fn next_of_test(service: PipeService, done: u32, id: u32, runs: u32, own: u32, other: u32) -> Next
    ensures { result ≡ stages.next_of_test service done id runs own other }
{
    if seems_stuck(service, own, other) {
        return piped(PipeStep::TestDescriptor { done, id, runs });
    }
    piped(PipeStep::Locking { done, id, runs })
}

/// What they do next behind the test: it is made again where they have got another turn meanwhile. They are over where the other end is closed, and
/// else give up their turn.
fn next_of_runs(done: u32, id: u32, runs: u32, closed: u32, word: u32) -> Next
    ensures { result ≡ stages.next_of_runs done id runs closed word }
{
    if word != runs {
        return piped(PipeStep::TestRuns { done, id });
    }
    if closed == 0 {
        return Next::Wait(Step::Piped {
            at: PipeStep::TestPausing { done },
        });
    }
    Next::Show(Step::Returning { answer: done })
}

/// What they do next by the word that stood in the lock.
fn next_of_lock(word: u32, got: PipeStep, pausing: PipeStep) -> Next
    ensures { result ≡ stages.next_of_lock word got pausing }
{
    if word != 0 {
        return Next::Wait(Step::Piped { at: pausing });
    }
    piped(got)
}

/// What read, write or stat on an end of a pipe does next by the word with which the kernel has answered: `va` is the address of its buffer.
pub fn next_of_pipe(service: PipeService, va: u32, at: PipeStage, word: u32) -> Next
    ensures { result ≡ stages.next_of service va at word }
{
    match at {
        PipeStage::EndMode => next_of_mode(service, va, word),
        PipeStage::TakingBytes => next_of_taking(service, word),
        PipeStage::Locking { done, id, runs } => next_of_lock(
            word,
            PipeStep::ReadFrom { done, id, runs },
            PipeStep::LockPausing { done },
        ),
        PipeStage::LockPausing { done } | PipeStage::TestPausing { done } => piped(
            PipeStep::Locking {
                done,
                id: 0,
                runs: 0,
            },
        ),
        PipeStage::ReadFrom { done, id, runs } => piped(PipeStep::ReadTo {
            done,
            id,
            runs,
            from: word,
        }),
        PipeStage::ReadTo {
            done,
            id,
            runs,
            from,
        } => next_of_positions(service, done, id, runs, from, word),
        PipeStage::LoadingHeld { done, from } => piped(PipeStep::KeepingHeld {
            done,
            from,
            byte: word,
        }),
        PipeStage::KeepingHeld { done, from, .. } => piped(PipeStep::TakingHeld { done, from }),
        PipeStage::LoadingOwn { done, to } => piped(PipeStep::PuttingOwn {
            done,
            to,
            byte: word,
        }),
        PipeStage::PuttingOwn { done, to, .. } => piped(PipeStep::Putting { done, to }),
        PipeStage::TakingHeld { done, .. } | PipeStage::Putting { done, .. } => {
            Next::Show(Step::Piped {
                at: PipeStep::UnlockingMoved {
                    done: done.wrapping_add(1),
                },
            })
        }
        PipeStage::UnlockingMoved { done } => next_of_moved(service, done),
        PipeStage::UnlockingEnd { done } => Next::GoOn(Step::FileRegion {
            done: 0,
            count: done,
        }),
        PipeStage::UnlockingTest { done, id, runs } => {
            if id == 0 {
                return piped(PipeStep::TestIdentifying { done });
            }
            piped(PipeStep::TestAgain { done, id, runs })
        }
        PipeStage::TestIdentifying { done } => piped(PipeStep::TestRuns { done, id: word }),
        PipeStage::TestRuns { done, id } | PipeStage::TestAgain { done, id, .. } => {
            piped(PipeStep::TestOwn {
                done,
                id,
                runs: word,
            })
        }
        PipeStage::TestOwn { done, id, runs } => piped(PipeStep::TestOther {
            done,
            id,
            runs,
            own: word,
        }),
        PipeStage::TestOther {
            done,
            id,
            runs,
            own,
        } => next_of_test(service, done, id, runs, own, word),
        PipeStage::TestDescriptor { done, id, runs } => piped(PipeStep::TestDescriptorCount {
            done,
            id,
            runs,
            entry: word,
        }),
        PipeStage::TestDescriptorCount { done, id, runs, .. } => piped(PipeStep::TestPipe {
            done,
            id,
            runs,
            count: word,
        }),
        PipeStage::TestPipe {
            done,
            id,
            runs,
            count,
        } => piped(PipeStep::TestPipeCount {
            done,
            id,
            runs,
            count,
            entry: word,
        }),
        PipeStage::TestPipeCount {
            done,
            id,
            runs,
            count,
            ..
        } => piped(PipeStep::TestRunsAgain {
            done,
            id,
            runs,
            closed: is_closed(count, word) as u32,
        }),
        PipeStage::TestRunsAgain {
            done,
            id,
            runs,
            closed,
        } => next_of_runs(done, id, runs, closed, word),
        PipeStage::StatLocking => next_of_lock(word, PipeStep::StatFrom, PipeStep::StatPausing),
        PipeStage::StatPausing => piped(PipeStep::StatLocking),
        PipeStage::StatFrom => piped(PipeStep::StatTo { from: word }),
        PipeStage::StatTo { from } => Next::Show(Step::Piped {
            at: PipeStep::StatUnlocking {
                held: word.wrapping_sub(from),
            },
        }),
        PipeStage::StatUnlocking { held } => Next::GoOn(Step::BufferRegion {
            done: 0,
            word: held.wrapping_add(1),
        }),
    }
}

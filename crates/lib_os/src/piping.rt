//! Where a service stands that makes, moves or drops an end of a pipe, and the words by which that is kept.

ghost use Rattle.std.specs.Prelude.{◌≡◌, ◌≤◌};
ghost use Rattle.lib_os.specs.declared.numbers.TheConstants.{SERVICES};
ghost use Rattle.lib_os.specs.Places as places;

use crate::pipe_numbers::{
    STEP_PIPE_DROPPING_END, STEP_PIPE_DROPPING_PIPE, STEP_PIPE_END_MODE, STEP_PIPE_ENTRY,
    STEP_PIPE_KEEPING_HELD, STEP_PIPE_LOADING_HELD, STEP_PIPE_LOADING_OWN, STEP_PIPE_LOCK_PAUSING,
    STEP_PIPE_LOCKING, STEP_PIPE_MAPPING_END, STEP_PIPE_MAPPING_PIPE, STEP_PIPE_PUTTING,
    STEP_PIPE_PUTTING_OWN, STEP_PIPE_READ_FROM, STEP_PIPE_READ_TO, STEP_PIPE_SECOND_ENTRY,
    STEP_PIPE_SOURCE_PIPE, STEP_PIPE_STAT_FROM, STEP_PIPE_STAT_LOCKING, STEP_PIPE_STAT_PAUSING,
    STEP_PIPE_STAT_TO, STEP_PIPE_STAT_UNLOCKING, STEP_PIPE_STORING_END_MODE,
    STEP_PIPE_STORING_READING, STEP_PIPE_STORING_WRITING, STEP_PIPE_TAKING_BYTES,
    STEP_PIPE_TAKING_HELD, STEP_PIPE_TAKING_PIPE, STEP_PIPE_TAKING_READING,
    STEP_PIPE_TAKING_WRITING, STEP_PIPE_TEST_AGAIN, STEP_PIPE_TEST_DESCRIPTOR,
    STEP_PIPE_TEST_DESCRIPTOR_COUNT, STEP_PIPE_TEST_IDENTIFYING, STEP_PIPE_TEST_OTHER,
    STEP_PIPE_TEST_OWN, STEP_PIPE_TEST_PAUSING, STEP_PIPE_TEST_PIPE, STEP_PIPE_TEST_PIPE_COUNT,
    STEP_PIPE_TEST_RUNS, STEP_PIPE_TEST_RUNS_AGAIN, STEP_PIPE_UNDOING_READING,
    STEP_PIPE_UNDOING_WRITING, STEP_PIPE_UNLOCKING_END, STEP_PIPE_UNLOCKING_MOVED,
    STEP_PIPE_UNLOCKING_TEST,
};
use crate::place::PipeStep;
use jos_base::Extra;

/// How far a service is that moves bytes through a pipe, or tells of one.
#[tactic(auto, unfolding(crate::specs::Places::end_step_in))]
fn find_end_step(words: &Extra) -> PipeStep
    ensures { result ≡ places.end_step_in words.now.0 }
{
    let [_, step, first, second, third, fourth, fifth, _, _, _, _, _] = words.0;
    match step {
        STEP_PIPE_END_MODE => PipeStep::EndMode,
        STEP_PIPE_TAKING_BYTES => PipeStep::TakingBytes,
        STEP_PIPE_LOCKING => PipeStep::Locking {
            done: first,
            id: second,
            runs: third,
        },
        STEP_PIPE_LOCK_PAUSING => PipeStep::LockPausing { done: first },
        STEP_PIPE_READ_FROM => PipeStep::ReadFrom {
            done: first,
            id: second,
            runs: third,
        },
        STEP_PIPE_READ_TO => PipeStep::ReadTo {
            done: first,
            id: second,
            runs: third,
            from: fourth,
        },
        STEP_PIPE_LOADING_HELD => PipeStep::LoadingHeld {
            done: first,
            from: second,
        },
        STEP_PIPE_KEEPING_HELD => PipeStep::KeepingHeld {
            done: first,
            from: second,
            byte: third,
        },
        STEP_PIPE_TAKING_HELD => PipeStep::TakingHeld {
            done: first,
            from: second,
        },
        STEP_PIPE_LOADING_OWN => PipeStep::LoadingOwn {
            done: first,
            to: second,
        },
        STEP_PIPE_PUTTING_OWN => PipeStep::PuttingOwn {
            done: first,
            to: second,
            byte: third,
        },
        STEP_PIPE_PUTTING => PipeStep::Putting {
            done: first,
            to: second,
        },
        STEP_PIPE_UNLOCKING_MOVED => PipeStep::UnlockingMoved { done: first },
        STEP_PIPE_UNLOCKING_END => PipeStep::UnlockingEnd { done: first },
        STEP_PIPE_UNLOCKING_TEST => PipeStep::UnlockingTest {
            done: first,
            id: second,
            runs: third,
        },
        STEP_PIPE_TEST_IDENTIFYING => PipeStep::TestIdentifying { done: first },
        STEP_PIPE_TEST_RUNS => PipeStep::TestRuns {
            done: first,
            id: second,
        },
        STEP_PIPE_TEST_AGAIN => PipeStep::TestAgain {
            done: first,
            id: second,
            runs: third,
        },
        STEP_PIPE_TEST_OWN => PipeStep::TestOwn {
            done: first,
            id: second,
            runs: third,
        },
        STEP_PIPE_TEST_OTHER => PipeStep::TestOther {
            done: first,
            id: second,
            runs: third,
            own: fourth,
        },
        STEP_PIPE_TEST_DESCRIPTOR => PipeStep::TestDescriptor {
            done: first,
            id: second,
            runs: third,
        },
        STEP_PIPE_TEST_DESCRIPTOR_COUNT => PipeStep::TestDescriptorCount {
            done: first,
            id: second,
            runs: third,
            entry: fourth,
        },
        STEP_PIPE_TEST_PIPE => PipeStep::TestPipe {
            done: first,
            id: second,
            runs: third,
            count: fourth,
        },
        STEP_PIPE_TEST_PIPE_COUNT => PipeStep::TestPipeCount {
            done: first,
            id: second,
            runs: third,
            count: fourth,
            entry: fifth,
        },
        STEP_PIPE_TEST_RUNS_AGAIN => PipeStep::TestRunsAgain {
            done: first,
            id: second,
            runs: third,
            closed: fourth,
        },
        STEP_PIPE_TEST_PAUSING => PipeStep::TestPausing { done: first },
        STEP_PIPE_STAT_LOCKING => PipeStep::StatLocking,
        STEP_PIPE_STAT_PAUSING => PipeStep::StatPausing,
        STEP_PIPE_STAT_FROM => PipeStep::StatFrom,
        STEP_PIPE_STAT_TO => PipeStep::StatTo { from: first },
        _ => PipeStep::StatUnlocking { held: first },
    }
}

/// The same, and how far one is that makes or drops an end.
#[tactic(auto, unfolding(crate::specs::Places::pipe_step_in))]
pub(crate) fn find_pipe_step(words: &Extra) -> PipeStep
    ensures { result ≡ places.pipe_step_in words.now.0 }
{
    let [_, step, first, second, third, _, _, _, _, _, _, _] = words.0;
    match step {
        STEP_PIPE_SECOND_ENTRY => PipeStep::SecondEntry {
            reading: first,
            fd: second,
        },
        STEP_PIPE_TAKING_READING => PipeStep::TakingReading {
            reading: first,
            writing: second,
        },
        STEP_PIPE_STORING_READING => PipeStep::StoringReading {
            reading: first,
            writing: second,
        },
        STEP_PIPE_TAKING_WRITING => PipeStep::TakingWriting {
            reading: first,
            writing: second,
        },
        STEP_PIPE_STORING_WRITING => PipeStep::StoringWriting {
            reading: first,
            writing: second,
        },
        STEP_PIPE_STORING_END_MODE => PipeStep::StoringEndMode {
            reading: first,
            writing: second,
        },
        STEP_PIPE_TAKING_PIPE => PipeStep::TakingPipe {
            reading: first,
            writing: second,
        },
        STEP_PIPE_MAPPING_PIPE => PipeStep::MappingPipe {
            reading: first,
            writing: second,
        },
        STEP_PIPE_UNDOING_WRITING => PipeStep::UndoingWriting {
            reading: first,
            writing: second,
            error: third,
        },
        STEP_PIPE_UNDOING_READING => PipeStep::UndoingReading {
            reading: first,
            error: second,
        },
        STEP_PIPE_ENTRY => PipeStep::PipeEntry { fd: first },
        STEP_PIPE_DROPPING_END => PipeStep::DroppingEnd { fd: first },
        STEP_PIPE_DROPPING_PIPE => PipeStep::DroppingPipe { fd: first },
        STEP_PIPE_SOURCE_PIPE => PipeStep::SourcePipe,
        STEP_PIPE_MAPPING_END => PipeStep::MappingEnd,
        _ => find_end_step(words),
    }
}

/// The words of a service, which is named by its number, that makes, moves or drops an end of a pipe.
#[tactic(auto, unfolding(crate::specs::Places::pipe_words_at))]
pub(crate) fn pipe_words_at(number: u32, at: PipeStep) -> Extra
    requires { number ≤ SERVICES }
    ensures { result.0 ≡ places.pipe_words_at number at }
{
    let (place, first, second, third, fourth, fifth) = match at {
        PipeStep::SecondEntry { reading, fd } => (STEP_PIPE_SECOND_ENTRY, reading, fd, 0, 0, 0),
        PipeStep::TakingReading { reading, writing } => (
            STEP_PIPE_TAKING_READING,
            reading,
            writing,
            0,
            0,
            0,
        ),
        PipeStep::StoringReading { reading, writing } => (
            STEP_PIPE_STORING_READING,
            reading,
            writing,
            0,
            0,
            0,
        ),
        PipeStep::TakingWriting { reading, writing } => (
            STEP_PIPE_TAKING_WRITING,
            reading,
            writing,
            0,
            0,
            0,
        ),
        PipeStep::StoringWriting { reading, writing } => (
            STEP_PIPE_STORING_WRITING,
            reading,
            writing,
            0,
            0,
            0,
        ),
        PipeStep::StoringEndMode { reading, writing } => (
            STEP_PIPE_STORING_END_MODE,
            reading,
            writing,
            0,
            0,
            0,
        ),
        PipeStep::TakingPipe { reading, writing } => (
            STEP_PIPE_TAKING_PIPE,
            reading,
            writing,
            0,
            0,
            0,
        ),
        PipeStep::MappingPipe { reading, writing } => (
            STEP_PIPE_MAPPING_PIPE,
            reading,
            writing,
            0,
            0,
            0,
        ),
        PipeStep::UndoingWriting {
            reading,
            writing,
            error,
        } => (STEP_PIPE_UNDOING_WRITING, reading, writing, error, 0, 0),
        PipeStep::UndoingReading { reading, error } => (
            STEP_PIPE_UNDOING_READING,
            reading,
            error,
            0,
            0,
            0,
        ),
        PipeStep::PipeEntry { fd } => (STEP_PIPE_ENTRY, fd, 0, 0, 0, 0),
        PipeStep::DroppingEnd { fd } => (STEP_PIPE_DROPPING_END, fd, 0, 0, 0, 0),
        PipeStep::DroppingPipe { fd } => (STEP_PIPE_DROPPING_PIPE, fd, 0, 0, 0, 0),
        PipeStep::SourcePipe => (STEP_PIPE_SOURCE_PIPE, 0, 0, 0, 0, 0),
        PipeStep::MappingEnd => (STEP_PIPE_MAPPING_END, 0, 0, 0, 0, 0),
        PipeStep::EndMode => (STEP_PIPE_END_MODE, 0, 0, 0, 0, 0),
        PipeStep::TakingBytes => (STEP_PIPE_TAKING_BYTES, 0, 0, 0, 0, 0),
        PipeStep::Locking { done, id, runs } => (STEP_PIPE_LOCKING, done, id, runs, 0, 0),
        PipeStep::LockPausing { done } => (STEP_PIPE_LOCK_PAUSING, done, 0, 0, 0, 0),
        PipeStep::ReadFrom { done, id, runs } => (STEP_PIPE_READ_FROM, done, id, runs, 0, 0),
        PipeStep::ReadTo {
            done,
            id,
            runs,
            from,
        } => (STEP_PIPE_READ_TO, done, id, runs, from, 0),
        PipeStep::LoadingHeld { done, from } => (STEP_PIPE_LOADING_HELD, done, from, 0, 0, 0),
        PipeStep::KeepingHeld { done, from, byte } => (
            STEP_PIPE_KEEPING_HELD,
            done,
            from,
            byte,
            0,
            0,
        ),
        PipeStep::TakingHeld { done, from } => (STEP_PIPE_TAKING_HELD, done, from, 0, 0, 0),
        PipeStep::LoadingOwn { done, to } => (STEP_PIPE_LOADING_OWN, done, to, 0, 0, 0),
        PipeStep::PuttingOwn { done, to, byte } => (STEP_PIPE_PUTTING_OWN, done, to, byte, 0, 0),
        PipeStep::Putting { done, to } => (STEP_PIPE_PUTTING, done, to, 0, 0, 0),
        PipeStep::UnlockingMoved { done } => (STEP_PIPE_UNLOCKING_MOVED, done, 0, 0, 0, 0),
        PipeStep::UnlockingEnd { done } => (STEP_PIPE_UNLOCKING_END, done, 0, 0, 0, 0),
        PipeStep::UnlockingTest { done, id, runs } => (
            STEP_PIPE_UNLOCKING_TEST,
            done,
            id,
            runs,
            0,
            0,
        ),
        PipeStep::TestIdentifying { done } => (STEP_PIPE_TEST_IDENTIFYING, done, 0, 0, 0, 0),
        PipeStep::TestRuns { done, id } => (STEP_PIPE_TEST_RUNS, done, id, 0, 0, 0),
        PipeStep::TestAgain { done, id, runs } => (STEP_PIPE_TEST_AGAIN, done, id, runs, 0, 0),
        PipeStep::TestOwn { done, id, runs } => (STEP_PIPE_TEST_OWN, done, id, runs, 0, 0),
        PipeStep::TestOther {
            done,
            id,
            runs,
            own,
        } => (STEP_PIPE_TEST_OTHER, done, id, runs, own, 0),
        PipeStep::TestDescriptor { done, id, runs } => (
            STEP_PIPE_TEST_DESCRIPTOR,
            done,
            id,
            runs,
            0,
            0,
        ),
        PipeStep::TestDescriptorCount {
            done,
            id,
            runs,
            entry,
        } => (STEP_PIPE_TEST_DESCRIPTOR_COUNT, done, id, runs, entry, 0),
        PipeStep::TestPipe {
            done,
            id,
            runs,
            count,
        } => (STEP_PIPE_TEST_PIPE, done, id, runs, count, 0),
        PipeStep::TestPipeCount {
            done,
            id,
            runs,
            count,
            entry,
        } => (STEP_PIPE_TEST_PIPE_COUNT, done, id, runs, count, entry),
        PipeStep::TestRunsAgain {
            done,
            id,
            runs,
            closed,
        } => (STEP_PIPE_TEST_RUNS_AGAIN, done, id, runs, closed, 0),
        PipeStep::TestPausing { done } => (STEP_PIPE_TEST_PAUSING, done, 0, 0, 0, 0),
        PipeStep::StatLocking => (STEP_PIPE_STAT_LOCKING, 0, 0, 0, 0, 0),
        PipeStep::StatPausing => (STEP_PIPE_STAT_PAUSING, 0, 0, 0, 0, 0),
        PipeStep::StatFrom => (STEP_PIPE_STAT_FROM, 0, 0, 0, 0, 0),
        PipeStep::StatTo { from } => (STEP_PIPE_STAT_TO, from, 0, 0, 0, 0),
        PipeStep::StatUnlocking { held } => (STEP_PIPE_STAT_UNLOCKING, held, 0, 0, 0, 0),
    };
    Extra([
        number + 1,
        place,
        first,
        second,
        third,
        fourth,
        fifth,
        0,
        0,
        0,
        0,
        0,
    ])
}

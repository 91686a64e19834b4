//! Whether the numbers with which a job stands are small enough to compute with.

ghost use Rattle.std.specs.Prelude.{◌≡◌};
ghost use Rattle.fs_jobs.specs.TreeBounds as bounds;

use crate::place::{Changed, FilePlace, Job, Seek, TreePlace, TreeState, WalkPlace, Wanted};

fn is_block(n: u32) -> bool
    ensures { result ≡ bounds.is_block n }
{
    n < 0x1_0000
}

fn is_count(n: u32) -> bool
    ensures { result ≡ bounds.is_count n }
{
    n < 0x10_0000
}

fn is_place(n: u32) -> bool
    ensures { result ≡ bounds.is_place n }
{
    n < 0x1000_0000
}

fn is_bounded_job(job: Job) -> bool
    ensures { result ≡ bounds.is_bounded_job job }
{
    match job {
        Job::Open { .. } | Job::Find => true,
        Job::Remove { home }
        | Job::SetSize { home, .. }
        | Job::Stat { home }
        | Job::Size { home } => is_place(home),
        Job::Read { home, at, .. } | Job::Write { home, at, .. } => {
            is_place(home) && at < 0x8000_0000
        }
        Job::Create {
            directory,
            slot,
            from,
        } => is_place(directory) && is_count(slot) && is_place(from),
    }
}

fn is_bounded_seek(seek: Seek) -> bool
    ensures { result ≡ bounds.is_bounded_seek seek }
{
    is_place(seek.from) && is_place(seek.directory) && is_count(seek.slots) && is_count(seek.slot)
}

fn is_bounded_walk(place: WalkPlace) -> bool
    ensures { result ≡ bounds.is_bounded_walk place }
{
    match place {
        WalkPlace::Path { at, run } => is_place(at) && is_place(run),
        WalkPlace::Magic | WalkPlace::Count | WalkPlace::RootKind => true,
        WalkPlace::Component { from, home } => is_place(from) && is_place(home),
        WalkPlace::DirectoryKind { from, directory }
        | WalkPlace::DirectorySize { from, directory } => is_place(from) && is_place(directory),
        WalkPlace::Slot { seek } => is_bounded_seek(seek),
        WalkPlace::SlotIndirect { seek, indirect } => is_bounded_seek(seek) && is_block(indirect),
        WalkPlace::NameByte { seek, block, k } | WalkPlace::PathByte { seek, block, k, .. } => {
            is_bounded_seek(seek) && is_block(block) && is_place(k)
        }
        WalkPlace::Missing { seek, at, .. } => is_bounded_seek(seek) && is_place(at),
        WalkPlace::FoundKind { home } => is_place(home),
    }
}

fn is_bounded_wanted(wanted: Wanted) -> bool
    ensures { result ≡ bounds.is_bounded_wanted wanted }
{
    match wanted {
        Wanted::Reading { k } | Wanted::Writing { k } => is_place(k),
        Wanted::Filling { at } => is_place(at),
        Wanted::Giving => true,
        Wanted::Making { slot, from } => is_count(slot) && is_place(from),
    }
}

fn is_bounded_changed(changed: Changed) -> bool
    ensures { result ≡ bounds.is_bounded_changed changed }
{
    is_place(changed.home)
        && is_place(changed.size)
        && is_block(changed.indirect)
        && is_place(changed.end)
}

fn is_bounded_file(place: FilePlace) -> bool
    ensures { result ≡ bounds.is_bounded_file place }
{
    match place {
        FilePlace::Kind
        | FilePlace::Size
        | FilePlace::Indirect
        | FilePlace::SizeNow
        | FilePlace::IndirectNow
        | FilePlace::PutMore
        | FilePlace::Empty => true,
        FilePlace::Free { word, free } => is_count(word) && is_place(free),
        FilePlace::Number { i, wanted } | FilePlace::NumberIndirect { i, wanted } => {
            is_count(i) && is_bounded_wanted(wanted)
        }
        FilePlace::Reading { block, k }
        | FilePlace::Handing { block, k, .. }
        | FilePlace::Gathering { block, k }
        | FilePlace::Writing { block, k, .. } => is_block(block) && is_place(k),
        FilePlace::Filling { block, at } => is_block(block) && is_place(at),
        FilePlace::PutSize { size } => is_place(size),
        FilePlace::Lowest { word, .. } => is_count(word),
        FilePlace::Mark { block, .. }
        | FilePlace::PutMark { block, .. }
        | FilePlace::PutLess { block }
        | FilePlace::PutNumber { block, .. }
        | FilePlace::PutIndirect { block, .. } => is_block(block),
        FilePlace::Zero { block, word, .. } => is_block(block) && is_count(word),
        FilePlace::MakeName { new, from, k } | FilePlace::PutName { new, from, k, .. } => {
            is_place(new) && is_place(from) && is_place(k)
        }
        FilePlace::MakeWord { new, from, word } => {
            is_place(new) && is_place(from) && is_count(word)
        }
        FilePlace::MakeFirst { new, from } => is_place(new) && is_place(from),
        FilePlace::PutFirst { new, .. } => is_place(new),
        FilePlace::StatByte { k, .. } | FilePlace::HandStat { k, .. } => is_place(k),
    }
}

/// Whether all of them are.
pub fn is_bounded(state: TreeState) -> bool
    ensures { result ≡ bounds.is_bounded state }
{
    is_block(state.count)
        && is_bounded_job(state.job)
        && match state.place {
            TreePlace::Walking(place) => is_bounded_walk(place),
            TreePlace::Changing(changed, place) => {
                is_bounded_changed(changed) && is_bounded_file(place)
            }
        }
}

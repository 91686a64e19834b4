//! What the acts on the blocks of a disk mean. Nothing here is to be run: each clause is a theorem.

ghost use Rattle.fs_acts.specs.BlockLaws.{OverwritesAreActs, CutsAreActs, FillsAreActs, MadeRecordsAreFiles, EmptyFilesAreRemoved};
ghost use Rattle.fs_acts.specs.BlockLaws.{DisksAreCounted, NamesAreCounted, BlocksAreCounted, FreeIsCounted, FreeIsFound};
ghost use Rattle.fs_acts.specs.BlockLaws.{DisksAreUndamaged, PrefixesAreWritten, PutAgainChangesNothing};
ghost use Rattle.fs_acts.specs.BlockLaws.{RecordsAreTheirBlocks, BlocksDecide, WaysLeadToRecords, PathsLeadAlike};
ghost use Rattle.fs_acts.specs.BlockLaws.{PlacesHaveOneWay, TakenIndirectIsMarked, GivenBlocksAreLost};
ghost use Rattle.fs_acts.specs.BlockLaws.{GivenIndirectIsUnmarked, TakenBlocksAreZeros, TakenBlocksAreEmptyRecords};
ghost use Rattle.fs_acts.specs.BlockLaws.{WaysLeadToNames, BlockActsAreActs, ChangesKeepDisks, ActsGoOn};
ghost use Rattle.fs_acts.specs.BlockLaws.{PlacesStay, PutsStayWithin, FaultsAreTheirBlocks};

/// A disk has no fault exactly where each of its records is good, and each block is named once at most and then in
/// use.
pub fn disks_are_counted()
    ensures { DisksAreCounted }
{}

/// The blocks that the tests name are those that records name.
pub fn names_are_counted()
    ensures { NamesAreCounted }
{}

/// What is put after other puts finds the disk as these left it.
pub fn puts_follow_each_other()
    ensures { PrefixesAreWritten }
{}

/// A node that is put where it stands changes nothing in the tree of files.
pub fn putting_again_changes_nothing()
    ensures { PutAgainChangesNothing }
{}

/// What a record says depends on its own bytes and on the blocks that it and those below it name.
pub fn records_are_their_blocks()
    ensures { RecordsAreTheirBlocks }
{}

/// A way leads to a record where it leads to a node of the tree, and this is the record's.
pub fn ways_lead_to_records()
    ensures { WaysLeadToRecords }
{}

/// Where a path leads on the disk is where it leads in the tree.
pub fn paths_lead_alike()
    ensures { PathsLeadAlike }
{}

/// The bitmap counts as many free blocks as the tree of files leaves.
pub fn free_is_counted()
    ensures blocks { BlocksAreCounted }
    ensures free { FreeIsCounted }
{}

/// Where blocks of a disk are free, one of them is the lowest.
pub fn free_is_found()
    ensures { FreeIsFound }
{}

/// On a disk without a fault no test of damage fails.
pub fn disks_are_undamaged()
    ensures { DisksAreUndamaged }
{}

/// No other way leads to a record.
pub fn places_have_one_way()
    ensures { PlacesHaveOneWay }
{}

/// Two disks whose bytes agree within their blocks have the same faults and files.
pub fn blocks_decide()
    ensures { BlocksDecide }
{}

/// A record's indirect block is given back where it has at most ten blocks: the mark is gone.
pub fn given_indirect_is_unmarked()
    ensures { GivenIndirectIsUnmarked }
{}

/// A record with ten blocks gets an indirect block: the mark is set.
pub fn taken_indirect_is_marked()
    ensures { TakenIndirectIsMarked }
{}

/// A file's last block is given back: the bytes in it are gone.
pub fn given_blocks_are_lost()
    ensures { GivenBlocksAreLost }
{}

/// A file gets one more block: its bytes are zeros.
pub fn taken_blocks_are_zeros()
    ensures { TakenBlocksAreZeros }
{}

/// A directory gets one more block: the records in it are empty.
pub fn taken_blocks_are_empty_records()
    ensures { TakenBlocksAreEmptyRecords }
{}

/// Bytes that are stored within the blocks of a file, and its size, make it the file with these bytes.
pub fn files_are_stored()
    ensures overwrites { OverwritesAreActs }
    ensures cuts { CutsAreActs }
    ensures fills { FillsAreActs }
{}

/// An empty record of a directory becomes a new file's where it is stored whole.
pub fn made_records_are_files()
    ensures { MadeRecordsAreFiles }
{}

/// A file without blocks is removed where its name's first byte is put as 0.
pub fn empty_files_are_removed()
    ensures { EmptyFilesAreRemoved }
{}

/// A node that a way leads to has the name of the record there, where it is not the root.
pub fn ways_lead_to_names()
    ensures { WaysLeadToNames }
{}

/// What an act on files stores in the blocks of a disk is what it does to the tree: it answers the same, hands back the same
/// bytes, and leaves a disk without a fault that has the files of the act.
pub fn block_acts_are_acts()
    ensures { BlockActsAreActs }
{}

/// No act moves a record: what a way leads to stands where it stood, and is a directory where it was one, but for the file
/// that is removed.
pub fn places_stay()
    ensures { PlacesStay }
{}

/// Between two changes of an act the disk has no fault.
pub fn changes_keep_disks()
    ensures { ChangesKeepDisks }
{}

/// An act that is begun anew between two of its changes puts exactly what is left.
pub fn acts_go_on()
    ensures { ActsGoOn }
{}

/// Every put of an act lies within the disk's blocks, and a word stands at a multiple of four and is below 2^32.
pub fn puts_stay_within()
    ensures { PutsStayWithin }
{}

/// The fault of bytes is told by the blocks that they count, or by the super block where a disk may not have so many.
pub fn faults_are_their_blocks()
    ensures { FaultsAreTheirBlocks }
{}

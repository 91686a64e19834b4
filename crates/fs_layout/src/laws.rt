//! What the tree of files, the acts on it, paths, records and the tests of an image mean. Nothing here is to be run: each
//! clause is a theorem.

ghost use Rattle.fs_layout.specs.FileLaws.{WritesAreReadBack, WritesLengthen, SizesAreSet, NodesAreReplaced, RecordsAreEmptied};
ghost use Rattle.fs_layout.specs.LayoutLaws.{EntriesAreTheirBytes, SupersAreTheirBytes};
ghost use Rattle.fs_layout.specs.PathLaws.{NamesStandInSpans, GoodPathsHaveParts};
ghost use Rattle.fs_layout.specs.DiskLaws.{DepthSuffices, DisksAreSound, TreeDepthSuffices};

/// What is written to a file is read back at its place, a file is no longer than that asks for, and it has the size
/// that it is given.
pub fn files_keep_what_is_written()
    ensures read_back { WritesAreReadBack }
    ensures length { WritesLengthen }
    ensures size { SizesAreSet }
{}

/// What is put at a way in the tree of files stands there, and nothing does where a record is emptied.
pub fn trees_keep_what_is_put()
    ensures replaced { NodesAreReplaced }
    ensures emptied { RecordsAreEmptied }
{}

/// What `parts` tells of a path are the places of its names, and it refuses what is not a good path.
pub fn parts_are_names()
    ensures names { NamesStandInSpans }
    ensures good { GoodPathsHaveParts }
{}

/// The bound on the depth in the tests of an image is never used up: with a greater one the outcome is the same.
pub fn depth_suffices()
    ensures { DepthSuffices }
{}

/// Every record of a disk can be read, in blocks that are there, and the bound on the depth of its tree is never used up.
pub fn disks_are_sound()
    ensures sound { DisksAreSound }
    ensures depth { TreeDepthSuffices }
{}

/// What a record and a super block say depends on their bytes alone, wherever these stand on a disk.
pub fn records_are_their_bytes()
    ensures entries { EntriesAreTheirBytes }
    ensures supers { SupersAreTheirBytes }
{}

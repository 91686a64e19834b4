//! What is told of a disk of which the blocks alone are held.

ghost use Rattle.fs_contents.specs.HeldLaws.{HeldFaultsAreTheFiles, HeldTreesAreTheFiles};

/// What is held of a file as a disk has the fault of the whole file, and, where that has none, its tree. Nothing is done.
#[tactic(auto, using(crate::proofs::Held::held_faults, crate::proofs::Held::held_trees))]
pub fn held_disks_are_whole()
    ensures faults { HeldFaultsAreTheFiles }
    ensures trees { HeldTreesAreTheFiles }
{}

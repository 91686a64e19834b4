//! What the plan amounts to. Nothing here is to be run: each clause is a theorem.

ghost use Rattle.lib_child.specs.RecordLaws.{RecordTells};

/// The child's registers are those with which a program begins at the first instruction of its image, with ESP at its words.
pub fn record_tells()
    ensures { RecordTells }
{}

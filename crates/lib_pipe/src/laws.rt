//! What follows from the stages. Nothing here is to be run: each clause is a theorem.

ghost use Rattle.lib_pipe.specs.ShortLocks.{LocksAreShort, TestsAreShort};

/// Who has the lock of a pipe gives it back within six of its steps, none of which waits; and the test for a closed pipe takes eight, or begins anew
/// where the environment has got another turn meanwhile.
pub fn locks_are_short()
    ensures locks { LocksAreShort }
    ensures tests { TestsAreShort }
{}

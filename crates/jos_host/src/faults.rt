//! The count of faults that a host keeps.

ghost use Rattle.std.specs.Prelude.{◌≡◌, OnOk, OnErr};
ghost use Rattle.std.specs.Result.{result_ok};
ghost use Rattle.jos_host.specs.Count.{risen};

use crate::Failed;

/// Counts a fault.
pub(crate) fn refuse(faults: &mut u64) -> Failed
    ensures { faults.new ≡ risen faults.old }
{
    *faults = faults.saturating_add(1);
    Failed
}

/// Counts a fault where something failed, of which no more is told.
pub(crate) fn count_fault<T, E: Drop>(done: Result<T, E>, faults: &mut u64) -> Result<T, Failed>
    ensures same { result_ok result ≡ result_ok done }
    ensures went { OnOk result (faults.new ≡ faults.old) }
    ensures failed { OnErr result (faults.new ≡ risen faults.old) }
{
    match done {
        Ok(value) => Ok(value),
        Err(_) => Err(refuse(faults)),
    }
}

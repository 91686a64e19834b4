//! Who gets the next turn.

ghost use Rattle.std.specs.Prelude.{◌≡◌, ◌<◌, ◌≤◌};
ghost use Rattle.std.specs.Option.{ForSome};
ghost use Rattle.jos_base.specs.declared.numbers.TheConstants.{NENV};
ghost use Rattle.jos_envs.specs.Table.{environments};
ghost use Rattle.jos_sched.specs.RoundRobin.{start, next};

use jos_envs::Table;

/// The slot that is tried first.
fn start(last: Option<usize>) -> usize
    requires { ForSome last (λ slot. slot < NENV) }
    ensures start { result ≡ start last }
    ensures most { result ≤ NENV }
{
    match last {
        Some(slot) => slot + 1,
        None => 0,
    }
}

/// The slot that gets the next turn: the first that is runnable behind the slot that had the last turn, round the
/// table's end; that slot itself is tried last. None where no slot is runnable.
pub fn next(table: &Table, last: Option<usize>) -> Option<usize>
    requires { ForSome last (λ slot. slot < NENV) }
    ensures { result ≡ next (environments table.now) last }
{
    match table.first_runnable(start(last)) {
        Some(slot) => Some(slot),
        None => table.first_runnable(0),
    }
}

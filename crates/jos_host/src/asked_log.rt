//! A list of calls that only proofs see.

ghost use Rattle.std.specs.Prelude.{◌≡◌, List, [], ◌∷◌, ◌++◌};
ghost use Rattle.std.specs.Borrow.{ftrue};
ghost use Rattle.jos_host.specs.Asked.{Asked};

use crate::HostCall;
use std::marker::{Model, PhantomData};

/// The calls on files and those that write notes, in order. Nothing of it is there when the program runs, so only
/// the clauses here tie the list to the calls.
#[derive(Drop)]
pub(crate) struct AskedLog {
    marker: PhantomData<u8>,
    pub ghost calls: { List Asked },
}

impl Model for AskedLog {
    ghost also_owns = { λ _. ftrue };
}

impl AskedLog {
    /// No calls.
    pub(crate) fn new() -> AskedLog
        ensures { result.calls ≡ [] }
    {
        AskedLog {
            marker: PhantomData,
        }
    }

    /// Puts a call at the end.
    pub(crate) fn note(&mut self, _call: &HostCall, _name: &[u8])
        ensures { self.new.calls ≡ self.old.calls ++ record { call = _call.now; name = _name.now } ∷ [] }
    {}
}

//! What the tests share.

use std::fmt::Debug;
use std::process::Abort;

/// Ends the test where it did not get what it wants.
pub(crate) fn same<T: PartialEq + Debug + Drop>(rt: &impl Abort, got: T, wanted: T, what: &str) {
    assert_eq!(rt; got, wanted, "{what}");
}

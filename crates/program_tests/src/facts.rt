//! Assertions whose callers are cheap to prove.

use abides_run::Status;
use std::fmt::Debug;
use std::process::Abort;

/// Ends a test where a fact does not hold. What follows the call does not know the fact.
pub(crate) fn holds(rt: &impl Abort, fact: bool) {
    assert!(rt; fact);
}

/// Ends a test where two values differ, and prints both.
pub(crate) fn equal<T: PartialEq + Debug + Drop>(rt: &impl Abort, told: T, hoped: T) {
    assert_eq!(rt; told, hoped);
}

/// Ends a test where a run did not end so, and prints both exit statuses where these differ.
pub(crate) fn ends(rt: &impl Abort, told: Status, hoped: Status) {
    equal(rt, told.code(), hoped.code());
    holds(rt, told == hoped);
}

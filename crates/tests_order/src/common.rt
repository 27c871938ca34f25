//! What the tests share. Each is proved once, so a test that calls it costs less than one that
//! compares and branches of its own.

use std::fmt::Debug;
use std::process::Abort;

/// Fails where two values differ, and shows both.
pub fn same<T: PartialEq + Debug + Drop>(rt: &impl Abort, found: T, wanted: T) {
    assert_eq!(rt; found, wanted);
}

/// Fails where a condition does not hold.
pub fn holds(rt: &impl Abort, condition: bool) {
    assert!(rt; condition);
}

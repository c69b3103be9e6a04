//! What ends a test. A call of these has no branch of its own, so a test with many of them is proved fast.

use std::process::Abort;

/// Ends the test where something doesn't hold, with what was looked at.
pub(crate) fn holds(rt: &impl Abort, is_so: bool, what: &str) {
    assert!(rt; is_so, "wrong at [{what}]");
}

/// Ends the test where bytes are not those that are wanted.
pub(crate) fn are_bytes(rt: &impl Abort, found: &[u8], wanted: &[u8]) {
    assert_eq!(rt; found, wanted);
}

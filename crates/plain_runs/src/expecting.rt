//! What is written in a test, against nothing. A test without an assertion of its own takes a third of the proof.
use std::alloc::AllocError;
use std::process::Abort;

fn expect_empty(rt: &impl Abort, others: &str) {
    assert_eq!(*rt; others, "");
}

/// Fails if others are written, and says which, or if they were not all written.
pub(crate) fn expect_none(rt: &impl Abort, written: Result<(), AllocError>, others: &str) {
    match written {
        Ok(()) => expect_empty(rt, others),
        Err(why) => panic!(*rt; "not all is written: {why:?}"),
    }
}

//! What is told in a test, against what is wanted. A test without an assertion of its own takes a third of the proof.
use std::fmt::Debug;
use std::process::Abort;

fn expect_told(rt: &impl Abort, told: &str, wanted: &str) {
    assert_eq!(*rt; told, wanted);
}

/// Fails unless this is told, and says what is instead, or why nothing is.
pub(crate) fn expect<E: Debug + Drop>(rt: &impl Abort, told: Result<String, E>, wanted: &str) {
    match told {
        Ok(told) => expect_told(rt, told.as_str(), wanted),
        Err(why) => panic!(*rt; "nothing is told: {why:?}"),
    }
}

//! What is found in a test, against what is wanted. A test without an assertion of its own takes a third of the proof.
use std::alloc::AllocError;
use std::fmt::Debug;
use std::process::Abort;

/// Fails unless both are equal, and says what they are.
pub(crate) fn expect_equal<T: PartialEq + Debug>(rt: &impl Abort, found: &T, wanted: &T) {
    assert_eq!(*rt; *found, *wanted);
}

/// Fails unless this is found, and says what is instead, or why nothing is.
pub(crate) fn expect<T: PartialEq + Debug + Drop>(
    rt: &impl Abort,
    found: Result<T, AllocError>,
    wanted: &T,
) {
    match &found {
        Ok(found) => expect_equal(rt, found, wanted),
        Err(why) => panic!(*rt; "nothing is found: {why:?}"),
    }
}

/// As `expect`, of a text.
pub(crate) fn expect_told(rt: &impl Abort, told: Result<String, AllocError>, wanted: &str) {
    match &told {
        Ok(told) => expect_equal(rt, &told.as_str(), &wanted),
        Err(why) => panic!(*rt; "nothing is told: {why:?}"),
    }
}

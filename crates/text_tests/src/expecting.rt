//! What is told in a test, against what is wanted. A test without an assertion of its own takes a third of the proof.
use std::fmt::Debug;
use std::process::Abort;
use std::test::Fail;

fn expect_same(rt: &impl Abort, told: &str, wanted: &str) {
    assert_eq!(*rt; told, wanted);
}

fn expect_same_bytes(rt: &impl Abort, told: &[u8], wanted: &[u8]) {
    assert_eq!(*rt; told, wanted);
}

/// Fails unless this is told, and says what is instead, or why nothing is.
pub(crate) fn expect<E: Debug + Drop>(rt: &impl Abort, told: Result<String, E>, wanted: &str) {
    match told {
        Ok(told) => expect_same(rt, told.as_str(), wanted),
        Err(why) => panic!(*rt; "nothing is told: {why:?}"),
    }
}

/// As `expect`, of bytes.
pub(crate) fn expect_bytes(
    rt: &impl Abort,
    told: Result<Vec<u8>, Fail>,
    wanted: &[u8],
) -> Result<(), Fail> {
    expect_same_bytes(rt, &told?, wanted);
    Ok(())
}

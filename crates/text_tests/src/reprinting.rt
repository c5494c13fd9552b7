//! Texts of steps that are read, and printed again: what the texts of proofs and of logs have in common.

use std::alloc::{AllocError, Global};
use std::test::Fail;
use step_text::TextRefusal;

/// A kind of texts of steps.
pub(crate) trait Reprint {
    /// Appends what is printed of a text's steps, at most sixteen, and gives the refusal that they end with.
    fn reprint(
        alloc: Global,
        text: &[u8],
        printed: &mut Vec<u8>,
    ) -> Result<Option<TextRefusal>, Fail>;
}

/// Appends how a text's steps end.
pub(crate) fn add_line(
    alloc: Global,
    ending: Option<TextRefusal>,
    told: &mut Vec<u8>,
) -> Result<(), AllocError> {
    told.extend_from_slice(format!(in alloc; "{ending:?}\n")?.as_bytes())
}

/// Appends the steps of a text, and the refusal that it ends with.
fn add_ending<R: Reprint>(alloc: Global, text: &[u8], all: &mut Vec<u8>) -> Result<(), Fail> {
    let ending = R::reprint(alloc, text, all)?;
    Ok(add_line(alloc, ending, all)?)
}

/// The steps of each text, and the refusal that it ends with.
pub(crate) fn endings_of<R: Reprint>(alloc: Global, texts: &[&[u8]]) -> Result<Vec<u8>, Fail> {
    let mut all = Vec::new(alloc);
    for text in texts {
        add_ending::<R>(alloc, text, &mut all)?;
    }
    Ok(all)
}

//! What a text can have.
ghost use Rattle.cx_texts.specs.Printed.{HasText, HasProofText};

use cx_base::{LogEvent, ProofStep};

/// What is written in a text, each in the grammar of its kind.
pub trait Textual {
    // a text can have it
    ghost has_text: { Self → Type 0 };
}

impl Textual for ProofStep {
    ghost has_text = { HasProofText };
}

impl Textual for LogEvent {
    ghost has_text = { HasText };
}

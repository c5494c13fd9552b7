//! Grammars of steps that are read from texts.
ghost use Rattle.std.specs.Prelude.{◌≡◌, ◌≢◌, true, []};
ghost use Rattle.cx_texts.specs.Words.{placed_words};
ghost use Rattle.cx_texts.specs.Grammar.{Grammar, IsClosed};
ghost use Rattle.cx_texts.proofs.Forms.{Forms};
ghost use Rattle.step_text.specs.Reading.{ReadsStep};

use crate::ahead::TokensAhead;
use crate::source::TextRefusal;
use crate::spare::SpareLists;

/// A grammar of steps, and the reader of one step.
pub trait StepGrammar {
    type Step;

    // the fields of each step, and the greatest magnitude of a number
    ghost steps: { Grammar Self.Step };

    /// The step at the head of a text of this size. Its lists take the memory of the spare ones.
    fn read_step(
        spare: &mut SpareLists,
        tokens: &mut TokensAhead,
        size: usize,
    ) -> Result<Self::Step, TextRefusal>
        requires some { tokens.old ≢ [] }
        ensures { ReadsStep steps size (placed_words tokens.old) result (placed_words tokens.new) };

    /// Whether it is known that no word goes on with a step.
    fn is_closed(step: &Self::Step) -> bool
        ensures { result ≡ true → IsClosed steps step.now };

    // each step is of one of a few forms, so that all words have one reading
    ghost forms: { Forms steps };
}

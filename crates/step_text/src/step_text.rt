//! The steps of a text, by any grammar.
ghost use Rattle.std.specs.Prelude.{◌≡◌, ◌≤◌, length, None};
ghost use Rattle.cx_texts.specs.Tokens.{tokens};
ghost use Rattle.step_text.specs.Texts.{TextState};

use crate::ahead::TokensAhead;
use crate::grammar::StepGrammar;
use crate::source::{StepSource, TextRefusal};
use crate::spare::SpareLists;
use std::marker::{Model, PhantomData};

/// The steps of a grammar that are read from a text, step by step, in one pass and with no copy of it.
///
/// The text has at most 4,294,967,295 bytes. It never answers `TooLong` or `Failed`, and asks for memory for the steps' lists
/// alone, where the spare ones have too little. Its place is the place of the token after the last step, or the text's length at the end.
#[derive(Drop)]
pub struct StepText<'a, G> {
    tokens: TokensAhead<'a>,
    size: usize,
    place: usize,
    refused: Option<TextRefusal>,
    grammar: PhantomData<G>,
}

impl<'a, G> Model for StepText<'a, G> {
    ghost use Rattle.std.specs.Prelude.{◌≤◌};
    ghost use Rattle.step_text.specs.Texts.{TextState, IsInOrder};

    ghost Value = { TextState };

    ghost view = { λ t. record { tokens = t.tokens; size = t.size; place = t.place; refused = t.refused } };

    ghost invariant = { λ t. IsInOrder t.tokens t.size t.place t.refused × ((t.place ≤ t.size) × (t.size ≤ 4294967295)) };
}

impl<'a, G: StepGrammar> StepText<'a, G> {
    /// The steps of a text of at most 4,294,967,295 bytes.
    pub fn new(text: &'a [u8]) -> StepText<'a, G>
        requires { length text.now ≤ 4294967295 }
        ensures { result ≡ record { tokens = tokens text.now; size = length text.now; place = 0; refused = None } }
    {
        StepText {
            tokens: TokensAhead::new(text),
            size: text.len(),
            place: 0,
            refused: None,
            grammar: PhantomData,
        }
    }
}

impl<'a, G: StepGrammar> StepSource for StepText<'a, G> {
    type Step = G::Step;

    ghost use Rattle.std.specs.Prelude.{refl, ◌≡◌, Some, false, ⊤, []};
    ghost use Rattle.std.proofs.Common.{◌∙◌};
    ghost use Rattle.step_text.specs.Left.{text_is_left};
    ghost use Rattle.step_text.specs.Texts.{Leaves, is_spent_by, stuck_by};

    ghost may_read = { λ _ _. ⊤ };

    ghost leaves = { λ t _. Leaves G.steps t };

    ghost passes_limit = { λ _ _. Some false };

    ghost is_spent = { λ t. is_spent_by t.refused };

    ghost stuck = { λ t. stuck_by t.refused };

    ghost faults = { λ _. 0 };

    ghost place_of = { λ t. t.place };

    ghost farthest = { λ _. 4294967295 };

    ghost keeps = { λ a b. b.size ≡ a.size };

    fn next_step(&mut self, spare: &mut SpareLists) -> Result<Option<G::Step>, TextRefusal> {
        if let Some(refusal) = self.refused {
            return Err(refusal);
        }
        if self.tokens.is_empty() {
            return Ok(None);
        }
        match G::read_step(spare, &mut self.tokens, self.size) {
            Ok(step) => {
                self.place = self.tokens.place(self.size);
                Ok(Some(step))
            }
            Err(refusal) => {
                self.refused = Some(refusal);
                Err(refusal)
            }
        }
    }

    fn place(&self) -> u64 {
        self.place as u64
    }

    ghost has_text = { λ _. ([], tt) };

    ghost leaves_some = { λ t _ _. text_is_left G.steps G.forms t };

    ghost keeps_itself = { λ a. refl };

    ghost keeps_on = { λ a b c p q. q ∙ p };
}

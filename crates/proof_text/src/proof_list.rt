//! The steps of a kept proof, given one after another.
ghost use Rattle.std.specs.Prelude.{◌≡◌, ◌<◌, ◌^◌, length};
ghost use Rattle.step_text.specs.Lists.{StepsLeft};

use cx_base::ProofStep;
use std::marker::Model;
use std::vec::IntoIter;
use step_text::{SpareLists, StepSource, TextRefusal};

/// The steps of a list, by moves, in order. It has no limit and never refuses.
///
/// Its place is the number of steps that it gave.
#[derive(Drop)]
pub struct ProofList {
    steps: IntoIter<ProofStep>,
    given: u64,
}

impl Model for ProofList {
    ghost use Rattle.std.specs.Prelude.{◌≡◌, ◌+◌, ◌^◌, ◌<◌, length};
    ghost use Rattle.std.specs.Vec.Iter.{into_iter_items, into_iter_len};
    ghost use Rattle.cx_base.specs.declared.steps.ProofStep.{ProofStep};
    ghost use Rattle.step_text.specs.Lists.{StepsLeft};

    ghost Value = { StepsLeft ProofStep };

    ghost view = { λ l. record { steps = into_iter_items l.steps; given = l.given } };

    ghost invariant = { λ l. (into_iter_len l.steps ≡ length (into_iter_items l.steps)) × (l.given + length (into_iter_items l.steps) < 2 ^ 62) };
}

impl ProofList {
    /// The steps of a list of fewer than 2^62.
    pub fn of(steps: Vec<ProofStep>) -> ProofList
        requires { length steps.items < 2 ^ 62 }
        ensures { result ≡ record { steps = steps.items; given = 0 } }
    {
        ProofList {
            steps: steps.into_iter(),
            given: 0,
        }
    }
}

impl StepSource for ProofList {
    type Step = ProofStep;

    ghost use Rattle.std.specs.Prelude.{None, Some, false, refl, ⊤, []};
    ghost use Rattle.cx_base.specs.Endings.{finished};
    ghost use Rattle.step_text.specs.Lists.{LeavesList, last_place, GaveFront};
    ghost use Rattle.step_text.specs.ListLaws.{gave_nothing, gave_on};

    ghost may_read = { λ _ _. ⊤ };

    ghost leaves = { λ l _. LeavesList l };

    ghost passes_limit = { λ _ _. Some false };

    ghost is_spent = { λ _. false };

    ghost stuck = { λ _. None };

    ghost faults = { λ _. 0 };

    ghost place_of = { λ l. l.given };

    ghost farthest = { last_place };

    ghost keeps = { GaveFront };

    fn next_step(&mut self, _spare: &mut SpareLists) -> Result<Option<ProofStep>, TextRefusal> {
        match self.steps.next() {
            Some(step) => {
                self.given += 1;
                Ok(Some(step))
            }
            None => Ok(None),
        }
    }

    fn place(&self) -> u64 {
        self.given
    }

    ghost has_text = { λ _. ([], tt) };

    ghost leaves_some = { λ l _ _. (l.steps, finished, (refl, refl)) };

    ghost keeps_itself = { gave_nothing };

    ghost keeps_on = { gave_on };
}

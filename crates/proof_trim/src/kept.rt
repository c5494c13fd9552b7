//! The steps that stay of a proof.
ghost use Rattle.std.specs.Prelude.{◌≡◌, ◌<◌, ◌∷◌, [], true, false, List, length, drop, get_or};
ghost use Rattle.std.specs.List.{AllByRecursion};
ghost use Rattle.cx_base.specs.declared.steps.ProofStep.{ProofStep};
ghost use Rattle.proof_text.specs.Borrowed.{step_of};
ghost use Rattle.proof_trim.specs.Kept.{chosen};
ghost use Rattle.proof_trim.specs.Stored.{FitsIn};

use crate::opened::OpenedStep;
use crate::store::StepStore;
use proof_text::StepRef;
use std::marker::Model;

/// The steps that stay of a proof, taken one after another.
#[derive(Drop)]
pub struct KeptSteps {
    steps: StepStore,
    /// Whether each step stays.
    stays: Vec<bool>,
    /// The place from which the next one is sought.
    place: usize,
    /// The step that was taken last.
    here: OpenedStep,
}

impl Model for KeptSteps {
    ghost use Rattle.std.specs.Prelude.{◌≡◌, length, drop};
    ghost use Rattle.std.specs.List.{AllByRecursion};
    ghost use Rattle.proof_trim.specs.Kept.{Kept, chosen};
    ghost use Rattle.proof_trim.specs.Stored.{FitsIn};

    ghost Value = { Kept };

    ghost view = { λ a. record { steps = chosen (drop a.place a.stays.items) (drop a.place a.steps); here = a.here.step } };

    ghost invariant = { λ a. (length a.stays.items ≡ length a.steps) × AllByRecursion (FitsIn a.here.room) a.steps };
}

/// The first place from this one on whose step stays, or where the steps end.
fn next_place(stays: &[bool], from: usize) -> usize
    ensures skips { (steps : List ProofStep) → length steps ≡ length stays.now → chosen (drop from stays.now) (drop from steps) ≡ chosen (drop result stays.now) (drop result steps) }
    ensures stays { result < length stays.now → get_or stays.now result false ≡ true }
{
    for place in from..stays.len() {
        if stays[place] {
            return place;
        }
    }
    stays.len()
}

impl KeptSteps {
    /// Of these steps those that stay.
    pub(crate) fn of(steps: StepStore, stays: Vec<bool>, here: OpenedStep) -> KeptSteps
        requires long { length stays.items ≡ length steps }
        requires room { AllByRecursion (FitsIn here.room) steps }
        ensures { result.steps ≡ chosen stays.items steps }
    {
        KeptSteps {
            steps,
            stays,
            place: 0,
            here,
        }
    }

    /// Takes the next step, if there is one.
    pub fn advance(&mut self) -> bool
        ensures taken { result ≡ true → self.old.steps ≡ self.new.here ∷ self.new.steps }
        ensures end { result ≡ false → self.old.steps ≡ [] }
    {
        let place = next_place(&self.stays, self.place);
        if place < self.stays.len() {
            self.steps.open_at(place, &mut self.here);
            self.place = place + 1;
            true
        } else {
            false
        }
    }

    /// The step that was taken last.
    pub fn step(&self) -> StepRef<'_>
        ensures { step_of result ≡ self.now.here }
    {
        self.here.step()
    }
}

//! A proof that is kept as a list.
ghost use Rattle.std.specs.Prelude.{◌≡◌, [], ◌∷◌, ◌++◌, IsOk, OnOk, OnErr, IfErr};
ghost use Rattle.std.specs.List.{AllByRecursion};
ghost use Rattle.cx_base.specs.Endings.{finished};
ghost use Rattle.cx_texts.specs.ProofText.{ProofReads};
ghost use Rattle.cx_texts.specs.Printed.{HasProofText, printed_proof};
ghost use Rattle.step_text.specs.declared.sink.SinkFault.TheVariants.{Memory};

use crate::proof_list::ProofList;
use cx_base::ProofStep;
use std::alloc::Global;
use std::marker::Model;
use step_text::{Sink, SinkFault};

/// A sink that keeps the list of its steps. It fails only where memory runs out.
#[derive(Drop)]
pub struct ListProof {
    steps: Vec<ProofStep>,
}

impl Model for ListProof {
    ghost use Rattle.std.specs.Prelude.{List};
    ghost use Rattle.std.specs.List.{AllByRecursion};
    ghost use Rattle.cx_base.specs.declared.steps.ProofStep.{ProofStep};
    ghost use Rattle.cx_texts.specs.Printed.{HasProofText};

    ghost Value = { List ProofStep };

    ghost view = { λ a. a.steps.items };

    ghost invariant = { λ a. AllByRecursion HasProofText a.steps.items };
}

impl ListProof {
    /// A proof with no step, which takes no memory yet.
    pub fn make(alloc: Global) -> ListProof
        ensures { result ≡ [] }
    {
        ListProof {
            steps: Vec::new(alloc),
        }
    }

    /// The steps in order. A text can have each of them.
    pub fn steps(&self) -> &[ProofStep]
        ensures steps { result.now ≡ self.now }
        ensures texts { AllByRecursion HasProofText self.now }
    {
        &self.steps
    }

    /// The steps in order, by moves, as a source.
    ///
    /// It gives them as their printed text would.
    pub fn into_steps(self) -> ProofList
        ensures steps { result ≡ record { steps = self; given = 0 } }
        ensures texts { AllByRecursion HasProofText self }
        ensures printed { ProofReads (printed_proof self) self finished }
    {
        ProofList::of(self.steps)
    }

    /// Adds a step.
    fn push(&mut self, step: ProofStep) -> Result<(), SinkFault>
        requires { HasProofText step }
        ensures told { OnOk result (self.new ≡ self.old ++ step ∷ []) }
        ensures same { OnErr result (self.new ≡ self.old) }
        ensures memory { IfErr result (λ e. e ≡ Memory) }
    {
        match self.steps.push(step) {
            Ok(()) => Ok(()),
            Err(_) => Err(SinkFault::Memory),
        }
    }
}

impl Sink for ListProof {
    type Item = ProofStep;

    ghost use Rattle.std.specs.Prelude.{refl, Some, None, false};

    ghost items = { λ a. Some a };

    ghost faults = { λ _. 0 };

    ghost has_failed = { λ _. false };

    ghost torn = { λ _ _. ⊥ };

    ghost lines = { λ _. None };

    ghost torn_tidy = { λ _ _. ⊥ };

    ghost keeps = { λ _ _. Unit {0} };

    ghost keeps_else = { λ _ _. Unit {0} };

    /// Keeps a copy of the step.
    fn put(&mut self, step: &ProofStep) -> Result<(), SinkFault>
        requires text { HasProofText step.now }
        ensures kept { OnOk result (self.new ≡ self.old ++ step.now ∷ []) }
        ensures unchanged { OnErr result (self.new ≡ self.old) }
        ensures memory { IfErr result (λ e. e ≡ Memory) }
    {
        match step.clone() {
            Ok(copy) => self.push(copy),
            Err(_) => Err(SinkFault::Memory),
        }
    }

    /// A proof has no tidy line: nothing is kept of it.
    fn tidied(&mut self, _restart: u64) -> Result<(), SinkFault>
        ensures never_fails { IsOk result }
        ensures unchanged { self.new ≡ self.old }
    {
        Ok(())
    }

    ghost are_items = { λ _. tt };

    ghost gains_items = { λ _ _ _. refl };

    ghost keeps_itself = { λ _. tt };

    ghost keeps_on = { λ _ _ _ _ _. tt };

    ghost items_keep_else = { λ _ _ _. tt };

    ghost keeps_else_on = { λ _ _ _ _ _. tt };
}

//! A proof that is printed step by step on a desk's proof port.
ghost use Rattle.std.specs.Prelude.{◌≡◌, true, false, List, Option, None, IsOk, OnOk, OnErr};
ghost use Rattle.cx_base.specs.Lines.{Line};
ghost use Rattle.cx_base.specs.declared.steps.ProofStep.{ProofStep};
ghost use Rattle.cx_texts.specs.Printed.{HasProofText};
ghost use Rattle.step_text.specs.Sinks.{with_next, with_tidy, OnFailed};
ghost use Rattle.proof_text.specs.Told.{steps_told, is_whole, TornOn, Goes, PrintsAs, LeavesPort};

use crate::print::put_proof_step;
use cx_base::ProofStep;
use cx_desk::{Desk, Failed, Port};
use step_text::pieces::LineSheet;
use step_text::{Sink, SinkFault};

/// Prints a step on the Proof port of a desk where none failed before, and notes whether this one did. The sheet is for its memory
/// alone.
#[inline(always)]
pub fn put_step<D: Desk>(
    sheet: &mut LineSheet,
    desk: &mut D,
    failed: &mut bool,
    step: &ProofStep,
) -> Result<(), SinkFault>
    requires text { HasProofText step.now }
    requires going { failed.old ≡ false }
    requires whole { is_whole (D.outside desk.old) ≡ true }
    ensures told { OnOk result (steps_told (D.outside desk.new) ≡ with_next step.now (steps_told (D.outside desk.old))) }
    ensures same { OnErr result (steps_told (D.outside desk.new) ≡ steps_told (D.outside desk.old)) }
    ensures torn { OnFailed result (TornOn step.now (D.outside desk.new)) }
    ensures answers { PrintsAs result failed.old failed.new }
    ensures port { LeavesPort failed.old (D.outside desk.old) failed.new (D.outside desk.new) }
{
    match put_proof_step(sheet, desk, Port::Proof, step) {
        Ok(()) => Ok(()),
        Err(Failed) => {
            *failed = true;
            Err(SinkFault::Failed)
        }
    }
}

/// A sink that prints each step on the proof port of a lent desk at once. It takes no memory.
///
/// It tells the steps of the port's whole lines. It counts one fault at most: it is not asked again after that.
#[derive(Drop)]
pub struct DeskProof<'a, D: Desk> {
    desk: &'a mut D,
    /// For its memory alone.
    sheet: LineSheet,
    failed: bool,
    // between two steps no line is begun
    ghost whole: { failed ≡ false → is_whole (D.outside desk.now) ≡ true },
}

impl<'a, D: Desk> DeskProof<'a, D> {
    /// A sink over a desk on whose proof port no line is begun.
    pub fn new(desk: &'a mut D) -> DeskProof<'a, D>
        requires { is_whole (D.outside desk.old) ≡ true }
        ensures same_desk { result.desk.ghost_name ≡ desk.entry.ghost_name }
        ensures outside { D.outside result.desk.now ≡ D.outside desk.entry.now }
        ensures whole { result.failed ≡ false }
    {
        DeskProof {
            desk,
            sheet: LineSheet::new(),
            failed: false,
        }
    }
}

impl<D: Desk> Sink for DeskProof<'_, D> {
    type Item = ProofStep;

    ghost use Rattle.std.specs.Prelude.{◌≡◌, refl, None};
    ghost use Rattle.std.proofs.Common.{◌∙◌};
    ghost use Rattle.proof_text.specs.Told.{steps_told, fault_of, TornOn, Goes};
    ghost use Rattle.proof_text.specs.ToldSteps.{goes_itself, goes_on};

    ghost items = { λ s. steps_told (D.outside s.desk.now) };

    ghost faults = { λ s. fault_of s.failed };

    ghost has_failed = { λ s. s.failed };

    ghost torn = { λ s step. TornOn step (D.outside s.desk.now) };

    ghost lines = { λ _. None };

    ghost torn_tidy = { λ _ _. ⊥ };

    ghost keeps = { λ a b. (b.desk.ghost_name ≡ a.desk.ghost_name) × Goes a.failed (D.outside a.desk.now) b.failed (D.outside b.desk.now) };

    ghost keeps_else = { λ a b. (b.desk.ghost_name ≡ a.desk.ghost_name) × Goes a.failed (D.outside a.desk.now) b.failed (D.outside b.desk.now) };

    /// Prints the step. `Memory` is never answered.
    fn put(&mut self, step: &ProofStep) -> Result<(), SinkFault>
        requires text { HasProofText step.now }
        requires going { self.old.failed ≡ false }
        ensures told { OnOk result (steps_told (D.outside self.new.desk.now) ≡ with_next step.now (steps_told (D.outside self.old.desk.now))) }
        ensures same { OnErr result (steps_told (D.outside self.new.desk.now) ≡ steps_told (D.outside self.old.desk.now)) }
        ensures torn { OnFailed result (TornOn step.now (D.outside self.new.desk.now)) }
        ensures answers { PrintsAs result self.old.failed self.new.failed }
        ensures frame { (self.new.desk.ghost_name ≡ self.old.desk.ghost_name) × Goes self.old.failed (D.outside self.old.desk.now) self.new.failed (D.outside self.new.desk.now) }
    {
        put_step(&mut self.sheet, self.desk, &mut self.failed, step)
    }

    /// A proof has no tidy line: nothing is printed of it.
    fn tidied(&mut self, _restart: u64) -> Result<(), SinkFault>
        requires going { self.old.failed ≡ false }
        ensures never_fails { IsOk result }
        ensures same { steps_told (D.outside self.new.desk.now) ≡ steps_told (D.outside self.old.desk.now) }
        ensures told { OnOk result (None ≡ with_tidy {I = ProofStep} _restart None) }
        ensures untold { OnErr result (◌≡◌ {A = Option (List (Line ProofStep))} None None) }
        ensures torn { OnFailed result ⊥ }
        ensures answers { PrintsAs result self.old.failed self.new.failed }
        ensures frame { (self.new.desk.ghost_name ≡ self.old.desk.ghost_name) × Goes self.old.failed (D.outside self.old.desk.now) self.new.failed (D.outside self.new.desk.now) }
    {
        Ok(())
    }

    ghost are_items = { λ _. tt };

    ghost gains_items = { λ _ _ _. refl };

    ghost keeps_itself = { λ a. (refl, goes_itself a.failed (D.outside a.desk.now)) };

    ghost keeps_on = { λ a b c h k. (k.0 ∙ h.0, goes_on a.failed (D.outside a.desk.now) b.failed (D.outside b.desk.now) c.failed (D.outside c.desk.now) h.1 k.1) };

    ghost items_keep_else = { λ _ _ h. h };

    ghost keeps_else_on = { λ a b c h k. (k.0 ∙ h.0, goes_on a.failed (D.outside a.desk.now) b.failed (D.outside b.desk.now) c.failed (D.outside c.desk.now) h.1 k.1) };
}

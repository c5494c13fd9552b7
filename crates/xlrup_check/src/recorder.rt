//! Who is told of the steps of a proof that is judged.
ghost use Rattle.std.specs.Prelude.{List, OnOk};
ghost use Rattle.cx_base.specs.declared.steps.ProofStep.{ProofStep};
ghost use Rattle.xlrup_check.specs.Verdicts.{Tells};

use cx_base::ProofStep;
use std::alloc::AllocError;

/// Is told each right step of a proof, in order.
pub trait Recorder {
    // it was told these steps, in order; one that keeps nothing tells nothing by it
    ghost told: { Self → List ProofStep → Type 0 };

    /// Takes a step after those before.
    fn tell(&mut self, step: &ProofStep) -> Result<(), AllocError>
        ensures { OnOk result (Tells told step.now self.old self.new) };
}

/// A recorder that keeps nothing.
#[derive(Drop)]
pub(crate) struct Unrecorded;

impl Recorder for Unrecorded {
    ghost told = { λ _ _. Unit {0} };

    #[inline(always)]
    fn tell(&mut self, _step: &ProofStep) -> Result<(), AllocError> {
        Ok(())
    }
}

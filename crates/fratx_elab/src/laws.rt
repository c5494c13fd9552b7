//! Laws of the proof that a log gives.
ghost use Rattle.std.specs.Prelude.{List};
ghost use Rattle.cx_base.specs.Problem.{Problem};
ghost use Rattle.cx_base.specs.declared.steps.LogStep.{LogStep};
ghost use Rattle.cx_base.specs.declared.steps.ProofStep.{ProofStep};
ghost use Rattle.fratx_elab.specs.Elaborates.{IsProofOf, HasOwnHints};

/// Hints that are right in the log are those of the proof, up to the end of their chain, and no chain is searched for in their place.
pub fn right_hints_are_kept()
    ensures { (formula : Problem) (steps : List LogStep) (written : List ProofStep) → IsProofOf formula steps written → HasOwnHints formula steps written }
{}

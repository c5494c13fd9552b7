//! Steps whose lists are borrowed.
ghost use Rattle.std.specs.Prelude.{◌≡◌};
ghost use Rattle.proof_text.specs.Borrowed.{step_of};

use cx_base::ProofStep;

/// A step of a proof, whose lists are borrowed.
#[derive(Clone, Copy, Debug, Drop)]
pub enum StepRef<'s> {
    /// A clause with its id, and the hints of its chain.
    Clause(u64, &'s [i64], &'s [i64]),
    /// The id in front has no meaning.
    DeleteClauses(u64, &'s [u64]),
    /// A parity with its id, and the parities whose sum it is.
    Parity(u64, &'s [i64], &'s [i64]),
    DeleteParities(&'s [u64]),
    /// A clause with its id, and the parity that implies it.
    ClauseOfParity(u64, &'s [i64], i64),
    /// A parity with its id, and the clauses that imply it.
    ParityOfClauses(u64, &'s [i64], &'s [i64]),
}

impl<'s> StepRef<'s> {
    /// A step, borrowed.
    #[inline(always)]
    pub fn of(step: &'s ProofStep) -> StepRef<'s>
        ensures { step_of result ≡ step.now }
    {
        match step {
            ProofStep::Clause(id, literals, hints) => {
                StepRef::Clause(*id, literals.as_slice(), hints.as_slice())
            }
            ProofStep::DeleteClauses(id, names) => StepRef::DeleteClauses(*id, names.as_slice()),
            ProofStep::Parity(id, literals, hints) => {
                StepRef::Parity(*id, literals.as_slice(), hints.as_slice())
            }
            ProofStep::DeleteParities(names) => StepRef::DeleteParities(names.as_slice()),
            ProofStep::ClauseOfParity(id, literals, hint) => {
                StepRef::ClauseOfParity(*id, literals.as_slice(), *hint)
            }
            ProofStep::ParityOfClauses(id, literals, hints) => {
                StepRef::ParityOfClauses(*id, literals.as_slice(), hints.as_slice())
            }
        }
    }
}

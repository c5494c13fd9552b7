//! The steps of the proof that is written.
ghost use Rattle.std.specs.Prelude.{◌≡◌, ◌≤◌, pos, [], ◌∷◌, IfOk};
ghost use Rattle.cx_texts.specs.Printed.{HasProofText};
ghost use Rattle.cx_base.specs.declared.steps.ProofStep.TheVariants as step;

use crate::naming::ProofId;
use cx_base::{IdList, IntList, ProofStep};
use std::alloc::AllocError;

/// A clause by a chain.
pub fn clause_step(id: ProofId, lits: IntList, hints: IntList) -> ProofStep
    ensures step { result ≡ step.Clause id lits hints }
    ensures text { HasProofText result }
{
    let _lits = lits.as_slice();
    let _hints = hints.as_slice();
    ProofStep::Clause(id.number(), lits, hints)
}

/// A parity by a sum.
pub fn parity_step(id: ProofId, lits: IntList, hints: IntList) -> ProofStep
    ensures step { result ≡ step.Parity id lits hints }
    ensures text { HasProofText result }
{
    let _lits = lits.as_slice();
    let _hints = hints.as_slice();
    ProofStep::Parity(id.number(), lits, hints)
}

/// A parity that clauses imply.
pub fn parity_of_clauses_step(id: ProofId, lits: IntList, hints: IntList) -> ProofStep
    ensures step { result ≡ step.ParityOfClauses id lits hints }
    ensures text { HasProofText result }
{
    let _lits = lits.as_slice();
    let _hints = hints.as_slice();
    ProofStep::ParityOfClauses(id.number(), lits, hints)
}

/// A clause that a parity implies.
pub fn clause_of_parity_step(id: ProofId, lits: IntList, source: ProofId) -> ProofStep
    ensures step { result ≡ step.ClauseOfParity id lits (pos source) }
    ensures text { HasProofText result }
{
    let _lits = lits.as_slice();
    ProofStep::ClauseOfParity(id.number(), lits, source.hint())
}

/// The list of this id alone, in the memory of `room`.
fn only(room: Vec<u64>, id: ProofId) -> Result<IdList, AllocError>
    ensures { IfOk result (λ ids. ids ≡ id ∷ []) }
{
    let mut ids = room;
    ids.clear();
    ids.push(id.number())?;
    Ok(IdList::from_vec(ids))
}

/// The deletion of one clause, after the id `front`, in the memory of `room`.
pub fn clause_deletion(room: Vec<u64>, front: ProofId, id: ProofId) -> Result<ProofStep, AllocError>
    ensures step { IfOk result (λ made. made ≡ step.DeleteClauses front (id ∷ [])) }
    ensures text { IfOk result HasProofText }
{
    Ok(ProofStep::DeleteClauses(front.number(), only(room, id)?))
}

/// The deletion of one parity, in the memory of `room`.
pub fn parity_deletion(room: Vec<u64>, id: ProofId) -> Result<ProofStep, AllocError>
    ensures step { IfOk result (λ made. made ≡ step.DeleteParities (id ∷ [])) }
    ensures text { IfOk result HasProofText }
{
    Ok(ProofStep::DeleteParities(only(room, id)?))
}

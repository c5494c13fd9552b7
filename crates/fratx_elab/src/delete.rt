//! Deletions: what was added is deleted in the proof too.
ghost use Rattle.std.specs.Prelude.{◌≡◌, ◌≤◌, ◌<◌, IfOk, OnOk, max};
ghost use Rattle.cx_base.specs.declared.steps.LogStep.TheVariants as step;
ghost use Rattle.cx_base.specs.Problem.{Problem};
ghost use Rattle.cx_base.specs.Numbers.{AreStepIntegers};
ghost use Rattle.fratx_elab.specs.Elaborates.{deleted_id, number_of_clauses, number_of_parities};
ghost use Rattle.fratx_elab.specs.Names.{stands_for, drop_name};
ghost use Rattle.fratx_elab.specs.Takes.{TakesLogStep, CanBePrinted, CountsOneMore};
ghost use Rattle.fratx_elab.specs.declared.naming.TheConstants.{MAX_ID};

use crate::naming::{Names, ProofId};
use crate::state::State;
use crate::steps::{clause_deletion, parity_deletion};
use cx_base::{IntList, ProofStep};
use proof_rules::{JudgeRefusal, Kind};

/// The proof id to delete where the log deletes an id: none for one of the formula's `count` constraints. Nothing stands
/// for the id any more.
fn deleted(names: &mut Names, count: u64, id: u64) -> Option<ProofId>
    ensures found { result ≡ deleted_id count (stands_for names.old id) }
    ensures gone { names.new ≡ drop_name names.old id }
{
    match names.take(id) {
        Some(found) => {
            if count < found.number() {
                Some(found)
            } else {
                None
            }
        }
        None => None,
    }
}

/// The greater of an id and the last one that was given.
fn front_of(last: u64, id: ProofId) -> ProofId
    requires { last < MAX_ID }
    ensures { result ≡ max last id }
{
    if last < id.number() {
        id
    } else {
        ProofId::new(last)
    }
}

/// Takes a clause out of the log, and out of the proof where it was added there.
#[inline(always)]
pub fn delete_clause(
    count: u64,
    state: &mut State,
    id: u64,
    lits: IntList,
) -> Result<Option<ProofStep>, JudgeRefusal>
    requires room { state.old.clauses.last < MAX_ID }
    ensures taken { (formula : Problem) → count ≡ number_of_clauses formula → TakesLogStep formula state.old (step.Delete id lits) result state.new }
    ensures text { IfOk result CanBePrinted }
    ensures counts { OnOk result (CountsOneMore state.old state.new) }
{
    let gone = deleted(&mut state.clauses, count, id);
    let last = state.clauses.last();
    state.live.remove(Kind::Clauses, id);
    state.spare.keep_literals(lits);
    match gone {
        Some(gone) => {
            let room = state.spare.ids();
            Ok(Some(clause_deletion(room, front_of(last, gone), gone)?))
        }
        None => Ok(None),
    }
}

/// Takes a parity out of the log, and out of the proof where it was added there.
#[inline(never)]
pub fn delete_parity(
    count: u64,
    state: &mut State,
    id: u64,
    lits: IntList,
) -> Result<Option<ProofStep>, JudgeRefusal>
    ensures taken { (formula : Problem) → count ≡ number_of_parities formula → TakesLogStep formula state.old (step.DeleteParity id lits) result state.new }
    ensures text { IfOk result CanBePrinted }
    ensures counts { OnOk result (CountsOneMore state.old state.new) }
{
    let gone = deleted(&mut state.parities, count, id);
    state.live.remove(Kind::Parities, id);
    state.spare.keep_literals(lits);
    match gone {
        Some(gone) => {
            let room = state.spare.ids();
            Ok(Some(parity_deletion(room, gone)?))
        }
        None => Ok(None),
    }
}

//! Forward through a proof: the steps that stay.
ghost use Rattle.std.specs.Prelude.{◌≡◌, ◌<◌, not, ◌&&◌, ◌||◌, IfOk, OnOk, length};
ghost use Rattle.std.specs.List.{AllByRecursion, list_any};
ghost use Rattle.cx_semantics.specs.Tables.{first_tables};
ghost use Rattle.proof_text.specs.Borrowed.{step_of};
ghost use Rattle.proof_trim.specs.Kept.{chosen};
ghost use Rattle.proof_trim.specs.Marking.{marked};
ghost use Rattle.proof_trim.specs.Names.{same_name};
ghost use Rattle.proof_trim.specs.NameSets.{Has, KeepsOne, has_name, is_number, live_after, live_in, name_of, named_as, stays_with};
ghost use Rattle.proof_trim.specs.Puts.{step_at};
ghost use Rattle.proof_trim.specs.Stored.{FitsIn};
ghost use Rattle.proof_trim.specs.Trimmed.{trimmed};

use crate::names::NameSet;
use crate::opened::OpenedStep;
use crate::put::Put;
use crate::store::StepStore;
use cx_base::Formula;
use proof_rules::Kind;
use proof_text::StepRef;
use std::alloc::{AllocError, Global};

/// Puts the numbers up to this count in, from 1.
fn insert_numbers(names: &mut NameSet, kind: Kind, count: usize) -> Result<(), AllocError>
    ensures { OnOk result (Has names.new (λ name. is_number kind count name || has_name names.old name)) }
{
    for place in 0..count {
        names.insert(kind, place as u64 + 1)?;
    }
    Ok(())
}

/// The names of the formula's constraints, with room for those of this many steps.
fn names_of(alloc: Global, formula: &Formula, steps: usize) -> Result<NameSet, AllocError>
    ensures { IfOk result (λ names. Has names (live_in (first_tables formula.now))) }
{
    let mut names = NameSet::beside(alloc, formula, steps)?;
    insert_numbers(&mut names, Kind::Clauses, formula.clause_count())?;
    insert_numbers(&mut names, Kind::Parities, formula.parity_count())?;
    Ok(names)
}

/// Whether some id of this kind is in the set.
fn has_some(names: &NameSet, kind: Kind, ids: &[u64]) -> bool
    ensures { result ≡ list_any (λ n. has_name names.now (name_of kind n)) ids.now }
{
    ids.iter().any(|id| names.has(kind, *id))
}

/// Whether a step stays.
fn stays(live: &NameSet, step: StepRef<'_>, is_needed: bool) -> bool
    ensures { result ≡ stays_with is_needed (has_name live.now) (step_of step.entry) }
{
    match step {
        StepRef::DeleteClauses(_, ids) => has_some(live, Kind::Clauses, ids),
        StepRef::DeleteParities(ids) => has_some(live, Kind::Parities, ids),
        StepRef::Clause(_, _, _)
        | StepRef::Parity(_, _, _)
        | StepRef::ClauseOfParity(_, _, _)
        | StepRef::ParityOfClauses(_, _, _) => is_needed,
    }
}

/// Takes ids of this kind out.
fn remove_all(live: &mut NameSet, kind: Kind, ids: &[u64])
    ensures { Has live.new (λ name. not (named_as kind ids.now name) && has_name live.old name) }
{
    for id in ids {
        live.remove(kind, *id);
    }
}

/// What a step puts is live after it, and what it takes out is not.
fn take(live: &mut NameSet, step: StepRef<'_>) -> Result<(), AllocError>
    ensures { OnOk result (Has live.new (live_after (step_of step.entry) (has_name live.old))) }
{
    match step {
        StepRef::Clause(id, _, _) | StepRef::ClauseOfParity(id, _, _) => {
            live.insert(Kind::Clauses, id)
        }
        StepRef::Parity(id, _, _) | StepRef::ParityOfClauses(id, _, _) => {
            live.insert(Kind::Parities, id)
        }
        StepRef::DeleteClauses(_, ids) => {
            remove_all(live, Kind::Clauses, ids);
            Ok(())
        }
        StepRef::DeleteParities(ids) => {
            remove_all(live, Kind::Parities, ids);
            Ok(())
        }
    }
}

/// Whether a step stays. Where it does, it is done to the set of what is live.
fn keep_one(live: &mut NameSet, step: StepRef<'_>, is_needed: bool) -> Result<bool, AllocError>
    ensures { IfOk result (KeepsOne is_needed (step_of step.entry) live.old live.new) }
{
    if stays(live, step, is_needed) {
        take(live, step)?;
        return Ok(true);
    }
    Ok(false)
}

/// Whether a step that puts this stays: where it is needed. Then that is live.
fn keep_put(live: &mut NameSet, put: Put, is_needed: bool) -> Result<bool, AllocError>
    ensures stays { IfOk result (λ stays. stays ≡ is_needed) }
    ensures live { OnOk result (Has live.new (λ name. (is_needed && same_name name (name_of put.kind put.id)) || has_name live.old name)) }
{
    if is_needed {
        live.insert(put.kind, put.id)?;
    }
    Ok(is_needed)
}

/// Whether the step at a place stays. Where it does, it is done to the set of what is live. Only a deletion is opened.
fn keep_at(
    live: &mut NameSet,
    proof: &StepStore,
    place: usize,
    is_needed: bool,
    here: &mut OpenedStep,
) -> Result<bool, AllocError>
    requires place { place < length proof.now }
    requires room { AllByRecursion (FitsIn here.old.room) proof.now }
    ensures kept { IfOk result (KeepsOne is_needed (step_at proof.now place) live.old live.new) }
    ensures room { OnOk result (here.new.room ≡ here.old.room) }
{
    match proof.put_at(place) {
        Some(put) => keep_put(live, put, is_needed),
        None => {
            proof.open_at(place, here);
            keep_one(live, here.step(), is_needed)
        }
    }
}

/// Which steps stay: the needed ones, and the deletions of what is live among those that stayed. Each step is opened in
/// the same place.
fn keep_live(
    alloc: Global,
    formula: &Formula,
    proof: &StepStore,
    marks: &[bool],
    here: &mut OpenedStep,
) -> Result<Vec<bool>, AllocError>
    requires long { length marks.now ≡ length proof.now }
    requires room { AllByRecursion (FitsIn here.old.room) proof.now }
    ensures long { IfOk result (λ kept. length kept.items ≡ length proof.now) }
    ensures kept { IfOk result (λ kept. chosen kept.items proof.now ≡ trimmed formula.now (marked marks.now) proof.now) }
    ensures room { OnOk result (here.new.room ≡ here.old.room) }
{
    let mut live = names_of(alloc, formula, proof.len())?;
    let mut kept = Vec::new(alloc);
    for place in 0..proof.len() {
        let stays = keep_at(&mut live, proof, place, marks[place], here)?;
        kept.push(stays)?;
    }
    Ok(kept)
}

/// Which steps stay: the needed ones, and the deletions of what is live among those that stayed. What is live is followed only
/// where some step deletes.
pub(crate) fn keep(
    alloc: Global,
    formula: &Formula,
    proof: &StepStore,
    marks: Vec<bool>,
    here: &mut OpenedStep,
) -> Result<Vec<bool>, AllocError>
    requires long { length marks.items ≡ length proof.now }
    requires room { AllByRecursion (FitsIn here.old.room) proof.now }
    ensures long { IfOk result (λ kept. length kept.items ≡ length proof.now) }
    ensures kept { IfOk result (λ kept. chosen kept.items proof.now ≡ trimmed formula.now (marked marks.items) proof.now) }
    ensures room { OnOk result (here.new.room ≡ here.old.room) }
{
    if proof.deletes() {
        keep_live(alloc, formula, proof, &marks, here)
    } else {
        Ok(marks)
    }
}

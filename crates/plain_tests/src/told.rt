//! What a log told up to some event, and what each event changes of it.
ghost use Rattle.std.specs.Prelude.{◌≡◌, ◌≤◌, ◌<◌, ◌+◌, ◌^◌, ◌++◌, ◌∷◌, ℕ, true, IfOk, OnOk, map};
ghost use Rattle.cx_base.specs.declared.steps.LogEvent.TheVariants.{Conflict};
ghost use Rattle.cx_semantics.specs.Marked.{first_moment, after_event, after_clause, after_delete, note_step, without};
ghost use Rattle.cx_semantics.specs.Moves.{moved_id};
ghost use Rattle.plain_tests.specs.Marking.{moment_of, has_literals};

use crate::covering::is_reduction;
use crate::tables::put_step;
use cx_base::{Formula, IdMove, LogEvent, LogStep};
use proof_rules::Live;
use std::alloc::{AllocError, Global};

/// What a log told up to some event.
#[derive(Drop)]
pub(crate) struct Told<'f> {
    pub(crate) live: Live<'f>,
    /// Whether the clause that the last conflict taught is still to come.
    pub(crate) awaits: bool,
    /// The ids of learned clauses.
    pub(crate) learned: Vec<u64>,
    /// The ids of clauses of parities, put before the last mark and since.
    pub(crate) old_clauses: Vec<u64>,
    pub(crate) new_clauses: Vec<u64>,
    /// The ids of sums, put before the last mark and since.
    pub(crate) old_sums: Vec<u64>,
    pub(crate) new_sums: Vec<u64>,
    /// How many earlier stretches between marks hold a reduction, and whether this one does.
    pub(crate) reductions: u64,
    pub(crate) reduces: bool,
}

/// Nothing is told.
pub(crate) fn nothing_told(alloc: Global, formula: &Formula) -> Told<'_>
    ensures { moment_of result ≡ first_moment }
{
    Told {
        live: Live::beside(alloc, formula),
        awaits: false,
        learned: Vec::new(alloc),
        old_clauses: Vec::new(alloc),
        new_clauses: Vec::new(alloc),
        old_sums: Vec::new(alloc),
        new_sums: Vec::new(alloc),
        reductions: 0,
        reduces: false,
    }
}

/// The ids but one.
pub(crate) fn without(alloc: Global, ids: &[u64], id: u64) -> Result<Vec<u64>, AllocError>
    ensures { IfOk result (λ v. v.items ≡ without ids.now id) }
{
    let mut others = Vec::new(alloc);
    for other in ids {
        if id != *other {
            others.push(*other)?;
        }
    }
    Ok(others)
}

/// An id and more.
fn put_first(alloc: Global, id: u64, ids: &[u64]) -> Result<Vec<u64>, AllocError>
    ensures { IfOk result (λ v. v.items ≡ id ∷ ids.now) }
{
    let mut more = Vec::new(alloc);
    more.push(id)?;
    more.extend_from_slice(ids)?;
    Ok(more)
}

/// The ids of both lists.
fn joined(alloc: Global, ids: &[u64], others: &[u64]) -> Result<Vec<u64>, AllocError>
    ensures { IfOk result (λ v. v.items ≡ ids.now ++ others.now) }
{
    let mut all = Vec::from_slice(alloc, ids)?;
    all.extend_from_slice(others)?;
    Ok(all)
}

/// The new id of an id.
fn moved_id(moves: &[IdMove], id: u64) -> u64
    ensures { result ≡ moved_id moves.now id }
{
    match moves {
        [] => id,
        [first, rest @ ..] => {
            if id == first.from {
                first.to
            } else {
                moved_id(rest, id)
            }
        }
    }
}

/// The new ids of these.
fn moved_ids(alloc: Global, moves: &[IdMove], ids: &[u64]) -> Result<Vec<u64>, AllocError>
    ensures { IfOk result (λ v. v.items ≡ map (moved_id moves.now) ids.now) }
{
    let mut moved = Vec::new(alloc);
    for id in ids {
        moved.push(moved_id(moves, *id))?;
    }
    Ok(moved)
}

/// A clause by a chain: where one is awaited it is learned.
fn note_clause(alloc: Global, told: &mut Told, id: u64) -> Result<(), AllocError>
    ensures { OnOk result (moment_of told.new ≡ after_clause (moment_of told.old) id) }
{
    if told.awaits {
        told.learned = put_first(alloc, id, &told.learned)?;
    }
    told.awaits = false;
    Ok(())
}

/// A clause goes.
fn note_delete(alloc: Global, told: &mut Told, id: u64) -> Result<(), AllocError>
    ensures { OnOk result (moment_of told.new ≡ after_delete (moment_of told.old) id) }
{
    told.reduces = told.reduces || is_reduction(alloc, told, id)?;
    told.learned = without(alloc, &told.learned, id)?;
    told.old_clauses = without(alloc, &told.old_clauses, id)?;
    told.new_clauses = without(alloc, &told.new_clauses, id)?;
    Ok(())
}

/// A parity goes.
fn note_delete_parity(alloc: Global, told: &mut Told, id: u64) -> Result<(), AllocError>
    ensures { OnOk result (moment_of told.new ≡ record (moment_of told.old) { old_sums = without (moment_of told.old).old_sums id; new_sums = without (moment_of told.old).new_sums id }) }
{
    told.old_sums = without(alloc, &told.old_sums, id)?;
    told.new_sums = without(alloc, &told.new_sums, id)?;
    Ok(())
}

/// Clauses come under other ids.
fn note_moved_clauses(alloc: Global, told: &mut Told, moves: &[IdMove]) -> Result<(), AllocError>
    ensures { OnOk result (moment_of told.new ≡ record (moment_of told.old) { learned = map (moved_id moves.now) (moment_of told.old).learned; old_clauses = map (moved_id moves.now) (moment_of told.old).old_clauses; new_clauses = map (moved_id moves.now) (moment_of told.old).new_clauses }) }
{
    told.learned = moved_ids(alloc, moves, &told.learned)?;
    told.old_clauses = moved_ids(alloc, moves, &told.old_clauses)?;
    told.new_clauses = moved_ids(alloc, moves, &told.new_clauses)?;
    Ok(())
}

/// Parities come under other ids.
fn note_moved_parities(alloc: Global, told: &mut Told, moves: &[IdMove]) -> Result<(), AllocError>
    ensures { OnOk result (moment_of told.new ≡ record (moment_of told.old) { old_sums = map (moved_id moves.now) (moment_of told.old).old_sums; new_sums = map (moved_id moves.now) (moment_of told.old).new_sums }) }
{
    told.old_sums = moved_ids(alloc, moves, &told.old_sums)?;
    told.new_sums = moved_ids(alloc, moves, &told.new_sums)?;
    Ok(())
}

/// What a step changes besides the live constraints.
fn note_step(alloc: Global, told: &mut Told, step: &LogStep) -> Result<(), AllocError>
    ensures noted { OnOk result (moment_of told.new ≡ note_step (moment_of told.old) step.now) }
    ensures live { OnOk result (told.new.live ≡ told.old.live) }
    ensures reductions { OnOk result (told.new.reductions ≡ told.old.reductions) }
{
    match step {
        LogStep::Clause(id, _) | LogStep::ClauseWithHints(id, _, _) => {
            note_clause(alloc, told, *id)
        }
        LogStep::ClauseOfParity(id, _, _) => {
            told.new_clauses = put_first(alloc, *id, &told.new_clauses)?;
            Ok(())
        }
        LogStep::Parity(id, _, _) => {
            told.new_sums = put_first(alloc, *id, &told.new_sums)?;
            Ok(())
        }
        LogStep::Delete(id, _) => note_delete(alloc, told, *id),
        LogStep::DeleteParity(id, _) => note_delete_parity(alloc, told, *id),
        LogStep::MoveClauses(moves) => note_moved_clauses(alloc, told, moves.as_slice()),
        LogStep::MoveParities(moves) => note_moved_parities(alloc, told, moves.as_slice()),
        LogStep::Original(_, _)
        | LogStep::OriginalParity(_, _)
        | LogStep::ParityOfClauses(_, _, _)
        | LogStep::Final(_, _)
        | LogStep::FinalParity(_, _) => Ok(()),
    }
}

/// A mark: a clause is awaited, and another stretch begins.
fn note_mark(alloc: Global, told: &mut Told) -> Result<(), AllocError>
    requires { told.old.reductions + 1 < 2 ^ 64 }
    ensures marked { OnOk result ((k : ℕ) → moment_of told.new ≡ after_event (moment_of told.old) (Conflict k)) }
    ensures reductions { OnOk result (told.new.reductions ≤ told.old.reductions + 1) }
{
    told.awaits = true;
    told.old_clauses = joined(alloc, &told.new_clauses, &told.old_clauses)?;
    told.new_clauses = Vec::new(alloc);
    told.old_sums = joined(alloc, &told.new_sums, &told.old_sums)?;
    told.new_sums = Vec::new(alloc);
    if told.reduces {
        told.reductions += 1;
    }
    told.reduces = false;
    Ok(())
}

/// Takes in an event.
pub(crate) fn take_event(alloc: Global, told: &mut Told, event: &LogEvent) -> Result<(), AllocError>
    requires literals { has_literals event.now ≡ true }
    requires few { told.old.reductions + 1 < 2 ^ 64 }
    ensures taken { OnOk result (moment_of told.new ≡ after_event (moment_of told.old) event.now) }
    ensures reductions { OnOk result (told.new.reductions ≤ told.old.reductions + 1) }
{
    match event {
        LogEvent::Step(step) => {
            note_step(alloc, told, step)?;
            put_step(alloc, &mut told.live, step)
        }
        LogEvent::Conflict(_) => note_mark(alloc, told),
    }
}

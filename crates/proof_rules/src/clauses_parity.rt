//! Parities that clauses imply.
ghost use Rattle.std.specs.Prelude.{◌≡◌, ◌<◌, ◌≤◌, ◌^◌, false, length, replicate, OnOk};
ghost use Rattle.std.specs.List.{list_any};
ghost use Rattle.cx_semantics.specs.ProofRules.{parity_of_clauses};
ghost use Rattle.cx_semantics.specs.Tables.{named};
ghost use Rattle.proof_rules.specs.Exclusions.{HasPlaces, excluded, all_excluded, Excludes, is_outside};
ghost use Rattle.proof_rules.specs.Judges.{JudgesBy};

use crate::JudgeRefusal;
use crate::literal_set::LiteralSet;
use crate::live::Live;
use crate::marks::JudgeMarks;
use crate::parity_sum::ParitySum;
use cx_base::{Lit, Var};
use cx_semantics::Cause;
use std::alloc::AllocError;

/// The greatest number of variables of a parity that is judged by clauses.
const WIDEST: usize = 12;

/// Whether the clause has a variable that is not left in the sum.
fn is_outside(sum: &ParitySum, clause: &[Lit]) -> bool
    ensures { result ≡ is_outside sum.now.variables clause.now }
{
    for lit in clause {
        if !sum.has(lit.var()) {
            return true;
        }
    }
    false
}

/// Whether some named clause has a variable that is not left in the sum.
fn any_outside(sum: &ParitySum, live: &Live, ids: &[u64]) -> bool
    ensures { result ≡ list_any (is_outside sum.now.variables) (named live.now.clauses ids.now) }
{
    for id in ids {
        if let Some(clause) = live.clause(*id) {
            if is_outside(sum, clause) {
                return true;
            }
        }
    }
    false
}

/// Marks the assignments of the variables under which the clause is not met.
///
/// `place` is that of the assignment where all of them are false, and `step` how far the first of them moves it.
fn exclude(table: &mut [bool], variables: &[Var], clause: &LiteralSet, place: usize, step: usize)
    requires place { place < step }
    requires fits { HasPlaces variables.now step (length table.old) }
    ensures { table.new ≡ excluded clause.now variables.now place step table.old }
{
    match variables {
        [] => table[place] = true,
        [first, rest @ ..] => {
            if !clause.contains(Lit::new(*first, true)) {
                exclude(table, rest, clause, place, 2 * step);
            }
            if !clause.contains(Lit::new(*first, false)) {
                exclude(table, rest, clause, place + step, 2 * step);
            }
        }
    }
}

/// Makes the table that of the assignments of this many variables, none of them marked.
fn clear_table(table: &mut Vec<bool>, variables: usize) -> Result<(), AllocError>
    requires { variables ≤ WIDEST }
    ensures { OnOk result (table.new.items ≡ replicate (2 ^ variables) false) }
{
    table.clear();
    table.resize(1 << variables, false)
}

/// Makes the table that of the assignments that the named clauses exclude.
fn exclude_all(
    table: &mut Vec<bool>,
    set: &mut LiteralSet,
    variables: &[Var],
    live: &Live,
    ids: &[u64],
) -> Result<(), AllocError>
    requires { length variables.now ≤ WIDEST }
    ensures { OnOk result (Excludes variables.now (named live.now.clauses ids.now) table.new.items) }
{
    clear_table(table, variables.len())?;
    for id in ids {
        if let Some(clause) = live.clause(*id) {
            set.set_to(clause)?;
            exclude(table, variables, set, 0, 1);
        }
    }
    Ok(())
}

/// Whether each assignment under which the sum of the variables is wrong is excluded.
fn all_excluded(table: &[bool], variables: &[Var], place: usize, step: usize, wrong: bool) -> bool
    requires place { place < step }
    requires fits { HasPlaces variables.now step (length table.now) }
    ensures { result ≡ all_excluded variables.now place step wrong table.now }
{
    match variables {
        [] => table[place] || !wrong,
        [_, rest @ ..] => {
            all_excluded(table, rest, place, 2 * step, wrong)
                && all_excluded(table, rest, place + step, 2 * step, !wrong)
        }
    }
}

/// Judges the target as implied by the clauses that the ids name.
pub(crate) fn judge_target(
    marks: &mut JudgeMarks,
    live: &Live,
    target: &[Lit],
    ids: &[u64],
) -> Result<(), JudgeRefusal>
    ensures { JudgesBy (parity_of_clauses target.now (named live.now.clauses ids.now)) result }
{
    marks.sum.set_to(target)?;
    marks.sum.variables(&mut marks.variables)?;
    if marks.variables.len() > WIDEST {
        return Err(JudgeRefusal::Wrong(Cause::TooWide));
    }
    if any_outside(&marks.sum, live, ids) {
        return Err(JudgeRefusal::Wrong(Cause::ClauseOutside));
    }
    exclude_all(
        &mut marks.table,
        &mut marks.assumed,
        &marks.variables,
        live,
        ids,
    )?;
    if all_excluded(&marks.table, &marks.variables, 0, 1, marks.sum.right_side()) {
        Ok(())
    } else {
        Err(JudgeRefusal::Wrong(Cause::NotImplied))
    }
}

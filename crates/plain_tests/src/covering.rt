//! Which live clauses lie inside another one, and which learned clause goes for good.
ghost use Rattle.std.specs.Prelude.{◌≡◌, ◌&&◌, not, nat_eq, IfOk, MatchBool};
ghost use Rattle.std.specs.List.{list_any};
ghost use Rattle.cx_semantics.specs.Chain.{is_inside};
ghost use Rattle.cx_semantics.specs.Marked.{is_among, clause_at, is_covered_without, is_reduction};
ghost use Rattle.plain_tests.specs.Marking.{moment_of, SomeLive, some_under, is_part_of};

use crate::told::Told;
use cx_base::Lit;
use proof_rules::Live;
use std::alloc::{AllocError, Global};
use tidy_rules::relations::{has_both, lies_inside};

/// Whether the id is among these.
fn is_among(ids: &[u64], id: u64) -> bool
    ensures { result ≡ is_among ids.now id }
{
    for other in ids {
        if id == *other {
            return true;
        }
    }
    false
}

/// The literals of the live clause of this id; none where there is none.
fn live_clause<'a>(live: &'a Live, id: u64) -> &'a [Lit]
    ensures { result.now ≡ clause_at live.now.clauses id }
{
    match live.clause(id) {
        Some(lits) => lits,
        None => &[],
    }
}

/// Whether one of these clauses but that of an id lies inside these literals.
fn others_cover(live: &Live, ids: &[u64], id: u64, lits: &[Lit]) -> bool
    ensures { result ≡ list_any (λ k. not (nat_eq k id) && is_inside (clause_at live.now.clauses k) lits.now) ids.now }
{
    for other in ids {
        if *other != id && lies_inside(live_clause(live, *other), lits) {
            return true;
        }
    }
    false
}

/// Whether a live clause of another id lies inside these literals.
fn is_covered_without(alloc: Global, live: &Live, id: u64, lits: &[Lit]) -> Result<bool, AllocError>
    ensures { IfOk result (λ b. b ≡ is_covered_without live.now.clauses id lits.now) }
{
    let ids = live.clause_ids(alloc)?;
    Ok(others_cover(live, ids.as_slice(), id, lits))
}

/// Whether one of these clauses lies inside these literals.
fn one_lies_inside(live: &Live, ids: &[u64], lits: &[Lit]) -> bool
    ensures { result ≡ some_under live.now.clauses (λ clause. is_inside clause lits.now) ids.now }
{
    for id in ids {
        if lies_inside(live_clause(live, *id), lits) {
            return true;
        }
    }
    false
}

/// Whether a live clause lies inside these literals.
pub(crate) fn some_lies_inside(alloc: Global, live: &Live, lits: &[Lit]) -> Result<bool, AllocError>
    ensures { IfOk result (λ b. MatchBool b (SomeLive live.now.clauses (λ clause. is_inside clause lits.now)) (¬ SomeLive live.now.clauses (λ clause. is_inside clause lits.now))) }
{
    let ids = live.clause_ids(alloc)?;
    Ok(one_lies_inside(live, ids.as_slice(), lits))
}

/// Whether these literals are a part of the clause, which is no tautology.
fn is_part_of(lits: &[Lit], clause: &[Lit]) -> bool
    ensures { result ≡ is_part_of lits.now clause.now }
{
    lies_inside(lits, clause) && !has_both(clause)
}

/// Whether these literals are a part of one of these clauses that is no tautology.
fn is_part_under(live: &Live, ids: &[u64], lits: &[Lit]) -> bool
    ensures { result ≡ some_under live.now.clauses (is_part_of lits.now) ids.now }
{
    for id in ids {
        if is_part_of(lits, live_clause(live, *id)) {
            return true;
        }
    }
    false
}

/// Whether these literals are a part of a live clause that is no tautology.
pub(crate) fn is_part(alloc: Global, live: &Live, lits: &[Lit]) -> Result<bool, AllocError>
    ensures { IfOk result (λ b. MatchBool b (SomeLive live.now.clauses (is_part_of lits.now)) (¬ SomeLive live.now.clauses (is_part_of lits.now))) }
{
    let ids = live.clause_ids(alloc)?;
    Ok(is_part_under(live, ids.as_slice(), lits))
}

/// Whether the deletion of this clause, a learned one, leaves no live clause inside it.
pub(crate) fn is_reduction(alloc: Global, told: &Told, id: u64) -> Result<bool, AllocError>
    ensures { IfOk result (λ b. b ≡ is_reduction (moment_of told.now) id) }
{
    if !is_among(&told.learned, id) {
        return Ok(false);
    }
    let covered = is_covered_without(alloc, &told.live, id, live_clause(&told.live, id))?;
    Ok(!covered)
}

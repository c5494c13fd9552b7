//! Whether a clause is fresh, by closing sets of literals under unit propagation.
ghost use Rattle.std.specs.Prelude.{◌≡◌, ℕ, List, Some, None, IfOk, MatchOption, MatchBool, get_or};
ghost use Rattle.cx_base.specs.Literals.{Literal};
ghost use Rattle.proof_rules.specs.Ends.{left_seen};
ghost use Rattle.cx_semantics.specs.Chain.{left, more, count_left, negations};
ghost use Rattle.cx_semantics.specs.Fresh.{Fresh, NotReached, others};
ghost use Rattle.cx_semantics.specs.Tables.{get};
ghost use Rattle.plain_tests.specs.Propagating.{AllWait, Clash, IsReady, IsSaturation};

use cx_base::Lit;
use proof_rules::{LeftOf, LiteralSet, Live, left_of};
use std::alloc::{AllocError, Global};
use tidy_rules::relations::has_both;

/// A clause that has at most one literal left: its place among those that wait, and the literal.
#[derive(Clone, Copy, Drop)]
struct Ready {
    place: usize,
    left: Option<Lit>,
}

/// What is left of the clause of this id; of one that is not live more than a literal.
fn left_at(live: &Live, id: u64, known: &LiteralSet) -> LeftOf
    ensures live { (clause : List Literal) → get live.now.clauses id ≡ Some clause → left_seen result ≡ count_left (left known.now clause) }
    ensures not_live { get live.now.clauses id ≡ None → left_seen result ≡ more }
{
    match live.clause(id) {
        Some(clause) => left_of(known, clause),
        None => LeftOf::More,
    }
}

/// The first of these clauses that has at most one literal left.
fn first_ready(live: &Live, ids: &[u64], known: &LiteralSet) -> Option<Ready>
    ensures { MatchOption result (AllWait live.now.clauses known.now ids.now) (IsReady live.now.clauses known.now ids.now) }
{
    for place in 0..ids.len() {
        match left_at(live, ids[place], known) {
            LeftOf::Nothing => return Some(Ready { place, left: None }),
            LeftOf::One(lit) => {
                return Some(Ready {
                    place,
                    left: Some(lit),
                });
            }
            LeftOf::More => {}
        }
    }
    None
}

/// All that unit propagation over the live clauses gives from the negations of these literals; none where some clause is falsified.
pub(crate) fn saturate(
    alloc: Global,
    live: &Live,
    lits: &[Lit],
) -> Result<Option<LiteralSet>, AllocError>
    ensures { IfOk result (λ o. MatchOption o (Clash live.now.clauses (negations lits.now)) (IsSaturation live.now.clauses (negations lits.now))) }
{
    let mut known = LiteralSet::new(alloc);
    known.set_to_negations(lits)?;
    let mut waiting = live.clause_ids(alloc)?.into_vec();
    while let Some(ready) = first_ready(live, &waiting, &known) {
        let Some(lit) = ready.left else {
            return Ok(None);
        };
        known.insert(lit)?;
        waiting.remove(ready.place);
    }
    Ok(Some(known))
}

/// The literals but one.
pub(crate) fn others_of(alloc: Global, lits: &[Lit], lit: Lit) -> Result<Vec<Lit>, AllocError>
    ensures { IfOk result (λ v. v.items ≡ others lits.now lit) }
{
    let mut others = Vec::new(alloc);
    for other in lits {
        if lit != *other {
            others.push(*other)?;
        }
    }
    Ok(others)
}

/// Whether propagation from the negations of the other literals neither meets a conflict nor reaches this one.
fn is_not_reached(alloc: Global, live: &Live, lits: &[Lit], lit: Lit) -> Result<bool, AllocError>
    ensures { IfOk result (λ b. MatchBool b (NotReached live.now.clauses (negations (others lits.now lit)) lit) (¬ NotReached live.now.clauses (negations (others lits.now lit)) lit)) }
{
    let others = others_of(alloc, lits, lit)?;
    match saturate(alloc, live, &others)? {
        Some(known) => Ok(!known.contains(lit)),
        None => Ok(false),
    }
}

/// Whether a clause is fresh among the live ones.
pub fn is_fresh(alloc: Global, live: &Live, lits: &[Lit]) -> Result<bool, AllocError>
    ensures { IfOk result (λ b. MatchBool b (Fresh live.now.clauses lits.now) (¬ Fresh live.now.clauses lits.now)) }
{
    if has_both(lits) {
        return Ok(false);
    }
    for lit in lits {
        if is_not_reached(alloc, live, lits, *lit)? {
            return Ok(true);
        }
    }
    Ok(false)
}

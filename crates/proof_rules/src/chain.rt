//! Chains of hints.
ghost use Rattle.std.specs.Prelude.{◌≡◌, ◌++◌, true, false, nat_abs, Some, IfOk, MatchOption};
ghost use Rattle.cx_semantics.specs.Chain.{left, count_left};
ghost use Rattle.cx_semantics.specs.ProofRules.{hinting, chaining};
ghost use Rattle.cx_semantics.specs.Tables.{get};
ghost use Rattle.proof_rules.specs.Ends.{left_seen, and_one, EndsAs};
ghost use Rattle.proof_rules.specs.Judges.{JudgesBy};
ghost use Rattle.proof_rules.specs.Kinds.{hinted, names_live, all_named};

use crate::JudgeRefusal;
use crate::hints::{id_of, judge_hints};
use crate::literal_set::{LiteralSet, is_marked};
use crate::live::{Kind, Live};
use cx_base::Lit;
use cx_semantics::Cause;
use std::alloc::AllocError;

/// What is left of a clause.
#[derive(Clone, Copy, Drop)]
pub enum LeftOf {
    Nothing,
    /// One literal, perhaps at several places.
    One(Lit),
    /// Two different literals at least.
    More,
}

/// How a chain ends.
#[derive(Clone, Copy, Drop)]
enum End {
    /// A hint has no literal left.
    Right,
    /// A hint has more than one literal left.
    NotUnit,
    /// No hint is left over.
    HintsEnd,
}

/// One more literal is left.
fn with(found: LeftOf, lit: Lit) -> LeftOf
    ensures { left_seen result ≡ and_one (left_seen found) lit }
{
    match found {
        LeftOf::Nothing => LeftOf::One(lit),
        LeftOf::One(other) => {
            if other == lit {
                LeftOf::One(other)
            } else {
                LeftOf::More
            }
        }
        LeftOf::More => LeftOf::More,
    }
}

/// What is left of the clause where the negations of assumed literals are taken out.
pub fn left_of(assumed: &LiteralSet, clause: &[Lit]) -> LeftOf
    ensures { left_seen result ≡ count_left (left assumed.now clause.now) }
{
    let marks = assumed.marks();
    let mut found = LeftOf::Nothing;
    for lit in clause {
        if !is_marked(marks, lit.negate()) {
            found = with(found, *lit);
        }
    }
    found
}

/// The live clause that a hint names, which is not negative.
#[inline(always)]
fn hinted_clause<'a>(live: &'a Live, hint: i64) -> Option<&'a [Lit]>
    ensures { MatchOption result (names_live live.now.clauses hint ≡ false) (λ clause. (names_live live.now.clauses hint ≡ true) × (get live.now.clauses (nat_abs hint) ≡ Some clause.now)) }
{
    if hint < 0 {
        return None;
    }
    live.clause(id_of(hint))
}

/// Whether each hint is not negative and names a live clause.
fn are_named(live: &Live, hints: &[i64]) -> bool
    ensures { result ≡ all_named live.now.clauses hints.now }
{
    for hint in hints {
        if hinted_clause(live, *hint).is_none() {
            return false;
        }
    }
    true
}

/// This end, where each of the hints after it is not negative and names a live clause.
fn end_before(live: &Live, rest: &[i64], end: End) -> Option<End>
    ensures { MatchOption result (all_named live.now.clauses rest.now ≡ false) (λ e. (all_named live.now.clauses rest.now ≡ true) × (e ≡ end)) }
{
    if are_named(live, rest) {
        Some(end)
    } else {
        None
    }
}

/// How the chain of the hinted clauses ends; none where some hint is negative or names no live clause.
///
/// Each hint is looked up once, and no clause is taken after the one that ends the chain.
fn chain_end(
    assumed: &mut LiteralSet,
    live: &Live,
    hints: &[i64],
) -> Result<Option<End>, AllocError>
    ensures { IfOk result (EndsAs live.now.clauses assumed.old hints.now) }
{
    for place in 0..hints.len() {
        let clause = match hinted_clause(live, hints[place]) {
            Some(clause) => clause,
            None => return Ok(None),
        };
        match left_of(assumed, clause) {
            LeftOf::Nothing => return Ok(end_before(live, &hints[place + 1..], End::Right)),
            LeftOf::One(lit) => assumed.insert(lit)?,
            LeftOf::More => return Ok(end_before(live, &hints[place + 1..], End::NotUnit)),
        }
    }
    Ok(Some(End::HintsEnd))
}

/// Judges the target by the chain of the clauses that the hints name, and the hints.
pub(crate) fn judge_target(
    assumed: &mut LiteralSet,
    live: &Live,
    target: &[Lit],
    hints: &[i64],
) -> Result<(), JudgeRefusal>
    ensures { JudgesBy (hinting live.now.clauses hints.now ++ chaining target.now (hinted live.now.clauses hints.now)) result }
{
    assumed.set_to_negations(target)?;
    match chain_end(assumed, live, hints)? {
        Some(End::Right) => Ok(()),
        Some(End::NotUnit) => Err(JudgeRefusal::Wrong(Cause::HintNotUnit)),
        Some(End::HintsEnd) => Err(JudgeRefusal::Wrong(Cause::HintsEnd)),
        None => judge_hints(live, Kind::Clauses, hints),
    }
}

//! A look at one clause.
ghost use Rattle.std.specs.Prelude.{◌≡◌, ◌≢◌, ◌<◌, ◌≤◌, ◌⊎◌, ℕ, List, length, MatchOption, MatchBool};
ghost use Rattle.std.specs.List.{All, Contains};
ghost use Rattle.cx_base.specs.Literals.{Literal};
ghost use Rattle.cx_trail.specs.Sequence.{IsTrail, IsTrueIn, IsFalseIn};
ghost use Rattle.clause_arena.specs.Clauses.{IsLive, literals_at};
ghost use Rattle.watch_lists.specs.Truths.{AreOthersFalse, IsFinding};
ghost use Rattle.watch_lists.specs.Places.{IsFreeAt};

use crate::starts::{Starts, is_long};
use clause_arena::Arena;
use cx_base::{ClauseRef, Lit};
use cx_trail::{Trail, Truth};

/// What a look at a clause finds.
#[derive(Clone, Copy, Drop)]
pub(crate) enum ClauseFinding {
    Free(Lit),
    Unit,
    Falsified,
}

/// Whether the literal is not false and not `other`.
#[inline(always)]
fn is_free(trail: &Trail, lit: Lit, other: Lit) -> bool
    requires { lit.variable ≤ trail.now.variables }
    ensures { MatchBool result ((lit ≢ other) × (IsFalseIn trail.now.entries lit → ⊥)) (lit ≢ other → IsFalseIn trail.now.entries lit) }
{
    if lit == other {
        return false;
    }
    match trail.truth(lit) {
        Truth::True => true,
        Truth::Open => true,
        Truth::False => false,
    }
}

/// The place of a literal that is not false and not `other`.
#[inline(always)]
fn find(lits: &[Lit], trail: &Trail, other: Lit) -> Option<usize>
    requires { All (λ l. (1 ≤ l.variable) × (l.variable ≤ trail.now.variables)) lits.now }
    ensures { MatchOption result (AreOthersFalse trail.now.entries lits.now other) (λ place. IsFreeAt trail.now.entries lits.now other place) }
{
    for place in 0..lits.len() {
        if is_free(trail, lits[place], other) {
            return Some(place);
        }
    }
    None
}

/// The place of a free literal, looked for from a place to the end and then from the first literal to that place.
fn find_around(lits: &[Lit], trail: &Trail, other: Lit, start: usize) -> Option<usize>
    requires within { All (λ l. (1 ≤ l.variable) × (l.variable ≤ trail.now.variables)) lits.now }
    requires start { start ≤ length lits.now }
    ensures { MatchOption result (AreOthersFalse trail.now.entries lits.now other) (λ place. IsFreeAt trail.now.entries lits.now other place) }
{
    match find(&lits[start..], trail, other) {
        Some(place) => Some(start + place),
        None => find(&lits[..start], trail, other),
    }
}

/// A literal of a long clause that is not false and not `other`; the search begins where the last one was found.
#[inline(never)]
fn free_literal_of_long(
    lits: &[Lit],
    trail: &Trail,
    other: Lit,
    reference: ClauseRef,
    starts: &mut Starts,
) -> Option<Lit>
    requires { All (λ l. (1 ≤ l.variable) × (l.variable ≤ trail.now.variables)) lits.now }
    ensures { MatchOption result (AreOthersFalse trail.now.entries lits.now other)
        (λ l. Contains lits.now l × (l ≢ other) × (IsFalseIn trail.now.entries l → ⊥)) }
{
    let start = starts.start(reference, lits.len());
    let place = find_around(lits, trail, other, start)?;
    starts.note(reference, place);
    Some(lits[place])
}

/// A literal of a clause that is not false and not `other`.
#[inline(always)]
fn free_literal(
    lits: &[Lit],
    trail: &Trail,
    other: Lit,
    reference: ClauseRef,
    starts: &mut Starts,
) -> Option<Lit>
    requires { All (λ l. (1 ≤ l.variable) × (l.variable ≤ trail.now.variables)) lits.now }
    ensures { MatchOption result (AreOthersFalse trail.now.entries lits.now other)
        (λ l. Contains lits.now l × (l ≢ other) × (IsFalseIn trail.now.entries l → ⊥)) }
{
    if is_long(lits.len()) {
        return free_literal_of_long(lits, trail, other, reference, starts);
    }
    let place = find(lits, trail, other)?;
    Some(lits[place])
}

/// What a short clause is, whose literals are a false one, this third one and `other`, which is not true. The clause is not read.
#[inline(always)]
pub(crate) fn look_at_short(trail: &Trail, third: Lit, other: Lit) -> ClauseFinding
    requires third { third.variable ≤ trail.now.variables }
    requires other { other.variable ≤ trail.now.variables }
    requires unmet { IsTrueIn trail.now.entries other → ⊥ }
    ensures finds { (lits : List Literal) (mine : Literal) → IsFalseIn trail.now.entries mine → Contains lits third
        → ((l : Literal) → Contains lits l → (l ≡ mine) ⊎ ((l ≡ other) ⊎ (l ≡ third))) → IsFinding trail.now.entries lits other result }
    ensures sound { IsTrail trail.now }
{
    // the trail is sound, which this call tells the proof
    let _count = trail.len();
    if is_free(trail, third, other) {
        return ClauseFinding::Free(third);
    }
    match trail.truth(other) {
        Truth::True => ClauseFinding::Unit,
        Truth::Open => ClauseFinding::Unit,
        Truth::False => ClauseFinding::Falsified,
    }
}

/// What the clause is, where `other` is one of its literals and not true.
#[inline(always)]
pub(crate) fn look(
    arena: &Arena,
    reference: ClauseRef,
    trail: &Trail,
    other: Lit,
    starts: &mut Starts,
) -> ClauseFinding
    requires live { IsLive arena.now reference }
    requires within { All (λ l. (1 ≤ l.variable) × (l.variable ≤ trail.now.variables)) (literals_at arena.now reference) }
    requires inside { Contains (literals_at arena.now reference) other }
    requires unmet { IsTrueIn trail.now.entries other → ⊥ }
    ensures finds { IsFinding trail.now.entries (literals_at arena.now reference) other result }
    ensures sound { IsTrail trail.now }
{
    // the trail is sound, which this call tells the proof
    let _count = trail.len();
    match free_literal(arena.lits(reference), trail, other, reference, starts) {
        Some(lit) => ClauseFinding::Free(lit),
        None => match trail.truth(other) {
            Truth::True => ClauseFinding::Unit,
            Truth::Open => ClauseFinding::Unit,
            Truth::False => ClauseFinding::Falsified,
        },
    }
}

//! Clauses that are the same in each run.
ghost use Rattle.std.specs.Prelude.{IsTrue};
ghost use Rattle.cx_base.specs.Problem.{AreWithin};
ghost use Rattle.clause_arena.specs.Clauses.{IsLive, literals_at, id_at};
ghost use Rattle.clause_tidy.specs.Agreeing.{AreProper, IsStepId};

use clause_arena::Arena;
use cx_base::{ClauseRef, Formula, Lit, Var};
use std::alloc::{AllocError, Global};

/// How clauses are drawn: variables up to a number, so many clauses, each of at most so many literals.
#[derive(Clone, Copy, Drop)]
pub(crate) struct Draw {
    pub seed: u64,
    pub vars: u32,
    pub clauses: u64,
    pub longest: u64,
}

/// The next number of a linear congruential sequence: its multiplier and its addend are Knuth's, of MMIX.
fn next(seed: &mut u64) -> u64 {
    *seed = seed
        .wrapping_mul(6_364_136_223_846_793_005)
        .wrapping_add(1_442_695_040_888_963_407);
    *seed >> 33
}

/// The literal of a variable up to a number, or its negation.
fn some_lit(seed: &mut u64, vars: u32) -> Lit {
    let before = next(seed) % u64::from(vars.clamp(1, 1_000));
    let var = Var::new(1 + before as u32);
    Lit::new(var, next(seed) % 2 == 0)
}

/// At least one literal, perhaps with repeats.
fn some_lits(alloc: Global, seed: &mut u64, draw: Draw) -> Result<Vec<Lit>, AllocError> {
    let mut lits = Vec::new(alloc);
    let len = next(seed) % draw.longest.clamp(1, 100);
    for _ in 0..=len {
        lits.push(some_lit(seed, draw.vars))?;
    }
    Ok(lits)
}

/// Adds a clause under an id. A third of them are learned.
fn add(
    alloc: Global,
    arena: &mut Arena,
    seed: &mut u64,
    draw: Draw,
    id: u64,
) -> Result<(), AllocError> {
    let lits = some_lits(alloc, seed, draw)?;
    let learned = next(seed) % 3 == 0;
    arena.add(&lits, id, 2, learned)?;
    Ok(())
}

/// Drawn clauses, under the ids from 1 on.
pub(crate) fn some_clauses(alloc: Global, draw: Draw) -> Result<Arena, AllocError> {
    let mut arena = Arena::make(alloc);
    let mut seed = draw.seed;
    for id in 1..=draw.clauses {
        add(alloc, &mut arena, &mut seed, draw, id)?;
    }
    Ok(arena)
}

/// Whether no variable of a clause is above this number.
fn are_within(vars: u32, lits: &[Lit]) -> bool
    ensures { IsTrue result → AreWithin vars lits.now }
{
    for lit in lits {
        if lit.var().number() > vars {
            return false;
        }
    }
    true
}

/// Whether a clause that is live is proper.
fn is_proper_at(formula: &Formula, arena: &Arena, clause: ClauseRef) -> bool
    ensures { IsTrue result → IsLive arena.now clause → AreWithin formula.now.variables (literals_at arena.now clause) × IsStepId (id_at arena.now clause) }
{
    if !arena.is_live(clause) {
        return true;
    }
    let id = arena.id(clause);
    (1..=9_223_372_036_854_775_807).contains(&id) && are_within(formula.vars(), arena.lits(clause))
}

/// Whether the variables are the formula's, and a log can have the ids.
pub(crate) fn are_proper(formula: &Formula, arena: &Arena) -> bool
    ensures { IsTrue result → AreProper formula.now arena.now }
{
    for place in 0..arena.len() {
        if !is_proper_at(formula, arena, ClauseRef::new(place as u32)) {
            return false;
        }
    }
    true
}

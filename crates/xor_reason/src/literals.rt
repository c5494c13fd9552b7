//! The literals of a reason's clause.
ghost use Rattle.std.specs.Prelude.{◌≡◌, IfOk, IsTrue};
ghost use Rattle.cx_base.specs.Literals.{Literal};
ghost use Rattle.cx_semantics.specs.Chain.{has_literal};
ghost use Rattle.cx_trail.specs.Sequence.{IsAssignedIn, IsFalseIn, IsTrail};
ghost use Rattle.xor_reason.specs.LiteralChoice.{IsLiteralFor, AreLiteralsFor};

use cx_base::{Lit, LitList, Var};
use cx_trail::Trail;
use std::alloc::{AllocError, Global};

/// The literal of an assigned variable that is false on the trail.
fn false_literal(trail: &Trail, variable: Var) -> Lit
    requires sound { IsTrail trail.now }
    requires assigned { IsAssignedIn trail.now.entries variable }
    ensures variable { result.variable ≡ variable }
    ensures is_false { IsFalseIn trail.now.entries result }
{
    Lit::new(variable, trail.value(variable) == Some(true))
}

/// The implied literal at its variable, and otherwise the variable's false literal.
fn literal_for(trail: &Trail, implied: &Option<Lit>, variable: Var) -> Lit
    requires sound { IsTrail trail.now }
    requires assigned { IsAssignedIn trail.now.entries variable }
    ensures { IsLiteralFor trail.now implied.now variable result }
{
    match implied {
        Some(literal) if literal.var() == variable => *literal,
        Some(_) | None => false_literal(trail, variable),
    }
}

/// A literal for each of these, in order, of the same variables.
pub(crate) fn literals_for(
    alloc: Global,
    trail: &Trail,
    implied: &Option<Lit>,
    lits: &[Lit],
) -> Result<LitList, AllocError>
    requires assigned { (l : Literal) → IsTrue (has_literal lits.now l) → IsAssignedIn trail.now.entries l.variable }
    ensures literals { IfOk result (AreLiteralsFor trail.now implied.now lits.now) }
    ensures sound { IsTrail trail.now }
{
    let _vars = trail.vars();
    let mut clause = Vec::with_capacity(alloc, lits.len())?;
    for lit in lits {
        clause.push(literal_for(trail, implied, lit.var()))?;
    }
    Ok(LitList::from_vec(clause))
}

/// A literal for each of these, in order, of the same variables, in their place.
pub(crate) fn turned_literals(trail: &Trail, implied: &Option<Lit>, lits: LitList) -> LitList
    requires assigned { (l : Literal) → IsTrue (has_literal lits l) → IsAssignedIn trail.now.entries l.variable }
    ensures literals { AreLiteralsFor trail.now implied.now lits result }
    ensures sound { IsTrail trail.now }
{
    let _vars = trail.vars();
    let mut clause = lits.into_vec();
    for place in 0..clause.len() {
        clause[place] = literal_for(trail, implied, clause[place].var());
    }
    LitList::from_vec(clause)
}

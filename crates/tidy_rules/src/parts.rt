//! The clauses of an arena and units, in one list.
ghost use Rattle.std.specs.Prelude.{◌≡◌, ◌++◌, [], map, IfOk, OnOk};
ghost use Rattle.tidy_rules.specs.Parts.{IsStanding, lits_in, ListsParts};

use crate::part::TidyPart;
use clause_arena::Arena;
use cx_base::{ClauseRef, Lit};
use std::alloc::{AllocError, Global};
use std::slice;

/// The literals of a part.
pub(crate) fn lits_of<'a>(arena: &'a Arena, part: &'a TidyPart) -> &'a [Lit]
    requires { IsStanding arena.now part.now }
    ensures { result.now ≡ lits_in arena.now part.now }
{
    match part {
        TidyPart::Clause(reference) => arena.lits(*reference),
        TidyPart::Unit(lit) => slice::from_ref(lit),
    }
}

/// Puts the arena's clauses after the parts.
fn put_clauses(arena: &Arena, parts: &mut Vec<TidyPart>) -> Result<(), AllocError>
    requires { parts.old.items ≡ [] }
    ensures { OnOk result (ListsParts arena.now [] parts.new.items) }
{
    for place in 0..arena.len() {
        let reference = ClauseRef::new(place as u32);
        if arena.is_live(reference) {
            parts.push(TidyPart::Clause(reference))?;
        }
    }
    Ok(())
}

/// Puts the units after the parts.
fn put_units(units: &[Lit], parts: &mut Vec<TidyPart>) -> Result<(), AllocError>
    ensures { OnOk result (parts.new.items ≡ parts.old.items ++ map TidyPart.Unit units.now) }
{
    for lit in units {
        parts.push(TidyPart::Unit(*lit))?;
    }
    Ok(())
}

/// The clauses of the arena, and the units.
pub(crate) fn parts_of(
    alloc: Global,
    arena: &Arena,
    units: &[Lit],
) -> Result<Vec<TidyPart>, AllocError>
    ensures { IfOk result (λ parts. ListsParts arena.now units.now parts.items) }
{
    let mut parts = Vec::new(alloc);
    put_clauses(arena, &mut parts)?;
    put_units(units, &mut parts)?;
    Ok(parts)
}

//! The plain look for what is untidy: each clause beside each other.
ghost use Rattle.std.specs.Prelude.{◌≡◌, ◌↔◌, IfOk, IfSome, IsNone, IsTrue, MatchOption};
ghost use Rattle.std.specs.List.{All};
ghost use Rattle.tidy_rules.specs.Parts.{Tidied, IsUntidy, IsTidyBeside, IsStanding, BearsOnPart, AreTidy, IsUntidyAt, IsUntidyIn};

use crate::part::{TidyPart, Untidy};
use crate::parts::{lits_of, parts_of};
use crate::relations::{bears_on, has_both};
use clause_arena::Arena;
use cx_base::LitList;
use std::alloc::{AllocError, Global};

/// Whether another part than this one lies inside it or strengthens it.
fn bears_on_part(arena: &Arena, other: &TidyPart, part: &TidyPart) -> bool
    requires other { IsStanding arena.now other.now }
    requires part { IsStanding arena.now part.now }
    ensures { IsTrue result ↔ BearsOnPart arena.now other.now part.now }
{
    *other != *part && bears_on(lits_of(arena, other), lits_of(arena, part))
}

/// What is untidy of this part, beside these.
fn untidy_at(arena: &Arena, parts: &[TidyPart], part: &TidyPart) -> Option<Untidy>
    requires parts { All (IsStanding arena.now) parts.now }
    requires part { IsStanding arena.now part.now }
    ensures { MatchOption result (IsTidyBeside arena.now parts.now part.now) (IsUntidyAt arena.now parts.now part.now) }
{
    if has_both(lits_of(arena, part)) {
        return Some(Untidy::One(*part));
    }
    for other in parts {
        if bears_on_part(arena, other, part) {
            return Some(Untidy::Two(*other, *part));
        }
    }
    None
}

/// The first of these parts of which something is untidy.
fn first_untidy(arena: &Arena, parts: &[TidyPart]) -> Option<Untidy>
    requires { All (IsStanding arena.now) parts.now }
    ensures { MatchOption result (AreTidy arena.now parts.now) (IsUntidyIn arena.now parts.now) }
{
    for part in parts {
        let found = untidy_at(arena, parts, part);
        if found.is_some() {
            return found;
        }
    }
    None
}

/// A clause, or two, of the arena's clauses and the units, that tidy ones don't have. None exactly where they are tidy.
///
/// Each part is looked at beside each other: this is the definition's plain program.
pub fn find_untidy(
    alloc: Global,
    arena: &Arena,
    units: &LitList,
) -> Result<Option<Untidy>, AllocError>
    ensures none { IfOk result (λ found. IsNone found ↔ Tidied arena.now units.now) }
    ensures some { IfOk result (λ found. IfSome found (IsUntidy arena.now units.now)) }
{
    let parts = parts_of(alloc, arena, units.as_slice())?;
    Ok(first_untidy(arena, &parts))
}

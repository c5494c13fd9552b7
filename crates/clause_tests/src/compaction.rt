//! Worked examples of compaction.
use crate::acts::{Act, Row, add_all, show_clause, show_trail, told};
use crate::expecting::expect;
use crate::source::imply;
use crate::writing::lit;
use clause_arena::Arena;
use cx_base::{ClauseRef, Move, Moved};
use cx_trail::Trail;
use std::alloc::{AllocError, Global};

/// Two clauses; the first one is removed.
static TWO: [Row; 2] = [(&[1, 2], 7, 0, false), (&[-1, 3, 2], 8, 2, true)];

/// Closes the gaps of an arena. Where two clauses are then.
fn moves(
    arena: &mut Arena,
    first: ClauseRef,
    second: ClauseRef,
) -> Result<(Option<ClauseRef>, Option<ClauseRef>), AllocError> {
    let moved = arena.compact()?;
    Ok((moved.to(first), moved.to(second)))
}

/// Where the clauses are when the first one was removed, what the second one is, and how many references there are.
fn told_of_second(alloc: Global, arena: &mut Arena) -> Result<String, AllocError> {
    arena.reserve(2, 5)?;
    add_all(alloc, arena, &TWO)?;
    let (first, second) = (ClauseRef::new(0), ClauseRef::new(1));
    if !arena.is_live(first) {
        return String::from_str(alloc, "no clause");
    }
    arena.remove(first);
    let (gone, left) = moves(arena, first, second)?;
    let clause = show_clause(alloc, arena, ClauseRef::new(0))?;
    format!(in alloc; "{gone:?} {left:?} {clause} of {}", arena.len())
}

#[test]
fn the_clause_that_is_left_has_a_new_reference(rt: HostRuntime) {
    let mut arena = Arena::make(rt.alloc());
    let wanted = "None Some(ClauseRef { place: 0 }) [-1, 3, 2] 8 2 true of 1";
    expect(&rt, told_of_second(rt.alloc(), &mut arena), wanted);
}

/// Closes the gaps of an arena. Where its first clause is then, and how many references there are.
fn compacted(alloc: Global, arena: &mut Arena) -> Result<String, AllocError> {
    let moved = arena.compact()?;
    format!(in alloc; "{:?} of {}", moved.to(ClauseRef::new(0)), arena.len())
}

#[test]
fn an_empty_arena_stays_empty(rt: HostRuntime) {
    let mut arena = Arena::make(rt.alloc());
    expect(&rt, compacted(rt.alloc(), &mut arena), "None of 0");
}

/// The move of the clause at a place to another one.
fn move_of(alloc: Global, old: u32, new: u32) -> Result<Moved, AllocError> {
    let mut moves = Vec::new(alloc);
    moves.push(Move {
        old: ClauseRef::new(old),
        new: ClauseRef::new(new),
    })?;
    Ok(Moved::from_vec(moves))
}

/// What is told of a trail, where a clause implied its literal and has moved.
fn renamed_in(alloc: Global, trail: &mut Trail) -> Result<String, AllocError> {
    let moved = move_of(alloc, 5, 2)?;
    imply(trail, lit(1), ClauseRef::new(5));
    trail.rename(&moved);
    show_trail(alloc, trail)
}

/// As `renamed_in`, of a new trail.
fn renamed(alloc: Global) -> Result<String, AllocError> {
    let mut trail = Trail::make(alloc, 2)?;
    renamed_in(alloc, &mut trail)
}

#[test]
fn a_reason_takes_its_new_reference(rt: HostRuntime) {
    expect(&rt, renamed(rt.alloc()), "1 by 2 ");
}

/// A clause that gave its literal at level 0, and two that go on to force theirs.
static ROWS: [Row; 3] = [
    (&[4, 2], 7, 0, false),
    (&[-1, 3], 8, 2, true),
    (&[-3, -2], 9, 3, true),
];

static ACTS: [Act; 13] = [
    Act::Attach,
    Act::Imply(4, 0),
    Act::Decide(1),
    Act::Propagate,
    Act::Remove(0),
    Act::CloseGaps,
    Act::ShowTrail,
    Act::ShowClause(0),
    Act::ShowClause(1),
    Act::StartAgain,
    Act::Decide(1),
    Act::Propagate,
    Act::ShowTrail,
];

/// the clause of the first literal, which is of level 0, is gone
const WANTED: &str = "\
true
true
true
Quiet
true
closed
4 decided 1 decided 3 by 0 -2 by 1 
[-1, 3] 8 2 true
[-3, -2] 9 3 true
back
true
Quiet
4 decided 1 decided 3 by 0 -2 by 1 
";

#[test]
fn all_name_a_clause_by_its_new_reference(rt: HostRuntime) {
    expect(&rt, told(rt.alloc(), 4, &ROWS, &ACTS), WANTED);
}

//! The sides of clauses.
ghost use Rattle.std.specs.Prelude.{◌≡◌, ◌≢◌, ◌<◌, ◌≤◌, ◌*◌, ◌^◌, ℕ, List, length, IfSome, MatchOption};
ghost use Rattle.cx_trail.specs.Sequence.{IsTrail, IsTrueIn, IsFalseIn};
ghost use Rattle.watch_lists.specs.Watching.{AreNodes, IsAttached, Propagates, clause_of, held_at, third_at, partner};
ghost use Rattle.watch_lists.specs.Visits.{IsRewatched, Visited};
ghost use Rattle.watch_lists.specs.Truths.{IsFinding};
ghost use Rattle.clause_arena.specs.Clauses.{literals_at};

use crate::ahead::Ahead;
use crate::lists::{NodeLists, Side};
use crate::look::{ClauseFinding, look, look_at_short};
use crate::starts::Starts;
use clause_arena::Arena;
use cx_base::{ClauseRef, Lit};
use cx_trail::{Reason, Trail};

/// For each clause whether it is attached, and where the search for a third literal begins; and what was read ahead.
#[derive(Drop)]
pub(crate) struct Nodes {
    pub attached: Vec<bool>,
    pub starts: Starts,
    pub ahead: Ahead,
}

/// What a visit of a node found.
#[derive(Clone, Copy, Drop)]
pub(crate) enum Visit {
    Keep,
    Move(Lit),
    Conflict,
}

/// The other node of the clause.
#[inline(always)]
fn partner_of(node: u32) -> u32
    ensures { result ≡ partner node }
{
    if node % 2 == 0 { node + 1 } else { node - 1 }
}

/// The literal that the other node of the clause watches.
#[inline(always)]
pub(crate) fn partner_literal(lists: &NodeLists, node: u32) -> Lit
    requires { partner node < length lists.now.held }
    ensures { result ≡ held_at lists.now.held (partner node) }
{
    lists.watched(partner_of(node))
}

/// The third literal of a short clause: what both sides keep.
#[inline(always)]
pub(crate) fn third_of_short(lists: &NodeLists, node: u32) -> Option<Lit>
    requires node { node < length lists.now.held }
    requires partner { partner node < length lists.now.held }
    ensures { IfSome result (λ l. (l ≡ third_at lists.now.held node) × (l ≡ third_at lists.now.held (partner node))) }
{
    let mine = lists.side(node);
    let partner = partner_of(node);
    let other = lists.side(partner);
    if mine.third == other.third {
        return Some(mine.third);
    }
    None
}

/// Has a node watch another literal of its clause. In a short clause the one that it watched becomes the third.
#[inline(always)]
pub(crate) fn rewatch(lists: &mut NodeLists, node: u32, literal: Lit)
    requires node { node < length lists.old.held }
    requires partner { partner node < length lists.old.held }
    ensures rewatched { IsRewatched lists.old.held node literal lists.new.held }
    ensures lists { lists.new.lists ≡ lists.old.lists }
    ensures flags { lists.new.flags ≡ lists.old.flags }
{
    let mine = lists.side(node);
    let partner = partner_of(node);
    let other = lists.side(partner);
    let watched = mine.watched;
    if mine.third == other.third {
        lists.watch(partner, Side::new(other.watched, watched));
        lists.watch(node, Side::new(literal, watched));
        return;
    }
    lists.watch(node, Side::new(literal, mine.third));
}

/// Looks at the clause of a node whose literal is false, where the other literal that is watched is not true. A short clause is not read.
#[inline(always)]
fn look_at(
    nodes: &mut Nodes,
    lists: &NodeLists,
    arena: &Arena,
    trail: &Trail,
    node: u32,
) -> ClauseFinding
    requires nodes { AreNodes trail.now.variables lists.now.held nodes.old.attached.items arena.now }
    requires attached { IsAttached nodes.old.attached.items (clause_of node) }
    requires falsified { IsFalseIn trail.now.entries (held_at lists.now.held node) }
    requires unmet { IsTrueIn trail.now.entries (held_at lists.now.held (partner node)) → ⊥ }
    ensures attached { nodes.new.attached.items ≡ nodes.old.attached.items }
    ensures finds { IsFinding trail.now.entries (literals_at arena.now (clause_of node)) (held_at lists.now.held (partner node)) result }
    ensures sound { IsTrail trail.now }
{
    let other = partner_literal(lists, node);
    let reference = ClauseRef::new(node / 2);
    match third_of_short(lists, node) {
        Some(third) => look_at_short(trail, third, other),
        None => look(arena, reference, trail, other, &mut nodes.starts),
    }
}

/// Visits the clause of a node whose literal is false, where the other literal that is watched is not true.
#[inline(always)]
pub(crate) fn visit_node(
    nodes: &mut Nodes,
    lists: &NodeLists,
    arena: &Arena,
    trail: &mut Trail,
    node: u32,
) -> Visit
    requires nodes { AreNodes trail.old.variables lists.now.held nodes.old.attached.items arena.now }
    requires attached { IsAttached nodes.old.attached.items (clause_of node) }
    requires falsified { IsFalseIn trail.old.entries (held_at lists.now.held node) }
    requires unmet { IsTrueIn trail.old.entries (held_at lists.now.held (partner node)) → ⊥ }
    ensures attached { nodes.new.attached.items ≡ nodes.old.attached.items }
    ensures propagates { Propagates nodes.old.attached.items arena.now trail.old trail.new }
    ensures visited { Visited arena.now lists.now.held trail.old trail.new node result }
    ensures sound { IsTrail trail.new }
{
    let other = partner_literal(lists, node);
    let reference = ClauseRef::new(node / 2);
    match look_at(nodes, lists, arena, trail, node) {
        ClauseFinding::Free(lit) => Visit::Move(lit),
        ClauseFinding::Unit => {
            trail.imply(other, Reason::Clause(reference));
            Visit::Keep
        }
        ClauseFinding::Falsified => Visit::Conflict,
    }
}

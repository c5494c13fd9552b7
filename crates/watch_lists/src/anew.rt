//! Choosing anew what each clause of an arena is watched at.
ghost use Rattle.std.specs.Prelude.{◌≡◌, ◌≢◌, ◌<◌, ◌≤◌, ◌+◌, ◌-◌, ◌*◌, ◌^◌, ℕ, length, IfOk, OnOk, OnErr};
ghost use Rattle.std.specs.List.{All, Contains};
ghost use Rattle.cx_base.specs.Literals.{HasTwo};
ghost use Rattle.clause_arena.specs.Clauses.{IsLive, literals_at};
ghost use Rattle.watch_lists.specs.Anew.{AreChosenBelow, AreWatchable};
ghost use Rattle.watch_lists.specs.Attaching.{literal_at};
ghost use Rattle.watch_lists.specs.Walking.{AreOf};

use crate::attach::make_room;
use crate::lists::{NodeLists, Side};
use crate::nodes::Nodes;
use crate::starts::Starts;
use clause_arena::Arena;
use cx_base::{ClauseRef, Lit};
use std::alloc::AllocError;

/// Makes room for what is said of long clauses, and gives the place after the last clause.
fn grow_starts(starts: &mut Starts, arena: &Arena) -> Result<usize, AllocError>
    ensures all { IfOk result (λ end. (r : ℕ) → IsLive arena.now r → r < end) }
    ensures last { IfOk result (λ end. 0 < end → IsLive arena.now (end - 1)) }
    ensures few { IfOk result (λ end. end < 2 ^ 31) }
{
    let mut end = 0;
    for at in 0..arena.len() {
        let reference = ClauseRef::new(at as u32);
        if arena.is_live(reference) {
            starts.grow(at as u32, arena.lits(reference).len())?;
            end = at + 1;
        }
    }
    Ok(end)
}

/// Room for the nodes of each clause.
pub(crate) fn make_rooms(
    nodes: &mut Nodes,
    lists: &mut NodeLists,
    arena: &Arena,
) -> Result<(), AllocError>
    requires { length lists.old.held ≡ 2 * length nodes.old.attached.items }
    ensures lists { lists.new.lists ≡ lists.old.lists }
    ensures pairs { length lists.new.held ≡ 2 * length nodes.new.attached.items }
    ensures room { OnOk result ((r : ℕ) → IsLive arena.now r → r < length nodes.new.attached.items) }
    ensures over { (vars : ℕ) → AreWatchable vars arena.now → AreOf vars lists.old.held → AreOf vars lists.new.held }
    ensures unchanged { OnErr result ((lists.new.held ≡ lists.old.held) × (nodes.new.attached.items ≡ nodes.old.attached.items)) }
{
    let end = grow_starts(&mut nodes.starts, arena)?;
    if end == 0 {
        return Ok(());
    }
    make_room(nodes, lists, (end - 1) as u32)
}

/// The first literal that differs from the one at the front.
fn other_one(lits: &[Lit]) -> Lit
    requires { HasTwo lits.now }
    ensures inside { Contains lits.now result }
    ensures apart { literal_at lits.now 0 ≢ result }
{
    let front = lits[0];
    for lit in lits {
        if *lit != front {
            return *lit;
        }
    }
    unreachable!()
}

/// Chooses what the clause at a place is watched at. Where there is none, it is detached.
fn choose_one(nodes: &mut Nodes, lists: &mut NodeLists, arena: &Arena, place: u32)
    requires different { IsLive arena.now place → HasTwo (literals_at arena.now place) }
    requires room { place < length nodes.old.attached.items }
    requires few { length lists.old.held < 2 ^ 32 }
    requires pairs { length lists.old.held ≡ 2 * length nodes.old.attached.items }
    ensures pairs { length lists.new.held ≡ 2 * length nodes.new.attached.items }
    ensures count { length nodes.new.attached.items ≡ length nodes.old.attached.items }
    ensures lists { lists.new.lists ≡ lists.old.lists }
    ensures over { (vars : ℕ) → All (λ l. (1 ≤ l.variable) × (l.variable ≤ vars)) (literals_at arena.now place) → AreOf vars lists.old.held → AreOf vars lists.new.held }
    ensures chosen { AreChosenBelow arena.now place lists.old.held nodes.old.attached.items → AreChosenBelow arena.now (place + 1) lists.new.held nodes.new.attached.items }
{
    let reference = ClauseRef::new(place);
    let at = place as usize;
    if !arena.is_live(reference) {
        nodes.attached[at] = false;
        return;
    }
    let lits = arena.lits(reference);
    let first = lits[0];
    let other = other_one(lits);
    lists.watch(2 * place, Side::new(first, first));
    lists.watch(2 * place + 1, Side::new(other, other));
    nodes.attached[at] = true;
}

/// Chooses what each clause of the arena is watched at, and detaches all others.
pub(crate) fn choose_all(nodes: &mut Nodes, lists: &mut NodeLists, arena: &Arena)
    requires different { (r : ℕ) → IsLive arena.now r → HasTwo (literals_at arena.now r) }
    requires few { length lists.old.held < 2 ^ 32 }
    requires pairs { length lists.old.held ≡ 2 * length nodes.old.attached.items }
    ensures pairs { length lists.new.held ≡ 2 * length nodes.new.attached.items }
    ensures count { length nodes.new.attached.items ≡ length nodes.old.attached.items }
    ensures lists { lists.new.lists ≡ lists.old.lists }
    ensures over { (vars : ℕ) → AreWatchable vars arena.now → AreOf vars lists.old.held → AreOf vars lists.new.held }
    ensures chosen { AreChosenBelow arena.now (length nodes.old.attached.items) lists.new.held nodes.new.attached.items }
{
    let count = nodes.attached.len();
    'all: for at in 0..count {
        choose_one(nodes, lists, arena, at as u32);
    }
}

//! Watches of clauses that have new references.
ghost use Rattle.std.specs.Prelude.{◌≡◌, ◌<◌, ◌+◌, ◌*◌, ◌^◌, ℕ, Bool, List, length};
ghost use Rattle.watch_lists.specs.declared.lists.Side.{Side};
ghost use Rattle.watch_lists.specs.Walking.{AreOf};
ghost use Rattle.watch_lists.specs.Renaming.{AreLowered, AreRenamedBelow};

use crate::lists::NodeLists;
use crate::nodes::Nodes;
use cx_base::{ClauseRef, Moved};

/// Moves the sides of one clause to its new reference. Where it has none, it is detached.
fn move_one(nodes: &mut Nodes, lists: &mut NodeLists, moved: &Moved, place: u32)
    requires lowered { AreLowered moved.now }
    requires room { place < length nodes.old.attached.items }
    requires few { length lists.old.held < 2 ^ 32 }
    requires pairs { length lists.old.held ≡ 2 * length nodes.old.attached.items }
    ensures pairs { length lists.new.held ≡ 2 * length nodes.new.attached.items }
    ensures lists { lists.new.lists ≡ lists.old.lists }
    ensures over { (vars : ℕ) → AreOf vars lists.old.held → AreOf vars lists.new.held }
    ensures below { (held : List Side) (attached : List Bool)
        → AreRenamedBelow moved.now place held attached lists.old.held nodes.old.attached.items
        → AreRenamedBelow moved.now (place + 1) held attached lists.new.held nodes.new.attached.items }
{
    let from = place as usize;
    let attached = nodes.attached[from];
    nodes.attached[from] = false;
    if let Some(new) = moved.to(ClauseRef::new(place)) {
        let to = new.place();
        let first = lists.side(2 * place);
        let second = lists.side(2 * place + 1);
        lists.watch(2 * to, first);
        lists.watch(2 * to + 1, second);
        nodes.attached[to as usize] = attached;
    }
}

/// Moves the sides of each clause to its new reference.
pub(crate) fn move_all(nodes: &mut Nodes, lists: &mut NodeLists, moved: &Moved)
    requires lowered { AreLowered moved.now }
    requires few { length lists.old.held < 2 ^ 32 }
    requires pairs { length lists.old.held ≡ 2 * length nodes.old.attached.items }
    ensures pairs { length lists.new.held ≡ 2 * length nodes.new.attached.items }
    ensures lists { lists.new.lists ≡ lists.old.lists }
    ensures over { (vars : ℕ) → AreOf vars lists.old.held → AreOf vars lists.new.held }
    ensures renamed { AreRenamedBelow moved.now (length nodes.old.attached.items) lists.old.held nodes.old.attached.items lists.new.held nodes.new.attached.items }
{
    let count = nodes.attached.len();
    'all: for at in 0..count {
        move_one(nodes, lists, moved, at as u32);
    }
}

//! Listing the nodes of attached clauses anew.
ghost use Rattle.std.specs.Prelude.{◌≡◌, ◌<◌, ◌≤◌, ◌+◌, ◌*◌, ◌^◌, ℕ, [], length, take};
ghost use Rattle.watch_lists.specs.Lists.{list_at};
ghost use Rattle.watch_lists.specs.Walking.{AreListed};
ghost use Rattle.watch_lists.specs.Detaching.{AreLinked, HaveAttached, HaveLists};

use crate::lists::NodeLists;
use crate::nodes::Nodes;

/// Lists the nodes of one clause, where it is attached.
fn link_one(nodes: &Nodes, lists: &mut NodeLists, place: u32)
    requires room { place < length nodes.now.attached.items }
    requires small { 2 * place + 1 < 2 ^ 32 }
    requires pairs { length lists.old.held ≡ 2 * length nodes.now.attached.items }
    requires codes { HaveLists lists.old.held nodes.now.attached.items (length lists.old.lists) }
    requires linked { AreLinked lists.old.held (take place nodes.now.attached.items) lists.old.lists }
    ensures linked { AreLinked lists.old.held (take (place + 1) nodes.now.attached.items) lists.new.lists }
    ensures size { length lists.new.lists ≡ length lists.old.lists }
    ensures held { lists.new.held ≡ lists.old.held }
{
    if !nodes.attached[place as usize] {
        return;
    }
    let first = lists.watched(2 * place);
    let second = lists.watched(2 * place + 1);
    lists.link(2 * place, first.code());
    lists.link(2 * place + 1, second.code());
}

/// Lists the nodes of attached clauses, where the lists are empty.
pub(crate) fn link_all(nodes: &Nodes, lists: &mut NodeLists)
    requires pairs { length lists.old.held ≡ 2 * length nodes.now.attached.items }
    requires few { length lists.old.held < 2 ^ 32 }
    requires codes { HaveLists lists.old.held nodes.now.attached.items (length lists.old.lists) }
    requires cleared { (l : ℕ) → list_at lists.old.lists l ≡ [] }
    ensures listed { AreListed lists.old.held nodes.now.attached.items lists.new.lists }
    ensures alone { HaveAttached nodes.now.attached.items lists.new.lists }
    ensures size { length lists.new.lists ≡ length lists.old.lists }
    ensures held { lists.new.held ≡ lists.old.held }
{
    let count = nodes.attached.len();
    'all: for at in 0..count {
        link_one(nodes, lists, at as u32);
    }
}

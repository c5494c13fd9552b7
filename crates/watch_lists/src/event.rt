//! Propagation up to the end of the trail or a conflict.
ghost use Rattle.std.specs.Prelude.{◌≡◌, ◌≢◌, ◌<◌, ◌≤◌, ◌+◌, ◌*◌, ℕ, [], List, length, vec_capacity};
ghost use Rattle.clause_arena.specs.Clauses.{IsLive};
ghost use Rattle.watch_lists.specs.Watching.{IsAttached, Propagates};
ghost use Rattle.watch_lists.specs.Walking.{IsLooked};
ghost use Rattle.watch_lists.specs.Events.{Happens};

use crate::lists::NodeLists;
use crate::nodes::Nodes;
use crate::walk::walk_list;
use clause_arena::Arena;
use cx_base::ClauseRef;
use cx_trail::Trail;

/// What propagation came to.
#[derive(Clone, Copy, Debug, Drop)]
pub enum Event {
    /// Each attached clause has a true literal, or two different unassigned ones.
    Quiet,
    /// Each literal of this attached clause is false.
    Conflict(ClauseRef),
}

/// Reads what the walk for the literal at a place of the trail will begin with, if there is one.
#[inline(always)]
fn read_next(nodes: &mut Nodes, lists: &NodeLists, arena: &Arena, trail: &Trail, place: usize)
    requires live { (r : ℕ) → IsAttached nodes.old.attached.items r → IsLive arena.now r }
    requires pairs { length lists.now.held ≡ 2 * length nodes.old.attached.items }
    requires size { length lists.now.lists ≡ 2 * trail.now.variables + 2 }
    ensures { nodes.new.attached.items ≡ nodes.old.attached.items }
{
    if place < trail.len() {
        let falsified = trail.entry(place).literal.negate();
        let first = lists.front(falsified).current;
        nodes.ahead.read(&nodes.attached, lists, arena, first);
    }
}

/// Looks at each literal of the trail that was not looked at.
pub(crate) fn propagate(
    looked: &mut Vec<usize>,
    nodes: &mut Nodes,
    lists: &mut NodeLists,
    arena: &Arena,
    trail: &mut Trail,
) -> Event
    requires looked { IsLooked trail.old.variables looked.old.items lists.old.held nodes.old.attached.items lists.old.lists arena.now trail.old }
    requires top { length looked.old.items ≡ trail.old.level + 1 }
    ensures attached { nodes.new.attached.items ≡ nodes.old.attached.items }
    ensures top { length looked.new.items ≡ length looked.old.items }
    ensures looked { IsLooked trail.old.variables looked.new.items lists.new.held nodes.old.attached.items lists.new.lists arena.now trail.new }
    ensures propagates { Propagates nodes.old.attached.items arena.now trail.old trail.new }
    ensures room { vec_capacity looked.new ≡ vec_capacity looked.old }
    ensures happens { Happens nodes.old.attached.items arena.now trail.new result }
{
    let top = trail.level() as usize;
    'ahead: while looked[top] < trail.len() {
        let head = looked[top];
        let entry = trail.entry(head);
        read_next(nodes, lists, arena, trail, head + 1);
        match walk_list(nodes, lists, arena, trail, entry.literal.negate()) {
            Some(reference) => return Event::Conflict(reference),
            None => {
                // the trail is sound, which this call tells the proof
                let _count = trail.len();
                looked[top] = head + 1;
            }
        }
    }
    Event::Quiet
}

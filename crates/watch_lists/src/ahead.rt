//! Reading ahead.
ghost use Rattle.std.specs.Prelude.{◌≡◌, ◌*◌, ℕ, length};
ghost use Rattle.clause_arena.specs.Clauses.{IsLive};
ghost use Rattle.watch_lists.specs.Watching.{IsAttached};

use crate::lists::NodeLists;
use crate::nodes::third_of_short;
use clause_arena::Arena;
use cx_base::{ClauseRef, Lit, Var};

/// From how many clauses on it pays to read ahead. Fewer fit into the nearer caches, and to read them twice is only work.
const MANY: usize = 32_768;

/// What was read ahead: the literal that a node watches, and the first one of its clause.
///
/// A walk goes from node to node through links, and the node, its flag and its literals are each in a line of the cache of their own. There is no
/// instruction here that asks for a line, so they are read while the node before is visited, and kept so that no read is optimised away. Nothing
/// depends on them, and no proof speaks of them.
#[derive(Clone, Copy, Drop)]
pub(crate) struct Ahead {
    watched: Lit,
    first: Lit,
}

impl Ahead {
    /// Nothing was read.
    pub(crate) fn make() -> Ahead {
        let any = Lit::new(Var::new(1), false);
        Ahead {
            watched: any,
            first: any,
        }
    }

    /// Reads what a visit of a node will read. The number may be one of no node.
    #[inline(always)]
    pub(crate) fn read(&mut self, attached: &[bool], lists: &NodeLists, arena: &Arena, node: u32)
        requires live { (r : ℕ) → IsAttached attached.now r → IsLive arena.now r }
        requires pairs { length lists.now.held ≡ 2 * length attached.now }
    {
        let place = node as usize / 2;
        if attached.len() < MANY || place >= attached.len() {
            return;
        }
        self.watched = lists.watched(node);
        if attached[place] && third_of_short(lists, node).is_none() {
            self.read_clause(arena, ClauseRef::new(node / 2));
        }
    }

    /// Reads the first literal of a clause.
    #[inline(always)]
    fn read_clause(&mut self, arena: &Arena, reference: ClauseRef)
        requires { IsLive arena.now reference }
    {
        let lits = arena.lits(reference);
        if !lits.is_empty() {
            self.first = lits[0];
        }
    }
}

//! The live clauses, watched, over a trail of what they give.
ghost use Rattle.std.specs.Prelude.{◌≡◌, ◌+◌, ◌-◌, ◌/◌, ◌≤◌, nat_lt, length, IfOk, []};
ghost use Rattle.cx_base.specs.declared.literal.TheConstants.{MAX_VARIABLE};
ghost use Rattle.cx_semantics.specs.Tables.{Table};
ghost use Rattle.std.specs.FinMap as map;
ghost use Rattle.rup_engine.specs.Finding.{IsAtRest, Holds};

use clause_arena::Arena;
use cx_base::{ClauseRef, Lit};
use cx_trail::Trail;
use proof_rules::IdMap;
use std::alloc::{AllocError, Global};
use watch_lists::Watches;

/// Live clauses by references, watched, and a trail whose level 1 holds what they give by themselves.
///
/// Level 1 and level 2 begin with a variable that no clause has. What a target gives is at level 2,
/// and is taken back when a search ends. Level 1 stays until a clause that it rests on goes.
#[derive(Drop)]
pub struct Engine {
    pub limit: u32,
    pub arena: Arena,
    pub watches: Watches,
    pub trail: Trail,
    /// The reference of each id.
    pub refs: IdMap<ClauseRef>,
    /// The clauses of at most one different literal. References of clauses that have gone may be here too.
    pub short: Vec<ClauseRef>,
    /// How many clauses have gone.
    pub gone: u64,
    /// The clause that is about to be stored.
    pub row: Vec<Lit>,
    /// A clause whose literals are all false at level 1, if one is known. Level 1 may lack what the short clauses give then.
    pub broken: Option<ClauseRef>,
    /// For each variable a clause that came with just one literal of it. It may have gone since.
    pub units: Vec<Option<ClauseRef>>,
    /// How many hints the chains had that ended with a clause that level 1 makes false, since it was last taken back.
    pub hints: u64,
}

/// The clauses that a search reads.
#[derive(Drop)]
pub(crate) struct LiveClauses<'c> {
    /// No variable of a clause is greater.
    pub limit: u32,
    pub arena: &'c Arena,
    /// For each variable a clause that came with just one literal of it. It may have gone since.
    pub units: &'c [Option<ClauseRef>],
}

impl Engine {
    /// No clause is held; there is room for variables up to the limit.
    pub fn make(alloc: Global, limit: u32) -> Result<Engine, AllocError>
        requires { limit + 2 ≤ MAX_VARIABLE }
        ensures rest { IfOk result IsAtRest }
        ensures limit { IfOk result (λ e. e.limit ≡ limit) }
        ensures holds { IfOk result (λ e. (table : Table) → table ≡ map.empty → Holds table e) }
    {
        let trail = Trail::make(alloc, limit + 2)?;
        let watches = Watches::make(alloc, limit + 2)?;
        let mut units = Vec::new(alloc);
        units.resize(limit as usize + 1, None)?;
        Ok(Engine {
            limit,
            arena: Arena::make(alloc),
            watches,
            trail,
            refs: IdMap::new(alloc),
            short: Vec::new(alloc),
            gone: 0,
            row: Vec::new(alloc),
            broken: None,
            units,
            hints: 0,
        })
    }

    /// Whether more than a thousand clauses have gone, and half as many besides as are live: it is to be made anew then.
    pub fn is_worn(&self) -> bool
        ensures { result ≡ nat_lt (1000 + (length self.now.arena.clauses - self.now.gone) / 2) self.now.gone }
    {
        let live = (self.arena.len() as u64).saturating_sub(self.gone);
        1000 + live / 2 < self.gone
    }
}

//! An engine over the clauses that chains used lately, and those that came lately.
ghost use Rattle.std.specs.Prelude.{◌≡◌, ◌≤◌, ◌+◌, IfOk, IfSome, MatchOption, None, Some};
ghost use Rattle.cx_base.specs.declared.literal.TheConstants.{MAX_VARIABLE};
ghost use Rattle.cx_semantics.specs.Chain.{IsChain};
ghost use Rattle.cx_semantics.specs.LogRules.{AreLive};
ghost use Rattle.cx_semantics.specs.Tables.{Table, named};
ghost use Rattle.rup_finder.specs.Recent.{IsRecent};

use crate::ready::{ask, keep_if, keep_within, put_live, start};
use cx_base::{IdList, Lit};
use proof_rules::{Kind, Live};
use rup_engine::{Answer, Engine};
use std::alloc::{AllocError, Global};

/// Above this limit of variables there is no recent engine, since its tables would double the memory.
const MAX_RECENT_VARIABLE: u32 = 1 << 20;

/// Nor is there one where the clauses of at most one different literal, and what they give, are more together: a clause that is let
/// in may have all of that propagated anew.
const MAX_OPENING: usize = 4_000;

/// The clauses among which nearly every chain is found: those of the chains before, and those that came lately.
#[derive(Drop)]
pub struct Recent {
    /// None before the first chain, once memory ran out, and where it is to be made anew.
    pub engine: Option<Engine>,
    /// At how many clauses of its arena the engine is made anew.
    full: usize,
    /// The hints of the chains since the engine was made, maybe with repeats.
    used: Vec<u64>,
    /// At how many hints the repeats are taken out.
    crowded: usize,
}

/// The limit of variables of a recent engine beside this one over all live clauses; none where there is to be none.
pub fn limit_beside(all: &Option<Engine>) -> Option<u32>
    ensures { IfSome result (λ limit. limit + 2 ≤ MAX_VARIABLE) }
{
    let all = match all {
        Some(all) => all,
        None => return None,
    };
    let opening = all.trail.len().saturating_add(all.short.len());
    if all.limit > MAX_RECENT_VARIABLE || opening > MAX_OPENING {
        None
    } else {
        Some(all.limit)
    }
}

/// The ids of live clauses alone, rising and each once.
fn thin(live: &Live, used: &mut Vec<u64>) {
    used.sort_unstable();
    used.dedup();
    used.retain(|id| live.has(Kind::Clauses, *id));
}

/// Whether the engine has the clause of this id.
fn is_in(engine: &Option<Engine>, id: u64) -> bool {
    match engine {
        Some(engine) => engine.refs.get(id).is_some(),
        None => false,
    }
}

/// The live clause of an id comes in, unless it is in.
fn put_used(engine: &mut Option<Engine>, live: &Live, id: u64) -> Result<(), AllocError>
    requires { IsRecent live.now.clauses engine.old }
    ensures { IsRecent live.now.clauses engine.new }
{
    if is_in(engine, id) {
        return Ok(());
    }
    put_live(engine, live, id)
}

/// The live clauses of these ids come in.
fn put_all_used(engine: &mut Option<Engine>, live: &Live, ids: &[u64]) -> Result<(), AllocError>
    requires { IsRecent live.now.clauses engine.old }
    ensures { IsRecent live.now.clauses engine.new }
{
    for id in ids {
        put_used(engine, live, *id)?;
    }
    Ok(())
}

impl Recent {
    /// No clause was used yet.
    pub fn make(alloc: Global) -> Recent
        ensures { result.engine ≡ None }
    {
        Recent {
            engine: None,
            full: 0,
            used: Vec::new(alloc),
            crowded: 0,
        }
    }

    /// A full engine goes: it is to be made anew.
    fn keep_unless_full(&mut self)
        ensures { (table : Table) → IsRecent table self.old.engine → IsRecent table self.new.engine }
    {
        let full = match &self.engine {
            Some(engine) => engine.arena.len() >= self.full,
            None => false,
        };
        keep_if(!full, &mut self.engine);
    }

    /// Notes the hints of a chain.
    fn note(&mut self, live: &Live, ids: &[u64]) -> Result<(), AllocError>
        ensures { self.new.engine ≡ self.old.engine }
    {
        self.used.extend_from_slice(ids)?;
        if self.used.len() > self.crowded {
            thin(live, &mut self.used);
            // So the memory follows the clauses, and not the hints.
            self.crowded = self.used.len().saturating_mul(2).saturating_add(4_000);
        }
        Ok(())
    }

    /// A list of recent clauses that is a right chain for the target; none says nothing.
    pub fn find(
        &mut self,
        alloc: Global,
        live: &Live,
        target: &[Lit],
    ) -> Result<Option<IdList>, AllocError>
        requires { IsRecent live.now.clauses self.old.engine }
        ensures recent { IsRecent live.now.clauses self.new.engine }
        ensures found { IfOk result (λ found. MatchOption found (Unit {0}) (λ ids. AreLive live.now.clauses ids × IsChain target.now (named live.now.clauses ids))) }
    {
        self.keep_unless_full();
        keep_within(&mut self.engine, target);
        match ask(&mut self.engine, alloc, target)? {
            Answer::Chain(ids) => {
                self.note(live, ids.as_slice())?;
                Ok(Some(ids))
            }
            Answer::NoChain => Ok(None),
            Answer::Untold => Ok(None),
        }
    }

    /// The engine is about to be one with just the clauses that are noted: what is used is noted anew.
    fn start_over(&mut self, limit: u32)
        ensures { self.new.engine ≡ self.old.engine }
    {
        let kept = self.used.len();
        // The clauses that come until it is full pay for those that enter the next engine, and for its tables.
        self.full = kept
            .saturating_add(kept / 2)
            .saturating_add(1_000 + limit as usize / 8);
        self.used.clear();
    }

    /// An engine of what was used comes in the place of none.
    fn gather(&mut self, alloc: Global, live: &Live, limit: u32) -> Result<(), AllocError>
        requires limit { limit + 2 ≤ MAX_VARIABLE }
        requires recent { IsRecent live.now.clauses self.old.engine }
        ensures { IsRecent live.now.clauses self.new.engine }
    {
        thin(live, &mut self.used);
        start(&mut self.engine, alloc, limit)?;
        put_all_used(&mut self.engine, live, &self.used)?;
        self.start_over(limit);
        Ok(())
    }

    /// Lets in the clauses of a chain that a search over all live clauses gave. An engine that is lacking is made of what
    /// was used since the last one was. Without a limit of variables there is none from now on.
    pub fn learn(
        &mut self,
        alloc: Global,
        live: &Live,
        limit: Option<u32>,
        answer: &Answer,
    ) -> Result<(), AllocError>
        requires limit { IfSome limit (λ limit. limit + 2 ≤ MAX_VARIABLE) }
        requires recent { IsRecent live.now.clauses self.old.engine }
        ensures { IsRecent live.now.clauses self.new.engine }
    {
        let ids = match answer {
            Answer::Chain(ids) => ids.as_slice(),
            Answer::NoChain => return Ok(()),
            Answer::Untold => return Ok(()),
        };
        let limit = match limit {
            Some(limit) => limit,
            None => {
                keep_if(false, &mut self.engine);
                return Ok(());
            }
        };
        self.note(live, ids)?;
        if self.engine.is_some() {
            put_all_used(&mut self.engine, live, ids)
        } else {
            self.gather(alloc, live, limit)
        }
    }
}

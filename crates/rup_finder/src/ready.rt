//! An engine that is ready for a search.
ghost use Rattle.std.specs.Prelude.{◌≡◌, ◌≤◌, ◌+◌, IfOk, OnOk, OnErr, MatchOption, Some, None, true, false, is_ok};
ghost use Rattle.std.specs.FinMap as map;
ghost use Rattle.cx_semantics.specs.Moves.{moved};
ghost use Rattle.cx_semantics.specs.Tables.{Table, get};
ghost use Rattle.cx_base.specs.declared.literal.TheConstants.{MAX_VARIABLE};
ghost use Rattle.proof_rules.specs.Kinds.{ListsLive};
ghost use Rattle.rup_engine.specs.Moving.{AreApart};
ghost use Rattle.rup_engine.specs.Standing.{IsWithin};
ghost use Rattle.rup_engine.specs.Finding.{IsAtRest, Holds, Answers};
ghost use Rattle.rup_finder.specs.Ready.{IsReady, IsReadyFor};

use cx_base::{IdMove, Lit, MAX_VARIABLE};
use proof_rules::Live;
use rup_engine::{Answer, Engine};
use std::alloc::{AllocError, Global};

/// Whether each variable is within the limit.
fn are_within(limit: u32, lits: &[Lit]) -> bool
    ensures { result ≡ true → IsWithin limit lits.now }
{
    for lit in lits {
        if lit.var().number() > limit {
            return false;
        }
    }
    true
}

/// The greatest of a number and the variables.
fn greatest(so_far: u32, lits: &[Lit]) -> u32 {
    let mut greatest = so_far;
    for lit in lits {
        let number = lit.var().number();
        if number > greatest {
            greatest = number;
        }
    }
    greatest
}

/// A limit that leaves room for larger variables than those that are written.
fn roomy(top: u32) -> Option<u32>
    ensures { MatchOption result (Unit {0}) (λ limit. limit + 2 ≤ MAX_VARIABLE) }
{
    if top > MAX_VARIABLE - 2 {
        return None;
    }
    if top < MAX_VARIABLE / 4 {
        return Some(2 * top + 64);
    }
    Some(MAX_VARIABLE - 2)
}

/// Lets the engine go, unless it is to stay.
pub fn keep_if(stays: bool, engine: &mut Option<Engine>)
    ensures stays { stays ≡ true → engine.new ≡ engine.old }
    ensures goes { stays ≡ false → engine.new ≡ None }
{
    if !stays {
        // By a call, since in place each vector in it is a step of the proof.
        drop(engine.take());
    }
}

/// An engine that was made comes in the place of what is there. Without memory nothing changes.
// Of any type: an engine has many parts, of which the proof is to know nothing here.
fn put_made<T: Drop>(engine: &mut Option<T>, made: Result<T, AllocError>) -> Result<(), AllocError>
    ensures made { IfOk made (λ made. engine.new ≡ Some made) }
    ensures same { is_ok result ≡ is_ok made }
    ensures err { OnErr result (engine.new ≡ engine.old) }
{
    match made {
        Ok(made) => {
            *engine = Some(made);
            Ok(())
        }
        Err(AllocError) => Err(AllocError),
    }
}

/// An engine that holds no clause comes in the place of what is there. Without memory nothing changes.
pub fn start(engine: &mut Option<Engine>, alloc: Global, limit: u32) -> Result<(), AllocError>
    requires { limit + 2 ≤ MAX_VARIABLE }
    ensures ok { OnOk result (IsReady map.empty engine.new) }
    ensures err { OnErr result (engine.new ≡ engine.old) }
{
    put_made(engine, Engine::make(alloc, limit))
}

/// The clause of this id comes in the place of what was under it, unless it has too large a variable; tells whether it is in.
fn enter(engine: &mut Engine, id: u64, lits: &[Lit]) -> Result<bool, AllocError>
    requires { IsAtRest engine.old }
    ensures { IfOk result (λ entered. entered ≡ true → IsAtRest engine.new × ((table : Table) → Holds table engine.old → Holds (map.insert table id lits.now) engine.new)) }
{
    if !are_within(engine.limit, lits) {
        return Ok(false);
    }
    engine.forget(id);
    engine.enter(id, lits)?;
    Ok(true)
}

/// The clause of this id comes into an engine, in the place of what was under it. Where it has too large a variable, and
/// without memory, the engine goes.
pub fn put_in(engine: &mut Option<Engine>, id: u64, lits: &[Lit]) -> Result<(), AllocError>
    requires { (table : Table) × IsReady table engine.old }
    ensures { (table : Table) → IsReady table engine.old → IsReady (map.insert table id lits.now) engine.new }
{
    let entered = match engine {
        Some(held) => enter(held, id, lits),
        None => Ok(true),
    };
    match entered {
        Ok(stays) => {
            keep_if(stays, engine);
            Ok(())
        }
        Err(AllocError) => {
            keep_if(false, engine);
            Err(AllocError)
        }
    }
}

/// The greatest variable of the live clauses and the target.
fn top_of(alloc: Global, live: &Live, target: &[Lit]) -> Result<u32, AllocError> {
    let mut top = greatest(1, target);
    let ids = live.clause_ids(alloc)?.into_vec();
    for id in &ids {
        if let Some(clause) = live.clause(*id) {
            top = greatest(top, clause);
        }
    }
    Ok(top)
}

/// The live clause of an id comes in.
pub fn put_live(engine: &mut Option<Engine>, live: &Live, id: u64) -> Result<(), AllocError>
    requires { (part : Table) × IsReady part engine.old }
    ensures { (part : Table) → IsReady part engine.old → MatchOption (get live.now.clauses id) (IsReady part engine.new) (λ lits. IsReady (map.insert part id lits) engine.new) }
{
    match live.clause(id) {
        Some(clause) => put_in(engine, id, clause),
        None => Ok(()),
    }
}

/// All live clauses, which the ids list, come into an engine that holds none. Where one has too large a variable, the engine goes.
fn put_all_live(engine: &mut Option<Engine>, live: &Live, ids: &[u64]) -> Result<(), AllocError>
    requires empty { IsReady map.empty engine.old }
    requires all { ListsLive live.now.clauses ids.now }
    ensures { OnOk result (IsReady live.now.clauses engine.new) }
{
    for id in ids {
        put_live(engine, live, *id)?;
    }
    Ok(())
}

/// Makes an engine with all live clauses; none where one has too large a variable.
fn build(
    engine: &mut Option<Engine>,
    alloc: Global,
    live: &Live,
    limit: u32,
) -> Result<(), AllocError>
    requires { limit + 2 ≤ MAX_VARIABLE }
    ensures { OnOk result (IsReady live.now.clauses engine.new) }
{
    start(engine, alloc, limit)?;
    let ids = live.clause_ids(alloc)?;
    put_all_live(engine, live, ids.as_slice())
}

/// Makes an engine with all live clauses and room for the target's variables, where there is none; none where variables are too
/// large.
fn anew(
    engine: &mut Option<Engine>,
    alloc: Global,
    live: &Live,
    target: &[Lit],
) -> Result<(), AllocError>
    requires { engine.old ≡ None }
    ensures { OnOk result (IsReady live.now.clauses engine.new) }
{
    match roomy(top_of(alloc, live, target)?) {
        Some(limit) => build(engine, alloc, live, limit),
        None => Ok(()),
    }
}

/// The engine goes, unless it has room for the target.
pub fn keep_within(engine: &mut Option<Engine>, target: &[Lit])
    ensures { (table : Table) → IsReady table engine.old → IsReadyFor table target.now engine.new }
{
    let within = match engine {
        Some(held) => are_within(held.limit, target),
        None => true,
    };
    keep_if(within, engine);
}

/// Makes an engine ready for the target: the one at hand, or a new one; none where variables are too large.
pub fn ready(
    engine: &mut Option<Engine>,
    alloc: Global,
    live: &Live,
    target: &[Lit],
) -> Result<(), AllocError>
    requires { IsReady live.now.clauses engine.old }
    ensures { IsReadyFor live.now.clauses target.now engine.new }
{
    keep_within(engine, target);
    if engine.is_some() {
        return Ok(());
    }
    let made = anew(engine, alloc, live, target);
    keep_if(made.is_ok(), engine);
    keep_within(engine, target);
    made
}

/// The answer of the engine; nothing is told where there is none. Without memory the engine goes.
pub fn ask(engine: &mut Option<Engine>, alloc: Global, target: &[Lit]) -> Result<Answer, AllocError>
    requires { (table : Table) × IsReadyFor table target.now engine.old }
    ensures ready { (table : Table) → IsReadyFor table target.now engine.old → IsReady table engine.new }
    ensures answers { IfOk result (λ answer. (table : Table) → IsReadyFor table target.now engine.old → Answers table target.now answer) }
{
    let answer = match engine {
        Some(held) => held.find(alloc, target),
        None => Ok(Answer::Untold),
    };
    keep_if(answer.is_ok(), engine);
    answer
}

/// The clause of this id goes out of an engine. A worn engine goes too, so that memory follows the live clauses: the next
/// search makes one anew, at the cost of the clauses that went since the last one was made.
pub fn take_out(engine: &mut Option<Engine>, id: u64)
    requires { (table : Table) × IsReady table engine.old }
    ensures { (table : Table) → IsReady table engine.old → IsReady (map.remove table id) engine.new }
{
    let stays = match engine {
        Some(held) => {
            held.forget(id);
            !held.is_worn()
        }
        None => true,
    };
    keep_if(stays, engine);
}

/// Clauses of an engine come under other ids, all at once. Without memory the engine goes.
pub fn move_in(engine: &mut Option<Engine>, alloc: Global, moves: &[IdMove])
    requires { (table : Table) × AreApart table moves.now × IsReady table engine.old }
    ensures { (table : Table) → AreApart table moves.now → IsReady table engine.old → IsReady (moved table moves.now) engine.new }
{
    let done = match engine {
        Some(held) => held.move_ids(alloc, moves),
        None => Ok(()),
    };
    keep_if(done.is_ok(), engine);
}

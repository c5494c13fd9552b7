//! An engine that is driven by acts, with its values kept beside it.
ghost use Rattle.std.specs.Prelude.{◌≡◌, ◌≢◌, ◌≤◌, IfOk, length, map, true};
ghost use Rattle.std.specs.List.{AllByRecursion};
ghost use Rattle.cx_base.specs.Problem.{AreWithin};
ghost use Rattle.cx_base.specs.declared.literal.TheConstants.{MAX_VARIABLE};
ghost use Rattle.parity_engine.specs.declared.state.Mood.TheVariants.{Broken, Calm};
ghost use Rattle.parity_engine.specs.State.{held_at, is_unassigned, keep};
ghost use Rattle.parity_driver.specs.Driven.{IsAt};

use cx_base::{IdList, Lit, LitList, ParityList};
use parity_driver::{assign, back_to, open, set};
use parity_engine::{Held, ParityEngine, ParityEvent, nothing_held};
use std::alloc::{AllocError, Global};

/// What is done where nothing follows.
#[derive(Clone, Copy, Drop)]
pub(crate) enum Act {
    /// A level is opened.
    Open,
    /// A literal is assigned, if its variable is not.
    Set(Lit),
    /// The levels above this one are taken back.
    Back(u32),
}

/// A literal that followed, and its row: as a parity, and by its sources.
#[derive(Drop)]
pub(crate) struct Told {
    pub literal: Lit,
    pub parity: LitList,
    pub sources: IdList,
}

/// What one event left.
#[derive(Clone, Copy, Drop)]
enum Outcome {
    Quiet,
    Assigned,
    Broken,
}

/// Takes one event, tells the literal that it implies, and assigns that.
fn take_event<P: ParityEngine>(
    engine: &mut P,
    held: &mut [Option<Held>],
    level: u32,
    told: &mut Vec<Told>,
) -> Result<Outcome, AllocError>
    requires at { IsAt (P.state engine.old) level held.old }
    ensures at { IfOk result (λ _. IsAt (P.state engine.new) level held.new) }
    ensures quiet { IfOk result (λ o. o ≡ Outcome.Quiet → (P.state engine.new).mood ≡ Calm) }
{
    match engine.next_event() {
        ParityEvent::Quiet => Ok(Outcome::Quiet),
        ParityEvent::Conflict(_) => Ok(Outcome::Broken),
        ParityEvent::Implied(literal, row) => {
            let parity = engine.row_parity(row)?;
            let sources = engine.row_sources(row)?;
            told.push(Told {
                literal,
                parity,
                sources,
            })?;
            assign(engine, held, level, literal);
            Ok(Outcome::Assigned)
        }
    }
}

/// Takes events until nothing follows. Whether there was no contradiction.
fn settle<P: ParityEngine>(
    engine: &mut P,
    held: &mut [Option<Held>],
    level: u32,
    told: &mut Vec<Told>,
) -> Result<bool, AllocError>
    requires { IsAt (P.state engine.old) level held.old }
    ensures at { IfOk result (λ _. IsAt (P.state engine.new) level held.new) }
    ensures quiet { IfOk result (λ quiet. quiet ≡ true → (P.state engine.new).mood ≡ Calm) }
{
    for _ in 0..held.len() + 1 {
        match take_event(engine, held, level, told)? {
            Outcome::Quiet => return Ok(true),
            Outcome::Broken => return Ok(false),
            Outcome::Assigned => {}
        }
    }
    Ok(false)
}

/// Does the act; after a contradiction a level is taken back in its place. The level then.
fn take_act<P: ParityEngine>(
    alloc: Global,
    engine: &mut P,
    held: &mut Vec<Option<Held>>,
    level: u32,
    quiet: bool,
    act: Act,
) -> Result<u32, AllocError>
    requires at { IsAt (P.state engine.old) level held.old.items }
    requires calm { quiet ≡ true → (P.state engine.old).mood ≡ Calm }
    ensures { IfOk result (λ l. IsAt (P.state engine.new) l held.new.items) }
{
    if !quiet {
        return back_to(alloc, engine, held, level, level.saturating_sub(1));
    }
    match act {
        Act::Open => Ok(open(engine, held, level)),
        Act::Set(literal) => {
            set(engine, held, level, literal);
            Ok(level)
        }
        Act::Back(to) => back_to(alloc, engine, held, level, to),
    }
}

/// Writes what is known: a contradiction, or the value of each variable that has one.
fn note(trace: &mut String, quiet: bool, held: &[Option<Held>]) -> Result<(), AllocError> {
    if !quiet {
        return trace.push_str("contradiction\n");
    }
    for value in held {
        trace.push(match value {
            None => '.',
            Some(h) if h.value => '+',
            Some(_) => '-',
        })?;
    }
    trace.push('\n')
}

/// Notes what the engine knows where nothing more follows, and does the act. The level then.
fn take_turn<P: ParityEngine>(
    alloc: Global,
    engine: &mut P,
    held: &mut Vec<Option<Held>>,
    level: u32,
    told: &mut Vec<Told>,
    trace: &mut String,
    act: Act,
) -> Result<u32, AllocError>
    requires { IsAt (P.state engine.old) level held.old.items }
    ensures { IfOk result (λ l. IsAt (P.state engine.new) l held.new.items) }
{
    let quiet = settle(engine, held, level, told)?;
    note(trace, quiet, held)?;
    take_act(alloc, engine, held, level, quiet, act)
}

/// Notes what the engine knows before each act and after the last one.
fn take_turns<P: ParityEngine>(
    alloc: Global,
    engine: &mut P,
    held: &mut Vec<Option<Held>>,
    told: &mut Vec<Told>,
    trace: &mut String,
    acts: &[Act],
) -> Result<(), AllocError>
    requires { IsAt (P.state engine.old) 0 held.old.items }
{
    let mut level = 0;
    for act in acts {
        level = take_turn(alloc, engine, held, level, told, trace, *act)?;
    }
    let quiet = settle(engine, held, level, told)?;
    note(trace, quiet, held)
}

/// What the engine knows before each act and after the last one. What followed is told.
pub(crate) fn trace_of<P: ParityEngine + Drop>(
    alloc: Global,
    vars: u32,
    parities: &ParityList,
    acts: &[Act],
    told: &mut Vec<Told>,
) -> Result<String, AllocError>
    requires few { vars ≤ MAX_VARIABLE }
    requires within { AllByRecursion (AreWithin vars) parities.now }
{
    let mut engine = P::make(alloc, vars, parities)?;
    let mut held = nothing_held(alloc, vars as usize)?;
    let mut trace = String::new(alloc);
    take_turns(alloc, &mut engine, &mut held, told, &mut trace, acts)?;
    Ok(trace)
}

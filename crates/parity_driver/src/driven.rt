//! What is done to an engine, with its values kept beside it.
ghost use Rattle.std.specs.Prelude.{◌≡◌, ◌≢◌, ◌≤◌, IfOk, length, map, true};
ghost use Rattle.cx_base.specs.declared.literal.TheConstants.{MAX_VARIABLE};
ghost use Rattle.parity_engine.specs.declared.state.Mood.TheVariants.{Broken, Calm};
ghost use Rattle.parity_engine.specs.State.{held_at, is_unassigned, keep};
ghost use Rattle.parity_driver.specs.Driven.{IsAt};

use cx_base::{Lit, MAX_VARIABLE};
use parity_engine::{Held, ParityEngine};
use std::alloc::{AllocError, Global};

/// Assigns the literal, in the engine and beside it.
pub fn assign<P: ParityEngine>(engine: &mut P, held: &mut [Option<Held>], level: u32, literal: Lit)
    requires at { IsAt (P.state engine.old) level held.old }
    requires within { literal.variable ≤ length held.old }
    requires unassigned { is_unassigned (held_at held.old literal.variable) ≡ true }
    requires no_conflict { (P.state engine.old).mood ≢ Broken }
    ensures at { IsAt (P.state engine.new) level held.new }
{
    let value = !literal.is_negative();
    engine.assign(literal.var(), value);
    held[(literal.var().number() - 1) as usize] = Some(Held { value, level });
}

/// The value, if its level is not above this one.
fn kept(held: Option<Held>, level: u32) -> Option<Held>
    ensures { result ≡ keep level held }
{
    match held {
        Some(h) if h.level <= level => Some(h),
        _ => None,
    }
}

/// The values whose levels are not above this one.
fn kept_values(
    alloc: Global,
    held: &[Option<Held>],
    level: u32,
) -> Result<Vec<Option<Held>>, AllocError>
    ensures { IfOk result (λ values. values.items ≡ map (keep level) held.now) }
{
    held.iter().map(|h| kept(*h, level)).collect(alloc)
}

/// Takes back the levels above a lower one, in the engine and beside it. The level then.
pub fn back_to<P: ParityEngine>(
    alloc: Global,
    engine: &mut P,
    held: &mut Vec<Option<Held>>,
    level: u32,
    to: u32,
) -> Result<u32, AllocError>
    requires { IsAt (P.state engine.old) level held.old.items }
    ensures { IfOk result (λ l. IsAt (P.state engine.new) l held.new.items) }
{
    if to >= level {
        return Ok(level);
    }
    engine.back_to(to);
    *held = kept_values(alloc, held, to)?;
    Ok(to)
}

/// Opens a level, if there are more variables than levels. The level then.
pub fn open<P: ParityEngine>(engine: &mut P, held: &[Option<Held>], level: u32) -> u32
    requires at { IsAt (P.state engine.old) level held.now }
    requires calm { (P.state engine.old).mood ≡ Calm }
    ensures { IsAt (P.state engine.new) result held.now }
{
    if level >= MAX_VARIABLE || level as usize >= held.len() {
        return level;
    }
    engine.push_level();
    level + 1
}

/// Assigns the literal, if its variable is there and not assigned.
pub fn set<P: ParityEngine>(engine: &mut P, held: &mut [Option<Held>], level: u32, literal: Lit)
    requires at { IsAt (P.state engine.old) level held.old }
    requires calm { (P.state engine.old).mood ≡ Calm }
    ensures { IsAt (P.state engine.new) level held.new }
{
    let place = (literal.var().number() - 1) as usize;
    if place < held.len() && held[place].is_none() {
        assign(engine, held, level, literal);
    }
}

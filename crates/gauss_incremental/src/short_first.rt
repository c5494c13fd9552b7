//! An engine that looks at short parities as they were given before it looks at the rows of its matrix.
//!
//! A reduced row is a sum of many parities, and so the reasons that it gives are long. Where a short parity says it, its
//! reason is short, and so are the clauses that are learned from it.
ghost use Rattle.std.specs.Prelude.{◌≡◌, ◌≢◌, ◌+◌, ◌<◌, ◌^◌, IfOk, IsSome, Some, length, slice_set};
ghost use Rattle.std.specs.List.{AllByRecursion};
ghost use Rattle.cx_base.specs.declared.literal.TheConstants.{MAX_VARIABLE};
ghost use Rattle.cx_base.specs.Problem.{AreWithin};
ghost use Rattle.parity_engine.specs.State.{Reports};
ghost use Rattle.gauss_incremental.specs.declared.short_first.Told.{Told};
ghost use Rattle.gauss_incremental.specs.declared.short_first.Told.TheVariants.{ByMatrix};
ghost use Rattle.gauss_incremental.specs.ShortFirst.{AreNewShorts, AreShortsOf, IsFoundShort, IsFree, IsShort, naming_of, with_shorts};

use crate::gates::are_gates;
use crate::incremental::Incremental;
use crate::looks::{Looks, ShortFinding, find};
use crate::names::RowNames;
use crate::shorts::{Short, number_at, parity_at, shorts_of};
use cx_base::{IdList, LitList, ParityList, Row, Var};
use parity_engine::{Naming, ParityEngine, ParityEvent};
use std::alloc::{AllocError, Global};
use std::marker::Model;

/// What told the last event, if nothing was assigned and no level taken back since.
#[derive(Clone, Copy, Drop)]
pub(crate) enum Told {
    /// The matrix, or there was none: the mood is the matrix's.
    ByMatrix,
    /// A short parity that implies a literal.
    ByUnit,
    /// The short parity at this place, which is not met.
    ByUnmet(usize),
}

/// An engine with a matrix, and the short ones of its parities beside it. Their rows come after those of the matrix.
///
/// Only the matrix says that nothing follows: a short parity that is not looked at costs nothing but time.
#[derive(Drop)]
pub struct ShortFirst {
    alloc: Global,
    engine: Incremental,
    shorts: Vec<Short>,
    looks: Looks,
    named: RowNames,
    told: Told,
}

impl Model for ShortFirst {
    ghost use Rattle.parity_engine.specs.State.{State};
    ghost use Rattle.gauss_jordan.specs.Stored.{state_code};

    ghost Value = { State };

    ghost coded = { state_code };

    ghost use Rattle.gauss_incremental.specs.ShortFirst.{AreShortsOf, with_shorts};

    ghost view = { λ s. with_shorts s.engine.state s.shorts.items s.named s.told };

    ghost invariant = { λ s. AreShortsOf s.engine.state s.shorts.items s.named s.told };
}

impl ParityEngine for ShortFirst {
    ghost state = { λ s. s };

    fn make(alloc: Global, vars: u32, parities: &ParityList) -> Result<Self, AllocError> {
        let engine = Incremental::make(alloc, vars, parities)?;
        match shorts_beside(alloc, vars, parities, &engine) {
            Ok((shorts, looks, named)) => Ok(ShortFirst {
                alloc,
                engine,
                shorts,
                looks,
                named,
                told: Told::ByMatrix,
            }),
            Err(AllocError) => {
                // By a call, since in place each vector in it is a step of the proof.
                drop(engine);
                Err(AllocError)
            }
        }
    }

    fn assign(&mut self, var: Var, value: bool) {
        self.engine.assign(var, value);
        self.looks.assign((var.number() - 1) as usize, value);
        self.told = Told::ByMatrix;
    }

    fn next_event(&mut self) -> ParityEvent {
        if let Told::ByUnmet(place) = self.told {
            return ParityEvent::Conflict(row_of(&self.engine, &self.shorts, place));
        }
        let finding = find(&self.engine, &self.shorts, &self.named, &mut self.looks);
        let (event, told) = answer(&mut self.engine, &self.shorts, &mut self.named, finding);
        self.told = told;
        event
    }

    fn push_level(&mut self) {
        self.engine.push_level();
    }

    fn back_to(&mut self, level: u32) {
        let before = self.engine.count();
        self.engine.back_to(level);
        self.named.forget_above(level);
        self.looks.take_back(&self.engine, before);
        self.told = Told::ByMatrix;
    }

    fn mark_basic(&self, basic: &mut [bool]) {
        self.engine.mark_basic(basic);
    }

    fn row_parity(&self, row: Row) -> Result<LitList, AllocError> {
        let place = row.place() as usize;
        let rows = self.engine.rows();
        if place < rows {
            return self.engine.row_parity(row);
        }
        parity_at(self.alloc, &self.shorts, place - rows)
    }

    fn row_sources(&self, row: Row) -> Result<IdList, AllocError> {
        let place = row.place() as usize;
        let rows = self.engine.rows();
        if place < rows {
            return self.engine.row_sources(row);
        }
        number_at(self.alloc, &self.shorts, place - rows)
    }
}

/// The short parities that are looked at, or none where the parities are not like gates, or where rows would have
/// no numbers for them.
fn kept_shorts(
    alloc: Global,
    vars: u32,
    parities: &ParityList,
    engine: &Incremental,
) -> Result<Vec<Short>, AllocError>
    requires { AllByRecursion (AreWithin vars) parities.now }
    ensures each { IfOk result (λ v. AllByRecursion (IsShort vars parities.now) v.items) }
    ensures few { IfOk result (λ v. length engine.now.state.named + length v.items < 2 ^ 32) }
{
    let rows = engine.rows();
    if !are_gates(engine.matrix(), parities) {
        return Ok(Vec::new(alloc));
    }
    let shorts = shorts_of(alloc, vars, parities)?;
    if shorts.len() < (1 << 32) - rows {
        Ok(shorts)
    } else {
        Ok(Vec::new(alloc))
    }
}

/// The short parities that are looked at beside an engine, what their looks keep, and no name of any.
fn shorts_beside(
    alloc: Global,
    vars: u32,
    parities: &ParityList,
    engine: &Incremental,
) -> Result<(Vec<Short>, Looks, RowNames), AllocError>
    requires { AllByRecursion (AreWithin vars) parities.now }
    ensures { IfOk result (λ made. AreNewShorts vars parities.now engine.now.state made.0.items made.2) }
{
    let shorts = kept_shorts(alloc, vars, parities, engine)?;
    let looks = Looks::make(alloc, vars, &shorts)?;
    let named = RowNames::make(alloc, shorts.len())?;
    Ok((shorts, looks, named))
}

/// The row of the short parity at a place.
fn row_of(engine: &Incremental, shorts: &[Short], place: usize) -> Row
    requires place_in { place < length shorts.now }
    requires few { length engine.now.state.named + length shorts.now < 2 ^ 32 }
    ensures { result ≡ length engine.now.state.named + place }
{
    let _count = shorts.len();
    Row::new((engine.rows() + place) as u32)
}

/// Names the short parity at a place for an event, and tells its row.
fn name_short(
    engine: &Incremental,
    shorts: &[Short],
    named: &mut RowNames,
    place: usize,
    in_conflict: bool,
) -> Row
    requires shorts { AreShortsOf engine.now.state shorts.now named.old ByMatrix }
    requires free { IsFree engine.now.state shorts.now named.old place }
    ensures named { named.new ≡ slice_set named.old place (Some (naming_of engine.now.state in_conflict)) }
    ensures row { result ≡ length engine.now.state.named + place }
{
    let naming = Naming {
        level: engine.level(),
        in_conflict,
    };
    named.name(place, naming);
    row_of(engine, shorts, place)
}

/// The event of what was found, and what told it. Where that is nothing, the matrix tells.
fn answer(
    engine: &mut Incremental,
    shorts: &[Short],
    named: &mut RowNames,
    finding: ShortFinding,
) -> (ParityEvent, Told)
    requires shorts { AreShortsOf engine.old.state shorts.now named.old ByMatrix }
    requires found { IsFoundShort engine.old.state shorts.now named.old finding }
    ensures reports { (t : Told) → Reports (with_shorts engine.old.state shorts.now named.old t) result.0 (with_shorts engine.new.state shorts.now named.new result.1) }
    ensures shorts { AreShortsOf engine.new.state shorts.now named.new result.1 }
{
    match finding {
        ShortFinding::Nothing => (engine.next_event(), Told::ByMatrix),
        ShortFinding::Implication(place, lit) => {
            let row = name_short(engine, shorts, named, place, false);
            (ParityEvent::Implied(lit, row), Told::ByUnit)
        }
        ShortFinding::Contradiction(place) => {
            let row = name_short(engine, shorts, named, place, true);
            (ParityEvent::Conflict(row), Told::ByUnmet(place))
        }
    }
}

//! Short parities as they were given, and what each says under the values assigned.
ghost use Rattle.std.specs.Prelude.{◌≡◌, ℕ, ◌+◌, ◌%◌, ◌<◌, ◌==◌, IfOk, IfSome, None, [], ◌∷◌, false, length, map, slice_index_or};
ghost use Rattle.std.specs.Bool.{OnTrue};
ghost use Rattle.std.specs.List.{AllByRecursion, count_by};
ghost use Rattle.cx_base.specs.Literals.{Literal, positive_of};
ghost use Rattle.cx_base.specs.Problem.{AreWithin};
ghost use Rattle.gauss_incremental.specs.ShortFirst.{AreInOrder, IsShort, IsShortOf, IsWrittenOf, kind_under, kind_with, short_at};

use crate::incremental::Incremental;
use cx_base::{IdList, Lit, LitList, ParityList};
use std::alloc::{AllocError, Global};

/// Parities of more variables are left to the matrix.
const WIDEST: usize = 4;

/// A given parity of few variables.
#[derive(Drop)]
pub(crate) struct Short {
    /// Its number among the given ones, from 1 on.
    pub number: u64,
    /// Its variables rising, all positive where the right side is 1, and the first negated where it is 0.
    pub lits: LitList,
}

/// What a parity says under the values assigned.
#[derive(Clone, Copy, Drop)]
pub(crate) enum ShortKind {
    /// More than one of its variables is not assigned.
    Open,
    /// All its variables are assigned, and it is met.
    Met,
    /// All its variables are assigned, and it is not met.
    Unmet,
    /// The variable of this literal alone is not assigned, and the literal is implied.
    Implies(Lit),
}

/// Whether an odd number of the literals is negative.
pub(crate) fn is_odd(lits: &[Lit]) -> bool
    ensures { result ≡ (count_by (λ l. l.negative) lits.now % 2 == 1) }
{
    lits.iter().filter(|lit| lit.is_negative()).count() % 2 == 1
}

/// Whether the literals' variables rise.
fn are_rising(lits: &[Lit]) -> bool
    ensures { OnTrue result ((k : ℕ) (d : Literal) → k + 1 < length lits.now → (slice_index_or lits.now k d).variable < (slice_index_or lits.now (k + 1) d).variable) }
{
    for place in 1..lits.len() {
        if lits[place - 1].var().number() >= lits[place].var().number() {
            return false;
        }
    }
    true
}

/// The literals in order of their variables, if each variable is there once.
fn in_order(alloc: Global, vars: u32, lits: &[Lit]) -> Result<Option<Vec<Lit>>, AllocError>
    requires { AreWithin vars lits.now }
    ensures { IfOk result (λ o. IfSome o (λ v. AreInOrder vars lits.now v.items)) }
{
    let mut ordered = Vec::new(alloc);
    ordered.extend_from_slice(lits)?;
    ordered.sort_unstable_by_key(|lit| lit.var().number());
    if are_rising(&ordered) {
        Ok(Some(ordered))
    } else {
        Ok(None)
    }
}

/// The variables of the literals, each as a positive literal.
fn positives(alloc: Global, lits: &[Lit]) -> Result<Vec<Lit>, AllocError>
    ensures { IfOk result (λ v. v.items ≡ map (λ l. positive_of l.variable) lits.now) }
{
    let mut all = Vec::new(alloc);
    for lit in lits {
        all.push(Lit::new(lit.var(), false))?;
    }
    Ok(all)
}

/// The parity of the literals as it is written, from literals whose variables rise.
fn written(alloc: Global, ordered: &[Lit]) -> Result<LitList, AllocError>
    requires { 0 < length ordered.now }
    ensures { IfOk result (IsWrittenOf ordered.now) }
{
    let mut lits = positives(alloc, ordered)?;
    if is_odd(ordered) {
        lits[0] = lits[0].negate();
    }
    Ok(LitList::from_vec(lits))
}

/// The parity, if it has few variables, and each of them once.
fn short_of(
    alloc: Global,
    vars: u32,
    lits: &[Lit],
    number: u64,
) -> Result<Option<Short>, AllocError>
    requires { AreWithin vars lits.now }
    ensures { IfOk result (λ o. IfSome o (IsShortOf vars lits.now number)) }
{
    if lits.len() < 2 || lits.len() > WIDEST {
        return Ok(None);
    }
    match in_order(alloc, vars, lits)? {
        Some(ordered) => {
            let lits = written(alloc, &ordered)?;
            Ok(Some(Short { number, lits }))
        }
        None => Ok(None),
    }
}

/// The parity at a place.
pub(crate) fn parity_at(
    alloc: Global,
    shorts: &[Short],
    place: usize,
) -> Result<LitList, AllocError>
    requires { place < length shorts.now }
    ensures { IfOk result (λ p. p ≡ (short_at shorts.now place).lits) }
{
    let lits = shorts[place].lits.as_slice().to_vec(alloc)?;
    Ok(LitList::from_vec(lits))
}

/// The number of the parity at a place, alone.
pub(crate) fn number_at(alloc: Global, shorts: &[Short], place: usize) -> Result<IdList, AllocError>
    requires { place < length shorts.now }
    ensures { IfOk result (λ k. k ≡ (short_at shorts.now place).number ∷ []) }
{
    let mut numbers = Vec::with_capacity(alloc, 1)?;
    numbers.push(shorts[place].number)?;
    Ok(IdList::from_vec(numbers))
}

/// The short ones of these parities.
pub(crate) fn shorts_of(
    alloc: Global,
    vars: u32,
    parities: &ParityList,
) -> Result<Vec<Short>, AllocError>
    requires { AllByRecursion (AreWithin vars) parities.now }
    ensures { IfOk result (λ v. AllByRecursion (IsShort vars parities.now) v.items) }
{
    let mut shorts = Vec::new(alloc);
    let lists = parities.as_slice();
    for place in 0..lists.len() {
        if let Some(short) = short_of(alloc, vars, lists[place].as_slice(), place as u64 + 1)? {
            shorts.push(short)?;
        }
    }
    Ok(shorts)
}

/// What the literals say as a parity under the values assigned.
pub(crate) fn kind_of(engine: &Incremental, lits: &[Lit]) -> ShortKind
    requires { AreWithin engine.now.state.vars lits.now }
    ensures { result ≡ kind_under engine.now.state.values lits.now }
{
    let mut free = None;
    let mut sum = false;
    for lit in lits {
        match engine.held(lit.var()) {
            Some(held) => sum ^= held.value ^ lit.is_negative(),
            None => {
                if free.is_some() {
                    return ShortKind::Open;
                }
                free = Some(*lit);
            }
        }
    }
    kind_with(sum, free)
}

/// What a parity says of which an odd number of literals is true, or an even one, and this one is not assigned.
fn kind_with(sum: bool, free: Option<Lit>) -> ShortKind
    ensures { result ≡ kind_with sum free }
{
    match free {
        Some(lit) => ShortKind::Implies(if sum { lit.negate() } else { lit }),
        None => {
            if sum {
                ShortKind::Met
            } else {
                ShortKind::Unmet
            }
        }
    }
}

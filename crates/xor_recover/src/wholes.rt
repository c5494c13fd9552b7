//! Parities whose clauses follow one another.
//!
//! Whoever writes a parity as clauses mostly writes them so. Their variables are in the same order then, so that the clauses are
//! compared as they are, and only the first is put in order.
ghost use Rattle.std.specs.Prelude.{◌≡◌, ◌<◌, ◌≤◌, ◌+◌, ℕ, [], length, slice_index_or, Some, IfOk, IfSome};
ghost use Rattle.std.specs.Bool.{OnTrue};
ghost use Rattle.cx_base.specs.Literals.{Literal};
ghost use Rattle.cx_base.specs.Problem.{AreWithin, clauses_of};
ghost use Rattle.cx_base.specs.declared.literal.TheConstants.{MAX_VARIABLE};
ghost use Rattle.cx_base.specs.Parity.{odd_sum};
ghost use Rattle.xor_recover.specs.Rows.{gathered};
ghost use Rattle.xor_recover.specs.Starts.{pair_of};
ghost use Rattle.xor_recover.specs.Wholes.{IsWhole, AreOnce, clause_at, count_of, signs_code, signs_of, variables_of};
ghost use Rattle.xor_recover.specs.declared.wholes.Whole.{Whole};

use crate::entry::{Key, WIDEST};
use crate::starts::Start;
use cx_base::{Formula, Lit};
use std::alloc::AllocError;

/// A parity whose clauses follow one another: the first one's start, and the parity.
#[derive(Drop)]
pub(crate) struct Whole {
    pub start: Start,
    pub key: Key,
}

impl Whole {
    /// How many clauses it has.
    pub fn count(&self) -> usize
        requires { 1 ≤ length self.now.key.vars.items }
        ensures { result ≡ count_of self.now }
    {
        1usize << (self.key.vars.len() - 1)
    }
}

/// Whether two clauses have the same variables in the same order.
fn have_same_variables(a: &[Lit], b: &[Lit]) -> bool
    ensures { OnTrue result (variables_of a.now ≡ variables_of b.now) }
{
    if a.len() != b.len() {
        return false;
    }
    for place in 0..a.len() {
        if a[place].var().number() != b[place].var().number() {
            return false;
        }
    }
    true
}

/// A clause's signs.
#[derive(Clone, Copy, Drop)]
struct Signs {
    /// Their place among those of as many literals.
    place: usize,
    /// Whether an odd number of them is negative.
    odd: bool,
}

impl Signs {
    /// The signs of at most six literals.
    fn of(lits: &[Lit]) -> Signs
        requires { length lits.now ≤ 6 }
        ensures place { result.place ≡ signs_code (signs_of lits.now) }
        ensures odd { result.odd ≡ odd_sum (signs_of lits.now) }
        ensures few { result.place < 64 }
    {
        let mut place = 0;
        let mut odd = false;
        for lit in lits {
            place = 2 * place + usize::from(lit.is_negative());
            odd = odd != lit.is_negative();
        }
        Signs { place, odd }
    }
}

/// Whether this many clauses from a number on have the first one's variables and sum of signs, and each has other signs.
fn are_once(formula: &Formula, number: usize, first: &[Lit], count: usize) -> bool
    requires low { 1 ≤ number }
    requires some { 1 ≤ count }
    requires high { number + count ≤ length (clauses_of formula.now.constraints) + 1 }
    requires first { clause_at (clauses_of formula.now.constraints) number ≡ first.now }
    requires six { length first.now ≤ 6 }
    ensures { OnTrue result (AreOnce (clauses_of formula.now.constraints) number count) }
{
    // that the numbers fit, which this call tells the proof
    let _clauses = formula.clause_count();
    let begin = Signs::of(first);
    let mut seen = [false; 64];
    seen[begin.place] = true;
    for index in 1..count {
        let lits = formula.clause(number + index);
        if !have_same_variables(lits, first) {
            return false;
        }
        let signs = Signs::of(lits);
        if signs.odd != begin.odd || seen[signs.place] {
            return false;
        }
        seen[signs.place] = true;
    }
    true
}

/// Whether the literals' variables rise.
fn are_rising(lits: &[Lit]) -> bool
    ensures { OnTrue result ((k : ℕ) (d : Literal) → k + 1 < length lits.now → (slice_index_or lits.now k d).variable < (slice_index_or lits.now (k + 1) d).variable) }
{
    for place in 1..lits.len() {
        if lits[place - 1].var().number() >= lits[place].var().number() {
            return false;
        }
    }
    true
}

/// Puts a clause's literals in order of their variables, if it has each variable once.
fn put_in_order(normal: &mut Vec<Lit>, lits: &[Lit]) -> Result<bool, AllocError>
    requires within { AreWithin MAX_VARIABLE lits.now }
    requires six { length lits.now ≤ 6 }
    ensures { IfOk result (λ rising. OnTrue rising ((gathered [] lits.now ≡ Some normal.new.items) × (length normal.new.items ≡ length lits.now))) }
{
    normal.clear();
    normal.extend_from_slice(lits)?;
    normal.sort_unstable_by_key(|lit| lit.var().number());
    Ok(are_rising(normal))
}

/// The parity whose clauses follow one another from a number on.
pub(crate) fn whole_at(
    formula: &Formula,
    number: usize,
    normal: &mut Vec<Lit>,
) -> Result<Option<Whole>, AllocError>
    requires low { 1 ≤ number }
    requires high { number ≤ length (clauses_of formula.now.constraints) }
    ensures whole { IfOk result (λ o. IfSome o (IsWhole (clauses_of formula.now.constraints))) }
    ensures here { IfOk result (λ o. IfSome o (λ w. w.start.number ≡ number)) }
{
    // that variables are within the range, which this call tells the proof
    let _vars = formula.vars();
    let lits = formula.clause(number);
    let left = formula.clause_count() - number;
    if left == 0 || !have_same_variables(formula.clause(number + 1), lits) {
        return Ok(None);
    }
    if lits.len() < 2 || lits.len() > WIDEST {
        return Ok(None);
    }
    let count = 1usize << (lits.len() - 1);
    if left + 1 < count || !are_once(formula, number, lits, count) {
        return Ok(None);
    }
    if !put_in_order(normal, lits)? {
        return Ok(None);
    }
    let key = Key::of(normal);
    let start = Start {
        first: key.vars[0],
        second: key.vars[1],
        number: number as u64,
    };
    Ok(Some(Whole { start, key }))
}

/// Where the parities whose clauses start no later than a pair of variables end, from a place on.
pub(crate) fn wholes_end(wholes: &[Whole], at: usize, pair: u64) -> usize
    requires { at ≤ length wholes.now }
    ensures ahead { at ≤ result }
    ensures inside { result ≤ length wholes.now }
    ensures upto { (k : ℕ) (d : Whole) → at ≤ k → k < result → pair_of (slice_index_or wholes.now k d).start ≤ pair }
    ensures beyond { (d : Whole) → result < length wholes.now → pair < pair_of (slice_index_or wholes.now result d).start }
{
    let mut end = at;
    while end < wholes.len() && wholes[end].start.pair() <= pair {
        end += 1;
    }
    end
}

//! Values, parities and clauses drawn from a generator's words.
ghost use Rattle.std.specs.Prelude.{◌≡◌, ◌<◌, ◌≤◌, ◌+◌, ◌*◌, ◌/◌, ◌%◌, ◌-◌, length, map, false, IfOk, OnOk};
ghost use Rattle.cx_base.specs.Problem.{AreWithin};
ghost use Rattle.cx_base.specs.declared.literal.TheConstants.{MAX_VARIABLE};
ghost use Rattle.rand_core.specs.Stream.{next_u64};
ghost use Rattle.inst_gen.specs.Words.{stream, words, after_words};
ghost use Rattle.inst_gen.specs.Planting.{values_of, planted_parity, parities_of, literal_of, planted_clause, clauses_of};
ghost use Rattle.inst_gen.specs.Triples.{literals_in};

use crate::triple::Triple;
use cx_base::{Lit, Var};
use rand_core::Rng;
use rand_xoshiro::SplitMix64;
use std::alloc::{AllocError, Global};

/// The generator's next word.
fn word(generator: &mut SplitMix64) -> u64
    ensures { (result, stream generator.new) ≡ next_u64 (stream generator.old) }
{
    generator.next_u64()
}

/// The planted values: a variable is true where its word is odd.
pub(crate) fn draw_values(
    alloc: Global,
    size: u32,
    generator: &mut SplitMix64,
) -> Result<Vec<bool>, AllocError>
    ensures values { IfOk result (λ v. v.items ≡ values_of (words size (stream generator.old))) }
    ensures left { OnOk result (stream generator.new ≡ after_words size (stream generator.old)) }
{
    let mut values = Vec::with_capacity(alloc, size as usize)?;
    for _variable in 0..size {
        values.push(word(generator) % 2 == 1)?;
    }
    Ok(values)
}

/// The variable below a variable that a word says.
fn below(variable: u32, word: u64) -> Lit
    requires low { 2 ≤ variable }
    requires high { variable ≤ MAX_VARIABLE }
    ensures { result ≡ record { variable = 1 + word % (variable - 1); negative = false } }
{
    let place = word % u64::from(variable - 1);
    Lit::new(Var::new(1 + place as u32), false)
}

/// The parity of a variable and of those below it that two words say.
fn parity(values: &[bool], variable: u32, first: u64, second: u64) -> Triple
    requires low { 2 ≤ variable }
    requires high { variable ≤ length values.now }
    requires few { length values.now ≤ MAX_VARIABLE }
    ensures { literals_in result ≡ planted_parity values.now variable first second }
{
    let positive = Triple {
        first: Lit::new(Var::new(variable), false),
        second: below(variable, first),
        third: below(variable, second),
    };
    let is_odd = positive.has_odd_true(values);
    Triple {
        first: Lit::new(Var::new(variable), !is_odd),
        ..positive
    }
}

/// A parity for each fourth variable.
pub(crate) fn draw_parities(
    alloc: Global,
    values: &[bool],
    generator: &mut SplitMix64,
) -> Result<Vec<Triple>, AllocError>
    requires { length values.now ≤ MAX_VARIABLE }
    ensures parities { IfOk result (λ v. map literals_in v.items ≡ parities_of values.now (length values.now / 4) (words (2 * (length values.now / 4)) (stream generator.old))) }
    ensures left { OnOk result (stream generator.new ≡ after_words (2 * (length values.now / 4)) (stream generator.old)) }
{
    let count = values.len() as u32 / 4;
    let mut parities = Vec::with_capacity(alloc, count as usize)?;
    for k in 0..count {
        let first = word(generator);
        let second = word(generator);
        parities.push(parity(values, 4 * k + 4, first, second))?;
    }
    Ok(parities)
}

/// The literal over this many variables that a word says.
fn literal(variables: u32, word: u64) -> Lit
    requires low { 1 ≤ variables }
    requires high { variables ≤ MAX_VARIABLE }
    ensures { result ≡ literal_of variables word }
{
    let place = word % u64::from(variables);
    Lit::new(Var::new(1 + place as u32), word >= 1 << 63)
}

/// The clause of three literals, changed where the values do not meet it.
fn clause(values: &[bool], drawn: Triple) -> Triple
    requires { AreWithin (length values.now) (literals_in drawn) }
    ensures { literals_in result ≡ planted_clause values.now drawn.first drawn.second drawn.third }
{
    if drawn.has_true(values) {
        drawn
    } else {
        Triple {
            first: drawn.first.negate(),
            ..drawn
        }
    }
}

/// The literals that the next three words say.
fn draw_triple(variables: u32, generator: &mut SplitMix64) -> Triple
    requires low { 1 ≤ variables }
    requires high { variables ≤ MAX_VARIABLE }
    ensures drawn { result ≡ record { first = literal_of variables (next_u64 (stream generator.old)).0; second = literal_of variables (next_u64 (after_words 1 (stream generator.old))).0; third = literal_of variables (next_u64 (after_words 2 (stream generator.old))).0 } }
    ensures left { stream generator.new ≡ after_words 3 (stream generator.old) }
{
    let first = literal(variables, word(generator));
    let second = literal(variables, word(generator));
    let third = literal(variables, word(generator));
    Triple {
        first,
        second,
        third,
    }
}

/// As many clauses as values.
pub(crate) fn draw_clauses(
    alloc: Global,
    values: &[bool],
    generator: &mut SplitMix64,
) -> Result<Vec<Triple>, AllocError>
    requires low { 1 ≤ length values.now }
    requires few { length values.now ≤ MAX_VARIABLE }
    ensures clauses { IfOk result (λ v. map literals_in v.items ≡ clauses_of values.now (length values.now) (length values.now) (words (3 * length values.now) (stream generator.old))) }
    ensures left { OnOk result (stream generator.new ≡ after_words (3 * length values.now) (stream generator.old)) }
{
    let variables = values.len() as u32;
    let mut clauses = Vec::with_capacity(alloc, values.len())?;
    for _number in 0..variables {
        let drawn = draw_triple(variables, generator);
        clauses.push(clause(values, drawn))?;
    }
    Ok(clauses)
}

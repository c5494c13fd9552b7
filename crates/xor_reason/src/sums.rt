//! The sum of two rows, as a reason.
ghost use Rattle.std.specs.Prelude.{◌≡◌, ℕ, ◌≤◌, Some, IfOk, IfSome, IsTrue, IsFalse, map};
ghost use Rattle.std.specs.List.{AllByRecursion};
ghost use Rattle.cx_base.specs.Literals.{Literal, differ};
ghost use Rattle.cx_base.specs.Parity.{NormalForm};
ghost use Rattle.parity_engine.specs.Written.{IsWritten, literals_with};
ghost use Rattle.xor_reason.specs.Reasons.{IsReason};
ghost use Rattle.xor_reason.specs.Sums.{HasVariablesOfSum, IsSumOf, has_variable};

use crate::literals::literals_for;
use crate::reason::ReasonOf;
use cx_base::{IdList, Lit, LitList, Var};
use cx_trail::Trail;
use parity_engine::ParityEngine;
use std::alloc::{AllocError, Global};

/// The numbers that are in one of two rising lists and not in the other, rising.
fn numbers_of_sum(alloc: Global, a: &[u64], b: &[u64]) -> Result<Vec<u64>, AllocError>
    ensures { IfOk result (λ s. IsSumOf a.now b.now s.items) }
{
    let mut sum = Vec::with_capacity(alloc, a.len().max(b.len()))?;
    let mut i = 0;
    let mut j = 0;
    'merge: while i < a.len() && j < b.len() {
        if a[i] < b[j] {
            sum.push(a[i])?;
            i += 1;
        } else if b[j] < a[i] {
            sum.push(b[j])?;
            j += 1;
        } else {
            i += 1;
            j += 1;
        }
    }
    sum.extend_from_slice(&a[i..])?;
    sum.extend_from_slice(&b[j..])?;
    Ok(sum)
}

/// The numbers of the variables of a parity.
fn variables_of(alloc: Global, lits: &[Lit]) -> Result<Vec<u64>, AllocError>
    ensures variables { IfOk result (λ n. n.items ≡ map (λ (l : Literal). l.variable) lits.now) }
    ensures within { IfOk result (λ n. AllByRecursion (λ v. (1 ≤ v) × (v ≤ 268435455)) n.items) }
{
    let mut numbers = Vec::with_capacity(alloc, lits.len())?;
    for lit in lits {
        numbers.push(u64::from(lit.var().number()))?;
    }
    Ok(numbers)
}

/// The right side of a written parity.
fn right_side(lits: &[Lit]) -> bool
    ensures { (form : NormalForm) → IsWritten form lits.now → result ≡ form.right_side }
{
    match lits.first() {
        Some(lit) => !lit.is_negative(),
        None => true,
    }
}

/// The sum of two bits.
fn sum_of_bits(a: bool, b: bool) -> bool
    ensures { result ≡ differ a b }
{
    if a {
        return !b;
    }
    b
}

/// The parity of these variables with this right side.
fn written(alloc: Global, right: bool, numbers: &[u64]) -> Result<LitList, AllocError>
    requires { AllByRecursion (λ v. (1 ≤ v) × (v ≤ 268435455)) numbers.now }
    ensures { IfOk result (λ lits. lits ≡ literals_with right numbers.now) }
{
    let mut lits = Vec::with_capacity(alloc, numbers.len())?;
    let mut negative = !right;
    for number in numbers {
        lits.push(Lit::new(Var::new(*number as u32), negative))?;
        negative = false;
    }
    Ok(LitList::from_vec(lits))
}

/// The reasons that two rows give.
#[derive(Clone, Copy, Drop)]
pub struct ReasonPair<'r> {
    pub one: &'r ReasonOf,
    pub other: &'r ReasonOf,
}

/// The reason that the sum of two rows gives, of which the other is met: for the literal that the one implied, or, where none is given, for a conflict.
///
/// `engine` is the engine that named the rows. The other has not the implied literal's variable, and some variable is in just one of them.
pub fn sum_of_reasons<P: ParityEngine>(
    alloc: Global,
    engine: &P,
    pair: ReasonPair<'_>,
    implied: Option<Lit>,
    trail: &Trail,
) -> Result<ReasonOf, AllocError>
    requires one { IsReason (P.state engine.now).parities trail.now implied pair.one.now }
    requires other { (l : Literal) × IsReason (P.state engine.now).parities trail.now (Some l) pair.other.now }
    requires apart { IfSome implied (λ l. IsFalse (has_variable pair.other.now.clause l.variable)) }
    requires some { (v : ℕ) × IsTrue (differ (has_variable pair.one.now.clause v) (has_variable pair.other.now.clause v)) }
    ensures reason { IfOk result (IsReason (P.state engine.now).parities trail.now implied) }
    ensures variables { IfOk result (λ r. HasVariablesOfSum pair.entry.one.now.clause pair.entry.other.now.clause r.clause) }
{
    let of_one = variables_of(alloc, pair.one.parity.as_slice())?;
    let of_other = variables_of(alloc, pair.other.parity.as_slice())?;
    let variables = numbers_of_sum(alloc, &of_one, &of_other)?;
    let of_one_right = right_side(pair.one.parity.as_slice());
    let of_other_right = right_side(pair.other.parity.as_slice());
    let right = sum_of_bits(of_one_right, of_other_right);
    let parity = written(alloc, right, &variables)?;
    let sources = numbers_of_sum(
        alloc,
        pair.one.sources.as_slice(),
        pair.other.sources.as_slice(),
    )?;
    let clause = literals_for(alloc, trail, &implied, parity.as_slice())?;
    Ok(ReasonOf {
        parity,
        sources: IdList::from_vec(sources),
        clause,
    })
}

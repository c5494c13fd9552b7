//! The clauses of a formula in order of where they start.
ghost use Rattle.std.specs.Prelude.{◌≡◌, ◌<◌, ◌≤◌, ◌++◌, ℕ, length, slice_index_or, IfOk, ◌⊎◌};
ghost use Rattle.std.specs.List.{AllByRecursion};
ghost use Rattle.std.specs.List.Sorted.{IsNonDecreasingBy};
ghost use Rattle.cx_base.specs.Problem.{clauses_of};
ghost use Rattle.xor_recover.specs.Starts.{AreStarts, pair_of};
ghost use Rattle.xor_recover.specs.Wholes.{IsWhole, starts_of_all};
ghost use Rattle.xor_recover.specs.declared.starts.Start.{Start};
ghost use Rattle.xor_recover.specs.declared.wholes.Whole.{Whole};

use crate::entry::WIDEST;
use crate::starts::Start;
use crate::wholes::{Whole, whole_at};
use cx_base::Formula;
use std::alloc::{AllocError, Global};

/// The parities whose clauses follow one another, and the starts of the other clauses.
#[derive(Drop)]
pub(crate) struct Ordered {
    pub starts: Vec<Start>,
    pub wholes: Vec<Whole>,
}

/// The clauses of a formula, in its order.
fn in_file_order(alloc: Global, formula: &Formula) -> Result<Ordered, AllocError>
    ensures starts { IfOk result (λ o. AreStarts (clauses_of formula.now.constraints) (o.starts.items ++ starts_of_all o.wholes.items)) }
    ensures wholes { IfOk result (λ o. AllByRecursion (IsWhole (clauses_of formula.now.constraints)) o.wholes.items) }
{
    // that variables are within the range, which this call tells the proof
    let _vars = formula.vars();
    let len = formula.clause_count();
    let mut starts = Vec::with_capacity(alloc, len)?;
    let mut wholes = Vec::with_capacity(alloc, len / 4)?;
    let mut normal = Vec::with_capacity(alloc, WIDEST)?;
    let mut next = 0;
    while next < len {
        let number = next + 1;
        match whole_at(formula, number, &mut normal)? {
            Some(whole) => {
                next += whole.count();
                wholes.push(whole)?;
            }
            None => {
                match Start::of(formula.clause(number), number as u64) {
                    Some(start) => starts.push(start)?,
                    None => {}
                }
                next += 1;
            }
        }
    }
    Ok(Ordered { starts, wholes })
}

/// The clauses of a formula in order of their two least variables.
pub(crate) fn in_order(alloc: Global, formula: &Formula) -> Result<Ordered, AllocError>
    ensures starts { IfOk result (λ o. AreStarts (clauses_of formula.now.constraints) (o.starts.items ++ starts_of_all o.wholes.items)) }
    ensures wholes { IfOk result (λ o. AllByRecursion (IsWhole (clauses_of formula.now.constraints)) o.wholes.items) }
    ensures starts_rise { IfOk result (λ o. IsNonDecreasingBy pair_of o.starts.items) }
    ensures wholes_rise { IfOk result (λ o. IsNonDecreasingBy (λ w. pair_of w.start) o.wholes.items) }
{
    let Ordered {
        mut starts,
        mut wholes,
    } = in_file_order(alloc, formula)?;
    starts.sort_unstable_by_key(|start| start.pair());
    wholes.sort_unstable_by_key(|whole| whole.start.pair());
    Ok(Ordered { starts, wholes })
}

/// The least pair of variables from these places on.
pub(crate) fn next_pair(starts: &[Start], at: usize, wholes: &[Whole], whole: usize) -> u64
    requires left { (at < length starts.now) ⊎ (whole < length wholes.now) }
    ensures { ((at < length starts.now) × ((d : Start) → pair_of (slice_index_or starts.now at d) ≤ result)) ⊎ ((whole < length wholes.now) × ((d : Whole) → pair_of (slice_index_or wholes.now whole d).start ≤ result)) }
{
    if at >= starts.len() {
        return wholes[whole].start.pair();
    }
    let pair = starts[at].pair();
    if whole < wholes.len() {
        pair.min(wholes[whole].start.pair())
    } else {
        pair
    }
}

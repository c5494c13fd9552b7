//! A row as a list of its variables.
ghost use Rattle.std.specs.Prelude.{◌≡◌, ℕ, ◌<◌, ◌≤◌, nat_eq, length, slice_index, IfOk};
ghost use Rattle.std.specs.List.{list_any};
ghost use Rattle.parity_engine.specs.Written.{Rises};
ghost use Rattle.gf2_lists.specs.Sums.{IsSumOf};

use std::alloc::{AllocError, Global};

/// A row: its variables, rising, and its right side.
#[derive(Drop)]
pub(crate) struct ListedRow {
    pub(crate) vars: Vec<u32>,
    pub(crate) right: bool,
}

/// The variables that are in one of two rising lists and not in the other, rising.
pub(crate) fn sum_of(alloc: Global, a: &[u32], b: &[u32]) -> Result<Vec<u32>, AllocError>
    ensures { IfOk result (λ s. IsSumOf a.now b.now s.items) }
{
    let mut sum = Vec::with_capacity(alloc, a.len().max(b.len()))?;
    let mut i = 0;
    let mut j = 0;
    'merge: while i < a.len() && j < b.len() {
        if a[i] < b[j] {
            sum.push(a[i])?;
            i += 1;
        } else if b[j] < a[i] {
            sum.push(b[j])?;
            j += 1;
        } else {
            i += 1;
            j += 1;
        }
    }
    sum.extend_from_slice(&a[i..])?;
    sum.extend_from_slice(&b[j..])?;
    Ok(sum)
}

/// How many of the numbers are below the bound.
pub(crate) fn count_below(numbers: &[u32], bound: u32) -> usize
    requires { Rises 1 numbers.now }
    ensures within { result ≤ length numbers.now }
    ensures low { (i : ℕ) → i < result → slice_index numbers.now i < bound }
    ensures high { (i : ℕ) → result ≤ i → i < length numbers.now → bound ≤ slice_index numbers.now i }
{
    numbers.partition_point(|number| *number < bound)
}

/// Whether the number is among these.
pub(crate) fn is_listed(numbers: &[u32], number: u32) -> bool
    requires { Rises 1 numbers.now }
    ensures { result ≡ list_any (λ y. nat_eq y number) numbers.now }
{
    match numbers.binary_search(&number) {
        Ok(_) => true,
        Err(_) => false,
    }
}

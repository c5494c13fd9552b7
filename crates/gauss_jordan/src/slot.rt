//! Copies of named rows.
ghost use Rattle.std.specs.Prelude.{◌≡◌, ℕ, ◌+◌, ◌*◌, ◌<◌, ◌≤◌, ◌^◌, length, slice_index_or, IfOk};
ghost use Rattle.parity_engine.specs.Equations.{numbers_from};
ghost use Rattle.parity_engine.specs.Namings.{keep_naming};
ghost use Rattle.gf2_matrix.specs.Views.{words_for};
ghost use Rattle.gauss_jordan.specs.Slots.{AreKept, AreSources, AreTerms, IsCopy, IsEmptySlot, IsSlotSum, IsSlotOf, first_bits};

use crate::masks::is_true;
use cx_base::{IdList, Var};
use gf2_matrix::{Matrix, clear_words};
use parity_engine::{Held, Naming};
use std::alloc::{AllocError, Global};

/// A copy of a named row: a bit for each variable, the right side, and a bit for each given parity.
#[derive(Drop)]
pub(crate) struct RowSlot {
    pub(crate) terms: Vec<u64>,
    pub(crate) right: bool,
    pub(crate) sources: Vec<u64>,
    pub(crate) naming: Option<Naming>,
}

fn kept(naming: Option<Naming>, level: u32) -> Option<Naming>
    ensures { result ≡ keep_naming level naming }
{
    match naming {
        Some(n) if !n.in_conflict && n.level <= level => Some(n),
        _ => None,
    }
}

/// Unnamed slots with room for a row.
pub(crate) fn empty_slots(
    alloc: Global,
    count: usize,
    vars: usize,
    parities: usize,
) -> Result<Vec<RowSlot>, AllocError>
    requires few_variables { vars < 4294967296 }
    requires few_parities { parities < 4294967296 }
    ensures count { IfOk result (λ slots. length slots.items ≡ count) }
    ensures empty { IfOk result (λ slots. (k : ℕ) (d : RowSlot) → k < count → IsEmptySlot vars parities (slice_index_or slots.items k d)) }
{
    let mut slots = Vec::new(alloc);
    for _ in 0..count {
        slots.push(empty_slot(alloc, vars, parities)?)?;
    }
    Ok(slots)
}

/// An unnamed slot with room for a row.
fn empty_slot(alloc: Global, vars: usize, parities: usize) -> Result<RowSlot, AllocError>
    requires few_variables { vars < 4294967296 }
    requires few_parities { parities < 4294967296 }
    ensures { IfOk result (IsEmptySlot vars parities) }
{
    Ok(RowSlot {
        terms: clear_words(alloc, vars)?,
        right: false,
        sources: clear_words(alloc, parities)?,
        naming: None,
    })
}

/// Forgets the rows that were named for a contradiction or above the level.
pub(crate) fn keep_slots(slots: &mut [RowSlot], level: u32)
    ensures { AreKept level slots.old slots.new (length slots.old) }
{
    for k in 0..slots.len() {
        slots[k].naming = kept(slots[k].naming, level);
    }
}

/// Copies the bits of the row's variables.
fn copy_terms(terms: &mut [u64], matrix: &Matrix, row: usize)
    requires row_in { row < length matrix.now.rows }
    requires room { matrix.now.vars ≤ 64 * length terms.old }
    ensures { AreTerms matrix.now row terms.old terms.new matrix.now.vars }
{
    let view = matrix.row_view(row);
    for before in 0..matrix.vars() {
        gf2_rows::put(terms, u64::from(before), view.has(Var::new(before + 1)));
    }
}

/// Copies the bits of the parities that the row is the sum of.
fn copy_sources(sources: &mut [u64], matrix: &Matrix, row: usize)
    requires row_in { row < length matrix.now.rows }
    requires room { length matrix.now.given ≤ 64 * length sources.old }
    ensures { AreSources matrix.now row sources.new (length matrix.now.given) }
{
    for at in 0..matrix.given() {
        gf2_rows::put(sources, at as u64, matrix.has_source(row, at));
    }
}

/// Copies a row of the matrix, under a name.
pub(crate) fn copy_row(slot: &mut RowSlot, matrix: &Matrix, row: usize, naming: Naming)
    requires row_in { row < length matrix.now.rows }
    requires sized { IsSlotOf matrix.now slot.old }
    ensures { IsCopy matrix.now row naming slot.new }
{
    let _rows = matrix.rows();
    copy_terms(&mut slot.terms, matrix, row);
    copy_sources(&mut slot.sources, matrix, row);
    slot.right = matrix.row_right(row);
    slot.naming = Some(naming);
}

/// Whether the assigned values alone do not meet the row.
pub(crate) fn is_unmet(slot: &RowSlot, held: &[Option<Held>]) -> bool
    requires { length held.now ≤ 64 * length slot.now.terms.items }
    ensures { IsSlotSum slot.now held.now (length held.now) result }
{
    let mut sum = slot.right;
    for at in 0..held.len() {
        sum ^= gf2_rows::bit(&slot.terms, at as u64) && is_true(held[at]);
    }
    sum
}

/// The numbers, from 1 and rising, of the bits that are set among the first `count`.
pub(crate) fn source_list(alloc: Global, words: &[u64], count: usize) -> Result<IdList, AllocError>
    requires room { count ≤ 64 * length words.now }
    requires few { count < 2 ^ 32 }
    ensures { IfOk result (λ s. s ≡ numbers_from 1 (first_bits count words.now)) }
{
    let mut numbers = Vec::new(alloc);
    for k in 0..count {
        if gf2_rows::bit(words, k as u64) {
            numbers.push(k as u64 + 1)?;
        }
    }
    Ok(IdList::from_vec(numbers))
}

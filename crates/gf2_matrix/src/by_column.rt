//! Each part by columns: for each column the rows that have it, so that a pivot reads off the rows that it adds to.
ghost use Rattle.std.specs.Prelude.{◌≡◌, ℕ, ◌+◌, ◌*◌, ◌<◌, ◌≤◌, ◌&&◌, true, not, eqb, length, map, IfOk};
ghost use Rattle.cx_base.specs.declared.literal.TheConstants.{MAX_VARIABLE};
ghost use Rattle.gf2_rows.specs.Bits.{bit_of};
ghost use Rattle.gf2_rows.specs.Tables.{words_at};
ghost use Rattle.gf2_matrix.specs.Views.{words_for};
ghost use Rattle.gf2_matrix.specs.Packed.{window, window_at};
ghost use Rattle.gf2_matrix.specs.ByColumn.{AreTurned, AreSized, AreClear, IsColumnOf, IsRarestOf, HaveRows, IsByColumn, AreByColumn, set_size};

use crate::make::clear_words;
use crate::packed::Part;
use crate::row_tables::Rows;
use crate::span::span_of;
use gf2_rows::{WordRow, WordTable};
use std::alloc::{AllocError, Global};

/// The columns of a part.
#[derive(Drop)]
pub(crate) struct ByColumn {
    /// For each column the rows of the part that have it: a bit for each, in the order of the part's numbers.
    pub(crate) sets: WordTable,
    /// The rows that the last pivot was added to.
    pub(crate) chosen: Vec<u64>,
}

impl ByColumn {
    /// Chooses the rows that have the column numbered `column` in the part, but for the row at `place`, and turns
    /// them over in the set of each column that the bits have, of which the first has bit `start`.
    pub(crate) fn turn(&mut self, column: usize, place: u64, bits: &WordRow<'_>, start: u64)
        requires column_in { column < length self.old.sets }
        requires place_in { place < 64 * length self.old.chosen.items }
        requires few { length bits.now < 4294967296 }
        requires within { start ≤ 64 * length bits.now }
        requires sized { AreSized (length self.old.chosen.items) self.old.sets }
        ensures room { length self.new.chosen.items ≡ length self.old.chosen.items }
        ensures chosen { (m : ℕ) → bit_of self.new.chosen.items m ≡ (not (eqb m place) && bit_of (words_at self.old.sets column) m) }
        ensures turned { AreTurned (bit_of self.new.chosen.items) bits.now start self.old.sets self.new.sets (length self.old.sets) }
    {
        choose(&mut self.chosen, &self.sets.row(column), place);
        turn_sets(&mut self.sets, &self.chosen, bits, start);
    }

    /// Of the columns that the bits have, of which the first has bit `start`, the first that the fewest rows have. Some
    /// row has each of them, so the walk ends at one that no other row has.
    pub(crate) fn rarest(&self, bits: &WordRow<'_>, start: u64) -> Option<usize>
        requires few { length bits.now < 4294967296 }
        requires within { start ≤ 64 * length bits.now }
        requires room { length self.now.chosen.items < 4294967296 }
        requires sized { AreSized (length self.now.chosen.items) self.now.sets }
        requires some { (j : ℕ) → j < length self.now.sets → bit_of bits.now (start + j) ≡ true → 1 ≤ set_size (words_at self.now.sets j) }
        ensures column { IsColumnOf bits.now start (length self.now.sets) result }
        ensures rarest { IsRarestOf bits.now start self.now.sets result }
    {
        let mut rarest = None;
        let mut fewest = u64::MAX;
        let mut from = start;
        while let Some(bit) = bits.next_one(from) {
            let column = (bit - start) as usize;
            if column >= self.sets.rows() {
                return rarest;
            }
            if let Some(rows) = self.sets.row(column).fewer_ones(fewest) {
                if rows <= 1 {
                    return Some(column);
                }
                rarest = Some(column);
                fewest = rows;
            }
            from = bit + 1;
        }
        rarest
    }
}

/// Makes `chosen` the set without the row at `place`.
fn choose(chosen: &mut [u64], set: &WordRow<'_>, place: u64)
    requires same { length chosen.old ≡ length set.now }
    requires within { place < 64 * length set.now }
    ensures { (m : ℕ) → bit_of chosen.new m ≡ (not (eqb m place) && bit_of set.now m) }
{
    set.copy_to(chosen);
    gf2_rows::put(chosen, place, false);
}

/// Turns the chosen rows over in the set of each column that the bits have, of which the first has bit `start`.
#[inline(never)]
fn turn_sets(sets: &mut WordTable, chosen: &[u64], bits: &WordRow<'_>, start: u64)
    requires few { length bits.now < 4294967296 }
    requires within { start ≤ 64 * length bits.now }
    requires sized { AreSized (length chosen.now) sets.old }
    ensures { AreTurned (bit_of chosen.now) bits.now start sets.old sets.new (length sets.old) }
{
    let (low, high) = span_of(chosen);
    let mut from = start;
    while let Some(bit) = bits.next_one(from) {
        let column = (bit - start) as usize;
        if column >= sets.rows() {
            return;
        }
        sets.add_span(column, chosen, low, high);
        from = bit + 1;
    }
}

/// Turns the row at the place over in the set of each column that the bits have, of which the first has bit `start`.
fn turn_row(sets: &mut WordTable, place: u64, bits: &WordRow<'_>, start: u64)
    requires few { length bits.now < 4294967296 }
    requires within { start ≤ 64 * length bits.now }
    requires room { (i : ℕ) → i < length sets.old → place < 64 * length (words_at sets.old i) }
    ensures { AreTurned (λ m. eqb m place) bits.now start sets.old sets.new (length sets.old) }
{
    let mut from = start;
    while let Some(bit) = bits.next_one(from) {
        let column = (bit - start) as usize;
        if column >= sets.rows() {
            return;
        }
        sets.flip(column, place);
        from = bit + 1;
    }
}

/// A set without a row for each column of the part.
fn empty_sets(alloc: Global, part: &Part) -> Result<WordTable, AllocError>
    requires few_columns { length part.now.columns.items ≤ MAX_VARIABLE }
    requires few_numbers { length part.now.numbers.items < 4294967296 }
    ensures count { IfOk result (λ sets. length sets ≡ length part.now.columns.items) }
    ensures sized { IfOk result (AreSized (words_for (length part.now.numbers.items))) }
    ensures clear { IfOk result AreClear }
{
    let widths = vec![in alloc; part.source_words(); part.columns.len()]?;
    WordTable::make(alloc, &widths)
}

/// The part by columns.
fn by_column(alloc: Global, part: &Part, rows: &Rows) -> Result<ByColumn, AllocError>
    requires few_columns { length part.now.columns.items ≤ MAX_VARIABLE }
    requires few_numbers { length part.now.numbers.items < 4294967296 }
    requires rows { HaveRows (window part.now) rows.now }
    ensures { IfOk result (IsByColumn (window part.now) rows.now) }
{
    let mut sets = empty_sets(alloc, part)?;
    let chosen = clear_words(alloc, part.numbers.len())?;
    for place in 0..part.numbers.len() {
        let row = rows.row(part.numbers[place] as usize - 1);
        turn_row(&mut sets, place as u64, &row.bits, part.start() as u64);
    }
    Ok(ByColumn { sets, chosen })
}

/// Each part by columns.
pub(crate) fn by_columns(
    alloc: Global,
    parts: &[Part],
    rows: &Rows,
) -> Result<Vec<ByColumn>, AllocError>
    requires few_columns { (p : ℕ) → p < length parts.now → length (window_at (map window parts.now) p).columns ≤ MAX_VARIABLE }
    requires few_numbers { (p : ℕ) → p < length parts.now → length (window_at (map window parts.now) p).numbers < 4294967296 }
    requires rows { (p : ℕ) → p < length parts.now → HaveRows (window_at (map window parts.now) p) rows.now }
    ensures { IfOk result (λ sets. AreByColumn (map window parts.now) rows.now sets.items (length parts.now)) }
{
    let mut all = Vec::with_capacity(alloc, parts.len())?;
    for p in 0..parts.len() {
        all.push(by_column(alloc, &parts[p], rows)?)?;
    }
    Ok(all)
}

//! The rows of a matrix.
ghost use Rattle.std.specs.Prelude.{◌≡◌, ℕ, ◌+◌, ◌*◌, ◌<◌, ◌≤◌, ◌^◌, ◌⊎◌, MatchOption, take, drop, eqb, false, length, map, slice_index, slice_index_or, IfOk};
ghost use Rattle.cx_base.specs.declared.literal.TheConstants.{MAX_VARIABLE};
ghost use Rattle.gf2_rows.specs.declared.few.TheConstants.{FEW};
ghost use Rattle.gf2_rows.specs.Tables.{words_at};
ghost use Rattle.gf2_matrix.specs.Packed.{AreLengths, IsSumRow, start, window, window_at};
ghost use Rattle.gf2_matrix.specs.Made.{AreEmptyRowsOf};
ghost use Rattle.gf2_matrix.specs.Rows.{IsOnlyChange, IsSourcedRow, IsTurnedRow, empty_head};
ghost use Rattle.gf2_matrix.specs.Stretches.{AreJoined};
ghost use Rattle.gf2_matrix.specs.Views.{words_for};

use crate::packed::{PackedRow, Part, Summand, counts_of};
use gf2_rows::{WordRow, WordTable};
use std::alloc::{AllocError, Global};
use std::marker::Model;

/// What a row has beside its words.
#[derive(Drop)]
struct RowHead {
    part: usize,
    /// How many words its bits have.
    split: usize,
    right: bool,
}

/// The rows of a matrix, whose words are in tables, so that rows with few variables and sources take little room.
///
/// Contracts see them as a list.
#[derive(Drop)]
pub(crate) struct Rows {
    heads: Vec<RowHead>,
    /// For each row the words of its bits, and then those of its sources if all are few: they are added as one.
    words: WordTable,
    /// For each row the words of its sources otherwise.
    apart: WordTable,
}

impl Model for Rows {
    ghost use Rattle.std.specs.Prelude.{List};
    ghost use Rattle.gf2_matrix.specs.declared.packed.PackedRow.{PackedRow};

    ghost Value = { List PackedRow };

    ghost use Rattle.gf2_matrix.specs.Rows.{rows_of, AreTables};

    ghost view = { λ r. rows_of r.heads.items r.words r.apart };

    ghost invariant = { λ r. AreTables r.heads.items r.words r.apart };
}

impl Rows {
    /// A row for each of the homes, which is its part, without a variable and without a source, with right side 1.
    pub(crate) fn make(alloc: Global, parts: &[Part], homes: &[usize]) -> Result<Rows, AllocError>
        requires homes { (k : ℕ) → k < length homes.now → slice_index homes.now k < length parts.now }
        requires few_columns { (p : ℕ) → p < length parts.now → length (window_at (map window parts.now) p).columns ≤ MAX_VARIABLE }
        requires few_numbers { (p : ℕ) → p < length parts.now → length (window_at (map window parts.now) p).numbers < 4294967296 }
        ensures { IfOk result (AreEmptyRowsOf (map window parts.now) homes.now) }
    {
        let heads = heads_of(alloc, parts, homes)?;
        let mut widths = widths_of(alloc, parts, homes)?;
        let mut source_widths = source_widths_of(alloc, parts, homes)?;
        join_widths(&mut widths, &mut source_widths);
        let words = WordTable::make(alloc, &widths)?;
        let apart = WordTable::make(alloc, &source_widths)?;
        Ok(Rows {
            heads,
            words,
            apart,
        })
    }

    /// Their number.
    #[inline(always)]
    pub(crate) fn len(&self) -> usize
        ensures { result ≡ length self.now }
    {
        self.heads.len()
    }

    /// A look at a row.
    #[inline(always)]
    pub(crate) fn row(&self, row: usize) -> PackedRow<'_>
        requires { row < length self.now }
        ensures { (d : PackedRow) → result ≡ slice_index_or self.now row d }
    {
        let head = &self.heads[row];
        match split_row(&self.words, row, head.split) {
            Some((bits, sources)) => PackedRow {
                part: head.part,
                bits: WordRow::whole(bits),
                right: head.right,
                sources: WordRow::whole(sources),
            },
            None => PackedRow {
                part: head.part,
                bits: self.words.row(row),
                right: head.right,
                sources: self.apart.row(row),
            },
        }
    }

    /// Turns over a bit of a row.
    pub(crate) fn flip(&mut self, row: usize, k: u64)
        requires row_in { row < length self.old }
        requires within { (d : PackedRow) → k < 64 * length (slice_index_or self.old row d).bits }
        ensures others { IsOnlyChange row self.old self.new }
        ensures row { (d : PackedRow) → IsTurnedRow (λ j. eqb j k) false (slice_index_or self.old row d) (slice_index_or self.new row d) }
    {
        self.words.flip(row, k);
    }

    /// Turns over the right side of a row, if `turned`.
    pub(crate) fn turn_right(&mut self, row: usize, turned: bool)
        requires { row < length self.old }
        ensures others { IsOnlyChange row self.old self.new }
        ensures row { (d : PackedRow) → IsTurnedRow (λ j. false) turned (slice_index_or self.old row d) (slice_index_or self.new row d) }
    {
        self.heads[row].right ^= turned;
    }

    /// Gives a row the source at this place of its part.
    pub(crate) fn put_source(&mut self, row: usize, place: u64)
        requires row_in { row < length self.old }
        requires within { (d : PackedRow) → place < 64 * length (slice_index_or self.old row d).sources }
        ensures others { IsOnlyChange row self.old self.new }
        ensures row { (d : PackedRow) → IsSourcedRow place (slice_index_or self.old row d) (slice_index_or self.new row d) }
    {
        let split = self.heads[row].split;
        if split < self.words.row(row).len() {
            self.words.put(row, 64 * split as u64 + place, true);
        } else {
            self.apart.put(row, place, true);
        }
    }

    /// Adds a row to a row.
    #[inline(always)]
    pub(crate) fn add(&mut self, row: usize, summand: &Summand<'_>)
        requires row_in { row < length self.old }
        requires sized { (d : PackedRow) → AreLengths (length summand.now.bits) (length summand.now.sources) (slice_index_or self.old row d) }
        ensures others { IsOnlyChange row self.old self.new }
        ensures row { (d : PackedRow) → IsSumRow (slice_index_or self.new row d) (slice_index_or self.old row d) summand.now }
    {
        self.heads[row].right ^= summand.right;
        self.words
            .add_span(row, summand.words, summand.span.0, summand.span.1);
        let (low, high) = summand.apart_span;
        if low < high {
            self.apart.add_span(row, summand.apart, low, high);
        }
    }
}

/// The words of a row before and after the place, if it is laid out whole and some are after.
#[inline(always)]
fn split_row(words: &WordTable, row: usize, split: usize) -> Option<(&[u64], &[u64])>
    requires { row < length words.now }
    ensures { MatchOption result
        ((FEW < length (words_at words.now row)) ⊎ (length (words_at words.now row) ≤ split))
        (λ parts. (split < length (words_at words.now row)) × (parts.0.now ≡ take split (words_at words.now row)) × (parts.1.now ≡ drop split (words_at words.now row))) }
{
    let all = words.whole(row)?;
    if split < all.len() {
        return Some(all.split_at(split));
    }
    None
}

/// The heads of empty rows of these parts.
fn heads_of(alloc: Global, parts: &[Part], homes: &[usize]) -> Result<Vec<RowHead>, AllocError>
    requires homes { (k : ℕ) → k < length homes.now → slice_index homes.now k < length parts.now }
    requires few { (p : ℕ) → p < length parts.now → length (window_at (map window parts.now) p).columns ≤ MAX_VARIABLE }
    ensures { IfOk result (λ heads. heads.items ≡ map (λ p. empty_head (words_for (start (window_at (map window parts.now) p) + length (window_at (map window parts.now) p).columns)) p) homes.now) }
{
    let mut heads = Vec::with_capacity(alloc, homes.len())?;
    for home in homes {
        heads.push(RowHead {
            part: *home,
            split: parts[*home].words(),
            right: true,
        })?;
    }
    Ok(heads)
}

/// Makes the words of each row's sources follow those of its bits where all are few.
fn join_widths(bits: &mut [usize], sources: &mut [usize])
    requires same { length sources.old ≡ length bits.old }
    requires few_bits { (k : ℕ) → k < length bits.old → slice_index bits.old k < 2 ^ 32 }
    requires few_sources { (k : ℕ) → k < length sources.old → slice_index sources.old k < 2 ^ 32 }
    ensures { AreJoined bits.old sources.old bits.new sources.new (length bits.old) }
{
    for k in 0..bits.len() {
        let (first, apart) = counts_of(bits[k], sources[k]);
        bits[k] = first;
        sources[k] = apart;
    }
}

/// How many words the bits of each row take.
fn widths_of(alloc: Global, parts: &[Part], homes: &[usize]) -> Result<Vec<usize>, AllocError>
    requires homes { (k : ℕ) → k < length homes.now → slice_index homes.now k < length parts.now }
    requires few { (p : ℕ) → p < length parts.now → length (window_at (map window parts.now) p).columns ≤ MAX_VARIABLE }
    ensures { IfOk result (λ widths. widths.items ≡ map (λ p. words_for (start (window_at (map window parts.now) p) + length (window_at (map window parts.now) p).columns)) homes.now) }
{
    let mut widths = Vec::with_capacity(alloc, homes.len())?;
    for home in homes {
        widths.push(parts[*home].words())?;
    }
    Ok(widths)
}

/// How many words the sources of each row take.
fn source_widths_of(
    alloc: Global,
    parts: &[Part],
    homes: &[usize],
) -> Result<Vec<usize>, AllocError>
    requires homes { (k : ℕ) → k < length homes.now → slice_index homes.now k < length parts.now }
    requires few { (p : ℕ) → p < length parts.now → length (window_at (map window parts.now) p).numbers < 4294967296 }
    ensures { IfOk result (λ widths. widths.items ≡ map (λ p. words_for (length (window_at (map window parts.now) p).numbers)) homes.now) }
{
    let mut widths = Vec::with_capacity(alloc, homes.len())?;
    for home in homes {
        widths.push(parts[*home].source_words())?;
    }
    Ok(widths)
}

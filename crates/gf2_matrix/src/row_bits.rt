//! The bits of one row.
ghost use Rattle.std.specs.Prelude.{◌≡◌, ℕ, ◌+◌, ◌*◌, ◌≤◌, ◌<◌, ◌^◌, length};
ghost use Rattle.gf2_rows.specs.Bits.{is_skipped};
ghost use Rattle.gf2_matrix.specs.Bits.{AreBits, IsBitOutside, IsNextBit, bits, has_bit, reach, sum_with};
ghost use Rattle.gf2_matrix.specs.Views.{is_bit_of};

use gf2_rows::WordRow;
use std::marker::Model;

/// The bits of one row, looked up once for many questions: one for each column of its part.
#[derive(Drop)]
pub struct RowBits<'m> {
    /// The part's first column.
    base: usize,
    /// How many columns the part has.
    columns: usize,
    words: WordRow<'m>,
    right: bool,
}

impl<'m> Model for RowBits<'m> {
    ghost use Rattle.gf2_matrix.specs.Bits.{Bits, bits_code};

    ghost Value = { Bits };

    ghost coded = { bits_code };

    ghost use Rattle.gf2_matrix.specs.Bits.{AreBits, bits};

    ghost view = { λ b. bits b.base b.columns b.words b.right };

    ghost invariant = { λ b. AreBits b.base b.columns b.words };
}

impl<'m> RowBits<'m> {
    /// The row of these words, in a part of so many columns from `base` on.
    #[inline(always)]
    pub(crate) fn new(base: usize, columns: usize, words: WordRow<'m>, right: bool) -> Self
        requires { AreBits base columns words }
        ensures { result ≡ bits base columns words.entry right }
    {
        RowBits {
            base,
            columns,
            words,
            right,
        }
    }

    /// The row's right side.
    #[inline(always)]
    pub fn right(&self) -> bool
        ensures { result ≡ self.now.right }
    {
        self.right
    }

    /// The sum of the bits that the mask has too, modulo two.
    #[inline(always)]
    pub fn parity_and(&self, mask: &[u64]) -> bool
        requires { reach self.now ≤ length mask.now }
        ensures { result ≡ sum_with self.now mask.now }
    {
        let first = self.base / 64;
        self.words
            .parity_and(&mask[first..first + self.words.len()])
    }

    /// The columns of its part: the first, and how many.
    #[inline(always)]
    pub fn span(&self) -> (usize, usize)
        ensures base { result.0 ≡ self.now.base }
        ensures columns { result.1 ≡ self.now.columns }
        ensures few { result.0 + result.1 < 2 ^ 32 }
    {
        (self.base, self.columns)
    }

    /// Whether the row has the column.
    #[inline(always)]
    pub fn has(&self, column: usize) -> bool
        ensures { result ≡ has_bit self.now column }
    {
        is_set(64 * (self.base / 64), &self.words, column)
    }

    /// The row's first column from `from` on.
    #[inline(always)]
    pub fn next(&self, from: usize) -> Option<usize>
        ensures { IsNextBit self.now from result }
    {
        let low = 64 * (self.base / 64);
        let start = from.saturating_sub(low).min(64 * self.words.len());
        match self.words.next_one(start as u64) {
            Some(place) => Some(low + place as usize),
            None => None,
        }
    }

    /// A column of the row outside the mask, but for one to skip: sought from the block of words of the column `near`
    /// on, and then among the blocks before, so that columns that are left in turn are found without a look at those
    /// passed before.
    #[inline(always)]
    pub fn outside_near(
        &self,
        mask: &[u64],
        skip: Option<usize>,
        near: Option<usize>,
    ) -> Option<usize>
        requires { reach self.now ≤ length mask.now }
        ensures { IsBitOutside self.now mask.now skip result }
    {
        let first = self.base / 64;
        let window = &mask[first..first + self.words.len()];
        let word = word_of(near, first);
        match self
            .words
            .outside_near(window, skip_from(skip, first), word)
        {
            Some(place) => Some(64 * first + place as usize),
            None => None,
        }
    }
}

/// Whether the words, whose first bit is that of column `low`, have the column.
#[inline(always)]
fn is_set(low: usize, words: &WordRow<'_>, column: usize) -> bool
    requires { length words.now < 2 ^ 32 }
    ensures { result ≡ is_bit_of low words.now column }
{
    column >= low && column - low < 64 * words.len() && words.bit((column - low) as u64)
}

/// The position to skip in a window that begins at this word.
fn skip_from(skip: Option<usize>, first: usize) -> Option<u64>
    requires { 64 * first < 4294967296 }
    ensures { (k : ℕ) → is_skipped result k ≡ is_skipped skip (64 * first + k) }
{
    match skip {
        Some(column) if column >= 64 * first => Some((column - 64 * first) as u64),
        _ => None,
    }
}

/// The word of the column in a window that begins at this word, or the window's first.
fn word_of(column: Option<usize>, first: usize) -> usize {
    match column {
        Some(column) => (column / 64).saturating_sub(first),
        None => 0,
    }
}

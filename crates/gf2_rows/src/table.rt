//! Rows of words that are kept by their few words where they can be.
ghost use Rattle.std.specs.Prelude.{◌≡◌, ℕ, ◌+◌, ◌*◌, ◌/◌, ◌<◌, ◌≤◌, ◌^◌, if◌then◌else◌, nat_eq, not, length, map, replicate, slice_index, slice_set, IfOk, MatchOption};
ghost use Rattle.std.specs.Int.RustNames.{bit_xor};
ghost use Rattle.std.specs.Simd.Lanes.{zip2};
ghost use Rattle.cx_base.specs.Literals.{differ};
ghost use Rattle.gf2_rows.specs.Bits.{bits_of, bit_of};
ghost use Rattle.gf2_rows.specs.Tables.{words_at, AreOtherWords, IsChangedAt, IsZeroOutside};
ghost use Rattle.gf2_rows.specs.declared.few.TheConstants.{FEW};

use crate::head::{Layout, TableHead};
use crate::pool::{add_part, lay_rows, part, room_of, start_up_to};
use crate::word_row::WordRow;
use std::alloc::{AllocError, Global};
use std::marker::Model;

/// Rows of words, each of a width of its own.
///
/// Contracts see the words of each row, laid out whole. A wide row takes the memory of a few words until more of its words
/// are not zero. Then it is laid out up to the last of these, in memory that was taken when the table was made. If it needs
/// more later, it is laid out once more, whole, and stays so.
#[derive(Drop)]
pub struct WordTable {
    heads: Vec<TableHead>,
    /// The words of the rows that are laid out, with capacity for all that may have to be yet.
    pool: Vec<u64>,
}

impl Model for WordTable {
    ghost use Rattle.std.specs.Prelude.{List, ℕ, vec_capacity};

    ghost Value = { List (List ℕ) };

    ghost use Rattle.gf2_rows.specs.Heads.{rows_in, AreKept};

    ghost view = { λ t. rows_in t.pool.items t.heads.items };

    ghost invariant = { λ t. AreKept (vec_capacity t.pool) t.pool.items t.heads.items };
}

impl WordTable {
    /// A table of zero rows of these widths. It takes all the memory that the rows may ever need.
    pub fn make(alloc: Global, widths: &[usize]) -> Result<WordTable, AllocError>
        requires few { (i : ℕ) → i < length widths.now → slice_index widths.now i < 2 ^ 32 }
        ensures { IfOk result (λ t. t ≡ map (λ w. replicate w 0) widths.now) }
    {
        let room = room_of(widths)?;
        let mut heads = Vec::with_capacity(alloc, widths.len())?;
        let mut pool = Vec::with_capacity(alloc, room)?;
        lay_rows(widths, &mut heads, &mut pool);
        Ok(WordTable { heads, pool })
    }

    /// How many rows it has.
    #[inline(always)]
    pub fn rows(&self) -> usize
        ensures { result ≡ length self.now }
    {
        self.heads.len()
    }

    /// A row.
    #[inline(always)]
    pub fn row(&self, row: usize) -> WordRow<'_>
        requires { row < length self.now }
        ensures { result ≡ words_at self.now row }
    {
        let head = &self.heads[row];
        match head.layout {
            Layout::Whole(start) => WordRow::whole(part(&self.pool, start, head.few.len())),
            Layout::Short(start, count) => {
                WordRow::short(part(&self.pool, start, count), head.few.len())
            }
            Layout::Few => WordRow::few(&head.few),
        }
    }

    /// The words of a row that is laid out whole, as each is that has at most `FEW`.
    #[inline(always)]
    pub fn whole(&self, row: usize) -> Option<&[u64]>
        requires { row < length self.now }
        ensures { MatchOption result (FEW < length (words_at self.now row)) (λ words. words.now ≡ words_at self.now row) }
    {
        let head = &self.heads[row];
        match head.layout {
            Layout::Whole(start) => Some(part(&self.pool, start, head.few.len())),
            _ => None,
        }
    }

    /// Adds to one word of a row.
    #[inline(always)]
    fn add_word(&mut self, row: usize, place: usize, word: u64)
        requires row_in { row < length self.old }
        requires place_in { place < length (words_at self.old row) }
        requires small { place + 1 < 2 ^ 64 }
        ensures { self.new ≡ slice_set self.old row (slice_set (words_at self.old row) place (bit_xor (slice_index (words_at self.old row) place) word)) }
    {
        let head = &mut self.heads[row];
        if head.add_word(place, word) {
            return;
        }
        let start = start_up_to(&mut self.heads, &mut self.pool, row, place + 1);
        self.pool[start + place] ^= word;
    }

    /// Turns the bit at `k` of a row over.
    #[inline]
    pub fn flip(&mut self, row: usize, k: u64)
        requires row_in { row < length self.old }
        requires bit_in { k < 64 * length (words_at self.old row) }
        ensures changed { IsChangedAt row self.old self.new }
        ensures bits { bits_of (words_at self.new row) ≡ slice_set (bits_of (words_at self.old row)) k (not (bit_of (words_at self.old row) k)) }
        ensures others { AreOtherWords (k / 64) (words_at self.old row) (words_at self.new row) }
    {
        self.add_word(row, (k / 64) as usize, 1 << (k % 64));
    }

    /// Sets the bit at `k` of a row to `value`.
    #[inline]
    pub fn put(&mut self, row: usize, k: u64, value: bool)
        requires row_in { row < length self.old }
        requires bit_in { k < 64 * length (words_at self.old row) }
        ensures changed { IsChangedAt row self.old self.new }
        ensures bits { (j : ℕ) → bit_of (words_at self.new row) j ≡ (if nat_eq j k then value else bit_of (words_at self.old row) j) }
        ensures others { AreOtherWords (k / 64) (words_at self.old row) (words_at self.new row) }
    {
        if self.row(row).bit(k) != value {
            self.flip(row, k);
        }
    }

    /// Adds words to a row, position by position modulo two.
    #[inline]
    pub fn add(&mut self, row: usize, words: &[u64])
        requires row_in { row < length self.old }
        requires same { length words.now ≡ length (words_at self.old row) }
        ensures changed { IsChangedAt row self.old self.new }
        ensures sum { bits_of (words_at self.new row) ≡ zip2 differ (bits_of (words_at self.old row)) (bits_of words.now) }
    {
        self.add_span(row, words, 0, words.len());
    }

    /// Adds words that are zero but those from `low` up to `high`. Its time is in these.
    #[inline(always)]
    pub fn add_span(&mut self, row: usize, words: &[u64], low: usize, high: usize)
        requires row_in { row < length self.old }
        requires same { length words.now ≡ length (words_at self.old row) }
        requires span { IsZeroOutside words.now low high }
        ensures changed { IsChangedAt row self.old self.new }
        ensures sum { bits_of (words_at self.new row) ≡ zip2 differ (bits_of (words_at self.old row)) (bits_of words.now) }
    {
        // Most rows are whole, and what is added to one is short enough to be part of its caller.
        match self.heads[row].layout {
            Layout::Whole(start) => add_part(&mut self.pool, start + low, &words[low..high]),
            _ => self.add_up_to(row, words, low, high),
        }
    }

    /// Adds such words to a row that may have to be laid out.
    #[inline(never)]
    fn add_up_to(&mut self, row: usize, words: &[u64], low: usize, high: usize)
        requires row_in { row < length self.old }
        requires same { length words.now ≡ length (words_at self.old row) }
        requires span { IsZeroOutside words.now low high }
        ensures changed { IsChangedAt row self.old self.new }
        ensures sum { bits_of (words_at self.new row) ≡ zip2 differ (bits_of (words_at self.old row)) (bits_of words.now) }
    {
        let head = &mut self.heads[row];
        let from = head.add_words(words, low, high);
        if from >= high {
            return;
        }
        let start = start_up_to(&mut self.heads, &mut self.pool, row, high);
        add_part(&mut self.pool, start + from, &words[from..high]);
    }
}

//! What a table knows of a row.
ghost use Rattle.std.specs.Prelude.{◌≡◌, ℕ, ◌<◌, ◌≤◌, List, length, slice_index, slice_set, true, false};
ghost use Rattle.std.specs.Int.RustNames.{bit_xor};
ghost use Rattle.gf2_rows.specs.Few.{AddsWithin};

use crate::few::FewWords;

/// How a row's words are kept.
#[derive(Clone, Copy, Drop)]
pub(crate) enum Layout {
    /// By the few that are not zero.
    Few,
    /// From a place of the pool on, so many of them. The others are zero.
    Short(usize, usize),
    /// From a place of the pool on, all of them.
    Whole(usize),
}

/// A row: its words while few of them are not zero, and where they are once they are laid out.
#[derive(Drop)]
pub(crate) struct TableHead {
    pub(crate) layout: Layout,
    /// All the row's words while they are not laid out, and then as many.
    pub(crate) few: FewWords,
}

impl TableHead {
    ghost use Rattle.gf2_rows.specs.Heads.{row_in};

    /// Adds to the word at `place`, unless the row is laid out or has to be.
    #[inline(always)]
    pub(crate) fn add_word(&mut self, place: usize, word: u64) -> bool
        requires { place < length self.old.few }
        ensures layout { self.new.layout ≡ self.old.layout }
        ensures len { length self.new.few ≡ length self.old.few }
        ensures added { result ≡ true → (pool : List ℕ) → row_in pool self.new ≡ slice_set (row_in pool self.old) place (bit_xor (slice_index (row_in pool self.old) place) word) }
        ensures full { result ≡ false → self.new.few ≡ self.old.few }
    {
        match self.layout {
            Layout::Few => self.few.add_word(place, word),
            _ => false,
        }
    }

    /// Adds the words from `low` up to `high` in turn until the row is laid out or has to be, and gives the place of the first
    /// that is left, or `high`.
    #[inline(always)]
    pub(crate) fn add_words(&mut self, words: &[u64], low: usize, high: usize) -> usize
        requires same { length words.now ≡ length self.old.few }
        requires order { low ≤ high }
        requires within { high ≤ length words.now }
        ensures layout { self.new.layout ≡ self.old.layout }
        ensures len { length self.new.few ≡ length self.old.few }
        ensures order { low ≤ result }
        ensures within { result ≤ high }
        ensures added { (pool : List ℕ) → AddsWithin (row_in pool self.old) words.now low result (row_in pool self.new) }
    {
        match self.layout {
            Layout::Few => self.few.add_words(words, low, high),
            _ => low,
        }
    }
}

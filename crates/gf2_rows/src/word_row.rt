//! A look at a row, however it is kept.
ghost use Rattle.std.specs.Prelude.{◌≡◌, ℕ, ◌*◌, ◌<◌, ◌≤◌, ◌^◌, ◌&&◌, length, count_by, MatchOption, None, true, IsTrue, ◌↔◌};
ghost use Rattle.std.specs.Simd.Lanes.{zip2};
ghost use Rattle.std.specs.Slice.Scan.{HoldsNowhere, IsFirstPlace};
ghost use Rattle.cx_base.specs.Parity.{odd_sum};
ghost use Rattle.gf2_rows.specs.Bits.{bits_of, bit_of, is_outside, IsCountBelow};
ghost use Rattle.gf2_rows.specs.Few.{padded};

use crate::few::FewWords;
use crate::short::ShortWords;
use std::marker::Model;

/// How the words are kept.
#[derive(Drop)]
enum Kept<'a> {
    Few(&'a FewWords),
    Short(ShortWords<'a>),
    Whole(&'a [u64]),
}

/// A row's words.
///
/// The methods are the crate's functions of their names. Where few words are not zero, their time is in these.
#[derive(Drop)]
pub struct WordRow<'a> {
    kept: Kept<'a>,
}

impl<'a> Model for WordRow<'a> {
    ghost use Rattle.std.specs.Prelude.{List, ℕ};

    ghost Value = { List ℕ };

    ghost use Rattle.gf2_rows.specs.Rows.{words_kept};

    ghost view = { λ r. words_kept r.kept };
}

impl<'a> WordRow<'a> {
    /// The row of these words.
    #[inline(always)]
    pub fn whole(words: &'a [u64]) -> Self
        ensures { result ≡ words.now }
    {
        WordRow {
            kept: Kept::Whole(words),
        }
    }

    /// The row of these words.
    #[inline(always)]
    pub(crate) fn few(words: &'a FewWords) -> Self
        ensures { result ≡ words.now }
    {
        WordRow {
            kept: Kept::Few(words),
        }
    }

    /// The row of these words and zeros after them, `len` in all.
    #[inline(always)]
    pub(crate) fn short(words: &'a [u64], len: usize) -> Self
        requires { length words.now ≤ len }
        ensures { result ≡ padded len words.now }
    {
        WordRow {
            kept: Kept::Short(ShortWords::new(words, len)),
        }
    }

    /// How many words it has.
    #[inline(always)]
    pub fn len(&self) -> usize
        ensures { result ≡ length self.now }
    {
        match self.kept {
            Kept::Few(few) => few.len(),
            Kept::Short(ref short) => short.len(),
            Kept::Whole(words) => words.len(),
        }
    }

    /// Whether it has no word.
    #[inline(always)]
    pub fn is_empty(&self) -> bool
        ensures { IsTrue result ↔ (length self.now ≡ 0) }
    {
        self.len() == 0
    }

    /// The bit at `k`.
    #[inline(always)]
    pub fn bit(&self, k: u64) -> bool
        requires { k < 64 * length self.now }
        ensures { result ≡ bit_of self.now k }
    {
        match self.kept {
            Kept::Few(few) => few.bit(k),
            Kept::Short(ref short) => short.bit(k),
            Kept::Whole(words) => crate::bit(words, k),
        }
    }

    /// The number of ones, in at most 4,294,967,295 words.
    #[inline(always)]
    pub fn ones(&self) -> u64
        requires { length self.now < 2 ^ 32 }
        ensures { result ≡ count_by (λ b. b) (bits_of self.now) }
    {
        match self.kept {
            Kept::Few(few) => few.ones(),
            Kept::Short(ref short) => short.ones(),
            Kept::Whole(words) => crate::ones(words),
        }
    }

    /// The number of ones if it is below `limit`, in at most 4,294,967,295 words. It counts no further than to the limit.
    #[inline]
    pub fn fewer_ones(&self, limit: u64) -> Option<u64>
        requires { length self.now < 2 ^ 32 }
        ensures { IsCountBelow limit self.now result }
    {
        match self.kept {
            Kept::Few(few) => few.fewer_ones(limit),
            Kept::Short(ref short) => short.fewer_ones(limit),
            Kept::Whole(words) => crate::plain::fewer_ones(words, limit),
        }
    }

    /// The least position from `from` on that is set, in at most 4,294,967,295 words.
    #[inline(always)]
    pub fn next_one(&self, from: u64) -> Option<u64>
        requires few { length self.now < 2 ^ 32 }
        requires within { from ≤ 64 * length self.now }
        ensures { MatchOption result
            (HoldsNowhere (bit_of self.now) from (64 * length self.now))
            (λ k. (k < 64 * length self.now) × IsFirstPlace (bit_of self.now) from (64 * length self.now) k) }
    {
        match self.kept {
            Kept::Few(few) => few.next_one(from),
            Kept::Short(ref short) => short.next_one(from),
            Kept::Whole(words) => crate::next_one(words, from),
        }
    }

    /// The least position from `from` on that is set in the row and not set in `mask`, in at most 4,294,967,295 words.
    #[inline(always)]
    pub fn next_outside(&self, mask: &[u64], from: u64) -> Option<u64>
        requires same { length self.now ≡ length mask.now }
        requires few { length self.now < 2 ^ 32 }
        requires within { from ≤ 64 * length self.now }
        ensures { MatchOption result
            (HoldsNowhere (is_outside self.now mask.now None) from (64 * length self.now))
            (λ k. (k < 64 * length self.now) × IsFirstPlace (is_outside self.now mask.now None) from (64 * length self.now) k) }
    {
        match self.kept {
            Kept::Few(few) => few.first_open(mask, None, from),
            Kept::Short(ref short) => short.next_outside(mask, from),
            Kept::Whole(words) => crate::next_outside(words, mask, from),
        }
    }

    /// The least position that is set in the row, not set in `mask` and not `skip`, in at most 4,294,967,295 words.
    #[inline(always)]
    pub fn first_outside(&self, mask: &[u64], skip: Option<u64>) -> Option<u64>
        requires same { length self.now ≡ length mask.now }
        requires few { length self.now < 2 ^ 32 }
        ensures { MatchOption result
            (HoldsNowhere (is_outside self.now mask.now skip) 0 (64 * length self.now))
            (λ k. (k < 64 * length self.now) × IsFirstPlace (is_outside self.now mask.now skip) 0 (64 * length self.now) k) }
    {
        match self.kept {
            Kept::Few(few) => few.first_open(mask, skip, 0),
            Kept::Short(ref short) => short.first_outside(mask, skip),
            Kept::Whole(words) => crate::first_outside(words, mask, skip),
        }
    }

    /// A position that is set in the row, not set in `mask` and not `skip`, in at most 4,294,967,295 words. In a whole row it
    /// is sought from the block of the word `near` on, and then among the blocks before.
    #[inline(always)]
    pub fn outside_near(&self, mask: &[u64], skip: Option<u64>, near: usize) -> Option<u64>
        requires same { length self.now ≡ length mask.now }
        requires few { length self.now < 2 ^ 32 }
        ensures { MatchOption result
            (HoldsNowhere (is_outside self.now mask.now skip) 0 (64 * length self.now))
            (λ k. (k < 64 * length self.now) × (is_outside self.now mask.now skip k ≡ true)) }
    {
        match self.kept {
            Kept::Few(few) => few.first_open(mask, skip, 0),
            Kept::Short(ref short) => short.outside_near(mask, skip, near),
            Kept::Whole(words) => crate::outside_near(words, mask, skip, near),
        }
    }

    /// The sum of the products with the other row's bits, modulo two.
    #[inline(always)]
    pub fn parity_and(&self, other: &[u64]) -> bool
        requires { length self.now ≡ length other.now }
        ensures { result ≡ odd_sum (zip2 ◌&&◌ (bits_of self.now) (bits_of other.now)) }
    {
        match self.kept {
            Kept::Few(few) => few.parity_and(other),
            Kept::Short(ref short) => short.parity_and(other),
            Kept::Whole(words) => crate::parity_and(words, other),
        }
    }

    /// Writes its words.
    #[inline(always)]
    pub fn copy_to(&self, into: &mut [u64])
        requires { length into.old ≡ length self.now }
        ensures { into.new ≡ self.now }
    {
        match self.kept {
            Kept::Few(few) => few.copy_to(into),
            Kept::Short(ref short) => short.copy_to(into),
            Kept::Whole(words) => into.copy_from_slice(words),
        }
    }
}

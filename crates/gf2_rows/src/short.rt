//! The words of a row that is zero from a place on.
ghost use Rattle.std.specs.Prelude.{◌≡◌, ℕ, ◌*◌, ◌<◌, ◌≤◌, ◌^◌, ◌&&◌, length, count_by, MatchOption, None, true};
ghost use Rattle.std.specs.Simd.Lanes.{zip2};
ghost use Rattle.std.specs.Slice.Scan.{HoldsNowhere};
ghost use Rattle.cx_base.specs.Parity.{odd_sum};
ghost use Rattle.gf2_rows.specs.Bits.{bits_of, bit_of, is_outside, IsCountBelow};
ghost use Rattle.gf2_rows.specs.Few.{FirstFrom, padded};

use std::marker::Model;

/// The first words of a row, of which the others are zero.
///
/// Contracts see all the words.
#[derive(Drop)]
pub(crate) struct ShortWords<'a> {
    words: &'a [u64],
    len: usize,
}

impl<'a> Model for ShortWords<'a> {
    ghost use Rattle.std.specs.Prelude.{List, ℕ, ◌≤◌, length};

    ghost Value = { List ℕ };

    ghost use Rattle.gf2_rows.specs.Few.{padded};

    ghost view = { λ s. padded s.len s.words.now };

    ghost invariant = { λ s. length s.words.now ≤ s.len };
}

impl<'a> ShortWords<'a> {
    /// These words and zeros after them, `len` in all.
    #[inline(always)]
    pub(crate) fn new(words: &'a [u64], len: usize) -> Self
        requires { length words.now ≤ len }
        ensures { result ≡ padded len words.now }
    {
        ShortWords { words, len }
    }

    /// How many words there are, with the zeros.
    #[inline(always)]
    pub(crate) fn len(&self) -> usize
        ensures { result ≡ length self.now }
    {
        self.len
    }

    /// The bit at `k`.
    #[inline(never)]
    pub(crate) fn bit(&self, k: u64) -> bool
        requires { k < 64 * length self.now }
        ensures { result ≡ bit_of self.now k }
    {
        if k / 64 >= self.words.len() as u64 {
            return false;
        }
        crate::bit(self.words, k)
    }

    /// The number of ones, in at most 4,294,967,295 words.
    #[inline(never)]
    pub(crate) fn ones(&self) -> u64
        requires { length self.now < 2 ^ 32 }
        ensures { result ≡ count_by (λ b. b) (bits_of self.now) }
    {
        crate::ones(self.words)
    }

    /// The number of ones if it is below `limit`, in at most 4,294,967,295 words.
    #[inline(never)]
    pub(crate) fn fewer_ones(&self, limit: u64) -> Option<u64>
        requires { length self.now < 2 ^ 32 }
        ensures { IsCountBelow limit self.now result }
    {
        crate::plain::fewer_ones(self.words, limit)
    }

    /// The least position from `from` on that is set, in at most 4,294,967,295 words.
    #[inline(never)]
    pub(crate) fn next_one(&self, from: u64) -> Option<u64>
        requires { length self.now < 2 ^ 32 }
        ensures { FirstFrom (bit_of self.now) from (64 * length self.now) result }
    {
        if from / 64 >= self.words.len() as u64 {
            return None;
        }
        crate::next_one(self.words, from)
    }

    /// The least position from `from` on that is set and not set in `mask`, in at most 4,294,967,295 words.
    #[inline(never)]
    pub(crate) fn next_outside(&self, mask: &[u64], from: u64) -> Option<u64>
        requires same { length self.now ≡ length mask.now }
        requires few { length self.now < 2 ^ 32 }
        ensures { FirstFrom (is_outside self.now mask.now None) from (64 * length self.now) result }
    {
        if from / 64 >= self.words.len() as u64 {
            return None;
        }
        crate::next_outside(self.words, &mask[..self.words.len()], from)
    }

    /// The least position that is set, not set in `mask` and not `skip`, in at most 4,294,967,295 words.
    #[inline(never)]
    pub(crate) fn first_outside(&self, mask: &[u64], skip: Option<u64>) -> Option<u64>
        requires same { length self.now ≡ length mask.now }
        requires few { length self.now < 2 ^ 32 }
        ensures { FirstFrom (is_outside self.now mask.now skip) 0 (64 * length self.now) result }
    {
        crate::first_outside(self.words, &mask[..self.words.len()], skip)
    }

    /// A position that is set, not set in `mask` and not `skip`, in at most 4,294,967,295 words: sought from the block of the
    /// word `near` on, and then among the blocks before.
    #[inline(never)]
    pub(crate) fn outside_near(&self, mask: &[u64], skip: Option<u64>, near: usize) -> Option<u64>
        requires same { length self.now ≡ length mask.now }
        requires few { length self.now < 2 ^ 32 }
        ensures { MatchOption result
            (HoldsNowhere (is_outside self.now mask.now skip) 0 (64 * length self.now))
            (λ k. (k < 64 * length self.now) × (is_outside self.now mask.now skip k ≡ true)) }
    {
        crate::outside_near(self.words, &mask[..self.words.len()], skip, near)
    }

    /// The sum of the products with the other's bits, modulo two.
    #[inline(never)]
    pub(crate) fn parity_and(&self, other: &[u64]) -> bool
        requires { length self.now ≡ length other.now }
        ensures { result ≡ odd_sum (zip2 ◌&&◌ (bits_of self.now) (bits_of other.now)) }
    {
        crate::parity_and(self.words, &other[..self.words.len()])
    }

    /// Writes all the words.
    #[inline(never)]
    pub(crate) fn copy_to(&self, into: &mut [u64])
        requires { length into.old ≡ length self.now }
        ensures { into.new ≡ self.now }
    {
        let (front, rest) = into.split_at_mut(self.words.len());
        front.copy_from_slice(self.words);
        rest.fill(0);
    }
}

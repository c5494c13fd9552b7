//! The words of a row of which few are not zero.
ghost use Rattle.std.specs.Prelude.{◌≡◌, ℕ, ◌+◌, ◌*◌, ◌/◌, ◌<◌, ◌≤◌, ◌^◌, ◌&&◌, ◌==◌, length, count_by, slice_index, slice_set, replicate, take, MatchOption, IsTrue, true, false};
ghost use Rattle.std.specs.Int.RustNames.{bit_xor};
ghost use Rattle.std.specs.Simd.Lanes.{zip2};
ghost use Rattle.cx_base.specs.Parity.{odd_sum};
ghost use Rattle.gf2_rows.specs.Bits.{bits_of, bit_of, is_outside, IsCountBelow};
ghost use Rattle.gf2_rows.specs.Few.{FirstFrom, least_of, is_bit_in, AddsWithin};

use crate::plain::{self, open_bits};
use std::marker::Model;

/// How many words are kept with their places at most. A row that has no more is laid out whole.
pub const FEW: usize = 16;

/// Words that are zero but for a few, which are kept with their places.
///
/// Contracts see all the words.
#[derive(Drop)]
pub(crate) struct FewWords {
    len: usize,
    count: usize,
    places: [u32; FEW],
    words: [u64; FEW],
}

impl Model for FewWords {
    ghost use Rattle.std.specs.Prelude.{List, ℕ};

    ghost Value = { List ℕ };

    ghost use Rattle.gf2_rows.specs.Few.{laid_out, AreFew};

    ghost view = { λ f. laid_out f.len f.count f.places f.words };

    ghost invariant = { λ f. AreFew f.len f.count f.places };
}

/// Which of the first `count` places is this one.
#[inline]
fn entry_of(places: &[u32; FEW], count: usize, place: usize) -> Option<usize>
    requires { count ≤ FEW }
    ensures { MatchOption result
        ((i : ℕ) → i < count → slice_index places.now i ≡ place → ⊥)
        (λ i. (i < count) × (slice_index places.now i ≡ place)) }
{
    for i in 0..count {
        if places[i] as usize == place {
            return Some(i);
        }
    }
    None
}

/// The less of two places.
#[inline]
fn least(a: Option<u64>, b: Option<u64>) -> Option<u64>
    ensures { result ≡ least_of a b }
{
    match (a, b) {
        (Some(x), Some(y)) => Some(x.min(y)),
        (Some(x), None) => Some(x),
        (None, y) => y,
    }
}

/// The least position from `from` on that is set in the word at `place`.
#[inline]
fn first_in_word(word: u64, place: u64, from: u64) -> Option<u64>
    requires { place < 2 ^ 32 }
    ensures { (len : ℕ) → place < len → FirstFrom (is_bit_in word place) from (64 * len) result }
{
    if 64 * (place + 1) <= from {
        return None;
    }
    let start = from.max(64 * place);
    let rest = word >> (start % 64);
    if rest == 0 {
        return None;
    }
    Some(start + u64::from(rest.trailing_zeros()))
}

impl FewWords {
    /// So many words that are zero.
    pub(crate) fn make(len: usize) -> FewWords
        requires { len < 2 ^ 32 }
        ensures { result ≡ replicate len 0 }
    {
        FewWords {
            len,
            count: 0,
            places: [0; FEW],
            words: [0; FEW],
        }
    }

    /// How many words there are, with those that are zero.
    #[inline(always)]
    pub(crate) fn len(&self) -> usize
        ensures len { result ≡ length self.now }
        ensures small { result < 2 ^ 32 }
    {
        self.len
    }

    /// The word at `place`.
    #[inline]
    fn word(&self, place: usize) -> u64
        ensures { result ≡ slice_index self.now place }
    {
        match entry_of(&self.places, self.count, place) {
            Some(i) => self.words[i],
            None => 0,
        }
    }

    /// The bit at `k`.
    #[inline(never)]
    pub(crate) fn bit(&self, k: u64) -> bool
        requires { k < 64 * length self.now }
        ensures { result ≡ bit_of self.now k }
    {
        (self.word((k / 64) as usize) >> (k % 64)) & 1 == 1
    }

    /// Adds to the word at `place`, unless that would be one word too many.
    #[inline(never)]
    pub(crate) fn add_word(&mut self, place: usize, word: u64) -> bool
        requires { place < length self.old }
        ensures added { result ≡ true → self.new ≡ slice_set self.old place (bit_xor (slice_index self.old place) word) }
        ensures full { result ≡ false → self.new ≡ self.old }
    {
        match entry_of(&self.places, self.count, place) {
            Some(i) => {
                self.words[i] ^= word;
                return true;
            }
            None => {
                if self.count >= FEW {
                    return false;
                }
                self.places[self.count] = place as u32;
                self.words[self.count] = word;
                self.count += 1;
            }
        }
        true
    }

    /// Adds the words from `low` up to `high` in turn, and gives the place of the first that would be one word too many, or `high`.
    #[inline(never)]
    pub(crate) fn add_words(&mut self, words: &[u64], low: usize, high: usize) -> usize
        requires same { length words.now ≡ length self.old }
        requires order { low ≤ high }
        requires within { high ≤ length words.now }
        ensures order { low ≤ result }
        ensures within { result ≤ high }
        ensures added { AddsWithin self.old words.now low result self.new }
    {
        for place in low..high {
            let word = words[place];
            if word == 0 {
                continue;
            }
            if !self.add_word(place, word) {
                return place;
            }
        }
        high
    }

    /// The number of ones.
    #[inline(never)]
    pub(crate) fn ones(&self) -> u64
        ensures { result ≡ count_by (λ b. b) (bits_of self.now) }
    {
        plain::ones(&self.words[..self.count])
    }

    /// The number of ones if it is below `limit`.
    #[inline(never)]
    pub(crate) fn fewer_ones(&self, limit: u64) -> Option<u64>
        ensures { IsCountBelow limit self.now result }
    {
        plain::fewer_ones(&self.words[..self.count], limit)
    }

    /// The least position from `from` on that is set.
    #[inline(never)]
    pub(crate) fn next_one(&self, from: u64) -> Option<u64>
        ensures { FirstFrom (bit_of self.now) from (64 * length self.now) result }
    {
        let mut best = None;
        for i in 0..self.count {
            let place = u64::from(self.places[i]);
            best = least(best, first_in_word(self.words[i], place, from));
        }
        best
    }

    /// The least position from `from` on that is set, not set in `mask` and not `skip`.
    #[inline(never)]
    pub(crate) fn first_open(&self, mask: &[u64], skip: Option<u64>, from: u64) -> Option<u64>
        requires { length self.now ≡ length mask.now }
        ensures { FirstFrom (is_outside self.now mask.now skip) from (64 * length self.now) result }
    {
        let mut best = None;
        for i in 0..self.count {
            let place = self.places[i] as usize;
            let open = open_bits(self.words[i], mask[place], place as u64, skip);
            best = least(best, first_in_word(open, place as u64, from));
        }
        best
    }

    /// The sum of the products with the other's bits, modulo two.
    #[inline(never)]
    pub(crate) fn parity_and(&self, other: &[u64]) -> bool
        requires { length self.now ≡ length other.now }
        ensures { result ≡ odd_sum (zip2 ◌&&◌ (bits_of self.now) (bits_of other.now)) }
    {
        let mut sum = 0;
        for i in 0..self.count {
            sum ^= self.words[i] & other[self.places[i] as usize];
        }
        sum.count_ones() % 2 == 1
    }

    /// The place after the last word that is not zero, or `least` where that is more.
    #[inline(never)]
    pub(crate) fn end(&self, least: usize) -> usize
        requires { least ≤ length self.now }
        ensures least { least ≤ result }
        ensures within { result ≤ length self.now }
        ensures zeros { (i : ℕ) → result ≤ i → slice_index self.now i ≡ 0 }
    {
        let mut end = least;
        for i in 0..self.count {
            end = end.max(self.places[i] as usize + 1);
        }
        end
    }

    /// Writes the words for which there is room.
    #[inline(never)]
    pub(crate) fn copy_to(&self, into: &mut [u64])
        requires { length into.old ≤ length self.now }
        ensures { into.new ≡ take (length into.old) self.now }
    {
        into.fill(0);
        for i in 0..self.count {
            let place = self.places[i] as usize;
            if place < into.len() {
                into[place] = self.words[i];
            }
        }
    }
}

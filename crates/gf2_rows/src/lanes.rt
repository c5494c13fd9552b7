//! The kernels over lanes of eight words, with a plain loop for the rest.
ghost use Rattle.std.specs.Prelude.{◌≡◌, ◌*◌, ◌%◌, ◌<◌, ◌≤◌, ◌^◌, ◌&&◌, true, length, count_by, MatchOption};
ghost use Rattle.std.specs.Simd.Lanes.{zip2};
ghost use Rattle.std.specs.Slice.Scan.{HoldsNowhere, IsFirstPlace};
ghost use Rattle.cx_base.specs.Literals.{differ};
ghost use Rattle.cx_base.specs.Parity.{odd_sum};
ghost use Rattle.gf2_rows.specs.Bits.{bits_of, is_outside};

use crate::plain::{self, open_bits};
use std::simd::prelude::*;

/// Adds `other` to `row`, position by position modulo two.
#[inline]
pub fn add_into(row: &mut [u64], other: &[u64])
    requires { length row.old ≡ length other.now }
    ensures { bits_of row.new ≡ zip2 differ (bits_of row.old) (bits_of other.now) }
{
    // Where there is no whole block, pairs of words do it all, and are short enough to be part of its caller.
    if row.len() < 8 {
        add_in_pairs(row, other);
    } else {
        add_in_blocks(row, other);
    }
}

/// Adds two words at a time.
#[inline(always)]
fn add_in_pairs(row: &mut [u64], other: &[u64])
    requires { length row.old ≡ length other.now }
    ensures { bits_of row.new ≡ zip2 differ (bits_of row.old) (bits_of other.now) }
{
    for pair in 0..row.len() / 2 {
        let at = 2 * pair;
        let sum = u64x2::from_slice(&row[at..]) ^ u64x2::from_slice(&other[at..]);
        sum.copy_to_slice(&mut row[at..]);
    }
    if row.len() % 2 == 1 {
        let last = row.len() - 1;
        row[last] ^= other[last];
    }
}

/// Adds rows of any length.
fn add_in_blocks(row: &mut [u64], other: &[u64])
    requires { length row.old ≡ length other.now }
    ensures { bits_of row.new ≡ zip2 differ (bits_of row.old) (bits_of other.now) }
{
    let whole = row.len() / 8 * 8;
    let (blocks, rest) = row.split_at_mut(whole);
    let (other_blocks, other_rest) = other.split_at(whole);
    add_blocks(blocks, other_blocks);
    plain::add_into(rest, other_rest);
}

/// Adds whole blocks of eight words.
fn add_blocks(row: &mut [u64], other: &[u64])
    requires same { length row.old ≡ length other.now }
    requires whole { length row.old % 8 ≡ 0 }
    ensures { bits_of row.new ≡ zip2 differ (bits_of row.old) (bits_of other.now) }
{
    for block in 0..row.len() / 8 {
        let at = 8 * block;
        let sum = u64x8::from_slice(&row[at..]) ^ u64x8::from_slice(&other[at..]);
        sum.copy_to_slice(&mut row[at..]);
    }
}

/// The sum of the products of the two rows' bits, modulo two.
#[inline]
pub fn parity_and(a: &[u64], b: &[u64]) -> bool
    requires { length a.now ≡ length b.now }
    ensures { result ≡ odd_sum (zip2 ◌&&◌ (bits_of a.now) (bits_of b.now)) }
{
    if a.len() < 8 {
        return plain::parity_and(a, b);
    }
    parity_in_blocks(a, b)
}

/// That sum for rows of any length.
fn parity_in_blocks(a: &[u64], b: &[u64]) -> bool
    requires { length a.now ≡ length b.now }
    ensures { result ≡ odd_sum (zip2 ◌&&◌ (bits_of a.now) (bits_of b.now)) }
{
    let whole = a.len() / 8 * 8;
    let (a_blocks, a_rest) = a.split_at(whole);
    let (b_blocks, b_rest) = b.split_at(whole);
    parity_of_blocks(a_blocks, b_blocks) ^ plain::parity_and(a_rest, b_rest)
}

/// The parity of the common bits of whole blocks.
fn parity_of_blocks(a: &[u64], b: &[u64]) -> bool
    requires same { length a.now ≡ length b.now }
    requires whole { length a.now % 8 ≡ 0 }
    ensures { result ≡ odd_sum (zip2 ◌&&◌ (bits_of a.now) (bits_of b.now)) }
{
    let mut sums = u64x8::splat(0);
    for block in 0..a.len() / 8 {
        let at = 8 * block;
        sums ^= u64x8::from_slice(&a[at..]) & u64x8::from_slice(&b[at..]);
    }
    let sum = sums.reduce_xor();
    sum.count_ones() % 2 == 1
}

/// The number of ones, in at most 4,294,967,295 words.
pub fn ones(row: &[u64]) -> u64
    requires { length row.now < 2 ^ 32 }
    ensures { result ≡ count_by (λ b. b) (bits_of row.now) }
{
    let whole = row.len() / 8 * 8;
    let (blocks, rest) = row.split_at(whole);
    ones_of_blocks(blocks) + plain::ones(rest)
}

/// The number of ones in whole blocks.
fn ones_of_blocks(row: &[u64]) -> u64
    requires few { length row.now < 2 ^ 32 }
    requires whole { length row.now % 8 ≡ 0 }
    ensures { result ≡ count_by (λ b. b) (bits_of row.now) }
{
    let mut total = 0;
    for block in 0..row.len() / 8 {
        let at = 8 * block;
        total += u64x8::from_slice(&row[at..]).count_ones().reduce_sum();
    }
    total
}

/// The least position that is set in `row`, not set in `mask` and not `skip`, in at most 4,294,967,295 words.
pub fn first_outside(row: &[u64], mask: &[u64], skip: Option<u64>) -> Option<u64>
    requires same { length row.now ≡ length mask.now }
    requires few { length row.now < 2 ^ 32 }
    ensures { MatchOption result
        (HoldsNowhere (is_outside row.now mask.now skip) 0 (64 * length row.now))
        (λ k. (k < 64 * length row.now) × IsFirstPlace (is_outside row.now mask.now skip) 0 (64 * length row.now) k) }
{
    first_from(row, mask, skip, 0)
}

/// A position that is set in `row`, not set in `mask` and not `skip`, in at most 4,294,967,295 words: sought from the
/// block of the word `near` on, and then among the blocks before.
#[inline(always)]
pub fn outside_near(row: &[u64], mask: &[u64], skip: Option<u64>, near: usize) -> Option<u64>
    requires same { length row.now ≡ length mask.now }
    requires few { length row.now < 2 ^ 32 }
    ensures { MatchOption result
        (HoldsNowhere (is_outside row.now mask.now skip) 0 (64 * length row.now))
        (λ k. (k < 64 * length row.now) × (is_outside row.now mask.now skip k ≡ true)) }
{
    // Where there is no whole block, the plain loop does it all, and is short enough to be part of its caller.
    if row.len() < 8 {
        return plain::first_outside(row, mask, skip);
    }
    near_in_blocks(row, mask, skip, near)
}

/// Such a position in a row of any length.
fn near_in_blocks(row: &[u64], mask: &[u64], skip: Option<u64>, near: usize) -> Option<u64>
    requires same { length row.now ≡ length mask.now }
    requires few { length row.now < 2 ^ 32 }
    ensures { MatchOption result
        (HoldsNowhere (is_outside row.now mask.now skip) 0 (64 * length row.now))
        (λ k. (k < 64 * length row.now) × (is_outside row.now mask.now skip k ≡ true)) }
{
    let block = (near / 8).min(row.len() / 8);
    match first_from(row, mask, skip, block) {
        Some(place) => Some(place),
        None => first_in_blocks(row, mask, skip, 0, block),
    }
}

/// The least such position from this block on.
fn first_from(row: &[u64], mask: &[u64], skip: Option<u64>, block: usize) -> Option<u64>
    requires same { length row.now ≡ length mask.now }
    requires few { length row.now < 2 ^ 32 }
    requires within { 8 * block ≤ length row.now }
    ensures { MatchOption result
        (HoldsNowhere (is_outside row.now mask.now skip) (64 * (8 * block)) (64 * length row.now))
        (λ k. (k < 64 * length row.now) × IsFirstPlace (is_outside row.now mask.now skip) (64 * (8 * block)) (64 * length row.now) k) }
{
    let blocks = row.len() / 8;
    match first_in_blocks(row, mask, skip, block, blocks) {
        Some(place) => Some(place),
        None => first_in(row, mask, skip, 8 * blocks, row.len()),
    }
}

/// The least such position among the blocks from `low` up to `high`.
fn first_in_blocks(
    row: &[u64],
    mask: &[u64],
    skip: Option<u64>,
    low: usize,
    high: usize,
) -> Option<u64>
    requires same { length row.now ≡ length mask.now }
    requires few { length row.now < 2 ^ 32 }
    requires order { low ≤ high }
    requires within { 8 * high ≤ length row.now }
    ensures { MatchOption result
        (HoldsNowhere (is_outside row.now mask.now skip) (64 * (8 * low)) (64 * (8 * high)))
        (λ k. (k < 64 * (8 * high)) × IsFirstPlace (is_outside row.now mask.now skip) (64 * (8 * low)) (64 * (8 * high)) k) }
{
    for block in low..high {
        let at = 8 * block;
        let open = u64x8::from_slice(&row[at..]) & !u64x8::from_slice(&mask[at..]);
        if open.reduce_or() != 0 {
            if let Some(place) = first_in(row, mask, skip, at, at + 8) {
                return Some(place);
            }
        }
    }
    None
}

/// The least such position among the words from `low` up to `high`.
fn first_in(row: &[u64], mask: &[u64], skip: Option<u64>, low: usize, high: usize) -> Option<u64>
    requires same { length row.now ≡ length mask.now }
    requires few { length row.now < 2 ^ 32 }
    requires order { low ≤ high }
    requires within { high ≤ length row.now }
    ensures { MatchOption result
        (HoldsNowhere (is_outside row.now mask.now skip) (64 * low) (64 * high))
        (λ k. (k < 64 * high) × IsFirstPlace (is_outside row.now mask.now skip) (64 * low) (64 * high) k) }
{
    for i in low..high {
        let open = open_bits(row[i], mask[i], i as u64, skip);
        if open != 0 {
            return Some(64 * i as u64 + u64::from(open.trailing_zeros()));
        }
    }
    None
}

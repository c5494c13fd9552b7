//! Rows of a table, kept by few words and whole, beside plain slices.

use crate::expecting::expect;
use gf2_rows::{WordRow, WordTable, plain};
use std::alloc::{AllocError, Global};

/// Whether the bit at `k` is set.
fn is_set(words: &[u64], k: usize) -> bool {
    k / 64 < words.len() && (words[k / 64] >> (k % 64)) & 1 == 1
}

/// The first place from `from` on that is set, found bit by bit.
fn next_set(words: &[u64], from: usize) -> Option<u64> {
    for k in from..1300 {
        if is_set(words, k) {
            return Some(k as u64);
        }
    }
    None
}

/// Whether searches from each of the first 1,300 places find what is found bit by bit.
fn find_the_same(row: &WordRow, words: &[u64]) -> bool {
    for from in 0..1300 {
        let place = from as u64;
        if row.len() < 100
            && place <= 64 * row.len() as u64
            && row.next_one(place) != next_set(words, from)
        {
            return false;
        }
    }
    true
}

/// Whether each bit is the slice's.
fn have_the_same(row: &WordRow, words: &[u64]) -> bool {
    for k in 0..1300 {
        let place = k as u64;
        if row.len() < 100 && place < 64 * row.len() as u64 && row.bit(place) != is_set(words, k) {
            return false;
        }
    }
    true
}

/// Whether searches outside of a mask find what the plain loop finds.
fn find_the_same_outside(row: &WordRow, words: &[u64], mask: &[u64], skip: Option<u64>) -> bool {
    row.len() == words.len()
        && mask.len() == words.len()
        && words.len() < 100
        && row.first_outside(mask, skip) == plain::first_outside(words, mask, skip)
        && row.next_outside(mask, 0) == plain::first_outside(words, mask, None)
        && row.outside_near(mask, skip, 3).is_some()
            == plain::first_outside(words, mask, skip).is_some()
}

/// Whether the row's words are written as the slice has them.
fn copies(alloc: Global, row: &WordRow, words: &[u64]) -> Result<bool, AllocError> {
    let mut copy = Vec::new(alloc);
    for _ in 0..words.len() {
        copy.push(u64::MAX)?;
    }
    if copy.len() != row.len() {
        return Ok(false);
    }
    row.copy_to(&mut copy);
    Ok(copy.as_slice() == words)
}

/// Whether all that is read of the row is as the slice has it.
fn agree(alloc: Global, row: &WordRow, words: &[u64], mask: &[u64]) -> Result<bool, AllocError> {
    Ok(
        row.len() == words.len()
            && mask.len() == words.len()
            && words.len() < 100
            && row.is_empty() == words.is_empty()
            && row.ones() == plain::ones(words)
            && row.parity_and(mask) == plain::parity_and(words, mask)
            && have_the_same(row, words)
            && find_the_same(row, words)
            && find_the_same_outside(row, words, mask, None)
            && find_the_same_outside(row, words, mask, Some(67))
            && copies(alloc, row, words)?,
    )
}

/// Whether the row of the table agrees with the slice, also as a whole row.
fn row_agrees(
    alloc: Global,
    table: &WordTable,
    row: usize,
    words: &[u64],
    mask: &[u64],
) -> Result<bool, AllocError> {
    Ok(
        row < table.rows()
            && agree(alloc, &table.row(row), words, mask)?
            && agree(alloc, &WordRow::whole(words), words, mask)?,
    )
}

/// Turns a bit over in the row and in the slice.
fn flip_both(table: &mut WordTable, row: usize, words: &mut [u64], k: usize) {
    if row < table.rows() && table.row(row).len() < 100 && k < 64 * table.row(row).len() {
        table.flip(row, k as u64);
    }
    if k / 64 < words.len() {
        words[k / 64] ^= 1 << (k % 64);
    }
}

/// Sets a bit in the row and in the slice.
fn put_both(table: &mut WordTable, row: usize, words: &mut [u64], k: usize) {
    if row < table.rows() && table.row(row).len() < 100 && k < 64 * table.row(row).len() {
        table.put(row, k as u64, true);
    }
    if k / 64 < words.len() {
        words[k / 64] |= 1 << (k % 64);
    }
}

/// Adds words to the row and to the slice.
fn add_both(table: &mut WordTable, row: usize, words: &mut [u64], other: &[u64]) {
    if row < table.rows() && table.row(row).len() == other.len() && words.len() == other.len() {
        table.add(row, other);
        plain::add_into(words, other);
    }
}

/// Places of a row of 20 words. The last but three is in one word more than are kept by their places, and one word becomes
/// zero before.
const PLACES: [usize; 23] = [
    1217, 5, 450, 1279, 64, 700, 389, 833, 5, 960, 127, 200, 1100, 300, 130, 620, 715, 800, 900,
    360, 1179, 360, 3,
];

/// A row of words in which some bits are set.
fn words_with(alloc: Global, len: usize, word: u64, every: usize) -> Result<Vec<u64>, AllocError> {
    let mut words = Vec::new(alloc);
    for i in 0..len {
        words.push(if every != 0 && i % every <= 1 {
            word
        } else {
            0
        })?;
    }
    Ok(words)
}

/// Whether the row agrees with a slice of few words after each of the turns.
fn turns_agree_with(
    alloc: Global,
    table: &mut WordTable,
    row: usize,
    words: &mut [u64],
    mask: &[u64],
) -> Result<bool, AllocError> {
    let len = words.len().min(99);
    for k in PLACES {
        if len != 0 {
            flip_both(table, row, words, k % (64 * len));
        }
        if !row_agrees(alloc, table, row, words, mask)? {
            return Ok(false);
        }
    }
    Ok(true)
}

/// As `turns_agree_with`, of a slice of this many zeros.
fn turns_agree(alloc: Global, row: usize, len: usize) -> Result<bool, AllocError> {
    let mut table = WordTable::make(alloc, &[3, 20, 12])?;
    let mut words = words_with(alloc, len, 0, 0)?;
    let mask = words_with(alloc, len, 0xF0F0_F0F0_F0F0_F0F2, 3)?;
    turns_agree_with(alloc, &mut table, row, &mut words, &mask)
}

/// Whether the row agrees with a slice after the sum with a row of which some words are not zero, and after a bit that is set.
fn sum_agrees(
    alloc: Global,
    table: &mut WordTable,
    row: usize,
    words: &mut [u64],
    every: usize,
) -> Result<bool, AllocError> {
    let other = words_with(alloc, words.len(), 0x8000_0000_0000_0401, every)?;
    add_both(table, row, words, &other);
    put_both(table, row, words, 64 + every % 64);
    row_agrees(alloc, table, row, words, &other)
}

/// As `sum_agrees`, after sums with rows of few words and of all.
fn sums_agree_with(
    alloc: Global,
    table: &mut WordTable,
    row: usize,
    words: &mut [u64],
) -> Result<bool, AllocError> {
    for every in [7, 9, 7, 5, 2] {
        if !sum_agrees(alloc, table, row, words, every)? {
            return Ok(false);
        }
    }
    Ok(true)
}

/// As `sums_agree_with`, of a slice of this many zeros.
fn sums_agree(alloc: Global, row: usize, len: usize) -> Result<bool, AllocError> {
    let mut table = WordTable::make(alloc, &[3, 20, 12])?;
    let mut words = words_with(alloc, len, 0, 0)?;
    sums_agree_with(alloc, &mut table, row, &mut words)
}

/// As `turns_agree`, of each row.
fn all_turns_agree(alloc: Global) -> Result<[bool; 3], AllocError> {
    let first = turns_agree(alloc, 0, 3)?;
    let second = turns_agree(alloc, 1, 20)?;
    let third = turns_agree(alloc, 2, 12)?;
    Ok([first, second, third])
}

#[test]
fn turns_are_those_of_slices(rt: HostRuntime) {
    expect(&rt, all_turns_agree(rt.alloc()), &[true; 3]);
}

/// As `sums_agree`, of each row.
fn all_sums_agree(alloc: Global) -> Result<[bool; 3], AllocError> {
    let first = sums_agree(alloc, 0, 3)?;
    let second = sums_agree(alloc, 1, 20)?;
    let third = sums_agree(alloc, 2, 12)?;
    Ok([first, second, third])
}

#[test]
fn sums_are_those_of_slices(rt: HostRuntime) {
    expect(&rt, all_sums_agree(rt.alloc()), &[true; 3]);
}

/// Whether the rows of a table agree with three slices.
fn rows_agree(
    alloc: Global,
    table: &WordTable,
    slices: [&[u64]; 3],
    mask: &[u64],
) -> Result<bool, AllocError> {
    Ok(
        row_agrees(alloc, table, 0, slices[0], mask)?
            && row_agrees(alloc, table, 1, slices[1], mask)?
            && row_agrees(alloc, table, 2, slices[2], mask)?,
    )
}

/// Whether rows that are laid out whole one after another, with one between that stays as it is, keep their words.
fn rows_stay_apart(alloc: Global) -> Result<bool, AllocError> {
    let mut table = WordTable::make(alloc, &[20, 20, 20])?;
    let mask = words_with(alloc, 20, u64::MAX, 2)?;
    let (mut first, none, mut last) = ([0; 20], [0; 20], [0; 20]);
    for k in PLACES {
        flip_both(&mut table, 2, &mut last, k);
        flip_both(&mut table, 0, &mut first, 1279 - k.min(1279));
    }
    rows_agree(alloc, &table, [&first, &none, &last], &mask)
}

#[test]
fn rows_keep_their_words(rt: HostRuntime) {
    expect(&rt, rows_stay_apart(rt.alloc()), &true);
}

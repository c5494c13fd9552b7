//! The kernels beside their plain loops, and worked rows.
use crate::expecting::{expect, expect_equal};
use gf2_rows::{add_into, first_outside, next_one, next_outside, ones, parity_and, plain};
use std::alloc::{AllocError, Global};

/// A row of words without a pattern.
fn row_of(alloc: Global, len: usize, seed: u64) -> Result<Vec<u64>, AllocError> {
    let mut row = Vec::new(alloc);
    let mut word = seed;
    for _ in 0..len {
        word = word
            .wrapping_mul(6_364_136_223_846_793_005)
            .wrapping_add(1_442_695_040_888_963_407);
        row.push(word)?;
    }
    Ok(row)
}

/// Whether both kernels find the same.
fn find_the_same(row: &[u64], mask: &[u64], skip: Option<u64>) -> bool {
    row.len() == mask.len()
        && row.len() < 100
        && first_outside(row, mask, skip) == plain::first_outside(row, mask, skip)
}

/// Whether both kernels give the same product.
fn multiply_the_same(a: &[u64], b: &[u64]) -> bool {
    a.len() == b.len() && parity_and(a, b) == plain::parity_and(a, b)
}

/// Whether both kernels count the same.
fn count_the_same(row: &[u64]) -> bool {
    row.len() < 100 && ones(row) == plain::ones(row)
}

/// Whether both kernels give the same sum.
fn add_the_same(alloc: Global, a: &[u64], b: &[u64]) -> Result<bool, AllocError> {
    let mut sum = Vec::from_slice(alloc, a)?;
    let mut plain_sum = Vec::from_slice(alloc, a)?;
    if sum.len() != b.len() || plain_sum.len() != b.len() {
        return Ok(false);
    }
    add_into(&mut sum, b);
    plain::add_into(&mut plain_sum, b);
    Ok(sum.as_slice() == plain_sum.as_slice())
}

/// Whether all kernels agree on rows of this many words.
fn agree_at(alloc: Global, len: usize) -> Result<bool, AllocError> {
    let a = row_of(alloc, len, 1)?;
    let b = row_of(alloc, len, 2)?;
    Ok(
        multiply_the_same(&a, &b)
            && count_the_same(&a)
            && find_the_same(&a, &a, None)
            && find_the_same(&a, &b, Some(1))
            && add_the_same(alloc, &a, &b)?,
    )
}

/// The least number of words at which the kernels do not agree.
fn first_fault(alloc: Global) -> Result<Option<usize>, AllocError> {
    for len in 0..34 {
        if !agree_at(alloc, len)? {
            return Ok(Some(len));
        }
    }
    Ok(None)
}

#[test]
fn lanes_give_what_plain_loops_give(rt: HostRuntime) {
    expect(&rt, first_fault(rt.alloc()), &None);
}

/// What is found in a row: outside of a mask and outside of a place, from places on, and from places on outside of a mask.
fn found(row: &[u64; 9], mask: &[u64; 9]) -> [Option<u64>; 8] {
    [
        first_outside(row, mask, None),
        first_outside(row, mask, Some(575)),
        next_one(row, 3),
        next_one(row, 4),
        next_one(row, 576),
        next_outside(row, &[0; 9], 3),
        next_outside(row, mask, 3),
        next_outside(row, mask, 576),
    ]
}

#[test]
fn worked_rows(rt: HostRuntime) {
    let row = [8, 0, 0, 0, 0, 0, 0, 0, 1 << 63];
    let mask = [8, 0, 0, 0, 0, 0, 0, 0, 0];
    let wanted = [
        Some(575),
        None,
        Some(3),
        Some(575),
        None,
        Some(3),
        Some(575),
        None,
    ];
    expect_equal(&rt, &found(&row, &mask), &wanted);
}

/// The product of a full row with itself, and with one that lacks a bit.
fn products() -> (bool, bool) {
    let full = [u64::MAX; 9];
    let mut less = full;
    less[8] ^= 1 << 17;
    (parity_and(&full, &full), parity_and(&full, &less))
}

#[test]
fn ones_are_counted(rt: HostRuntime) {
    let found = (ones(&[1; 9]), products());
    expect_equal(&rt, &found, &(9, (false, true)));
}

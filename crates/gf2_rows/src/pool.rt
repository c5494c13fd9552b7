//! The pool of the words of rows that are laid out.
ghost use Rattle.std.specs.Prelude.{◌≡◌, ℕ, ◌+◌, ◌*◌, ◌<◌, ◌≤◌, ◌^◌, [], ◌∷◌, ◌++◌, map, sum, replicate, length, slice_index, Some, IfOk, vec_capacity, vec_len, take, drop};
ghost use Rattle.gf2_rows.specs.Few.{AddsPart};
ghost use Rattle.gf2_rows.specs.declared.head.Layout.TheVariants.{Few, Short, Whole};
ghost use Rattle.gf2_rows.specs.Heads.{rows_in, begin_at, width_at, extent_at, extent_in, need_of, AreKept, AreRows, IsLaidAtEnd, StayLaid};

use crate::few::{FEW, FewWords};
use crate::head::{Layout, TableHead};
use crate::lanes::add_into;
use std::alloc::AllocError;

/// Twice the sum of the widths. Where it is too large for a number, it is out of memory too.
pub(crate) fn room_of(widths: &[usize]) -> Result<usize, AllocError>
    ensures { IfOk result (λ n. n ≡ 2 * sum widths.now) }
{
    let mut total: usize = 0;
    for width in widths {
        match total.checked_add(*width) {
            Some(sum) => total = sum,
            None => return Err(AllocError),
        }
    }
    total.checked_mul(2).ok_or(AllocError)
}

/// Appends zeros for which there is room, and gives the place of the first.
fn append_zeros(pool: &mut Vec<u64>, count: usize) -> usize
    requires { vec_len pool.old + count ≤ vec_capacity pool.old }
    ensures start { result ≡ vec_len pool.old }
    ensures items { pool.new.items ≡ pool.old.items ++ replicate count 0 }
    ensures room { vec_capacity pool.new ≡ vec_capacity pool.old }
{
    let start = pool.len();
    for _ in 0..count {
        pool.push_reserved(0);
    }
    start
}

/// Appends words of the pool for which there is room.
fn append_copy(pool: &mut Vec<u64>, start: usize, count: usize)
    requires within { start + count ≤ vec_len pool.old }
    requires room { vec_len pool.old + count ≤ vec_capacity pool.old }
    ensures items { pool.new.items ≡ pool.old.items ++ take count (drop start pool.old.items) }
    ensures room { vec_capacity pool.new ≡ vec_capacity pool.old }
{
    for i in 0..count {
        let word = pool[start + i];
        pool.push_reserved(word);
    }
}

/// Lays a row of few words out at the end of the pool, up to the last that is not zero and at least up to `high`, and gives
/// the place of the first.
#[inline(never)]
fn lay_out(head: &mut TableHead, pool: &mut Vec<u64>, high: usize) -> usize
    requires few { head.old.layout ≡ Few }
    requires within { high ≤ length head.old.few }
    requires room { vec_len pool.old + length head.old.few ≤ vec_capacity pool.old }
    ensures start { result ≡ vec_len pool.old }
    ensures laid { IsLaidAtEnd pool.old.items head.old pool.new.items head.new }
    ensures up { high ≤ extent_in head.new.few head.new.layout }
    ensures room { vec_capacity pool.new ≡ vec_capacity pool.old }
{
    let end = head.few.end(high);
    let start = append_zeros(pool, end);
    head.few.copy_to(&mut pool[start..]);
    if end < head.few.len() {
        head.layout = Layout::Short(start, end);
    } else {
        head.layout = Layout::Whole(start);
    }
    start
}

/// Lays a row whose first `count` words begin at `first` out once more, whole, and gives the place of its first word.
#[inline(never)]
fn lay_whole(head: &mut TableHead, pool: &mut Vec<u64>, first: usize, count: usize) -> usize
    requires short { head.old.layout ≡ Short first count }
    requires many { count < length head.old.few }
    requires within { first + count ≤ vec_len pool.old }
    requires room { vec_len pool.old + length head.old.few ≤ vec_capacity pool.old }
    ensures start { result ≡ vec_len pool.old }
    ensures laid { IsLaidAtEnd pool.old.items head.old pool.new.items head.new }
    ensures whole { head.new.layout ≡ Whole result }
    ensures room { vec_capacity pool.new ≡ vec_capacity pool.old }
{
    let start = pool.len();
    append_copy(pool, first, count);
    let _ = append_zeros(pool, head.few.len() - count);
    head.layout = Layout::Whole(start);
    start
}

/// Where a row begins in the pool, laid out at least up to `high`.
#[inline]
pub(crate) fn start_up_to(
    heads: &mut Vec<TableHead>,
    pool: &mut Vec<u64>,
    row: usize,
    high: usize,
) -> usize
    requires row_in { row < vec_len heads.old }
    requires within { high ≤ width_at heads.old.items row }
    requires rows { AreRows (vec_capacity pool.old) pool.old.items heads.old.items }
    ensures rows { AreRows (vec_capacity pool.new) pool.new.items heads.new.items }
    ensures same { rows_in pool.new.items heads.new.items ≡ rows_in pool.old.items heads.old.items }
    ensures heads { (vec_len heads.new ≡ vec_len heads.old) × (vec_capacity heads.new ≡ vec_capacity heads.old) × StayLaid heads.old.items heads.new.items }
    ensures room { (vec_capacity pool.new ≡ vec_capacity pool.old) × (need_of pool.new.items heads.new.items ≤ need_of pool.old.items heads.old.items) }
    ensures laid { (begin_at heads.new.items row ≡ Some result) × (high ≤ extent_at heads.new.items row) }
{
    let head = &mut heads[row];
    match head.layout {
        Layout::Few => lay_out(head, pool, high),
        Layout::Short(start, count) => {
            if high <= count {
                return start;
            }
            lay_whole(head, pool, start, count)
        }
        Layout::Whole(start) => start,
    }
}

/// Appends a zero row for which there is room. A row of few words is laid out whole at once.
fn push_row(heads: &mut Vec<TableHead>, pool: &mut Vec<u64>, width: usize)
    requires few { width < 2 ^ 32 }
    requires rows { AreKept (vec_capacity pool.old) pool.old.items heads.old.items }
    requires heads { vec_len heads.old < vec_capacity heads.old }
    requires room { need_of pool.old.items heads.old.items + 2 * width ≤ vec_capacity pool.old }
    ensures rows { AreKept (vec_capacity pool.new) pool.new.items heads.new.items }
    ensures pushed { rows_in pool.new.items heads.new.items ≡ rows_in pool.old.items heads.old.items ++ replicate width 0 ∷ [] }
    ensures heads { (vec_len heads.new ≡ vec_len heads.old + 1) × (vec_capacity heads.new ≡ vec_capacity heads.old) }
    ensures room { (vec_capacity pool.new ≡ vec_capacity pool.old) × (need_of pool.new.items heads.new.items ≤ need_of pool.old.items heads.old.items + 2 * width) }
{
    let row = heads.len();
    heads.push_reserved(TableHead {
        layout: Layout::Few,
        few: FewWords::make(width),
    });
    if width <= FEW {
        let _ = start_up_to(heads, pool, row, width);
    }
}

/// Makes zero rows of these widths.
pub(crate) fn lay_rows(widths: &[usize], heads: &mut Vec<TableHead>, pool: &mut Vec<u64>)
    requires few { (i : ℕ) → i < length widths.now → slice_index widths.now i < 2 ^ 32 }
    requires empty { (heads.old.items ≡ []) × (pool.old.items ≡ []) }
    requires heads { length widths.now ≤ vec_capacity heads.old }
    requires room { 2 * sum widths.now ≤ vec_capacity pool.old }
    ensures rows { AreKept (vec_capacity pool.new) pool.new.items heads.new.items }
    ensures zeros { rows_in pool.new.items heads.new.items ≡ map (λ w. replicate w 0) widths.now }
{
    for width in widths {
        push_row(heads, pool, *width);
    }
}

/// So many words of the pool from `start` on.
#[inline(always)]
pub(crate) fn part(pool: &[u64], start: usize, len: usize) -> &[u64]
    requires { start + len ≤ length pool.now }
    ensures { result.now ≡ take len (drop start pool.now) }
{
    &pool[start..start + len]
}

/// Adds words to those of the pool from `start` on, position by position modulo two.
#[inline]
pub(crate) fn add_part(pool: &mut Vec<u64>, start: usize, words: &[u64])
    requires { start + length words.now ≤ vec_len pool.old }
    ensures part { AddsPart pool.old.items start words.now pool.new.items }
    ensures room { vec_capacity pool.new ≡ vec_capacity pool.old }
{
    add_into(&mut pool[start..start + words.len()], words);
}

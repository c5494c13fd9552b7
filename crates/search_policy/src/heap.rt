//! A binary heap of variables with their places.
ghost use Rattle.std.specs.Prelude.{◌≡◌, ◌≢◌, ◌<◌, ◌≤◌, ◌+◌, ◌-◌, ℕ, List, length, MatchBool};
ghost use Rattle.cx_base.specs.declared.literal.TheConstants.{MAX_VARIABLE};
ghost use Rattle.cx_trail.specs.Sequence.{IsOpenIn, entry_at};
ghost use Rattle.search_policy.specs.Heaps.{item_at, IsAhead, AreShuffled, IsHeap, IsRising, IsSinking, IsSwapped, AreSameFrom, IsBetterChild, IsOrder, HasOpenOnes};

use cx_base::Var;
use cx_trail::Trail;

/// All variables, each by its number less 1: those in the heap first, and each one's place.
#[derive(Drop)]
pub(crate) struct Heap {
    pub cells: Vec<u32>,
    pub places: Vec<u32>,
}

/// Whether one variable comes before another.
fn is_ahead(scores: &[u32], one: u32, other: u32) -> bool
    requires one { one < length scores.now }
    requires other { other < length scores.now }
    ensures { MatchBool result (IsAhead scores.now one other) (IsAhead scores.now other one) }
{
    let mine = scores[one as usize];
    let its = scores[other as usize];
    if mine == its { one < other } else { mine > its }
}

/// Swaps two cells.
fn swap(heap: &mut Heap, i: usize, j: usize)
    requires shuffled { AreShuffled (length heap.old.cells.items) heap.old.cells.items heap.old.places.items }
    requires few { length heap.old.cells.items ≤ MAX_VARIABLE }
    requires i { i < length heap.old.cells.items }
    requires j { j < length heap.old.cells.items }
    ensures shuffled { AreShuffled (length heap.old.cells.items) heap.new.cells.items heap.new.places.items }
    ensures swapped { IsSwapped i j heap.old.cells.items heap.new.cells.items }
{
    let one = heap.cells[i];
    let other = heap.cells[j];
    heap.cells[i] = other;
    heap.cells[j] = one;
    heap.places[other as usize] = i as u32;
    heap.places[one as usize] = j as u32;
}

/// Lets a cell rise to where it belongs.
pub(crate) fn sift_up(scores: &[u32], heap: &mut Heap, count: usize, start: usize)
    requires shuffled { AreShuffled (length scores.now) heap.old.cells.items heap.old.places.items }
    requires few { length scores.now ≤ MAX_VARIABLE }
    requires count { count ≤ length scores.now }
    requires start { start < count }
    requires rising { IsRising scores.now heap.old.cells.items count start }
    ensures shuffled { AreShuffled (length scores.now) heap.new.cells.items heap.new.places.items }
    ensures heap { IsHeap scores.now heap.new.cells.items count }
    ensures same { AreSameFrom count heap.old.cells.items heap.new.cells.items }
{
    let mut at = start;
    'rise: while at > 0 {
        let up = (at - 1) / 2;
        if is_ahead(scores, heap.cells[up], heap.cells[at]) {
            return;
        }
        swap(heap, up, at);
        at = up;
    }
}

/// The better one of a cell's two children.
fn better_child(scores: &[u32], heap: &Heap, count: usize, first: usize) -> usize
    requires shuffled { AreShuffled (length scores.now) heap.now.cells.items heap.now.places.items }
    requires count { count ≤ length scores.now }
    requires first { first < count }
    ensures { IsBetterChild scores.now heap.now.cells.items count first result }
{
    let second = first + 1;
    if second < count && is_ahead(scores, heap.cells[second], heap.cells[first]) {
        second
    } else {
        first
    }
}

/// Lets a cell sink to where it belongs.
fn sift_down(scores: &[u32], heap: &mut Heap, count: usize, start: usize)
    requires shuffled { AreShuffled (length scores.now) heap.old.cells.items heap.old.places.items }
    requires few { length scores.now ≤ MAX_VARIABLE }
    requires count { count ≤ length scores.now }
    requires start { start ≤ count }
    requires sinking { IsSinking scores.now heap.old.cells.items count start }
    ensures shuffled { AreShuffled (length scores.now) heap.new.cells.items heap.new.places.items }
    ensures heap { IsHeap scores.now heap.new.cells.items count }
    ensures same { AreSameFrom count heap.old.cells.items heap.new.cells.items }
{
    let mut at = start;
    'sink: while 2 * at + 1 < count {
        let child = better_child(scores, heap, count, 2 * at + 1);
        if is_ahead(scores, heap.cells[at], heap.cells[child]) {
            return;
        }
        swap(heap, at, child);
        at = child;
    }
}

/// Whether the variable is assigned.
fn is_assigned(trail: &Trail, index: u32) -> bool
    requires { index + 1 ≤ trail.now.variables }
    ensures { MatchBool result (IsOpenIn trail.now.entries (index + 1) → ⊥) (IsOpenIn trail.now.entries (index + 1)) }
{
    // the trail is sound, which this call tells the proof
    let _vars = trail.vars();
    trail.value(Var::new(index + 1)).is_some()
}

/// Takes assigned variables off the top. How many variables are left in the heap.
pub(crate) fn settle(scores: &[u32], heap: &mut Heap, count: usize, trail: &Trail) -> usize
    requires order { IsOrder scores.now heap.old.cells.items heap.old.places.items count }
    requires few { length scores.now ≤ MAX_VARIABLE }
    requires variables { length scores.now ≡ trail.now.variables }
    requires stand { HasOpenOnes (length scores.now) trail.now.entries heap.old.places.items count }
    ensures order { IsOrder scores.now heap.new.cells.items heap.new.places.items result }
    ensures stand { HasOpenOnes (length scores.now) trail.now.entries heap.new.places.items result }
    ensures few { result ≤ count }
    ensures top { 0 < result → IsOpenIn trail.now.entries (item_at heap.new.cells.items 0 + 1) }
{
    let mut left = count;
    'top: while left > 0 && is_assigned(trail, heap.cells[0]) {
        left -= 1;
        swap(heap, 0, left);
        sift_down(scores, heap, left, 0);
    }
    left
}

/// Puts a variable into the heap, if it is not there. How many are in the heap then.
fn insert(scores: &[u32], heap: &mut Heap, count: usize, index: u32) -> usize
    requires order { IsOrder scores.now heap.old.cells.items heap.old.places.items count }
    requires few { length scores.now ≤ MAX_VARIABLE }
    requires index { index < length scores.now }
    ensures order { IsOrder scores.now heap.new.cells.items heap.new.places.items result }
    ensures stays { (v : ℕ) → v < length scores.now → item_at heap.old.places.items v < count → item_at heap.new.places.items v < result }
    ensures put { item_at heap.new.places.items index < result }
{
    let from = heap.places[index as usize] as usize;
    if from < count {
        return count;
    }
    swap(heap, count, from);
    sift_up(scores, heap, count + 1, count);
    count + 1
}

/// Puts the variables of the trail's levels above this one into the heap. How many are in the heap then.
pub(crate) fn put_back(
    scores: &[u32],
    heap: &mut Heap,
    count: usize,
    trail: &Trail,
    level: u32,
) -> usize
    requires order { IsOrder scores.now heap.old.cells.items heap.old.places.items count }
    requires few { length scores.now ≤ MAX_VARIABLE }
    requires variables { length scores.now ≡ trail.now.variables }
    ensures order { IsOrder scores.now heap.new.cells.items heap.new.places.items result }
    ensures stays { (v : ℕ) → v < length scores.now → item_at heap.old.places.items v < count → item_at heap.new.places.items v < result }
    ensures put { (i : ℕ) → i < length trail.now.entries → level < (entry_at trail.now.entries i).level → item_at heap.new.places.items ((entry_at trail.now.entries i).literal.variable - 1) < result }
{
    let mut left = count;
    let mut place = trail.len();
    'back: while place > 0 && trail.entry(place - 1).level > level {
        place -= 1;
        let index = trail.entry(place).literal.var().number() - 1;
        left = insert(scores, heap, left, index);
    }
    left
}

/// Makes the first cells a heap again.
pub(crate) fn rebuild(scores: &[u32], heap: &mut Heap, count: usize)
    requires shuffled { AreShuffled (length scores.now) heap.old.cells.items heap.old.places.items }
    requires few { length scores.now ≤ MAX_VARIABLE }
    requires count { count ≤ length scores.now }
    ensures shuffled { AreShuffled (length scores.now) heap.new.cells.items heap.new.places.items }
    ensures heap { IsHeap scores.now heap.new.cells.items count }
    ensures same { AreSameFrom count heap.old.cells.items heap.new.cells.items }
{
    'all: for k in 0..count {
        sift_up(scores, heap, k + 1, k);
    }
}

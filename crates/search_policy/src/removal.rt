//! Which learned clauses go at a reduction.
ghost use Rattle.std.specs.Prelude.{◌≡◌, IfOk, map};
ghost use Rattle.std.specs.List.{filter};
ghost use Rattle.std.specs.List.Sorted.{IsPermutation, IsSortedBy};
ghost use Rattle.search_policy.specs.Removal.{IsRemoval, may_go, goes_before};

use cx_base::{ClauseRef, RefList};
use std::alloc::{AllocError, Global};
use std::cmp::Reverse;

/// What a reduction looks at in a clause.
#[derive(Clone, Copy, Drop)]
pub struct Card {
    pub reference: ClauseRef,
    pub id: u64,
    /// The number of levels that its literals had when it was learned.
    pub lbd: u32,
    pub learned: bool,
    /// Whether it is the reason of a literal of the trail.
    pub is_reason: bool,
}

impl Card {
    /// Whether the clause may be removed.
    fn may_go(&self) -> bool
        ensures { result ≡ may_go self.now }
    {
        self.learned && self.lbd > 2 && !self.is_reason
    }
}

/// Keeps the cards of the clauses that may be removed.
fn keep_candidates(cards: &mut Vec<Card>)
    ensures { cards.new.items ≡ filter may_go cards.old.items }
{
    cards.retain(|card| card.may_go());
}

/// Puts those first that go first.
fn sort(cards: &mut Vec<Card>)
    ensures all { IsPermutation cards.old.items cards.new.items }
    ensures sorted { IsSortedBy goes_before cards.new.items }
{
    cards.sort_unstable_by_key(|card| (Reverse(card.lbd), card.id));
}

/// The references of the cards.
fn references(alloc: Global, cards: &[Card]) -> Result<Vec<ClauseRef>, AllocError>
    ensures { IfOk result (λ v. v.items ≡ map (λ c. c.reference) cards.now) }
{
    cards.iter().map(|card| card.reference).collect(alloc)
}

/// The clauses that a reduction removes: half of the learned ones with more than two levels that are no reasons,
/// rounded down, first those of the most levels, and of equal levels the older. The ids differ.
pub fn choose_removed(alloc: Global, cards: &[Card]) -> Result<RefList, AllocError>
    ensures { IfOk result (λ removed. IsRemoval cards.now removed) }
{
    choose_removed_in_place(alloc, cards.to_vec(alloc)?)
}

/// As `choose_removed`, of cards that are not needed any more: they are sorted in place, and memory is taken
/// for the references alone.
pub fn choose_removed_in_place(alloc: Global, cards: Vec<Card>) -> Result<RefList, AllocError>
    ensures { IfOk result (λ removed. IsRemoval cards.items removed) }
{
    let mut order = cards;
    keep_candidates(&mut order);
    sort(&mut order);
    let removed = references(alloc, &order[..order.len() / 2])?;
    Ok(RefList::from_vec(removed))
}

//! Constraints of the formula in the order of what they say.
ghost use Rattle.std.specs.Prelude.{◌≡◌, ◌<◌, ◌≤◌, ◌-◌, get_or, length, IfOk, MatchOption, List};
ghost use Rattle.std.specs.List.{All};
ghost use Rattle.std.specs.List.Sorted.{IsSorted};
ghost use Rattle.fratx_elab.specs.Contents.{HasFront, by_content, IsLeastOf, LeastBefore, NumbersWithin, EachOnce, AreNumbered, IsNowhere, Orders};

use crate::naming::ProofId;
use smallvec::SmallVec;
use std::alloc::{AllocError, Global};

/// What a constraint says, as numbers. Up to six are in the value itself, so that short constraints take no memory of their own.
pub(crate) type Content = SmallVec<u32, 6>;

/// A constraint of the formula: what it says, and its number among those of its kind.
#[derive(PartialEq, Eq, PartialOrd, Ord, Drop)]
pub(crate) struct ContentEntry {
    /// The first two numbers of the content, zeros where it has fewer, which mostly decide a comparison.
    pub first: u32,
    pub second: u32,
    pub content: Content,
    pub number: ProofId,
}

impl ContentEntry {
    /// The entry of a constraint.
    pub(crate) fn new(content: Content, number: ProofId) -> ContentEntry
        ensures first { result.first ≡ get_or content.items 0 0 }
        ensures second { result.second ≡ get_or content.items 1 0 }
        ensures content { result.content ≡ content }
        ensures number { result.number ≡ number }
    {
        let numbers = content.as_slice();
        let first = *numbers.first().unwrap_or(&0);
        let second = *numbers.get(1).unwrap_or(&0);
        ContentEntry {
            first,
            second,
            content,
            number,
        }
    }
}

/// The constraints of one kind, by what they say and by their numbers.
#[derive(Drop)]
pub(crate) struct ContentIndex {
    /// In the order of what they say, and those that say the same in the order of their numbers.
    entries: Vec<ContentEntry>,
    /// For each in the order of the formula, the least number of one that says the same.
    firsts: Vec<ProofId>,
}

/// The least number of an entry that says what the one at this place says, where that of those before is known.
fn first_at(entries: &[ContentEntry], firsts: &[ProofId], place: usize) -> ProofId
    requires here { place < length entries.now }
    requires fronts { All HasFront entries.now }
    requires sorted { IsSorted by_content entries.now }
    requires within { NumbersWithin (length firsts.now) entries.now }
    requires known { LeastBefore place entries.now firsts.now }
    ensures { (d : ContentEntry) → IsLeastOf entries.now (get_or entries.now place d).content.items result }
{
    if place > 0 && entries[place - 1].content == entries[place].content {
        firsts[entries[place - 1].number.index()]
    } else {
        entries[place].number
    }
}

/// For each number, the least number of an entry that says what the one of this number says.
fn firsts_of(alloc: Global, entries: &[ContentEntry]) -> Result<Vec<ProofId>, AllocError>
    requires fronts { All HasFront entries.now }
    requires sorted { IsSorted by_content entries.now }
    requires within { NumbersWithin (length entries.now) entries.now }
    requires once { EachOnce entries.now }
    ensures count { IfOk result (λ firsts. length firsts.items ≡ length entries.now) }
    ensures least { IfOk result (λ firsts. LeastBefore (length entries.now) entries.now firsts.items) }
{
    let mut firsts = Vec::from_elem(alloc, ProofId::new(1), entries.len())?;
    for place in 0..entries.len() {
        let first = first_at(entries, &firsts, place);
        firsts[entries[place].number.index()] = first;
    }
    Ok(firsts)
}

impl ContentIndex {
    /// The index of these entries, which are in the order of their numbers.
    pub fn of(alloc: Global, mut entries: Vec<ContentEntry>) -> Result<ContentIndex, AllocError>
        requires fronts { All HasFront entries.items }
        requires numbered { AreNumbered entries.items }
        ensures { IfOk result (Orders entries.items) }
    {
        entries.sort_unstable();
        let firsts = firsts_of(alloc, &entries)?;
        Ok(ContentIndex { entries, firsts })
    }

    /// The least number of a constraint that says what the one of this number says.
    pub fn first(&self, number: ProofId) -> ProofId
        requires { number ≤ length self.now.firsts.items }
        ensures { result ≡ get_or self.now.firsts.items (number - 1) 0 }
    {
        self.firsts[number.index()]
    }

    /// The least number of a constraint that says this; none where no one does.
    pub fn find(&self, content: Content) -> Option<ProofId>
        ensures { (entries : List ContentEntry) → All HasFront entries → AreNumbered entries → Orders entries self.now → MatchOption result (IsNowhere entries content.items) (IsLeastOf entries content.items) }
    {
        // Nothing before it says this.
        let least = ContentEntry::new(content, ProofId::new(1));
        let place = match self.entries.binary_search(&least) {
            Ok(place) => place,
            Err(place) => place,
        };
        match self.entries.get(place) {
            Some(entry) if entry.content == least.content => Some(entry.number),
            _ => None,
        }
    }
}

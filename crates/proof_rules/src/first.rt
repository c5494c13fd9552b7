//! The constraints that a table has from a formula, in place.
ghost use Rattle.std.specs.Prelude.{◌≡◌, ◌≢◌, ◌≤◌, ◌<◌, ◌-◌, ◌^◌, ◌++◌, ◌∷◌, [], ℕ, IfOk, OnOk, OnErr, MatchOption, None, Some, true, false, get_or, is_some, length, map, replicate, set, slice_get};
ghost use Rattle.std.specs.Bool.{MatchBool};
ghost use Rattle.std.specs.Map.{keys_of};
ghost use Rattle.proof_rules.specs.FirstLists.{lists_of, StandsThere};
ghost use Rattle.proof_rules.specs.Places.{entries_of};

use cx_base::{Formula, Lit};
use std::alloc::{AllocError, Global};
use std::marker::Model;

/// The lists of a formula's constraints of a kind, numbered from 1.
#[derive(Clone, Copy, Drop)]
pub(crate) enum Numbered<'f> {
    Clauses(&'f Formula),
    Parities(&'f Formula),
}

impl<'f> Numbered<'f> {
    /// How many there are.
    pub(crate) fn count(&self) -> usize
        ensures count { result ≡ length (lists_of self.now) }
        ensures few { result < 2 ^ 60 }
    {
        match *self {
            Numbered::Clauses(formula) => {
                // There are no more of them than constraints, which are few.
                let _few = formula.len();
                formula.clause_count()
            }
            Numbered::Parities(formula) => {
                let _few = formula.len();
                formula.parity_count()
            }
        }
    }

    /// The list of this number.
    fn list(&self, number: usize) -> &'f [Lit]
        requires low { 1 ≤ number }
        requires high { number ≤ length (lists_of self.now) }
        ensures { slice_get (lists_of self.now) (number - 1) ≡ Some result.now }
    {
        match *self {
            Numbered::Clauses(formula) => formula.clause(number),
            Numbered::Parities(formula) => formula.parity(number),
        }
    }
}

/// None of this many lists went. There is none under 0.
fn all_left(alloc: Global, count: usize) -> Result<Vec<bool>, AllocError>
    requires { count < 2 ^ 60 }
    ensures { IfOk result (λ gone. gone.items ≡ true ∷ replicate count false) }
{
    let mut gone = vec![in alloc; false; count + 1]?;
    gone[0] = true;
    Ok(gone)
}

/// Marks the list of this number as there, and those between as gone where the marks ended before. Without memory nothing changes.
fn put_back(gone: &mut Vec<bool>, number: usize) -> Result<(), AllocError>
    requires { number < 2 ^ 60 }
    ensures there { OnOk result (get_or gone.new.items number true ≡ false) }
    ensures others { OnOk result ((q : ℕ) → q ≢ number → get_or gone.new.items q true ≡ get_or gone.old.items q true) }
    ensures few { OnOk result ((bound : ℕ) → number < bound → length gone.old.items ≤ bound → length gone.new.items ≤ bound) }
    ensures err { OnErr result (gone.new.items ≡ gone.old.items) }
{
    if number >= gone.len() {
        gone.resize(number + 1, true)?;
    }
    gone[number] = false;
    Ok(())
}

/// The lists of a formula's constraints of a kind under their numbers, but for those that went. They are not copied.
#[derive(Drop)]
pub(crate) struct FirstLists<'f> {
    lists: Numbered<'f>,
    /// Whether the list of each number went, from 0, under which there is none. Those after the end went too.
    gone: Vec<bool>,
}

impl<'f> Model for FirstLists<'f> {
    ghost use Rattle.std.specs.Prelude.{◌≡◌, ◌≤◌, ◌+◌, true, get_or, List, Option, [], ◌∷◌, length};
    ghost use Rattle.cx_base.specs.Literals.{Literal};
    ghost use Rattle.proof_rules.specs.FirstLists.{lists_of, remaining};

    ghost Value = { List (Option (List Literal)) };

    ghost view = { λ f. remaining f.gone.items ([] ∷ lists_of f.lists) };

    ghost invariant = { λ f. (length f.gone.items ≤ length (lists_of f.lists) + 1) × (get_or f.gone.items 0 true ≡ true) };
}

impl<'f> FirstLists<'f> {
    /// All of them.
    pub(crate) fn all(alloc: Global, lists: Numbered<'f>) -> Result<FirstLists<'f>, AllocError>
        ensures { IfOk result (λ first. first ≡ None ∷ map Some (lists_of lists.entry)) }
    {
        let gone = all_left(alloc, lists.count())?;
        Ok(FirstLists { lists, gone })
    }

    /// None of them.
    pub(crate) fn none(alloc: Global, lists: Numbered<'f>) -> FirstLists<'f>
        ensures { result ≡ [] }
    {
        FirstLists {
            lists,
            gone: Vec::new(alloc),
        }
    }

    /// Whether there is a list under this id.
    #[inline(always)]
    pub(crate) fn has(&self, id: u64) -> bool
        ensures { result ≡ is_some (get_or self.now id None) }
    {
        id < self.gone.len() as u64 && !self.gone[id as usize]
    }

    /// The list under this id.
    #[inline(always)]
    pub(crate) fn get(&self, id: u64) -> Option<&[Lit]>
        ensures { MatchOption result (get_or self.now id None ≡ None) (λ lits. get_or self.now id None ≡ Some lits.now) }
    {
        if self.has(id) {
            Some(self.lists.list(id as usize))
        } else {
            None
        }
    }

    /// Takes the list under this id out, if there is one.
    pub(crate) fn clear(&mut self, id: u64)
        ensures { self.new ≡ set self.old id None }
    {
        if id < self.gone.len() as u64 {
            self.gone[id as usize] = true;
        }
    }

    /// Puts the list of this number there, if it is this one, and tells whether it is. Without memory nothing changes.
    pub(crate) fn restore(&mut self, id: u64, list: &[Lit]) -> Result<bool, AllocError>
        ensures ok { IfOk result (λ is_own. MatchBool is_own (StandsThere id list.now self.old self.new) (self.new ≡ self.old)) }
        ensures err { OnErr result (self.new ≡ self.old) }
    {
        if id == 0 || id > self.lists.count() as u64 || self.lists.list(id as usize) != list {
            return Ok(false);
        }
        put_back(&mut self.gone, id as usize)?;
        Ok(true)
    }

    /// Adds the ids of the lists to these.
    pub(crate) fn push_ids(&self, ids: &mut Vec<u64>) -> Result<(), AllocError>
        ensures { OnOk result (ids.new.items ≡ ids.old.items ++ keys_of (entries_of self.now)) }
    {
        for id in 0..self.gone.len() {
            if self.has(id as u64) {
                ids.push(id as u64)?;
            }
        }
        Ok(())
    }
}

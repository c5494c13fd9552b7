//! Sets of names of constraints.
ghost use Rattle.std.specs.Prelude.{◌≡◌, ◌≤◌, false, length, not, ◌&&◌, ◌||◌, nat_abs, OnOk, IfOk};
ghost use Rattle.proof_trim.specs.Integers.{part};
ghost use Rattle.proof_trim.specs.Names.{Name, same_name};
ghost use Rattle.proof_trim.specs.NameSets.{Has, has_name, hinted_as, name_of};

use crate::ids::IdSet;
use crate::integers::Integers;
use cx_base::Formula;
use proof_rules::Kind;
use std::alloc::{AllocError, Global};

/// A set of ids of clauses and of ids of parities.
#[derive(Drop)]
pub(crate) struct NameSet {
    clauses: IdSet,
    parities: IdSet,
}

/// The room for ids of parities: none where the formula has no parity, since few proofs make any then.
fn parity_room(formula: &Formula, room: usize) -> usize {
    if formula.parity_count() == 0 { 0 } else { room }
}

impl NameSet {
    /// No name. There is room for the ids that the formula's constraints and this many steps have where these are numbered one
    /// after another; all others are looked for in maps.
    pub(crate) fn beside(
        alloc: Global,
        formula: &Formula,
        steps: usize,
    ) -> Result<NameSet, AllocError>
        ensures { IfOk result (λ names. Has names (λ name. false)) }
    {
        let room = formula.len().saturating_add(steps).saturating_add(1);
        Ok(NameSet {
            clauses: IdSet::with_room(alloc, room)?,
            parities: IdSet::with_room(alloc, parity_room(formula, room))?,
        })
    }

    /// Whether the constraint of this kind and id is in it.
    #[inline(always)]
    pub(crate) fn has(&self, kind: Kind, id: u64) -> bool
        ensures { result ≡ has_name self.now (name_of kind id) }
    {
        match kind {
            Kind::Clauses => self.clauses.has(id),
            Kind::Parities => self.parities.has(id),
        }
    }

    /// Puts a name in.
    #[inline(always)]
    pub(crate) fn insert(&mut self, kind: Kind, id: u64) -> Result<(), AllocError>
        ensures { OnOk result (Has self.new (λ name. same_name name (name_of kind id) || has_name self.old name)) }
    {
        match kind {
            Kind::Clauses => self.clauses.insert(id),
            Kind::Parities => self.parities.insert(id),
        }
    }

    /// Puts in what a hint names.
    #[inline(always)]
    fn insert_hint(&mut self, kind: Kind, hint: i64) -> Result<(), AllocError>
        ensures { OnOk result (Has self.new (λ name. same_name name (name_of kind (nat_abs hint)) || has_name self.old name)) }
    {
        self.insert(kind, hint.unsigned_abs())
    }

    /// Puts in what the hints from start up to end among packed integers name.
    pub(crate) fn insert_hints(
        &mut self,
        kind: Kind,
        packed: &Integers,
        start: usize,
        end: usize,
    ) -> Result<(), AllocError>
        requires low { start ≤ end }
        requires high { end ≤ length packed.now }
        ensures { OnOk result (Has self.new (λ name. hinted_as kind (part packed.now start end) name || has_name self.old name)) }
    {
        for place in start..end {
            self.insert_hint(kind, packed.at(place))?;
        }
        Ok(())
    }

    /// Takes a name out, if it is in it.
    #[inline(always)]
    pub(crate) fn remove(&mut self, kind: Kind, id: u64)
        ensures { Has self.new (λ name. not (same_name name (name_of kind id)) && has_name self.old name) }
    {
        match kind {
            Kind::Clauses => self.clauses.remove(id),
            Kind::Parities => self.parities.remove(id),
        }
    }

    /// Takes a name out: whether it was in it.
    #[inline(always)]
    pub(crate) fn take(&mut self, kind: Kind, id: u64) -> bool
        ensures had { result ≡ has_name self.old (name_of kind id) }
        ensures out { Has self.new (λ name. not (same_name name (name_of kind id)) && has_name self.old name) }
    {
        let had = self.has(kind, id);
        if had {
            self.remove(kind, id);
        }
        had
    }
}

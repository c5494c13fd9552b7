//! Which rows events named, in the order in which they were named: a backjump costs what it forgets.
ghost use Rattle.std.specs.Prelude.{◌≡◌, ℕ, ◌<◌, ◌≤◌, IfOk, IsTrue, None, Some, length, map, replicate, slice_index_or, slice_set, true};
ghost use Rattle.parity_engine.specs.declared.state.Naming.{Naming};
ghost use Rattle.parity_engine.specs.Namings.{keep_naming};
ghost use Rattle.gauss_incremental.specs.Namings.{AreClashesAbove, AreNamedBy, as_held};
ghost use Rattle.gauss_incremental.specs.Trail.{IsTrail, is_above};

use crate::trail::{no_order, push};
use parity_engine::Naming;
use std::alloc::{AllocError, Global};
use std::marker::Model;

/// What each row was named for, if it was.
#[derive(Drop)]
pub struct RowNames {
    named: Vec<Option<Naming>>,
    order: Vec<usize>,
    count: usize,
}

impl Model for RowNames {
    ghost use Rattle.std.specs.Prelude.{List, Option, map};
    ghost use Rattle.parity_engine.specs.declared.state.Naming.{Naming};
    ghost use Rattle.gauss_incremental.specs.Namings.{as_held, namings_code};
    ghost use Rattle.gauss_incremental.specs.Trail.{IsTrail};

    ghost Value = { List (Option Naming) };

    ghost coded = { namings_code };

    ghost view = { λ s. s.named.items };

    ghost invariant = { λ s. IsTrail s.order.items s.count (map as_held s.named.items) };
}

impl RowNames {
    /// No row is named.
    pub(crate) fn make(alloc: Global, rows: usize) -> Result<RowNames, AllocError>
        ensures { IfOk result (λ names. names ≡ replicate rows None) }
    {
        let named = nothing_named(alloc, rows)?;
        let order = no_order(alloc, rows)?;
        Ok(RowNames {
            named,
            order,
            count: 0,
        })
    }

    /// Names the row, at the last level. A row that has a name of this level changes it.
    pub(crate) fn name(&mut self, row: usize, naming: Naming)
        requires row_in { row < length self.old }
        requires last { AreNamedBy naming.level self.old }
        requires level { (m : Naming) → slice_index_or self.old row None ≡ Some m → m.level ≡ naming.level }
        ensures { self.new ≡ slice_set self.old row (Some naming) }
    {
        let known = self.named[row].is_some();
        self.named[row] = Some(naming);
        if known {
            return;
        }
        let count = push(&mut self.order, self.count, row);
        self.count = count;
    }

    /// Whether the row may be named at a level: it has no name, or one of this level.
    pub(crate) fn may_have(&self, row: usize, level: u32) -> bool
        requires { row < length self.now }
        ensures { IsTrue result → (m : Naming) → slice_index_or self.now row None ≡ Some m → m.level ≡ level }
    {
        match self.named[row] {
            Some(naming) => naming.level == level,
            None => true,
        }
    }

    /// Forgets the names above the level. Those for a contradiction are above it.
    pub(crate) fn forget_above(&mut self, level: u32)
        requires { AreClashesAbove level self.old }
        ensures { self.new ≡ map (keep_naming level) self.old }
    {
        let count = take_back(&self.order, self.count, &mut self.named, level);
        self.count = count;
    }
}

/// No row is named.
fn nothing_named(alloc: Global, rows: usize) -> Result<Vec<Option<Naming>>, AllocError>
    ensures { IfOk result (λ named. named.items ≡ replicate rows None) }
{
    Ok(vec![in alloc; None; rows]?)
}

/// Whether the row has a name of a level above this one.
fn is_above(named: &[Option<Naming>], row: usize, level: u32) -> bool
    requires { row < length named.now }
    ensures { result ≡ is_above (as_held (slice_index_or named.now row None)) level }
{
    match named[row] {
        Some(naming) => level < naming.level,
        None => false,
    }
}

/// Forgets the names above the level, the last first, and tells how many are left.
fn take_back(order: &[usize], count: usize, named: &mut [Option<Naming>], level: u32) -> usize
    requires order { IsTrail order.now count (map as_held named.old) }
    requires clashes { AreClashesAbove level named.old }
    ensures named { named.new ≡ map (keep_naming level) named.old }
    ensures order { IsTrail order.now result (map as_held named.new) }
{
    let mut left = count;
    while left > 0 {
        let row = order[left - 1];
        if !is_above(named, row, level) {
            return left;
        }
        named[row] = None;
        left -= 1;
    }
    left
}

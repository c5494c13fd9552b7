//! Ids that are moved at once: what is under the old ones is taken out, and then each value comes under its new id.
ghost use Rattle.std.specs.Prelude.{◌≡◌, not, true, IfOk, OnOk};
ghost use Rattle.std.specs.FinMap as map;
ghost use Rattle.std.specs.Ordering.{nat_cmp};
ghost use Rattle.cx_semantics.specs.Moves.{old_ids, without_ids, put_if, put_moved, moved};
ghost use Rattle.proof_rules.specs.Judges.{JudgesBy};
ghost use Rattle.proof_rules.specs.Moving.{values_for, meets_none, meets_some, moving_in};

use crate::id_map::IdMap;
use crate::page::Filler;
use crate::refusal::JudgeRefusal;
use cx_base::IdMove;
use cx_semantics::Cause;
use std::alloc::{AllocError, Global};

/// A copy of what is under this id.
fn value_of<V: Copy + Drop + Filler>(values: &IdMap<V>, id: u64) -> Option<V>
    ensures { result ≡ map.get values.now id }
{
    match values.get(id) {
        Some(value) => Some(*value),
        None => None,
    }
}

/// What is under the old ids, in order.
fn values_of<V: Copy + Drop + Filler>(
    alloc: Global,
    values: &IdMap<V>,
    moves: &[IdMove],
) -> Result<Vec<Option<V>>, AllocError>
    ensures { IfOk result (λ found. found.items ≡ values_for values.now moves.now) }
{
    let mut found = Vec::with_capacity(alloc, moves.len())?;
    for place in 0..moves.len() {
        found.push_reserved(value_of(values, moves[place].from));
    }
    Ok(found)
}

/// Takes out what is under the old ids.
fn take_out<V: Copy + Drop + Filler>(values: &mut IdMap<V>, moves: &[IdMove])
    ensures { values.new ≡ without_ids values.old (old_ids moves.now) }
{
    for place in 0..moves.len() {
        values.remove(moves[place].from);
    }
}

/// Takes out what is under the old ids; false where nothing is under one of them when its turn comes.
fn take_all_out<V: Copy + Drop + Filler>(values: &mut IdMap<V>, moves: &[IdMove]) -> bool
    ensures judged { result ≡ not (meets_none values.old moves.now) }
    ensures out { result ≡ true → values.new ≡ without_ids values.old (old_ids moves.now) }
{
    for place in 0..moves.len() {
        let id = moves[place].from;
        let value = values.take(id);
        if value.is_none() {
            return false;
        }
    }
    true
}

/// Puts a value under this id, if there is one.
fn put_value<V: Copy + Drop + Filler>(
    values: &mut IdMap<V>,
    id: u64,
    value: Option<V>,
) -> Result<(), AllocError>
    ensures { OnOk result (values.new ≡ put_if values.old id value) }
{
    match value {
        Some(value) => values.insert(id, value),
        None => Ok(()),
    }
}

/// Puts values under the new ids.
fn put_in<V: Copy + Drop + Filler>(
    values: &mut IdMap<V>,
    moves: &[IdMove],
    found: &[Option<V>],
) -> Result<(), AllocError>
    requires { (first : map.FinMap nat_cmp V) × (found.now ≡ values_for first moves.now) }
    ensures { OnOk result ((first : map.FinMap nat_cmp V) → found.now ≡ values_for first moves.now → values.new ≡ put_moved first values.old moves.now) }
{
    for place in 0..moves.len() {
        put_value(values, moves[place].to, found[place])?;
    }
    Ok(())
}

/// Puts values under the new ids; false where something is under one of them when its turn comes.
fn put_all_in<V: Copy + Drop + Filler>(
    values: &mut IdMap<V>,
    moves: &[IdMove],
    found: &[Option<V>],
) -> Result<bool, AllocError>
    requires { (first : map.FinMap nat_cmp V) × (found.now ≡ values_for first moves.now) }
    ensures judged { IfOk result (λ done. (first : map.FinMap nat_cmp V) → found.now ≡ values_for first moves.now → done ≡ not (meets_some first values.old moves.now)) }
    ensures put { IfOk result (λ done. done ≡ true → (first : map.FinMap nat_cmp V) → found.now ≡ values_for first moves.now → values.new ≡ put_moved first values.old moves.now) }
{
    for place in 0..moves.len() {
        let id = moves[place].to;
        if values.get(id).is_some() {
            return Ok(false);
        }
        put_value(values, id, found[place])?;
    }
    Ok(true)
}

impl<V: Copy + Drop + Filler> IdMap<V> {
    /// Moves values under other ids, all at once. Where nothing is under an old id, nothing comes under the new one.
    pub fn move_ids(&mut self, alloc: Global, moves: &[IdMove]) -> Result<(), AllocError>
        ensures { OnOk result (self.new ≡ moved self.old moves.now) }
    {
        let found = values_of(alloc, self, moves)?;
        take_out(self, moves);
        put_in(self, moves, &found)
    }

    /// Moves values under other ids, all at once, where the rules of a move hold. After an error the map is spoilt.
    pub(crate) fn judge_and_move(
        &mut self,
        alloc: Global,
        moves: &[IdMove],
    ) -> Result<(), JudgeRefusal>
        ensures judged { JudgesBy (moving_in self.old moves.now) result }
        ensures moved { OnOk result (self.new ≡ moved self.old moves.now) }
    {
        // A loop that only reads waits for many places at once, where the ids are far apart.
        let found = values_of(alloc, self, moves)?;
        if !take_all_out(self, moves) {
            return Err(JudgeRefusal::Wrong(Cause::NotLive));
        }
        if !put_all_in(self, moves, &found)? {
            return Err(JudgeRefusal::Wrong(Cause::IdInUse));
        }
        Ok(())
    }
}

//! One table of live constraints, by their ids.
ghost use Rattle.std.specs.Prelude.{◌≡◌, ℕ, OnOk, OnErr, IfOk, MatchOption, None, Some, get_or};
ghost use Rattle.std.specs.FinMap as map;
ghost use Rattle.cx_semantics.specs.LogRules.{moving};
ghost use Rattle.cx_semantics.specs.Moves.{moved};
ghost use Rattle.cx_semantics.specs.Tables.{get, is_live, numbered_from};
ghost use Rattle.proof_rules.specs.FirstLists.{lists_of, AreElsewhere, behind};
ghost use Rattle.proof_rules.specs.Judges.{JudgesBy};
ghost use Rattle.proof_rules.specs.Kinds.{ListsLive};

use crate::first::{FirstLists, Numbered};
use crate::kept::KeptLists;
use crate::refusal::JudgeRefusal;
use cx_base::{IdList, IdMove, Lit};
use std::alloc::{AllocError, Global};
use std::marker::Model;

/// From ids to literals.
#[derive(Drop)]
pub(crate) struct LiveTable<'f> {
    /// What a formula has. It takes precedence over what was put under the same id.
    first: FirstLists<'f>,
    lists: KeptLists,
}

impl<'f> Model for LiveTable<'f> {
    ghost use Rattle.std.specs.Prelude.{◌++◌};
    ghost use Rattle.std.specs.FinMap as map;
    ghost use Rattle.proof_rules.specs.Places.{entries_of};
    ghost use Rattle.cx_semantics.specs.Tables.{Table, table_code};

    ghost Value = { Table };

    ghost coded = { table_code };

    ghost view = { λ a. map.from_entries (entries_of a.first ++ map.entries a.lists) };
}

/// A list of the formula under this id is copied, if there is one, and joins the others. Mostly there is none.
#[inline(always)]
fn copy_first(first: &mut FirstLists, lists: &mut KeptLists, id: u64) -> Result<(), AllocError>
    ensures same { behind first.new lists.new ≡ behind first.old lists.old }
    ensures none { OnOk result (get_or first.new id None ≡ None) }
    ensures fewer { (q : ℕ) → get_or first.old q None ≡ None → get_or first.new q None ≡ None }
{
    if first.has(id) {
        copy_list(first, lists, id)
    } else {
        Ok(())
    }
}

/// A list of the formula under this id is copied, if there is one, and joins the others.
#[inline(never)]
fn copy_list(first: &mut FirstLists, lists: &mut KeptLists, id: u64) -> Result<(), AllocError>
    ensures same { behind first.new lists.new ≡ behind first.old lists.old }
    ensures none { OnOk result (get_or first.new id None ≡ None) }
    ensures fewer { (q : ℕ) → get_or first.old q None ≡ None → get_or first.new q None ≡ None }
{
    if let Some(lits) = first.get(id) {
        lists.insert(id, lits)?;
        first.clear(id);
    }
    Ok(())
}

/// Lists of the formula under ids that are moved, old and new, are copied, and join the others. Each list is copied
/// once, since it never comes back.
fn copy_moved(
    first: &mut FirstLists,
    lists: &mut KeptLists,
    moves: &[IdMove],
) -> Result<(), AllocError>
    ensures same { OnOk result (behind first.new lists.new ≡ behind first.old lists.old) }
    ensures none { OnOk result (AreElsewhere first.new moves.now) }
{
    for place in 0..moves.len() {
        let IdMove { from, to } = moves[place];
        copy_first(first, lists, from)?;
        copy_first(first, lists, to)?;
    }
    Ok(())
}

impl<'f> LiveTable<'f> {
    /// The lists of a formula, under their numbers.
    pub(crate) fn of(alloc: Global, lists: Numbered<'f>) -> Result<LiveTable<'f>, AllocError>
        ensures { IfOk result (λ table. table ≡ numbered_from 1 (lists_of lists.entry)) }
    {
        Ok(LiveTable {
            first: FirstLists::all(alloc, lists)?,
            lists: KeptLists::beside(alloc, lists.count() as u64),
        })
    }

    /// Nothing is live. A list of the formula that comes under its number is not copied.
    pub(crate) fn beside(alloc: Global, lists: Numbered<'f>) -> LiveTable<'f>
        ensures { result ≡ map.empty }
    {
        LiveTable {
            first: FirstLists::none(alloc, lists),
            lists: KeptLists::beside(alloc, lists.count() as u64),
        }
    }

    /// Whether a list of this id is live.
    pub(crate) fn has(&self, id: u64) -> bool
        ensures { result ≡ is_live self.now id }
    {
        self.first.has(id) || self.lists.has(id)
    }

    /// The live list of this id.
    #[inline(always)]
    pub(crate) fn get(&self, id: u64) -> Option<&[Lit]>
        ensures { MatchOption result (get self.now id ≡ None) (λ lits. get self.now id ≡ Some lits.now) }
    {
        match self.first.get(id) {
            Some(lits) => Some(lits),
            None => self.lists.get(id),
        }
    }

    /// The ids of the live lists.
    pub(crate) fn ids(&self, alloc: Global) -> Result<IdList, AllocError>
        ensures { IfOk result (ListsLive self.now) }
    {
        let mut ids = self.lists.ids(alloc)?;
        self.first.push_ids(&mut ids)?;
        Ok(IdList::from_vec(ids))
    }

    /// Puts a list under this id: that of the formula where it is the same, and otherwise a copy. Without memory nothing changes.
    // Each step that adds something calls it once.
    #[inline(always)]
    pub(crate) fn insert_copy(&mut self, id: u64, lits: &[Lit]) -> Result<(), AllocError>
        ensures ok { OnOk result (self.new ≡ map.insert self.old id lits.now) }
        ensures err { OnErr result (self.new ≡ self.old) }
    {
        if self.first.restore(id, lits)? {
            return Ok(());
        }
        self.lists.insert(id, lits)?;
        self.first.clear(id);
        Ok(())
    }

    /// Takes the list of this id out; where none is live nothing changes.
    pub(crate) fn remove(&mut self, id: u64)
        ensures { self.new ≡ map.remove self.old id }
    {
        self.first.clear(id);
        self.lists.remove(id);
    }

    /// Moves lists under other ids, all at once, where the rules of a move hold. After an error the table is spoilt.
    ///
    /// It costs the moves, and what is copied: a list of the formula, when it first leaves its number.
    pub(crate) fn judge_and_move(&mut self, moves: &[IdMove]) -> Result<(), JudgeRefusal>
        ensures judged { JudgesBy (moving self.old moves.now) result }
        ensures moved { OnOk result (self.new ≡ moved self.old moves.now) }
    {
        copy_moved(&mut self.first, &mut self.lists, moves)?;
        self.lists.judge_and_move(moves)
    }
}

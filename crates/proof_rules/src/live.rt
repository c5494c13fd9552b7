//! The live clauses and parities of a proof, by their ids.
ghost use Rattle.std.specs.Prelude.{◌≡◌, IfOk, OnOk, OnErr, [], ◌∷◌, MatchOption, None, Some};
ghost use Rattle.cx_semantics.specs.Tables.{get, is_live, no_tables, first_tables};
ghost use Rattle.cx_semantics.specs.LogRules.{moving};
ghost use Rattle.proof_rules.specs.Judges.{JudgesBy};
ghost use Rattle.proof_rules.specs.Kinds.{chosen, put_constraint, drop_constraints, move_constraints, ListsLive};

use crate::first::Numbered;
use crate::refusal::JudgeRefusal;
use crate::table::LiveTable;
use cx_base::{Formula, IdList, IdMove, Lit};
use std::alloc::{AllocError, Global};
use std::marker::Model;

/// One of the two tables.
#[derive(Clone, Copy, Drop)]
pub enum Kind {
    Clauses,
    Parities,
}

/// Two tables, of clauses and of parities, each from ids to literals. The two sets of ids are separate.
#[derive(Drop)]
pub struct Live<'f> {
    clauses: LiveTable<'f>,
    parities: LiveTable<'f>,
}

impl<'f> Model for Live<'f> {
    ghost use Rattle.cx_semantics.specs.Tables.{Tables, tables_code};

    ghost Value = { Tables };

    ghost coded = { tables_code };

    ghost view = { λ a. record { clauses = a.clauses; parities = a.parities } };
}

impl<'f> Live<'f> {
    /// The formula's clauses and its parities, each numbered from 1 in order. Its literals are not copied.
    pub fn of(alloc: Global, formula: &'f Formula) -> Result<Live<'f>, AllocError>
        ensures { IfOk result (λ live. live ≡ first_tables formula.now) }
    {
        Ok(Live {
            clauses: LiveTable::of(alloc, Numbered::Clauses(formula))?,
            parities: LiveTable::of(alloc, Numbered::Parities(formula))?,
        })
    }

    /// Nothing is live. A constraint of the formula that comes under its number will not be copied.
    pub fn beside(alloc: Global, formula: &'f Formula) -> Live<'f>
        ensures { result ≡ no_tables }
    {
        Live {
            clauses: LiveTable::beside(alloc, Numbered::Clauses(formula)),
            parities: LiveTable::beside(alloc, Numbered::Parities(formula)),
        }
    }

    /// Whether a constraint of this kind and id is live.
    pub fn has(&self, kind: Kind, id: u64) -> bool
        ensures { result ≡ is_live (chosen kind self.now) id }
    {
        match kind {
            Kind::Clauses => self.clauses.has(id),
            Kind::Parities => self.parities.has(id),
        }
    }

    /// The ids of the live clauses.
    pub fn clause_ids(&self, alloc: Global) -> Result<IdList, AllocError>
        ensures { IfOk result (ListsLive self.now.clauses) }
    {
        self.clauses.ids(alloc)
    }

    /// The literals of the live clause of this id.
    #[inline(always)]
    pub fn clause(&self, id: u64) -> Option<&[Lit]>
        ensures { MatchOption result (get self.now.clauses id ≡ None) (λ lits. get self.now.clauses id ≡ Some lits.now) }
    {
        self.clauses.get(id)
    }

    /// The literals of the live parity of this id.
    pub fn parity(&self, id: u64) -> Option<&[Lit]>
        ensures { MatchOption result (get self.now.parities id ≡ None) (λ lits. get self.now.parities id ≡ Some lits.now) }
    {
        self.parities.get(id)
    }

    /// Puts a constraint of this kind with these literals under this id: that of the formula where it is the same, and otherwise a
    /// copy. Without memory nothing changes.
    pub fn add_copy(&mut self, kind: Kind, id: u64, lits: &[Lit]) -> Result<(), AllocError>
        ensures ok { OnOk result (self.new ≡ put_constraint kind self.old id lits.now) }
        ensures err { OnErr result (self.new ≡ self.old) }
    {
        match kind {
            Kind::Clauses => self.clauses.insert_copy(id, lits),
            Kind::Parities => self.parities.insert_copy(id, lits),
        }
    }

    /// Takes the constraint of this kind and id out; where none is live nothing changes.
    pub fn remove(&mut self, kind: Kind, id: u64)
        ensures { self.new ≡ drop_constraints kind self.old (id ∷ []) }
    {
        match kind {
            Kind::Clauses => self.clauses.remove(id),
            Kind::Parities => self.parities.remove(id),
        }
    }

    /// Moves constraints of a kind under other ids, all at once, where the rules of a move hold. After an error the tables are
    /// spoilt.
    ///
    /// It costs the moves, and no literals but those of a constraint of the formula when it first leaves its number.
    pub fn judge_and_move(&mut self, kind: Kind, moves: &[IdMove]) -> Result<(), JudgeRefusal>
        ensures judged { JudgesBy (moving (chosen kind self.old) moves.now) result }
        ensures moved { OnOk result (self.new ≡ move_constraints kind self.old moves.now) }
    {
        match kind {
            Kind::Clauses => self.clauses.judge_and_move(moves),
            Kind::Parities => self.parities.judge_and_move(moves),
        }
    }
}

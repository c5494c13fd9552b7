//! Live clauses, and chains over them.
ghost use Rattle.std.specs.Prelude.{◌≡◌, IfOk, IfErr, OnOk, OnErr, [], ◌∷◌, MatchOption, None, Some};
ghost use Rattle.cx_semantics.specs.Chain.{IsChain};
ghost use Rattle.cx_semantics.specs.Judging.{AllHold};
ghost use Rattle.cx_semantics.specs.LogRules.{AreLive, HasChain, moving};
ghost use Rattle.proof_rules.specs.Judges.{IsRefusedBy};
ghost use Rattle.proof_rules.specs.declared.live.Kind.TheVariants.{Clauses, Parities};
ghost use Rattle.proof_rules.specs.Kinds.{chosen, put_constraint, drop_constraints, move_constraints};
ghost use Rattle.cx_semantics.specs.Tables.{is_live, named, no_tables};
ghost use Rattle.rup_engine.specs.Finding.{Answers};
ghost use Rattle.rup_finder.specs.Front.{IsChainLength};

use crate::front::chain_length;
use crate::ready::{ask, keep_if, move_in, put_in, ready, take_out};
use crate::recent::{Recent, limit_beside};
use crate::search::find;
use cx_base::{Formula, IdList, IdMove, Lit};
use proof_rules::{JudgeRefusal, Kind, LiteralSet, Live};
use rup_engine::{Answer, Engine};
use std::alloc::{AllocError, Global};
use std::marker::Model;

/// The live clauses and parities of a log, and where a chain was asked for the clauses by their watched literals.
///
/// What is added or removed costs its own literals, and what was propagated from it. What comes under another id costs the ids.
#[derive(Drop)]
pub struct IndexedClauses<'f> {
    live: Live<'f>,
    /// All live clauses. None before the first search, once memory ran out, and where it is to be made anew.
    engine: Option<Engine>,
    /// Some of them, which are asked first.
    recent: Recent,
    /// What a chain assumes, for its memory alone.
    assumed: LiteralSet,
}

impl<'f> Model for IndexedClauses<'f> {
    ghost use Rattle.cx_semantics.specs.Tables.{Tables, tables_code};
    ghost use Rattle.rup_finder.specs.Ready.{IsReady};
    ghost use Rattle.rup_finder.specs.Recent.{IsRecent};

    ghost Value = { Tables };

    ghost coded = { tables_code };

    ghost view = { λ a. a.live };

    ghost invariant = { λ a. IsReady a.live.clauses a.engine × IsRecent a.live.clauses a.recent.engine };
}

/// The answer of the engine; where it tells nothing, that of the plain search.
fn told(
    alloc: Global,
    live: &Live,
    target: &[Lit],
    answer: Answer,
) -> Result<Option<IdList>, AllocError>
    requires { Answers live.now.clauses target.now answer }
    ensures { IfOk result (λ found. MatchOption found (¬ HasChain live.now.clauses target.now) (λ ids. AreLive live.now.clauses ids × IsChain target.now (named live.now.clauses ids))) }
{
    match answer {
        Answer::Chain(ids) => Ok(Some(ids)),
        Answer::NoChain => Ok(None),
        Answer::Untold => find(alloc, live, target),
    }
}

impl<'f> IndexedClauses<'f> {
    /// Nothing is live. A constraint of the formula that comes under its number will not be copied.
    pub fn make(alloc: Global, formula: &'f Formula) -> IndexedClauses<'f>
        ensures { result ≡ no_tables }
    {
        IndexedClauses {
            live: Live::beside(alloc, formula),
            engine: None,
            recent: Recent::make(alloc),
            assumed: LiteralSet::new(alloc),
        }
    }

    /// The tables alone.
    pub fn live(&self) -> &Live
        ensures { result.now ≡ self.now }
    {
        &self.live
    }

    /// Whether a constraint of this kind and id is live.
    pub fn has(&self, kind: Kind, id: u64) -> bool
        ensures { result ≡ is_live (chosen kind self.now) id }
    {
        self.live.has(kind, id)
    }

    /// Puts a clause under this id, in the engines too. On its own, so that a call without engines has no room of theirs
    /// to clear.
    #[inline(never)]
    fn add_to_engines(&mut self, id: u64, lits: &[Lit]) -> Result<(), AllocError>
        ensures ok { OnOk result (self.new ≡ put_constraint Clauses self.old id lits.now) }
        ensures err { OnErr result (self.new ≡ self.old) }
    {
        self.live.add_copy(Kind::Clauses, id, lits)?;
        // An engine that has no memory for it goes, and the next search makes one.
        let _ = put_in(&mut self.engine, id, lits);
        let _ = put_in(&mut self.recent.engine, id, lits);
        Ok(())
    }

    /// Puts a constraint of this kind with these literals under this id, in the place of what is live under it. They are copied
    /// but where it is the formula's constraint of this number. Without memory no table changes.
    pub fn add_copy(&mut self, kind: Kind, id: u64, lits: &[Lit]) -> Result<(), AllocError>
        ensures ok { OnOk result (self.new ≡ put_constraint kind self.old id lits.now) }
        ensures err { OnErr result (self.new ≡ self.old) }
    {
        match kind {
            Kind::Clauses => {
                // Without engines there is none to move.
                if self.engine.is_none() && self.recent.engine.is_none() {
                    self.live.add_copy(Kind::Clauses, id, lits)
                } else {
                    self.add_to_engines(id, lits)
                }
            }
            Kind::Parities => self.live.add_copy(Kind::Parities, id, lits),
        }
    }

    /// Takes the clause of this id out, of the engines too. On its own for the same reason.
    #[inline(never)]
    fn remove_from_engines(&mut self, id: u64)
        ensures { self.new ≡ drop_constraints Clauses self.old (id ∷ []) }
    {
        take_out(&mut self.engine, id);
        take_out(&mut self.recent.engine, id);
        self.live.remove(Kind::Clauses, id);
    }

    /// Takes the constraint of this kind and id out; where none is live nothing changes.
    pub fn remove(&mut self, kind: Kind, id: u64)
        ensures { self.new ≡ drop_constraints kind self.old (id ∷ []) }
    {
        match kind {
            Kind::Clauses => {
                if self.engine.is_none() && self.recent.engine.is_none() {
                    self.live.remove(Kind::Clauses, id);
                } else {
                    self.remove_from_engines(id);
                }
            }
            Kind::Parities => self.live.remove(Kind::Parities, id),
        }
    }

    /// Moves clauses under other ids, in the engines too, where the rules of a move hold. After an error the tables are spoilt, and
    /// no engine is left.
    fn move_clauses(&mut self, alloc: Global, moves: &[IdMove]) -> Result<(), JudgeRefusal>
        ensures right { OnOk result (AllHold (moving self.old.clauses moves.now)) }
        ensures moved { OnOk result (self.new ≡ move_constraints Clauses self.old moves.now) }
        ensures err { IfErr result (IsRefusedBy (moving self.old.clauses moves.now)) }
    {
        let judged = self.live.judge_and_move(Kind::Clauses, moves);
        if judged.is_ok() {
            move_in(&mut self.engine, alloc, moves);
            move_in(&mut self.recent.engine, alloc, moves);
        } else {
            keep_if(false, &mut self.engine);
            keep_if(false, &mut self.recent.engine);
        }
        judged
    }

    /// Moves parities under other ids, where the rules of a move hold. After an error the tables are spoilt, and no engine is left.
    fn move_parities(&mut self, moves: &[IdMove]) -> Result<(), JudgeRefusal>
        ensures right { OnOk result (AllHold (moving self.old.parities moves.now)) }
        ensures moved { OnOk result (self.new ≡ move_constraints Parities self.old moves.now) }
        ensures err { IfErr result (IsRefusedBy (moving self.old.parities moves.now)) }
    {
        let judged = self.live.judge_and_move(Kind::Parities, moves);
        keep_if(judged.is_ok(), &mut self.engine);
        keep_if(judged.is_ok(), &mut self.recent.engine);
        judged
    }

    /// Moves constraints of this kind under other ids, all at once, where the rules of a move hold. After an error the tables are
    /// spoilt.
    ///
    /// It costs the moves. What was propagated stays.
    pub fn judge_and_move(
        &mut self,
        alloc: Global,
        kind: Kind,
        moves: &[IdMove],
    ) -> Result<(), JudgeRefusal>
        ensures right { OnOk result (AllHold (moving (chosen kind self.old) moves.now)) }
        ensures moved { OnOk result (self.new ≡ move_constraints kind self.old moves.now) }
        ensures err { IfErr result (IsRefusedBy (moving (chosen kind self.old) moves.now)) }
    {
        match kind {
            Kind::Clauses => self.move_clauses(alloc, moves),
            Kind::Parities => self.move_parities(moves),
        }
    }

    /// How many of the hints, from the first on, are a right chain of live clauses for the clause: the fewest that are one. None
    /// where no prefix without a negative hint is one.
    ///
    /// Each hint is looked up once, and none after the chain's end.
    pub fn chain_length(
        &mut self,
        target: &[Lit],
        hints: &[i64],
    ) -> Result<Option<usize>, AllocError>
        ensures same { self.new ≡ self.old }
        ensures length { IfOk result (IsChainLength self.old.clauses target.now hints.now) }
    {
        chain_length(&mut self.assumed, &self.live, target, hints)
    }

    /// A list of live hints that is a right chain for the clause; none where no list of live hints is one.
    ///
    /// A call costs what the negations of the target's literals propagate over the clauses that chains used lately and
    /// those that came since, and where these give no chain, over all; and what the clauses by themselves do where that
    /// is not known from the call before. The first call costs all live clauses, and so does one after as many have
    /// gone as are live. Where the clauses of chains are gathered anew, those that came meanwhile pay for it.
    pub fn find(&mut self, alloc: Global, target: &[Lit]) -> Result<Option<IdList>, AllocError>
        ensures same { self.new ≡ self.old }
        ensures found { IfOk result (λ found. MatchOption found (¬ HasChain self.old.clauses target.now) (λ ids. AreLive self.old.clauses ids × IsChain target.now (named self.old.clauses ids))) }
    {
        match self.recent.find(alloc, &self.live, target)? {
            Some(ids) => Ok(Some(ids)),
            None => self.find_among_all(alloc, target),
        }
    }

    /// Finds a chain among all live clauses alone. The clauses of the chain are recent then.
    fn find_among_all(
        &mut self,
        alloc: Global,
        target: &[Lit],
    ) -> Result<Option<IdList>, AllocError>
        ensures same { self.new ≡ self.old }
        ensures found { IfOk result (λ found. MatchOption found (¬ HasChain self.old.clauses target.now) (λ ids. AreLive self.old.clauses ids × IsChain target.now (named self.old.clauses ids))) }
    {
        ready(&mut self.engine, alloc, &self.live, target)?;
        let answer = ask(&mut self.engine, alloc, target)?;
        let limit = limit_beside(&self.engine);
        self.recent.learn(alloc, &self.live, limit, &answer)?;
        told(alloc, &self.live, target, answer)
    }
}

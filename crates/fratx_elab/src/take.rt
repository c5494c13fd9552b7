//! One step of a log: judged, done, and what the proof gains by it.
ghost use Rattle.std.specs.Prelude.{◌≡◌, ◌≤◌, ◌<◌, ◌+◌, ℕ, pos, is_some, length, map, take, IfOk, OnOk};
ghost use Rattle.std.specs.List.{AllByRecursion};
ghost use Rattle.cx_base.specs.Integers.{sizes};
ghost use Rattle.cx_base.specs.Numbers.{AreStepIntegers};
ghost use Rattle.cx_base.specs.Problem.{Problem};
ghost use Rattle.cx_semantics.specs.Chain.{IsChain};
ghost use Rattle.cx_semantics.specs.LogRules.{AreLive, HasChain, chained};
ghost use Rattle.cx_semantics.specs.Tables.{Tables, is_live, named};
ghost use Rattle.cx_base.specs.declared.steps.LogStep.TheVariants as step;
ghost use Rattle.proof_rules.specs.Kinds.{put_constraint};
ghost use Rattle.fratx_elab.specs.Contents.{StandsFor};
ghost use Rattle.fratx_elab.specs.Elaborates.{KeepsHints};
ghost use Rattle.fratx_elab.specs.Names.{AreNamed, IsProofId, stands_for, hints_for};
ghost use Rattle.fratx_elab.specs.Takes.{TakesLogStep, Admits, GivesChain, SettlesHints, CanBePrinted, CountsOneMore, names_of};
ghost use Rattle.fratx_elab.specs.Ties.{AreTied};
ghost use Rattle.fratx_elab.specs.declared.naming.TheConstants.{MAX_ID};
ghost use Rattle.rup_finder.specs.Front.{NoneNegative};

use crate::elaboration::Elaboration;
use crate::naming::Names;
use crate::state::State;
use crate::steps::{clause_of_parity_step, clause_step, parity_of_clauses_step, parity_step};
use cx_base::{IdList, IntList, Lit, LitList, ProofStep};
use cx_semantics::Cause;
use proof_rules::{
    JudgeMarks, JudgeRefusal, Kind, admit_into, ids_of, judge_clause_of_named_parity,
    judge_named_sum, judge_parity_of_named_clauses,
};
use rup_finder::IndexedClauses;
use std::alloc::{AllocError, Global};
use std::mem;

/// The hints of the proof that are these ids, in the memory of `room`.
fn same_hints(room: Vec<i64>, ids: &[u64]) -> Result<IntList, AllocError>
    requires { AllByRecursion IsProofId ids.now }
    ensures { IfOk result (λ hints. hints ≡ map pos ids.now) }
{
    // Places first, since a loop that fills places takes several at once.
    let mut hints = room;
    hints.resize(ids.len(), 1)?;
    for place in 0..ids.len() {
        hints[place] = ids[place] as i64;
    }
    Ok(IntList::from_vec(hints))
}

/// The hints that name in the proof what the ids name in the log, where some id may stand for another one, in the memory of `room`.
fn renamed_hints(room: Vec<i64>, names: &Names, ids: &[u64]) -> Result<IntList, AllocError>
    ensures { IfOk result (λ hints. hints ≡ hints_for names.now ids.now) }
{
    let mut hints = room;
    hints.clear();
    for id in ids {
        if let Some(found) = names.get(*id) {
            hints.push(found.hint())?;
        }
    }
    Ok(IntList::from_vec(hints))
}

/// The hints that name in the proof what the ids name in the log, in the memory of `room`.
fn hints_of(room: Vec<i64>, names: &Names, ids: &[u64]) -> Result<IntList, AllocError>
    requires { AreNamed names.now ids.now }
    ensures { IfOk result (λ hints. hints ≡ hints_for names.now ids.now) }
{
    if names.stand_for_themselves() {
        same_hints(room, ids)
    } else {
        renamed_hints(room, names, ids)
    }
}

/// Puts a constraint under this id, and gives the memory of its literals back.
#[inline(always)]
fn put_live(
    live: &mut IndexedClauses,
    marks: &mut JudgeMarks,
    kind: Kind,
    id: u64,
    lits: LitList,
) -> Result<(), AllocError>
    ensures { OnOk result (live.new ≡ put_constraint kind live.old id lits) }
{
    live.add_copy(kind, id, lits.as_slice())?;
    marks.keep_literals(lits);
    Ok(())
}

/// The integers of the list, which has none then.
fn vector_of(alloc: Global, list: &mut IntList) -> Vec<i64>
    ensures elements { result.items ≡ list.old }
    ensures proper { AreStepIntegers list.old }
{
    mem::replace(list, IntList::from_vec(Vec::new(alloc))).into_vec()
}

/// Renames hints of the log to those that name the same in the proof, in the memory of the list; where ids stand for themselves,
/// there is nothing to write.
fn rename(alloc: Global, names: &Names, hints: &mut IntList)
    requires named { AreNamed names.now (sizes hints.old) }
    requires plain { NoneNegative hints.old }
    ensures { hints.new ≡ hints_for names.now (sizes hints.old) }
{
    if names.stand_for_themselves() {
        return;
    }
    let mut list = vector_of(alloc, hints);
    let count = list.len();
    let mut kept = 0;
    for place in 0..count {
        if let Some(id) = names.get(list[place].unsigned_abs()) {
            list[kept] = id.hint();
            kept += 1;
        }
    }
    list.truncate(kept);
    *hints = IntList::from_vec(list);
}

/// Leaves this many hints, the first ones.
fn shorten(alloc: Global, hints: &mut IntList, count: usize)
    ensures { hints.new ≡ take count hints.old }
{
    if count < hints.as_slice().len() {
        let mut list = vector_of(alloc, hints);
        list.truncate(count);
        *hints = IntList::from_vec(list);
    }
}

/// A list of live hints that is a right chain for the clause, or that there is none. The given hints are tried from the last to the
/// first, since a solver may meet them from the conflict back.
// Apart, so that hints that are right pay for nothing of it.
#[inline(never)]
fn chain_of(
    alloc: Global,
    live: &mut IndexedClauses,
    target: &LitList,
    given: &[i64],
) -> Result<IdList, JudgeRefusal>
    ensures same { live.new ≡ live.old }
    ensures chain { GivesChain live.old.clauses target.now result }
{
    let mut reversed = Vec::from_slice(alloc, given)?;
    reversed.reverse();
    if let Some(count) = live.chain_length(target.as_slice(), &reversed)? {
        return Ok(IdList::from_vec(ids_of(Vec::new(alloc), &reversed[..count])?));
    }
    match live.find(alloc, target.as_slice())? {
        Some(ids) => Ok(ids),
        None => Err(JudgeRefusal::Wrong(Cause::NoChain)),
    }
}

/// Makes the hints that the log gives for a clause those of the proof: they keep what they name, up to the end of a right chain,
/// where they are one; otherwise those of another chain come in their place.
#[inline(always)]
fn settle_hints(
    alloc: Global,
    live: &mut IndexedClauses,
    names: &Names,
    target: &LitList,
    hints: &mut IntList,
) -> Result<(), JudgeRefusal>
    requires keyed { (n : ℕ) → is_live live.old.clauses n ≡ is_some (stands_for names.now n) }
    ensures same { live.new ≡ live.old }
    ensures chain { SettlesHints live.old.clauses names.now target.now result hints.new }
    ensures kept { OnOk result (KeepsHints names.now live.old.clauses target.now hints.old hints.new) }
{
    if let Some(count) = live.chain_length(target.as_slice(), hints.as_slice())? {
        shorten(alloc, hints, count);
        rename(alloc, names, hints);
        return Ok(());
    }
    let ids = chain_of(alloc, live, target, hints.as_slice())?;
    let room = vector_of(alloc, hints);
    *hints = hints_of(room, names, ids.as_slice())?;
    Ok(())
}

impl Elaboration<'_> {
    /// The literals of what a clause step adds, in the memory of `room`: its variables are the formula's, and its id is not that of
    /// a live clause.
    #[inline(always)]
    fn admit_clause(
        &self,
        room: Vec<Lit>,
        live: &IndexedClauses,
        id: u64,
        lits: &IntList,
    ) -> Result<LitList, JudgeRefusal>
        ensures { Admits self.now.formula.now live.now.clauses id lits.now result }
    {
        admit_into(room, self.formula.vars(), lits, live.has(Kind::Clauses, id))
    }

    /// The literals of what a parity step adds, in the memory of `room`: its variables are the formula's, and its id is not that of
    /// a live parity.
    #[inline(always)]
    fn admit_parity(
        &self,
        room: Vec<Lit>,
        live: &IndexedClauses,
        id: u64,
        lits: &IntList,
    ) -> Result<LitList, JudgeRefusal>
        ensures { Admits self.now.formula.now live.now.parities id lits.now result }
    {
        admit_into(
            room,
            self.formula.vars(),
            lits,
            live.has(Kind::Parities, id),
        )
    }

    /// A clause of the formula: nothing is written.
    #[inline(never)]
    pub fn take_original(
        &self,
        state: &mut State,
        id: u64,
        lits: IntList,
    ) -> Result<Option<ProofStep>, JudgeRefusal>
        requires originals { StandsFor self.now.originals self.now.formula.now }
        ensures taken { TakesLogStep self.now.formula.now state.old (step.Original id lits) result state.new }
        ensures text { IfOk result CanBePrinted }
        ensures counts { OnOk result (CountsOneMore state.old state.new) }
    {
        let room = state.marks.literals();
        let target = self.admit_clause(room, &state.live, id, &lits)?;
        match self
            .originals
            .clause_number(self.alloc, self.formula, id, target.as_slice())?
        {
            Some(number) => {
                put_live(&mut state.live, &mut state.marks, Kind::Clauses, id, target)?;
                state.clauses.put_original(id, number)?;
                state.spare.keep_literals(lits);
                Ok(None)
            }
            None => Err(JudgeRefusal::Wrong(Cause::NotInFormula)),
        }
    }

    /// A parity of the formula: nothing is written.
    #[inline(never)]
    pub fn take_original_parity(
        &self,
        state: &mut State,
        id: u64,
        lits: IntList,
    ) -> Result<Option<ProofStep>, JudgeRefusal>
        requires originals { StandsFor self.now.originals self.now.formula.now }
        ensures taken { TakesLogStep self.now.formula.now state.old (step.OriginalParity id lits) result state.new }
        ensures text { IfOk result CanBePrinted }
        ensures counts { OnOk result (CountsOneMore state.old state.new) }
    {
        let room = state.marks.literals();
        let target = self.admit_parity(room, &state.live, id, &lits)?;
        match self
            .originals
            .parity_number(self.alloc, self.formula, id, target.as_slice())?
        {
            Some(number) => {
                put_live(
                    &mut state.live,
                    &mut state.marks,
                    Kind::Parities,
                    id,
                    target,
                )?;
                state.parities.put_original(id, number)?;
                state.spare.keep_literals(lits);
                Ok(None)
            }
            None => Err(JudgeRefusal::Wrong(Cause::NotInFormula)),
        }
    }

    /// A clause by a chain; the hints that the log gives are tried first.
    #[inline(always)]
    pub fn take_clause(
        &self,
        state: &mut State,
        id: u64,
        lits: IntList,
        mut hints: IntList,
    ) -> Result<Option<ProofStep>, JudgeRefusal>
        requires room { state.old.clauses.last < MAX_ID }
        requires tied { (proof : Tables) × AreTied self.now.formula.now state.old.live proof (names_of state.old) }
        ensures taken { TakesLogStep self.now.formula.now state.old (step.ClauseWithHints id lits hints) result state.new }
        ensures text { IfOk result CanBePrinted }
        ensures counts { OnOk result (CountsOneMore state.old state.new) }
    {
        let room = state.marks.literals();
        let target = self.admit_clause(room, &state.live, id, &lits)?;
        settle_hints(
            self.alloc,
            &mut state.live,
            &state.clauses,
            &target,
            &mut hints,
        )?;
        put_live(&mut state.live, &mut state.marks, Kind::Clauses, id, target)?;
        let next = state.clauses.put_next(id)?;
        Ok(Some(clause_step(next, lits, hints)))
    }

    /// A parity as the sum of parities that the log names.
    #[inline(never)]
    pub fn take_parity(
        &self,
        state: &mut State,
        id: u64,
        lits: IntList,
        sources: IdList,
    ) -> Result<Option<ProofStep>, JudgeRefusal>
        requires room { state.old.parities.last < MAX_ID }
        requires tied { (proof : Tables) × AreTied self.now.formula.now state.old.live proof (names_of state.old) }
        ensures taken { TakesLogStep self.now.formula.now state.old (step.Parity id lits sources) result state.new }
        ensures text { IfOk result CanBePrinted }
        ensures counts { OnOk result (CountsOneMore state.old state.new) }
    {
        let room = state.marks.literals();
        let target = self.admit_parity(room, &state.live, id, &lits)?;
        let ids = sources.as_slice();
        judge_named_sum(&mut state.marks, state.live.live(), &target, ids)?;
        let hints = hints_of(state.spare.hints(), &state.parities, ids)?;
        state.spare.keep_ids(sources);
        put_live(
            &mut state.live,
            &mut state.marks,
            Kind::Parities,
            id,
            target,
        )?;
        let next = state.parities.put_next(id)?;
        Ok(Some(parity_step(next, lits, hints)))
    }

    /// A parity that clauses imply, which the log names.
    #[inline(never)]
    pub fn take_parity_of_clauses(
        &self,
        state: &mut State,
        id: u64,
        lits: IntList,
        sources: IdList,
    ) -> Result<Option<ProofStep>, JudgeRefusal>
        requires room { state.old.parities.last < MAX_ID }
        requires tied { (proof : Tables) × AreTied self.now.formula.now state.old.live proof (names_of state.old) }
        ensures taken { TakesLogStep self.now.formula.now state.old (step.ParityOfClauses id lits sources) result state.new }
        ensures text { IfOk result CanBePrinted }
        ensures counts { OnOk result (CountsOneMore state.old state.new) }
    {
        let room = state.marks.literals();
        let target = self.admit_parity(room, &state.live, id, &lits)?;
        let ids = sources.as_slice();
        // By `?` the prover does not see the cause through.
        match judge_parity_of_named_clauses(&mut state.marks, state.live.live(), &target, ids) {
            Ok(()) => {}
            Err(why) => return Err(why),
        }
        let hints = hints_of(state.spare.hints(), &state.clauses, ids)?;
        state.spare.keep_ids(sources);
        put_live(
            &mut state.live,
            &mut state.marks,
            Kind::Parities,
            id,
            target,
        )?;
        let next = state.parities.put_next(id)?;
        Ok(Some(parity_of_clauses_step(next, lits, hints)))
    }

    /// A clause that a parity implies, which the log names.
    #[inline(never)]
    pub fn take_clause_of_parity(
        &self,
        state: &mut State,
        id: u64,
        lits: IntList,
        source: u64,
    ) -> Result<Option<ProofStep>, JudgeRefusal>
        requires room { state.old.clauses.last < MAX_ID }
        requires tied { (proof : Tables) × AreTied self.now.formula.now state.old.live proof (names_of state.old) }
        ensures taken { TakesLogStep self.now.formula.now state.old (step.ClauseOfParity id lits source) result state.new }
        ensures text { IfOk result CanBePrinted }
        ensures counts { OnOk result (CountsOneMore state.old state.new) }
    {
        let room = state.marks.literals();
        let target = self.admit_clause(room, &state.live, id, &lits)?;
        judge_clause_of_named_parity(&mut state.marks, state.live.live(), &target, source)?;
        let named = match state.parities.get(source) {
            Some(named) => named,
            // Nothing that is live in the log is without a name in the proof.
            None => unreachable!(),
        };
        put_live(&mut state.live, &mut state.marks, Kind::Clauses, id, target)?;
        let next = state.clauses.put_next(id)?;
        Ok(Some(clause_of_parity_step(next, lits, named)))
    }
}

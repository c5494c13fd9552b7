//! The steps of proofs and logs.
ghost use Rattle.std.specs.Prelude.{◌≡◌, IfOk};
ghost use Rattle.cx_base.specs.ListSteps.{list_step};

use crate::id_moves::MoveList;
use crate::lists::{IdList, IntList};
use std::alloc::AllocError;

/// A step of a proof. Literals and hints are as the text has them.
#[derive(Debug, Drop)]
pub enum ProofStep {
    /// A clause with its id, and the hints of its chain.
    Clause(u64, IntList, IntList),
    /// The id in front has no meaning.
    DeleteClauses(u64, IdList),
    /// A parity with its id, and the parities whose sum it is.
    Parity(u64, IntList, IntList),
    DeleteParities(IdList),
    /// A clause with its id, and the parity that implies it.
    ClauseOfParity(u64, IntList, i64),
    /// A parity with its id, and the clauses that imply it.
    ParityOfClauses(u64, IntList, IntList),
}

/// Copies of two lists of integers.
fn two_lists(first: &IntList, second: &IntList) -> Result<(IntList, IntList), AllocError>
    ensures { IfOk result (λ copies. (copies.0 ≡ first.now) × (copies.1 ≡ second.now)) }
{
    let first = first.clone()?;
    match second.clone() {
        Ok(second) => Ok((first, second)),
        Err(why) => Err(why),
    }
}

/// Copies of a list of integers and a list of ids.
fn list_and_ids(list: &IntList, ids: &IdList) -> Result<(IntList, IdList), AllocError>
    ensures { IfOk result (λ copies. (copies.0 ≡ list.now) × (copies.1 ≡ ids.now)) }
{
    let list = list.clone()?;
    match ids.clone() {
        Ok(ids) => Ok((list, ids)),
        Err(why) => Err(why),
    }
}

// Steps are copied by hand, and without `?` where a copy is held: derived, each exit drops what was copied so far, in steps of
// the proof.
impl Clone for ProofStep {
    ghost use Rattle.std.specs.Prelude.{◌≡◌};

    ghost is_clone = { λ step copy. copy ≡ step };

    fn clone(&self) -> Result<ProofStep, AllocError> {
        match self {
            ProofStep::Clause(id, lits, hints) => match two_lists(lits, hints) {
                Ok((lits, hints)) => Ok(ProofStep::Clause(*id, lits, hints)),
                Err(why) => Err(why),
            },
            ProofStep::DeleteClauses(id, ids) => match ids.clone() {
                Ok(ids) => Ok(ProofStep::DeleteClauses(*id, ids)),
                Err(why) => Err(why),
            },
            ProofStep::Parity(id, lits, hints) => match two_lists(lits, hints) {
                Ok((lits, hints)) => Ok(ProofStep::Parity(*id, lits, hints)),
                Err(why) => Err(why),
            },
            ProofStep::DeleteParities(ids) => match ids.clone() {
                Ok(ids) => Ok(ProofStep::DeleteParities(ids)),
                Err(why) => Err(why),
            },
            ProofStep::ClauseOfParity(id, lits, parity) => match lits.clone() {
                Ok(lits) => Ok(ProofStep::ClauseOfParity(*id, lits, *parity)),
                Err(why) => Err(why),
            },
            ProofStep::ParityOfClauses(id, lits, hints) => match two_lists(lits, hints) {
                Ok((lits, hints)) => Ok(ProofStep::ParityOfClauses(*id, lits, hints)),
                Err(why) => Err(why),
            },
        }
    }
}

/// A step of a log. The hints of an added clause have no meaning.
#[derive(Drop)]
pub enum LogStep {
    /// A clause of the formula, with its id here.
    Original(u64, IntList),
    /// A parity of the formula, with its id here.
    OriginalParity(u64, IntList),
    /// A clause that a chain of live clauses shows.
    Clause(u64, IntList),
    /// A clause as above, with hints for its chain.
    ClauseWithHints(u64, IntList, IntList),
    /// A parity with its id, and the parities whose sum it is.
    Parity(u64, IntList, IdList),
    /// A clause with its id, and the parity that implies it.
    ClauseOfParity(u64, IntList, u64),
    /// A parity with its id, and the clauses that imply it.
    ParityOfClauses(u64, IntList, IdList),
    /// The id is taken out; the literals of this step and the next three have no meaning.
    Delete(u64, IntList),
    DeleteParity(u64, IntList),
    Final(u64, IntList),
    FinalParity(u64, IntList),
    /// Clauses come under other ids, all at once.
    MoveClauses(MoveList),
    /// Parities come under other ids, all at once.
    MoveParities(MoveList),
}

/// Which of the steps that have an id and one list of integers.
#[derive(Clone, Copy, Drop)]
enum ListStep {
    Original,
    OriginalParity,
    Clause,
    Delete,
    DeleteParity,
    Final,
    FinalParity,
}

impl ListStep {
    /// The step with this id and list.
    fn step(self, id: u64, lits: IntList) -> LogStep
        ensures { result ≡ list_step self id lits }
    {
        match self {
            ListStep::Original => LogStep::Original(id, lits),
            ListStep::OriginalParity => LogStep::OriginalParity(id, lits),
            ListStep::Clause => LogStep::Clause(id, lits),
            ListStep::Delete => LogStep::Delete(id, lits),
            ListStep::DeleteParity => LogStep::DeleteParity(id, lits),
            ListStep::Final => LogStep::Final(id, lits),
            ListStep::FinalParity => LogStep::FinalParity(id, lits),
        }
    }

    /// The step with this id and a copy of the list.
    fn copied(self, id: u64, lits: &IntList) -> Result<LogStep, AllocError>
        ensures { IfOk result (λ step. step ≡ list_step self id lits.now) }
    {
        match lits.clone() {
            Ok(lits) => Ok(self.step(id, lits)),
            Err(why) => Err(why),
        }
    }
}

impl Clone for LogStep {
    ghost use Rattle.std.specs.Prelude.{◌≡◌};

    ghost is_clone = { λ step copy. copy ≡ step };

    fn clone(&self) -> Result<LogStep, AllocError> {
        match self {
            LogStep::Original(id, lits) => ListStep::Original.copied(*id, lits),
            LogStep::OriginalParity(id, lits) => ListStep::OriginalParity.copied(*id, lits),
            LogStep::Clause(id, lits) => ListStep::Clause.copied(*id, lits),
            LogStep::ClauseWithHints(id, lits, hints) => match two_lists(lits, hints) {
                Ok((lits, hints)) => Ok(LogStep::ClauseWithHints(*id, lits, hints)),
                Err(why) => Err(why),
            },
            LogStep::Parity(id, lits, ids) => match list_and_ids(lits, ids) {
                Ok((lits, ids)) => Ok(LogStep::Parity(*id, lits, ids)),
                Err(why) => Err(why),
            },
            LogStep::ClauseOfParity(id, lits, parity) => match lits.clone() {
                Ok(lits) => Ok(LogStep::ClauseOfParity(*id, lits, *parity)),
                Err(why) => Err(why),
            },
            LogStep::ParityOfClauses(id, lits, ids) => match list_and_ids(lits, ids) {
                Ok((lits, ids)) => Ok(LogStep::ParityOfClauses(*id, lits, ids)),
                Err(why) => Err(why),
            },
            LogStep::Delete(id, lits) => ListStep::Delete.copied(*id, lits),
            LogStep::DeleteParity(id, lits) => ListStep::DeleteParity.copied(*id, lits),
            LogStep::Final(id, lits) => ListStep::Final.copied(*id, lits),
            LogStep::FinalParity(id, lits) => ListStep::FinalParity.copied(*id, lits),
            LogStep::MoveClauses(moves) => match moves.clone() {
                Ok(moves) => Ok(LogStep::MoveClauses(moves)),
                Err(why) => Err(why),
            },
            LogStep::MoveParities(moves) => match moves.clone() {
                Ok(moves) => Ok(LogStep::MoveParities(moves)),
                Err(why) => Err(why),
            },
        }
    }
}

/// A log is a list of steps and marks; the mark of conflict k stands for a comment line.
#[derive(Drop)]
pub enum LogEvent {
    Step(LogStep),
    Conflict(u64),
}

impl Clone for LogEvent {
    ghost use Rattle.std.specs.Prelude.{◌≡◌};

    ghost is_clone = { λ event copy. copy ≡ event };

    fn clone(&self) -> Result<LogEvent, AllocError> {
        match self {
            LogEvent::Step(step) => match step.clone() {
                Ok(step) => Ok(LogEvent::Step(step)),
                Err(why) => Err(why),
            },
            LogEvent::Conflict(number) => Ok(LogEvent::Conflict(*number)),
        }
    }
}

//! One step of a log of any kind.
ghost use Rattle.std.specs.Prelude.{◌≡◌, ◌<◌, length, IfOk, OnOk};
ghost use Rattle.cx_semantics.specs.LogRules.{derives_ending_clause};
ghost use Rattle.cx_semantics.specs.Tables.{Tables};
ghost use Rattle.fratx_elab.specs.Contents.{StandsFor};
ghost use Rattle.fratx_elab.specs.Elaborates.{AreCounts};
ghost use Rattle.fratx_elab.specs.Takes.{TakesLogStep, CanBePrinted, CountsOneMore, names_of};
ghost use Rattle.fratx_elab.specs.Ties.{AreTied};
ghost use Rattle.fratx_elab.specs.declared.naming.TheConstants.{MAX_ID};

use crate::delete::{delete_clause, delete_parity};
use crate::elaboration::Elaboration;
use crate::moving::{move_clauses, move_parities};
use crate::state::State;
use cx_base::{Formula, IntList, LogStep, ProofStep};
use proof_rules::JudgeRefusal;

/// Whether a right step ends the log: one that derives an ending clause.
#[inline(always)]
pub fn ends_log(formula: &Formula, step: &LogStep) -> bool
    ensures { result ≡ derives_ending_clause formula.now step.now }
{
    match step {
        LogStep::Clause(_, lits)
        | LogStep::ClauseWithHints(_, lits, _)
        | LogStep::ClauseOfParity(_, lits, _) => formula.is_ending_integers(lits.as_slice()),
        LogStep::Original(_, _)
        | LogStep::OriginalParity(_, _)
        | LogStep::Parity(_, _, _)
        | LogStep::ParityOfClauses(_, _, _)
        | LogStep::Delete(_, _)
        | LogStep::DeleteParity(_, _)
        | LogStep::Final(_, _)
        | LogStep::FinalParity(_, _)
        | LogStep::MoveClauses(_)
        | LogStep::MoveParities(_) => false,
    }
}

impl Elaboration<'_> {
    /// Judges a step, and where it is right does it and gives what the proof gains, if anything.
    ///
    /// After an error the state is spoilt.
    // Clauses and their deletions are inlined. All other steps are calls: inlined too, they would have each clause clear room for them.
    #[inline(always)]
    pub fn take_step(
        &self,
        state: &mut State,
        step: LogStep,
    ) -> Result<Option<ProofStep>, JudgeRefusal>
        requires originals { StandsFor self.now.originals self.now.formula.now }
        requires counts { AreCounts self.now.counts self.now.formula.now }
        requires clause_room { state.old.clauses.last < MAX_ID }
        requires parity_room { state.old.parities.last < MAX_ID }
        requires tied { (proof : Tables) × AreTied self.now.formula.now state.old.live proof (names_of state.old) }
        ensures taken { TakesLogStep self.now.formula.now state.old step result state.new }
        ensures text { IfOk result CanBePrinted }
        ensures more { OnOk result (CountsOneMore state.old state.new) }
    {
        match step {
            LogStep::Original(id, lits) => self.take_original(state, id, lits),
            LogStep::OriginalParity(id, lits) => self.take_original_parity(state, id, lits),
            LogStep::Clause(id, lits) => {
                let none = IntList::from_vec(Vec::new(self.alloc));
                self.take_clause(state, id, lits, none)
            }
            LogStep::ClauseWithHints(id, lits, hints) => self.take_clause(state, id, lits, hints),
            LogStep::Parity(id, lits, ids) => self.take_parity(state, id, lits, ids),
            LogStep::ClauseOfParity(id, lits, source) => {
                self.take_clause_of_parity(state, id, lits, source)
            }
            LogStep::ParityOfClauses(id, lits, ids) => {
                self.take_parity_of_clauses(state, id, lits, ids)
            }
            LogStep::Delete(id, lits) => delete_clause(self.counts.clauses, state, id, lits),
            LogStep::DeleteParity(id, lits) => delete_parity(self.counts.parities, state, id, lits),
            LogStep::Final(_, lits) | LogStep::FinalParity(_, lits) => {
                state.spare.keep_literals(lits);
                Ok(None)
            }
            LogStep::MoveClauses(moves) => move_clauses(self.alloc, state, moves),
            LogStep::MoveParities(moves) => move_parities(self.alloc, state, moves),
        }
    }
}

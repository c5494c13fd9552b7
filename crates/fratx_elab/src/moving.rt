//! Moves of ids: what is under the old ids is taken out, and then each content is put under its new id.
ghost use Rattle.std.specs.Prelude.{◌≡◌, IfOk, OnOk};
ghost use Rattle.cx_base.specs.declared.steps.LogStep.TheVariants as step;
ghost use Rattle.cx_base.specs.Problem.{Problem};
ghost use Rattle.fratx_elab.specs.Takes.{TakesLogStep, CanBePrinted, CountsOneMore};

use crate::state::State;
use cx_base::{MoveList, ProofStep};
use proof_rules::{JudgeRefusal, Kind};
use std::alloc::Global;

/// Moves clauses of the log under other ids. The proof gains nothing.
#[inline(never)]
pub fn move_clauses(
    alloc: Global,
    state: &mut State,
    moves: MoveList,
) -> Result<Option<ProofStep>, JudgeRefusal>
    ensures taken { (formula : Problem) → TakesLogStep formula state.old (step.MoveClauses moves) result state.new }
    ensures text { IfOk result CanBePrinted }
    ensures counts { OnOk result (CountsOneMore state.old state.new) }
{
    state
        .live
        .judge_and_move(alloc, Kind::Clauses, moves.as_slice())?;
    state.clauses.move_all(moves.as_slice())?;
    state.spare.keep_moves(moves);
    Ok(None)
}

/// Moves parities of the log under other ids. The proof gains nothing.
#[inline(never)]
pub fn move_parities(
    alloc: Global,
    state: &mut State,
    moves: MoveList,
) -> Result<Option<ProofStep>, JudgeRefusal>
    ensures taken { (formula : Problem) → TakesLogStep formula state.old (step.MoveParities moves) result state.new }
    ensures text { IfOk result CanBePrinted }
    ensures counts { OnOk result (CountsOneMore state.old state.new) }
{
    state
        .live
        .judge_and_move(alloc, Kind::Parities, moves.as_slice())?;
    state.parities.move_all(moves.as_slice())?;
    state.spare.keep_moves(moves);
    Ok(None)
}

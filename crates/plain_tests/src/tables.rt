//! What each step of a log puts under its id and takes out, whether it is right or not.
ghost use Rattle.std.specs.Prelude.{◌≡◌, ◌∷◌, [], true, IfOk, OnOk, map};
ghost use Rattle.cx_base.specs.Integers.{literals};
ghost use Rattle.cx_semantics.specs.LogRules.{after_log_step};
ghost use Rattle.cx_semantics.specs.Moves.{old_ids};
ghost use Rattle.cx_semantics.specs.Tables.{get};
ghost use Rattle.proof_rules.specs.Kinds.{chosen, put_constraint, drop_constraints, move_constraints};
ghost use Rattle.plain_tests.specs.Marking.{are_literals, adds_literals, put_content, put_contents};

use cx_base::{IdMove, IntList, LitList, LogStep, MAX_VARIABLE};
use proof_rules::{JudgeRefusal, Kind, Live, admit_into};
use std::alloc::{AllocError, Global};

/// The literals of integers.
pub(crate) fn literals(alloc: Global, integers: &IntList) -> Result<LitList, AllocError>
    requires { are_literals integers.now ≡ true }
    ensures { IfOk result (λ lits. lits ≡ literals integers.now) }
{
    match admit_into(Vec::new(alloc), MAX_VARIABLE, integers, false) {
        Ok(lits) => Ok(lits),
        // the rules of what is added hold, so memory is wanting
        Err(_) => Err(AllocError),
    }
}

/// Puts the literals of integers under an id.
fn put(
    alloc: Global,
    live: &mut Live,
    kind: Kind,
    id: u64,
    integers: &IntList,
) -> Result<(), AllocError>
    requires { are_literals integers.now ≡ true }
    ensures { OnOk result (live.new ≡ put_constraint kind live.old id (literals integers.now)) }
{
    let lits = literals(alloc, integers)?;
    live.add_copy(kind, id, lits.as_slice())
}

/// A copy of the literals under an id, if it is live.
fn content(alloc: Global, live: &Live, kind: Kind, id: u64) -> Result<Option<LitList>, AllocError>
    ensures { IfOk result (λ content. content ≡ get (chosen kind live.now) id) }
{
    let lits = match kind {
        Kind::Clauses => live.clause(id),
        Kind::Parities => live.parity(id),
    };
    match lits {
        Some(lits) => Ok(Some(LitList::from_vec(Vec::from_slice(alloc, lits)?))),
        None => Ok(None),
    }
}

/// What is live under the old ids.
fn contents(
    alloc: Global,
    live: &Live,
    kind: Kind,
    moves: &[IdMove],
) -> Result<Vec<Option<LitList>>, AllocError>
    ensures { IfOk result (λ contents. contents.items ≡ map (λ m. get (chosen kind live.now) m.from) moves.now) }
{
    let mut contents = Vec::new(alloc);
    for id_move in moves {
        contents.push(content(alloc, live, kind, id_move.from)?)?;
    }
    Ok(contents)
}

/// Takes out what is under the old ids.
fn take_out(live: &mut Live, kind: Kind, moves: &[IdMove])
    ensures { live.new ≡ drop_constraints kind live.old (old_ids moves.now) }
{
    for id_move in moves {
        live.remove(kind, id_move.from);
    }
}

/// Puts a content under an id, if there is one.
fn put_content(
    live: &mut Live,
    kind: Kind,
    id: u64,
    content: &Option<LitList>,
) -> Result<(), AllocError>
    ensures { OnOk result (live.new ≡ put_content kind live.old id content.now) }
{
    match content {
        Some(lits) => live.add_copy(kind, id, lits.as_slice()),
        None => Ok(()),
    }
}

/// Puts each content under its new id.
fn put_contents(
    live: &mut Live,
    kind: Kind,
    moves: &[IdMove],
    contents: &[Option<LitList>],
) -> Result<(), AllocError>
    ensures { OnOk result (live.new ≡ put_contents kind live.old moves.now contents.now) }
{
    match moves {
        [] => Ok(()),
        [id_move, moves @ ..] => match contents {
            [] => Ok(()),
            [content, contents @ ..] => {
                put_content(live, kind, id_move.to, content)?;
                put_contents(live, kind, moves, contents)
            }
        },
    }
}

/// Moves what is live under the old ids, all at once.
fn move_ids(alloc: Global, live: &mut Live, kind: Kind, moves: &[IdMove]) -> Result<(), AllocError>
    ensures { OnOk result (live.new ≡ move_constraints kind live.old moves.now) }
{
    let contents = contents(alloc, live, kind, moves)?;
    take_out(live, kind, moves);
    put_contents(live, kind, moves, &contents)
}

/// Does a step, whether it is right or not.
pub(crate) fn put_step(alloc: Global, live: &mut Live, step: &LogStep) -> Result<(), AllocError>
    requires { adds_literals step.now ≡ true }
    ensures { OnOk result (live.new ≡ after_log_step live.old step.now) }
{
    match step {
        LogStep::Original(id, lits)
        | LogStep::Clause(id, lits)
        | LogStep::ClauseWithHints(id, lits, _)
        | LogStep::ClauseOfParity(id, lits, _) => put(alloc, live, Kind::Clauses, *id, lits),
        LogStep::OriginalParity(id, lits)
        | LogStep::Parity(id, lits, _)
        | LogStep::ParityOfClauses(id, lits, _) => put(alloc, live, Kind::Parities, *id, lits),
        LogStep::Delete(id, _) => {
            live.remove(Kind::Clauses, *id);
            Ok(())
        }
        LogStep::DeleteParity(id, _) => {
            live.remove(Kind::Parities, *id);
            Ok(())
        }
        LogStep::Final(_, _) | LogStep::FinalParity(_, _) => Ok(()),
        LogStep::MoveClauses(moves) => move_ids(alloc, live, Kind::Clauses, moves.as_slice()),
        LogStep::MoveParities(moves) => move_ids(alloc, live, Kind::Parities, moves.as_slice()),
    }
}

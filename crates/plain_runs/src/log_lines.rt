//! The steps of logs as lines, and lines as steps.
ghost use Rattle.std.specs.Prelude.{◌≤◌};

use cx_base::{IdMove, LogEvent, LogStep};
use log_text::LogText;
use std::alloc::{AllocError, Global};
use step_text::{SpareLists, StepSource};

fn put_integers(text: &mut String, integers: &[i64]) -> Result<(), AllocError> {
    for integer in integers {
        write!(text, " {integer}")?;
    }
    write!(text, " 0")
}

fn put_ids(text: &mut String, ids: &[u64]) -> Result<(), AllocError> {
    for id in ids {
        write!(text, " {id}")?;
    }
    write!(text, " 0")
}

fn put_moves(text: &mut String, moves: &[IdMove]) -> Result<(), AllocError> {
    for id_move in moves {
        write!(text, " {} {}", id_move.from, id_move.to)?;
    }
    write!(text, " 0")
}

/// What begins a line, and integers.
fn put_named(text: &mut String, head: &str, id: u64, lits: &[i64]) -> Result<(), AllocError> {
    write!(text, "{head} {id}")?;
    put_integers(text, lits)
}

fn put_sources(text: &mut String, ids: &[u64]) -> Result<(), AllocError> {
    write!(text, " l")?;
    put_ids(text, ids)
}

fn put_step(text: &mut String, step: &LogStep) -> Result<(), AllocError> {
    match step {
        LogStep::Original(id, lits) => put_named(text, "o", *id, lits.as_slice()),
        LogStep::OriginalParity(id, lits) => put_named(text, "o x", *id, lits.as_slice()),
        LogStep::Clause(id, lits) | LogStep::ClauseWithHints(id, lits, _) => {
            put_named(text, "a", *id, lits.as_slice())
        }
        LogStep::Parity(id, lits, ids) => {
            put_named(text, "a x", *id, lits.as_slice())?;
            put_sources(text, ids.as_slice())
        }
        LogStep::ClauseOfParity(id, lits, source) => {
            put_named(text, "i", *id, lits.as_slice())?;
            write!(text, " l {source} 0")
        }
        LogStep::ParityOfClauses(id, lits, ids) => {
            put_named(text, "i x", *id, lits.as_slice())?;
            put_sources(text, ids.as_slice())
        }
        LogStep::Delete(id, lits) => put_named(text, "d", *id, lits.as_slice()),
        LogStep::DeleteParity(id, lits) => put_named(text, "d x", *id, lits.as_slice()),
        LogStep::Final(id, lits) => put_named(text, "f", *id, lits.as_slice()),
        LogStep::FinalParity(id, lits) => put_named(text, "f x", *id, lits.as_slice()),
        LogStep::MoveClauses(moves) => {
            write!(text, "r")?;
            put_moves(text, moves.as_slice())
        }
        LogStep::MoveParities(moves) => {
            write!(text, "r x")?;
            put_moves(text, moves.as_slice())
        }
    }
}

/// The steps of events, each on a line, without the hints of clauses.
pub(crate) fn lines_of(alloc: Global, events: &[LogEvent]) -> Result<String, AllocError> {
    let mut text = String::new(alloc);
    for event in events {
        if let LogEvent::Step(step) = event {
            put_step(&mut text, step)?;
            writeln!(text)?;
        }
    }
    Ok(text)
}

/// The steps of a text, if it is a log of at most 100,000 steps.
pub(crate) fn steps_of(alloc: Global, text: &[u8]) -> Result<Option<Vec<LogStep>>, AllocError> {
    if text.len() > u32::MAX as usize {
        return Ok(None);
    }
    let mut source = LogText::new(text);
    let mut spare = SpareLists::new(alloc);
    let mut steps = Vec::new(alloc);
    for _ in 0..100_000 {
        match source.next_step(&mut spare) {
            Ok(Some(step)) => steps.push(step)?,
            Ok(None) => return Ok(Some(steps)),
            Err(_) => return Ok(None),
        }
    }
    Ok(None)
}

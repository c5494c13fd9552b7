//! The log of a tidying: first the drawn clauses as those of a formula, then what was told. The plain judge judges it.
ghost use Rattle.std.specs.Prelude.{◌≡◌, [], OnOk};

use clause_arena::Arena;
use cx_base::{ClauseRef, Formula, FormulaBuilder, Lit, LogEvent, LogStep};
use log_text::{ListLog, LogText};
use plain_tests::judged::{Judged, judge};
use std::alloc::{AllocError, Global};
use step_text::{SpareLists, StepSource};

/// Adds a clause.
fn add_clause(builder: &mut FormulaBuilder, lits: &[Lit]) -> Result<(), AllocError>
    ensures { OnOk result (builder.new.unfinished ≡ []) }
{
    for lit in lits {
        builder.push(*lit)?;
    }
    builder.end_clause()
}

/// The formula of the arena's clauses.
pub(crate) fn formula_of(alloc: Global, arena: &Arena) -> Result<Formula, AllocError> {
    let mut builder = FormulaBuilder::new(alloc);
    for place in 0..arena.len() {
        let clause = ClauseRef::new(place as u32);
        if arena.is_live(clause) {
            add_clause(&mut builder, arena.lits(clause))?;
        }
    }
    Ok(builder.finish(1))
}

/// Writes a line of a log that takes a clause of the formula under an id.
fn put_original(text: &mut String, id: u64, lits: &[Lit]) -> Result<(), AllocError> {
    write!(text, "o {id}")?;
    for lit in lits {
        let sign = if lit.is_negative() { "-" } else { "" };
        let number = lit.var().number();
        write!(text, " {sign}{number}")?;
    }
    writeln!(text, " 0")
}

/// The lines that take the arena's clauses.
fn lines_of(alloc: Global, arena: &Arena) -> Result<String, AllocError> {
    let mut text = String::new(alloc);
    for place in 0..arena.len() {
        let clause = ClauseRef::new(place as u32);
        if arena.is_live(clause) {
            put_original(&mut text, arena.id(clause), arena.lits(clause))?;
        }
    }
    Ok(text)
}

/// The steps of a text up to what is none, at most 100,000.
fn steps_of(alloc: Global, text: &[u8]) -> Result<Vec<LogStep>, AllocError> {
    let mut steps = Vec::new(alloc);
    if text.len() > u32::MAX as usize {
        return Ok(steps);
    }
    let mut source = LogText::new(text);
    let mut spare = SpareLists::new(alloc);
    for _ in 0..100_000 {
        match source.next_step(&mut spare) {
            Ok(Some(step)) => steps.push(step)?,
            Ok(None) | Err(_) => return Ok(steps),
        }
    }
    Ok(steps)
}

/// The steps that take the arena's clauses as those of the formula, each under its id.
pub(crate) fn originals(alloc: Global, arena: &Arena) -> Result<Vec<LogStep>, AllocError> {
    let text = lines_of(alloc, arena)?;
    steps_of(alloc, text.as_bytes())
}

/// Puts the steps that were told after these.
pub(crate) fn put_told(steps: &mut Vec<LogStep>, log: &ListLog) -> Result<(), AllocError> {
    for event in log.events() {
        if let LogEvent::Step(step) = event {
            steps.push(step.clone()?)?;
        }
    }
    Ok(())
}

/// Whether each step is right, and the last one ends the log just where that has ended.
pub(crate) fn is_right(
    alloc: Global,
    formula: &Formula,
    steps: &[LogStep],
    ended: bool,
) -> Result<bool, AllocError> {
    let count = steps.len() as u64;
    match judge(alloc, formula, steps)? {
        Judged::Right(number) => Ok(ended && number == count),
        Judged::Refused(number, _) => Ok(!ended && number > count),
    }
}

//! Tidying by a queue, and by a look at each clause beside each other: what each leaves is tidy, and its log is right.
//!
//! They mend the clauses in different orders. So what one leaves may differ from what the other does, in number too.
ghost use Rattle.tidy_rules.specs.declared.part.TidyPart.{TidyPart};

use crate::drawing::{Draw, are_proper, some_clauses};
use crate::expecting::expect;
use crate::logs::{formula_of, is_right, originals, put_told};
use clause_arena::Arena;
use clause_tidy::{TidyOf, plain, tidy_from};
use cx_base::{Formula, LitList, LogStep};
use log_text::ListLog;
use std::alloc::{AllocError, Global};
use step_text::SinkFault;
use tidy_rules::{Untidy, find_untidy};

/// The spare id, above those of the clauses.
const SPARE: u64 = 1_000_000;

/// Which clauses are looked at beside which.
#[derive(Clone, Copy, Drop)]
enum TidyProgram {
    Queue,
    Pairs,
}

/// What a tidying gives.
#[derive(Clone, Copy, PartialEq, Eq, Debug, Drop)]
enum TidyEnding {
    Tidy,
    Ended,
    Untidy,
    WrongLog,
    Fault,
}

/// Of how many drawn lists of clauses both programs leave what is tidy, and of how many both logs end.
#[derive(Clone, Copy, Drop)]
struct TidyCounts {
    tidy: u64,
    ended: u64,
}

fn is_tidy(alloc: Global, arena: &Arena, units: &LitList) -> Result<bool, AllocError> {
    match find_untidy(alloc, arena, units)? {
        None => Ok(true),
        Some(Untidy::One(_)) | Some(Untidy::Two(_, _)) => Ok(false),
    }
}

/// Whether what is left is tidy.
fn ending_of(
    alloc: Global,
    arena: &Arena,
    answer: &Result<TidyOf, SinkFault>,
) -> Result<TidyEnding, AllocError> {
    match answer {
        Ok(TidyOf::Done(units, _)) => {
            let tidy = is_tidy(alloc, arena, units)?;
            Ok(if tidy {
                TidyEnding::Tidy
            } else {
                TidyEnding::Untidy
            })
        }
        Ok(TidyOf::Ended(_)) => Ok(TidyEnding::Ended),
        Err(_) => Ok(TidyEnding::Fault),
    }
}

/// What is to be said of a program's answer and of the steps that it told.
fn judged(
    alloc: Global,
    arena: &Arena,
    formula: &Formula,
    steps: &[LogStep],
    answer: &Result<TidyOf, SinkFault>,
) -> Result<TidyEnding, AllocError> {
    let ending = ending_of(alloc, arena, answer)?;
    if is_right(alloc, formula, steps, ending == TidyEnding::Ended)? {
        Ok(ending)
    } else {
        Ok(TidyEnding::WrongLog)
    }
}

/// What a program makes of clauses after these steps, which take them as those of a formula.
fn tidied_after(
    alloc: Global,
    arena: &mut Arena,
    formula: &Formula,
    steps: &mut Vec<LogStep>,
    program: TidyProgram,
) -> Result<TidyEnding, AllocError> {
    if !are_proper(formula, arena) {
        return Ok(TidyEnding::Fault);
    }
    let mut log = ListLog::make(alloc);
    let answer = match program {
        TidyProgram::Queue => tidy_from(alloc, arena, formula, SPARE, 0, &mut log),
        TidyProgram::Pairs => plain::tidy(alloc, arena, formula, SPARE, &mut log),
    };
    put_told(steps, &log)?;
    judged(alloc, arena, formula, steps, &answer)
}

/// What a program makes of the clauses of an arena.
fn tidied_in(
    alloc: Global,
    arena: &mut Arena,
    program: TidyProgram,
) -> Result<TidyEnding, AllocError> {
    let formula = formula_of(alloc, arena)?;
    let mut steps = originals(alloc, arena)?;
    tidied_after(alloc, arena, &formula, &mut steps, program)
}

/// What a program makes of drawn clauses.
fn tidied(alloc: Global, draw: Draw, program: TidyProgram) -> Result<TidyEnding, AllocError> {
    let mut arena = some_clauses(alloc, draw)?;
    tidied_in(alloc, &mut arena, program)
}

/// Counts what both make of drawn clauses, or writes it where it is neither tidy nor ended.
fn put_other(
    alloc: Global,
    others: &mut String,
    draw: Draw,
    counts: &mut TidyCounts,
) -> Result<(), AllocError> {
    let queue = tidied(alloc, draw, TidyProgram::Queue)?;
    let pairs = tidied(alloc, draw, TidyProgram::Pairs)?;
    match (queue, pairs) {
        (TidyEnding::Tidy, TidyEnding::Tidy) => counts.tidy = counts.tidy.saturating_add(1),
        (TidyEnding::Ended, TidyEnding::Ended) => counts.ended = counts.ended.saturating_add(1),
        (TidyEnding::Tidy, TidyEnding::Ended) | (TidyEnding::Ended, TidyEnding::Tidy) => {}
        _ => writeln!(others, "seed {}: {queue:?} {pairs:?}", draw.seed)?,
    }
    Ok(())
}

fn put_others(alloc: Global, others: &mut String, seeds: u64) -> Result<TidyCounts, AllocError> {
    let mut counts = TidyCounts { tidy: 0, ended: 0 };
    for seed in 1..=seeds {
        let draw = Draw {
            seed,
            vars: 4 + (seed % 5) as u32,
            clauses: 4 + seed % 23,
            longest: 3 + seed % 4,
        };
        put_other(alloc, others, draw, &mut counts)?;
    }
    Ok(counts)
}

/// As `put_others`. Writes the counts too if they are small.
fn put_others_and_counts(alloc: Global, others: &mut String, seeds: u64) -> Result<(), AllocError> {
    let counts = put_others(alloc, others, seeds)?;
    if counts.tidy > 20 && counts.ended > 5 {
        return Ok(());
    }
    writeln!(others, "{} {}", counts.tidy, counts.ended)
}

/// What `put_others_and_counts` writes.
fn others(alloc: Global, seeds: u64) -> Result<String, AllocError> {
    let mut others = String::new(alloc);
    put_others_and_counts(alloc, &mut others, seeds)?;
    Ok(others)
}

#[test]
fn both_are_tidy_and_right(rt: HostRuntime) {
    expect(&rt, others(rt.alloc(), 200), "");
}

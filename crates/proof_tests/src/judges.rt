//! Small cases of each judge, worked by hand.
use crate::expecting::expect;
use crate::formulas::square;
use crate::numbers::lits;
use cx_base::{Formula, LitList};
use cx_semantics::Cause;
use proof_rules::{
    JudgeMarks, JudgeRefusal, Kind, LiteralSet, Live, judge_chain, judge_clause_of_parity,
    judge_parity_of_clauses, judge_sum,
};
use std::alloc::{AllocError, Global};

/// A live constraint: its kind, its id and its literals.
type Row = (Kind, u64, &'static [i64]);

/// The four clauses over 1 and 2 and one over 3, and four parities over these.
static ROWS: [Row; 9] = [
    (Kind::Clauses, 1, &[1, 2]),
    (Kind::Clauses, 2, &[-1, 2]),
    (Kind::Clauses, 3, &[1, -2]),
    (Kind::Clauses, 4, &[-1, -2]),
    (Kind::Clauses, 5, &[3]),
    (Kind::Parities, 1, &[1, 2]),
    (Kind::Parities, 2, &[2, 3]),
    (Kind::Parities, 3, &[1, 3]),
    (Kind::Parities, 4, &[1, -1]),
];

/// One of the judges.
#[derive(Clone, Copy, Drop)]
enum Judge {
    Chain,
    Sum,
    ClauseOfParity,
    ParityOfClauses,
}

/// A target, what is named for it, and why that is wrong, if it is.
type Case = (&'static [i64], &'static [i64], Option<Cause>);

/// Live constraints, and what the judges mark.
#[derive(Drop)]
struct Court<'f> {
    live: Live<'f>,
    assumed: LiteralSet,
    marks: JudgeMarks,
}

fn add(alloc: Global, live: &mut Live, row: &Row) -> Result<(), AllocError> {
    live.add_copy(row.0, row.1, lits(alloc, row.2)?.as_slice())
}

fn add_all(alloc: Global, live: &mut Live, rows: &[Row]) -> Result<(), AllocError> {
    for row in rows {
        add(alloc, live, row)?;
    }
    Ok(())
}

fn judged_as_chain(court: &mut Court, target: &LitList, named: &[i64]) -> Result<(), JudgeRefusal> {
    judge_chain(&mut court.assumed, &court.live, target, named)
}

fn judged_as_sum(court: &mut Court, target: &LitList, named: &[i64]) -> Result<(), JudgeRefusal> {
    judge_sum(&mut court.marks, &court.live, target, named)
}

/// What the judge says of a clause by the first one of the parities that are named.
fn judged_as_clause(
    court: &mut Court,
    target: &LitList,
    named: &[i64],
) -> Result<(), JudgeRefusal> {
    let parity = *named.first().unwrap_or(&0);
    judge_clause_of_parity(&mut court.marks, &court.live, target, parity)
}

fn judged_as_parity(
    court: &mut Court,
    target: &LitList,
    named: &[i64],
) -> Result<(), JudgeRefusal> {
    judge_parity_of_clauses(&mut court.marks, &court.live, target, named)
}

/// What a judge says.
fn judged(
    court: &mut Court,
    judge: Judge,
    target: &LitList,
    named: &[i64],
) -> Result<(), JudgeRefusal> {
    match judge {
        Judge::Chain => judged_as_chain(court, target, named),
        Judge::Sum => judged_as_sum(court, target, named),
        Judge::ClauseOfParity => judged_as_clause(court, target, named),
        Judge::ParityOfClauses => judged_as_parity(court, target, named),
    }
}

/// The cause of a wrong step.
fn cause(judged: Result<(), JudgeRefusal>) -> Result<Option<Cause>, AllocError> {
    match judged {
        Ok(()) => Ok(None),
        Err(JudgeRefusal::Wrong(cause)) => Ok(Some(cause)),
        Err(JudgeRefusal::Memory) => Err(AllocError),
    }
}

/// What the judge says of the clause or parity of these integers.
fn found(
    alloc: Global,
    court: &mut Court,
    judge: Judge,
    integers: &[i64],
    named: &[i64],
) -> Result<Option<Cause>, AllocError> {
    let target = lits(alloc, integers)?;
    cause(judged(court, judge, &target, named))
}

/// Writes what the judge says of a case, if that is not what is wanted.
fn put_other(
    alloc: Global,
    others: &mut String,
    court: &mut Court,
    judge: Judge,
    case: &Case,
) -> Result<(), AllocError> {
    let (integers, named, wanted) = *case;
    let found = found(alloc, court, judge, integers, named)?;
    if found == wanted {
        return Ok(());
    }
    writeln!(others, "{integers:?} by {named:?}: {found:?}")
}

fn put_others(
    alloc: Global,
    others: &mut String,
    court: &mut Court,
    judge: Judge,
    cases: &[Case],
) -> Result<(), AllocError> {
    for case in cases {
        put_other(alloc, others, court, judge, case)?;
    }
    Ok(())
}

/// A judge, its cases over the rows, the row that is gone then, and its cases without that.
type Trial = (Judge, &'static [Case], (Kind, u64), &'static [Case]);

/// As `put_others`, of a trial.
fn put_others_of(
    alloc: Global,
    others: &mut String,
    court: &mut Court,
    trial: &Trial,
) -> Result<(), AllocError> {
    let (judge, cases, gone, cases_then) = *trial;
    add_all(alloc, &mut court.live, &ROWS)?;
    put_others(alloc, others, court, judge, cases)?;
    court.live.remove(gone.0, gone.1);
    put_others(alloc, others, court, judge, cases_then)
}

/// As `put_others_of`, with a table that refers to the clauses of a formula and has copies of other constraints.
fn put_others_beside(
    alloc: Global,
    others: &mut String,
    formula: &Formula,
    trial: &Trial,
) -> Result<(), AllocError> {
    let mut court = Court {
        live: Live::beside(alloc, formula),
        assumed: LiteralSet::new(alloc),
        marks: JudgeMarks::new(alloc),
    };
    put_others_of(alloc, others, &mut court, trial)
}

/// As `put_others_beside`, where the formula has four of the clauses.
fn put_others_beside_square(
    alloc: Global,
    others: &mut String,
    trial: &Trial,
) -> Result<(), AllocError> {
    let formula = square(alloc)?;
    put_others_beside(alloc, others, &formula, trial)
}

/// The cases that are judged otherwise than wanted.
fn others(alloc: Global, trial: &Trial) -> Result<String, AllocError> {
    let mut others = String::new(alloc);
    put_others_beside_square(alloc, &mut others, trial)?;
    Ok(others)
}

static CHAINS: [Case; 8] = [
    (&[2], &[1, 2], None),
    (&[2], &[1, 1, 2, 4], None),
    (&[2], &[1], Some(Cause::HintsEnd)),
    (&[], &[1], Some(Cause::HintNotUnit)),
    (&[2], &[9, -1], Some(Cause::RatHint)),
    (&[2], &[1, 2, 9], Some(Cause::HintNotLive)),
    (&[1, -1], &[1, 4], None),
    (&[1, -1], &[], Some(Cause::HintsEnd)),
];

/// Where the second clause is gone.
static CHAINS_THEN: [Case; 1] = [(&[2], &[1, 2], Some(Cause::HintNotLive))];

#[test]
fn chains(rt: HostRuntime) {
    let gone = (Kind::Clauses, 2);
    let trial: Trial = (Judge::Chain, &CHAINS, gone, &CHAINS_THEN);
    expect(&rt, others(rt.alloc(), &trial), "");
}

static SUMS: [Case; 10] = [
    (&[1, -3], &[1, 2], None),
    (&[1, 3], &[1, 2], Some(Cause::SumDiffers)),
    (&[], &[4], Some(Cause::SumDiffers)),
    (&[1, -1], &[1, 1], None),
    (&[], &[1, 2, 3], None),
    (&[], &[1, 2, 3, 1, 1], None),
    (&[], &[1, 2], Some(Cause::SumDiffers)),
    (&[1, 2], &[1, 1], Some(Cause::SumDiffers)),
    (&[2, 1, 3, 3], &[1], None),
    (&[1, 2], &[5], Some(Cause::HintNotLive)),
];

/// Where the first parity is gone.
static SUMS_THEN: [Case; 1] = [(&[1, 2], &[1], Some(Cause::HintNotLive))];

#[test]
fn sums(rt: HostRuntime) {
    let gone = (Kind::Parities, 1);
    let trial: Trial = (Judge::Sum, &SUMS, gone, &SUMS_THEN);
    expect(&rt, others(rt.alloc(), &trial), "");
}

static CLAUSES_OF_A_PARITY: [Case; 8] = [
    (&[-1, -2], &[1], None),
    (&[1, 2], &[1], None),
    (&[1], &[1], Some(Cause::NotImplied)),
    (&[1, -2], &[1], Some(Cause::NotImplied)),
    (&[5, -5], &[1], None),
    (&[], &[4], Some(Cause::NotImplied)),
    (&[1, 2], &[-1], Some(Cause::RatHint)),
    (&[1, 2], &[7], Some(Cause::HintNotLive)),
];

/// Where the first parity is gone.
static CLAUSES_OF_A_PARITY_THEN: [Case; 1] = [(&[1, 2], &[1], Some(Cause::HintNotLive))];

#[test]
fn clauses_of_a_parity(rt: HostRuntime) {
    let gone = (Kind::Parities, 1);
    let trial: Trial = (
        Judge::ClauseOfParity,
        &CLAUSES_OF_A_PARITY,
        gone,
        &CLAUSES_OF_A_PARITY_THEN,
    );
    expect(&rt, others(rt.alloc(), &trial), "");
}

static PARITIES_OF_CLAUSES: [Case; 8] = [
    (&[1, 2], &[1, 4], None),
    (&[1, -2], &[2, 3], None),
    (&[1, 2], &[1], Some(Cause::NotImplied)),
    (&[1, 2], &[2, 3], Some(Cause::NotImplied)),
    (&[1, 2], &[1, 5], Some(Cause::ClauseOutside)),
    (
        &[1, 2, 3, 4, 5, 6, 7, 8, 9, 10, 11, 12, 13],
        &[1],
        Some(Cause::TooWide),
    ),
    (
        &[1, 2, 3, 4, 5, 6, 7, 8, 9, 10, 11, 12],
        &[1],
        Some(Cause::NotImplied),
    ),
    (&[1, 2], &[1, 4, 9], Some(Cause::HintNotLive)),
];

/// Where the fourth clause is gone.
static PARITIES_OF_CLAUSES_THEN: [Case; 1] = [(&[1, 2], &[1, 4], Some(Cause::HintNotLive))];

#[test]
fn parities_of_clauses(rt: HostRuntime) {
    let gone = (Kind::Clauses, 4);
    let trial: Trial = (
        Judge::ParityOfClauses,
        &PARITIES_OF_CLAUSES,
        gone,
        &PARITIES_OF_CLAUSES_THEN,
    );
    expect(&rt, others(rt.alloc(), &trial), "");
}

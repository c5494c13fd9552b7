//! Demonstrations: their lines, their logs, and desks that are too small for these.
ghost use Rattle.std.specs.Prelude.{◌≤◌, ◌^◌};

use crate::desk::{AMPLE, Bounds, Ended, Task, run};
use crate::expecting::{Case, expect, expect_all, put_unless, run_task};
use crate::pigeons::WIDE;
use cdcl_core::{SearchOutcome, solve_core};
use cx_base::Formula;
use gauss_incremental::ShortFirst;
use inst_gen::{InstanceKind, planted};
use log_text::NoLog;
use std::alloc::{AllocError, Global};

/// A kind, a size and a seed, and the lines of their demonstration.
struct Shown(&'static str, &'static str, &'static str, &'static str);

static SHOWN: [Shown; 4] = [
    Shown(
        "even",
        "4",
        "0",
        "c demo even 4 0\nc variables 4\nc clauses 4\nc parities 1\ns SATISFIABLE\nc values MEET\n",
    ),
    Shown(
        "odd",
        "4",
        "0",
        "c demo odd 4 0\nc variables 5\nc clauses 8\nc parities 2\ns UNSATISFIABLE\nc proof VERIFIED\n",
    ),
    Shown(
        "even",
        "60",
        "7",
        "c demo even 60 7\nc variables 60\nc clauses 60\nc parities 15\ns SATISFIABLE\nc values MEET\n",
    ),
    Shown(
        "odd",
        "60",
        "7",
        "c demo odd 60 7\nc variables 61\nc clauses 64\nc parities 16\ns UNSATISFIABLE\nc proof VERIFIED\n",
    ),
];

fn demonstrated(alloc: Global, kind: &str, size: &str, bounds: Bounds) -> Result<Ended, AllocError>
    requires { 1 ≤ bounds.piece }
{
    let line = ["cxsat", "demo", kind, size, "0"];
    run(alloc, "", b"", line.as_slice(), bounds)
}

/// Whether a demonstration ended well, with these lines and a log.
fn shows(shown: &Ended, lines: &str) -> bool {
    shown.status == 0
        && shown.answer() == lines.as_bytes()
        && shown.message().is_empty()
        && !shown.proof().is_empty()
}

impl Case for Shown {
    fn put_other(&self, alloc: Global, others: &mut String) -> Result<(), AllocError> {
        let line = ["cxsat", "demo", self.0, self.1, self.2];
        let task = Task {
            line: line.as_slice(),
            formula: "",
            second: "",
        };
        let shown = run_task(alloc, task, WIDE)?;
        let is_right = shows(&shown, self.3);
        put_unless(alloc, others, task, &shown, is_right)
    }
}

#[test]
fn answers_are_shown(rt: HostRuntime) {
    expect_all(&rt, &SHOWN);
}

/// The length of a demonstration's log.
fn log_len(alloc: Global, kind: &str) -> Result<usize, AllocError> {
    let whole = demonstrated(alloc, kind, "4", AMPLE)?;
    Ok(whole.proof().len())
}

/// Whether a demonstration whose log lacks room for its last byte ends with a write fault and no line.
fn cuts_log_off(alloc: Global, kind: &str) -> Result<bool, AllocError> {
    let proof = log_len(alloc, kind)?.saturating_sub(1);
    let cut_off = demonstrated(alloc, kind, "4", Bounds { proof, ..AMPLE })?;
    Ok(cut_off.status == 5 && cut_off.answer().is_empty() && cut_off.proof().len() == proof)
}

/// As `cuts_log_off`, of each kind.
fn cut_logs_off(alloc: Global) -> Result<(bool, bool), AllocError> {
    let even = cuts_log_off(alloc, "even")?;
    let odd = cuts_log_off(alloc, "odd")?;
    Ok((even, odd))
}

#[test]
fn no_line_stands_before_the_whole_log(rt: HostRuntime) {
    expect(&rt, cut_logs_off(rt.alloc()), &(true, true));
}

/// Whether a demonstration whose lines have little room ends with a write fault after this log.
fn cuts_lines_off(alloc: Global, kind: &str, log: &[u8]) -> Result<bool, AllocError> {
    let cut_off = demonstrated(alloc, kind, "4", Bounds { answer: 3, ..AMPLE })?;
    Ok(cut_off.status == 5 && cut_off.answer() == b"c d".as_slice() && cut_off.proof() == log)
}

/// As `cuts_lines_off`, after the whole log.
fn cuts_lines_off_behind_log(alloc: Global, kind: &str) -> Result<bool, AllocError> {
    let whole = demonstrated(alloc, kind, "4", AMPLE)?;
    cuts_lines_off(alloc, kind, whole.proof())
}

/// As `cuts_lines_off_behind_log`, of each kind.
fn cut_lines_off_behind_logs(alloc: Global) -> Result<(bool, bool), AllocError> {
    let even = cuts_lines_off_behind_log(alloc, "even")?;
    let odd = cuts_lines_off_behind_log(alloc, "odd")?;
    Ok((even, odd))
}

#[test]
fn a_line_that_does_not_fit_stands_behind_the_whole_log(rt: HostRuntime) {
    let found = cut_lines_off_behind_logs(rt.alloc());
    expect(&rt, found, &(true, true));
}

/// Whether a demonstration is refused, and writes no line and no log.
fn refuses(alloc: Global, kind: &str, size: &str) -> Result<bool, AllocError> {
    let refused = demonstrated(alloc, kind, size, AMPLE)?;
    Ok(refused.status == 2 && refused.answer().is_empty() && refused.proof().is_empty())
}

/// Whether too few variables are refused, too many, and a kind that there is not.
fn all_refused(alloc: Global) -> Result<(bool, bool, bool), AllocError> {
    let few = refuses(alloc, "even", "3")?;
    let many = refuses(alloc, "even", "2001")?;
    let unknown = refuses(alloc, "both", "60")?;
    Ok((few, many, unknown))
}

#[test]
fn kinds_and_sizes_are_within_their_bounds(rt: HostRuntime) {
    expect(&rt, all_refused(rt.alloc()), &(true, true, true));
}

/// Whether the search finds values that meet the formula within this many conflicts.
fn finds_values(alloc: Global, formula: &Formula, conflicts: u64) -> bool
    requires { (1 ≤ conflicts) × (conflicts ≤ 10 ^ 18) }
{
    if formula.len() > u32::MAX as usize {
        return false;
    }
    let mut log = NoLog;
    match solve_core::<ShortFirst, NoLog>(alloc, formula, conflicts, &mut log) {
        Ok(SearchOutcome::Sat(values)) => formula.meets(values.as_slice()),
        _ => false,
    }
}

/// As `finds_values`, of an instance that is planted.
fn finds_planted_values(alloc: Global, conflicts: u64) -> Result<bool, AllocError>
    requires { (1 ≤ conflicts) × (conflicts ≤ 10 ^ 18) }
{
    let formula = planted(alloc, InstanceKind::Even, 200, 7)?;
    Ok(finds_values(alloc, &formula, conflicts))
}

#[test]
fn planted_values_are_found_within_twenty_thousand_conflicts(rt: HostRuntime) {
    expect(&rt, finds_planted_values(rt.alloc(), 20_000), &true);
}

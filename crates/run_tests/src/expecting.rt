//! Runs whose end is told beforehand: those that end otherwise are written into a text. Tests assert through the last
//! functions, since a test with no text and no assertion of its own takes a third of the proof.
ghost use Rattle.std.specs.Prelude.{◌≤◌};

use crate::desk::{AMPLE, Bounds, Ended, Task, run};
use std::alloc::{AllocError, Global};
use std::fmt::Debug;
use std::process::Abort;

/// How a run is to end: its status, and what is to be on the ports.
#[derive(Clone, Copy, Drop)]
pub(crate) struct End<'a> {
    pub status: u8,
    pub answer: &'a str,
    pub message: &'a str,
    pub proof: &'a [u8],
}

/// A command that judges a second text: its line, and the status and the last line with which it refuses one.
#[derive(Clone, Copy, Drop)]
pub(crate) struct Judging {
    pub line: &'static [&'static str],
    pub status: u8,
    pub verdict: &'static str,
}

pub(crate) const CHECK: Judging = Judging {
    line: &["cxsat", "check", "f", "s"],
    status: 7,
    verdict: "s NOT VERIFIED",
};

pub(crate) const ELAB: Judging = Judging {
    line: &["cxsat", "elab", "f", "s", "p"],
    status: 8,
    verdict: "s NOT ELABORATED",
};

pub(crate) const MODEL: Judging = Judging {
    line: &["cxsat", "model", "f", "s"],
    status: 11,
    verdict: "s MODEL WRONG",
};

/// How many bytes one call of a desk moves at most, where a task is run in pieces of any length.
pub(crate) static PIECES: [usize; 5] = [1, 2, 3, 7, 4096];

/// These bounds with pieces of this length, or of one byte for a length of none.
pub(crate) fn in_pieces(bounds: Bounds, piece: usize) -> Bounds
    ensures { 1 ≤ result.piece }
{
    Bounds {
        piece: piece.max(1),
        ..bounds
    }
}

/// A formula, a text that is refused over it, and the line that tells where or for what.
pub(crate) type Refused = (&'static str, &'static str, &'static str);

/// A formula that is refused, the status, and the line that tells why.
pub(crate) type Offence = (&'static str, u8, &'static str);

/// The words of a line, the most bytes that a text may have, and the status.
pub(crate) type Row = (&'static [&'static str], u32, u8);

fn has_ended_so(ended: &Ended, end: End) -> bool {
    ended.status == end.status
        && ended.answer() == end.answer.as_bytes()
        && ended.message() == end.message.as_bytes()
        && ended.proof() == end.proof
}

pub(crate) fn put_port(alloc: Global, text: &mut String, bytes: &[u8]) -> Result<(), AllocError> {
    let port = String::from_utf8_lossy(alloc, bytes)?;
    text.push_str(port.as_str())
}

/// Writes a run and how it ended.
fn put_end(alloc: Global, text: &mut String, task: Task, ended: &Ended) -> Result<(), AllocError> {
    let (line, formula, second) = (task.line, task.formula, task.second);
    writeln!(text, "{line:?}\n{formula}{second}status {}", ended.status)?;
    put_port(alloc, text, ended.answer())?;
    put_port(alloc, text, ended.message())?;
    put_port(alloc, text, ended.proof())
}

/// Writes how a run ended, unless it ended right.
pub(crate) fn put_unless(
    alloc: Global,
    others: &mut String,
    task: Task,
    ended: &Ended,
    is_right: bool,
) -> Result<(), AllocError> {
    if is_right {
        return Ok(());
    }
    put_end(alloc, others, task, ended)
}

/// Runs a task within these bounds.
pub(crate) fn run_task(alloc: Global, task: Task, bounds: Bounds) -> Result<Ended, AllocError>
    requires { 1 ≤ bounds.piece }
{
    run(
        alloc,
        task.formula,
        task.second.as_bytes(),
        task.line,
        bounds,
    )
}

/// Whether the run ended with this status and this answer.
pub(crate) fn answers(ended: &Ended, status: u8, answer: &str) -> bool {
    ended.status == status && ended.answer() == answer.as_bytes()
}

/// Whether a task ends with this status and this answer within these bounds.
fn is_answered_within(
    alloc: Global,
    task: Task,
    bounds: Bounds,
    status: u8,
    answer: &str,
) -> Result<bool, AllocError>
    requires { 1 ≤ bounds.piece }
{
    let ended = run_task(alloc, task, bounds)?;
    Ok(answers(&ended, status, answer))
}

/// As `is_answered_within`, in pieces of any length.
pub(crate) fn is_answered(
    alloc: Global,
    task: Task,
    bounds: Bounds,
    status: u8,
    answer: &str,
) -> Result<bool, AllocError> {
    for piece in &PIECES {
        if !is_answered_within(alloc, task, in_pieces(bounds, *piece), status, answer)? {
            return Ok(false);
        }
    }
    Ok(true)
}

/// Writes how the run ended, if that is not so.
pub(crate) fn put_other(
    alloc: Global,
    others: &mut String,
    task: Task,
    bounds: Bounds,
    end: End,
) -> Result<(), AllocError>
    requires { 1 ≤ bounds.piece }
{
    let ended = run_task(alloc, task, bounds)?;
    put_unless(alloc, others, task, &ended, has_ended_so(&ended, end))
}

/// As `put_other`, in pieces of any length.
pub(crate) fn put_other_in_pieces(
    alloc: Global,
    others: &mut String,
    task: Task,
    bounds: Bounds,
    end: End,
) -> Result<(), AllocError> {
    for piece in &PIECES {
        put_other(alloc, others, task, in_pieces(bounds, *piece), end)?;
    }
    Ok(())
}

/// As `put_other_in_pieces`, of a text that is to be refused for this cause, with no other line written anywhere.
pub(crate) fn put_other_refusal(
    alloc: Global,
    others: &mut String,
    command: &Judging,
    (formula, second, cause): (&str, &str, &str),
) -> Result<(), AllocError> {
    let answer = format!(in alloc; "c {cause}\n{}\n", command.verdict)?;
    let task = Task {
        line: command.line,
        formula,
        second,
    };
    let end = End {
        status: command.status,
        answer: answer.as_str(),
        message: "",
        proof: b"",
    };
    put_other_in_pieces(alloc, others, task, AMPLE, end)
}

/// As `put_other_in_pieces`, of a formula that a command is to refuse.
fn put_other_offence(
    alloc: Global,
    others: &mut String,
    line: &[&str],
    (formula, status, message): Offence,
) -> Result<(), AllocError> {
    let task = Task {
        line,
        formula,
        second: "",
    };
    let end = End {
        status,
        answer: "",
        message,
        proof: b"",
    };
    put_other_in_pieces(alloc, others, task, AMPLE, end)
}

/// Writes how the run ended, if its status is another one.
fn put_other_status(
    alloc: Global,
    others: &mut String,
    (formula, second): (&str, &str),
    row: &Row,
) -> Result<(), AllocError> {
    let (line, limit, status) = *row;
    let task = Task {
        line,
        formula,
        second,
    };
    let ended = run_task(alloc, task, Bounds { limit, ..AMPLE })?;
    put_unless(alloc, others, task, &ended, ended.status == status)
}

/// What a test runs, and how that is to end.
pub(crate) trait Case {
    /// Writes how it ended, if that is another end.
    fn put_other(&self, alloc: Global, others: &mut String) -> Result<(), AllocError>;
}

/// A run, in pieces of any length.
pub(crate) struct Run {
    pub task: Task<'static>,
    pub bounds: Bounds,
    pub end: End<'static>,
}

impl Case for Run {
    fn put_other(&self, alloc: Global, others: &mut String) -> Result<(), AllocError> {
        put_other_in_pieces(alloc, others, self.task, self.bounds, self.end)
    }
}

/// Texts that a command refuses.
pub(crate) struct Refusals {
    pub command: Judging,
    pub texts: &'static [Refused],
}

impl Case for Refusals {
    fn put_other(&self, alloc: Global, others: &mut String) -> Result<(), AllocError> {
        for text in self.texts {
            put_other_refusal(alloc, others, &self.command, *text)?;
        }
        Ok(())
    }
}

/// Lines over a formula and a second text, each with its status.
pub(crate) struct Lines {
    pub texts: (&'static str, &'static str),
    pub rows: &'static [Row],
}

impl Case for Lines {
    fn put_other(&self, alloc: Global, others: &mut String) -> Result<(), AllocError> {
        for row in self.rows {
            put_other_status(alloc, others, self.texts, row)?;
        }
        Ok(())
    }
}

/// Formulas that a command refuses.
#[derive(Drop)]
pub(crate) struct Offences {
    pub line: &'static [&'static str],
    pub formulas: &'static [Offence],
}

impl Case for Offences {
    fn put_other(&self, alloc: Global, others: &mut String) -> Result<(), AllocError> {
        for formula in self.formulas {
            put_other_offence(alloc, others, self.line, *formula)?;
        }
        Ok(())
    }
}

fn put_others<C: Case>(alloc: Global, others: &mut String, cases: &[C]) -> Result<(), AllocError> {
    for case in cases {
        case.put_other(alloc, others)?;
    }
    Ok(())
}

/// Fails unless both are equal, and says what they are.
pub(crate) fn expect_equal<T: PartialEq + Debug>(rt: &impl Abort, found: &T, wanted: &T) {
    assert_eq!(*rt; *found, *wanted);
}

/// Fails unless this is found, and says what is instead, or why nothing is.
pub(crate) fn expect<T: PartialEq + Debug + Drop>(
    rt: &impl Abort,
    found: Result<T, AllocError>,
    wanted: &T,
) {
    match &found {
        Ok(found) => expect_equal(rt, found, wanted),
        Err(why) => panic!(*rt; "nothing is found: {why:?}"),
    }
}

/// Fails if others are written, and says which, or if they were not all written.
fn expect_none(rt: &impl Abort, written: Result<(), AllocError>, others: &str) {
    expect(rt, written, &());
    expect_equal(rt, &others, &"");
}

/// Fails unless each case ends as it is to, and says how others end.
pub(crate) fn expect_all<C: Case, R: Abort + AllocGlobal>(rt: &R, cases: &[C]) {
    let mut others = String::new(rt.alloc());
    let written = put_others(rt.alloc(), &mut others, cases);
    expect_none(rt, written, others.as_str());
}

//! Runs of the program, each over a desk of its own with two files.
ghost use Rattle.std.specs.Prelude.{◌≤◌, IfOk};
ghost use Rattle.cx_desk.specs.Memory.{outside_of};
ghost use Rattle.solve_cli.specs.Commands.{Unasked};
ghost use Rattle.solve_cli.specs.Steps.{HasNoProof};

use cx_desk::{Desk, MemDesk, NamedFile, Port, Rooms};
use solve_cli::run_within;
use std::alloc::{AllocError, Global};

/// The most bytes that the ports take, that one call moves, and that a text may have.
#[derive(Clone, Copy, Drop)]
pub(crate) struct Bounds {
    pub answer: usize,
    pub proof: usize,
    pub piece: usize,
    pub limit: u32,
}

/// Room for all that these tests read and write, in pieces that cut lines and words.
pub(crate) const AMPLE: Bounds = Bounds {
    answer: 10_000,
    proof: 10_000,
    piece: 7,
    limit: u32::MAX,
};

/// What a run came to: its status, what it wrote, and whether a call failed.
// Not the desk itself: each function that owns one has more to drop.
#[derive(Drop)]
pub(crate) struct Ended {
    pub status: u8,
    answer: Vec<u8>,
    proof: Vec<u8>,
    message: Vec<u8>,
    /// Whether a read failed.
    pub failed_to_read: bool,
    /// Whether a write failed on the Answer or the Proof port.
    pub failed_to_write: bool,
    /// Whether a write failed on the Message port.
    pub failed_to_tell: bool,
}

impl Ended {
    /// What a run with this status leaves on its desk.
    fn on(alloc: Global, desk: &MemDesk, status: u8) -> Result<Ended, AllocError> {
        Ok(Ended {
            status,
            answer: Vec::from_slice(alloc, desk.written(Port::Answer))?,
            proof: Vec::from_slice(alloc, desk.written(Port::Proof))?,
            message: Vec::from_slice(alloc, desk.written(Port::Message))?,
            failed_to_read: desk.read_faults() > 0,
            failed_to_write: desk.write_faults() > 0,
            failed_to_tell: desk.message_faults() > 0,
        })
    }

    /// What is on the Answer port.
    pub fn answer(&self) -> &[u8] {
        &self.answer
    }

    /// What is on the Proof port.
    pub fn proof(&self) -> &[u8] {
        &self.proof
    }

    /// What is on the Message port.
    pub fn message(&self) -> &[u8] {
        &self.message
    }
}

/// A command line from the program's name on, and the texts of the files `f` and `s`.
#[derive(Clone, Copy, Drop)]
pub(crate) struct Task<'a> {
    pub line: &'a [&'a str],
    pub formula: &'a str,
    pub second: &'a str,
}

/// Which calls of the desk fail, by their numbers from 1.
#[derive(Clone, Copy, Drop)]
pub(crate) enum Failing {
    Once(u64),
    FromThereOn(u64),
}

/// A file of this text.
fn file(alloc: Global, name: &str, text: &[u8]) -> Result<NamedFile, AllocError> {
    Ok(NamedFile {
        name: String::from_str(alloc, name)?,
        bytes: Vec::from_slice(alloc, text)?,
    })
}

fn push_file(
    alloc: Global,
    files: &mut Vec<NamedFile>,
    name: &str,
    text: &[u8],
) -> Result<(), AllocError> {
    files.push(file(alloc, name, text)?)?;
    Ok(())
}

/// The words of a command line.
fn words_of(alloc: Global, line: &[&str]) -> Result<Vec<String>, AllocError> {
    let mut words = Vec::new(alloc);
    for word in line {
        words.push(String::from_str(alloc, word)?)?;
    }
    Ok(words)
}

fn push_files(
    alloc: Global,
    files: &mut Vec<NamedFile>,
    formula: &str,
    second: &[u8],
) -> Result<(), AllocError> {
    push_file(alloc, files, "f", formula.as_bytes())?;
    push_file(alloc, files, "s", second)
}

/// The files `f` and `s`.
fn files_of(alloc: Global, formula: &str, second: &[u8]) -> Result<Vec<NamedFile>, AllocError> {
    let mut files = Vec::new(alloc);
    push_files(alloc, &mut files, formula, second)?;
    Ok(files)
}

/// The room of the ports.
fn rooms_of(bounds: Bounds) -> Rooms {
    Rooms {
        answer: bounds.answer,
        proof: bounds.proof,
        message: 1000,
    }
}

/// The status of a command line over a new desk.
pub(crate) fn status_over<D: Desk>(
    alloc: Global,
    line: &[&str],
    limit: u32,
    desk: &mut D,
) -> Result<u8, AllocError>
    requires fresh { Unasked (D.outside desk.old).asked }
    requires empty { HasNoProof (D.outside desk.old) }
{
    let words = words_of(alloc, line)?;
    Ok(run_within(alloc, words, u64::from(limit), desk).code())
}

/// Runs a command line, from the program's name on, over a new desk.
fn run_on(alloc: Global, mut desk: MemDesk, line: &[&str], limit: u32) -> Result<Ended, AllocError>
    requires fresh { Unasked (outside_of desk).asked }
    requires empty { HasNoProof (outside_of desk) }
{
    let status = status_over(alloc, line, limit, &mut desk)?;
    Ended::on(alloc, &desk, status)
}

/// Runs a command line over these files.
fn run_over(
    alloc: Global,
    files: Vec<NamedFile>,
    line: &[&str],
    bounds: Bounds,
) -> Result<Ended, AllocError>
    requires { 1 ≤ bounds.piece }
{
    let none = Vec::new(alloc);
    let desk = MemDesk::make(alloc, files, rooms_of(bounds), bounds.piece, none)?;
    run_on(alloc, desk, line, bounds.limit)
}

/// Runs a command line, from the program's name on, over the files `f` and `s`.
pub(crate) fn run(
    alloc: Global,
    formula: &str,
    second: &[u8],
    line: &[&str],
    bounds: Bounds,
) -> Result<Ended, AllocError>
    requires { 1 ≤ bounds.piece }
{
    let files = files_of(alloc, formula, second)?;
    run_over(alloc, files, line, bounds)
}

/// Runs a command line over standard input alone, the file `-`.
pub(crate) fn run_on_input(
    alloc: Global,
    input: &str,
    line: &[&str],
    bounds: Bounds,
) -> Result<Ended, AllocError>
    requires { 1 ≤ bounds.piece }
{
    let mut files = Vec::new(alloc);
    push_file(alloc, &mut files, "-", input.as_bytes())?;
    run_over(alloc, files, line, bounds)
}

/// A desk with these files, whose calls fail so.
fn failing_desk(
    alloc: Global,
    files: Vec<NamedFile>,
    failing: Failing,
) -> Result<MemDesk, AllocError>
    ensures fresh { IfOk result (λ desk. Unasked (outside_of desk).asked) }
    ensures empty { IfOk result (λ desk. HasNoProof (outside_of desk)) }
{
    match failing {
        Failing::Once(call) => {
            let calls = Vec::from_slice(alloc, &[call])?;
            MemDesk::make(alloc, files, rooms_of(AMPLE), AMPLE.piece, calls)
        }
        Failing::FromThereOn(call) => {
            let passes = call.saturating_sub(1);
            MemDesk::make_fused(alloc, files, rooms_of(AMPLE), AMPLE.piece, passes)
        }
    }
}

/// Runs a task over a desk whose calls fail so.
pub(crate) fn run_failing(
    alloc: Global,
    task: Task,
    failing: Failing,
) -> Result<Ended, AllocError> {
    let files = files_of(alloc, task.formula, task.second.as_bytes())?;
    let desk = failing_desk(alloc, files, failing)?;
    run_on(alloc, desk, task.line, AMPLE.limit)
}

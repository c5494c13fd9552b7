//! Whole runs over desks that move one, two, three or many bytes at a time.
use crate::desk::{AMPLE, Bounds, Ended, run};
use crate::expecting::{Case, PIECES, expect_all, in_pieces, put_port};
use crate::formulas::{EMPTY, SQUARE, TRIANGLE};
use std::alloc::{AllocError, Global};

const CHECK: &[&str] = &["cxsat", "check", "f", "s"];

const ELAB: &[&str] = &["cxsat", "elab", "f", "s", "p"];

const SOLVE: &[&str] = &["cxsat", "solve", "f", "--proof", "l", "--conflicts", "1"];

/// A command line, the texts of its files, and the most bytes that each may have.
type Row = (&'static [&'static str], &'static str, &'static str, u32);

/// What is told of a run.
#[derive(Clone, Copy, Drop)]
enum Shown {
    /// Its status, and what is on the ports of answers and messages.
    End,
    /// What is on the port of proofs.
    Proof,
}

/// What a row comes to in pieces of this length.
fn ended(alloc: Global, row: &Row, piece: usize) -> Result<Ended, AllocError> {
    let (line, formula, second, limit) = *row;
    let bounds = in_pieces(Bounds { limit, ..AMPLE }, piece);
    run(alloc, formula, second.as_bytes(), line, bounds)
}

fn put_end(alloc: Global, all: &mut Vec<u8>, ended: &Ended) -> Result<(), AllocError> {
    let status = format!(in alloc; "{} ", ended.status)?;
    all.extend_from_slice(status.as_bytes())?;
    all.extend_from_slice(ended.answer())?;
    all.extend_from_slice(ended.message())
}

fn put(alloc: Global, all: &mut Vec<u8>, ended: &Ended, shown: Shown) -> Result<(), AllocError> {
    match shown {
        Shown::End => put_end(alloc, all, ended),
        Shown::Proof => all.extend_from_slice(ended.proof()),
    }
}

fn put_row(
    alloc: Global,
    all: &mut Vec<u8>,
    row: &Row,
    shown: Shown,
    piece: usize,
) -> Result<(), AllocError> {
    let ended = ended(alloc, row, piece)?;
    put(alloc, all, &ended, shown)
}

fn put_rows(
    alloc: Global,
    all: &mut Vec<u8>,
    rows: &[Row],
    shown: Shown,
    piece: usize,
) -> Result<(), AllocError> {
    for row in rows {
        put_row(alloc, all, row, shown, piece)?;
    }
    Ok(())
}

/// Rows, and what is to be told of them.
struct Told {
    rows: &'static [Row],
    shown: Shown,
    wanted: &'static [u8],
}

/// Writes what is told of the rows in pieces of this length, if it is not so.
fn put_other_told(
    alloc: Global,
    others: &mut String,
    told: &Told,
    piece: usize,
) -> Result<(), AllocError> {
    let mut all = Vec::new(alloc);
    put_rows(alloc, &mut all, told.rows, told.shown, piece)?;
    if all.as_slice() == told.wanted {
        return Ok(());
    }
    put_port(alloc, others, &all)
}

impl Case for Told {
    fn put_other(&self, alloc: Global, others: &mut String) -> Result<(), AllocError> {
        for piece in &PIECES {
            put_other_told(alloc, others, self, *piece)?;
        }
        Ok(())
    }
}

static TOLD: [Told; 1] = [Told {
    rows: &[
        (CHECK, TRIANGLE, "c a\nx 4 0 1 2 3 0\ni 1 0 4 0", 100),
        (CHECK, SQUARE, "5 2 0 1 2 0\n6 0 5 3 4 zzz\n", 100),
        (CHECK, SQUARE, "5 2 0 1\n", 100),
        (
            ELAB,
            SQUARE,
            "o 10 1 2 0\no 11 -1 2 0\na 20 2 0\na 21 0\n",
            100,
        ),
        (SOLVE, TRIANGLE, "", 100),
        (SOLVE, "c b\r\np cnf 2 2\r\nx-1 2 0\n1 0\n%\n0", "", 100),
        (SOLVE, "p cnf 2 2\n1 2 0\n1 x2 0\n", "", 100),
        (SOLVE, "p cnf 2 2\nx1 2 0\n1 0\n", "", 21),
        (SOLVE, "p cnf 2 2\nx1 2 0\n1 0\n", "", 20),
    ],
    shown: Shown::End,
    wanted: b"0 s VERIFIED\n7 c step 2 P0 at byte 22\ns NOT VERIFIED\n7 c step 1 P0 at byte 8\ns NOT VERIFIED\n8 c step 4 E5\ns NOT ELABORATED\n20 s UNSATISFIABLE\n10 s SATISFIABLE\nv 1 2 0\n3 error: formula F3 at byte 18\n10 s SATISFIABLE\nv 1 -2 0\n9 error: limit L2 formula\n",
}];

#[test]
fn pieces_of_any_length_end_the_same(rt: HostRuntime) {
    expect_all(&rt, &TOLD);
}

static TOLD_WITH_MORE: [Told; 1] = [Told {
    rows: &[
        (CHECK, SQUARE, "5 2 0 1 2 0\n6 0 5 3 4 0\nzzz\n", 38),
        (CHECK, SQUARE, "5 2 0 1 2 0\n6 0 5 3 4 0\nzzz\n", 37),
        (CHECK, EMPTY, "2 0 1 0\nzzz\n", 12),
        (CHECK, EMPTY, "2 0 1 0\nzzzz\n", 12),
        (CHECK, EMPTY, "2 zz\nzzzzzz\n", 12),
        (CHECK, EMPTY, "2 zz\nzzzzzzz\n", 12),
        (ELAB, EMPTY, "o 1 0\na 2 0\nzzz\n", 16),
        (ELAB, EMPTY, "o 1 0\na 2 0\nzzzz\n", 16),
        (ELAB, EMPTY, "z 1 0\nzzzzzzzzz\n", 16),
        (ELAB, EMPTY, "z 1 0\nzzzzzzzzzz\n", 16),
    ],
    shown: Shown::End,
    wanted: b"0 s VERIFIED\n9 error: limit L2 formula\n0 s VERIFIED\n9 error: limit L2 second\n7 c step 1 P0 at byte 2\ns NOT VERIFIED\n9 error: limit L2 second\n0 s ELABORATED\n9 error: limit L2 second\n8 c step 1 E0 at byte 0\ns NOT ELABORATED\n9 error: limit L2 second\n",
}];

#[test]
fn what_stands_behind_the_last_step_counts(rt: HostRuntime) {
    expect_all(&rt, &TOLD_WITH_MORE);
}

static PRINTED: [Told; 1] = [Told {
    rows: &[
        (
            ELAB,
            SQUARE,
            "o 10 1 2 0\no 11 -1 2 0\no 12 1 -2 0\no 13 -1 -2 0\na 20 2 0 l 10 11 0\na 21 0 l 20 12 13 0\n",
            100,
        ),
        (
            ELAB,
            SQUARE,
            "o 10 1 2 0\no 11 -1 2 0\no 12 1 -2 0\no 13 -1 -2 0\na 20 2 0 l 10 11 0\na 21 1 2 0 l 99\n",
            100,
        ),
        (ELAB, EMPTY, "o 1 0\na 2 0\nzzz\n", 16),
    ],
    shown: Shown::Proof,
    wanted: b"5 2 0 1 2 0\n6 0 5 3 4 0\n5 2 0 1 2 0\n2 0 1 0\n",
}];

#[test]
fn pieces_of_any_length_are_printed_the_same(rt: HostRuntime) {
    expect_all(&rt, &PRINTED);
}

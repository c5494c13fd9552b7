//! Formulas, texts and words that are refused, each with its status, place and line.
use crate::desk::{AMPLE, Bounds, Task};
use crate::expecting::{Case, End, Lines, Offence, Offences, expect_all, put_other_in_pieces};
use crate::formulas::EMPTY;
use std::alloc::{AllocError, Global};

const CHECK: &[&str] = &["cxsat", "check", "f", "s"];

static OFFENCES: [Offence; 13] = [
    ("", 3, "error: formula F1 at byte 0\n"),
    ("1 0\n", 3, "error: formula F1 at byte 0\n"),
    ("p cnf x 1\n", 3, "error: formula F2 at byte 6\n"),
    ("p cnf 2 1\n1 a 0\n", 3, "error: formula F3 at byte 12\n"),
    ("p cnf 2 1\n1 x2 0\n", 3, "error: formula F3 at byte 12\n"),
    ("p cnf 2 1\n1 2", 3, "error: formula F4 at byte 13\n"),
    ("p cnf 2 1\n1 2\n", 3, "error: formula F4 at byte 14\n"),
    ("p cnf 2 1\na 1 x2 0\n", 3, "error: formula F3 at byte 14\n"),
    ("p cnf 1 1\na\n", 3, "error: formula F4 at byte 12\n"),
    (
        "p cnf 1 1\n268435456 0\n",
        9,
        "error: limit L1 at byte 10\n",
    ),
    (
        "p cnf 1 1\n268435456 a 0\n",
        9,
        "error: limit L1 at byte 10\n",
    ),
    (
        "p cnf 1 1\n16777216 a 0\n",
        3,
        "error: formula F3 at byte 19\n",
    ),
    ("p cnf 268435456 0\n", 9, "error: limit L1 at byte 6\n"),
];

#[test]
fn formulas_are_refused_at_their_first_offence(rt: HostRuntime) {
    let solve = Offences {
        line: &["cxsat", "solve", "f"],
        formulas: &OFFENCES,
    };
    let check = Offences {
        line: CHECK,
        formulas: &OFFENCES,
    };
    expect_all(&rt, &[solve, check]);
}

/// A formula, and how a check of a proof of 12 bytes is to end within these bounds.
struct Bounded(&'static str, Bounds, (u8, &'static str, &'static str));

impl Case for Bounded {
    fn put_other(&self, alloc: Global, others: &mut String) -> Result<(), AllocError> {
        let (status, answer, message) = self.2;
        let task = Task {
            line: CHECK,
            formula: self.0,
            second: "2 0 1 0\nzzz\n",
        };
        let end = End {
            status,
            answer,
            message,
            proof: b"",
        };
        put_other_in_pieces(alloc, others, task, self.1, end)
    }
}

/// Each limit, and an answer that has too little room.
static BOUNDED: [Bounded; 4] = [
    Bounded(
        EMPTY,
        Bounds { limit: 12, ..AMPLE },
        (0, "s VERIFIED\n", ""),
    ),
    Bounded(
        EMPTY,
        Bounds { limit: 11, ..AMPLE },
        (9, "", "error: limit L2 formula\n"),
    ),
    Bounded(
        "p cnf 1 1\n0",
        Bounds { limit: 11, ..AMPLE },
        (9, "", "error: limit L2 second\n"),
    ),
    Bounded(
        EMPTY,
        Bounds { answer: 3, ..AMPLE },
        (5, "s V", "error: write fault\n"),
    ),
];

#[test]
fn texts_over_the_limit_and_a_full_answer_port_are_refused(rt: HostRuntime) {
    expect_all(&rt, &BOUNDED);
}

static LINES: [Lines; 1] = [Lines {
    texts: (EMPTY, "2 0 1 0\n"),
    rows: &[
        (&["cxsat", "check", "f", "s"], u32::MAX, 0),
        (&["cxsat", "slove", "f"], u32::MAX, 2),
        (&["cxsat", "check", "f", "f"], u32::MAX, 2),
        (&["cxsat", "check", "f", "-s"], u32::MAX, 2),
        (&["cxsat", "check", "f"], u32::MAX, 2),
        (&["cxsat"], u32::MAX, 2),
        (&[], u32::MAX, 2),
        (&["cxsat", "check", "f", ""], u32::MAX, 4),
        (&["cxsat", "check", "g", "s"], u32::MAX, 4),
        (&["cxsat", "check", "f", "g"], u32::MAX, 4),
    ],
}];

#[test]
fn words_are_refused_or_taken(rt: HostRuntime) {
    expect_all(&rt, &LINES);
}

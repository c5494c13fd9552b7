//! Worked answers: what is printed, and what is read or refused.
use crate::expecting::expect;
use crate::formulas::formula;
use cx_base::{Formula, Lit, Var};
use cx_desk::{MemDesk, Port, Rooms};
use model_out::{put_answer, read_answer};
use std::alloc::{AllocError, Global};

/// The values that a text gives as an answer to the formula, or why it is none, on a line.
fn answer_of(alloc: Global, formula: &Formula, text: &[u8]) -> Result<String, AllocError> {
    match &read_answer(alloc, text, formula) {
        Ok(values) => format!(in alloc; "{:?}\n", values.as_slice()),
        Err(refusal) => format!(in alloc; "{refusal:?}\n"),
    }
}

/// What each text gives as an answer to the formula, each on a line.
fn answers_to(alloc: Global, formula: &Formula, texts: &[&[u8]]) -> Result<String, AllocError> {
    let mut all = String::new(alloc);
    for text in texts {
        all.push_str(answer_of(alloc, formula, text)?.as_str())?;
    }
    Ok(all)
}

/// As `answers_to`, where the formula is the parity of 1 and 2 and the clause of 1.
fn answers(alloc: Global, texts: &[&[u8]]) -> Result<String, AllocError> {
    let one = Lit::new(Var::new(1), false);
    let two = Lit::new(Var::new(2), false);
    let formula = formula(alloc, &[one, two], one)?;
    answers_to(alloc, &formula, texts)
}

/// Puts this many true values. Whether all was written.
fn put(alloc: Global, desk: &mut MemDesk, count: usize) -> Result<bool, AllocError> {
    let values = vec![in alloc; true; count.min(4096)]?;
    Ok(put_answer(desk, &values).is_ok())
}

/// Appends what is written of this many true values, and a `!` where that was all.
fn add_on(
    alloc: Global,
    desk: &mut MemDesk,
    count: usize,
    told: &mut String,
) -> Result<(), AllocError> {
    let done = put(alloc, desk, count)?;
    told.push_str(std::str::from_utf8(desk.written(Port::Answer)).unwrap_or("no text"))?;
    told.push_str(if done { "!" } else { "" })
}

/// As `add_on`, on an answer port with this much room.
fn add_printed(
    alloc: Global,
    count: usize,
    answer: usize,
    told: &mut String,
) -> Result<(), AllocError> {
    let rooms = Rooms {
        answer: answer.min(16_384),
        proof: 0,
        message: 0,
    };
    let mut desk = MemDesk::make(alloc, Vec::new(alloc), rooms, 5, Vec::new(alloc))?;
    add_on(alloc, &mut desk, count, told)
}

/// What `add_printed` appends for each count and room.
fn printed(alloc: Global, cases: &[(usize, usize)]) -> Result<String, AllocError> {
    let mut told = String::new(alloc);
    for (count, answer) in cases {
        add_printed(alloc, *count, *answer, &mut told)?;
    }
    Ok(told)
}

#[test]
fn sixteen_literals_stand_on_a_line(rt: HostRuntime) {
    let told = printed(rt.alloc(), &[(0, 100), (16, 100), (17, 100), (17, 3)]);
    let wanted = "\
s SATISFIABLE
v 0
!s SATISFIABLE
v 1 2 3 4 5 6 7 8 9 10 11 12 13 14 15 16 0
!s SATISFIABLE
v 1 2 3 4 5 6 7 8 9 10 11 12 13 14 15 16
v 17 0
!s S";
    expect(&rt, told, wanted);
}

/// How many bytes are written of two thousand true values, and whether they end right.
fn length_of_long(alloc: Global) -> Result<String, AllocError> {
    let text = printed(alloc, &[(2000, 10_000)])?;
    let ends = text.as_bytes().ends_with(b" 1999 2000 0\n!");
    format!(in alloc; "{} {ends}", text.len())
}

#[test]
fn a_long_answer_is_written_whole(rt: HostRuntime) {
    expect(&rt, length_of_long(rt.alloc()), "9160 true");
}

/// Texts for the formula that is the parity of 1 and 2 and the clause of 1.
static TEXTS: [&[u8]; 19] = [
    // Answers that give values.
    b"s SATISFIABLE\nv 1 -2 0\n",
    b"c hi\n\n \t\n s  SATISFIABLE\r\n\nc v 3\nv\n v 01\r\n\n\nv -002 -0",
    b"s SATISFIABLE\nv 3 -3 1 -2 268435456 1111111111222222222233333333334444444444\nv -3 00\n",
    // An answer has a status line.
    b"",
    b"s UNSATISFIABLE\n",
    b"s SATISFIABLE 1\nv 1 -2 0",
    b"s\nSATISFIABLE\nv 1 -2 0",
    // The first bad token is answered.
    b"s SATISFIABLE",
    b"s SATISFIABLE\nv 1 q 0",
    b"s SATISFIABLE\nv 1\n-2 0",
    b"s SATISFIABLE\nv 1 v -2 0",
    b"s SATISFIABLE\nv 1 -2\n",
    b"s SATISFIABLE\nv 1 -2 0 0",
    b"s SATISFIABLE\nv 1 -2 0\nv\n",
    // Wrong values are answered.
    b"s SATISFIABLE\nv 1 0",
    b"s SATISFIABLE\nv -2 2 0",
    b"s SATISFIABLE\nv 1 -2 1 0",
    b"s SATISFIABLE\nv 1 2 0",
    b"s SATISFIABLE\nv -1 2 0",
];

/// What each gives.
const WANTED: &str = "\
[true, false]
[true, false]
[true, false]
NoStatusLine
NoStatusLine
NoStatusLine
NoStatusLine
BadToken(13)
BadToken(18)
BadToken(18)
BadToken(18)
BadToken(21)
BadToken(23)
BadToken(23)
Missing(Var { number: 2 })
Missing(Var { number: 1 })
Twice(Var { number: 1 })
Unmet(1)
Unmet(2)
";

#[test]
fn an_answer_gives_its_values_or_why_it_is_none(rt: HostRuntime) {
    expect(&rt, answers(rt.alloc(), &TEXTS), WANTED);
}

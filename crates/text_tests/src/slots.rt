//! Proofs that are read from a slot, in pieces of any length.
ghost use Rattle.std.specs.Prelude.{◌≡◌, ◌≤◌, None, false};
ghost use Rattle.cx_desk.specs.Memory.{outside_of};

use crate::expecting::expect;
use crate::one_file::{NO_ROOM, desk, start};
use cx_desk::{MemDesk, Slot};
use proof_text::ProofGrammar;
use std::alloc::{AllocError, Global};
use step_text::{SlotText, SpareLists, StepSource, TextRefusal};

/// How many steps a source gave, the refusal that they end with, and the place after them.
fn ended(
    alloc: Global,
    steps: u64,
    refusal: Option<TextRefusal>,
    place: u64,
) -> Result<String, AllocError> {
    format!(in alloc; "{steps} {refusal:?} {place}\n")
}

/// What comes of a source's steps, of which there are at most a hundred.
fn told<S: StepSource>(alloc: Global, source: &mut S) -> Result<String, AllocError>
where
    S::Step: Drop,
    requires { S.is_spent source.old ≡ false }
{
    let mut spare = SpareLists::new(alloc);
    let mut steps = 0;
    for turn in 0..100u64 {
        match source.next_step(&mut spare) {
            Ok(Some(_)) => steps = turn + 1,
            Ok(None) => return ended(alloc, steps, None, source.place()),
            Err(why) => return ended(alloc, steps, Some(why), source.place()),
        }
    }
    String::from_str(alloc, "many\n")
}

/// What is told of the file of a desk.
fn told_on(alloc: Global, desk: &mut MemDesk, limit: u64) -> Result<String, AllocError>
    requires asked { (outside_of desk.old).asked.second ≡ None }
    requires limit { limit ≤ 4294967295 }
{
    if !start(alloc, desk, Slot::Second)? {
        return String::from_str(alloc, "not opened");
    }
    let mut source: SlotText<MemDesk, ProofGrammar> = SlotText::new(
        alloc,
        desk,
        Slot::Second,
        limit,
    );
    told(alloc, &mut source)
}

/// What is told of a text, in pieces of this length.
fn told_of(alloc: Global, text: &[u8], piece: usize, limit: u64) -> Result<String, AllocError>
    requires piece { 1 ≤ piece }
    requires limit { limit ≤ 4294967295 }
{
    let mut desk = desk(alloc, text, NO_ROOM, piece, &[])?;
    told_on(alloc, &mut desk, limit)
}

/// What is told of each text, of at most 28 bytes.
fn all_told(alloc: Global, texts: &[&[u8]], piece: usize) -> Result<String, AllocError>
    requires { 1 ≤ piece }
{
    let mut all = String::new(alloc);
    for text in texts {
        all.push_str(told_of(alloc, text, piece, 28)?.as_str())?;
    }
    Ok(all)
}

/// Appends what is told of pieces of this length, where that is not what is wanted.
fn add_other(
    alloc: Global,
    texts: &[&[u8]],
    piece: usize,
    wanted: &str,
    others: &mut String,
) -> Result<(), AllocError>
    requires { 1 ≤ piece }
{
    let told = all_told(alloc, texts, piece)?;
    if told.as_str() == wanted {
        return Ok(());
    }
    writeln!(others, "in pieces of {piece}: {}", told.as_str())
}

/// As `add_other`, for pieces of each length.
fn add_others(
    alloc: Global,
    texts: &[&[u8]],
    pieces: &[usize],
    wanted: &str,
    others: &mut String,
) -> Result<(), AllocError> {
    for piece in pieces {
        add_other(alloc, texts, (*piece).max(1), wanted, others)?;
    }
    Ok(())
}

/// Texts of at most 28 bytes.
static TEXTS: [&[u8]; 8] = [
    b"",
    b"c a\n5 2 0 1 2 0\n6 0 5 3 4 0",
    b"5 2 0 1 2 0\nc x\n6 0 5 3 4 0\n",
    b"5 2 0 1 2 0\n6 0 5 3 4 0\nzzz\n",
    b"5 2 0 1\n",
    b"6 0 0 9223372036854775808",
    b"5 2\nc 7 0\n 0 1 0",
    b"12 0 34 0 \r\n\tc",
];

/// What comes of each.
const WANTED: &str = "\
0 None 0
2 None 27
2 None 28
2 Some(BadToken(24)) 24
0 Some(Unterminated(8)) 0
1 Some(TooBig(6)) 6
1 None 16
1 None 14
";

/// A text with a byte past the limit.
static LONG: [&[u8]; 1] = [b"5 2 0 1 2 0\n6 0 5 3 4 0\nzzzz\n"];

/// What is told otherwise than wanted.
fn others(alloc: Global) -> Result<String, AllocError> {
    let mut others = String::new(alloc);
    add_others(alloc, &TEXTS, &[1, 2, 3, 4096], WANTED, &mut others)?;
    // A byte past the limit is told as soon as it is read.
    add_others(alloc, &LONG, &[1], "2 Some(TooLong) 24\n", &mut others)?;
    add_others(alloc, &LONG, &[4096], "0 Some(TooLong) 0\n", &mut others)?;
    Ok(others)
}

#[test]
fn pieces_of_any_length_tell_the_same_but_for_a_byte_behind_the_limit(rt: HostRuntime) {
    expect(&rt, others(rt.alloc()), "");
}

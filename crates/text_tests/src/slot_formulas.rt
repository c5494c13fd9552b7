//! Formulas that are read from a slot, in pieces of any length, against what is read of the whole text.
ghost use Rattle.std.specs.Prelude.{◌≡◌, ◌≤◌, None};
ghost use Rattle.cx_desk.specs.Memory.{outside_of};

use crate::expecting::expect;
use crate::formula_texts::show;
use crate::one_file::{NO_ROOM, desk, start};
use cnfx_reader::{read_formula, read_formula_from};
use cx_desk::{MemDesk, Slot};
use std::alloc::{AllocError, Global};

/// What is read of the file of a desk.
fn told_on(alloc: Global, desk: &mut MemDesk, limit: u64) -> Result<String, AllocError>
    requires asked { (outside_of desk.old).asked.formula ≡ None }
    requires limit { limit ≤ 4294967295 }
{
    if !start(alloc, desk, Slot::Formula)? {
        return String::from_str(alloc, "not opened");
    }
    match read_formula_from(alloc, desk, Slot::Formula, limit) {
        Ok(formula) => show(alloc, &formula),
        Err(refusal) => format!(in alloc; "{refusal:?}"),
    }
}

/// What is read of a text that comes in pieces of this length.
fn told_in_pieces(
    alloc: Global,
    text: &[u8],
    piece: usize,
    limit: u64,
) -> Result<String, AllocError>
    requires piece { 1 ≤ piece }
    requires limit { limit ≤ 4294967295 }
{
    let mut desk = desk(alloc, text, NO_ROOM, piece, &[])?;
    told_on(alloc, &mut desk, limit)
}

/// What is read of a whole text, if it is within the limit.
fn told_whole(alloc: Global, text: &[u8], limit: u64) -> Result<String, AllocError> {
    if text.len() as u64 > limit {
        return String::from_str(alloc, "TooLong");
    }
    match read_formula(alloc, text) {
        Ok(formula) => show(alloc, &formula),
        Err(refusal) => format!(in alloc; "{refusal:?}"),
    }
}

/// Appends what is read of pieces of this length, where that is not what is read of the whole text.
fn add_if_other(
    piece: usize,
    in_pieces: &str,
    whole: &str,
    told: &mut String,
) -> Result<(), AllocError> {
    if in_pieces == whole {
        return Ok(());
    }
    write!(told, " in pieces of {piece}: {in_pieces}")
}

/// As `add_if_other`, of a text that comes in pieces of this length.
fn add_other(
    alloc: Global,
    text: &[u8],
    piece: usize,
    limit: u64,
    whole: &str,
    told: &mut String,
) -> Result<(), AllocError>
    requires piece { 1 ≤ piece }
    requires limit { limit ≤ 4294967295 }
{
    let in_pieces = told_in_pieces(alloc, text, piece, limit)?;
    add_if_other(piece, in_pieces.as_str(), whole, told)
}

/// Appends what is read otherwise of a text's pieces than of the whole text.
fn add_others(
    alloc: Global,
    text: &[u8],
    limit: u64,
    whole: &str,
    told: &mut String,
) -> Result<(), AllocError>
    requires { limit ≤ 4294967295 }
{
    for piece in [1, 2, 3, 4096] {
        add_other(alloc, text, piece, limit, whole, told)?;
    }
    Ok(())
}

/// Appends what is read of a whole text within a limit, and what is read otherwise of its pieces.
fn add_told(alloc: Global, text: &[u8], limit: u64, told: &mut String) -> Result<(), AllocError>
    requires { limit ≤ 4294967295 }
{
    let whole = told_whole(alloc, text, limit)?;
    told.push_str(whole.as_str())?;
    add_others(alloc, text, limit, whole.as_str(), told)?;
    told.push_str("|")
}

/// Appends what is told of a text, of at most a hundred bytes, where the limit is below its length, is its length and is above.
fn add_text(alloc: Global, text: &[u8], told: &mut String) -> Result<(), AllocError> {
    let len = text.len().min(100) as u64;
    for limit in [len.saturating_sub(1), len, len + 1] {
        add_told(alloc, text, limit, told)?;
    }
    told.push_str("\n")
}

/// What is told of each text, on a line.
fn all_told(alloc: Global, texts: &[&[u8]]) -> Result<String, AllocError> {
    let mut all = String::new(alloc);
    for text in texts {
        add_text(alloc, text, &mut all)?;
    }
    Ok(all)
}

/// Texts with and without an offence.
static TEXTS: [&[u8]; 20] = [
    b"",
    b"1 0",
    b"c a\r\n%\n",
    b"p cnf x 1",
    b"p cnf 268435456 0",
    b"p cnf 1\n%\nmore",
    b"p cnf 2 1\r\n1 2 0\r\n",
    b"p cnf 2 1\nc a comment\n1 -2 0\n c more\nx1 2 0",
    b"p cnf 2 1\n1 2 0\n%\n0 z\n",
    b"p cnf 2 1\n1 2\n%\nc the end",
    b"p cnf 2 1\n1 2",
    b"p cnf 2 1\n1 a 0\n1 0\n",
    b"p cnf 1 1\n268435456 a 0",
    b"p cnf 12345 1\n12345 -12345 0 123",
    b"p cnf 2 1\n1 2\n",
    b"p cnf 2 1\nx",
    b"p cnf 2 1\n1 x2 0",
    b"p cnf 2 1\n\0 0",
    b"p cnf 2 1\n1\xc3\xa9 0",
    b"p cnf 1 1\nx-268435456 0",
];

/// What is told of each.
const WANTED: &str = "NoHeader(0)|NoHeader(0)|NoHeader(0)|
TooLong|NoHeader(0)|NoHeader(0)|
TooLong|NoHeader(7)|NoHeader(7)|
TooLong|BadHeader(6)|BadHeader(6)|
TooLong|VarLimit(6)|VarLimit(6)|
TooLong|BadHeader(14)|BadHeader(14)|
TooLong|2: 1 2|2: 1 2|
TooLong|2: 1 -2: x 1 2|2: 1 -2: x 1 2|
TooLong|2: 1 2|2: 1 2|
TooLong|Unterminated(25)|Unterminated(25)|
TooLong|Unterminated(13)|Unterminated(13)|
TooLong|BadToken(12)|BadToken(12)|
TooLong|VarLimit(10)|VarLimit(10)|
TooLong|Unterminated(32)|Unterminated(32)|
TooLong|Unterminated(14)|Unterminated(14)|
TooLong|Unterminated(11)|Unterminated(11)|
TooLong|BadToken(12)|BadToken(12)|
TooLong|BadToken(10)|BadToken(10)|
TooLong|BadToken(10)|BadToken(10)|
TooLong|VarLimit(10)|VarLimit(10)|
";

#[test]
fn pieces_of_any_length_tell_what_the_whole_text_tells(rt: HostRuntime) {
    expect(&rt, all_told(rt.alloc(), &TEXTS), WANTED);
}

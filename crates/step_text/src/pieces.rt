//! Pieces of a printed line, which printers of steps are made of.
ghost use Rattle.std.specs.Prelude.{◌≡◌, ◌≤◌, ◌+◌, ◌*◌, [], ◌∷◌, length, ◌++◌, flat_map, decimal, IsTrue};
ghost use Rattle.cx_desk.specs.Calls.{PutsAll};
ghost use Rattle.cx_texts.specs.Grammar.{spelled, id, ids, integers, pairs};
ghost use Rattle.cx_texts.specs.Printed.{printed_line};
ghost use Rattle.step_text.specs.Spaced.{spaced, spaced_integer, spaced_id, spaced_move};
ghost use Rattle.step_text.specs.Tails.{tail_fields, tail_len, tail_text};

use crate::lay_out::{
    DELETION_ROOM, FRAME, LONGEST, lay_out_deletion, lay_out_ids, lay_out_integers, lay_out_line,
    lay_out_parity_deletion,
};
pub use crate::line::{LineHead, LineTail};
use cx_base::IdMove;
use cx_desk::{Desk, Failed, Port, put_all, put_pieces};
use itoa::Buffer;

/// An id between two texts.
pub fn put_id<D: Desk>(
    desk: &mut D,
    port: Port,
    before: &[u8],
    name: u64,
    after: &[u8],
) -> Result<(), Failed>
    ensures { PutsAll port (before.now ++ (decimal name ++ after.now)) (D.outside desk.old) result (D.outside desk.new) }
{
    let mut buffer = Buffer::new();
    let text = buffer.format(name);
    put_pieces(desk, port, &[before, text.as_bytes(), after])
}

/// The most integers or ids that are written in one piece.
const AT_ONCE: usize = 16;

/// A few integers, each after a space, in one piece.
fn put_few_integers<D: Desk>(desk: &mut D, port: Port, members: &[i64]) -> Result<(), Failed>
    requires { length members.now ≤ AT_ONCE }
    ensures { PutsAll port (flat_map spaced_integer members.now) (D.outside desk.old) result (D.outside desk.new) }
{
    let mut sheet = [0; AT_ONCE * LONGEST];
    let begin = lay_out_integers(members, &mut sheet, AT_ONCE * LONGEST);
    put_all(desk, port, &sheet[begin..])
}

/// Integers, each after a space.
fn put_each_integer<D: Desk>(desk: &mut D, port: Port, members: &[i64]) -> Result<(), Failed>
    ensures { PutsAll port (flat_map spaced_integer members.now) (D.outside desk.old) result (D.outside desk.new) }
{
    let mut done = 0;
    while done < members.len() {
        let next = members.len().min(done + AT_ONCE);
        put_few_integers(desk, port, &members[done..next])?;
        done = next;
    }
    Ok(())
}

/// A few ids, each after a space, in one piece.
fn put_few_ids<D: Desk>(desk: &mut D, port: Port, members: &[u64]) -> Result<(), Failed>
    requires { length members.now ≤ AT_ONCE }
    ensures { PutsAll port (flat_map spaced_id members.now) (D.outside desk.old) result (D.outside desk.new) }
{
    let mut sheet = [0; AT_ONCE * LONGEST];
    let begin = lay_out_ids(members, &mut sheet, AT_ONCE * LONGEST);
    put_all(desk, port, &sheet[begin..])
}

/// As many ids as a sheet has room for, each after a space, in one piece.
fn put_sheet_of_ids<D: Desk>(
    sheet: &mut LineSheet,
    desk: &mut D,
    port: Port,
    members: &[u64],
) -> Result<(), Failed>
    requires { length members.now ≤ MANY }
    ensures { PutsAll port (flat_map spaced_id members.now) (D.outside desk.old) result (D.outside desk.new) }
{
    let sheet = &mut sheet.bytes[..];
    let end = sheet.len();
    let begin = lay_out_ids(members, sheet, end);
    put_all(desk, port, &sheet[begin..])
}

/// Many ids, each after a space, in pieces as long as there is room for: each piece of an answer goes to the system by itself.
fn put_many_ids<D: Desk>(desk: &mut D, port: Port, members: &[u64]) -> Result<(), Failed>
    ensures { PutsAll port (flat_map spaced_id members.now) (D.outside desk.old) result (D.outside desk.new) }
{
    let mut sheet = LineSheet::new();
    let mut done = 0;
    while done < members.len() {
        let next = members.len().min(done + MANY);
        put_sheet_of_ids(&mut sheet, desk, port, &members[done..next])?;
        done = next;
    }
    Ok(())
}

/// Ids, each after a space.
fn put_each_id<D: Desk>(desk: &mut D, port: Port, members: &[u64]) -> Result<(), Failed>
    ensures { PutsAll port (flat_map spaced_id members.now) (D.outside desk.old) result (D.outside desk.new) }
{
    if members.len() <= AT_ONCE {
        put_few_ids(desk, port, members)
    } else {
        put_many_ids(desk, port, members)
    }
}

/// Integers with the zero that ends them, and a text.
pub fn put_integers<D: Desk>(
    desk: &mut D,
    port: Port,
    members: &[i64],
    after: &[u8],
) -> Result<(), Failed>
    ensures { PutsAll port (spaced (spelled (integers members.now)) ++ after.now) (D.outside desk.old) result (D.outside desk.new) }
{
    put_each_integer(desk, port, members)?;
    put_pieces(desk, port, &[b" 0", after])
}

/// Ids with the zero that ends them, and a line feed.
pub fn put_ids<D: Desk>(desk: &mut D, port: Port, members: &[u64]) -> Result<(), Failed>
    ensures { PutsAll port (spaced (spelled (ids members.now)) ++ 10 ∷ []) (D.outside desk.old) result (D.outside desk.new) }
{
    put_each_id(desk, port, members)?;
    put_all(desk, port, b" 0\n")
}

/// The two ids of a move, each after a space.
fn put_move<D: Desk>(desk: &mut D, port: Port, from: u64, to: u64) -> Result<(), Failed>
    ensures { PutsAll port (spaced_move (record { from = from; to = to })) (D.outside desk.old) result (D.outside desk.new) }
{
    put_id(desk, port, b" ", from, b"")?;
    put_id(desk, port, b" ", to, b"")
}

/// The ids of moves, each after a space.
fn put_each_move<D: Desk>(desk: &mut D, port: Port, moves: &[IdMove]) -> Result<(), Failed>
    ensures { PutsAll port (flat_map spaced_move moves.now) (D.outside desk.old) result (D.outside desk.new) }
{
    for member in moves {
        put_move(desk, port, member.from, member.to)?;
    }
    Ok(())
}

/// Moves with the zero that ends them, and a line feed.
pub fn put_moves<D: Desk>(desk: &mut D, port: Port, moves: &[IdMove]) -> Result<(), Failed>
    ensures { PutsAll port (spaced (spelled (pairs moves.now)) ++ 10 ∷ []) (D.outside desk.old) result (D.outside desk.new) }
{
    put_each_move(desk, port, moves)?;
    put_all(desk, port, b" 0\n")
}

/// A deletion of one clause, as a whole line in one piece.
pub fn put_deletion<D: Desk>(
    desk: &mut D,
    port: Port,
    name: u64,
    deleted: u64,
) -> Result<(), Failed>
    ensures { PutsAll port (decimal name ++ (32 ∷ 100 ∷ 32 ∷ (decimal deleted ++ 32 ∷ 48 ∷ 10 ∷ []))) (D.outside desk.old) result (D.outside desk.new) }
{
    let mut sheet = [0; DELETION_ROOM];
    let begin = lay_out_deletion(name, deleted, &mut sheet);
    put_all(desk, port, &sheet[begin..])
}

/// A deletion of one parity, as a whole line in one piece.
pub fn put_parity_deletion<D: Desk>(desk: &mut D, port: Port, deleted: u64) -> Result<(), Failed>
    ensures { PutsAll port (120 ∷ 32 ∷ 100 ∷ 32 ∷ (decimal deleted ++ 32 ∷ 48 ∷ 10 ∷ [])) (D.outside desk.old) result (D.outside desk.new) }
{
    let mut sheet = [0; DELETION_ROOM];
    let begin = lay_out_parity_deletion(deleted, &mut sheet);
    put_all(desk, port, &sheet[begin..])
}

/// The head of a step's line.
fn put_head<D: Desk>(desk: &mut D, port: Port, head: LineHead<'_>) -> Result<(), Failed>
    ensures { PutsAll port (head.entry.before.now ++ (decimal head.entry.id ++ spaced (spelled (integers head.entry.literals.now)))) (D.outside desk.old) result (D.outside desk.new) }
{
    put_id(desk, port, head.before, head.id, b"")?;
    put_integers(desk, port, head.literals, b"")
}

/// The tail of a step's line.
fn put_tail<D: Desk>(desk: &mut D, port: Port, tail: LineTail<'_>) -> Result<(), Failed>
    ensures { PutsAll port (tail_text tail.entry) (D.outside desk.old) result (D.outside desk.new) }
{
    match tail {
        LineTail::Nothing => put_all(desk, port, b"\n"),
        LineTail::Hints(hints) => put_integers(desk, port, hints, b"\n"),
        LineTail::MarkedHints(hints) => {
            put_all(desk, port, b" l")?;
            put_integers(desk, port, hints, b"\n")
        }
        LineTail::MarkedIds(ids) => {
            put_all(desk, port, b" l")?;
            put_ids(desk, port, ids)
        }
    }
}

/// The most numbers of a line that is laid out whole, together with the bytes before its id.
const MANY: usize = 512;

/// Room for a line that is laid out whole.
const SHEET: usize = MANY * LONGEST + FRAME;

/// A sheet that lines are laid out on, one after another. What is on it plays no part: a line is laid out over the one
/// before, so that no room is cleared for it.
#[derive(Drop)]
pub struct LineSheet {
    bytes: [u8; SHEET],
}

impl LineSheet {
    /// A sheet for lines to come.
    pub fn new() -> LineSheet {
        LineSheet { bytes: [0; SHEET] }
    }
}

/// Whether a sheet has room for a line.
#[inline(always)]
fn has_room(head: &LineHead<'_>, tail: &LineTail<'_>) -> bool
    ensures { IsTrue result → length head.now.before.now + (length head.now.literals.now + tail_len tail.now) ≤ MANY }
{
    let numbers = head.literals.len().saturating_add(tail.count());
    head.before.len().saturating_add(numbers) <= MANY
}

/// A line for which a sheet has room, in one piece.
fn put_whole_line<D: Desk>(
    sheet: &mut LineSheet,
    desk: &mut D,
    port: Port,
    head: LineHead<'_>,
    tail: LineTail<'_>,
) -> Result<(), Failed>
    requires few { length head.before.now + (length head.literals.now + tail_len tail) ≤ MANY }
    ensures { PutsAll port (head.entry.before.now ++ (decimal head.entry.id ++ (spaced (spelled (integers head.entry.literals.now)) ++ tail_text tail.entry))) (D.outside desk.old) result (D.outside desk.new) }
{
    let sheet = &mut sheet.bytes[..];
    let begin = lay_out_line(head, tail, sheet);
    put_all(desk, port, &sheet[begin..])
}

/// The line of a step: its head and its tail. The sheet is for its memory alone.
pub fn put_line<D: Desk>(
    sheet: &mut LineSheet,
    desk: &mut D,
    port: Port,
    head: LineHead<'_>,
    tail: LineTail<'_>,
) -> Result<(), Failed>
    ensures { PutsAll port (head.entry.before.now ++ printed_line (flat_map spelled (id head.entry.id ∷ integers head.entry.literals.now ∷ tail_fields tail.entry))) (D.outside desk.old) result (D.outside desk.new) }
{
    if has_room(&head, &tail) {
        return put_whole_line(sheet, desk, port, head, tail);
    }
    put_head(desk, port, head)?;
    put_tail(desk, port, tail)
}

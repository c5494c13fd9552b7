//! Texts and numbers of a line, laid out from its end on.
ghost use Rattle.std.specs.Prelude.{◌≡◌, ◌≤◌, ◌+◌, ◌*◌, ◌∷◌, ◌++◌, [], decimal, flat_map, length, drop};
ghost use Rattle.cx_texts.specs.Grammar.{spelled, ids, integers};
ghost use Rattle.cx_texts.specs.Printed.{printed_integer};
ghost use Rattle.step_text.specs.Spaced.{spaced, spaced_integer, spaced_id};
ghost use Rattle.step_text.specs.Tails.{tail_len, tail_text};
ghost use Rattle.step_text.specs.declared.lay_out.TheConstants.{FRAME, TAIL_FRAME, DELETION_ROOM};

use crate::line::{LineHead, LineTail};
use cx_digits::lay_out_number;

/// Lays out a text so that it ends there, and says where it begins.
#[inline(always)]
fn lay_out_text(text: &[u8], sheet: &mut [u8], end: usize) -> usize
    requires room { length text.now ≤ end }
    requires within { end ≤ length sheet.old }
    ensures begin { result + length text.now ≡ end }
    ensures laid { drop result sheet.new ≡ text.now ++ drop end sheet.old }
{
    let begin = end - text.len();
    sheet[begin..end].copy_from_slice(text);
    begin
}

/// The most bytes that an integer takes after a space: a sign and 19 digits.
pub(crate) const LONGEST: usize = 21;

/// Lays out an integer so that it ends there, and says where it begins.
#[inline(always)]
fn lay_out_signed(integer: i64, sheet: &mut [u8], end: usize) -> usize
    requires room { LONGEST ≤ end }
    requires within { end ≤ length sheet.old }
    ensures low { end + 1 ≤ result + LONGEST }
    ensures high { result ≤ end }
    ensures laid { drop result sheet.new ≡ printed_integer integer ++ drop end sheet.old }
{
    let digits = lay_out_number(integer.unsigned_abs(), sheet, end);
    // The place in front of the digits is free, also where they have no sign.
    sheet[digits - 1] = b'-';
    if integer < 0 { digits - 1 } else { digits }
}

/// Lays out an integer after a space so that it ends there, and says where it begins.
#[inline(always)]
fn lay_out_integer(integer: i64, sheet: &mut [u8], end: usize) -> usize
    requires room { LONGEST ≤ end }
    requires within { end ≤ length sheet.old }
    ensures low { end ≤ result + LONGEST }
    ensures high { result ≤ end }
    ensures laid { drop result sheet.new ≡ spaced_integer integer ++ drop end sheet.old }
{
    let begin = lay_out_signed(integer, sheet, end);
    sheet[begin - 1] = b' ';
    begin - 1
}

/// Lays out integers so that the last ends there, and says where the first begins.
pub(crate) fn lay_out_integers(members: &[i64], sheet: &mut [u8], end: usize) -> usize
    requires room { length members.now * LONGEST ≤ end }
    requires within { end ≤ length sheet.old }
    ensures low { end ≤ result + length members.now * LONGEST }
    ensures high { result ≤ end }
    ensures laid { drop result sheet.new ≡ flat_map spaced_integer members.now ++ drop end sheet.old }
{
    let mut at = end;
    let mut left = members.len();
    while left > 0 {
        left -= 1;
        at = lay_out_integer(members[left], sheet, at);
    }
    at
}

/// Lays out an id after a space so that it ends there, and says where it begins.
#[inline(always)]
fn lay_out_spaced_id(name: u64, sheet: &mut [u8], end: usize) -> usize
    requires room { LONGEST ≤ end }
    requires within { end ≤ length sheet.old }
    ensures low { end ≤ result + LONGEST }
    ensures high { result ≤ end }
    ensures laid { drop result sheet.new ≡ spaced_id name ++ drop end sheet.old }
{
    let begin = lay_out_number(name, sheet, end);
    sheet[begin - 1] = b' ';
    begin - 1
}

/// Lays out ids so that the last ends there, and says where the first begins.
pub(crate) fn lay_out_ids(members: &[u64], sheet: &mut [u8], end: usize) -> usize
    requires room { length members.now * LONGEST ≤ end }
    requires within { end ≤ length sheet.old }
    ensures low { end ≤ result + length members.now * LONGEST }
    ensures high { result ≤ end }
    ensures laid { drop result sheet.new ≡ flat_map spaced_id members.now ++ drop end sheet.old }
{
    let mut at = end;
    let mut left = members.len();
    while left > 0 {
        left -= 1;
        at = lay_out_spaced_id(members[left], sheet, at);
    }
    at
}

/// Lays out integers with the zero that ends them, so that it ends there, and says where the first begins.
fn lay_out_list(members: &[i64], sheet: &mut [u8], end: usize) -> usize
    requires room { length members.now * LONGEST + 2 ≤ end }
    requires within { end ≤ length sheet.old }
    ensures low { end ≤ result + (length members.now * LONGEST + 2) }
    ensures high { result ≤ end }
    ensures laid { drop result sheet.new ≡ spaced (spelled (integers members.now)) ++ drop end sheet.old }
{
    let begin = lay_out_text(b" 0", sheet, end);
    lay_out_integers(members, sheet, begin)
}

/// Lays out ids with the zero that ends them, so that it ends there, and says where the first begins.
fn lay_out_id_list(members: &[u64], sheet: &mut [u8], end: usize) -> usize
    requires room { length members.now * LONGEST + 2 ≤ end }
    requires within { end ≤ length sheet.old }
    ensures low { end ≤ result + (length members.now * LONGEST + 2) }
    ensures high { result ≤ end }
    ensures laid { drop result sheet.new ≡ spaced (spelled (ids members.now)) ++ drop end sheet.old }
{
    let begin = lay_out_text(b" 0", sheet, end);
    lay_out_ids(members, sheet, begin)
}

/// What a tail takes besides its numbers: a letter and a zero after spaces, and a line feed.
const TAIL_FRAME: usize = 5;

/// Lays out a tail at the end of a sheet, and says where it begins.
fn lay_out_tail(tail: LineTail<'_>, sheet: &mut [u8]) -> usize
    requires { tail_len tail * LONGEST + TAIL_FRAME ≤ length sheet.old }
    ensures low { length sheet.old ≤ result + (tail_len tail.entry * LONGEST + TAIL_FRAME) }
    ensures high { result ≤ length sheet.old }
    ensures laid { drop result sheet.new ≡ tail_text tail.entry }
{
    let end = sheet.len();
    let end = lay_out_text(b"\n", sheet, end);
    match tail {
        LineTail::Nothing => end,
        LineTail::Hints(hints) => lay_out_list(hints, sheet, end),
        LineTail::MarkedHints(hints) => {
            let begin = lay_out_list(hints, sheet, end);
            lay_out_text(b" l", sheet, begin)
        }
        LineTail::MarkedIds(ids) => {
            let begin = lay_out_id_list(ids, sheet, end);
            lay_out_text(b" l", sheet, begin)
        }
    }
}

/// What a line takes besides the text before its id and its numbers: the id, a zero after a space, and a tail's frame.
pub(crate) const FRAME: usize = LONGEST + 2 + TAIL_FRAME;

/// Lays out a line at the end of a sheet, and says where it begins.
pub(crate) fn lay_out_line(head: LineHead<'_>, tail: LineTail<'_>, sheet: &mut [u8]) -> usize
    requires { length head.before.now + ((length head.literals.now + tail_len tail) * LONGEST + FRAME) ≤ length sheet.old }
    ensures within { result ≤ length sheet.new }
    ensures laid { drop result sheet.new ≡ head.entry.before.now ++ (decimal head.entry.id ++ (spaced (spelled (integers head.entry.literals.now)) ++ tail_text tail.entry)) }
{
    let end = lay_out_tail(tail, sheet);
    let end = lay_out_list(head.literals, sheet, end);
    let end = lay_out_id(head.id, sheet, end);
    lay_out_text(head.before, sheet, end)
}

/// Lays out an id so that it ends there, and says where it begins.
#[inline(always)]
fn lay_out_id(name: u64, sheet: &mut [u8], end: usize) -> usize
    requires room { LONGEST ≤ end }
    requires within { end ≤ length sheet.old }
    ensures low { end ≤ result + LONGEST }
    ensures high { result ≤ end }
    ensures laid { drop result sheet.new ≡ decimal name ++ drop end sheet.old }
{
    lay_out_number(name, sheet, end)
}

/// Room for a deletion of one clause: two ids, three bytes between them, and three after them.
pub(crate) const DELETION_ROOM: usize = 2 * LONGEST + 6;

/// Lays out what a deletion ends with at the end of a sheet, the letter between spaces and one id, and says where it begins.
fn lay_out_deleted(deleted: u64, sheet: &mut [u8]) -> usize
    requires sheet { length sheet.old ≡ DELETION_ROOM }
    ensures low { LONGEST ≤ result }
    ensures high { result ≤ DELETION_ROOM }
    ensures laid { drop result sheet.new ≡ 32 ∷ 100 ∷ 32 ∷ (decimal deleted ++ 32 ∷ 48 ∷ 10 ∷ []) }
{
    let behind = lay_out_text(b" 0\n", sheet, DELETION_ROOM);
    let id = lay_out_id(deleted, sheet, behind);
    lay_out_text(b" d ", sheet, id)
}

/// Lays out the line of a deletion of one clause at the end of a sheet, and says where it begins.
pub(crate) fn lay_out_deletion(name: u64, deleted: u64, sheet: &mut [u8]) -> usize
    requires sheet { length sheet.old ≡ DELETION_ROOM }
    ensures within { result ≤ DELETION_ROOM }
    ensures laid { drop result sheet.new ≡ decimal name ++ (32 ∷ 100 ∷ 32 ∷ (decimal deleted ++ 32 ∷ 48 ∷ 10 ∷ [])) }
{
    let behind = lay_out_deleted(deleted, sheet);
    lay_out_id(name, sheet, behind)
}

/// Lays out the line of a deletion of one parity at the end of a sheet, and says where it begins.
pub(crate) fn lay_out_parity_deletion(deleted: u64, sheet: &mut [u8]) -> usize
    requires sheet { length sheet.old ≡ DELETION_ROOM }
    ensures within { result ≤ DELETION_ROOM }
    ensures laid { drop result sheet.new ≡ 120 ∷ 32 ∷ 100 ∷ 32 ∷ (decimal deleted ++ 32 ∷ 48 ∷ 10 ∷ []) }
{
    let behind = lay_out_deleted(deleted, sheet);
    lay_out_text(b"x", sheet, behind)
}

//! Lines of constraints laid out on a sheet, each from its last byte to its first.
ghost use Rattle.std.specs.Prelude.{◌≡◌, ◌<◌, ◌≤◌, ◌+◌, ◌-◌, ◌*◌, ◌++◌, flat_map, length, drop, IfSome, MatchResult};
ghost use Rattle.cx_base.specs.Borrowed.{constraint_of};
ghost use Rattle.cnfx_reader.specs.PrintedFormula.{literal_text, literals_text, printed_constraint};
ghost use Rattle.cnfx_reader.specs.Groups.{IsLaidOut, IsGroupIn};

use cx_base::{ConstraintRef, Formula, Lit};
use cx_digits::{MOST_DIGITS, lay_out_number};

/// Room for a literal: a sign, digits and a space.
pub(crate) const LONGEST: usize = MOST_DIGITS + 2;

/// Lays out a literal and a space so that they end there, and says where the literal begins.
#[inline(always)]
fn lay_out_literal(lit: Lit, sheet: &mut [u8], end: usize) -> usize
    requires room { LONGEST ≤ end }
    requires within { end ≤ length sheet.old }
    ensures low { end ≤ result + LONGEST }
    ensures high { result ≤ end }
    ensures laid { drop result sheet.new ≡ literal_text lit ++ drop end sheet.old }
{
    sheet[end - 1] = b' ';
    let digits = lay_out_number(u64::from(lit.var().number()), sheet, end - 1);
    // The place before the digits is free, also where they have no sign.
    sheet[digits - 1] = b'-';
    if lit.is_negative() {
        digits - 1
    } else {
        digits
    }
}

/// Lays out literals so that the last one's space ends there, and says where the first begins.
fn lay_out_literals(lits: &[Lit], sheet: &mut [u8], end: usize) -> usize
    requires room { length lits.now * LONGEST ≤ end }
    requires within { end ≤ length sheet.old }
    ensures low { end ≤ result + length lits.now * LONGEST }
    ensures high { result ≤ end }
    ensures laid { drop result sheet.new ≡ flat_map literal_text lits.now ++ drop end sheet.old }
{
    let mut at = end;
    let mut left = lits.len();
    while left > 0 {
        left -= 1;
        at = lay_out_literal(lits[left], sheet, at);
    }
    at
}

/// Lays out literals at the end of a sheet, and says where they begin.
pub(crate) fn lay_out_part(lits: &[Lit], sheet: &mut [u8]) -> usize
    requires room { length lits.now * LONGEST ≤ length sheet.old }
    ensures within { result ≤ length sheet.new }
    ensures laid { drop result sheet.new ≡ flat_map literal_text lits.now }
{
    let end = sheet.len();
    lay_out_literals(lits, sheet, end)
}

/// Lays out literals, a zero and a line feed so that they end there, and says where they begin.
#[inline(always)]
fn lay_out_line(lits: &[Lit], sheet: &mut [u8], end: usize) -> usize
    requires room { length lits.now * LONGEST + 2 ≤ end }
    requires within { end ≤ length sheet.old }
    ensures low { end ≤ result + (length lits.now * LONGEST + 2) }
    ensures high { result ≤ end }
    ensures laid { drop result sheet.new ≡ literals_text lits.now ++ drop end sheet.old }
{
    sheet[end - 1] = b'\n';
    sheet[end - 2] = b'0';
    lay_out_literals(lits, sheet, end - 2)
}

/// Lays out literals, a zero and a line feed at the end of a sheet, and says where they begin.
pub(crate) fn lay_out_end(lits: &[Lit], sheet: &mut [u8]) -> usize
    requires room { length lits.now * LONGEST + 2 ≤ length sheet.old }
    ensures within { result ≤ length sheet.new }
    ensures laid { drop result sheet.new ≡ literals_text lits.now }
{
    let end = sheet.len();
    lay_out_line(lits, sheet, end)
}

/// The most literals of a short constraint.
const FEW: usize = 8;

/// Room for the line of a short constraint: its literals, a zero, a line feed, and what it has before its literals.
pub(crate) const LINE: usize = FEW * LONGEST + 4;

/// Lays out what a line has before its literals, and the line, so that it ends there, and says where it begins; nothing where the
/// literals are many.
#[inline(always)]
fn lay_out_short(front: &[u8], lits: &[Lit], sheet: &mut [u8], end: usize) -> Option<usize>
    requires front { length front.now ≤ 2 }
    requires room { LINE ≤ end }
    requires within { end ≤ length sheet.old }
    ensures { IfSome result (λ begin. IsLaidOut (front.now ++ literals_text lits.now) LINE end sheet.old begin sheet.new) }
{
    if lits.len() > FEW {
        return None;
    }
    let line = lay_out_line(lits, sheet, end);
    let begin = line - front.len();
    sheet[begin..line].copy_from_slice(front);
    Some(begin)
}

/// Lays out the line of a constraint so that it ends there, and says where it begins; nothing where it is long.
#[inline(always)]
fn lay_out_constraint(item: ConstraintRef<'_>, sheet: &mut [u8], end: usize) -> Option<usize>
    requires room { LINE ≤ end }
    requires within { end ≤ length sheet.old }
    ensures { IfSome result (λ begin. IsLaidOut (printed_constraint (constraint_of item.entry)) LINE end sheet.old begin sheet.new) }
{
    match item {
        ConstraintRef::Clause(lits) => lay_out_short(b"", lits, sheet, end),
        ConstraintRef::Parity(lits) => lay_out_short(b"x", lits, sheet, end),
        ConstraintRef::Assume(lits) => lay_out_short(b"a ", lits, sheet, end),
    }
}

/// Lays out the lines of constraints at the end of a sheet, the last one first, and says where the first begins; the place of one
/// that is long, where there is one.
pub(crate) fn lay_out_group(
    formula: &Formula,
    from: usize,
    to: usize,
    sheet: &mut [u8],
) -> Result<usize, usize>
    requires order { from ≤ to }
    requires high { to ≤ length formula.now.constraints }
    requires room { (to - from) * LINE ≤ length sheet.old }
    ensures { MatchResult result (λ begin. IsGroupIn formula.now.constraints from to begin sheet.new) (λ long. (from ≤ long) × (long < to)) }
{
    let mut at = sheet.len();
    let mut left = to;
    while left > from {
        left -= 1;
        let Some(begin) = lay_out_constraint(formula.item(left), sheet, at) else {
            return Err(left);
        };
        at = begin;
    }
    Ok(at)
}

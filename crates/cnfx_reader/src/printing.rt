//! Formulas as text.
ghost use Rattle.std.specs.Prelude.{◌<◌, ◌≤◌, ◌++◌, length, flat_map, IfOk};
ghost use Rattle.cx_desk.specs.Calls.{PutsAll};
ghost use Rattle.cx_base.specs.Borrowed.{constraint_of};
ghost use Rattle.cx_texts.specs.FormulaText.{Reads};
ghost use Rattle.cnfx_reader.specs.PrintedFormula.{literal_text, literals_text, printed_constraint, printed_header, printed_formula};
ghost use Rattle.cnfx_reader.specs.Groups.{PutsUpTo, PutsNext};

use crate::lay_out::{LINE, lay_out_end, lay_out_group, lay_out_part};
use cx_base::{ConstraintRef, Formula, Lit};
use cx_desk::{Desk, Failed, Port, put_all, put_pieces};
use itoa::Buffer;

/// The most literals of one constraint that are written in one piece.
const MANY: usize = 256;

/// The most short constraints that are written in one piece.
const GROUP: usize = 32;

/// Room for as many lines of short constraints, or as many literals of a long one.
const SHEET: usize = GROUP * LINE;

/// A sheet that lines are laid out on, one after another. What is on it plays no part: a line is laid out over the one before, so
/// that no room is cleared for it.
#[derive(Drop)]
struct ConstraintSheet {
    bytes: [u8; SHEET],
}

impl ConstraintSheet {
    /// A sheet for lines to come.
    fn new() -> ConstraintSheet {
        ConstraintSheet { bytes: [0; SHEET] }
    }
}

/// Writes a few literals, each with a space after it, in one piece.
fn put_part<D: Desk>(
    sheet: &mut ConstraintSheet,
    desk: &mut D,
    port: Port,
    lits: &[Lit],
) -> Result<(), Failed>
    requires few { length lits.now ≤ MANY }
    ensures { PutsAll port (flat_map literal_text lits.now) (D.outside desk.old) result (D.outside desk.new) }
{
    let sheet = &mut sheet.bytes[..];
    let begin = lay_out_part(lits, sheet);
    put_all(desk, port, &sheet[begin..])
}

/// Writes a few literals, a zero and a line feed, in one piece.
fn put_end<D: Desk>(
    sheet: &mut ConstraintSheet,
    desk: &mut D,
    port: Port,
    lits: &[Lit],
) -> Result<(), Failed>
    requires few { length lits.now ≤ MANY }
    ensures { PutsAll port (literals_text lits.now) (D.outside desk.old) result (D.outside desk.new) }
{
    let sheet = &mut sheet.bytes[..];
    let begin = lay_out_end(lits, sheet);
    put_all(desk, port, &sheet[begin..])
}

/// Writes literals, a zero and a line feed.
fn put_literals<D: Desk>(
    sheet: &mut ConstraintSheet,
    desk: &mut D,
    port: Port,
    lits: &[Lit],
) -> Result<(), Failed>
    ensures { PutsAll port (literals_text lits.now) (D.outside desk.old) result (D.outside desk.new) }
{
    let mut done = 0;
    while lits.len() - done > MANY {
        let next = done + MANY;
        put_part(sheet, desk, port, &lits[done..next])?;
        done = next;
    }
    put_end(sheet, desk, port, &lits[done..])
}

/// Writes what a line has before its integers, and the line.
fn put_line<D: Desk>(
    sheet: &mut ConstraintSheet,
    desk: &mut D,
    port: Port,
    front: &[u8],
    lits: &[Lit],
) -> Result<(), Failed>
    ensures { PutsAll port (front.now ++ literals_text lits.now) (D.outside desk.old) result (D.outside desk.new) }
{
    put_all(desk, port, front)?;
    put_literals(sheet, desk, port, lits)
}

/// Writes the line of a constraint.
fn put_constraint<D: Desk>(
    sheet: &mut ConstraintSheet,
    desk: &mut D,
    port: Port,
    item: ConstraintRef<'_>,
) -> Result<(), Failed>
    ensures { PutsAll port (printed_constraint (constraint_of item.entry)) (D.outside desk.old) result (D.outside desk.new) }
{
    match item {
        ConstraintRef::Clause(lits) => put_line(sheet, desk, port, b"", lits),
        ConstraintRef::Parity(lits) => put_line(sheet, desk, port, b"x", lits),
        ConstraintRef::Assume(lits) => put_line(sheet, desk, port, b"a ", lits),
    }
}

/// The places from one up to another.
#[derive(Clone, Copy, Drop)]
struct PlaceRange {
    from: usize,
    to: usize,
}

/// Writes the lines of the constraints at these places, one by one.
fn put_each<D: Desk>(
    sheet: &mut ConstraintSheet,
    desk: &mut D,
    port: Port,
    formula: &Formula,
    places: PlaceRange,
) -> Result<(), Failed>
    requires order { places.from ≤ places.to }
    requires high { places.to ≤ length formula.now.constraints }
    ensures { PutsUpTo port formula.now.constraints places.from places.to (D.outside desk.old) result (D.outside desk.new) }
{
    for place in places.from..places.to {
        put_constraint(sheet, desk, port, formula.item(place))?;
    }
    Ok(())
}

/// Writes the lines of the next constraints, in one piece where they are short, and says which place comes next.
fn put_next<D: Desk>(
    sheet: &mut ConstraintSheet,
    desk: &mut D,
    port: Port,
    formula: &Formula,
    from: usize,
) -> Result<usize, Failed>
    requires { from < length formula.now.constraints }
    ensures next { IfOk result (λ next. (from < next) × (next ≤ length formula.now.constraints)) }
    ensures puts { PutsNext port formula.now.constraints from (D.outside desk.old) result (D.outside desk.new) }
{
    let to = formula.len().min(from + GROUP);
    match lay_out_group(formula, from, to, &mut sheet.bytes[..]) {
        Ok(begin) => {
            put_all(desk, port, &sheet.bytes[begin..])?;
            Ok(to)
        }
        Err(long) => {
            let to = long + 1;
            put_each(sheet, desk, port, formula, PlaceRange { from, to })?;
            Ok(to)
        }
    }
}

/// Writes the lines of all constraints.
fn put_constraints<D: Desk>(
    sheet: &mut ConstraintSheet,
    desk: &mut D,
    port: Port,
    formula: &Formula,
) -> Result<(), Failed>
    ensures { PutsAll port (flat_map printed_constraint formula.now.constraints) (D.outside desk.old) result (D.outside desk.new) }
{
    let mut done = 0;
    while done < formula.len() {
        done = put_next(sheet, desk, port, formula, done)?;
    }
    Ok(())
}

/// Writes the header: the number of variables, and that of clauses and parities.
fn put_header<D: Desk>(desk: &mut D, port: Port, formula: &Formula) -> Result<(), Failed>
    ensures { PutsAll port (printed_header formula.now) (D.outside desk.old) result (D.outside desk.new) }
{
    let _len = formula.len();
    let mut buffer = Buffer::new();
    let mut other = Buffer::new();
    let vars = buffer.format(formula.vars());
    let count = other.format(formula.clause_count() + formula.parity_count());
    put_pieces(
        desk,
        port,
        &[b"p cnf ", vars.as_bytes(), b" ", count.as_bytes(), b"\n"],
    )
}

/// Writes a formula on a port: a text that is read as the formula.
///
/// It fails only where the desk counted a fault of the port; then the port gained a prefix of the text. It takes no memory.
pub fn put_formula<D: Desk>(desk: &mut D, port: Port, formula: &Formula) -> Result<(), Failed>
    ensures put { PutsAll port (printed_formula formula.now) (D.outside desk.old) result (D.outside desk.new) }
    ensures reads { Reads (printed_formula formula.now) formula.now }
{
    let _vars = formula.vars();
    let _len = formula.len();
    let mut sheet = ConstraintSheet::new();
    put_header(desk, port, formula)?;
    put_constraints(&mut sheet, desk, port, formula)
}

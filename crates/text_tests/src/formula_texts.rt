//! Worked texts: what is refused and where, and what is read.
use crate::expecting::expect;
use cnfx_reader::{ReadRefusal, read_formula};
use cx_base::{ConstraintRef, Formula, Lit};
use std::alloc::{AllocError, Global};

/// Writes the literals, each after a space.
fn show_lits(out: &mut String, lits: &[Lit]) -> Result<(), AllocError> {
    for lit in lits {
        let sign = if lit.is_negative() { "-" } else { "" };
        write!(out, " {sign}{}", lit.var().number())?;
    }
    Ok(())
}

/// Writes a constraint after a colon; a parity has an `x` in front, and an assumption constraint an `a`.
fn show_item(out: &mut String, item: ConstraintRef) -> Result<(), AllocError> {
    let (front, lits) = match item {
        ConstraintRef::Clause(lits) => (":", lits),
        ConstraintRef::Parity(lits) => (": x", lits),
        ConstraintRef::Assume(lits) => (": a", lits),
    };
    out.push_str(front)?;
    show_lits(out, lits)
}

/// Writes each constraint.
fn show_items(out: &mut String, formula: &Formula) -> Result<(), AllocError> {
    for item in formula.items() {
        show_item(out, item)?;
    }
    Ok(())
}

/// The number of variables, and each constraint.
pub(crate) fn show(alloc: Global, formula: &Formula) -> Result<String, AllocError> {
    let vars = formula.vars();
    let mut out = format!(in alloc; "{vars}")?;
    show_items(&mut out, formula)?;
    Ok(out)
}

/// The formula of a text.
fn shown(alloc: Global, text: &[u8]) -> Result<String, ReadRefusal> {
    let formula = read_formula(alloc, text)?;
    Ok(show(alloc, &formula)?)
}

/// The formulas of the texts, each on a line.
fn all_shown(alloc: Global, texts: &[&[u8]]) -> Result<String, ReadRefusal> {
    let mut all = String::new(alloc);
    for text in texts {
        all.push_str(shown(alloc, text)?.as_str())?;
        all.push('\n')?;
    }
    Ok(all)
}

#[test]
fn formulas(rt: HostRuntime) {
    let texts: [&[u8]; 8] = [
        b"p cnf 0 0",
        b"c hi\r\np cnf 1 1\r\n1 0\r\n%\r\n0\r\n",
        b"p cnf 1 2\nx1 1 2 0\n1 0\n",
        b"p cnf 2 1\nx0",
        b"p cnf 2 1\nx -1 2 0",
        b"p cnf 2 1\nx-1 2 0",
        b"p cnf 2 4\nx1 2 0\na -1 3 0 a\n0\n1 0",
        b"p cnf\n00268435455 99999999999999999999\n00000000000000000001\n c 0\n-268435455 -00 0",
    ];
    let wanted =
        "0\n1: 1\n2: x 1 1 2: 1\n2: x\n2: x -1 2\n2: x -1 2\n3: x 1 2: a -1 3: a: 1\n268435455: 1 -268435455:\n";
    expect(&rt, all_shown(rt.alloc(), &texts), wanted);
}

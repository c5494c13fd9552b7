//! Texts of formulas, and what is printed of the solutions of their parities.
use crate::expecting::expect;
use crate::printing::printed_of;
use cnfx_reader::{ReadRefusal, read_formula};
use cx_base::Formula;
use std::alloc::{AllocError, Global};
use std::test::Fail;

/// Appends what is printed of a formula.
fn add_printed(
    alloc: Global,
    formula: &Formula,
    room: usize,
    told: &mut String,
) -> Result<(), AllocError> {
    let printed = printed_of(alloc, formula, room)?;
    told.push_str(std::str::from_utf8(&printed).unwrap_or("no text"))
}

/// As `add_printed`, of the formula of a text.
fn add_printed_of(
    alloc: Global,
    text: &str,
    room: usize,
    told: &mut String,
) -> Result<(), ReadRefusal> {
    let formula = read_formula(alloc, text.as_bytes())?;
    Ok(add_printed(alloc, &formula, room, told)?)
}

/// What is printed of the formula of each text, one after another.
fn printed_of_all(alloc: Global, texts: &[&str], room: usize) -> Result<String, ReadRefusal> {
    let mut told = String::new(alloc);
    for text in texts {
        add_printed_of(alloc, text, room, &mut told)?;
    }
    Ok(told)
}

#[test]
fn spaces_are_printed(rt: HostRuntime) {
    let texts = [
        "p cnf 3 1\nx1 2 0\n",
        "p cnf 3 3\nx1 2 0\nx2 3 0\nx1 3 0\n",
        "p cnf 3 3\nx1 2 0\nx2 3 0\nx-1 3 0\n",
        "p cnf 0 0\n",
        "p cnf 1 1\nx0\n",
        "p cnf 1 1\nx1 0\n",
        "p cnf 2 1\nx1 1 0\n",
        "p cnf 2 1\nx1 -1 2 0\n",
        "p cnf 2 3\n1 0\n-1 0\na 2 0\n",
    ];
    let told = printed_of_all(rt.alloc(), &texts, 1000);
    let wanted = "\
s AFFINE 2
t 1 -2 -3 0
b 1 2 0
b 3 0
none
s AFFINE 1
t -1 2 -3 0
b 1 2 3 0
s AFFINE 0
t 0
none
s AFFINE 0
t 1 0
none
s AFFINE 1
t -1 -2 0
b 1 0
s AFFINE 2
t -1 -2 0
b 1 0
b 2 0
";
    expect(&rt, told, wanted);
}

/// The lines of the point and of the vectors where all of this many variables but the first two are in no parity.
fn put_lines(vars: u32, point: &mut String, vectors: &mut String) -> Result<(), AllocError> {
    for var in 3..=vars {
        write!(point, " -{var}")?;
        writeln!(vectors, "b {var} 0")?;
    }
    Ok(())
}

/// What is to be printed of the one parity of variables 1 and 2 over this many variables, at least two.
fn wanted_of_one(alloc: Global, vars: u32) -> Result<String, AllocError> {
    let mut point = String::new(alloc);
    let mut vectors = String::new(alloc);
    put_lines(vars, &mut point, &mut vectors)?;
    let dimension = vars.saturating_sub(1);
    format!(in alloc; "s AFFINE {dimension}\nt 1 -2{point} 0\nb 1 2 0\n{vectors}")
}

/// Whether that is printed of ten thousand variables.
fn is_printed_of_one(alloc: Global) -> Result<bool, ReadRefusal> {
    let wanted = wanted_of_one(alloc, 10_000)?;
    let told = printed_of_all(alloc, &["p cnf 10000 1\nx1 2 0\n"], 200_000)?;
    Ok(told.as_str() == wanted.as_str())
}

#[test]
fn variables_in_no_parity_are_free(rt: HostRuntime) -> Result<(), Fail> {
    let is_right = is_printed_of_one(rt.alloc())?;
    assert!(rt; is_right);
    Ok(())
}

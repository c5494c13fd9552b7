//! Texts of formulas, and what is printed of their clauses.
use crate::printing::printed;
use cnfx_reader::read_formula;
use std::alloc::Global;
use std::test::Fail;
use xor_blast::blast;

/// What is printed of a text's formula in clauses, or why there is none, on a line.
fn in_clauses(alloc: Global, text: &[u8]) -> Result<Vec<u8>, Fail> {
    let formula = read_formula(alloc, text)?;
    match &blast(alloc, &formula) {
        Ok(made) => Ok(printed(alloc, made)?),
        Err(refusal) => {
            let why = format!(in alloc; "{refusal}\n")?;
            Ok(why.as_bytes().to_vec(alloc)?)
        }
    }
}

/// As `in_clauses`, of each text, one after another.
fn all_in_clauses(alloc: Global, texts: &[&[u8]]) -> Result<Vec<u8>, Fail> {
    let mut all = Vec::new(alloc);
    for text in texts {
        all.extend_from_slice(&in_clauses(alloc, text)?)?;
    }
    Ok(all)
}

#[test]
fn formulas_in_clauses(rt: HostRuntime) -> Result<(), Fail> {
    let texts: [&[u8]; 8] = [
        b"p cnf 2 1\nx1 2 0",
        b"p cnf 5 1\nx1 2 3 4 5 0",
        b"p cnf 1 1\nx1 1 0",
        b"p cnf 268435455 2\n1 0\nx1 2 3 4 5 0",
        b"p cnf 1 1\nx -1 1 0",
        b"p cnf 3 2\nx3 -1 2 1 2 0\na -1 2 0\n2 2 0",
        b"p cnf 7 2\nx7 6 5 4 3 2 1 0\nx1 2 3 4 5 0",
        b"p cnf 268435454 3\nx1 2 3 4 5 0\nx1 2 3 4 5 0\nx0",
    ];
    let text = all_in_clauses(rt.alloc(), &texts)?;
    let wanted = "\
p cnf 2 2
1 2 0
-1 -2 0
p cnf 6 12
1 2 3 -6 0
1 2 -3 6 0
1 -2 3 6 0
1 -2 -3 -6 0
-1 2 3 6 0
-1 2 -3 -6 0
-1 -2 3 -6 0
-1 -2 -3 6 0
6 4 5 0
6 -4 -5 0
-6 4 -5 0
-6 -4 5 0
p cnf 1 1
0
variable limit at constraint 2
p cnf 1 0
p cnf 3 2
-3 0
a -1 2 0
2 2 0
p cnf 10 32
1 2 3 -8 0
1 2 -3 8 0
1 -2 3 8 0
1 -2 -3 -8 0
-1 2 3 8 0
-1 2 -3 -8 0
-1 -2 3 -8 0
-1 -2 -3 8 0
8 4 5 -9 0
8 4 -5 9 0
8 -4 5 9 0
8 -4 -5 -9 0
-8 4 5 9 0
-8 4 -5 -9 0
-8 -4 5 -9 0
-8 -4 -5 9 0
9 6 7 0
9 -6 -7 0
-9 6 -7 0
-9 -6 7 0
1 2 3 -10 0
1 2 -3 10 0
1 -2 3 10 0
1 -2 -3 -10 0
-1 2 3 10 0
-1 2 -3 -10 0
-1 -2 3 -10 0
-1 -2 -3 10 0
10 4 5 0
10 -4 -5 0
-10 4 -5 0
-10 -4 5 0
variable limit at constraint 2
";
    assert_eq!(rt; std::str::from_utf8(&text).unwrap_or(""), wanted);
    Ok(())
}

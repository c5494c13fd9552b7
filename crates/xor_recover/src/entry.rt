//! Clauses in the order in which those of one parity are side by side.
ghost use Rattle.std.specs.Prelude.{◌≡◌, ◌≤◌, length, map, not};
ghost use Rattle.cx_base.specs.Parity.{odd_sum};
ghost use Rattle.xor_recover.specs.Rows.{row};
ghost use Rattle.xor_recover.specs.Entries.{row_of};

use arrayvec::ArrayVec;
use cx_base::Lit;

/// The most variables of a recovered parity.
pub(crate) const WIDEST: usize = 6;

/// The parity that a clause may be needed for: its rising variables and its right side.
#[derive(PartialEq, Eq, PartialOrd, Ord, Drop)]
pub(crate) struct Key {
    pub vars: ArrayVec<u32, 6>,
    pub right: bool,
}

/// A clause: the parity, the signs of its literals by rising variables, and its number.
#[derive(PartialEq, Eq, PartialOrd, Ord, Drop)]
pub(crate) struct ClauseEntry {
    pub key: Key,
    pub signs: ArrayVec<bool, 6>,
    pub number: u64,
}

impl Key {
    /// The parity that literals by rising variables may be needed for.
    pub fn of(lits: &[Lit]) -> Key
        requires { length lits.now ≤ 6 }
        ensures vars { result.vars.items ≡ map (λ l. l.variable) lits.now }
        ensures right { result.right ≡ not (odd_sum (map (λ l. l.negative) lits.now)) }
    {
        let mut vars = ArrayVec::new();
        let mut right = true;
        for lit in lits {
            vars.push(lit.var().number());
            right = right != lit.is_negative();
        }
        Key { vars, right }
    }
}

impl ClauseEntry {
    /// The entry of literals by rising variables.
    pub fn new(lits: &[Lit], number: u64) -> ClauseEntry
        requires { length lits.now ≤ 6 }
        ensures { row_of result ≡ row lits.now number }
    {
        let mut vars = ArrayVec::new();
        let mut signs = ArrayVec::new();
        let mut right = true;
        for lit in lits {
            vars.push(lit.var().number());
            signs.push(lit.is_negative());
            right = right != lit.is_negative();
        }
        ClauseEntry {
            key: Key { vars, right },
            signs,
            number,
        }
    }
}

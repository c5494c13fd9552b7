//! The clauses of a piece.
ghost use Rattle.std.specs.Prelude.{◌≡◌, ℕ, ◌≤◌, ◌<◌, ◌^◌, [], ◌∷◌, ◌++◌, map, length, OnOk};
ghost use Rattle.std.specs.List.{All};
ghost use Rattle.cx_base.specs.Parity.{odd_sum};
ghost use Rattle.cx_base.specs.declared.constraint.Constraint.TheVariants as constraint;
ghost use Rattle.xor_blast.specs.Pieces.{falsified, clauses_of_piece};
ghost use Rattle.xor_blast.specs.Bits.{bits_of};
ghost use Rattle.xor_blast.specs.Rising.{IsVariable};

use cx_base::{FormulaBuilder, Lit, Var};
use std::alloc::AllocError;

/// Adds the clause of the literals that are false under the assignment of this number.
fn push_falsified(
    builder: &mut FormulaBuilder,
    variables: &[u32],
    number: usize,
) -> Result<(), AllocError>
    requires ended { builder.old.unfinished ≡ [] }
    requires four { length variables.now ≤ 4 }
    requires variables { All IsVariable variables.now }
    ensures { OnOk result (builder.new ≡ record { constraints = builder.old.constraints ++ constraint.Clause (falsified variables.now (bits_of (length variables.now) number)) ∷ []; unfinished = [] }) }
{
    for place in 0..variables.len() {
        let negative = (number >> (variables.len() - 1 - place)) % 2 == 1;
        builder.push(Lit::new(Var::new(variables[place]), negative))?;
    }
    builder.end_clause()
}

/// Whether an odd number of the bits is set, of which at most four are.
fn is_sum_odd(number: usize) -> bool
    requires { number < 16 }
    ensures { (k : ℕ) → k ≤ 4 → number < 2 ^ k → result ≡ odd_sum (bits_of k number) }
{
    (number + number / 2 + number / 4 + number / 8) % 2 == 1
}

/// Adds a clause for each assignment of the wrong sum, in counting order.
pub(crate) fn push_piece(
    builder: &mut FormulaBuilder,
    variables: &[u32],
    right: bool,
) -> Result<(), AllocError>
    requires ended { builder.old.unfinished ≡ [] }
    requires four { length variables.now ≤ 4 }
    requires variables { All IsVariable variables.now }
    ensures { OnOk result (builder.new ≡ record { constraints = builder.old.constraints ++ map constraint.Clause (clauses_of_piece (record { variables = variables.now; right_side = right })); unfinished = [] }) }
{
    for number in 0..1usize << variables.len() {
        if is_sum_odd(number) != right {
            push_falsified(builder, variables, number)?;
        }
    }
    Ok(())
}

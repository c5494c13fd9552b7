//! A formula in clauses.
ghost use Rattle.std.specs.Prelude.{◌≡◌, ℕ, ◌≤◌, ◌++◌, [], IfOk, IfErr, OnOk};
ghost use Rattle.cx_base.specs.Problem.{AreWithin, literals_of, parities_of};
ghost use Rattle.cx_base.specs.Borrowed.{constraint_of};
ghost use Rattle.cx_base.specs.declared.literal.TheConstants.{MAX_VARIABLE};
ghost use Rattle.xor_blast.specs.Blasted.{blasted, PassesLimit};
ghost use Rattle.xor_blast.specs.Extending.{ExtendInOneWay};
ghost use Rattle.xor_blast.specs.Adding.{AddsConstraint, IsRefusal};

use crate::pieces::push_parity;
use crate::refusal::BlastRefusal;
use cx_base::{ConstraintRef, Formula, FormulaBuilder, Lit};
use std::alloc::{AllocError, Global};

/// Adds literals to the open constraint.
fn push_literals(builder: &mut FormulaBuilder, lits: &[Lit]) -> Result<(), AllocError>
    ensures { OnOk result (builder.new ≡ record builder.old { unfinished = builder.old.unfinished ++ lits.now }) }
{
    for lit in lits {
        builder.push(*lit)?;
    }
    Ok(())
}

/// Adds a constraint in clauses: of a parity its clauses, and otherwise the constraint itself.
fn push_constraint(
    builder: &mut FormulaBuilder,
    variables: &mut Vec<u32>,
    item: ConstraintRef<'_>,
    vars: u32,
) -> Result<Option<u32>, AllocError>
    requires ended { builder.old.unfinished ≡ [] }
    requires within { AreWithin MAX_VARIABLE (literals_of (constraint_of item)) }
    requires few { vars ≤ MAX_VARIABLE }
    ensures { IfOk result (λ o. (n : ℕ) → AreWithin n (literals_of (constraint_of item.entry)) → AddsConstraint builder.old builder.new n vars (constraint_of item.entry) o) }
{
    match item {
        ConstraintRef::Clause(lits) => {
            push_literals(builder, lits)?;
            builder.end_clause()?;
            Ok(Some(vars))
        }
        ConstraintRef::Parity(lits) => push_parity(builder, variables, lits, vars),
        ConstraintRef::Assume(lits) => {
            push_literals(builder, lits)?;
            builder.end_assume()?;
            Ok(Some(vars))
        }
    }
}

/// The formula with clauses in place of each parity.
///
/// A parity of more than four variables is cut into pieces by new variables, numbered after those of the formula. Values of the
/// formula's variables meet it just where one list of values that begins with them meets the clauses, and then it is the
/// only one.
pub fn blast(alloc: Global, formula: &Formula) -> Result<Formula, BlastRefusal>
    ensures made { IfOk result (λ made. made ≡ blasted formula.now) }
    ensures no_parity { IfOk result (λ made. parities_of made.constraints ≡ []) }
    ensures extends { IfOk result (λ made. ExtendInOneWay formula.now made) }
    ensures within { IfOk result (λ made. (number : ℕ) → ¬ PassesLimit formula.now number) }
    ensures refused { IfErr result (IsRefusal formula.now) }
{
    let mut builder = FormulaBuilder::new(alloc);
    let mut variables = Vec::new(alloc);
    let mut vars = formula.vars();
    for place in 0..formula.len() {
        let item = formula.item(place);
        let Some(next) = push_constraint(&mut builder, &mut variables, item, vars)? else {
            return Err(BlastRefusal::Limit(place as u64 + 1));
        };
        vars = next;
    }
    Ok(builder.finish(vars))
}

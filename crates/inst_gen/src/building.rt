//! The formula of a planted instance.
ghost use Rattle.std.specs.Prelude.{◌≡◌, ◌≤◌, ◌+◌, ◌%◌, ◌==◌, ◌%◌, ◌==◌, ◌++◌, ◌∷◌, [], map, flat_map, length, IfOk, OnOk};
ghost use Rattle.cx_base.specs.Problem.{greatest_variable};
ghost use Rattle.cx_base.specs.Literals.{positive_of, negative_of};
ghost use Rattle.cx_base.specs.declared.literal.TheConstants.{MAX_VARIABLE};
ghost use Rattle.cx_base.specs.declared.constraint.Constraint.TheVariants as constraint;
ghost use Rattle.inst_gen.specs.Planting.{planted_formula, instance_of, met_part, unmet_part};
ghost use Rattle.inst_gen.specs.Triples.{literals_in};

use crate::drawing::{draw_clauses, draw_parities, draw_values};
use crate::kind::InstanceKind;
use crate::triple::Triple;
use cx_base::{Formula, FormulaBuilder, Lit, Var};
use rand_core::SeedableRng;
use rand_xoshiro::SplitMix64;
use std::alloc::{AllocError, Global};

/// Adds a parity for each triple.
fn push_parities(builder: &mut FormulaBuilder, parities: &[Triple]) -> Result<(), AllocError>
    requires { builder.old.unfinished ≡ [] }
    ensures { OnOk result (builder.new ≡ record { constraints = builder.old.constraints ++ map constraint.Parity (map literals_in parities.now); unfinished = [] }) }
{
    for parity in parities {
        parity.push_to(builder)?;
        builder.end_parity()?;
    }
    Ok(())
}

/// Adds a clause for each triple.
fn push_clauses(builder: &mut FormulaBuilder, clauses: &[Triple]) -> Result<(), AllocError>
    requires { builder.old.unfinished ≡ [] }
    ensures { OnOk result (builder.new ≡ record { constraints = builder.old.constraints ++ map constraint.Clause (map literals_in clauses.now); unfinished = [] }) }
{
    for clause in clauses {
        clause.push_to(builder)?;
        builder.end_clause()?;
    }
    Ok(())
}

/// Adds the parity of all literals of the parities and of a further variable, which it makes true.
fn push_sum(
    builder: &mut FormulaBuilder,
    further: Var,
    parities: &[Triple],
) -> Result<(), AllocError>
    requires { builder.old.unfinished ≡ [] }
    ensures { OnOk result (builder.new ≡ record { constraints = builder.old.constraints ++ constraint.Parity (flat_map (λ lits. lits) (map literals_in parities.now) ++ record { variable = further; negative = length parities.now % 2 == 1 } ∷ []) ∷ []; unfinished = [] }) }
{
    for parity in parities {
        parity.push_to(builder)?;
    }
    builder.push(Lit::new(further, parities.len() % 2 == 1))?;
    builder.end_parity()
}

/// Adds the clause that excludes values of 1 and 2 where the further variable is true.
fn push_exclusion(
    builder: &mut FormulaBuilder,
    further: Var,
    one: bool,
    two: bool,
) -> Result<(), AllocError>
    requires { builder.old.unfinished ≡ [] }
    ensures { OnOk result (builder.new ≡ record { constraints = builder.old.constraints ++ constraint.Clause (negative_of further ∷ record { variable = 1; negative = one } ∷ record { variable = 2; negative = two } ∷ []) ∷ []; unfinished = [] }) }
{
    let excluding = Triple {
        first: Lit::new(further, true),
        second: Lit::new(Var::new(1), one),
        third: Lit::new(Var::new(2), two),
    };
    excluding.push_to(builder)?;
    builder.end_clause()
}

/// Adds what no values meet together with the parities.
fn push_contradiction(
    builder: &mut FormulaBuilder,
    further: Var,
    parities: &[Triple],
) -> Result<(), AllocError>
    requires { builder.old.unfinished ≡ [] }
    ensures { OnOk result (builder.new ≡ record { constraints = builder.old.constraints ++ unmet_part further (map literals_in parities.now); unfinished = [] }) }
{
    push_sum(builder, further, parities)?;
    push_exclusion(builder, further, false, false)?;
    push_exclusion(builder, further, false, true)?;
    push_exclusion(builder, further, true, false)?;
    push_exclusion(builder, further, true, true)
}

/// The formula of a kind's parities and clauses.
fn instance(
    alloc: Global,
    kind: InstanceKind,
    size: u32,
    parities: &[Triple],
    clauses: &[Triple],
) -> Result<Formula, AllocError>
    requires room { size + 1 ≤ MAX_VARIABLE }
    ensures { let whole = instance_of kind size (map literals_in parities.now) (map literals_in clauses.now) in IfOk result (λ f. f ≡ record { variables = greatest_variable whole.variables whole.constraints; constraints = whole.constraints }) }
{
    let mut builder = FormulaBuilder::new(alloc);
    push_parities(&mut builder, parities)?;
    push_clauses(&mut builder, clauses)?;
    match kind {
        InstanceKind::Even => Ok(builder.finish(size)),
        InstanceKind::Odd => {
            push_contradiction(&mut builder, Var::new(size + 1), parities)?;
            Ok(builder.finish(size + 1))
        }
    }
}

/// The planted instance of a kind, a size of 4 to 2000 and a seed, from the words that SplitMix64 gives in order.
///
/// Values for `size` variables are drawn, then a parity of three literals for each fourth variable and `size`
/// clauses of three literals, all of which the values meet. `Even` is the formula of these. `Odd` has a further
/// variable, which a parity over all the parities makes true, and four clauses that no values meet where it is.
/// An `Err` means that memory ran out.
pub fn planted(
    alloc: Global,
    kind: InstanceKind,
    size: u32,
    seed: u64,
) -> Result<Formula, AllocError>
    requires low { 4 ≤ size }
    requires high { size ≤ 2000 }
    ensures { IfOk result (λ f. f ≡ planted_formula kind size seed) }
{
    let mut generator = SplitMix64::seed_from_u64(seed);
    let values = draw_values(alloc, size, &mut generator)?;
    let parities = draw_parities(alloc, &values, &mut generator)?;
    let clauses = draw_clauses(alloc, &values, &mut generator)?;
    instance(alloc, kind, size, &parities, &clauses)
}

//! The plan of a command, from the values of its arguments.
ghost use Rattle.std.specs.Prelude.{◌≡◌, Some, IfOk};
ghost use Rattle.clap.specs.Words.{first_of, rows_of, found_of};
ghost use Rattle.cx_words.specs.Given.{lent, IsWanted, two_names, three_names, logged, solve_of, check_of, elab_of, model_of, demo_of, trim_of, blast_of, affine_of, planned};

use crate::numbers::{kind, options, seed, size};
use crate::{Name, Plan, PlanRefusal};
use clap::ArgMatches;
use std::alloc::{AllocError, Global};

fn name_of(alloc: Global, text: &str) -> Result<Name, AllocError>
    ensures { IfOk result (λ n. n ≡ text.now) }
{
    Ok(Name::from_string(String::from_str(alloc, text)?))
}

/// Two names, which differ.
fn pair(alloc: Global, first: &str, second: &str) -> Result<(Name, Name), PlanRefusal>
    ensures { IsWanted (two_names (Some first.now) (Some second.now)) result }
{
    if first == second {
        return Err(PlanRefusal::Usage);
    }
    Ok((name_of(alloc, first)?, name_of(alloc, second)?))
}

/// Three names, no two of them equal.
fn triple(
    alloc: Global,
    first: &str,
    second: &str,
    third: &str,
) -> Result<(Name, Name, Name), PlanRefusal>
    ensures { IsWanted (three_names (Some first.now) (Some second.now) (Some third.now)) result }
{
    if first == second || first == third || second == third {
        return Err(PlanRefusal::Usage);
    }
    Ok((
        name_of(alloc, first)?,
        name_of(alloc, second)?,
        name_of(alloc, third)?,
    ))
}

/// The formula, and the log where one is given, which differs from it.
fn logged(
    alloc: Global,
    formula: &str,
    log: Option<&str>,
) -> Result<(Name, Option<Name>), PlanRefusal>
    ensures { IsWanted (logged (Some formula.now) (lent log.entry)) result }
{
    match log {
        None => Ok((name_of(alloc, formula)?, None)),
        Some(log) => {
            let (formula, log) = pair(alloc, formula, log)?;
            Ok((formula, Some(log)))
        }
    }
}

fn solve(
    alloc: Global,
    formula: Option<&str>,
    log: Option<&str>,
    budget: Option<&str>,
    inprocess: Option<&str>,
) -> Result<Plan, PlanRefusal>
    ensures { IsWanted (solve_of (lent formula.entry) (lent log.entry) (lent budget.entry) (lent inprocess.entry)) result }
{
    let Some(formula) = formula else {
        return Err(PlanRefusal::Usage);
    };
    let (formula, log) = logged(alloc, formula, log)?;
    let Some(options) = options(budget, inprocess) else {
        return Err(PlanRefusal::Usage);
    };
    Ok(Plan::Solve {
        formula,
        log,
        options,
    })
}

fn check(alloc: Global, formula: Option<&str>, proof: Option<&str>) -> Result<Plan, PlanRefusal>
    ensures { IsWanted (check_of (lent formula.entry) (lent proof.entry)) result }
{
    let (Some(formula), Some(proof)) = (formula, proof) else {
        return Err(PlanRefusal::Usage);
    };
    let (formula, proof) = pair(alloc, formula, proof)?;
    Ok(Plan::Check { formula, proof })
}

fn elab(
    alloc: Global,
    formula: Option<&str>,
    log: Option<&str>,
    proof: Option<&str>,
) -> Result<Plan, PlanRefusal>
    ensures { IsWanted (elab_of (lent formula.entry) (lent log.entry) (lent proof.entry)) result }
{
    let (Some(formula), Some(log), Some(proof)) = (formula, log, proof) else {
        return Err(PlanRefusal::Usage);
    };
    let (formula, log, proof) = triple(alloc, formula, log, proof)?;
    Ok(Plan::Elab {
        formula,
        log,
        proof,
    })
}

fn model(alloc: Global, formula: Option<&str>, answer: Option<&str>) -> Result<Plan, PlanRefusal>
    ensures { IsWanted (model_of (lent formula.entry) (lent answer.entry)) result }
{
    let (Some(formula), Some(answer)) = (formula, answer) else {
        return Err(PlanRefusal::Usage);
    };
    let (formula, answer) = pair(alloc, formula, answer)?;
    Ok(Plan::Model { formula, answer })
}

fn demo(kind_word: Option<&str>, size_word: Option<&str>, seed_word: Option<&str>) -> Option<Plan>
    ensures { result ≡ demo_of (lent kind_word.entry) (lent size_word.entry) (lent seed_word.entry) }
{
    Some(Plan::Demo {
        kind: kind(kind_word)?,
        size: size(size_word)?,
        seed: seed(seed_word)?,
    })
}

fn trim(
    alloc: Global,
    formula: Option<&str>,
    proof: Option<&str>,
    out: Option<&str>,
) -> Result<Plan, PlanRefusal>
    ensures { IsWanted (trim_of (lent formula.entry) (lent proof.entry) (lent out.entry)) result }
{
    let (Some(formula), Some(proof), Some(out)) = (formula, proof, out) else {
        return Err(PlanRefusal::Usage);
    };
    let (formula, proof, out) = triple(alloc, formula, proof, out)?;
    Ok(Plan::Trim {
        formula,
        proof,
        out,
    })
}

fn blast(alloc: Global, formula: Option<&str>, out: Option<&str>) -> Result<Plan, PlanRefusal>
    ensures { IsWanted (blast_of (lent formula.entry) (lent out.entry)) result }
{
    let (Some(formula), Some(out)) = (formula, out) else {
        return Err(PlanRefusal::Usage);
    };
    let (formula, out) = pair(alloc, formula, out)?;
    Ok(Plan::Blast { formula, out })
}

fn affine(alloc: Global, formula: Option<&str>) -> Result<Plan, PlanRefusal>
    ensures { IsWanted (affine_of (lent formula.entry)) result }
{
    let Some(formula) = formula else {
        return Err(PlanRefusal::Usage);
    };
    Ok(Plan::Affine {
        formula: name_of(alloc, formula)?,
    })
}

/// The value of an argument.
fn value<'a>(found: &ArgMatches<'a>, id: &str) -> Option<&'a str>
    ensures { lent result ≡ first_of id.now (rows_of (found_of found.now)) }
{
    found.get_str(id)
}

/// The plan of the command of this name, where it has the name of one.
pub(crate) fn planned(
    alloc: Global,
    command: &str,
    found: &ArgMatches<'_>,
) -> Result<Plan, PlanRefusal>
    ensures { IsWanted (planned command.now (rows_of (found_of found.now))) result }
{
    let formula = value(found, "formula");
    let log = value(found, "log");
    let proof = value(found, "proof");
    match command {
        "solve" => solve(
            alloc,
            formula,
            proof,
            value(found, "conflicts"),
            value(found, "inprocess"),
        ),
        "check" => check(alloc, formula, proof),
        "elab" => elab(alloc, formula, log, proof),
        "model" => model(alloc, formula, value(found, "answer")),
        "demo" => demo(
            value(found, "kind"),
            value(found, "size"),
            value(found, "seed"),
        )
        .ok_or(PlanRefusal::Usage),
        "trim" => trim(alloc, formula, proof, value(found, "out")),
        "blast" => blast(alloc, formula, value(found, "out")),
        "affine" => affine(alloc, formula),
        _ => Err(PlanRefusal::Usage),
    }
}

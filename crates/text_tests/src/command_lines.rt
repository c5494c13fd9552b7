//! Command lines, and what they ask for.
use crate::expecting::expect;
use cx_words::{InstanceKind, Name, Plan, PlanRefusal, SearchOptions, plan};
use std::alloc::{AllocError, Global};

/// Command lines with one blank between two words, and the plans that they ask for.
static TAKEN: [(&str, &str); 58] = [
    ("cxsat solve f", "solve f 1000000"),
    ("cxsat solve -", "solve - 1000000"),
    ("cxsat solve f --proof l", "solve f 1000000 to l"),
    ("cxsat solve --proof l f", "solve f 1000000 to l"),
    ("cxsat solve - --proof l", "solve - 1000000 to l"),
    ("cxsat solve --proof l -", "solve - 1000000 to l"),
    ("cxsat solve f --conflicts 7", "solve f 7"),
    ("cxsat solve --conflicts 7 f", "solve f 7"),
    ("cxsat solve f --proof l --conflicts 7", "solve f 7 to l"),
    ("cxsat solve f --conflicts 7 --proof l", "solve f 7 to l"),
    ("cxsat solve --proof l f --conflicts 7", "solve f 7 to l"),
    ("cxsat solve --conflicts 7 f --proof l", "solve f 7 to l"),
    ("cxsat solve --proof l --conflicts 7 f", "solve f 7 to l"),
    ("cxsat solve --conflicts 7 --proof l f", "solve f 7 to l"),
    ("cxsat solve f --conflicts 1", "solve f 1"),
    ("cxsat solve f --conflicts 007", "solve f 7"),
    (
        "cxsat solve f --conflicts 1000000000000000000",
        "solve f 1000000000000000000",
    ),
    (
        "cxsat solve f --conflicts 0000000000000000000000000000000000000009",
        "solve f 9",
    ),
    ("cxsat solve f --inprocess", "solve f 1000000 tidying"),
    ("cxsat solve --inprocess f", "solve f 1000000 tidying"),
    ("cxsat solve - --inprocess", "solve - 1000000 tidying"),
    (
        "cxsat solve --proof l --inprocess f --conflicts 7",
        "solve f 7 tidying to l",
    ),
    (
        "cxsat solve --inprocess --conflicts 7 --proof l f",
        "solve f 7 tidying to l",
    ),
    (
        "cxsat solve f --proof l --conflicts 7 --inprocess",
        "solve f 7 tidying to l",
    ),
    ("cxsat solve solve", "solve solve 1000000"),
    ("cxsat solve f --proof=l", "solve f 1000000 to l"),
    ("cxsat solve --conflicts=7 f", "solve f 7"),
    ("cxsat check f p", "check f p"),
    ("cxsat check - p", "check - p"),
    ("cxsat check p f", "check p f"),
    ("cxsat check f -", "check f -"),
    ("cxsat check f ", "check f "),
    ("cxsat check -- f p", "check f p"),
    ("cxsat check -- -f p", "check -f p"),
    ("cxsat elab f l p", "elab f l p"),
    ("cxsat elab - l p", "elab - l p"),
    ("cxsat model f a", "model f a"),
    ("cxsat model - a", "model - a"),
    ("cxsat demo even 60 1", "demo even 60 1"),
    ("cxsat demo odd 60 1", "demo odd 60 1"),
    ("cxsat demo even 4 0", "demo even 4 0"),
    ("cxsat demo odd 2000 0", "demo odd 2000 0"),
    ("cxsat demo even 0060 0001", "demo even 60 1"),
    (
        "cxsat demo odd 4 18446744073709551615",
        "demo odd 4 18446744073709551615",
    ),
    ("cxsat trim f p o", "trim f p o"),
    ("cxsat trim - p o", "trim - p o"),
    ("cxsat trim o p f", "trim o p f"),
    ("cxsat trim -- f -p -o", "trim f -p -o"),
    ("cxsat trim trim blast affine", "trim trim blast affine"),
    ("cxsat blast f o", "blast f o"),
    ("cxsat blast - o", "blast - o"),
    ("cxsat blast o f", "blast o f"),
    ("cxsat blast -- -f o", "blast -f o"),
    ("cxsat affine f", "affine f"),
    ("cxsat affine -", "affine -"),
    ("cxsat affine -- -f", "affine -f"),
    (" solve f", "solve f 1000000"),
    ("--help solve f", "solve f 1000000"),
];

/// Command lines that ask for nothing.
static REFUSED: [&str; 91] = [
    "",
    "cxsat",
    "cxsat --help",
    "cxsat -h",
    "cxsat help",
    "cxsat help solve",
    "cxsat --version",
    "cxsat solve --help",
    "cxsat solve f --help",
    "cxsat prove f",
    "cxsat Solve f",
    "cxsat --proof l solve f",
    "cxsat solve",
    "cxsat solve --proof l",
    "cxsat solve f g",
    "cxsat solve f --log l",
    "cxsat solve f -p l",
    "cxsat solve -f",
    "cxsat solve f --proof",
    "cxsat solve f --conflicts",
    "cxsat solve f --proof --conflicts 7",
    "cxsat solve f --proof -l",
    "cxsat solve f --proof l --proof l",
    "cxsat solve f --proof l --proof m",
    "cxsat solve f --conflicts 7 --conflicts 7",
    "cxsat solve f --inprocess --inprocess",
    "cxsat solve f --inprocess=true",
    "cxsat solve f --inprocess true",
    "cxsat solve f --proof --inprocess",
    "cxsat solve f --inproc",
    "cxsat solve --inprocess",
    "cxsat --inprocess solve f",
    "cxsat check f p --inprocess",
    "cxsat solve f --proof f",
    "cxsat solve - --proof -",
    "cxsat solve f --conflicts 0",
    "cxsat solve f --conflicts 1000000000000000001",
    "cxsat solve f --conflicts 18446744073709551616",
    "cxsat solve f --conflicts 1000000000000000000000000000000000000000",
    "cxsat solve f --conflicts +7",
    "cxsat solve f --conflicts -7",
    "cxsat solve f --conflicts 7x",
    "cxsat solve f --conflicts 1e3",
    "cxsat solve f --conflicts ",
    "cxsat check f",
    "cxsat check f p q",
    "cxsat check f f",
    "cxsat check -f p",
    "cxsat check f -p",
    "cxsat check f --proof p",
    "cxsat elab f l",
    "cxsat elab f f p",
    "cxsat elab f l f",
    "cxsat elab f l l",
    "cxsat model f",
    "cxsat model f f",
    "cxsat demo even 60",
    "cxsat demo even 60 1 1",
    "cxsat demo Even 60 1",
    "cxsat demo 60 even 1",
    "cxsat demo even 3 1",
    "cxsat demo even 2001 1",
    "cxsat demo odd +60 1",
    "cxsat demo odd 60 -1",
    "cxsat demo odd 60 18446744073709551616",
    "cxsat trim",
    "cxsat trim f p",
    "cxsat trim f p o q",
    "cxsat trim f f o",
    "cxsat trim f p f",
    "cxsat trim f p p",
    "cxsat trim - p -",
    "cxsat trim -f p o",
    "cxsat trim f -p o",
    "cxsat trim f p -o",
    "cxsat trim f --proof p o",
    "cxsat trim --help",
    "cxsat blast",
    "cxsat blast f",
    "cxsat blast f o p",
    "cxsat blast f f",
    "cxsat blast - -",
    "cxsat blast -f o",
    "cxsat blast f -o",
    "cxsat blast f --out o",
    "cxsat affine",
    "cxsat affine f g",
    "cxsat affine -f",
    "cxsat affine --formula f",
    "cxsat Affine f",
    "cxsat affine --help",
];

/// The words of a line; an empty one has none.
fn words_of(alloc: Global, line: &str) -> Result<Vec<String>, AllocError> {
    let mut words = Vec::new(alloc);
    if line.is_empty() {
        return Ok(words);
    }
    for word in line.split(' ') {
        words.push(String::from_str(alloc, word)?)?;
    }
    Ok(words)
}

fn kind_name(kind: InstanceKind) -> &'static str {
    match kind {
        InstanceKind::Even => "even",
        InstanceKind::Odd => "odd",
    }
}

/// Appends a name after a blank.
fn add_name(line: &mut String, name: &Name) -> Result<(), AllocError> {
    line.push(' ')?;
    line.push_str(name.as_str())
}

/// A word and names, with a blank between two.
fn line(alloc: Global, word: &str, names: &[&Name]) -> Result<String, AllocError> {
    let mut line = String::from_str(alloc, word)?;
    for name in names {
        add_name(&mut line, name)?;
    }
    Ok(line)
}

/// A plan to solve as a line.
fn solve_line(
    alloc: Global,
    formula: &Name,
    log: &Option<Name>,
    options: SearchOptions,
) -> Result<String, AllocError> {
    let conflicts = options.conflicts;
    let tidying = if options.inprocess { " tidying" } else { "" };
    let (to, log) = match log {
        None => ("", ""),
        Some(log) => (" to ", log.as_str()),
    };
    format!(in alloc; "solve {} {conflicts}{tidying}{to}{log}", formula.as_str())
}

/// The plan as a line.
fn shown(alloc: Global, plan: &Plan) -> Result<String, AllocError> {
    match plan {
        Plan::Solve {
            formula,
            log,
            options,
        } => solve_line(alloc, formula, log, *options),
        Plan::Check { formula, proof } => line(alloc, "check", &[formula, proof]),
        Plan::Elab {
            formula,
            log,
            proof,
        } => line(alloc, "elab", &[formula, log, proof]),
        Plan::Model { formula, answer } => line(alloc, "model", &[formula, answer]),
        Plan::Demo { kind, size, seed } => {
            format!(in alloc; "demo {} {size} {seed}", kind_name(*kind))
        }
        Plan::Trim {
            formula,
            proof,
            out,
        } => line(alloc, "trim", &[formula, proof, out]),
        Plan::Blast { formula, out } => line(alloc, "blast", &[formula, out]),
        Plan::Affine { formula } => line(alloc, "affine", &[formula]),
    }
}

/// The line of a plan, or `usage`.
fn answer(alloc: Global, planned: &Result<Plan, PlanRefusal>) -> Result<String, AllocError> {
    match planned {
        Ok(plan) => shown(alloc, plan),
        Err(PlanRefusal::Usage) => String::from_str(alloc, "usage"),
        Err(PlanRefusal::Memory) => Err(AllocError),
    }
}

/// The line of the plan that the words ask for, or `usage`.
fn answer_to(alloc: Global, words: &[String]) -> Result<String, AllocError> {
    let planned = plan(alloc, words);
    answer(alloc, &planned)
}

/// Whether the line asks for this plan.
fn asks_for(alloc: Global, line: &str, wanted: &str) -> Result<bool, AllocError> {
    let words = words_of(alloc, line)?;
    Ok(answer_to(alloc, &words)?.as_str() == wanted)
}

/// Appends a line after a bar, where it asks for something other than what is wanted.
fn add_other(
    alloc: Global,
    line: &str,
    wanted: &str,
    others: &mut String,
) -> Result<(), AllocError> {
    if asks_for(alloc, line, wanted)? {
        return Ok(());
    }
    others.push('|')?;
    others.push_str(line)
}

/// Appends the lines that ask for something other than what is wanted.
fn add_others(
    alloc: Global,
    lines: &[(&str, &str)],
    others: &mut String,
) -> Result<(), AllocError> {
    for (line, wanted) in lines {
        add_other(alloc, line, wanted, others)?;
    }
    Ok(())
}

/// Appends the lines that ask for something.
fn add_taken(alloc: Global, lines: &[&str], others: &mut String) -> Result<(), AllocError> {
    for line in lines {
        add_other(alloc, line, "usage", others)?;
    }
    Ok(())
}

/// The lines that are taken otherwise than wanted, or at all where they are to be refused.
fn others(alloc: Global) -> Result<String, AllocError> {
    let mut others = String::new(alloc);
    add_others(alloc, &TAKEN, &mut others)?;
    add_taken(alloc, &REFUSED, &mut others)?;
    Ok(others)
}

#[test]
fn lines_ask_for_their_plan_or_are_usage(rt: HostRuntime) {
    expect(&rt, others(rt.alloc()), "");
}

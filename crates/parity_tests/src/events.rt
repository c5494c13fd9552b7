//! Worked events: what is known act by act, and what followed, by which rows.
ghost use Rattle.std.specs.Prelude.{◌≤◌};
ghost use Rattle.std.specs.List.{AllByRecursion};
ghost use Rattle.cx_base.specs.Problem.{AreWithin};
ghost use Rattle.cx_base.specs.declared.literal.TheConstants.{MAX_VARIABLE};

use crate::driven::{Act, Told, trace_of};
use crate::expecting::expect_told;
use crate::parities::{parities_of, yes};
use cx_base::{Lit, ParityList};
use gauss_incremental::{Incremental, ShortFirst};
use gauss_jordan::Scratch;
use parity_engine::ParityEngine;
use std::alloc::{AllocError, Global};

/// The variable, with a minus for a negative literal.
fn integer(lit: Lit) -> i64 {
    let number = i64::from(lit.var().number());
    if lit.is_negative() { -number } else { number }
}

fn integers(alloc: Global, lits: &[Lit]) -> Result<Vec<i64>, AllocError> {
    let mut integers = Vec::new(alloc);
    for lit in lits {
        integers.push(integer(*lit))?;
    }
    Ok(integers)
}

/// A literal that followed, its row and the row's sources.
fn line(alloc: Global, told: &Told) -> Result<String, AllocError> {
    let parity = integers(alloc, told.parity.as_slice())?;
    format!(in alloc;
        "{} {:?} {:?}\n",
        integer(told.literal),
        parity.as_slice(),
        told.sources.as_slice()
    )
}

fn put_lines(alloc: Global, text: &mut String, told: &[Told]) -> Result<(), AllocError> {
    for each in told {
        text.push_str(line(alloc, each)?.as_str())?;
    }
    Ok(())
}

fn is_one_of(line: &str, right: &[&str]) -> bool {
    for each in right {
        if line == *each {
            return true;
        }
    }
    false
}

/// Whether as many literals followed, each told by one of the lines that are right in its place.
fn follow_so(alloc: Global, told: &[Told], right: &[&[&str]]) -> Result<bool, AllocError> {
    for (told, right) in told.iter().zip(right) {
        if !is_one_of(line(alloc, told)?.as_str(), right) {
            return Ok(false);
        }
    }
    Ok(told.len() == right.len())
}

/// Writes what an engine knows before each act and after the last one, and then what followed, if that is not so.
fn put_other<P: ParityEngine + Drop>(
    alloc: Global,
    others: &mut String,
    vars: u32,
    parities: &ParityList,
    acts: &[Act],
    case: &Case,
) -> Result<(), AllocError>
    requires few { vars ≤ MAX_VARIABLE }
    requires within { AllByRecursion (AreWithin vars) parities.now }
{
    let mut told = Vec::new(alloc);
    let trace = trace_of::<P>(alloc, vars, parities, acts, &mut told)?;
    if trace.as_str() == case.known && follow_so(alloc, &told, case.followed)? {
        return Ok(());
    }
    others.push_str(trace.as_str())?;
    put_lines(alloc, others, &told)
}

/// An act on the positive literal of a variable, or on levels.
#[derive(Clone, Copy, Drop)]
enum Step {
    Open,
    Yes(u32),
    Back(u32),
}

fn act_of(step: Step) -> Act {
    match step {
        Step::Open => Act::Open,
        Step::Yes(number) => Act::Set(yes(number.clamp(1, 100))),
        Step::Back(level) => Act::Back(level),
    }
}

fn acts_of(alloc: Global, steps: &[Step]) -> Result<Vec<Act>, AllocError> {
    let mut acts = Vec::new(alloc);
    for step in steps {
        acts.push(act_of(*step))?;
    }
    Ok(acts)
}

/// What is done over parities, and what the engines should know and tell.
struct Case<'a> {
    vars: u32,
    parities: &'a [&'a [u32]],
    steps: &'a [Step],
    /// What is known before each step and after the last one.
    known: &'a str,
    /// For each literal that follows the lines that are right: more than one where either of two rows gives it.
    followed: &'a [&'a [&'a str]],
}

/// Writes what the engines know and tell, where that is not what is wanted.
fn put_others(alloc: Global, others: &mut String, case: &Case) -> Result<(), AllocError> {
    let vars = case.vars.clamp(1, 100);
    let parities = parities_of(alloc, vars, case.parities)?;
    let acts = acts_of(alloc, case.steps)?;
    put_other::<Scratch>(alloc, others, vars, &parities, &acts, case)?;
    put_other::<Incremental>(alloc, others, vars, &parities, &acts, case)?;
    put_other::<ShortFirst>(alloc, others, vars, &parities, &acts, case)
}

/// As `put_others`, of all cases.
fn others(alloc: Global, cases: &[Case]) -> Result<String, AllocError> {
    let mut others = String::new(alloc);
    for case in cases {
        put_others(alloc, &mut others, case)?;
    }
    Ok(others)
}

/// Two literals follow as they come, in either order.
const FOLLOWING: Case = Case {
    vars: 3,
    parities: &[&[1, 2], &[2, 3]],
    steps: &[Step::Open, Step::Yes(1), Step::Back(0)],
    known: "...\n...\n+-+\n...\n",
    followed: &[
        &["-2 [1, 2] [1]\n", "3 [-1, 3] [1, 2]\n"],
        &[
            "3 [2, 3] [2]\n",
            "3 [-1, 3] [1, 2]\n",
            "-2 [1, 2] [1]\n",
            "-2 [2, 3] [2]\n",
        ],
    ],
};

/// Two parities that have two variables in common: levels come and go, and rows follow late.
const LEVELS: Case = Case {
    vars: 5,
    parities: &[&[1, 2, 3, 4], &[3, 4, 5]],
    steps: &[
        Step::Open,
        Step::Yes(1),
        Step::Yes(2),
        Step::Open,
        Step::Yes(3),
        Step::Back(1),
        Step::Open,
        Step::Yes(4),
        Step::Back(0),
        Step::Open,
        Step::Yes(5),
        Step::Yes(4),
        Step::Yes(1),
    ],
    known: "\
.....
.....
+....
++..-
++..-
+++--
++..-
++..-
++-+-
.....
.....
....+
..+++
+-+++
",
    followed: &[
        &["-5 [-1, 2, 5] [1, 2]\n"],
        &["-4 [1, 2, 3, 4] [1]\n", "-4 [3, 4, 5] [2]\n"],
        &["-3 [1, 2, 3, 4] [1]\n", "-3 [3, 4, 5] [2]\n"],
        &["3 [3, 4, 5] [2]\n"],
        &["-2 [-1, 2, 5] [1, 2]\n", "-2 [1, 2, 3, 4] [1]\n"],
    ],
};

/// Each worked case.
static CASES: [Case; 2] = [FOLLOWING, LEVELS];

#[test]
fn engines_tell_what_follows(rt: HostRuntime) {
    expect_told(&rt, others(rt.alloc(), &CASES), "");
}

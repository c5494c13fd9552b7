//! The top call.
ghost use Rattle.std.specs.Prelude.{◌≤◌, ◌^◌, ℕ, Option};
ghost use Rattle.cx_desk.specs.Agreeing.{MayHave};
ghost use Rattle.cx_desk.specs.Outside.{Files};
ghost use Rattle.cx_words.specs.Words.{IsFit, texts};
ghost use Rattle.cx_words.specs.declared.plans.Plan.TheVariants as plan;
ghost use Rattle.solve_cli.specs.Seen.{seen};
ghost use Rattle.solve_cli.specs.Commands.{Unasked};
ghost use Rattle.solve_cli.specs.Steps.{Acts, PutsAnswer, ReadAtMost, HasNoProof};
ghost use Rattle.solve_cli.specs.Happens.{Works, WorksFor};
ghost use Rattle.solve_cli.specs.Run.{Run};

use crate::affine::solutions_of;
use crate::blast::blast_formula;
use crate::demo::{BUDGET, instance_of, show};
use crate::elab::elaborate_log;
use crate::judge::{judge_answer, judge_proof};
use crate::load::{TextNames, load, prepare};
use crate::print::{put_answer_text, put_message_text};
use crate::solve::{begin_search, search, search_on};
use crate::trim::trim_proof;
use crate::{Ending, Outcome, Status};
use cx_desk::{Desk, Failed, Port};
use cx_words::{InstanceKind, Name, Plan, PlanRefusal, SearchOptions, plan};
use inst_gen::planted;
use log_text::{ListLog, put_log};
use std::alloc::{AllocError, Global};

/// Writes the answer of an ending.
fn answer<D: Desk>(desk: &mut D, ending: Ending) -> Outcome
    ensures { (limit : ℕ) → Acts limit (D.outside desk.old) (D.outside desk.new) (λ w. PutsAnswer ending (seen w (D.outside desk.old)) result (seen w (D.outside desk.new))) }
{
    match put_answer_text(desk, &ending) {
        Ok(()) => Outcome::Ended(ending),
        Err(Failed) => Outcome::WriteFault,
    }
}

/// `check`: judges a proof.
fn check<D: Desk>(alloc: Global, desk: &mut D, formula: Name, proof: Name, limit: u64) -> Outcome
    requires fresh { Unasked (D.outside desk.old).asked }
    requires limit { limit ≤ 4294967295 }
    ensures { Acts limit (D.outside desk.old) (D.outside desk.new) (λ w. Works (plan.Check formula proof) limit (seen w (D.outside desk.old)) result (seen w (D.outside desk.new))) }
{
    let names = TextNames {
        formula,
        second: proof,
    };
    let formula = match prepare(alloc, desk, names, None, limit) {
        Ok(formula) => formula,
        Err(outcome) => return outcome,
    };
    match judge_proof(alloc, desk, &formula, limit) {
        Ok(ending) => answer(desk, ending),
        Err(outcome) => outcome,
    }
}

/// `model`: judges printed values.
fn model<D: Desk>(alloc: Global, desk: &mut D, formula: Name, values: Name, limit: u64) -> Outcome
    requires fresh { Unasked (D.outside desk.old).asked }
    requires limit { limit ≤ 4294967295 }
    ensures { Acts limit (D.outside desk.old) (D.outside desk.new) (λ w. Works (plan.Model formula values) limit (seen w (D.outside desk.old)) result (seen w (D.outside desk.new))) }
{
    let texts = match load(alloc, desk, formula, values, limit) {
        Ok(texts) => texts,
        Err(outcome) => return outcome,
    };
    match judge_answer(alloc, &texts.formula, texts.second.as_slice()) {
        Ok(ending) => answer(desk, ending),
        Err(AllocError) => Outcome::Memory,
    }
}

/// `elab`: makes a proof of a log.
fn elab<D: Desk>(alloc: Global, desk: &mut D, names: TextNames, proof: Name, limit: u64) -> Outcome
    requires fresh { Unasked (D.outside desk.old).asked }
    requires limit { limit ≤ 4294967295 }
    ensures { Acts limit (D.outside desk.old) (D.outside desk.new) (λ w. Works (plan.Elab names.formula names.second proof) limit (seen w (D.outside desk.old)) result (seen w (D.outside desk.new))) }
{
    let formula = match prepare(alloc, desk, names, Some(proof), limit) {
        Ok(formula) => formula,
        Err(outcome) => return outcome,
    };
    match elaborate_log(alloc, desk, &formula, limit) {
        Ok(ending) => answer(desk, ending),
        Err(outcome) => outcome,
    }
}

/// `trim`: writes of a proof what its last step needs.
fn trim<D: Desk>(alloc: Global, desk: &mut D, names: TextNames, out: Name, limit: u64) -> Outcome
    requires fresh { Unasked (D.outside desk.old).asked }
    requires limit { limit ≤ 4294967295 }
    ensures { Acts limit (D.outside desk.old) (D.outside desk.new) (λ w. Works (plan.Trim names.formula names.second out) limit (seen w (D.outside desk.old)) result (seen w (D.outside desk.new))) }
{
    let formula = match prepare(alloc, desk, names, Some(out), limit) {
        Ok(formula) => formula,
        Err(outcome) => return outcome,
    };
    match trim_proof(alloc, desk, &formula, limit) {
        Ok(ending) => answer(desk, ending),
        Err(outcome) => outcome,
    }
}

/// `blast`: writes a formula in clauses.
fn blast<D: Desk>(alloc: Global, desk: &mut D, formula: Name, out: Name, limit: u64) -> Outcome
    requires fresh { Unasked (D.outside desk.old).asked }
    requires limit { limit ≤ 4294967295 }
    ensures { Acts limit (D.outside desk.old) (D.outside desk.new) (λ w. Works (plan.Blast formula out) limit (seen w (D.outside desk.old)) result (seen w (D.outside desk.new))) }
{
    match blast_formula(alloc, desk, formula, out, limit) {
        Ok(ending) => answer(desk, ending),
        Err(outcome) => outcome,
    }
}

/// `affine`: tells the solutions of a formula's parities.
fn affine<D: Desk>(alloc: Global, desk: &mut D, formula: Name, limit: u64) -> Outcome
    requires fresh { Unasked (D.outside desk.old).asked }
    requires limit { limit ≤ 4294967295 }
    ensures { Acts limit (D.outside desk.old) (D.outside desk.new) (λ w. Works (plan.Affine formula) limit (seen w (D.outside desk.old)) result (seen w (D.outside desk.new))) }
{
    match solutions_of(alloc, desk, formula, limit) {
        Ok(ending) => answer(desk, ending),
        Err(outcome) => outcome,
    }
}

/// `solve`: searches for values that meet the formula. The log is written step by step, and whole before the answer.
fn solve<D: Desk>(
    alloc: Global,
    desk: &mut D,
    formula: Name,
    log: Option<Name>,
    options: SearchOptions,
    limit: u64,
) -> Outcome
    requires fresh { Unasked (D.outside desk.old).asked }
    requires limit { limit ≤ 4294967295 }
    requires empty { HasNoProof (D.outside desk.old) }
    requires conflicts { (1 ≤ options.conflicts) × (options.conflicts ≤ 10 ^ 18) }
    ensures { Acts limit (D.outside desk.old) (D.outside desk.new) (λ w. Works (plan.Solve formula log options) limit (seen w (D.outside desk.old)) result (seen w (D.outside desk.new))) }
{
    let formula = match begin_search(alloc, desk, formula, log, limit) {
        Ok(formula) => formula,
        Err(outcome) => return outcome,
    };
    match search_on(alloc, desk, &formula, options) {
        Ok(ending) => answer(desk, ending),
        Err(outcome) => outcome,
    }
}

/// `demo`: solves a planted instance, and shows that the answer is so. The log is written whole before
/// its steps are elaborated, and the lines are written after all work.
fn demo<D: Desk>(alloc: Global, desk: &mut D, kind: InstanceKind, size: u32, seed: u64) -> Outcome
    requires low { 4 ≤ size }
    requires high { size ≤ 2000 }
    ensures { (limit : ℕ) → Acts limit (D.outside desk.old) (D.outside desk.new) (λ w. Works (plan.Demo kind size seed) limit (seen w (D.outside desk.old)) result (seen w (D.outside desk.new))) }
{
    let formula = match planted(alloc, kind, size, seed) {
        Ok(formula) => formula,
        Err(AllocError) => return Outcome::Memory,
    };
    let mut log = ListLog::make(alloc);
    let found = match search(alloc, &formula, BUDGET, &mut log) {
        Ok(found) => found,
        Err(AllocError) => return Outcome::Memory,
    };
    let instance = instance_of(&formula, kind, size, seed);
    match put_log(desk, Port::Proof, &log) {
        Ok(()) => {}
        Err(Failed) => return Outcome::WriteFault,
    }
    let shown = match show(alloc, &formula, found, log) {
        Ok(shown) => shown,
        Err(AllocError) => return Outcome::Memory,
    };
    answer(desk, Ending::Demonstrated(instance, shown))
}

/// Carries out a plan.
fn carry_out<D: Desk>(alloc: Global, desk: &mut D, wanted: Plan, limit: u64) -> Outcome
    requires fresh { Unasked (D.outside desk.old).asked }
    requires limit { limit ≤ 4294967295 }
    requires empty { HasNoProof (D.outside desk.old) }
    requires fit { IsFit wanted }
    ensures { Acts limit (D.outside desk.old) (D.outside desk.new) (λ w. Works wanted limit (seen w (D.outside desk.old)) result (seen w (D.outside desk.new))) }
{
    match wanted {
        Plan::Check { formula, proof } => check(alloc, desk, formula, proof, limit),
        Plan::Model { formula, answer } => model(alloc, desk, formula, answer, limit),
        Plan::Elab {
            formula,
            log,
            proof,
        } => {
            let names = TextNames {
                formula,
                second: log,
            };
            elab(alloc, desk, names, proof, limit)
        }
        Plan::Solve {
            formula,
            log,
            options,
        } => solve(alloc, desk, formula, log, options, limit),
        Plan::Demo { kind, size, seed } => demo(alloc, desk, kind, size, seed),
        Plan::Trim {
            formula,
            proof,
            out,
        } => {
            let names = TextNames {
                formula,
                second: proof,
            };
            trim(alloc, desk, names, out, limit)
        }
        Plan::Blast { formula, out } => blast(alloc, desk, formula, out, limit),
        Plan::Affine { formula } => affine(alloc, desk, formula, limit),
    }
}

/// Reads the words, and carries out what they ask for.
fn work<D: Desk>(alloc: Global, desk: &mut D, words: &[String], limit: u64) -> Outcome
    requires fresh { Unasked (D.outside desk.old).asked }
    requires limit { limit ≤ 4294967295 }
    requires empty { HasNoProof (D.outside desk.old) }
    ensures { Acts limit (D.outside desk.old) (D.outside desk.new) (λ w. WorksFor (texts words.now) limit (seen w (D.outside desk.old)) result (seen w (D.outside desk.new))) }
{
    match plan(alloc, words) {
        Ok(wanted) => carry_out(alloc, desk, wanted, limit),
        Err(PlanRefusal::Usage) => Outcome::Usage,
        Err(PlanRefusal::Memory) => Outcome::Memory,
    }
}

/// All that the program does, with no text longer than the limit.
///
/// `words[0]` is the program's name. A fault of reading or writing ends the command at once. What a run is, sentence by
/// sentence, is in the record `Run` of specs/, for all files that agree with what was read. Whatever the status, at most
/// one byte past the limit is read of each text.
pub fn run_within<D: Desk>(alloc: Global, words: Vec<String>, limit: u64, desk: &mut D) -> Status
    requires fresh { Unasked (D.outside desk.old).asked }
    requires limit { limit ≤ 4294967295 }
    requires empty { HasNoProof (D.outside desk.old) }
    ensures run { (w : Option Files) → MayHave w (D.outside desk.new) → Run (texts words.items) limit (seen w (D.outside desk.old)) result (seen w (D.outside desk.new)) }
    ensures few { ReadAtMost limit (D.outside desk.old) → ReadAtMost limit (D.outside desk.new) }
{
    let outcome = work(alloc, desk, words.as_slice(), limit);
    let _told = put_message_text(desk, &outcome);
    outcome.status()
}

/// All that the program does, with no text longer than 4,294,967,295 bytes.
pub fn run<D: Desk>(alloc: Global, words: Vec<String>, desk: &mut D) -> Status
    requires fresh { Unasked (D.outside desk.old).asked }
    requires empty { HasNoProof (D.outside desk.old) }
    ensures run { (w : Option Files) → MayHave w (D.outside desk.new) → Run (texts words.items) 4294967295 (seen w (D.outside desk.old)) result (seen w (D.outside desk.new)) }
    ensures few { ReadAtMost 4294967295 (D.outside desk.old) → ReadAtMost 4294967295 (D.outside desk.new) }
{
    run_within(alloc, words, 4_294_967_295, desk)
}

//! The search for values that meet a formula.
ghost use Rattle.std.specs.Prelude.{◌≡◌, ◌≤◌, ◌^◌, ℕ, true, false, [], length, IfOk};
ghost use Rattle.cx_texts.specs.Printed.{printed_log};
ghost use Rattle.cdcl_core.specs.LogLines.{HasNoLine};
ghost use Rattle.cdcl_core.specs.Narrowing.{SearchedIn};
ghost use Rattle.cdcl_core.specs.Results.{IsFresh};
ghost use Rattle.cx_words.specs.declared.plans.Plan.TheVariants as plan;
ghost use Rattle.cx_words.specs.declared.plans.SearchOptions.{SearchOptions};
ghost use Rattle.solve_cli.specs.Seen.{seen};
ghost use Rattle.solve_cli.specs.Commands.{Unasked};
ghost use Rattle.solve_cli.specs.Solving.{BeginsSearch, ComesTo, SearchesOn, AnswersAs, plain_options};
ghost use Rattle.solve_cli.specs.Steps.{Acts, HasNoProof};

use crate::failed::in_order;
use crate::load::{create_proof, read_formula_of};
use crate::{Ending, Outcome};
use cdcl_core::{CoreFault, SearchOutcome as Answer, solve_core, solve_tidy};
use cx_base::{Formula, LogEvent};
use cx_desk::Desk;
use cx_words::{Name, SearchOptions};
use gauss_incremental::ShortFirst;
use log_text::{DeskLog, ListLog};
use std::alloc::{AllocError, Global};
use step_text::Sink;

/// Reads the formula, and gives the Proof port its file, where the log is to have one.
pub(crate) fn begin_search<D: Desk>(
    alloc: Global,
    desk: &mut D,
    formula: Name,
    log: Option<Name>,
    limit: u64,
) -> Result<Formula, Outcome>
    requires fresh { Unasked (D.outside desk.old).asked }
    requires limit { limit ≤ 4294967295 }
    ensures begins { (options : SearchOptions) → Acts limit (D.outside desk.old) (D.outside desk.new) (λ w. BeginsSearch (plan.Solve formula log options) limit (seen w (D.outside desk.old)) result (seen w (D.outside desk.new))) }
    ensures few { IfOk result (λ f. length f.constraints ≤ limit) }
{
    let formula = match read_formula_of(alloc, desk, formula, limit) {
        Ok(formula) => formula,
        Err(outcome) => return Err(outcome),
    };
    match create_proof(desk, log) {
        Ok(()) => Ok(formula),
        Err(outcome) => Err(outcome),
    }
}

/// What an answer of the search ends in.
fn answered(
    alloc: Global,
    formula: &Formula,
    answer: Result<Answer, CoreFault>,
) -> Result<Ending, Outcome>
    ensures { AnswersAs formula.now answer result }
{
    match answer {
        Ok(Answer::Sat(values)) => Ok(Ending::Satisfiable(values)),
        Ok(Answer::Unsat { failed }) => match in_order(alloc, formula, failed) {
            Ok(failed) => Ok(Ending::Unsatisfiable(failed)),
            Err(AllocError) => Err(Outcome::Memory),
        },
        Ok(Answer::Unknown { conflicts }) => Ok(Ending::Unknown(conflicts)),
        Err(CoreFault::Memory) => Err(Outcome::Memory),
        Err(CoreFault::Write) => Err(Outcome::WriteFault),
    }
}

/// The search that the options ask for, with or without tidying.
fn search_by<L: Sink<Item = LogEvent>>(
    alloc: Global,
    formula: &Formula,
    options: SearchOptions,
    sink: &mut L,
) -> Result<Answer, CoreFault>
    requires conflicts { (1 ≤ options.conflicts) × (options.conflicts ≤ 10 ^ 18) }
    requires few { length formula.now.constraints ≤ 4294967295 }
    requires fresh { IsFresh (L.items sink.old) }
    requires lines { options.inprocess ≡ true → HasNoLine (L.lines sink.old) }
    requires going { L.has_failed sink.old ≡ false }
    ensures { SearchedIn options.inprocess L.Sink formula.now options.conflicts sink.old sink.new result }
{
    if options.inprocess {
        solve_tidy::<ShortFirst, L>(alloc, formula, options.conflicts, sink)
    } else {
        solve_core::<ShortFirst, L>(alloc, formula, options.conflicts, sink)
    }
}

/// Searches for values that meet the formula, until so many conflicts are counted. Each step of the search is printed
/// on the Proof port as it is made.
pub(crate) fn search_on<D: Desk>(
    alloc: Global,
    desk: &mut D,
    formula: &Formula,
    options: SearchOptions,
) -> Result<Ending, Outcome>
    requires conflicts { (1 ≤ options.conflicts) × (options.conflicts ≤ 10 ^ 18) }
    requires few { length formula.now.constraints ≤ 4294967295 }
    requires empty { HasNoProof (D.outside desk.old) }
    ensures { (limit : ℕ) → Acts limit (D.outside desk.old) (D.outside desk.new) (λ w. SearchesOn formula.now options (seen w (D.outside desk.old)) result (seen w (D.outside desk.new))) }
{
    let mut log = DeskLog::new(desk);
    let answer = search_by(alloc, formula, options, &mut log);
    answered(alloc, formula, answer)
}

/// As `search_on` without tidying, with the log kept as a list. It gives up only where memory runs out.
pub(crate) fn search(
    alloc: Global,
    formula: &Formula,
    conflicts: u64,
    log: &mut ListLog,
) -> Result<Ending, AllocError>
    requires conflicts { (1 ≤ conflicts) × (conflicts ≤ 10 ^ 18) }
    requires few { length formula.now.constraints ≤ 4294967295 }
    requires fresh { log.old ≡ [] }
    ensures { IfOk result (ComesTo formula.now (plain_options conflicts) (printed_log log.new)) }
{
    let answer = solve_core::<ShortFirst, ListLog>(alloc, formula, conflicts, log);
    let _with_texts = log.events();
    match answered(alloc, formula, answer) {
        Ok(ending) => Ok(ending),
        // A list fails only where memory runs out.
        Err(_) => Err(AllocError),
    }
}

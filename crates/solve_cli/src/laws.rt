//! Laws of what is due, and of one command after another.
ghost use Rattle.std.specs.Prelude.{◌≡◌, ℕ, List, Some};
ghost use Rattle.cx_desk.specs.Outside.{Bytes, Files};
ghost use Rattle.cx_words.specs.declared.plans.Plan.{Plan};
ghost use Rattle.solve_cli.specs.Commands.{second_of, formula_of};
ghost use Rattle.solve_cli.specs.Happens.{Due, Early, IsEarlyOrRead};
ghost use Rattle.solve_cli.specs.NoPlan.{AsksNothing, EndsAsUsage, HasAsked};
ghost use Rattle.solve_cli.specs.TwoRuns.{IsComputed, RunsAgree, FilesDecide};
ghost use Rattle.solve_cli.specs.Run.{Run};
ghost use Rattle.solve_cli.specs.Seen.{Seen};
ghost use Rattle.solve_cli.specs.WholeWay.{LogsElaborate, LogsKeepHints, ProofsVerify};
ghost use Rattle.solve_cli.specs.declared.ending.Ending.{Ending};
ghost use Rattle.solve_cli.specs.declared.ending.Status.TheVariants as status;

/// For the files of a command that judges a second text, or that puts a formula in clauses, at most one ending is due. So an ending
/// comes exactly where it is due, unless memory runs out or a fault is counted.
///
/// Of `solve` several endings may be due, as any values that meet the formula are.
pub fn one_ending_is_due()
    ensures second { (p : Plan) (second : Bytes) (limit : ℕ) (files : Files) (d e : Ending) → second_of p ≡ Some second
        → Due p limit files d → Due p limit files e → d ≡ e }
    ensures computed { (p : Plan) (limit : ℕ) (files : Files) (d e : Ending) → IsComputed p → Due p limit files d → Due p limit files e → d ≡ e }
{}

/// For a command's formula exactly one ending is due that refuses its text, or the text reads to one formula, and then
/// none is. Where it is refused, no other ending is due. So 2 aside, 3 and 9 come exactly where they are due, of `solve` too.
pub fn refusals_of_formulas_are_due()
    ensures some { (p : Plan) (name : Bytes) (limit : ℕ) (files : Files) → formula_of p ≡ Some name → IsEarlyOrRead p limit files name }
    ensures one { (p : Plan) (limit : ℕ) (files : Files) (d e : Ending) → Early p limit files d → Due p limit files e → d ≡ e }
{}

/// The log of a refutation is elaborated, and its proof is verified. Each of the two commands ends with 0, unless it is cut short
/// by a fault, by lack of memory, or since a text is over its limit. The proof has the log's hints.
pub fn refutations_are_verified()
    ensures elaborated { LogsElaborate }
    ensures hints { LogsKeepHints }
    ensures verified { ProofsVerify }
{}

/// Words that ask for no plan end with 2, unless memory ran out; only they do; and every other run is of words that ask for exactly one.
pub fn usage_is_for_no_plan()
    ensures ends { EndsAsUsage }
    ensures only { (words : List Bytes) (limit : ℕ) (old new : Seen) → Run words limit old status.Usage new → AsksNothing words }
    ensures other { HasAsked }
{}

/// Over one formula text no run ends with 10 where another ends with 20, or with 0 of `check`, `elab` or `trim`.
pub fn runs_agree()
    ensures { RunsAgree }
{}

/// The files decide what `check`, `model`, `trim` and `blast` write: two runs of one of them over the same files end with the
/// same status and leave the same bytes on the ports for its answer and its output, unless a fault or lack of memory cuts one off.
pub fn files_decide()
    ensures { FilesDecide }
{}

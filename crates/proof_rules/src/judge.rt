//! The four judges: one for each kind of step that adds something.
ghost use Rattle.std.specs.Prelude.{◌++◌, ◌∷◌, []};
ghost use Rattle.cx_base.specs.Integers.{sizes};
ghost use Rattle.cx_semantics.specs.Tables.{named};
ghost use Rattle.cx_semantics.specs.ProofRules.{hinting, chaining, summing, clause_of_parity, parity_of_clauses};
ghost use Rattle.proof_rules.specs.Judges.{JudgesBy};

use crate::hints::{id_of, ids_of, judge_hints};
use crate::literal_set::LiteralSet;
use crate::live::Kind;
use crate::{JudgeMarks, JudgeRefusal, Live, chain, clauses_parity, parity_clause, sum};
use cx_base::LitList;

/// Judges a clause by a chain of hints: live clauses, each of which has one literal left or none.
///
/// The target's negations are assumed, and then what each hint has left, in order; hints after the one with nothing
/// left are not taken. The causes, in order: `RatHint`, `HintNotLive`, `HintNotUnit`, `HintsEnd`.
/// It costs the literals of the target and of the hints that are taken. What `assumed` has before and after plays no
/// part: only its memory is used again.
pub fn judge_chain(
    assumed: &mut LiteralSet,
    live: &Live,
    target: &LitList,
    hints: &[i64],
) -> Result<(), JudgeRefusal>
    ensures { JudgesBy (hinting live.now.clauses hints.now ++ chaining target.now (named live.now.clauses (sizes hints.now))) result }
{
    chain::judge_target(assumed, live, target.as_slice(), hints)
}

/// Judges a parity as the sum of live parities, each counted as often as it is named.
///
/// The causes, in order: `RatHint`, `HintNotLive`, `SumDiffers`.
/// It costs the literals of the target and of the hints.
pub fn judge_sum(
    marks: &mut JudgeMarks,
    live: &Live,
    target: &LitList,
    hints: &[i64],
) -> Result<(), JudgeRefusal>
    ensures { JudgesBy (hinting live.now.parities hints.now ++ summing target.now (named live.now.parities (sizes hints.now))) result }
{
    judge_hints(live, Kind::Parities, hints)?;
    let ids = ids_of(marks.ids(), hints)?;
    let judged = sum::judge_target(&mut marks.sum, live, target.as_slice(), &ids);
    marks.keep_ids(ids);
    judged
}

/// Judges a clause as implied by the one live parity that the hint names.
///
/// The causes, in order: `RatHint`, `HintNotLive`, `NotImplied`.
/// It costs the literals of both.
pub fn judge_clause_of_parity(
    marks: &mut JudgeMarks,
    live: &Live,
    target: &LitList,
    hint: i64,
) -> Result<(), JudgeRefusal>
    ensures { JudgesBy (hinting live.now.parities (hint ∷ []) ++ clause_of_parity target.now (named live.now.parities (sizes (hint ∷ [])))) result }
{
    judge_hints(live, Kind::Parities, &[hint])?;
    let parity = live.parity(id_of(hint)).unwrap();
    parity_clause::judge_target(marks, parity, target.as_slice())
}

/// Judges a parity of at most 12 variables as implied by live clauses over these variables.
///
/// The causes, in order: `RatHint`, `HintNotLive`, `TooWide`, `ClauseOutside`, `NotImplied`.
/// It costs the literals of the hints, at most 4,096 assignments, and the assignments that each clause excludes.
pub fn judge_parity_of_clauses(
    marks: &mut JudgeMarks,
    live: &Live,
    target: &LitList,
    hints: &[i64],
) -> Result<(), JudgeRefusal>
    ensures { JudgesBy (hinting live.now.clauses hints.now ++ parity_of_clauses target.now (named live.now.clauses (sizes hints.now))) result }
{
    judge_hints(live, Kind::Clauses, hints)?;
    let ids = ids_of(marks.ids(), hints)?;
    let judged = clauses_parity::judge_target(marks, live, target.as_slice(), &ids);
    marks.keep_ids(ids);
    judged
}

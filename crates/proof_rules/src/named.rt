//! The judges of log steps, which name live constraints by ids.
ghost use Rattle.std.specs.Prelude.{◌++◌, ◌∷◌, []};
ghost use Rattle.cx_semantics.specs.Tables.{named};
ghost use Rattle.cx_semantics.specs.LogRules.{naming};
ghost use Rattle.cx_semantics.specs.ProofRules.{summing, clause_of_parity, parity_of_clauses};
ghost use Rattle.proof_rules.specs.Judges.{JudgesBy};

use crate::hints::judge_names;
use crate::live::Kind;
use crate::{JudgeMarks, JudgeRefusal, Live, clauses_parity, parity_clause, sum};
use cx_base::LitList;

/// Judges a parity as the sum of the parities of these ids, each counted as often as it is named.
///
/// The causes, in order: `NotLive`, `SumDiffers`.
pub fn judge_named_sum(
    marks: &mut JudgeMarks,
    live: &Live,
    target: &LitList,
    ids: &[u64],
) -> Result<(), JudgeRefusal>
    ensures { JudgesBy (naming live.now.parities ids.now ++ summing target.now (named live.now.parities ids.now)) result }
{
    judge_names(live, Kind::Parities, ids)?;
    sum::judge_target(&mut marks.sum, live, target.as_slice(), ids)
}

/// Judges a clause as implied by the parity of this id.
///
/// The causes, in order: `NotLive`, `NotImplied`.
pub fn judge_clause_of_named_parity(
    marks: &mut JudgeMarks,
    live: &Live,
    target: &LitList,
    id: u64,
) -> Result<(), JudgeRefusal>
    ensures { JudgesBy (naming live.now.parities (id ∷ []) ++ clause_of_parity target.now (named live.now.parities (id ∷ []))) result }
{
    judge_names(live, Kind::Parities, &[id])?;
    let parity = live.parity(id).unwrap();
    parity_clause::judge_target(marks, parity, target.as_slice())
}

/// Judges a parity of at most 12 variables as implied by the clauses of these ids, over these variables.
///
/// The causes, in order: `NotLive`, `TooWide`, `ClauseOutside`, `NotImplied`.
pub fn judge_parity_of_named_clauses(
    marks: &mut JudgeMarks,
    live: &Live,
    target: &LitList,
    ids: &[u64],
) -> Result<(), JudgeRefusal>
    ensures { JudgesBy (naming live.now.clauses ids.now ++ parity_of_clauses target.now (named live.now.clauses ids.now)) result }
{
    judge_names(live, Kind::Clauses, ids)?;
    clauses_parity::judge_target(marks, live, target.as_slice(), ids)
}

//! Parities as sums of parities.
ghost use Rattle.std.specs.Prelude.{◌≡◌, OnOk};
ghost use Rattle.cx_semantics.specs.ProofRules.{summing};
ghost use Rattle.cx_semantics.specs.Tables.{named};
ghost use Rattle.proof_rules.specs.Judges.{JudgesBy};
ghost use Rattle.proof_rules.specs.Sums.{plus_all};

use crate::JudgeRefusal;
use crate::live::Live;
use crate::parity_sum::ParitySum;
use cx_base::Lit;
use cx_semantics::Cause;
use std::alloc::AllocError;

/// Adds each parity that the ids name, as often as they name it.
fn add_named(sum: &mut ParitySum, live: &Live, ids: &[u64]) -> Result<(), AllocError>
    ensures { OnOk result (sum.new ≡ plus_all sum.old (named live.now.parities ids.now)) }
{
    for id in ids {
        if let Some(lits) = live.parity(*id) {
            sum.add(lits)?;
        }
    }
    Ok(())
}

/// Judges the target as the sum of the parities that the ids name.
pub(crate) fn judge_target(
    sum: &mut ParitySum,
    live: &Live,
    target: &[Lit],
    ids: &[u64],
) -> Result<(), JudgeRefusal>
    ensures { JudgesBy (summing target.now (named live.now.parities ids.now)) result }
{
    sum.set_to(target)?;
    add_named(sum, live, ids)?;
    if sum.is_zero() {
        Ok(())
    } else {
        Err(JudgeRefusal::Wrong(Cause::SumDiffers))
    }
}

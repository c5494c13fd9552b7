//! Back through a proof: which of its steps are needed, and what they name of the formula.
ghost use Rattle.std.specs.Prelude.{◌≡◌, IfOk};
ghost use Rattle.proof_trim.specs.Marking.{wants, marks_of};
ghost use Rattle.proof_trim.specs.NameSets.{Has};

use crate::names::NameSet;
use crate::store::StepStore;
use cx_base::Formula;
use std::alloc::{AllocError, Global};

/// What going back through a proof finds.
#[derive(Drop)]
pub(crate) struct FoundNeeded {
    /// Whether each step is needed.
    pub(crate) marks: Vec<bool>,
    /// What needed steps name of the formula.
    pub(crate) wanted: NameSet,
}

/// Goes back through a proof of the formula, whose last step is needed: which other steps are, and what they name of the
/// formula.
pub(crate) fn go_back(
    alloc: Global,
    formula: &Formula,
    proof: &StepStore,
) -> Result<FoundNeeded, AllocError>
    ensures marks { IfOk result (λ found. found.marks.items ≡ marks_of proof.now) }
    ensures wanted { IfOk result (λ found. Has found.wanted (wants proof.now)) }
{
    let mut wanted = NameSet::beside(alloc, formula, proof.len())?;
    let mut marks = Vec::new(alloc);
    marks.resize(proof.len(), false)?;
    let mut left = proof.len();
    while 0 < left {
        left -= 1;
        marks[left] = proof.back_over(left, left + 1 == proof.len(), &mut wanted)?;
    }
    Ok(FoundNeeded { marks, wanted })
}

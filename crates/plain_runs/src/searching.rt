//! Searches with their logs.
ghost use Rattle.std.specs.Prelude.{◌≤◌, ◌^◌};

use cdcl_core::{SearchOutcome, solve_core};
use cx_base::Formula;
use gauss_incremental::ShortFirst;
use log_text::ListLog;
use std::alloc::{AllocError, Global};

/// How a search ended.
#[derive(Clone, Copy, PartialEq, Eq, Debug, Drop)]
pub(crate) enum SearchAnswer {
    Solved,
    Refuted,
    Unknown,
}

/// What a search with this budget answers, and its log; none where it gives up.
pub(crate) fn searched(
    alloc: Global,
    formula: &Formula,
    budget: u64,
) -> Result<Option<(SearchAnswer, ListLog)>, AllocError>
    requires low { 1 ≤ budget }
    requires high { budget ≤ 10 ^ 18 }
{
    if formula.len() > u32::MAX as usize {
        return Ok(None);
    }
    let mut log = ListLog::make(alloc);
    let answer = match solve_core::<ShortFirst, ListLog>(alloc, formula, budget, &mut log) {
        Ok(SearchOutcome::Sat(_)) => SearchAnswer::Solved,
        Ok(SearchOutcome::Unsat { failed: _ }) => SearchAnswer::Refuted,
        Ok(SearchOutcome::Unknown { conflicts: _ }) => SearchAnswer::Unknown,
        Err(_) => return Ok(None),
    };
    Ok(Some((answer, log)))
}

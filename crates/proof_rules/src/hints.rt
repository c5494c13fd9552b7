//! The rules that all hints of a step meet.
ghost use Rattle.std.specs.Prelude.{◌≡◌, nat_abs, not, IfOk, ℤ};
ghost use Rattle.std.specs.List.{list_any};
ghost use Rattle.cx_base.specs.Integers.{is_negative, sizes};
ghost use Rattle.cx_semantics.specs.Tables.{is_live};
ghost use Rattle.cx_semantics.specs.LogRules.{naming};
ghost use Rattle.cx_semantics.specs.ProofRules.{hinting};
ghost use Rattle.proof_rules.specs.Judges.{JudgesBy};
ghost use Rattle.proof_rules.specs.Kinds.{chosen};

use crate::JudgeRefusal;
use crate::live::{Kind, Live};
use cx_semantics::Cause;
use std::alloc::AllocError;

/// The id that a hint names.
pub(crate) fn id_of(hint: i64) -> u64
    ensures { result ≡ nat_abs hint }
{
    hint.unsigned_abs()
}

/// Whether some hint is negative.
fn any_negative(hints: &[i64]) -> bool
    ensures { result ≡ list_any is_negative hints.now }
{
    let mut some = false;
    for hint in hints {
        some |= *hint < 0;
    }
    some
}

/// Whether some hint names no live constraint of the kind.
fn any_not_live(live: &Live, kind: Kind, hints: &[i64]) -> bool
    ensures { result ≡ list_any (λ z. not (is_live (chosen kind live.now) (nat_abs z))) hints.now }
{
    for hint in hints {
        if !live.has(kind, id_of(*hint)) {
            return true;
        }
    }
    false
}

/// Judges the hints: none is negative, and each names a live constraint of the kind.
pub(crate) fn judge_hints(live: &Live, kind: Kind, hints: &[i64]) -> Result<(), JudgeRefusal>
    ensures { JudgesBy (hinting (chosen kind live.now) hints.now) result }
{
    if any_negative(hints) {
        return Err(JudgeRefusal::Wrong(Cause::RatHint));
    }
    if any_not_live(live, kind, hints) {
        return Err(JudgeRefusal::Wrong(Cause::HintNotLive));
    }
    Ok(())
}

/// The ids that hints name, in the memory of `room`.
pub fn ids_of(room: Vec<u64>, hints: &[i64]) -> Result<Vec<u64>, AllocError>
    ensures { IfOk result (λ ids. ids.items ≡ sizes hints.now) }
{
    // Places first, since a loop that fills places takes several at once.
    let mut ids = room;
    ids.resize(hints.len(), 0)?;
    for place in 0..hints.len() {
        ids[place] = id_of(hints[place]);
    }
    Ok(ids)
}

/// Whether some id is not that of a live constraint of the kind.
fn any_unknown(live: &Live, kind: Kind, ids: &[u64]) -> bool
    ensures { result ≡ list_any (λ n. not (is_live (chosen kind live.now) n)) ids.now }
{
    for id in ids {
        if !live.has(kind, *id) {
            return true;
        }
    }
    false
}

/// Judges ids that a log names: each is that of a live constraint of the kind.
pub(crate) fn judge_names(live: &Live, kind: Kind, ids: &[u64]) -> Result<(), JudgeRefusal>
    ensures { JudgesBy (naming (chosen kind live.now) ids.now) result }
{
    if any_unknown(live, kind, ids) {
        return Err(JudgeRefusal::Wrong(Cause::NotLive));
    }
    Ok(())
}

//! What each step that adds something meets first, and its literals.
ghost use Rattle.std.specs.Prelude.{◌≡◌, ◌≤◌, true, false, [], ◌∷◌, IfOk, MatchOption, nat_lt, nat_abs};
ghost use Rattle.std.specs.List.{list_any};
ghost use Rattle.cx_base.specs.declared.literal.TheConstants.{MAX_VARIABLE};
ghost use Rattle.cx_semantics.specs.declared.cause.Cause.TheVariants as causes;
ghost use Rattle.cx_base.specs.Integers.{literal, literals};
ghost use Rattle.cx_semantics.specs.Judging.{refused_where};
ghost use Rattle.proof_rules.specs.Judges.{JudgesBy};

use crate::JudgeRefusal;
use cx_base::{IntList, Lit, LitList, Var};
use cx_semantics::Cause;
use std::alloc::AllocError;

/// The literal of an integer that is not zero.
fn literal_of(integer: i64) -> Lit
    requires low { 1 ≤ nat_abs integer }
    requires high { nat_abs integer ≤ MAX_VARIABLE }
    ensures { result ≡ literal integer }
{
    Lit::new(Var::new(integer.unsigned_abs() as u32), integer < 0)
}

/// The literals of integers, in the memory of `room`; none where a variable is above the formula's number.
// Each step that adds something calls it once.
#[inline(always)]
fn known_literals(
    room: Vec<Lit>,
    vars: u32,
    integers: &IntList,
) -> Result<Option<LitList>, AllocError>
    requires few { vars ≤ MAX_VARIABLE }
    ensures { IfOk result (λ found. MatchOption found (list_any (λ z. nat_lt vars (nat_abs z)) integers.now ≡ true) (λ lits. (list_any (λ z. nat_lt vars (nat_abs z)) integers.now ≡ false) × (lits ≡ literals integers.now))) }
{
    let integers = integers.as_slice();
    let mut lits = room;
    lits.clear();
    lits.reserve(integers.len())?;
    for integer in integers {
        if u64::from(vars) < integer.unsigned_abs() {
            return Ok(None);
        }
        lits.push_reserved(literal_of(*integer));
    }
    Ok(Some(LitList::from_vec(lits)))
}

/// The literals of what is added, in the memory of `room`, which is lost where a rule fails: its variables are the formula's, and
/// its id is not live.
#[inline(always)]
pub fn admit_into(
    room: Vec<Lit>,
    vars: u32,
    lits: &IntList,
    is_live: bool,
) -> Result<LitList, JudgeRefusal>
    requires few { vars ≤ MAX_VARIABLE }
    ensures judged { JudgesBy (refused_where causes.VarUnknown (list_any (λ z. nat_lt vars (nat_abs z)) lits.now) ∷ refused_where causes.IdInUse is_live ∷ []) result }
    ensures literals { IfOk result (λ target. target ≡ literals lits.now) }
{
    match known_literals(room, vars, lits)? {
        None => Err(JudgeRefusal::Wrong(Cause::VarUnknown)),
        Some(_) if is_live => Err(JudgeRefusal::Wrong(Cause::IdInUse)),
        Some(target) => Ok(target),
    }
}

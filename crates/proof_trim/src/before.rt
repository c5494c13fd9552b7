//! What is wanted before a step, going back.
ghost use Rattle.std.specs.Prelude.{◌≡◌, ◌≤◌, ◌+◌, ◌||◌, length, IfOk, OnOk};
ghost use Rattle.proof_trim.specs.Integers.{part};
ghost use Rattle.proof_trim.specs.NameSets.{Has, has_name, hinted, names_put, wants_put, went_back};
ghost use Rattle.proof_trim.specs.Puts.{hint_kind, put_by};

use crate::head::PackedStep;
use crate::integers::Integers;
use crate::names::NameSet;
use crate::put::{hint_kind, put_by};
use std::alloc::AllocError;

/// Puts what the hints of a step name into a set. They are not copied.
#[inline(always)]
fn want_hints(wanted: &mut NameSet, step: PackedStep, packed: &Integers) -> Result<(), AllocError>
    requires lists { step.start + step.head.literals ≤ step.end }
    requires high { step.end ≤ length packed.now }
    ensures { OnOk result (Has wanted.new (λ name. hinted (hint_kind step.head.kind) (part packed.now (step.start + step.head.literals) step.end) name || has_name wanted.old name)) }
{
    match hint_kind(step.head.kind) {
        Some(kind) => wanted.insert_hints(kind, packed, step.hints_start(), step.end),
        None => Ok(()),
    }
}

/// Goes back over a step: whether it is needed.
#[inline(always)]
pub(crate) fn want_before(
    wanted: &mut NameSet,
    step: PackedStep,
    packed: &Integers,
    is_last: bool,
) -> Result<bool, AllocError>
    requires lists { step.start + step.head.literals ≤ step.end }
    requires high { step.end ≤ length packed.now }
    ensures needed { IfOk result (λ needed. needed ≡ (is_last || wants_put (has_name wanted.old) (put_by step.head.kind step.id))) }
    ensures wanted { IfOk result (λ needed. Has wanted.new (went_back needed (hinted (hint_kind step.head.kind) (part packed.now (step.start + step.head.literals) step.end)) (λ name. names_put name (put_by step.head.kind step.id)) (has_name wanted.old))) }
{
    match put_by(step.head.kind, step.id) {
        Some(put) => {
            let was = wanted.take(put.kind, put.id);
            let needed = is_last || was;
            if needed {
                want_hints(wanted, step, packed)?;
            }
            Ok(needed)
        }
        None => Ok(is_last),
    }
}

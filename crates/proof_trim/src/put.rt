//! What steps put.
ghost use Rattle.std.specs.Prelude.{◌≡◌};
ghost use Rattle.proof_trim.specs.Puts.{hint_kind, put_by};

use crate::head::StepKind;
use proof_rules::Kind;

/// A constraint of this kind, put under this id.
#[derive(Clone, Copy, Drop)]
pub(crate) struct Put {
    pub(crate) kind: Kind,
    pub(crate) id: u64,
}

/// What a step of this kind and id puts, if it is no deletion.
#[inline(always)]
pub(crate) fn put_by(kind: StepKind, id: u64) -> Option<Put>
    ensures { result ≡ put_by kind id }
{
    match kind {
        StepKind::Clause | StepKind::ClauseOfParity => Some(Put {
            kind: Kind::Clauses,
            id,
        }),
        StepKind::Parity | StepKind::ParityOfClauses => Some(Put {
            kind: Kind::Parities,
            id,
        }),
        StepKind::DeleteClauses | StepKind::DeleteParities => None,
    }
}

/// The kind of what the hints of such a step name, if it is no deletion.
pub(crate) fn hint_kind(kind: StepKind) -> Option<Kind>
    ensures { result ≡ hint_kind kind }
{
    match kind {
        StepKind::Clause | StepKind::ParityOfClauses => Some(Kind::Clauses),
        StepKind::Parity | StepKind::ClauseOfParity => Some(Kind::Parities),
        StepKind::DeleteClauses | StepKind::DeleteParities => None,
    }
}

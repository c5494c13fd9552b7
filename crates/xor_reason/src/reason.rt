//! Why a row implied a literal, or was missed.
ghost use Rattle.std.specs.Prelude.{◌≡◌, length, IfOk, IsSome};
ghost use Rattle.cx_base.specs.Parity.{normal_form};
ghost use Rattle.parity_engine.specs.Equations.{sum_of_numbers};
ghost use Rattle.parity_engine.specs.Written.{IsWritten, AreRising};
ghost use Rattle.parity_engine.specs.State.{OfNamed, named_at};
ghost use Rattle.xor_reason.specs.ReasonClause.{AreAssigned, IsReasonClause, IsReasonFor};

use crate::literals::{literals_for, turned_literals};
use cx_base::{IdList, Lit, LitList, Row};
use cx_trail::Trail;
use parity_engine::ParityEngine;
use std::alloc::{AllocError, Global};

/// A named row with the clause that it gives under the values of a trail.
#[derive(Drop)]
pub struct ReasonOf {
    /// The row as a parity, its variables rising.
    pub parity: LitList,
    /// The numbers of the given parities that the row is the sum of, from 1 and rising.
    pub sources: IdList,
    /// A literal for each variable of the row.
    pub clause: LitList,
}

/// The reason that a named row gives: for a literal that it implied, or, where none is given, for a conflict.
///
/// Each variable of the row is assigned. With an implied literal, which is true and of one of the variables, the
/// trail's values meet the row; with none they miss it. Each other literal of the clause is false on the trail, and
/// the parity implies the clause. It fails only where memory runs out.
pub fn reason_clause<P: ParityEngine>(
    alloc: Global,
    engine: &P,
    row: Row,
    implied: Option<Lit>,
    trail: &Trail,
) -> Result<ReasonOf, AllocError>
    requires named { IsSome (named_at (P.state engine.now) row) }
    requires assigned { OfNamed (P.state engine.now) row (λ n. AreAssigned trail.now n.form) }
    requires kind { OfNamed (P.state engine.now) row (λ n. IsReasonFor trail.now implied n.form) }
    ensures parity { IfOk result (λ r. OfNamed (P.state engine.now) row (λ n. IsWritten n.form r.parity)) }
    ensures sources { IfOk result (λ r. OfNamed (P.state engine.now) row (λ n. r.sources ≡ n.sources)) }
    ensures numbers { IfOk result (λ r. AreRising 1 (length (P.state engine.now).parities) r.sources) }
    ensures sum { IfOk result (λ r. OfNamed (P.state engine.now) row (λ n. n.form ≡ sum_of_numbers (P.state engine.now).parities r.sources)) }
    ensures clause { IfOk result (λ r. OfNamed (P.state engine.now) row (λ n. IsReasonClause trail.now implied n.form r.parity r.clause)) }
{
    let parity = engine.row_parity(row)?;
    let sources = engine.row_sources(row)?;
    let clause = literals_for(alloc, trail, &implied, parity.as_slice())?;
    Ok(ReasonOf {
        parity,
        sources,
        clause,
    })
}

/// The clause of the reason that a row gives which is written so, in the place of its parity.
///
/// The row is as `reason_clause` asks.
pub fn clause_in_place(trail: &Trail, implied: Option<Lit>, parity: LitList) -> LitList
    requires written { IsWritten (normal_form parity) parity }
    requires assigned { AreAssigned trail.now (normal_form parity) }
    requires kind { IsReasonFor trail.now implied (normal_form parity) }
    ensures { IsReasonClause trail.now implied (normal_form parity) parity result }
{
    turned_literals(trail, &implied, parity)
}

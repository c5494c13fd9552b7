//! Formulas made literal by literal.
ghost use Rattle.std.specs.Prelude.{◌≡◌, ◌≤◌, [], ◌∷◌, ◌++◌, OnOk, OnErr, IfOk};
ghost use Rattle.cx_base.specs.Problem.{greatest_variable};
ghost use Rattle.cx_base.specs.Drafts.{Draft};
ghost use Rattle.cx_base.specs.Heads.{of_kind};
ghost use Rattle.cx_base.specs.declared.literal.TheConstants.{MAX_VARIABLE};
ghost use Rattle.cx_base.specs.declared.constraint.Constraint.TheVariants as constraint;

use crate::assumed::Assumed;
use crate::formula::{ConstraintHead, ConstraintKind, Formula};
use crate::literal::Lit;
use crate::places::Places;
use std::alloc::{AllocError, Global};
use std::marker::Model;

/// Constraints of a formula to be, and the literals of one that is still open.
#[derive(Drop)]
pub struct FormulaBuilder {
    greatest: u32,
    closed: usize,
    lits: Vec<Lit>,
    heads: Vec<ConstraintHead>,
    places: Places,
    assumed: Assumed,
}

impl Model for FormulaBuilder {
    ghost use Rattle.std.specs.Prelude.{map, drop};
    ghost use Rattle.cx_base.specs.Drafts.{Draft};

    ghost Value = { Draft };

    ghost use Rattle.cx_base.specs.Heads.{stored, IsDraft};
    ghost use Rattle.cx_base.specs.Places.{ArePlaces};
    ghost use Rattle.cx_base.specs.Assumed.{AreAssumed};

    ghost view = { λ b. record { constraints = map (stored b.lits.items) b.heads.items; unfinished = drop b.closed b.lits.items } };

    ghost invariant = { λ b. IsDraft b.greatest b.closed b.lits.items b.heads.items
        × ArePlaces b.places.clauses.items b.places.parities.items (map (stored b.lits.items) b.heads.items)
        × AreAssumed b.assumed.marks.items (map (stored b.lits.items) b.heads.items) };
}

impl FormulaBuilder {
    /// No constraint yet.
    pub fn new(alloc: Global) -> FormulaBuilder
        ensures { result ≡ record { constraints = []; unfinished = [] } }
    {
        FormulaBuilder {
            greatest: 0,
            closed: 0,
            lits: Vec::new(alloc),
            heads: Vec::new(alloc),
            places: Places::new(alloc),
            assumed: Assumed::new(alloc),
        }
    }

    /// Adds a literal to the open constraint. Without memory nothing changes.
    pub fn push(&mut self, lit: Lit) -> Result<(), AllocError>
        ensures ok { OnOk result (self.new ≡ record self.old { unfinished = self.old.unfinished ++ lit ∷ [] }) }
        ensures err { OnErr result (self.new ≡ self.old) }
    {
        let number = lit.var().number();
        self.lits.push(lit)?;
        self.greatest = self.greatest.max(number);
        Ok(())
    }

    /// Ends the open constraint.
    // In each of its places the kind is known, so that a clause pays nothing for assumptions.
    #[inline(always)]
    fn end(&mut self, kind: ConstraintKind) -> Result<(), AllocError>
        ensures ok { OnOk result (self.new ≡ record { constraints = self.old.constraints ++ of_kind kind self.old.unfinished ∷ []; unfinished = [] }) }
        ensures err { OnErr result (self.new ≡ self.old) }
    {
        let place = self.heads.len();
        self.heads.reserve(1)?;
        self.assumed.reserve(kind, self.greatest)?;
        self.places.push(kind, place)?;
        let len = self.lits.len() - self.closed;
        self.assumed
            .mark(kind, self.greatest, &self.lits[self.closed..]);
        self.heads.push_reserved(ConstraintHead {
            kind,
            start: self.closed,
            len,
        });
        self.closed = self.lits.len();
        Ok(())
    }

    /// Makes the open literals a clause. Without memory nothing changes.
    pub fn end_clause(&mut self) -> Result<(), AllocError>
        ensures ok { OnOk result (self.new ≡ record { constraints = self.old.constraints ++ constraint.Clause self.old.unfinished ∷ []; unfinished = [] }) }
        ensures err { OnErr result (self.new ≡ self.old) }
    {
        self.end(ConstraintKind::Clause)
    }

    /// Makes the open literals a parity. Without memory nothing changes.
    pub fn end_parity(&mut self) -> Result<(), AllocError>
        ensures ok { OnOk result (self.new ≡ record { constraints = self.old.constraints ++ constraint.Parity self.old.unfinished ∷ []; unfinished = [] }) }
        ensures err { OnErr result (self.new ≡ self.old) }
    {
        self.end(ConstraintKind::Parity)
    }

    /// Makes the open literals an assumption constraint. Without memory nothing changes.
    pub fn end_assume(&mut self) -> Result<(), AllocError>
        ensures ok { OnOk result (self.new ≡ record { constraints = self.old.constraints ++ constraint.Assume self.old.unfinished ∷ []; unfinished = [] }) }
        ensures err { OnErr result (self.new ≡ self.old) }
    {
        self.end(ConstraintKind::Assume)
    }

    /// The formula of the constraints. Its number of variables is the greatest of `at_least` and the variables written.
    pub fn finish(self, at_least: u32) -> Formula
        requires bound { at_least ≤ MAX_VARIABLE }
        requires ended { self.unfinished ≡ [] }
        ensures { result ≡ record { variables = greatest_variable at_least self.constraints; constraints = self.constraints } }
    {
        Formula {
            vars: at_least.max(self.greatest),
            lits: self.lits,
            heads: self.heads,
            places: self.places,
            assumed: self.assumed,
        }
    }
}

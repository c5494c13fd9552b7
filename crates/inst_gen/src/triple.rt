//! Three literals, of which a planted parity or clause is made.
ghost use Rattle.std.specs.Prelude.{◌≡◌, ◌∷◌, length, ◌++◌, OnOk};
ghost use Rattle.cx_base.specs.Problem.{AreWithin, clause_met, parity_met};
ghost use Rattle.inst_gen.specs.Triples.{literals_in};

use cx_base::{FormulaBuilder, Lit};
use std::alloc::AllocError;

/// Three literals in order.
#[derive(Clone, Copy, Drop)]
pub(crate) struct Triple {
    pub first: Lit,
    pub second: Lit,
    pub third: Lit,
}

impl Triple {
    /// Whether some literal is true.
    pub fn has_true(&self, values: &[bool]) -> bool
        requires { AreWithin (length values.now) (literals_in self.now) }
        ensures { result ≡ clause_met values.now (literals_in self.now) }
    {
        self.first.is_true(values) || self.second.is_true(values) || self.third.is_true(values)
    }

    /// Whether an odd number of literals is true.
    pub fn has_odd_true(&self, values: &[bool]) -> bool
        requires { AreWithin (length values.now) (literals_in self.now) }
        ensures { result ≡ parity_met values.now (literals_in self.now) }
    {
        let others = self.second.is_true(values) != self.third.is_true(values);
        self.first.is_true(values) != others
    }

    /// Adds the literals to a formula's open constraint.
    pub fn push_to(&self, builder: &mut FormulaBuilder) -> Result<(), AllocError>
        ensures { OnOk result (builder.new ≡ record builder.old { unfinished = builder.old.unfinished ++ literals_in self.now }) }
    {
        builder.push(self.first)?;
        builder.push(self.second)?;
        builder.push(self.third)
    }
}

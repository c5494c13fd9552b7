//! Parities without an allocation of their own.
ghost use Rattle.std.specs.Prelude.{◌≡◌, IfOk, length};

use cx_base::{Lit, LitList};
use std::alloc::{AllocError, Global};
use std::marker::Model;

/// Parities whose literals follow one another, so that an empty one takes eight bytes.
#[derive(Drop)]
pub(crate) struct FlatParities {
    lits: Vec<Lit>,
    /// How many literals each parity has.
    lengths: Vec<usize>,
}

impl Model for FlatParities {
    ghost use Rattle.std.specs.Prelude.{List};
    ghost use Rattle.cx_base.specs.Literals.{Literal};

    ghost Value = { List (List Literal) };

    ghost use Rattle.gf2_matrix.specs.Cutting.{cut};

    ghost view = { λ s. cut s.lits.items s.lengths.items };
}

impl FlatParities {
    /// A copy of the parities.
    pub(crate) fn copy_of(alloc: Global, parities: &[LitList]) -> Result<FlatParities, AllocError>
        ensures { IfOk result (λ copy. copy ≡ parities.now) }
    {
        let mut lits = Vec::new(alloc);
        let mut lengths = Vec::with_capacity(alloc, parities.len())?;
        for parity in parities {
            let own = parity.as_slice();
            lits.extend_from_slice(own)?;
            lengths.push(own.len())?;
        }
        Ok(FlatParities { lits, lengths })
    }

    /// The number of parities.
    pub(crate) fn len(&self) -> usize
        ensures { result ≡ length self.now }
    {
        self.lengths.len()
    }
}

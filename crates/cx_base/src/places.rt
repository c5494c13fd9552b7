//! Which constraints of a formula are clauses, and which are parities.
ghost use Rattle.std.specs.Prelude.{◌≡◌, [], ◌++◌, OnOk, OnErr};
ghost use Rattle.cx_base.specs.Places.{clause_place, parity_place};

use crate::formula::ConstraintKind;
use std::alloc::{AllocError, Global};

/// The places of the clauses among the constraints, from 0 and in order, and those of the parities.
#[derive(Drop)]
pub(crate) struct Places {
    pub clauses: Vec<usize>,
    pub parities: Vec<usize>,
}

impl Places {
    /// No place yet.
    pub fn new(alloc: Global) -> Places
        ensures clauses { result.clauses.items ≡ [] }
        ensures parities { result.parities.items ≡ [] }
    {
        Places {
            clauses: Vec::new(alloc),
            parities: Vec::new(alloc),
        }
    }

    /// One more place, for a constraint of this kind. Without memory the places stay.
    pub fn push(&mut self, kind: ConstraintKind, place: usize) -> Result<(), AllocError>
        ensures clauses { OnOk result (self.new.clauses.items ≡ self.old.clauses.items ++ clause_place kind place) }
        ensures parities { OnOk result (self.new.parities.items ≡ self.old.parities.items ++ parity_place kind place) }
        ensures same_clauses { OnErr result (self.new.clauses.items ≡ self.old.clauses.items) }
        ensures same_parities { OnErr result (self.new.parities.items ≡ self.old.parities.items) }
    {
        match kind {
            ConstraintKind::Clause => self.clauses.push(place)?,
            ConstraintKind::Parity => self.parities.push(place)?,
            ConstraintKind::Assume => {}
        }
        Ok(())
    }
}

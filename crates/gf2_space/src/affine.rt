//! A point and vectors, kept as rows.
ghost use Rattle.std.specs.Prelude.{◌≡◌, ◌-◌, ◌≤◌, length, slice_index, slice_index_or, [], ◌∷◌, ◌++◌, IsTrue, ◌↔◌};
ghost use Rattle.cx_base.specs.declared.literal.TheConstants.{MAX_VARIABLE};
ghost use Rattle.parity_engine.specs.Equations.{numbers_from};
ghost use Rattle.gf2_space.specs.Supports.{AreSupports};
ghost use Rattle.cx_base.specs.Literals.{value_of};
ghost use Rattle.gf2_space.specs.Kept.{IsKept, space_of};
ghost use Rattle.gf2_space.specs.Solutions.{Solves};
ghost use Rattle.gf2_space.specs.Spaces.{IsSpaceOf, vector_value};

use crate::reading::{point_value, vector_has};
use crate::supports::Support;
use cx_base::{ConstraintRef, Var};
use gf2_lists::ListedRows;
use std::marker::Model;

/// The solutions of parities: those that arise from a point by adding some of its vectors, each from one set of them.
///
/// There is a vector for each free variable. Variables that no parity has are free, and have neither row nor column.
#[derive(Drop)]
pub struct Space {
    rows: ListedRows,
    owners: Vec<u32>,
    free: Vec<u32>,
    supports: Vec<Support>,
}

impl Model for Space {
    ghost use Rattle.gf2_space.specs.Spaces.{AffineSpace};
    ghost use Rattle.gf2_space.specs.Kept.{IsKept, space_of};
    ghost use Rattle.gf2_space.specs.Supports.{AreSupports};

    ghost Value = { AffineSpace };

    ghost view = { λ s. space_of s.rows s.owners.items s.free.items };

    ghost invariant = { λ s. IsKept s.rows s.owners.items s.free.items × AreSupports s.rows s.owners.items s.supports.items s.rows.vars };
}

impl Space {
    /// The space of rows in echelon form.
    pub(crate) fn new(
        rows: ListedRows,
        owners: Vec<u32>,
        free: Vec<u32>,
        supports: Vec<Support>,
    ) -> Space
        requires kept { IsKept rows owners.items free.items }
        requires supports { AreSupports rows owners.items supports.items rows.vars }
        ensures { result ≡ space_of rows owners.items free.items }
    {
        Space {
            rows,
            owners,
            free,
            supports,
        }
    }

    /// The number of variables.
    pub fn vars(&self) -> u32
        ensures is { result ≡ self.now.vars }
        ensures small { result ≤ MAX_VARIABLE }
    {
        self.rows.vars()
    }

    /// How many vectors it has: as many as there are free variables.
    pub fn dimension(&self) -> u64
        ensures count { result ≡ length self.now.free }
        ensures space { IsSpaceOf self.now.vars self.now.parities self.now }
    {
        self.free.len() as u64
    }

    /// The value of a variable in the point.
    pub fn point(&self, var: Var) -> bool
        requires { var ≤ self.now.vars }
        ensures { result ≡ value_of self.now.point var }
    {
        // `index` tells the proof that there is a variable 1.
        let _index = var.index();
        point_value(&self.rows, &self.owners, var)
    }

    /// The free variable with this number, from 1, in rising order.
    pub fn free(&self, number: u64) -> Var
        requires low { 1 ≤ number }
        requires high { number ≤ length self.now.free }
        ensures { result ≡ slice_index self.now.free (number - 1) }
    {
        // `vars` tells the proof that the variables are few.
        let _vars = self.rows.vars();
        Var::new(self.free[number as usize - 1])
    }

    /// Whether the vector with this number, from 1, has the variable.
    pub fn has(&self, number: u64, var: Var) -> bool
        requires low { 1 ≤ number }
        requires high { number ≤ length self.now.free }
        requires within { var ≤ self.now.vars }
        ensures { result ≡ vector_value self.now.vectors (number - 1) var }
    {
        // `index` tells the proof that there is a variable 1.
        let _index = var.index();
        vector_has(&self.rows, &self.owners, self.free(number), var)
    }

    /// The variables of the vector with this number, from 1, but for the free one, which is above them.
    pub(crate) fn below(&self, number: u64) -> &[u32]
        requires low { 1 ≤ number }
        requires high { number ≤ length self.now.free }
        ensures { numbers_from 1 (slice_index_or self.now.vectors (number - 1) []) ≡ result.now ++ slice_index self.now.free (number - 1) ∷ [] }
    {
        let column = self.rows.place_of(self.free(number));
        if column < self.rows.columns() {
            &self.supports[column].vars
        } else {
            &[]
        }
    }

    /// Whether the values are a solution.
    pub fn contains(&self, values: &[bool]) -> bool
        requires { length values.now ≡ self.now.vars }
        ensures { IsTrue result ↔ Solves self.now.vars self.now.parities values.now }
    {
        for parity in self.rows.given() {
            if !ConstraintRef::Parity(parity.as_slice()).is_met(values) {
                return false;
            }
        }
        true
    }
}

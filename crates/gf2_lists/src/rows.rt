//! Rows in echelon form over parities.
ghost use Rattle.std.specs.Prelude.{◌≡◌, ℕ, ◌-◌, ◌<◌, ◌≤◌, false, true, length, slice_index, IfOk, MatchOption};
ghost use Rattle.std.specs.List.{AllByRecursion};
ghost use Rattle.cx_base.specs.Problem.{AreWithin};
ghost use Rattle.cx_base.specs.declared.literal.TheConstants.{MAX_VARIABLE};
ghost use Rattle.gf2_matrix.specs.Columns.{place};
ghost use Rattle.gf2_matrix.specs.Content.{row_at, has, IsLeastOf};
ghost use Rattle.gf2_lists.specs.Echelon.{IsEchelonOf};

use crate::columns::columns_of;
use crate::echelon::echelon_rows;
use crate::row::{ListedRow, count_below, is_listed};
use cx_base::{LitList, ParityList, Var};
use std::alloc::{AllocError, Global};
use std::marker::Model;

/// Rows that say what given parities say, each as a list of its variables, where no row has the least variable of
/// another. Its columns are the variables that rows have, rising.
#[derive(Drop)]
pub struct ListedRows {
    vars: u32,
    given: ParityList,
    columns: Vec<u32>,
    rows: Vec<ListedRow>,
}

impl Model for ListedRows {
    ghost use Rattle.gf2_matrix.specs.Content.{Content};
    ghost use Rattle.std.specs.Prelude.{◌≤◌, ◌<◌, ◌^◌, length};
    ghost use Rattle.cx_base.specs.declared.literal.TheConstants.{MAX_VARIABLE};
    ghost use Rattle.parity_engine.specs.Written.{AreRising};
    ghost use Rattle.gf2_lists.specs.Listed.{AreListed};
    ghost use Rattle.gf2_lists.specs.Terms.{listed};
    ghost use Rattle.gf2_lists.specs.Occurring.{HaveColumns};

    ghost Value = { Content };

    ghost view = { λ m. listed m.vars m.given m.columns.items m.rows.items };

    ghost invariant = { λ m. (m.vars ≤ MAX_VARIABLE) × (length m.rows.items < 2 ^ 32) × AreListed m.vars m.rows.items × AreRising 1 m.vars m.columns.items × HaveColumns m.rows.items m.columns.items };
}

impl ListedRows {
    /// Rows in echelon form that say what the parities say. 4,294,967,296 parities and more count as out of memory.
    pub fn echelon(alloc: Global, vars: u32, given: ParityList) -> Result<ListedRows, AllocError>
        requires few { vars ≤ MAX_VARIABLE }
        requires within { AllByRecursion (AreWithin vars) given }
        ensures { IfOk result (IsEchelonOf vars given) }
    {
        if given.as_slice().len() > u32::MAX as usize {
            return Err(AllocError);
        }
        let rows = echelon_rows(alloc, vars, &given)?;
        let columns = columns_of(alloc, vars, &rows)?;
        Ok(ListedRows {
            vars,
            given,
            columns,
            rows,
        })
    }

    /// The number of variables.
    pub fn vars(&self) -> u32
        ensures is { result ≡ self.now.vars }
        ensures small { result ≤ MAX_VARIABLE }
    {
        self.vars
    }

    /// The given parities.
    pub fn given(&self) -> &[LitList]
        ensures { result.now ≡ self.now.given }
    {
        self.given.as_slice()
    }

    /// The number of rows.
    pub fn rows(&self) -> usize
        ensures { result ≡ length self.now.rows }
    {
        self.rows.len()
    }

    /// The right side of a row.
    pub fn row_right(&self, row: usize) -> bool
        requires { row < length self.now.rows }
        ensures { result ≡ (row_at self.now.rows row).right }
    {
        self.rows[row].right
    }

    /// The least variable of a row.
    pub fn least(&self, row: usize) -> Option<Var>
        requires { row < length self.now.rows }
        ensures { MatchOption result
            ((x : ℕ) → has (row_at self.now.rows row) x ≡ false)
            (λ v. (1 ≤ v) × (v ≤ self.now.vars) × IsLeastOf self.now row (v - 1)) }
    {
        let vars = &self.rows[row].vars;
        if vars.is_empty() {
            return None;
        }
        Some(Var::new(vars[0]))
    }

    /// Whether a row has the variable.
    pub fn has(&self, row: usize, var: Var) -> bool
        requires row_in { row < length self.now.rows }
        requires within { var ≤ self.now.vars }
        ensures { result ≡ has (row_at self.now.rows row) (var - 1) }
    {
        is_listed(&self.rows[row].vars, var.number())
    }

    /// The number of columns.
    pub fn columns(&self) -> usize
        ensures count { result ≡ length self.now.columns }
        ensures few { result ≤ self.now.vars }
        ensures small { self.now.vars ≤ MAX_VARIABLE }
    {
        self.columns.len()
    }

    /// The column of a variable, or the number of columns.
    pub fn place_of(&self, var: Var) -> usize
        ensures { result ≡ place self.now.columns var }
    {
        gf2_matrix::place_of(&self.columns, var.number())
    }

    /// The row's first column from `from` on.
    pub fn next_column(&self, row: usize, from: usize) -> Option<usize>
        requires { row < length self.now.rows }
        ensures { MatchOption result
            ((k : ℕ) → from ≤ k → k < length self.now.columns → has (row_at self.now.rows row) (slice_index self.now.columns k - 1) ≡ false)
            (λ k. (from ≤ k) × (k < length self.now.columns) × (has (row_at self.now.rows row) (slice_index self.now.columns k - 1) ≡ true)
            × ((j : ℕ) → from ≤ j → j < k → has (row_at self.now.rows row) (slice_index self.now.columns j - 1) ≡ false)) }
    {
        if from >= self.columns.len() {
            return None;
        }
        let vars = &self.rows[row].vars;
        let place = count_below(vars, self.columns[from]);
        if place == vars.len() {
            return None;
        }
        Some(gf2_matrix::place_of(&self.columns, vars[place]))
    }
}

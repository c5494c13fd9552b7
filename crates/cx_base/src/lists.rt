//! Small lists, which contracts see as lists.
ghost use Rattle.std.specs.Prelude.{◌≡◌};
ghost use Rattle.cx_base.specs.Numbers.{AreStepIntegers};

use crate::literal::Lit;
use crate::refs::ClauseRef;
use std::alloc::AllocError;
use std::marker::Model;

/// A list of literals.
#[derive(Drop)]
pub struct LitList {
    lits: Vec<Lit>,
}

impl Model for LitList {
    ghost use Rattle.std.specs.Prelude.{List};
    ghost use Rattle.cx_base.specs.Literals.{Literal};

    ghost Value = { List Literal };

    ghost view = { λ a. a.lits.items };
}

impl LitList {
    /// The list of a vector's elements.
    pub fn from_vec(lits: Vec<Lit>) -> LitList
        ensures { result ≡ lits.items }
    {
        LitList { lits }
    }

    /// The elements in order.
    pub fn as_slice(&self) -> &[Lit]
        ensures { result.now ≡ self.now }
    {
        &self.lits
    }

    /// The vector of the elements.
    pub fn into_vec(self) -> Vec<Lit>
        ensures { result.items ≡ self }
    {
        self.lits
    }
}

/// A list of ids.
#[derive(Debug, Drop)]
pub struct IdList {
    ids: Vec<u64>,
}

impl Model for IdList {
    ghost use Rattle.std.specs.Prelude.{List, ℕ};

    ghost Value = { List ℕ };

    ghost view = { λ a. a.ids.items };
}

impl Clone for IdList {
    ghost use Rattle.std.specs.Prelude.{◌≡◌};

    ghost is_clone = { λ list copy. copy ≡ list };

    fn clone(&self) -> Result<IdList, AllocError> {
        let ids = self.ids.clone()?;
        Ok(IdList { ids })
    }
}

impl IdList {
    /// The list of a vector's elements.
    pub fn from_vec(ids: Vec<u64>) -> IdList
        ensures { result ≡ ids.items }
    {
        IdList { ids }
    }

    /// The elements in order.
    pub fn as_slice(&self) -> &[u64]
        ensures { result.now ≡ self.now }
    {
        &self.ids
    }

    /// The vector of the elements.
    pub fn into_vec(self) -> Vec<u64>
        ensures { result.items ≡ self }
    {
        self.ids
    }
}

/// A list of references to clauses.
#[derive(Drop)]
pub struct RefList {
    references: Vec<ClauseRef>,
}

impl Model for RefList {
    ghost use Rattle.std.specs.Prelude.{List, ℕ};

    ghost Value = { List ℕ };

    ghost view = { λ a. a.references.items };
}

impl RefList {
    /// The list of a vector's elements.
    pub fn from_vec(references: Vec<ClauseRef>) -> RefList
        ensures { result ≡ references.items }
    {
        RefList { references }
    }

    /// The elements in order.
    pub fn as_slice(&self) -> &[ClauseRef]
        ensures { result.now ≡ self.now }
    {
        &self.references
    }

    /// The vector of the elements.
    pub fn into_vec(self) -> Vec<ClauseRef>
        ensures { result.items ≡ self }
    {
        self.references
    }
}

/// A list of integers of a step: none is zero, and each has a magnitude up to
/// 9,223,372,036,854,775,807.
#[derive(Debug, Drop)]
pub struct IntList {
    integers: Vec<i64>,
}

impl Model for IntList {
    ghost use Rattle.std.specs.Prelude.{List, ℤ};
    ghost use Rattle.cx_base.specs.Numbers.{AreStepIntegers};

    ghost Value = { List ℤ };

    ghost view = { λ a. a.integers.items };

    ghost invariant = { λ a. AreStepIntegers a.integers.items };
}

impl Clone for IntList {
    ghost use Rattle.std.specs.Prelude.{◌≡◌};

    ghost is_clone = { λ list copy. copy ≡ list };

    fn clone(&self) -> Result<IntList, AllocError> {
        let integers = self.integers.clone()?;
        Ok(IntList { integers })
    }
}

impl IntList {
    /// The list of a vector's integers.
    pub fn from_vec(integers: Vec<i64>) -> IntList
        requires { AreStepIntegers integers.items }
        ensures { result ≡ integers.items }
    {
        IntList { integers }
    }

    /// The integers in order.
    pub fn as_slice(&self) -> &[i64]
        ensures elements { result.now ≡ self.now }
        ensures proper { AreStepIntegers self.now }
    {
        &self.integers
    }

    /// The vector of the integers.
    pub fn into_vec(self) -> Vec<i64>
        ensures elements { result.items ≡ self }
        ensures proper { AreStepIntegers self }
    {
        self.integers
    }
}

/// A list of parities, each by its literals.
#[derive(Drop)]
pub struct ParityList {
    parities: Vec<LitList>,
}

impl Model for ParityList {
    ghost use Rattle.std.specs.Prelude.{List};
    ghost use Rattle.cx_base.specs.Literals.{Literal};

    ghost Value = { List (List Literal) };

    ghost view = { λ a. a.parities.items };
}

impl ParityList {
    /// The list of a vector's elements.
    pub fn from_vec(parities: Vec<LitList>) -> ParityList
        ensures { result ≡ parities.items }
    {
        ParityList { parities }
    }

    /// The elements in order.
    pub fn as_slice(&self) -> &[LitList]
        ensures { result.now ≡ self.now }
    {
        &self.parities
    }

    /// The vector of the elements.
    pub fn into_vec(self) -> Vec<LitList>
        ensures { result.items ≡ self }
    {
        self.parities
    }
}

/// A value for each variable, from variable 1 on.
#[derive(Drop)]
pub struct Values {
    values: Vec<bool>,
}

impl Model for Values {
    ghost use Rattle.std.specs.Prelude.{List, Bool};

    ghost Value = { List Bool };

    ghost view = { λ a. a.values.items };
}

impl Values {
    /// The list of a vector's elements.
    pub fn from_vec(values: Vec<bool>) -> Values
        ensures { result ≡ values.items }
    {
        Values { values }
    }

    /// The elements in order.
    pub fn as_slice(&self) -> &[bool]
        ensures { result.now ≡ self.now }
    {
        &self.values
    }

    /// The vector of the elements.
    pub fn into_vec(self) -> Vec<bool>
        ensures { result.items ≡ self }
    {
        self.values
    }
}

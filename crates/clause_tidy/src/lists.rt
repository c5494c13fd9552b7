//! For each variable a list of clauses.
ghost use Rattle.std.specs.Prelude.{◌≡◌, ◌+◌, ◌<◌, ◌≤◌, ◌++◌, ◌∷◌, [], length, set, true, IfOk, IsTrue, OnOk, Contains};
ghost use Rattle.cx_base.specs.Literals.{Literal};
ghost use Rattle.clause_tidy.specs.Indexes.{AreKnown};
ghost use Rattle.clause_tidy.specs.Listing.{is_chosen, list_of, IsListed, KeepsEntries};

use cx_base::{ClauseRef, Lit, Var};
use std::alloc::{AllocError, Global};
use std::marker::Model;

/// A list of clauses.
#[derive(Drop)]
struct VariableList {
    clauses: Vec<ClauseRef>,
}

impl Model for VariableList {
    ghost use Rattle.std.specs.Prelude.{List, ℕ};

    ghost Value = { List ℕ };

    ghost view = { λ a. a.clauses.items };
}

impl VariableList {
    fn new(alloc: Global) -> VariableList
        ensures { result ≡ [] }
    {
        VariableList {
            clauses: Vec::new(alloc),
        }
    }

    fn push(&mut self, clause: ClauseRef) -> Result<(), AllocError>
        ensures { OnOk result (self.new ≡ self.old ++ clause ∷ []) }
    {
        self.clauses.push(clause)?;
        Ok(())
    }

    fn as_slice(&self) -> &[ClauseRef]
        ensures { result.now ≡ self.now }
    {
        &self.clauses
    }
}

/// For each variable a list of clauses.
#[derive(Drop)]
pub(crate) struct VariableLists {
    lists: Vec<VariableList>,
}

impl Model for VariableLists {
    ghost use Rattle.std.specs.Prelude.{List, ℕ};

    ghost Value = { List (List ℕ) };

    ghost view = { λ a. a.lists.items };
}

impl VariableLists {
    /// An empty list for each variable up to this number.
    pub(crate) fn make(alloc: Global, vars: u32) -> Result<VariableLists, AllocError>
        ensures { IfOk result (λ lists. length lists ≡ vars + 1) }
    {
        let count = vars as usize + 1;
        let mut lists = Vec::with_capacity(alloc, count)?;
        for _ in 0..count {
            lists.push(VariableList::new(alloc))?;
        }
        Ok(VariableLists { lists })
    }

    /// The list of a variable.
    pub(crate) fn of(&self, variable: Var) -> &[ClauseRef]
        requires { variable < length self.now }
        ensures { result.now ≡ list_of self.now variable }
    {
        self.lists[variable.number() as usize].as_slice()
    }

    /// How many clauses the list of a variable has.
    pub(crate) fn len_of(&self, variable: Var) -> usize {
        let place = variable.number() as usize;
        if place < self.lists.len() {
            self.lists[place].as_slice().len()
        } else {
            0
        }
    }

    /// By variable, whether its list has a clause.
    pub(crate) fn used(&self) -> Result<Vec<bool>, AllocError> {
        let mut used = Vec::with_capacity(*self.lists.allocator(), self.lists.len())?;
        for list in &self.lists {
            used.push(!list.as_slice().is_empty())?;
        }
        Ok(used)
    }

    /// Puts a clause into the list of a variable.
    fn put(&mut self, variable: Var, clause: ClauseRef) -> Result<(), AllocError>
        requires { variable < length self.old }
        ensures { OnOk result (self.new ≡ set self.old variable (list_of self.old variable ++ clause ∷ [])) }
    {
        self.lists[variable.number() as usize].push(clause)
    }
}

/// Whether it is a chosen variable: where none was named, all are.
pub(crate) fn is_chosen(chosen: &[bool], variable: Var) -> bool
    ensures { result ≡ is_chosen chosen.now variable }
{
    let place = variable.number() as usize;
    if place < chosen.len() {
        chosen[place]
    } else {
        true
    }
}

/// Puts a clause into the list of a variable, where that is a chosen one.
fn put_chosen(
    lists: &mut VariableLists,
    chosen: &[bool],
    variable: Var,
    clause: ClauseRef,
) -> Result<(), AllocError>
    requires { variable < length lists.old }
    ensures count { OnOk result (length lists.new ≡ length lists.old) }
    ensures kept { OnOk result (KeepsEntries lists.old lists.new) }
    ensures has { OnOk result (is_chosen chosen.now variable ≡ true → Contains (list_of lists.new variable) clause) }
{
    if !is_chosen(chosen, variable) {
        return Ok(());
    }
    lists.put(variable, clause)
}

/// Puts a clause into the list of each of its chosen variables.
pub(crate) fn enter(
    lists: &mut VariableLists,
    chosen: &[bool],
    lits: &[Lit],
    clause: ClauseRef,
) -> Result<(), AllocError>
    requires { AreKnown lists.old lits.now }
    ensures count { OnOk result (length lists.new ≡ length lists.old) }
    ensures kept { OnOk result (KeepsEntries lists.old lists.new) }
    ensures listed { OnOk result (IsListed lists.new chosen.now lits.now clause) }
{
    for lit in lits {
        put_chosen(lists, chosen, lit.var(), clause)?;
    }
    Ok(())
}

/// Puts a clause into the list of each of its chosen variables, unless its reference is before the first one.
pub(crate) fn enter_from(
    lists: &mut VariableLists,
    chosen: &[bool],
    lits: &[Lit],
    clause: ClauseRef,
    first: u32,
) -> Result<(), AllocError>
    requires { AreKnown lists.old lits.now }
    ensures count { OnOk result (length lists.new ≡ length lists.old) }
    ensures kept { OnOk result (KeepsEntries lists.old lists.new) }
    ensures listed { OnOk result (first ≤ clause → IsListed lists.new chosen.now lits.now clause) }
{
    if clause.place() < first {
        return Ok(());
    }
    enter(lists, chosen, lits, clause)
}

/// Whether a variable is a chosen one and has an empty list.
fn is_missing(lists: &VariableLists, chosen: &[bool], variable: Var) -> bool
    requires { variable < length lists.now }
    ensures { IsTrue result → (is_chosen chosen.now variable ≡ true) × (list_of lists.now variable ≡ []) }
{
    is_chosen(chosen, variable) && lists.of(variable).is_empty()
}

/// Whether the list of some chosen variable of these literals is empty.
pub(crate) fn lacks_one(lists: &VariableLists, chosen: &[bool], lits: &[Lit]) -> bool
    requires { AreKnown lists.now lits.now }
    ensures { IsTrue result → (l : Literal) × Contains lits.now l × (is_chosen chosen.now l.variable ≡ true) × (list_of lists.now l.variable ≡ []) }
{
    for lit in lits {
        if is_missing(lists, chosen, lit.var()) {
            return true;
        }
    }
    false
}

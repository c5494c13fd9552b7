//! The constraints of the formula by their content.
ghost use Rattle.std.specs.Prelude.{◌≡◌, ◌≤◌, ◌<◌, ◌+◌, ◌-◌, ◌^◌, length, IfOk, IfSome, MatchOption, IsFalse, Some, slice_get};
ghost use Rattle.std.specs.List.{All};
ghost use Rattle.cx_base.specs.Problem.{clauses_of, parities_of};
ghost use Rattle.cx_semantics.specs.LogRules.{is_original, IsOriginalParity};
ghost use Rattle.fratx_elab.specs.Elaborates.{IsClauseNumber, IsParityNumber, AreCounts, number_of_clauses, number_of_parities};
ghost use Rattle.fratx_elab.specs.Contents.{HasFront, AreNumbered, Say, StandsFor};
ghost use Rattle.proof_rules.specs.Contents.{IsClauseContent, IsParityContent};
ghost use Rattle.fratx_elab.specs.declared.naming.TheConstants.{MAX_ID};

use crate::content_index::{Content, ContentEntry, ContentIndex};
use crate::naming::{MAX_ID, ProofId};
use cx_base::{Formula, Lit};
use proof_rules::{fill_clause_content, fill_parity_content};
use std::alloc::{AllocError, Global};

/// How many clauses and how many parities a formula has.
#[derive(Clone, Copy, Drop)]
pub struct Counts {
    pub clauses: u64,
    pub parities: u64,
}

/// The formula's numbers of clauses and of parities.
pub fn count_kinds(formula: &Formula) -> Counts
    ensures counts { AreCounts result formula.now }
    ensures kinds { result.clauses + result.parities ≤ length formula.now.constraints }
    ensures few { length formula.now.constraints < 2 ^ 60 }
{
    let _constraints = formula.len();
    Counts {
        clauses: formula.clause_count() as u64,
        parities: formula.parity_count() as u64,
    }
}

/// The numbers of the formula's clauses and parities by what they say, each with the least where several say the same.
#[derive(Drop)]
pub struct Originals {
    clauses: ContentIndex,
    parities: ContentIndex,
}

/// The formula's clauses in order, each by what it says.
fn clause_entries(alloc: Global, formula: &Formula) -> Result<Vec<ContentEntry>, AllocError>
    requires { length formula.now.constraints < MAX_ID }
    ensures fronts { IfOk result (λ entries. All HasFront entries.items) }
    ensures numbered { IfOk result (λ entries. AreNumbered entries.items) }
    ensures say { IfOk result (λ entries. Say IsClauseContent (clauses_of formula.now.constraints) entries.items) }
{
    let mut codes = Vec::new(alloc);
    let mut entries = Vec::with_capacity(alloc, formula.clause_count())?;
    for index in 0..formula.clause_count() {
        fill_clause_content(&mut codes, formula.clause(index + 1))?;
        let content = Content::from_slice(alloc, &codes)?;
        let number = ProofId::new(index as u64 + 1);
        entries.push(ContentEntry::new(content, number))?;
    }
    Ok(entries)
}

/// The formula's parities in order, each by what it says.
fn parity_entries(alloc: Global, formula: &Formula) -> Result<Vec<ContentEntry>, AllocError>
    requires { length formula.now.constraints < MAX_ID }
    ensures fronts { IfOk result (λ entries. All HasFront entries.items) }
    ensures numbered { IfOk result (λ entries. AreNumbered entries.items) }
    ensures say { IfOk result (λ entries. Say IsParityContent (parities_of formula.now.constraints) entries.items) }
{
    let mut numbers = Vec::new(alloc);
    let mut entries = Vec::with_capacity(alloc, formula.parity_count())?;
    for index in 0..formula.parity_count() {
        fill_parity_content(&mut numbers, formula.parity(index + 1))?;
        let content = Content::from_slice(alloc, &numbers)?;
        let number = ProofId::new(index as u64 + 1);
        entries.push(ContentEntry::new(content, number))?;
    }
    Ok(entries)
}

/// The number of the formula's clause under this id, where it has these literals in this order.
fn clause_under(formula: &Formula, id: u64, lits: &[Lit]) -> Option<ProofId>
    ensures number { IfSome result (λ number. number ≡ id) }
    ensures within { IfSome result (λ number. number ≤ number_of_clauses formula.now) }
    ensures same { IfSome result (λ number. slice_get (clauses_of formula.now.constraints) (number - 1) ≡ Some lits.now) }
{
    if 1 <= id && id <= count_kinds(formula).clauses && formula.clause(id as usize) == lits {
        Some(ProofId::new(id))
    } else {
        None
    }
}

/// The number of the formula's parity under this id, where it has these literals in this order.
fn parity_under(formula: &Formula, id: u64, lits: &[Lit]) -> Option<ProofId>
    ensures number { IfSome result (λ number. number ≡ id) }
    ensures within { IfSome result (λ number. number ≤ number_of_parities formula.now) }
    ensures same { IfSome result (λ number. slice_get (parities_of formula.now.constraints) (number - 1) ≡ Some lits.now) }
{
    if 1 <= id && id <= count_kinds(formula).parities && formula.parity(id as usize) == lits {
        Some(ProofId::new(id))
    } else {
        None
    }
}

impl Originals {
    /// Those of the formula.
    pub fn of(alloc: Global, formula: &Formula) -> Result<Originals, AllocError>
        requires { length formula.now.constraints < MAX_ID }
        ensures { IfOk result (λ originals. StandsFor originals formula.now) }
    {
        let clauses = ContentIndex::of(alloc, clause_entries(alloc, formula)?)?;
        let parities = ContentIndex::of(alloc, parity_entries(alloc, formula)?)?;
        Ok(Originals { clauses, parities })
    }

    /// The least number of a clause of the formula with the same set of literals; none where it has no such clause.
    ///
    /// The clause of the number `near` is looked at first: a log mostly has the formula's clauses under their numbers.
    pub fn clause_number(
        &self,
        alloc: Global,
        formula: &Formula,
        near: u64,
        lits: &[Lit],
    ) -> Result<Option<ProofId>, AllocError>
        requires { StandsFor self.now formula.now }
        ensures { IfOk result (λ found. MatchOption found (IsFalse (is_original formula.now lits.now)) (IsClauseNumber formula.now lits.now)) }
    {
        if let Some(number) = clause_under(formula, near, lits) {
            return Ok(Some(self.clauses.first(number)));
        }
        let mut codes = Vec::new(alloc);
        fill_clause_content(&mut codes, lits)?;
        Ok(self.clauses.find(Content::from_vec(codes)))
    }

    /// The least number of a parity of the formula with the same normal form; none where it has no such parity.
    ///
    /// The parity of the number `near` is looked at first.
    pub fn parity_number(
        &self,
        alloc: Global,
        formula: &Formula,
        near: u64,
        lits: &[Lit],
    ) -> Result<Option<ProofId>, AllocError>
        requires { StandsFor self.now formula.now }
        ensures { IfOk result (λ found. MatchOption found (¬ IsOriginalParity formula.now lits.now) (IsParityNumber formula.now lits.now)) }
    {
        if let Some(number) = parity_under(formula, near, lits) {
            return Ok(Some(self.parities.first(number)));
        }
        let mut numbers = Vec::new(alloc);
        fill_parity_content(&mut numbers, lits)?;
        Ok(self.parities.find(Content::from_vec(numbers)))
    }
}

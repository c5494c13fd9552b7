//! The entries of clauses that start alike.
ghost use Rattle.std.specs.Prelude.{◌≡◌, ◌≤◌, Some, None, map, IfOk, OnOk, length, ◌++◌, []};
ghost use Rattle.std.specs.Bool.{MatchBool, OnTrue};
ghost use Rattle.std.specs.List.{AllByRecursion};
ghost use Rattle.cx_base.specs.Problem.{clauses_of};
ghost use Rattle.xor_recover.specs.Rows.{placed, gathered, rows_if};
ghost use Rattle.xor_recover.specs.Entries.{row_of, IsPosition};
ghost use Rattle.xor_recover.specs.Starts.{rows_at, IsStart};
ghost use Rattle.xor_recover.specs.Wholes.{IsWhole, starts_of, starts_of_all};
ghost use Rattle.xor_recover.specs.Groups.{AreFirsts};

use crate::entry::{ClauseEntry, WIDEST};
use crate::starts::Start;
use crate::wholes::Whole;
use cx_base::{Formula, Lit};
use std::alloc::{AllocError, Global};

/// Where a literal belongs among literals of rising variables.
#[derive(Clone, Copy, Drop)]
enum Position {
    /// Its variable is not there, and belongs before this place.
    New(usize),
    /// It is there.
    Same,
    /// Its negation is there.
    Negated,
}

/// Where the literal belongs.
fn position_of(normal: &[Lit], lit: Lit) -> Position
    ensures { IsPosition result lit normal.now }
{
    for place in 0..normal.len() {
        let other = normal[place];
        if lit.var().number() < other.var().number() {
            return Position::New(place);
        }
        if lit.var().number() == other.var().number() {
            return if lit.is_negative() == other.is_negative() {
                Position::Same
            } else {
                Position::Negated
            };
        }
    }
    Position::New(normal.len())
}

/// Puts a literal to its place among literals of rising variables, if they stay at most six without its negation.
fn place(normal: &mut Vec<Lit>, lit: Lit) -> Result<bool, AllocError>
    requires { length normal.old.items ≤ 6 }
    ensures { IfOk result (λ taken. MatchBool taken (placed lit normal.old.items ≡ Some normal.new.items) (placed lit normal.old.items ≡ None)) }
{
    match position_of(normal, lit) {
        Position::New(place) => {
            if normal.len() == WIDEST {
                return Ok(false);
            }
            normal.insert(place, lit)?;
            Ok(true)
        }
        Position::Same => Ok(true),
        Position::Negated => Ok(false),
    }
}

/// Makes a clause's literals those of rising variables, each once, if there are at most six and none with its negation.
fn gather(normal: &mut Vec<Lit>, lits: &[Lit]) -> Result<bool, AllocError>
    ensures gathered { IfOk result (λ taken. MatchBool taken (gathered [] lits.now ≡ Some normal.new.items) (gathered [] lits.now ≡ None)) }
    ensures short { IfOk result (λ taken. OnTrue taken (length normal.new.items ≤ 6)) }
{
    normal.clear();
    for lit in lits {
        if !place(normal, *lit)? {
            return Ok(false);
        }
    }
    Ok(true)
}

/// Room for the clauses of a run, which is kept from run to run.
#[derive(Drop)]
pub(crate) struct Room {
    normal: Vec<Lit>,
    pub entries: Vec<ClauseEntry>,
}

impl Room {
    /// Room that is empty.
    pub fn new(alloc: Global) -> Result<Room, AllocError> {
        let normal = Vec::with_capacity(alloc, WIDEST)?;
        let entries = Vec::new(alloc);
        Ok(Room { normal, entries })
    }

    /// Adds the entry of a clause of two to six variables.
    fn add(&mut self, lits: &[Lit], number: u64) -> Result<(), AllocError>
        ensures { OnOk result (map row_of self.new.entries.items ≡ map row_of self.old.entries.items ++ rows_if (gathered [] lits.now) number) }
    {
        if gather(&mut self.normal, lits)? && self.normal.len() >= 2 {
            self.entries.push(ClauseEntry::new(&self.normal, number))?;
        }
        Ok(())
    }

    /// Adds the entries of the clauses of two to six variables that start there.
    fn add_starts(&mut self, formula: &Formula, run: &[Start]) -> Result<(), AllocError>
        requires { AllByRecursion (IsStart (clauses_of formula.now.constraints)) run.now }
        ensures { OnOk result (map row_of self.new.entries.items ≡ map row_of self.old.entries.items ++ rows_at (clauses_of formula.now.constraints) run.now) }
    {
        for start in run {
            let number = start.number;
            self.add(formula.clause(number as usize), number)?;
        }
        Ok(())
    }

    /// Adds the entries of the parity's clauses.
    fn add_whole(&mut self, formula: &Formula, whole: &Whole) -> Result<(), AllocError>
        requires { IsWhole (clauses_of formula.now.constraints) whole.now }
        ensures { OnOk result (map row_of self.new.entries.items ≡ map row_of self.old.entries.items ++ rows_at (clauses_of formula.now.constraints) (starts_of whole.now)) }
    {
        // that the numbers fit, which this call tells the proof
        let _clauses = formula.clause_count();
        let first = whole.start.number as usize;
        let count = whole.count();
        for index in 0..count {
            let number = first + index;
            self.add(formula.clause(number), number as u64)?;
        }
        Ok(())
    }

    /// Puts the entries in order, each with the least number of its clause.
    fn keep_firsts(&mut self)
        ensures firsts { AreFirsts (map row_of self.old.entries.items) (map row_of self.new.entries.items) }
        ensures fewer { length self.new.entries.items ≤ length self.old.entries.items }
    {
        self.entries.sort_unstable();
        self.entries.dedup_by(|later, first| later.signs == first.signs && later.key == first.key);
    }

    /// Makes the entries those of the clauses of a run, in order, each with the least number of its clause.
    pub fn fill(
        &mut self,
        formula: &Formula,
        run: &[Start],
        wholes: &[Whole],
    ) -> Result<(), AllocError>
        requires starts { AllByRecursion (IsStart (clauses_of formula.now.constraints)) run.now }
        requires wholes { AllByRecursion (IsWhole (clauses_of formula.now.constraints)) wholes.now }
        ensures firsts { OnOk result (AreFirsts (rows_at (clauses_of formula.now.constraints) (run.now ++ starts_of_all wholes.now)) (map row_of self.new.entries.items)) }
        ensures few { OnOk result (length self.new.entries.items ≤ length (run.now ++ starts_of_all wholes.now)) }
    {
        self.entries.clear();
        self.add_starts(formula, run)?;
        for whole in wholes {
            self.add_whole(formula, whole)?;
        }
        self.keep_firsts();
        Ok(())
    }
}

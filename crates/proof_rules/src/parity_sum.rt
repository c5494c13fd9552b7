//! Sums of parities, over marks that are cleared and used again.
ghost use Rattle.std.specs.Prelude.{◌≡◌, ◌≤◌, ◌<◌, ◌++◌, ℕ, OnOk, IsTrue, ◌↔◌, false, nat_eq, set, length};
ghost use Rattle.std.specs.List.{list_any, AllByRecursion};
ghost use Rattle.std.specs.FinSet.{contains};
ghost use Rattle.cx_base.specs.Literals.{differ};
ghost use Rattle.cx_base.specs.Parity.{normal_form};
ghost use Rattle.proof_rules.specs.Assignments.{Lists};
ghost use Rattle.proof_rules.specs.Sums.{zero_sum, plus, flipped, turned};
ghost use Rattle.proof_rules.specs.VariableMarks.{mark_at, is_met, is_odd, left_over, AreMarked, AreMetOnly};

use cx_base::{Lit, Var};
use std::alloc::{AllocError, Global};
use std::marker::Model;

/// What became of a variable since the sum was zero.
#[derive(Clone, Copy, Drop)]
pub enum Mark {
    /// It was not met.
    Unmet,
    /// It was met an even number of times, and is not left.
    Even,
    /// It was met an odd number of times, and is left.
    Odd,
}

/// A sum of parities: the variables that are left, and what the sum of their values is to be.
///
/// It has a mark for each number up to the greatest variable that it met so far: a literal more is one access, to make
/// it zero costs the variables that it met since it was, and what it meets again takes no memory.
#[derive(Drop)]
pub struct ParitySum {
    /// What became of the variable of each number.
    marks: Vec<Mark>,
    /// The variables that were met.
    met: Vec<Var>,
    right_side: bool,
}

impl Model for ParitySum {
    ghost use Rattle.std.specs.FinSet as set;
    ghost use Rattle.cx_base.specs.Parity.{NormalForm, form_code};
    ghost use Rattle.proof_rules.specs.VariableMarks.{left_over, AreMarked};

    ghost Value = { NormalForm };

    ghost coded = { form_code };

    ghost view = { λ p. record { variables = set.from_list (left_over p.marks.items p.met.items); right_side = p.right_side } };

    ghost invariant = { λ p. AreMarked p.marks.items p.met.items };
}

/// The mark at a place; past the end there is none.
fn mark_at(marks: &[Mark], place: usize) -> Mark
    ensures { result ≡ mark_at marks.now place }
{
    if place < marks.len() {
        marks[place]
    } else {
        Mark::Unmet
    }
}

/// Whether the variable is left.
fn is_odd(mark: Mark) -> bool
    ensures { result ≡ is_odd mark }
{
    match mark {
        Mark::Unmet => false,
        Mark::Even => false,
        Mark::Odd => true,
    }
}

/// Takes the mark at the place away, if there is one.
fn clear_mark(marks: &mut Vec<Mark>, place: usize)
    ensures { marks.new.items ≡ set marks.old.items place Mark.Unmet }
{
    if place < marks.len() {
        marks[place] = Mark::Unmet;
    }
}

/// Adds places without a mark until there is this one. Without memory some may have been added.
fn reach(marks: &mut Vec<Mark>, place: usize) -> Result<(), AllocError>
    ensures same { (x : ℕ) → mark_at marks.new.items x ≡ mark_at marks.old.items x }
    ensures reached { OnOk result (place < length marks.new.items) }
{
    for _ in marks.len()..=place {
        marks.push(Mark::Unmet)?;
    }
    Ok(())
}

/// Takes the marks of variables away.
fn unmark(marks: &mut Vec<Mark>, variables: &[Var])
    ensures { AreMetOnly marks.old.items variables.now → (x : ℕ) → is_met (mark_at marks.new.items x) ≡ false }
{
    for variable in variables {
        clear_mark(marks, variable.number() as usize);
    }
}

/// Meets a variable once more.
fn meet(marks: &mut Vec<Mark>, met: &mut Vec<Var>, variable: Var) -> Result<(), AllocError>
    requires { AreMarked marks.old.items met.old.items }
    ensures marked { AreMarked marks.new.items met.new.items }
    ensures flipped { OnOk result ((x : ℕ) → is_odd (mark_at marks.new.items x) ≡ differ (is_odd (mark_at marks.old.items x)) (nat_eq variable x)) }
{
    let place = variable.number() as usize;
    match mark_at(marks, place) {
        Mark::Unmet => {
            reach(marks, place)?;
            met.push(variable)?;
            marks[place] = Mark::Odd;
            Ok(())
        }
        Mark::Even => {
            marks[place] = Mark::Odd;
            Ok(())
        }
        Mark::Odd => {
            marks[place] = Mark::Even;
            Ok(())
        }
    }
}

/// Whether some variable is left.
fn any_left(marks: &[Mark], met: &[Var]) -> bool
    ensures { result ≡ list_any (λ x. is_odd (mark_at marks.now x)) met.now }
{
    for variable in met {
        if is_odd(mark_at(marks, variable.number() as usize)) {
            return true;
        }
    }
    false
}

/// Adds the variables that are left to a list.
fn list_left(marks: &[Mark], met: &[Var], list: &mut Vec<Var>) -> Result<(), AllocError>
    requires { AllByRecursion (λ x. 1 ≤ x) list.old.items }
    ensures left { OnOk result (list.new.items ≡ list.old.items ++ left_over marks.now met.now) }
    ensures positive { AllByRecursion (λ x. 1 ≤ x) list.new.items }
{
    for variable in met {
        if is_odd(mark_at(marks, variable.number() as usize)) {
            list.push(*variable)?;
        }
    }
    Ok(())
}

impl ParitySum {
    /// The sum of no parities.
    pub fn new(alloc: Global) -> ParitySum
        ensures { result ≡ zero_sum }
    {
        ParitySum {
            marks: Vec::new(alloc),
            met: Vec::new(alloc),
            right_side: false,
        }
    }

    /// Makes it the sum of no parities.
    fn clear(&mut self)
        ensures { self.new ≡ zero_sum }
    {
        unmark(&mut self.marks, &self.met);
        self.met.clear();
        self.right_side = false;
    }

    /// Makes it the sum of one parity: its normal form. Without memory the sum is spoilt.
    pub(crate) fn set_to(&mut self, lits: &[Lit]) -> Result<(), AllocError>
        ensures { OnOk result (self.new ≡ normal_form lits.now) }
    {
        self.clear();
        self.add(lits)
    }

    /// Adds one variable.
    fn flip(&mut self, variable: Var) -> Result<(), AllocError>
        ensures { OnOk result (self.new ≡ flipped self.old variable) }
    {
        meet(&mut self.marks, &mut self.met, variable)
    }

    /// Adds a bit to the right side.
    fn turn(&mut self, bit: bool)
        ensures { self.new ≡ turned self.old bit }
    {
        self.right_side = bit != self.right_side;
    }

    /// Adds a parity. Without memory the sum is spoilt.
    pub(crate) fn add(&mut self, lits: &[Lit]) -> Result<(), AllocError>
        ensures { OnOk result (self.new ≡ plus self.old (normal_form lits.now)) }
    {
        self.turn(true);
        for lit in lits {
            self.flip(lit.var())?;
            self.turn(lit.is_negative());
        }
        Ok(())
    }

    /// What the sum of the variables is to be.
    pub(crate) fn right_side(&self) -> bool
        ensures { result ≡ self.now.right_side }
    {
        self.right_side
    }

    /// Whether the variable is left.
    pub(crate) fn has(&self, variable: Var) -> bool
        ensures { result ≡ contains self.now.variables variable }
    {
        is_odd(mark_at(&self.marks, variable.number() as usize))
    }

    /// The variables that are left come in the place of all that the list has.
    pub(crate) fn variables(&self, list: &mut Vec<Var>) -> Result<(), AllocError>
        ensures { OnOk result (Lists self.now.variables list.new.items) }
    {
        list.clear();
        list_left(&self.marks, &self.met, list)
    }

    /// Whether nothing is left: no variable, and the right side 0.
    pub(crate) fn is_zero(&self) -> bool
        ensures { IsTrue result ↔ (self.now ≡ zero_sum) }
    {
        !any_left(&self.marks, &self.met) && !self.right_side
    }
}

//! Sets of literals that are cleared and used again.
ghost use Rattle.std.specs.Prelude.{◌≡◌, ◌<◌, ℕ, false, [], ◌∷◌, ◌++◌, IsTrue, OnOk, OnErr, get_or, set, length, vec_capacity, vec_len};
ghost use Rattle.cx_base.specs.Literals.{Literal, code_of};
ghost use Rattle.cx_semantics.specs.Chain.{has_literal, is_inside, negations, HaveSame};
ghost use Rattle.proof_rules.specs.LiteralSets.{AreMarkedOnly, AreMarks, ArePositive};

use cx_base::Lit;
use std::alloc::{AllocError, Global};
use std::marker::Model;

/// A set of literals, which a contract sees as a list of them in some order.
///
/// It has a mark for each code up to the greatest that was in it so far: a look-up is one access, clearing it costs
/// what was put in since it was empty, and as much takes no new memory after that.
#[derive(Drop)]
pub struct LiteralSet {
    /// Whether the literal of each code is in the set.
    marks: Vec<bool>,
    lits: Vec<Lit>,
}

impl Model for LiteralSet {
    ghost use Rattle.std.specs.Prelude.{List};
    ghost use Rattle.cx_base.specs.Literals.{Literal};
    ghost use Rattle.proof_rules.specs.LiteralSets.{AreMarks};

    ghost Value = { List Literal };

    ghost view = { λ a. a.lits.items };

    ghost invariant = { λ a. AreMarks a.marks.items a.lits.items };
}

/// Whether there is a mark at the literal's code.
#[inline(always)]
pub(crate) fn is_marked(marks: &[bool], lit: Lit) -> bool
    ensures { result ≡ get_or marks.now (code_of lit) false }
{
    let place = lit.code();
    place < marks.len() && marks[place]
}

/// Takes the mark at the place away, if there is one.
fn clear_mark(marks: &mut [bool], place: usize)
    ensures { marks.new ≡ set marks.old place false }
{
    if place < marks.len() {
        marks[place] = false;
    }
}

/// Adds places without a mark until there is this one. Without memory some may have been added.
// A long way off the path of literals that have a place, which is to stay short.
#[inline(never)]
fn extend(marks: &mut Vec<bool>, place: usize) -> Result<(), AllocError>
    ensures same { (p : ℕ) → get_or marks.new.items p false ≡ get_or marks.old.items p false }
    ensures reached { OnOk result (place < length marks.new.items) }
{
    for _ in marks.len()..=place {
        marks.push(false)?;
    }
    Ok(())
}

/// Has this place. Without memory some may have been added.
fn reach(marks: &mut Vec<bool>, place: usize) -> Result<(), AllocError>
    ensures same { (p : ℕ) → get_or marks.new.items p false ≡ get_or marks.old.items p false }
    ensures reached { OnOk result (place < length marks.new.items) }
{
    if place < marks.len() {
        return Ok(());
    }
    extend(marks, place)
}

/// Takes the marks of literals away.
fn unmark(marks: &mut [bool], lits: &[Lit])
    ensures { AreMarkedOnly marks.old lits.now → (l : Literal) → get_or marks.new (code_of l) false ≡ false }
{
    for lit in lits {
        clear_mark(marks, lit.code());
    }
}

/// Puts a literal, for which the list has room, into the list, and marks it. Without memory nothing changes.
#[inline(always)]
fn put(marks: &mut Vec<bool>, lits: &mut Vec<Lit>, lit: Lit) -> Result<(), AllocError>
    requires room { vec_len lits.old < vec_capacity lits.old }
    requires marked { AreMarks marks.old.items lits.old.items }
    ensures ok { OnOk result (lits.new.items ≡ lits.old.items ++ lit ∷ []) }
    ensures err { OnErr result (lits.new.items ≡ lits.old.items) }
    ensures marked { AreMarks marks.new.items lits.new.items }
    ensures room { vec_capacity lits.new ≡ vec_capacity lits.old }
{
    reach(marks, lit.code())?;
    lits.push_reserved(lit);
    marks[lit.code()] = true;
    Ok(())
}

impl LiteralSet {
    /// The empty set.
    pub fn new(alloc: Global) -> LiteralSet
        ensures { result ≡ [] }
    {
        LiteralSet {
            marks: Vec::new(alloc),
            lits: Vec::new(alloc),
        }
    }

    /// Whether it has the literal.
    pub fn contains(&self, lit: Lit) -> bool
        ensures { result ≡ has_literal self.now lit }
    {
        is_marked(&self.marks, lit)
    }

    /// The marks at the literals' codes. A loop over literals has them at hand, and does not ask the set for them at each.
    #[inline(always)]
    pub(crate) fn marks(&self) -> &[bool]
        ensures { AreMarks result.now self.now }
    {
        &self.marks
    }

    /// Puts a literal in. Without memory nothing changes. One that the set has comes into the list again.
    // A chain calls it once for each hint, and the call would cost a third of that; the literal is nearly always new.
    #[inline(always)]
    pub fn insert(&mut self, lit: Lit) -> Result<(), AllocError>
        ensures ok { OnOk result (HaveSame self.new (lit ∷ self.old)) }
        ensures err { OnErr result (self.new ≡ self.old) }
    {
        self.lits.reserve(1)?;
        put(&mut self.marks, &mut self.lits, lit)
    }

    /// Takes all literals out.
    pub fn clear(&mut self)
        ensures { self.new ≡ [] }
    {
        unmark(&mut self.marks, &self.lits);
        self.lits.clear();
    }

    /// The negations of these literals come in the place of all that it has. Out of memory, it has some of them and nothing else.
    pub fn set_to_negations(&mut self, lits: &[Lit]) -> Result<(), AllocError>
        ensures ok { OnOk result (HaveSame self.new (negations lits.now)) }
        ensures err { OnErr result (IsTrue (is_inside self.new (negations lits.now))) }
    {
        self.clear();
        self.lits.reserve(lits.len())?;
        for lit in lits {
            put(&mut self.marks, &mut self.lits, lit.negate())?;
        }
        Ok(())
    }

    /// These literals come in the place of all that it has. Out of memory, it has some of them and nothing else.
    pub(crate) fn set_to(&mut self, lits: &[Lit]) -> Result<(), AllocError>
        ensures same { OnOk result (HaveSame self.new lits.now) }
        ensures err { OnErr result (IsTrue (is_inside self.new lits.now)) }
        ensures positive { OnOk result (ArePositive lits.now) }
    {
        self.clear();
        self.lits.reserve(lits.len())?;
        for lit in lits {
            // Its contract says that no variable is 0.
            let _number = lit.var().number();
            put(&mut self.marks, &mut self.lits, *lit)?;
        }
        Ok(())
    }
}

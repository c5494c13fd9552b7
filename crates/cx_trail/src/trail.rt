//! The trail.
ghost use Rattle.std.specs.Prelude.{◌≡◌, ◌+◌, ◌-◌, ◌*◌, List, ◌<◌, ◌≤◌, ◌≢◌, ◌++◌, ◌∷◌, [], ◌↔◌, length, map, take, get_or, slice_set, slice_index, IfOk, MatchOption, IsTrue, MatchBool, not, ℕ};
ghost use Rattle.std.specs.List.{All};
ghost use Rattle.cx_base.specs.Literals.{Literal, negate, code_of};
ghost use Rattle.cx_base.specs.declared.literal.TheConstants.{MAX_VARIABLE};
ghost use Rattle.cx_trail.specs.Sequence.{TrailState, IsTrail, IsOpenIn, IsAssignedIn, IsTrueIn, IsFalseIn, Means, HasEntry, entry_at, pushed, TakesBack, IsFull, HasOpen};
ghost use Rattle.cx_trail.specs.Cells.{AreApart, AreTruths, var_at};
ghost use Rattle.cx_trail.specs.Renaming.{renamed};
ghost use Rattle.cx_trail.specs.Forgetting.{forgotten};
ghost use Rattle.cx_trail.specs.declared.entry.Reason.TheVariants.{Decision};

use crate::entry::{Entry, Reason, Truth};
use crate::forgetting::forget_entries;
use crate::renaming::rename_entries;
use cx_base::{Lit, Moved, Var};
use std::alloc::{AllocError, Global};
use std::marker::Model;

/// Assigned literals in order, with levels and reasons.
///
/// It takes its memory when it is made. Each call takes constant time but `back_to`, whose time is in what it takes back, and `rename`.
#[derive(Drop)]
pub struct Trail {
    vars: u32,
    depth: u32,
    count: usize,
    cells: Vec<Entry>,
    places: Vec<u32>,
    truths: Vec<Truth>,
}

impl Model for Trail {
    ghost use Rattle.std.specs.Prelude.{take};
    ghost use Rattle.cx_trail.specs.Sequence.{TrailState};

    ghost Value = { TrailState };

    ghost use Rattle.cx_trail.specs.Cells.{IsKept};

    ghost view = { λ t. record { variables = t.vars; level = t.depth; entries = take t.count t.cells.items } };

    ghost invariant = { λ t. IsKept t.vars t.depth t.count t.cells.items t.places.items t.truths.items };
}

/// Gives a literal and its negation their values.
fn set_truths(truths: &mut Vec<Truth>, literal: Lit, of_literal: Truth, of_negation: Truth)
    requires own { code_of literal < length truths.old.items }
    requires other { code_of (negate literal) < length truths.old.items }
    ensures { truths.new.items ≡ slice_set (slice_set truths.old.items (code_of literal) of_literal) (code_of (negate literal)) of_negation }
{
    truths[literal.code()] = of_literal;
    truths[literal.negate().code()] = of_negation;
}

/// How many of the first `count` cells have levels up to `level`. The literals of the others become unassigned.
fn cut(cells: &[Entry], truths: &mut Vec<Truth>, count: usize, level: u32) -> usize
    requires count { count ≤ length cells.now }
    requires size { length truths.old.items ≡ 2 * length cells.now + 2 }
    requires high { (i : ℕ) → i < count → var_at cells.now i ≤ length cells.now }
    ensures few { result ≤ count }
    ensures last { 0 < result → (entry_at cells.now (result - 1)).level ≤ level }
    ensures above { (i : ℕ) → result ≤ i → i < count → level < (entry_at cells.now i).level }
    ensures truths { (whole : List Entry) → AreApart whole → length whole ≡ length cells.now → take count whole ≡ take count cells.now
        → AreTruths (length whole) count whole truths.old.items → AreTruths (length whole) result whole truths.new.items }
{
    let mut left = count;
    while left > 0 && cells[left - 1].level > level {
        left -= 1;
        set_truths(truths, cells[left].literal, Truth::Open, Truth::Open);
    }
    left
}

impl Trail {
    /// The empty trail over this number of variables. It fails only where memory runs out.
    pub fn make(alloc: Global, vars: u32) -> Result<Trail, AllocError>
        requires { vars ≤ MAX_VARIABLE }
        ensures { IfOk result (λ t. t ≡ record { variables = vars; level = 0; entries = [] }) }
    {
        let variables = vars as usize;
        // Fills the cells that no assigned literal has.
        let unused = Entry {
            literal: Lit::new(Var::new(1), false),
            level: 0,
            reason: Reason::Decision,
        };
        Ok(Trail {
            vars,
            depth: 0,
            count: 0,
            cells: vec![in alloc; unused; variables]?,
            places: vec![in alloc; 0; variables + 1]?,
            truths: vec![in alloc; Truth::Open; 2 * variables + 2]?,
        })
    }

    /// The number of variables.
    pub fn vars(&self) -> u32
        ensures count { result ≡ self.now.variables }
        ensures sound { IsTrail self.now }
    {
        self.vars
    }

    /// The current level.
    pub fn level(&self) -> u32
        ensures level { result ≡ self.now.level }
        ensures sound { IsTrail self.now }
    {
        self.depth
    }

    /// How many literals are assigned.
    pub fn len(&self) -> usize
        ensures len { result ≡ length self.now.entries }
        ensures sound { IsTrail self.now }
    {
        self.count
    }

    /// Whether no literal is assigned.
    pub fn is_empty(&self) -> bool
        ensures { IsTrue result ↔ (length self.now.entries ≡ 0) }
    {
        self.count == 0
    }

    /// Whether each variable is assigned.
    pub fn is_full(&self) -> bool
        ensures count { IsTrue result ↔ length self.now.entries ≡ self.now.variables }
        ensures full { MatchBool result (IsFull self.now) (HasOpen self.now) }
        ensures sound { IsTrail self.now }
    {
        self.count == self.vars as usize
    }

    /// The entry at this place.
    pub fn entry(&self, place: usize) -> Entry
        requires { place < length self.now.entries }
        ensures is { result ≡ entry_at self.now.entries place }
        ensures sound { IsTrail self.now }
    {
        self.cells[place]
    }

    /// The literals in order, with levels and reasons.
    pub fn seq(&self) -> &[Entry]
        ensures { result.now ≡ self.now.entries }
    {
        &self.cells[..self.count]
    }

    /// The value of the literal.
    pub fn truth(&self, literal: Lit) -> Truth
        requires { literal.variable ≤ self.now.variables }
        ensures means { Means self.now.entries literal result }
        ensures sound { IsTrail self.now }
    {
        self.truths[literal.code()]
    }

    /// The value of the variable.
    pub fn value(&self, variable: Var) -> Option<bool>
        requires { variable ≤ self.now.variables }
        ensures value { MatchOption result (IsOpenIn self.now.entries variable)
            (λ b. IsTrueIn self.now.entries (record { variable = variable; negative = not b })) }
        ensures sound { IsTrail self.now }
    {
        match self.truth(Lit::new(variable, false)) {
            Truth::True => Some(true),
            Truth::False => Some(false),
            Truth::Open => None,
        }
    }

    /// The place of a false literal's negation.
    pub fn place_of(&self, literal: Lit) -> usize
        requires { IsFalseIn self.now.entries literal }
        ensures within { result < length self.now.entries }
        ensures negated { (entry_at self.now.entries result).literal ≡ negate literal }
        ensures sound { IsTrail self.now }
    {
        self.places[literal.var().number() as usize] as usize
    }

    /// The entry of an assigned variable.
    fn entry_of(&self, variable: Var) -> Entry
        requires { IsAssignedIn self.now.entries variable }
        ensures { (e : Entry) → HasEntry self.now.entries variable e → result ≡ e }
    {
        let place = self.places[variable.number() as usize] as usize;
        self.cells[place]
    }

    /// The level of an assigned variable.
    pub fn level_of(&self, variable: Var) -> u32
        requires { IsAssignedIn self.now.entries variable }
        ensures { (e : Entry) → HasEntry self.now.entries variable e → result ≡ e.level }
    {
        self.entry_of(variable).level
    }

    /// The reason of an assigned variable.
    pub fn reason_of(&self, variable: Var) -> Reason
        requires { IsAssignedIn self.now.entries variable }
        ensures { (e : Entry) → HasEntry self.now.entries variable e → result ≡ e.reason }
    {
        self.entry_of(variable).reason
    }

    /// Puts a literal at the end.
    fn push(&mut self, literal: Lit, level: u32, reason: Reason)
        requires high { literal.variable ≤ self.old.variables }
        requires open { IsOpenIn self.old.entries literal.variable }
        requires rises { self.old.level ≤ level }
        requires step { level ≤ self.old.level + 1 }
        requires opens { self.old.level < level → reason ≡ Reason.Decision }
        requires stays { 0 < level → level ≡ self.old.level → reason ≢ Reason.Decision }
        ensures pushed { self.new ≡ pushed self.old level literal reason }
        ensures sound { IsTrail self.new }
    {
        let variable = literal.var().number() as usize;
        self.cells[self.count] = Entry {
            literal,
            level,
            reason,
        };
        self.places[variable] = self.count as u32;
        set_truths(&mut self.truths, literal, Truth::True, Truth::False);
        self.count += 1;
        self.depth = level;
    }

    /// Opens a level with this literal.
    pub fn decide(&mut self, literal: Lit)
        requires high { literal.variable ≤ self.old.variables }
        requires open { IsOpenIn self.old.entries literal.variable }
        ensures pushed { self.new ≡ pushed self.old (self.old.level + 1) literal Reason.Decision }
        ensures sound { IsTrail self.new }
    {
        self.push(literal, self.depth + 1, Reason::Decision);
    }

    /// Puts a literal at the current level. Above level 0 the reason is no decision.
    pub fn imply(&mut self, literal: Lit, reason: Reason)
        requires high { literal.variable ≤ self.old.variables }
        requires open { IsOpenIn self.old.entries literal.variable }
        requires reason { 0 < self.old.level → reason ≢ Reason.Decision }
        ensures pushed { self.new ≡ pushed self.old self.old.level literal reason }
        ensures sound { IsTrail self.new }
    {
        self.push(literal, self.depth, reason);
    }

    /// Takes back exactly the literals of higher levels.
    pub fn back_to(&mut self, level: u32)
        requires { level ≤ self.old.level }
        ensures back { TakesBack level self.old self.new }
        ensures sound { IsTrail self.new }
    {
        self.count = cut(&self.cells, &mut self.truths, self.count, level);
        self.depth = level;
    }

    /// Gives each reason that is a clause the clause's new reference.
    ///
    /// A clause that has none is no reason of a literal of level 0 any more; above level 0 its reference stays.
    /// Its time is in the assigned literals. It takes no memory.
    pub fn rename(&mut self, moved: &Moved)
        ensures renamed { self.new ≡ record self.old { entries = map (renamed moved.now) self.old.entries } }
        ensures sound { IsTrail self.new }
    {
        rename_entries(&mut self.cells, self.count, moved);
    }

    /// Forgets the reasons of the literals of level 0. From then on each of them means 'no reason is given'.
    ///
    /// Its time is in the assigned literals. It takes no memory.
    pub fn forget_reasons(&mut self)
        ensures forgotten { self.new ≡ record self.old { entries = map forgotten self.old.entries } }
        ensures all { self.old.level ≡ 0 → All (λ e. e.reason ≡ Decision) self.new.entries }
        ensures sound { IsTrail self.new }
    {
        forget_entries(&mut self.cells, self.count);
    }
}

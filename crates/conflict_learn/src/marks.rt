//! Marks of variables, or of levels.
ghost use Rattle.std.specs.Prelude.{◌≡◌, ◌<◌, ℕ, length, true, false, set, OnOk};
ghost use Rattle.conflict_learn.specs.Marks.{is_marked, AreClear};

use cx_base::Var;
use std::alloc::{AllocError, Global};
use std::marker::Model;

/// Marks of variables, or of levels, of which there are no more.
///
/// One table serves all analyses of a search: each finds it clear and leaves it clear, in the time of what it marked.
/// It grows to the number of variables once.
#[derive(Drop)]
pub struct Marks {
    marks: Vec<bool>,
}

impl Model for Marks {
    ghost use Rattle.std.specs.Prelude.{List, Bool};

    ghost Value = { List Bool };

    ghost view = { λ m. m.marks.items };
}

impl Marks {
    /// No marks.
    pub fn new(alloc: Global) -> Marks
        ensures { AreClear result }
    {
        Marks {
            marks: Vec::new(alloc),
        }
    }

    /// Adds clear marks until there is one for this variable.
    pub(crate) fn reach(&mut self, vars: u32) -> Result<(), AllocError>
        ensures same { (v : ℕ) → is_marked self.new v ≡ is_marked self.old v }
        ensures reached { OnOk result (vars < length self.new) }
    {
        let count = self.marks.len().max(vars as usize + 1);
        self.marks.resize(count, false)
    }

    /// Whether the variable is marked.
    pub(crate) fn has(&self, variable: Var) -> bool
        requires { variable < length self.now }
        ensures { result ≡ is_marked self.now variable }
    {
        self.marks[variable.number() as usize]
    }

    /// Marks the variable.
    pub(crate) fn mark(&mut self, variable: Var)
        requires { variable < length self.old }
        ensures { self.new ≡ set self.old variable true }
    {
        self.marks[variable.number() as usize] = true;
    }

    /// Takes the variable's mark away.
    pub(crate) fn clear(&mut self, variable: Var)
        requires { variable < length self.old }
        ensures { self.new ≡ set self.old variable false }
    {
        self.marks[variable.number() as usize] = false;
    }

    /// Marks the level. The result is whether it was marked.
    pub(crate) fn meet(&mut self, level: u32) -> bool
        requires { level < length self.old }
        ensures was { result ≡ is_marked self.old level }
        ensures marks { self.new ≡ set self.old level true }
    {
        let was = self.marks[level as usize];
        self.marks[level as usize] = true;
        was
    }

    /// Takes the level's mark away.
    pub(crate) fn leave(&mut self, level: u32)
        requires { level < length self.old }
        ensures { self.new ≡ set self.old level false }
    {
        self.marks[level as usize] = false;
    }
}

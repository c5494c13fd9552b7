//! Variables and literals.
ghost use Rattle.std.specs.Prelude.{length, ◌≡◌, ◌<◌, ◌≤◌, ◌*◌, ◌+◌, cond};
ghost use Rattle.cx_base.specs.Literals.{Literal, negate, literal_true, code_of, literal_of_code};

use std::marker::Model;

/// The greatest variable.
pub const MAX_VARIABLE: u32 = 268_435_455;

/// A variable, from 1 up to [`MAX_VARIABLE`].
#[derive(Clone, Copy, PartialEq, Eq, PartialOrd, Ord, Debug, Drop)]
pub struct Var {
    number: u32,
}

impl Model for Var {
    ghost use Rattle.std.specs.Prelude.{ℕ, ◌≤◌};
    ghost use Rattle.cx_base.specs.declared.literal.TheConstants.{MAX_VARIABLE};

    ghost Value = { ℕ };

    ghost view = { λ v. v.number };

    ghost invariant = { λ v. (1 ≤ v.number) × (v.number ≤ MAX_VARIABLE) };

    ghost inverse = { λ n. record { number = n } };
}

impl Var {
    /// The variable of this number.
    pub fn new(number: u32) -> Var
        requires low { 1 ≤ number }
        requires high { number ≤ MAX_VARIABLE }
        ensures { result ≡ number }
    {
        Var { number }
    }

    /// Its number.
    pub fn number(self) -> u32
        ensures number { result ≡ self }
        ensures low { 1 ≤ result }
        ensures high { result ≤ MAX_VARIABLE }
    {
        self.number
    }

    /// Its number minus 1: its place in a table by variables.
    pub fn index(self) -> usize
        ensures index { result + 1 ≡ self }
        ensures high { result < MAX_VARIABLE }
    {
        self.number as usize - 1
    }
}

/// A literal: a variable or its negation.
///
/// It takes four bytes: twice the variable, and one more for the negation.
#[derive(Clone, Copy, PartialEq, Eq, PartialOrd, Ord, Debug, Drop)]
pub struct Lit {
    code: u32,
}

impl Model for Lit {
    ghost use Rattle.std.specs.Prelude.{◌+◌, ◌*◌, ◌≤◌, ◌/◌};
    ghost use Rattle.std.specs.Prelude.{◌≡◌};
    ghost use Rattle.std.proofs.Common.{ap};
    ghost use Rattle.cx_base.specs.Literals.{Literal, literal_of_code, code_of};
    ghost use Rattle.cx_base.specs.declared.literal.TheConstants.{MAX_VARIABLE};
    ghost use Rattle.cx_base.specs.Codes.{code_of-literal_of_code};

    ghost Value = { Literal };

    ghost view = { λ l. literal_of_code l.code };

    ghost invariant = { λ l. (1 ≤ l.code / 2) × (l.code / 2 ≤ MAX_VARIABLE) };

    ghost inverse = { λ l. record { code = code_of l } };

    ghost inverse_ok = { λ a h. ap (λ c. record { code = c }) (code_of-literal_of_code a.code) };
}

impl Lit {
    /// The literal of this variable and sign.
    pub fn new(variable: Var, negative: bool) -> Lit
        ensures { result ≡ record { variable = variable; negative = negative } }
    {
        let code = 2 * variable.number() + u32::from(negative);
        Lit { code }
    }

    /// Its variable.
    pub fn var(self) -> Var
        ensures { result ≡ self.variable }
    {
        Var::new(self.code / 2)
    }

    /// Whether it is the negation of its variable.
    pub fn is_negative(self) -> bool
        ensures { result ≡ self.negative }
    {
        self.code % 2 == 1
    }

    /// The literal that is true where this one is false.
    pub fn negate(self) -> Lit
        ensures { result ≡ negate self }
    {
        Lit::new(self.var(), !self.is_negative())
    }

    /// Twice the variable, and one more for the negation: a place in a table by literals.
    pub fn code(self) -> usize
        ensures code { result ≡ code_of self }
        ensures low { 2 ≤ result }
        ensures high { result ≤ 2 * MAX_VARIABLE + 1 }
    {
        self.code as usize
    }

    /// Whether it is true under the values.
    pub fn is_true(self, values: &[bool]) -> bool
        requires { self.variable ≤ length values.now }
        ensures { result ≡ literal_true values.now self }
    {
        values[self.var().index()] != self.is_negative()
    }
}

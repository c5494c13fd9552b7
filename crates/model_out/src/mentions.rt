//! How each variable is mentioned.
ghost use Rattle.std.specs.Prelude.{◌≡◌, ◌≤◌, ◌∷◌, [], ◌++◌, ℤ, List, length, map, IfOk};
ghost use Rattle.cx_base.specs.declared.literal.TheConstants.{MAX_VARIABLE};
ghost use Rattle.cx_base.specs.Integers.{integer_of};
ghost use Rattle.model_out.specs.Mentions.{is_never, is_repeated, is_true_once, IsFirstOf, mentioned, AreMentionsOf};

use cx_base::{Lit, Values, Var};
use std::alloc::{AllocError, Global};
use std::marker::Model;

/// How a variable is mentioned.
#[derive(Clone, Copy, Drop)]
pub(crate) enum Mention {
    /// By no literal.
    Never,
    /// By one literal, which is true where the variable has this value.
    Once(bool),
    /// By two literals or more.
    Repeated,
}

impl Mention {
    /// The mention with one more literal.
    fn with(self, positive: bool) -> Mention
        ensures { result ≡ mentioned self positive }
    {
        match self {
            Mention::Never => Mention::Once(positive),
            _ => Mention::Repeated,
        }
    }

    fn is_never(self) -> bool
        ensures { result ≡ is_never self }
    {
        matches!(&self, Mention::Never)
    }

    fn is_repeated(self) -> bool
        ensures { result ≡ is_repeated self }
    {
        matches!(&self, Mention::Repeated)
    }

    /// Whether the variable is mentioned once, as true.
    fn is_true_once(self) -> bool
        ensures { result ≡ is_true_once self }
    {
        match self {
            Mention::Once(positive) => positive,
            _ => false,
        }
    }
}

/// How each variable of a formula is mentioned, from variable 1 on.
#[derive(Drop)]
pub(crate) struct Mentions {
    mentions: Vec<Mention>,
}

impl Model for Mentions {
    ghost use Rattle.std.specs.Prelude.{List, length, ◌≤◌};
    ghost use Rattle.cx_base.specs.declared.literal.TheConstants.{MAX_VARIABLE};
    ghost use Rattle.model_out.specs.declared.mentions.Mention.{Mention};

    ghost Value = { List Mention };

    ghost view = { λ m. m.mentions.items };

    ghost invariant = { λ m. length m.mentions.items ≤ MAX_VARIABLE };
}

impl Mentions {
    /// This many variables, of which no literal is seen so far.
    pub(crate) fn none(alloc: Global, vars: u32) -> Result<Mentions, AllocError>
        requires { vars ≤ MAX_VARIABLE }
        ensures length { IfOk result (λ m. length m ≡ vars) }
        ensures tells { IfOk result (λ m. AreMentionsOf [] m) }
    {
        let mentions = vec![in alloc; Mention::Never; vars as usize]?;
        Ok(Mentions { mentions })
    }

    /// One more literal; one of a variable that is not in the table changes nothing.
    pub(crate) fn note(&mut self, lit: Lit)
        ensures length { length self.new ≡ length self.old }
        ensures tells { (lits : List ℤ) → AreMentionsOf lits self.old → AreMentionsOf (lits ++ integer_of lit ∷ []) self.new }
    {
        let index = lit.var().number() as usize - 1;
        if index < self.mentions.len() {
            self.mentions[index] = self.mentions[index].with(!lit.is_negative());
        }
    }

    /// The least variable with no literal.
    pub(crate) fn first_missing(&self) -> Option<Var>
        ensures { IsFirstOf is_never self.now result }
    {
        for index in 0..self.mentions.len() {
            if self.mentions[index].is_never() {
                return Some(Var::new(index as u32 + 1));
            }
        }
        None
    }

    /// The least variable with two literals or more.
    pub(crate) fn first_repeated(&self) -> Option<Var>
        ensures { IsFirstOf is_repeated self.now result }
    {
        for index in 0..self.mentions.len() {
            if self.mentions[index].is_repeated() {
                return Some(Var::new(index as u32 + 1));
            }
        }
        None
    }

    /// The values of the variables, where each has one literal.
    pub(crate) fn values(&self, alloc: Global) -> Result<Values, AllocError>
        ensures { IfOk result (λ v. v ≡ map is_true_once self.now) }
    {
        let mut values = Vec::with_capacity(alloc, self.mentions.len())?;
        for mention in &self.mentions {
            values.push(mention.is_true_once())?;
        }
        Ok(Values::from_vec(values))
    }
}

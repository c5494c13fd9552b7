//! Numbers that are the same in each run.
ghost use Rattle.std.specs.Prelude.{◌≤◌, ◌<◌};
ghost use Rattle.cx_base.specs.declared.literal.TheConstants.{MAX_VARIABLE};

use cx_base::{Lit, Var};

/// Numbers that look random: a linear congruential generator modulo 2 to the power of 64.
#[derive(Drop)]
pub struct Numbers {
    state: u64,
}

impl Numbers {
    pub fn from_seed(seed: u64) -> Numbers {
        Numbers { state: seed }
    }

    /// The next number, below a bound.
    pub fn below(&mut self, bound: u32) -> u32
        requires { 0 < bound }
        ensures { result < bound }
    {
        self.state = self
            .state
            .wrapping_mul(6_364_136_223_846_793_005)
            .wrapping_add(1_442_695_040_888_963_407);
        ((self.state >> 33) % u64::from(bound)) as u32
    }

    /// A literal of one of the variables.
    pub fn literal(&mut self, vars: u32) -> Lit
        requires low { 1 ≤ vars }
        requires high { vars ≤ MAX_VARIABLE }
        ensures low { 1 ≤ result.variable }
        ensures high { result.variable ≤ vars }
    {
        let var = Var::new(1 + self.below(vars));
        Lit::new(var, self.below(2) == 1)
    }
}

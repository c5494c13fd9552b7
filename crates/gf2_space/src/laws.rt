//! What is true of the solutions of all parities. Each function's contract is the law.
ghost use Rattle.gf2_space.specs.Solutions.{FreeDecide};

/// Two solutions that agree on the free variables are one.
pub fn free_variables_decide()
    ensures { FreeDecide }
{}

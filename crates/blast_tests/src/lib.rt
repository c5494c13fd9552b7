//! Worked formulas in clauses, as tests.
#![tactic(auto)]

#[cfg(test)]
mod blasted;
mod printing;

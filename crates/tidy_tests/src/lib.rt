//! Tidying by a queue and by the plain program, over drawn clauses.
#![tactic(auto)]

#[cfg(test)]
mod agreeing;
mod drawing;
#[cfg(test)]
mod expecting;
#[cfg(test)]
mod logs;

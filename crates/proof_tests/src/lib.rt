//! Tests of the judges, of the tables by ids, of the finders of chains, of the elaborator and of trimming.
#![tactic(auto)]

#[cfg(test)]
mod chains;
#[cfg(test)]
mod expecting;
#[cfg(test)]
mod formulas;
#[cfg(test)]
mod judges;
#[cfg(test)]
mod logs;
#[cfg(test)]
mod maps;
mod numbers;
#[cfg(test)]
mod trims;

//! Spaces of the solutions of parities, as tests: worked ones, and drawn ones beside all lists of values.
#![tactic(auto)]

#[cfg(test)]
mod drawn;
#[cfg(test)]
mod expecting;
#[cfg(test)]
mod numbers;
mod printing;
#[cfg(test)]
mod values;
#[cfg(test)]
mod worked;

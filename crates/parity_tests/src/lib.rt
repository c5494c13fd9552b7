//! Worked examples of the parity half of the search, as tests: rows and matrices, events and reasons of the engines
//! through the trait, and the engines beside one another.
#![tactic(auto)]

#[cfg(test)]
mod agreement;
#[cfg(test)]
mod driven;
#[cfg(test)]
mod events;
#[cfg(test)]
mod expecting;
mod parities;
#[cfg(test)]
mod parts;
#[cfg(test)]
mod pivots;
#[cfg(test)]
mod reasons;
#[cfg(test)]
mod rows;
#[cfg(test)]
mod tables;

//! Runs of the program over a desk in memory, from the bytes in to the line out.
#![tactic(auto)]

#[cfg(test)]
mod affine;
#[cfg(test)]
mod blast;
#[cfg(test)]
mod check;
#[cfg(test)]
mod demo;
mod desk;
#[cfg(test)]
mod elab;
#[cfg(test)]
mod expecting;
#[cfg(test)]
mod faults;
#[cfg(test)]
mod flow;
#[cfg(test)]
mod formulas;
#[cfg(test)]
mod model;
#[cfg(test)]
mod pieces;
#[cfg(test)]
mod pigeons;
#[cfg(test)]
mod refusals;
#[cfg(test)]
mod schedule;
#[cfg(test)]
mod solve;
#[cfg(test)]
mod tidying;
#[cfg(test)]
mod trim;
#[cfg(test)]
mod unused;

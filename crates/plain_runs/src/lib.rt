//! The search, the look for parities and the elaborator beside plain programs, as tests over drawn formulas.
#![tactic(auto)]

#[cfg(test)]
mod changing;
mod drawing;
#[cfg(test)]
mod expecting;
#[cfg(test)]
mod judging;
#[cfg(test)]
mod learning;
#[cfg(test)]
mod log_lines;
#[cfg(test)]
mod marking;
#[cfg(test)]
mod recovering;
#[cfg(test)]
mod searching;
#[cfg(test)]
mod settling;
#[cfg(test)]
mod worked;

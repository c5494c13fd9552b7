//! Worked examples of texts, as tests: formulas, command lines, proofs, logs and answers, and the desk that they pass.
#![tactic(auto)]

#[cfg(test)]
mod answers;
#[cfg(test)]
mod command_lines;
#[cfg(test)]
mod desks;
#[cfg(test)]
mod expecting;
#[cfg(test)]
mod formula_texts;
#[cfg(test)]
mod formulas;
#[cfg(test)]
mod log_steps;
mod one_file;
#[cfg(test)]
mod proof_steps;
#[cfg(test)]
mod reprinting;
#[cfg(test)]
mod slot_formulas;
#[cfg(test)]
mod slots;

//! The command line, read by clap: which plan the words ask for.
//!
//! `plan` answers by clap's own definition of the command line (`Asks`, `Refuses`). That plain words,
//! as the usage lines show them, are taken and ask for what they say is a law of that definition.
#![tactic(auto)]

mod commands;
mod laws;
mod name;
mod numbers;
mod plans;
mod refusal;
mod values;
mod words;

pub use inst_gen::InstanceKind;
pub use laws::{plain_words_are_taken, words_ask_for_one_plan};
pub use name::Name;
pub use plans::{Plan, SearchOptions};
pub use refusal::PlanRefusal;
pub use words::plan;

//! Steps of proofs from their text, and their printed form.
#![tactic(auto)]

mod desk_proof;
mod list_proof;
mod print;
mod proof_list;
mod step_ref;
mod steps;

pub use cx_base::ProofStep;
pub use desk_proof::{DeskProof, put_step};
pub use list_proof::ListProof;
pub use print::{put_proof_step, put_step_ref};
pub use proof_list::ProofList;
pub use step_ref::StepRef;
pub use steps::{ProofGrammar, ProofText};

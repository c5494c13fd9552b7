//! What is kept between two steps.
ghost use Rattle.std.specs.Prelude.{◌≡◌};
ghost use Rattle.cx_semantics.specs.Tables.{no_tables};
ghost use Rattle.fratx_elab.specs.Names.{first_naming};

use crate::naming::Names;
use crate::originals::Counts;
use cx_base::{Formula, ProofStep};
use proof_rules::JudgeMarks;
use rup_finder::IndexedClauses;
use std::alloc::Global;
use step_text::SpareLists;

/// The live constraints of the log, and what stands for them in the proof.
#[derive(Drop)]
pub struct State<'f> {
    pub live: IndexedClauses<'f>,
    pub clauses: Names,
    pub parities: Names,
    /// For its memory alone.
    pub marks: JudgeMarks,
    /// For its memory alone.
    pub spare: SpareLists,
}

impl<'f> State<'f> {
    /// No step was taken yet: nothing is live in the log, and the proof has the formula's constraints.
    pub fn new(alloc: Global, formula: &'f Formula, counts: Counts) -> State<'f>
        ensures live { result.live ≡ no_tables }
        ensures clauses { result.clauses ≡ first_naming counts.clauses }
        ensures parities { result.parities ≡ first_naming counts.parities }
    {
        State {
            live: IndexedClauses::make(alloc, formula),
            clauses: Names::new(alloc, counts.clauses),
            parities: Names::new(alloc, counts.parities),
            marks: JudgeMarks::new(alloc),
            spare: SpareLists::new(alloc),
        }
    }
}

/// Keeps the memory of what was written, if anything, for the next step.
#[inline(always)]
pub fn keep_memory(spare: &mut SpareLists, written: Option<ProofStep>) {
    if let Some(step) = written {
        spare.keep(step);
    }
}

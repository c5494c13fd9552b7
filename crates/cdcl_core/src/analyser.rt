//! What analyses conflicts.
use cdcl_search::SearchState;
use cdcl_search::logs::SearchLog;
use conflict_learn::Marks;

/// A search at a conflict: its log, its state, its parities, and marks for the analysis.
#[derive(Drop)]
pub(crate) struct Analyser<'a, 'f, P, L> {
    pub log: &'a mut SearchLog<'f, L>,
    pub state: &'a SearchState,
    pub engine: &'a P,
    pub marks: &'a mut Marks,
}

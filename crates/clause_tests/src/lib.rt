//! Worked examples of the clause half of the search, as tests: arena, watches, order and analysis together, what is
//! planned of restarts and deletions, compaction, planted instances, and parities recovered from clauses.
#![tactic(auto)]

#[cfg(test)]
mod acts;
#[cfg(test)]
mod compaction;
#[cfg(test)]
mod expecting;
#[cfg(test)]
mod planting;
#[cfg(test)]
mod policy;
#[cfg(test)]
mod propagation;
#[cfg(test)]
mod recovering;
mod source;
#[cfg(test)]
mod writing;

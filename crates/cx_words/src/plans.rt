//! What a command is to do.
use crate::Name;
use inst_gen::InstanceKind;

/// How long a search goes on, and whether it tidies its clauses.
#[derive(Clone, Copy, Drop)]
pub struct SearchOptions {
    /// The number of conflicts at which the search stops: 1 to 10^18.
    pub conflicts: u64,
    /// Whether the search tidies its clauses at restarts.
    pub inprocess: bool,
}

/// What a command is to do, with its names and numbers.
#[derive(Drop)]
pub enum Plan {
    /// Search for values that meet a formula.
    Solve {
        /// The formula's file, or `-` for the standard input.
        formula: Name,
        /// The file that the log is written to.
        log: Option<Name>,
        /// How it searches.
        options: SearchOptions,
    },
    /// Judge a proof of a formula.
    Check {
        /// The formula's file, or `-` for the standard input.
        formula: Name,
        /// The proof's file.
        proof: Name,
    },
    /// Make a proof of a log.
    Elab {
        /// The formula's file, or `-` for the standard input.
        formula: Name,
        /// The log's file.
        log: Name,
        /// The file that the proof is written to.
        proof: Name,
    },
    /// Judge printed values.
    Model {
        /// The formula's file, or `-` for the standard input.
        formula: Name,
        /// The file of the printed values.
        answer: Name,
    },
    /// Make an instance, solve it, and check the log.
    Demo {
        /// Which instance.
        kind: InstanceKind,
        /// The number of its planted variables: 4 to 2000.
        size: u32,
        /// The seed of its random words.
        seed: u64,
    },
    /// Keep of a proof what its last step needs.
    Trim {
        /// The formula's file, or `-` for the standard input.
        formula: Name,
        /// The proof's file.
        proof: Name,
        /// The file that what is left is written to.
        out: Name,
    },
    /// Put a formula into clauses.
    Blast {
        /// The formula's file, or `-` for the standard input.
        formula: Name,
        /// The file that the formula in clauses is written to.
        out: Name,
    },
    /// Describe the solutions of a formula's parities.
    Affine {
        /// The formula's file, or `-` for the standard input.
        formula: Name,
    },
}

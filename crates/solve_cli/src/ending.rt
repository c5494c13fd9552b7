//! How a command ends, with its status.
ghost use Rattle.std.specs.Prelude.{◌≡◌};
ghost use Rattle.solve_cli.specs.Endings.{status_of, status_code_of};

use cx_base::{IdList, IntList, Values};
use cx_desk::Slot;
use cx_semantics::Cause;
use cx_texts::Offence;
use cx_words::InstanceKind;
use gf2_space::Space;

/// Why printed values are refused: the first cause in this order.
#[derive(Clone, Copy, Drop)]
pub enum WrongAnswer {
    /// A1: the first line has other tokens than `s` and `SATISFIABLE`.
    NoStatusLine,
    /// A2: the token at this byte does not fit; the text's length where the zero is missing.
    BadToken(u64),
    /// A3: no literal of the variable of this number.
    Missing(u32),
    /// A4: two or more literals of the variable of this number.
    Twice(u32),
    /// A5: the values do not meet the constraint of this number, from 1.
    Unmet(u64),
}

/// A planted instance, as `demo` prints it.
#[derive(Clone, Copy, Drop)]
pub struct Instance {
    /// Whether the planted values meet it, or none do.
    pub kind: InstanceKind,
    /// The number of its planted variables.
    pub size: u32,
    /// The seed of its words.
    pub seed: u64,
    /// How many variables its formula has.
    pub variables: u32,
    /// How many clauses.
    pub clauses: u64,
    /// How many parities.
    pub parities: u64,
}

/// What was shown of a planted instance.
#[derive(Clone, Copy, Drop)]
pub enum Shown {
    /// The values that the search found meet it.
    Meet,
    /// No values meet it: the proof that the log of the search gives is accepted.
    Verified,
    /// Nothing: the budget of conflicts is spent.
    Unknown,
}

/// The constraints of a formula that a proof needs, by their numbers.
#[derive(Drop)]
pub struct Core {
    /// The numbers of its clauses, rising.
    pub clauses: IdList,
    /// The numbers of its parities, rising.
    pub parities: IdList,
}

/// What a command found, where nothing failed.
#[derive(Drop)]
pub enum Ending {
    /// The formula's text is refused for its first offence.
    FormulaRefused(Offence),
    /// The text of this slot is longer than the limit.
    TooLong(Slot),
    /// The proof is accepted at the step of this number.
    Verified(u64),
    /// The proof is refused at the step of this number, for its first cause.
    NotVerified(u64, Cause),
    /// The printed values are whole and meet the formula.
    ModelRight,
    /// The printed values are refused for their first cause.
    ModelWrong(WrongAnswer),
    /// The log is right at the step of this number, and its proof was written.
    Elaborated(u64),
    /// The log is refused at the step of this number, for its first cause.
    NotElaborated(u64, Cause),
    /// These values meet the formula.
    Satisfiable(Values),
    /// No values meet the formula. Where it has an assumption constraint, these assumed literals fail, as integers: no values meet its clauses and its parities with them.
    Unsatisfiable(Option<IntList>),
    /// This many conflicts were counted, as many as the search may count.
    Unknown(u64),
    /// This was shown of the planted instance.
    Demonstrated(Instance, Shown),
    /// The proof is accepted. The steps that its last one needs were written, and these constraints of the formula are needed.
    Trimmed(Core),
    /// The proof is refused at the step of this number, for its first cause. Nothing was written.
    NotTrimmed(u64, Cause),
    /// The formula in clauses was written.
    Blasted {
        /// How many variables it has.
        variables: u32,
        /// How many clauses.
        clauses: u64,
    },
    /// The formula in clauses would have too many variables. The constraint of this number is the first that passes the limit.
    TooManyVariables(u64),
    /// These are the solutions of the formula's parities, if there are any.
    Affine(Option<Space>),
}

/// How a command ended.
#[derive(Drop)]
pub enum Outcome {
    /// The files decided.
    Ended(Ending),
    /// The words ask for nothing that the program does.
    Usage,
    /// A read failed.
    ReadFault,
    /// A write failed.
    WriteFault,
    /// Memory ran out.
    Memory,
}

/// The exit status.
#[derive(Clone, Copy, Drop)]
pub enum Status {
    /// 0: the proof is verified or trimmed, the values are right, the log is elaborated, the search has counted as many
    /// conflicts as it may, the formula in clauses is written, the parities' solutions are told, or the demonstration is done.
    Done,
    /// 2: the words are refused.
    Usage,
    /// 3: the formula is refused.
    FormulaRefused,
    /// 4: a read failed.
    ReadFault,
    /// 5: a write failed.
    WriteFault,
    /// 6: out of memory.
    OutOfMemory,
    /// 7: the proof is refused.
    ProofRefused,
    /// 8: the log is refused.
    LogRefused,
    /// 9: a variable or a text is over its limit, or a formula in clauses would have too many variables.
    Limit,
    /// 11: the printed values are refused.
    AnswerRefused,
    /// 10: values meet the formula.
    Satisfiable,
    /// 20: no values meet the formula.
    Unsatisfiable,
}

impl Status {
    /// The number that the program exits with.
    pub fn code(self) -> u8
        ensures { result ≡ status_code_of self }
    {
        match self {
            Status::Done => 0,
            Status::Usage => 2,
            Status::FormulaRefused => 3,
            Status::ReadFault => 4,
            Status::WriteFault => 5,
            Status::OutOfMemory => 6,
            Status::ProofRefused => 7,
            Status::LogRefused => 8,
            Status::Limit => 9,
            Status::AnswerRefused => 11,
            Status::Satisfiable => 10,
            Status::Unsatisfiable => 20,
        }
    }
}

impl Outcome {
    /// The status of the outcome.
    pub fn status(&self) -> Status
        ensures { result ≡ status_of self.now }
    {
        match self {
            Outcome::Ended(Ending::FormulaRefused(Offence::VarLimit(_))) => Status::Limit,
            Outcome::Ended(Ending::FormulaRefused(_)) => Status::FormulaRefused,
            Outcome::Ended(Ending::TooLong(_)) => Status::Limit,
            Outcome::Ended(Ending::Verified(_)) => Status::Done,
            Outcome::Ended(Ending::NotVerified(_, _)) => Status::ProofRefused,
            Outcome::Ended(Ending::ModelRight) => Status::Done,
            Outcome::Ended(Ending::ModelWrong(_)) => Status::AnswerRefused,
            Outcome::Ended(Ending::Elaborated(_)) => Status::Done,
            Outcome::Ended(Ending::NotElaborated(_, _)) => Status::LogRefused,
            Outcome::Ended(Ending::Satisfiable(_)) => Status::Satisfiable,
            Outcome::Ended(Ending::Unsatisfiable(_)) => Status::Unsatisfiable,
            Outcome::Ended(Ending::Unknown(_)) => Status::Done,
            Outcome::Ended(Ending::Demonstrated(_, _)) => Status::Done,
            Outcome::Ended(Ending::Trimmed(_)) => Status::Done,
            Outcome::Ended(Ending::NotTrimmed(_, _)) => Status::ProofRefused,
            Outcome::Ended(Ending::Blasted { .. }) => Status::Done,
            Outcome::Ended(Ending::TooManyVariables(_)) => Status::Limit,
            Outcome::Ended(Ending::Affine(_)) => Status::Done,
            Outcome::Usage => Status::Usage,
            Outcome::ReadFault => Status::ReadFault,
            Outcome::WriteFault => Status::WriteFault,
            Outcome::Memory => Status::OutOfMemory,
        }
    }
}

//! Why steps are refused.

/// Why a step of a proof or a log is refused.
#[derive(Clone, Copy, PartialEq, Eq, Debug, Drop)]
pub enum Cause {
    /// The text has no step here; the byte place.
    TextRefused(u64),
    /// A literal's variable is above the formula's number of variables.
    VarUnknown,
    /// The added id is live in its table.
    IdInUse,
    /// A hint is negative.
    RatHint,
    /// A hint is not live in the table that the step names.
    HintNotLive,
    /// The chain meets a hint with two or more literals left.
    HintNotUnit,
    /// The hints end and none had no literal left.
    HintsEnd,
    /// The target is not the sum of the named parities.
    SumDiffers,
    /// Some values meet what is named and not the target.
    NotImplied,
    /// The target's normal form has more than 12 variables.
    TooWide,
    /// A named clause has a variable that the target lacks.
    ClauseOutside,
    /// The text ends before an empty clause was added.
    NoEmptyClause,
    /// No constraint of the formula has this content.
    NotInFormula,
    /// An id that is named is not live.
    NotLive,
    /// No list of live hints is a right chain.
    NoChain,
}

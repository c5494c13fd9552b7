//! Laws of trimmed proofs. Each function's contract is the law, and its body is empty.
ghost use Rattle.proof_trim.specs.Laws.{CoreIsUnmet, MarksAreNeeded, TrimmedIsAPart, TrimmedIsAccepted, WantedIsNamed};

/// What stays of an accepted proof is accepted.
pub fn trimmed_is_accepted()
    ensures { TrimmedIsAccepted }
{}

/// What stays is a part of the steps, in their order.
pub fn trimmed_is_a_part()
    ensures { TrimmedIsAPart }
{}

/// No values meet the constraints of the formula that needed steps name together with its assumption constraints.
pub fn core_is_unmet()
    ensures { CoreIsUnmet }
{}

/// The steps that are marked going back are the needed ones.
pub fn marks_are_needed()
    ensures { MarksAreNeeded }
{}

/// What is wanted before the first step is what needed steps name of the formula.
pub fn wanted_is_named()
    ensures { WantedIsNamed }
{}

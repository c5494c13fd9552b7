//! Laws of the definitions. Each function's contract is the law, and its body is empty.
ghost use Rattle.cx_judgements.specs.Laws.{AcceptedIsUnmet, LogsAreJudgedInOneWay, MarkedLogsLearn, ProofsAreJudgedInOneWay, RightLogIsUnmet, RightStepsHaveRightSources};

/// A proof is accepted at one step, or refused at one step for one cause.
pub fn proofs_are_judged_in_one_way()
    ensures { ProofsAreJudgedInOneWay }
{}

/// A log is right at one step, or refused at one step for one cause.
pub fn logs_are_judged_in_one_way()
    ensures { LogsAreJudgedInOneWay }
{}

/// Where a proof is accepted, no values meet the formula.
pub fn accepted_is_unmet()
    ensures { AcceptedIsUnmet }
{}

/// Where a log is right to its end, no values meet the formula.
pub fn right_log_is_unmet()
    ensures { RightLogIsUnmet }
{}

/// A log with the marks 1 to n learns n clauses at n places: from each conflict the first that an `a` step adds after its mark,
/// which is fresh among the clauses that are live there. No other one that an `a` step adds counts, and at each mark the
/// formula's clauses are kept.
pub fn marked_logs_learn()
    ensures { MarkedLogsLearn }
{}

/// Of right steps each sum is that of its sources, each clause of a parity is implied by its source, and each parity of clauses
/// by its sources; and these are live where the step comes.
pub fn right_steps_have_right_sources()
    ensures { RightStepsHaveRightSources }
{}

//! What stays true of what an engine knows, whichever engine keeps the trait's contract. Each function's contract is the law.
ghost use Rattle.parity_engine.specs.Settled.{AssignedIsSettled, BackIsSettled, BackIsSilent, FreshIsSettled, LowerLevelsStay, PushedIsSettled, ReportedIsSettled};

/// At the levels below the current one nothing is left to follow, and nothing follows in a calm state: so it is
/// for a new engine, and each call keeps it.
pub fn calls_keep_it_settled()
    ensures made { FreshIsSettled }
    ensures assignments { AssignedIsSettled }
    ensures events { ReportedIsSettled }
    ensures levels { PushedIsSettled }
    ensures backjumps { BackIsSettled }
{}

/// After a backjump what Quiet says holds again: the parities have a solution that agrees with the values, and
/// force no unassigned variable.
pub fn backjumps_leave_it_quiet()
    ensures { BackIsSilent }
{}

/// The values of lower levels stay until a backjump below them.
pub fn lower_levels_stay()
    ensures { LowerLevelsStay }
{}

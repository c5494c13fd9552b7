//! What rows say of the parities that they come from, for all states. Each function's contract is the law.
ghost use Rattle.gauss_jordan.specs.System.{BrokenFromWhole, ImpliedFromUnit, SilentFromQuiet};

/// Where each row is whole and met, or has two unassigned columns of which the other rows lack one, the parities
/// have a solution and force no unassigned variable.
pub fn quiet_rows_force_nothing()
    ensures { SilentFromQuiet }
{}

/// A row with one unassigned variable forces its literal.
pub fn unit_rows_force()
    ensures { ImpliedFromUnit }
{}

/// A whole row that is not met contradicts the values.
pub fn unmet_rows_contradict()
    ensures { BrokenFromWhole }
{}

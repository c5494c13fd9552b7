//! What an engine's events say of the trail that its values come from.
ghost use Rattle.xor_reason.specs.Laws.{BrokenIsMissed, ImpliedIsMet};

/// The row of an implied literal is a reason for it, once that is true on the trail.
pub fn implied_rows_are_reasons()
    ensures { ImpliedIsMet }
{}

/// The row of a contradiction is a reason for a conflict.
pub fn broken_rows_are_reasons()
    ensures { BrokenIsMissed }
{}

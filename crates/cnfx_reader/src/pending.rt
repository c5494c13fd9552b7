//! What constraint of the body is pending.

/// Whether a constraint is pending after what was read, and of which kind.
#[derive(Clone, Copy, Drop)]
pub(crate) enum Pending {
    /// The next token begins a constraint.
    Nothing,
    /// A clause with one literal or more.
    Clause,
    /// A parity, of which the `x` was read.
    Parity,
    /// An assumption constraint, of which the `a` was read.
    Assume,
}

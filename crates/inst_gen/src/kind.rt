//! The two kinds of planted instances.

/// Whether a planted instance is met by its planted values or by none.
#[derive(Clone, Copy, Drop)]
pub enum InstanceKind {
    /// Met by the planted values.
    Even,
    /// Met by no values.
    Odd,
}

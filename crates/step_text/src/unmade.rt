//! Items that are not made.
ghost use Rattle.std.specs.Prelude.{List};

/// Says which items it stands for: only clauses read them, and they need not be made.
pub trait Unmade<T> {
    // the items in order
    ghost items: { Self → List T };
}

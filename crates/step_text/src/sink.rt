//! Where the steps of a proof and the events of a log go, one after another.
ghost use Rattle.std.specs.Prelude.{◌≡◌, ℕ, Bool, true, false, List, Option, OnOk, OnErr};
ghost use Rattle.std.specs.List.{AllByRecursion};
ghost use Rattle.cx_base.specs.Lines.{Line};
ghost use Rattle.step_text.specs.Sinks.{with_all, with_next, with_tidy, AreItemsOf, GainsItems, SinkFaultsAs, HasFailedAs, OnFailed};

use crate::Unmade;
use cx_texts::Textual;
use thiserror::Error;

/// Why a sink did not take what it was given.
#[derive(Clone, Copy, Debug, Drop, Error)]
pub enum SinkFault {
    /// Out of memory for what it keeps: nothing was taken, and no fault was counted.
    #[error("out of memory")]
    Memory,
    /// A fault of writing, which the sink counted.
    #[error("the write failed")]
    Failed,
}

/// Takes items, one after another: the steps of a proof, or the steps of a log and the marks of its conflicts. Between these
/// come tidy lines, each of which says that the clauses are tidy.
pub trait Sink {
    type Item: Textual;

    // the items that it was given, where it tells them
    ghost items: { Self → Option (List Self.Item) };

    // how many write faults it counted
    ghost faults: { Self → ℕ };

    // it has answered `Failed`
    ghost has_failed: { Self → Bool };

    // a part of this item was written after the others, after a fault
    ghost torn: { Self → Self.Item → Type 0 };

    // the items in order and the tidy lines between them, where it tells these
    ghost lines: { Self → Option (List (Line Self.Item)) };

    // a part of the tidy line of this restart was written after the others, after a fault
    ghost torn_tidy: { Self → ℕ → Type 0 };

    // what items leave as it was
    ghost keeps: { Self → Self → Type 0 };

    // what items and tidy lines leave as it was
    ghost keeps_else: { Self → Self → Type 0 };

    /// Takes the next item, which a text can have. A sink that has failed is not asked again.
    fn put(&mut self, item: &Self::Item) -> Result<(), SinkFault>
        requires text { Self.Item.has_text item.now }
        requires going { has_failed self.old ≡ false }
        ensures told { OnOk result (items self.new ≡ with_next item.now (items self.old)) }
        ensures same { OnErr result (items self.new ≡ items self.old) }
        ensures torn { OnFailed result (torn self.new item.now) }
        ensures faults { SinkFaultsAs result (faults self.old) (faults self.new) }
        ensures failed { HasFailedAs result (has_failed self.old) (has_failed self.new) }
        ensures frame { keeps self.old self.new };

    /// Takes these items as told, where it need not have them made for that, and says whether it did. Otherwise it was told nothing. A
    /// sink that has failed is not asked again.
    fn take_unmade<E: Unmade<Self::Item>>(&mut self, _unmade: &E) -> bool
        requires texts { AllByRecursion Self.Item.has_text (E.items _unmade.now) }
        requires going { has_failed self.old ≡ false }
        ensures told { result ≡ true → items self.new ≡ with_all (E.items _unmade.now) (items self.old) }
        ensures untold { result ≡ false → items self.new ≡ items self.old }
        ensures faults { faults self.new ≡ faults self.old }
        ensures failed { has_failed self.new ≡ has_failed self.old }
        ensures frame { keeps self.old self.new }
    {
        false
    }

    /// Takes the line that says that the clauses are tidy at this restart. A sink that has failed is not asked again.
    fn tidied(&mut self, restart: u64) -> Result<(), SinkFault>
        requires going { has_failed self.old ≡ false }
        ensures same { items self.new ≡ items self.old }
        ensures told { OnOk result (lines self.new ≡ with_tidy restart (lines self.old)) }
        ensures untold { OnErr result (lines self.new ≡ lines self.old) }
        ensures torn { OnFailed result (torn_tidy self.new restart) }
        ensures faults { SinkFaultsAs result (faults self.old) (faults self.new) }
        ensures failed { HasFailedAs result (has_failed self.old) (has_failed self.new) }
        ensures frame { keeps_else self.old self.new };

    ghost are_items: { (a : Self) → AreItemsOf (lines a) (items a) };

    ghost gains_items: { (a b : Self) → keeps a b → GainsItems (lines a) (lines b) };

    ghost keeps_itself: { (a : Self) → keeps a a };

    ghost keeps_on: { (a b c : Self) → keeps a b → keeps b c → keeps a c };

    ghost items_keep_else: { (a b : Self) → keeps a b → keeps_else a b };

    ghost keeps_else_on: { (a b c : Self) → keeps_else a b → keeps_else b c → keeps_else a c };
}

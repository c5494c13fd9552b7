//! The constraints of a formula, one after another.
ghost use Rattle.std.specs.Prelude.{◌≡◌};
ghost use Rattle.cx_base.specs.Items.{items_left};

use crate::constraint::ConstraintRef;
use crate::formula::Formula;

/// The constraints of a formula that are still to come, in order.
#[derive(Drop)]
pub struct Items<'a> {
    formula: &'a Formula,
    next: usize,
}

impl<'a> Items<'a> {
    /// The constraints of a whole formula.
    pub(crate) fn new(formula: &'a Formula) -> Items<'a>
        ensures { items_left result ≡ formula.now.constraints }
    {
        Items { formula, next: 0 }
    }
}

impl<'a> Iterator for Items<'a> {
    ghost use Rattle.std.specs.Iterator.{YieldsFirstBy, item_count};
    ghost use Rattle.cx_base.specs.Borrowed.{constraint_of};
    ghost use Rattle.cx_base.specs.Items.{items_left};

    type Item = ConstraintRef<'a>;

    ghost next_gives = { YieldsFirstBy constraint_of items_left };

    ghost remaining = { item_count items_left };

    fn next(&mut self) -> Option<ConstraintRef<'a>> {
        if self.next >= self.formula.len() {
            return None;
        }
        let item = self.formula.item(self.next);
        self.next += 1;
        Some(item)
    }
}

//! Which variables are decided first.
ghost use Rattle.std.specs.Prelude.{◌≡◌, ◌≤◌, length};
ghost use Rattle.cx_base.specs.declared.literal.TheConstants.{MAX_VARIABLE};

use cx_base::Var;
use parity_engine::ParityEngine;
use search_policy::Order;
use std::alloc::{AllocError, Global};

/// Bumps the variables once that have no mark.
fn bump_others(order: &mut Order, marks: &[bool])
    requires few { length marks.now ≤ MAX_VARIABLE }
    requires same { length marks.now ≡ length order.old.scores }
    ensures standing { order.new.standing ≡ order.old.standing }
    ensures scores { length order.new.scores ≡ length order.old.scores }
{
    for index in 0..marks.len() {
        if !marks[index] {
            order.bump_by(Var::new(index as u32 + 1), 1);
        }
    }
}

/// Bumps once each variable that is not the basic one of a row, so that it is decided before those that then follow from
/// rows. A row whose basic variable is decided first is pivoted on another of its variables, and added to each row that has
/// that one: in a chain of parities the rows would then grow with each decision. Nothing but time depends on it.
pub(crate) fn prefer_free<P: ParityEngine>(
    alloc: Global,
    vars: u32,
    order: &mut Order,
    engine: &P,
) -> Result<(), AllocError>
    requires few { vars ≤ MAX_VARIABLE }
    requires same { vars ≡ length order.old.scores }
    requires engine { vars ≡ (P.state engine.now).vars }
    ensures standing { order.new.standing ≡ order.old.standing }
    ensures scores { length order.new.scores ≡ length order.old.scores }
{
    let mut basic = vec![in alloc; false; vars as usize]?;
    engine.mark_basic(&mut basic);
    bump_others(order, &basic);
    Ok(())
}

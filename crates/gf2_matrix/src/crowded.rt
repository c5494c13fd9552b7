//! Whether parities are far more than their variables, counted without a row or a list for any of them.
ghost use Rattle.std.specs.Prelude.{◌≡◌, ℕ, ◌<◌, ◌≤◌, length, max, slice_index};
ghost use Rattle.std.specs.List.{AllByRecursion};
ghost use Rattle.cx_base.specs.declared.literal.TheConstants.{MAX_VARIABLE};
ghost use Rattle.cx_base.specs.Problem.{AreWithin};
ghost use Rattle.gf2_matrix.specs.Labels.{AreLabels};
ghost use Rattle.gf2_matrix.specs.declared.crowded.TheConstants.{SLACK};

use crate::labels::{Labels, home_of, labels_of};
use crate::make::occurring_variables;
use cx_base::LitList;
use std::alloc::{AllocError, Global};

/// A part may have so many parities beyond twice its columns before some are left out.
const SLACK: usize = 513;

/// Whether some part has far more parities than columns.
pub(crate) fn is_crowded(alloc: Global, vars: u32, parities: &[LitList]) -> Result<bool, AllocError>
    requires few { vars ≤ MAX_VARIABLE }
    requires within { AllByRecursion (AreWithin vars) parities.now }
    requires few_parities { length parities.now < 4294967296 }
{
    let occurring = occurring_variables(alloc, vars, parities)?;
    let labels = labels_of(alloc, &occurring, parities)?;
    let mut room = vec![in alloc; SLACK; labels.count.max(1) as usize]?;
    add_room(&mut room, &labels.of);
    Ok(is_over(&mut room, &occurring, &labels, parities))
}

/// Gives the part of each label room for two parities more.
fn add_room(room: &mut [usize], labels: &[u32])
    requires high { (x : ℕ) → slice_index labels.now x ≤ length room.old }
    requires few { (p : ℕ) → slice_index room.old p ≤ SLACK }
{
    for label in labels {
        if *label > 0 {
            room[*label as usize - 1] += 2;
        }
    }
}

/// Whether some part has more parities than room, which each of them takes.
fn is_over(room: &mut [usize], occurring: &[bool], labels: &Labels, parities: &[LitList]) -> bool
    requires within { AllByRecursion (AreWithin (length occurring.now)) parities.now }
    requires labels { AreLabels occurring.now parities.now labels.now }
    requires count { length room.old ≡ max labels.now.count 1 }
{
    for parity in parities {
        let home = home_of(occurring, &labels.of, parity.as_slice());
        if room[home] == 0 {
            return true;
        }
        room[home] -= 1;
    }
    false
}

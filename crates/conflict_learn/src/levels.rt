//! The levels of a clause's literals.
ghost use Rattle.std.specs.Prelude.{◌≡◌, ℕ, ◌<◌, ◌≤◌, List, length, ◌==◌, ◌||◌, not, IfOk};
ghost use Rattle.std.specs.List.{All};
ghost use Rattle.cx_base.specs.declared.literal.TheConstants.{MAX_VARIABLE};
ghost use Rattle.cx_trail.specs.Sequence.{IsAssignedIn, IsTrail};
ghost use Rattle.conflict_learn.specs.Learning.{has_place};
ghost use Rattle.conflict_learn.specs.Levels.{ArePlacesOf, levels_at, levels_in, distinct, second};
ghost use Rattle.conflict_learn.specs.Marks.{AreClear, is_marked};

use crate::marks::Marks;
use cx_base::Lit;
use cx_trail::Trail;
use std::alloc::AllocError;

/// Whether a level was not met before, where equal levels are next to one another.
fn is_new(index: usize, level: u32, last: u32) -> bool
    ensures { result ≡ (index == 0 || not (level == last)) }
{
    index == 0 || level != last
}

/// The level of the second literal, 0 where there is none, and how many levels the literals have.
pub(crate) fn levels_of(trail: &Trail, lits: &[Lit]) -> (u32, u32)
    requires few { length lits.now ≤ MAX_VARIABLE }
    requires places { (places : List ℕ) × ArePlacesOf trail.now lits.now places }
    ensures back { (places : List ℕ) → ArePlacesOf trail.now lits.now places → result.0 ≡ second (levels_at trail.now places) }
    ensures count { (places : List ℕ) → ArePlacesOf trail.now lits.now places → result.1 ≡ length (distinct (levels_at trail.now places)) }
{
    let mut back_level = 0;
    let mut count = 0;
    let mut last = 0;
    let mut index: usize = 0;
    for literal in lits {
        let level = trail.entry(trail.place_of(*literal)).level;
        if is_new(index, level, last) {
            count += 1;
        }
        if index == 1 {
            back_level = level;
        }
        last = level;
        index += 1;
    }
    (back_level, count)
}

/// Marks the levels of the literals. The result is their number.
fn mark_levels(trail: &Trail, lits: &[Lit], marks: &mut Marks) -> usize
    requires sound { IsTrail trail.now }
    requires assigned { All (λ l. IsAssignedIn trail.now.entries l.variable) lits.now }
    requires wide { trail.now.variables < length marks.old }
    requires clear { AreClear marks.old }
    ensures size { length marks.new ≡ length marks.old }
    ensures marked { (k : ℕ) → is_marked marks.new k ≡ has_place (levels_in trail.now lits.now) k }
    ensures count { result ≡ length (distinct (levels_in trail.now lits.now)) }
{
    let mut count = 0;
    for literal in lits {
        if !marks.meet(trail.level_of(literal.var())) {
            count += 1;
        }
    }
    count
}

/// Takes the marks of the literals' levels away.
fn clear_levels(trail: &Trail, lits: &[Lit], marks: &mut Marks)
    requires sound { IsTrail trail.now }
    requires assigned { All (λ l. IsAssignedIn trail.now.entries l.variable) lits.now }
    requires wide { trail.now.variables < length marks.old }
    requires marked { (k : ℕ) → is_marked marks.old k ≡ has_place (levels_in trail.now lits.now) k }
    ensures { AreClear marks.new }
{
    for literal in lits {
        marks.leave(trail.level_of(literal.var()));
    }
}

/// How many levels the literals have, level 0 too where one is of it. The marks are clear before and after.
///
/// It takes no memory after an analysis of this trail with these marks. Its time is in the literals.
pub fn count_levels(trail: &Trail, lits: &[Lit], marks: &mut Marks) -> Result<usize, AllocError>
    requires assigned { All (λ l. IsAssignedIn trail.now.entries l.variable) lits.now }
    requires clear { AreClear marks.old }
    ensures count { IfOk result (λ n. n ≡ length (distinct (levels_in trail.now lits.now))) }
    ensures clear { AreClear marks.new }
{
    marks.reach(trail.vars())?;
    let count = mark_levels(trail, lits, marks);
    clear_levels(trail, lits, marks);
    Ok(count)
}

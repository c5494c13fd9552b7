//! The best variable by a look at each.
ghost use Rattle.std.specs.Prelude.{◌≡◌, ◌<◌, ◌≤◌, ◌+◌, ℕ, List, length};
ghost use Rattle.cx_base.specs.declared.literal.TheConstants.{MAX_VARIABLE};
ghost use Rattle.search_policy.specs.Scores.{Picks};

use cx_base::Var;
use cx_trail::Trail;

/// The better of the best so far and one more variable.
fn better(scores: &[u32], trail: &Trail, best: Option<Var>, next: u32) -> Option<Var>
    requires count { length scores.now ≡ trail.now.variables }
    requires next { next < length scores.now }
    requires few { length scores.now ≤ MAX_VARIABLE }
    requires best { Picks next scores.now trail.now.entries best }
    ensures { Picks (next + 1) scores.now trail.now.entries result }
{
    let variable = Var::new(next + 1);
    match trail.value(variable) {
        Some(_) => best,
        None => match best {
            None => Some(variable),
            Some(other) => {
                if scores[next as usize] > scores[other.number() as usize - 1] {
                    Some(variable)
                } else {
                    Some(other)
                }
            }
        },
    }
}

/// The unassigned variable of the greatest score, of several the least.
pub(crate) fn scan(scores: &[u32], trail: &Trail) -> Option<Var>
    requires count { length scores.now ≡ trail.now.variables }
    requires few { length scores.now ≤ MAX_VARIABLE }
    ensures { Picks (length scores.now) scores.now trail.now.entries result }
{
    let mut best = None;
    for next in 0..trail.vars() {
        best = better(scores, trail, best, next);
    }
    best
}

//! Scores that rise and are halved before they grow too large.
ghost use Rattle.std.specs.Prelude.{◌≡◌, ◌<◌, ◌≤◌, ◌/◌, ℕ, List, length, map, MatchBool};
ghost use Rattle.std.specs.List.{All};
ghost use Rattle.search_policy.specs.declared.scores.TheConstants.{SCORE_LIMIT};
ghost use Rattle.search_policy.specs.Bumps.{IsRaised, IsHalved};

/// The score at which all scores are halved.
pub(crate) const SCORE_LIMIT: u32 = 1_000_000_000;

/// How many bumps are made at once at most, so that they halve the scores once at most.
pub const MAX_BUMPS: u32 = 250_000_000;

/// Halves each score, rounded down.
fn halve(scores: &mut Vec<u32>)
    ensures { scores.new.items ≡ map (λ s. s / 2) scores.old.items }
{
    for at in 0..scores.len() {
        scores[at] /= 2;
    }
}

/// Bumps the score at a place this many times. Whether all scores were halved on the way.
pub(crate) fn raise(scores: &mut Vec<u32>, at: usize, times: u32) -> bool
    requires at { at < length scores.old.items }
    requires small { All (λ s. s < SCORE_LIMIT) scores.old.items }
    requires few { times ≤ MAX_BUMPS }
    ensures small { All (λ s. s < SCORE_LIMIT) scores.new.items }
    ensures raised { MatchBool result (IsHalved scores.old.items at times scores.new.items) (IsRaised scores.old.items at times scores.new.items) }
{
    let left = SCORE_LIMIT - scores[at];
    if times < left {
        scores[at] += times;
        return false;
    }
    halve(scores);
    scores[at] = SCORE_LIMIT / 2 + (times - left);
    true
}

//! When the search begins again at level 0.
ghost use Rattle.std.specs.Prelude.{◌≡◌, ◌<◌, ◌≤◌, ◌*◌, ◌^◌, ◌↔◌, ℕ, IsTrue};
ghost use Rattle.search_policy.specs.Restarts.{IsLuby, IsDue};

/// How many conflicts one unit of Luby's sequence is.
const UNIT: u64 = 100;

/// The greatest power of two that is not above the number.
fn power_within(i: u64) -> u64
    requires { 1 ≤ i }
    ensures power { (k : ℕ) × (result ≡ 2 ^ k) }
    ensures within { result ≤ i }
    ensures greatest { i < 2 * result }
{
    1 << i.ilog2()
}

/// The i-th number of Luby's sequence 1 1 2 1 1 2 4 .. (Luby, Sinclair, Zuckerman 1993), from 1 on.
pub fn luby(i: u64) -> u64
    requires some { 1 ≤ i }
    requires few { i < 2 ^ 63 }
    ensures { IsLuby i result }
{
    let mut place = i;
    let mut power = power_within(place);
    'back: while place + 1 < 2 * power {
        place = place - power + 1;
        power = power_within(place);
    }
    power
}

/// Whether the search begins again: `since` conflicts came after the last restart, and this one would be the i-th.
pub fn restart_due(since: u64, i: u64) -> bool
    requires some { 1 ≤ i }
    requires few { i < 2 ^ 63 }
    ensures { IsTrue result ↔ IsDue since i }
{
    since / UNIT >= luby(i)
}

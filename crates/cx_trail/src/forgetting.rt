//! Reasons that are forgotten.
ghost use Rattle.std.specs.Prelude.{◌≡◌, ◌≤◌, ◌++◌, length, map, take, drop};
ghost use Rattle.cx_trail.specs.Forgetting.{forgotten, forgotten_reason};

use crate::entry::{Entry, Reason};

/// The reason that is left of a literal of this level.
fn forget_reason(reason: Reason, level: u32) -> Reason
    ensures { result ≡ forgotten_reason level reason }
{
    match level {
        0 => Reason::Decision,
        _ => reason,
    }
}

/// The entry, without its reason at level 0.
fn forget_entry(entry: Entry) -> Entry
    ensures { result ≡ forgotten entry }
{
    let reason = forget_reason(entry.reason, entry.level);
    Entry { reason, ..entry }
}

/// Forgets the reasons of the first entries, where these are of level 0.
pub(crate) fn forget_entries(entries: &mut Vec<Entry>, count: usize)
    requires { count ≤ length entries.old.items }
    ensures { entries.new.items ≡ map forgotten (take count entries.old.items) ++ drop count entries.old.items }
{
    for place in 0..count {
        entries[place] = forget_entry(entries[place]);
    }
}

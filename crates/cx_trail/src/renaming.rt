//! Reasons whose clauses have new references.
ghost use Rattle.std.specs.Prelude.{◌≡◌, ◌≤◌, ◌++◌, length, map, take, drop};
ghost use Rattle.cx_base.specs.Moved.{moved_to};
ghost use Rattle.cx_trail.specs.Renaming.{clause_under, renamed_reason, renamed};

use crate::entry::{Entry, Reason};
use cx_base::{ClauseRef, Moved};

/// The clause as a reason under its new reference. At level 0 one that has none is no reason any more.
fn rename_clause(old: ClauseRef, level: u32, moved: &Moved) -> Reason
    ensures { result ≡ clause_under (moved_to moved.now old) level old }
{
    match moved.to(old) {
        Some(new) => Reason::Clause(new),
        None if level == 0 => Reason::Decision,
        None => Reason::Clause(old),
    }
}

/// The reason of a literal of this level with the new reference of its clause.
fn rename_reason(reason: Reason, level: u32, moved: &Moved) -> Reason
    ensures { result ≡ renamed_reason moved.now level reason }
{
    match reason {
        Reason::Clause(old) => rename_clause(old, level, moved),
        Reason::Decision | Reason::Row(_) => reason,
    }
}

/// The entry with the new reference of its reason's clause.
fn rename_entry(entry: Entry, moved: &Moved) -> Entry
    ensures { result ≡ renamed moved.now entry }
{
    let reason = rename_reason(entry.reason, entry.level, moved);
    Entry { reason, ..entry }
}

/// Renames the first entries.
pub(crate) fn rename_entries(entries: &mut Vec<Entry>, count: usize, moved: &Moved)
    requires { count ≤ length entries.old.items }
    ensures { entries.new.items ≡ map (renamed moved.now) (take count entries.old.items) ++ drop count entries.old.items }
{
    for place in 0..count {
        entries[place] = rename_entry(entries[place], moved);
    }
}

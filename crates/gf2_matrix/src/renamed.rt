//! Other names for the given parities that rows are sums of.
ghost use Rattle.std.specs.Prelude.{◌≡◌, ℕ, ◌-◌, ◌<◌, ◌≤◌, length, map, slice_index, slice_index_or};
ghost use Rattle.gf2_matrix.specs.Enough.{AreRenamed};

use crate::packed::Part;

/// Names each source of each part: that of number `n` is `names[n - 1]`.
pub(crate) fn rename_sources(parts: &mut [Part], names: &[u32])
    requires low { (p i : ℕ) (d : Part) → p < length parts.old → i < length (slice_index_or parts.old p d).sources.items
        → 1 ≤ slice_index (slice_index_or parts.old p d).sources.items i }
    requires high { (p i : ℕ) (d : Part) → p < length parts.old → i < length (slice_index_or parts.old p d).sources.items
        → slice_index (slice_index_or parts.old p d).sources.items i ≤ length names.now }
    ensures { AreRenamed names.now parts.old parts.new (length parts.old) }
{
    for p in 0..parts.len() {
        rename(&mut parts[p].sources, names);
    }
}

/// Names each source.
fn rename(sources: &mut [u32], names: &[u32])
    requires low { (i : ℕ) → i < length sources.old → 1 ≤ slice_index sources.old i }
    requires high { (i : ℕ) → i < length sources.old → slice_index sources.old i ≤ length names.now }
    ensures { sources.new ≡ map (λ m. slice_index names.now (m - 1)) sources.old }
{
    for source in sources {
        *source = names[*source as usize - 1];
    }
}

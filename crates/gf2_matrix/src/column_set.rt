//! The rows that have a column, one after another.
ghost use Rattle.std.specs.Prelude.{◌≡◌, ℕ, ◌+◌, ◌*◌, ◌<◌, ◌≤◌, ◌^◌, IfNone, IfSome, List, None, Some, length};
ghost use Rattle.gf2_matrix.specs.Content.{IsColumnSet, IsNextWith, IsPlaceOf, SourcedRow};
ghost use Rattle.parity_engine.specs.Written.{Rises};

use crate::picked::next_picked;
use gf2_rows::WordRow;

/// The row of the first of the numbers, from this place on, that has its bit, and the place after it. The numbers are
/// those of rows, from 1 and rising, and the bits say which of these rows have a column.
pub fn next_in_set(numbers: &[u32], words: &WordRow<'_>, from: usize) -> Option<(usize, usize)>
    requires rise { Rises 1 numbers.now }
    requires few { length words.now < 2 ^ 32 }
    requires room { length numbers.now ≤ 64 * length words.now }
    requires within { from ≤ length numbers.now }
    ensures near { IfSome result (λ found. (from < found.1) × (found.1 ≤ length numbers.now)) }
    ensures none { IfNone result ((rows : List SourcedRow) (x least : ℕ) → IsColumnSet rows x numbers.now words.now → IsPlaceOf numbers.now least from → IsNextWith rows x least None) }
    ensures some { IfSome result (λ found. (rows : List SourcedRow) (x least : ℕ) → IsColumnSet rows x numbers.now words.now → IsPlaceOf numbers.now least from
        → IsNextWith rows x least (Some found.0) × IsPlaceOf numbers.now (found.0 + 1) found.1) }
{
    match next_picked(words, 0, numbers.len(), from) {
        Some(place) => Some((numbers[place] as usize - 1, place + 1)),
        None => None,
    }
}

//! The places whose bits are set, where the first place need not have the first bit.
ghost use Rattle.std.specs.Prelude.{◌≡◌, ◌+◌, ◌*◌, ◌<◌, ◌≤◌, ◌^◌, MatchOption, length};
ghost use Rattle.std.specs.Slice.Scan.{HoldsNowhere, IsFirstPlace};
ghost use Rattle.gf2_matrix.specs.Views.{is_picked};

use gf2_rows::WordRow;

/// The least of so many places from `from` on whose bit is set.
pub(crate) fn next_picked(
    words: &WordRow<'_>,
    start: u64,
    places: usize,
    from: usize,
) -> Option<usize>
    requires few { length words.now < 2 ^ 32 }
    requires room { start + places ≤ 64 * length words.now }
    requires within { from ≤ places }
    ensures { MatchOption result
        (HoldsNowhere (is_picked words.now start) from places)
        (λ k. (k < places) × IsFirstPlace (is_picked words.now start) from places k) }
{
    match words.next_one(start + from as u64) {
        Some(bit) if bit < start + places as u64 => Some((bit - start) as usize),
        _ => None,
    }
}

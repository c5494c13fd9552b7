//! The set positions of a row in turn.
ghost use Rattle.std.specs.Prelude.{◌≡◌, ◌*◌, ◌<◌, ◌≤◌, ◌^◌, length, MatchOption, None};
ghost use Rattle.std.specs.Slice.Scan.{HoldsNowhere, IsFirstPlace};
ghost use Rattle.gf2_rows.specs.Bits.{bit_of, is_outside};

use crate::plain::open_bits;

/// The least position from `from` on that is set, in at most 4,294,967,295 words.
pub fn next_one(row: &[u64], from: u64) -> Option<u64>
    requires few { length row.now < 2 ^ 32 }
    requires within { from ≤ 64 * length row.now }
    ensures { MatchOption result
        (HoldsNowhere (bit_of row.now) from (64 * length row.now))
        (λ k. (k < 64 * length row.now) × IsFirstPlace (bit_of row.now) from (64 * length row.now) k) }
{
    let mut k = from;
    while k < 64 * row.len() as u64 {
        let rest = row[(k / 64) as usize] >> (k % 64);
        if rest != 0 {
            return Some(k + u64::from(rest.trailing_zeros()));
        }
        k = 64 * (k / 64 + 1);
    }
    None
}

/// The least position from `from` on that is set in `row` and not set in `mask`, in at most 4,294,967,295 words.
pub fn next_outside(row: &[u64], mask: &[u64], from: u64) -> Option<u64>
    requires same { length row.now ≡ length mask.now }
    requires few { length row.now < 2 ^ 32 }
    requires within { from ≤ 64 * length row.now }
    ensures { MatchOption result
        (HoldsNowhere (is_outside row.now mask.now None) from (64 * length row.now))
        (λ k. (k < 64 * length row.now) × IsFirstPlace (is_outside row.now mask.now None) from (64 * length row.now) k) }
{
    let mut k = from;
    while k < 64 * row.len() as u64 {
        let at = (k / 64) as usize;
        let rest = open_bits(row[at], mask[at], k / 64, None) >> (k % 64);
        if rest != 0 {
            return Some(k + u64::from(rest.trailing_zeros()));
        }
        k = 64 * (k / 64 + 1);
    }
    None
}

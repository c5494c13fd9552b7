//! The kernels as plain loops over the words.
ghost use Rattle.std.specs.Prelude.{◌≡◌, ℕ, ◌+◌, ◌*◌, ◌<◌, ◌^◌, ◌&&◌, not, length, count_by, MatchOption};
ghost use Rattle.std.specs.Simd.Lanes.{zip2};
ghost use Rattle.std.specs.Slice.Scan.{HoldsNowhere, IsFirstPlace};
ghost use Rattle.cx_base.specs.Literals.{differ};
ghost use Rattle.cx_base.specs.Parity.{odd_sum};
ghost use Rattle.gf2_rows.specs.Bits.{word_bit, bits_of, is_skipped, is_outside, IsCountBelow};

/// Adds `other` to `row`, position by position modulo two.
#[inline(always)]
pub fn add_into(row: &mut [u64], other: &[u64])
    requires { length row.old ≡ length other.now }
    ensures { bits_of row.new ≡ zip2 differ (bits_of row.old) (bits_of other.now) }
{
    for i in 0..row.len() {
        row[i] ^= other[i];
    }
}

/// The sum of the products of the two rows' bits, modulo two.
#[inline(always)]
pub fn parity_and(a: &[u64], b: &[u64]) -> bool
    requires { length a.now ≡ length b.now }
    ensures { result ≡ odd_sum (zip2 ◌&&◌ (bits_of a.now) (bits_of b.now)) }
{
    let mut sum = 0;
    for i in 0..a.len() {
        sum ^= a[i] & b[i];
    }
    sum.count_ones() % 2 == 1
}

/// The number of ones, in at most 4,294,967,295 words.
pub fn ones(row: &[u64]) -> u64
    requires { length row.now < 2 ^ 32 }
    ensures { result ≡ count_by (λ b. b) (bits_of row.now) }
{
    let mut total = 0;
    for word in row {
        total += u64::from(word.count_ones());
    }
    total
}

/// The number of ones if it is below `limit`, in at most 4,294,967,295 words. It counts no further than to the limit.
pub fn fewer_ones(row: &[u64], limit: u64) -> Option<u64>
    requires { length row.now < 2 ^ 32 }
    ensures { IsCountBelow limit row.now result }
{
    let mut count = 0;
    for word in row {
        if *word == 0 {
            continue;
        }
        count += u64::from(word.count_ones());
        if count >= limit {
            return None;
        }
    }
    if count < limit { Some(count) } else { None }
}

/// The least position that is set in `row`, not set in `mask` and not `skip`, in at most 4,294,967,295 words.
#[inline(always)]
pub fn first_outside(row: &[u64], mask: &[u64], skip: Option<u64>) -> Option<u64>
    requires same { length row.now ≡ length mask.now }
    requires few { length row.now < 2 ^ 32 }
    ensures { MatchOption result
        (HoldsNowhere (is_outside row.now mask.now skip) 0 (64 * length row.now))
        (λ k. (k < 64 * length row.now) × IsFirstPlace (is_outside row.now mask.now skip) 0 (64 * length row.now) k) }
{
    for i in 0..row.len() {
        let open = open_bits(row[i], mask[i], i as u64, skip);
        if open != 0 {
            return Some(64 * i as u64 + u64::from(open.trailing_zeros()));
        }
    }
    None
}

/// The bits of the word at `index` that are outside the mask and not skipped.
pub(crate) fn open_bits(word: u64, masked: u64, index: u64, skip: Option<u64>) -> u64
    ensures { (j : ℕ) → j < 64 → word_bit result j ≡ (word_bit word j && (not (word_bit masked j) && not (is_skipped skip (64 * index + j)))) }
{
    let open = word & !masked;
    match skip {
        Some(place) if place / 64 == index => open & !(1 << (place % 64)),
        _ => open,
    }
}

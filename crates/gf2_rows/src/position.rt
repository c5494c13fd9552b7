//! One position of a row.
ghost use Rattle.std.specs.Prelude.{◌≡◌, ℕ, if◌then◌else◌, nat_eq, ◌*◌, ◌<◌, not, length, slice_set};
ghost use Rattle.gf2_rows.specs.Bits.{bits_of, bit_of};

/// The bit at `k`.
pub fn bit(row: &[u64], k: u64) -> bool
    requires { k < 64 * length row.now }
    ensures { result ≡ bit_of row.now k }
{
    (row[(k / 64) as usize] >> (k % 64)) & 1 == 1
}

/// Turns the bit at `k` over.
pub fn flip(row: &mut [u64], k: u64)
    requires { k < 64 * length row.old }
    ensures { bits_of row.new ≡ slice_set (bits_of row.old) k (not (bit_of row.old k)) }
{
    row[(k / 64) as usize] ^= 1 << (k % 64);
}

/// Sets the bit at `k` to `value`.
pub fn put(row: &mut [u64], k: u64, value: bool)
    requires { k < 64 * length row.old }
    ensures { (j : ℕ) → bit_of row.new j ≡ (if nat_eq j k then value else bit_of row.old j) }
{
    if bit(row, k) != value {
        flip(row, k);
    }
}

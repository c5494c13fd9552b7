//! Runs of digits as numbers.
ghost use Rattle.std.specs.Prelude.{◌≡◌, ◌-◌, ◌^◌, min, option_map};
ghost use Rattle.cx_texts.specs.Words.{natural, is_digit};

/// Whether the byte is a digit.
#[inline(always)]
pub fn is_digit_byte(byte: u8) -> bool
    ensures { result ≡ is_digit byte }
{
    byte >= b'0' && byte <= b'9'
}

/// The number that the digits write, or the greatest of 64 bits in place of a greater one.
pub fn read_natural(digits: &[u8]) -> Option<u64>
    ensures { result ≡ option_map (λ n. min n (2 ^ 64 - 1)) (natural digits.now) }
{
    if digits.is_empty() {
        return None;
    }
    let mut value = 0u64;
    for digit in digits {
        let byte = *digit;
        if !is_digit_byte(byte) {
            return None;
        }
        value = value
            .saturating_mul(10)
            .saturating_add(u64::from(byte - b'0'));
    }
    Some(value)
}

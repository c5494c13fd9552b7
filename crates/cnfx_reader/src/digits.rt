//! A few digits at the start of some bytes.
ghost use Rattle.std.specs.Prelude.{◌≡◌, ◌≤◌, length, take, true};
ghost use Rattle.std.specs.List.{list_all};
ghost use Rattle.std.specs.Str.Parse.{digits_value};
ghost use Rattle.cx_texts.specs.Words.{is_digit};

use cx_texts::is_digit_byte;

/// How many digits are converted without a test of their number: the greatest such number fits 32 bits.
pub(crate) const SHORT: usize = 9;

/// Digits at the start of some bytes.
#[derive(Clone, Copy, Drop)]
pub(crate) struct ShortDigits {
    /// Their number.
    pub value: u32,
    /// How many there are.
    pub len: usize,
}

/// The digits at the start, of [`SHORT`] bytes at most.
///
/// With no test of the number or of the text's end the loop is unrolled.
#[inline(always)]
pub(crate) fn short_digits(text: &[u8]) -> ShortDigits
    requires { SHORT ≤ length text.now }
    ensures few { result.len ≤ SHORT }
    ensures digits { list_all is_digit (take result.len text.now) ≡ true }
    ensures value { result.value ≡ digits_value 10 (take result.len text.now) }
{
    let mut value = 0;
    let mut len = 0;
    while len < SHORT && is_digit_byte(text[len]) {
        value = value * 10 + u32::from(text[len] - b'0');
        len += 1;
    }
    ShortDigits { value, len }
}

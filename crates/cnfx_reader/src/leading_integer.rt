//! Integers at the start of a text.
ghost use Rattle.std.specs.Prelude.{◌≡◌, ◌<◌, length, take, Some, true, slice_index, IfSome, ℤ};
ghost use Rattle.cx_texts.specs.Tokens.{is_blank, NoBlank};
ghost use Rattle.cx_texts.specs.Words.{integer};
ghost use Rattle.cx_texts.specs.LiteralTokens.{IsInteger};

use crate::digits::{SHORT, short_digits};
use cx_base::MAX_VARIABLE;
use cx_texts::{Integer, has_minus, is_blank_byte, small_integer};

/// An integer at the start of some bytes, and how many of them are its token.
#[derive(Clone, Copy, Drop)]
pub(crate) struct LeadingInteger {
    pub integer: Integer,
    pub len: usize,
}

/// The integer up to the limit at the start, where a blank follows it.
///
/// `None` says nothing: near the end of the text, or at a long spelling, the whole token decides.
#[inline(always)]
pub(crate) fn leading_integer(text: &[u8]) -> Option<LeadingInteger>
    ensures { IfSome result (λ r. (0 < r.len) × (r.len < length text.now) × NoBlank (take r.len text.now) × (is_blank (slice_index text.now r.len) ≡ true)
        × ((z : ℤ) × IsInteger r.integer z × (integer (take r.len text.now) ≡ Some z))) }
{
    if text.len() <= SHORT + 1 {
        return None;
    }
    let negative = has_minus(text);
    let first = usize::from(negative);
    let digits = short_digits(&text[first..]);
    let len = first + digits.len;
    if digits.value <= MAX_VARIABLE && 0 < digits.len && is_blank_byte(text[len]) {
        Some(LeadingInteger {
            integer: small_integer(digits.value, negative),
            len,
        })
    } else {
        None
    }
}

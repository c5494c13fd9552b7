//! What a token says to a reader of steps.
ghost use Rattle.std.specs.Prelude.{◌≡◌, ◌-◌, ◌^◌, ℕ, min};
ghost use Rattle.cx_base.specs.Integers.{signed};
ghost use Rattle.cx_texts.specs.Words.{letter_or_other, word_of};
ghost use Rattle.step_text.specs.Seen.{seen, seen_number};

use cx_texts::{has_minus, read_natural};

/// A token's word. A number whose magnitude is above the limit is seen by its sign alone.
#[derive(Clone, Copy, Drop)]
pub enum TokenWord {
    Zero,
    Positive(i64),
    Negative(i64),
    BigPositive,
    BigNegative,
    Letter(u8),
    Other,
}

/// The greatest magnitude of a number.
const LIMIT: u64 = 9_223_372_036_854_775_807;

/// The word of a number by its sign and magnitude, as far as 64 bits hold it.
fn number_word(negative: bool, magnitude: u64) -> TokenWord
    ensures { (n : ℕ) → magnitude ≡ min n (2 ^ 64 - 1) → result ≡ seen_number (signed negative n) }
{
    if magnitude == 0 {
        TokenWord::Zero
    } else if magnitude > LIMIT {
        if negative {
            TokenWord::BigNegative
        } else {
            TokenWord::BigPositive
        }
    } else if negative {
        TokenWord::Negative(-(magnitude as i64))
    } else {
        TokenWord::Positive(magnitude as i64)
    }
}

/// The word of a token that is no number.
fn no_number(text: &[u8]) -> TokenWord
    ensures { result ≡ seen (letter_or_other text.now) }
{
    if text.len() == 1 {
        TokenWord::Letter(text[0])
    } else {
        TokenWord::Other
    }
}

/// The word of a token's bytes.
pub fn see(text: &[u8]) -> TokenWord
    ensures { result ≡ seen (word_of text.now) }
{
    if has_minus(text) {
        match read_natural(&text[1..]) {
            Some(magnitude) => number_word(true, magnitude),
            None => no_number(text),
        }
    } else {
        match read_natural(text) {
            Some(magnitude) => number_word(false, magnitude),
            None => no_number(text),
        }
    }
}

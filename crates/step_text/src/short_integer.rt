//! Integers of a few digits at the start of some bytes.
ghost use Rattle.std.specs.Prelude.{◌≡◌, ◌≤◌, ◌<◌, ◌++◌, ℤ, List, length, take, true, false, slice_index, IfSome, IfOk};
ghost use Rattle.std.specs.List.{list_all};
ghost use Rattle.std.specs.Str.Parse.{digits_value};
ghost use Rattle.cx_base.specs.Integers.{signed};
ghost use Rattle.cx_texts.specs.Tokens.{is_blank};
ghost use Rattle.cx_texts.specs.Words.{is_digit};
ghost use Rattle.step_text.specs.Short.{IsShortFront, TakesFrom};

use core::dec2flt::read_digits;
use cx_texts::{begin_behind, has_minus, is_blank_byte, is_digit_byte};
use std::alloc::AllocError;

/// How many digits are converted without a test of their number: the greatest such number fits 63 bits.
const FEW: usize = 18;

/// Digits at the start of some bytes: their number, and how many there are.
#[derive(Clone, Copy, Drop)]
struct Digits {
    value: u64,
    len: usize,
}

/// An integer at the start of some bytes, and how many of them are its token.
#[derive(Clone, Copy, Drop)]
pub(crate) struct ShortInteger {
    pub value: i64,
    pub len: usize,
}

/// The digits at the start, [`FEW`] at most.
#[inline(always)]
fn few_digits(text: &[u8]) -> Digits
    requires { FEW ≤ length text.now }
    ensures few { result.len ≤ FEW }
    ensures digits { list_all is_digit (take result.len text.now) ≡ true }
    ensures value { result.value ≡ digits_value 10 (take result.len text.now) }
    ensures small { result.value < 1000000000000000000 }
{
    let mut value = 0;
    let mut len = 0;
    while len < FEW && is_digit_byte(text[len]) {
        value = value * 10 + u64::from(text[len] - b'0');
        len += 1;
    }
    Digits { value, len }
}

/// The integer of a sign and a magnitude of a few digits.
#[inline(always)]
fn signed_value(negative: bool, magnitude: u64) -> i64
    requires { magnitude < 1000000000000000000 }
    ensures { result ≡ signed negative magnitude }
{
    if negative {
        -(magnitude as i64)
    } else {
        magnitude as i64
    }
}

/// The integer of a few digits at the start, where a blank follows it.
///
/// `None` says nothing: near the end of the text, or at a long spelling, the whole token decides.
#[inline(always)]
pub(crate) fn short_integer(text: &[u8]) -> Option<ShortInteger>
    ensures { IfSome result (IsShortFront text.now) }
{
    if text.len() <= FEW + 1 {
        return None;
    }
    let negative = has_minus(text);
    let first = usize::from(negative);
    let digits = few_digits(&text[first..]);
    let len = first + digits.len;
    if digits.len == 0 || !is_blank_byte(text[len]) {
        return None;
    }
    Some(ShortInteger {
        value: signed_value(negative, digits.value),
        len,
    })
}

/// Whether a byte is a space, the most frequent blank.
#[inline(always)]
fn is_space_byte(byte: u8) -> bool
    ensures { result ≡ true → byte ≡ 32 }
{
    byte == b' '
}

/// The digits at the start, [`FEW`] at most, eight at a time: for numbers of many digits, as ids mostly are.
#[inline(always)]
fn digits_by_eight(text: &[u8]) -> Digits
    requires { FEW ≤ length text.now }
    ensures few { result.len ≤ FEW }
    ensures digits { list_all is_digit (take result.len text.now) ≡ true }
    ensures value { result.value ≡ digits_value 10 (take result.len text.now) }
    ensures small { result.value < 1000000000000000000 }
{
    let (len, value) = read_digits(&text[..FEW], 0, 0);
    Digits { value, len }
}

/// The number of a few digits at the start, where a space follows it.
///
/// `None` says nothing, as of an integer.
#[inline(always)]
pub(crate) fn short_number(text: &[u8]) -> Option<ShortInteger>
    ensures front { IfSome result (IsShortFront text.now) }
    ensures space { IfSome result (λ s. slice_index text.now s.len ≡ 32) }
{
    if text.len() <= FEW + 1 {
        return None;
    }
    let digits = digits_by_eight(text);
    if digits.len == 0 || !is_space_byte(text[digits.len]) {
        return None;
    }
    Some(ShortInteger {
        value: signed_value(false, digits.value),
        len: digits.len,
    })
}

/// Numbers that were taken one after another: whether the zero that ends a list was the last, and where the next token begins.
#[derive(Clone, Copy, Drop)]
pub(crate) struct Shorts {
    pub ended: bool,
    pub at: usize,
}

/// Takes integers of a few digits from the place where a token begins into a list, up to a zero or to another word.
///
/// The zero is taken too. In this loop nothing but the list is written to memory.
pub(crate) fn take_shorts(
    text: &[u8],
    from: usize,
    members: &mut Vec<i64>,
) -> Result<Shorts, AllocError>
    requires high { from ≤ length text.now }
    requires begins { from < length text.now → is_blank (slice_index text.now from) ≡ false }
    ensures { IfOk result (λ shorts. (more : List ℤ) × (members.new.items ≡ members.old.items ++ more) × TakesFrom text.now from more shorts.ended shorts.at) }
{
    let mut at = from;
    while let Some(short) = short_integer(&text[at..]) {
        at = begin_behind(text, at + short.len);
        if short.value == 0 {
            return Ok(Shorts { ended: true, at });
        }
        members.push(short.value)?;
    }
    Ok(Shorts { ended: false, at })
}

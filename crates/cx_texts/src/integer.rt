//! Tokens as integers.
ghost use Rattle.std.specs.Prelude.{◌≡◌, ◌≤◌, ℕ, ℤ, None, Some, MatchOption};
ghost use Rattle.cx_base.specs.declared.literal.TheConstants.{MAX_VARIABLE};
ghost use Rattle.cx_base.specs.Integers.{signed};
ghost use Rattle.cx_texts.specs.Words.{integer, natural};
ghost use Rattle.cx_texts.specs.LiteralTokens.{IsInteger, begins_with_minus};

use crate::natural::read_natural;
use cx_base::{Lit, MAX_VARIABLE, Var};

/// What an integer says as a literal.
#[derive(Clone, Copy, Drop)]
pub enum Integer {
    /// Any spelling of zero, which ends a list of literals.
    Zero,
    /// A literal.
    Literal(Lit),
    /// A magnitude above the greatest variable.
    Above,
}

/// The integer of a magnitude up to the greatest variable, and a sign.
#[inline(always)]
pub fn small_integer(magnitude: u32, negative: bool) -> Integer
    requires { magnitude ≤ MAX_VARIABLE }
    ensures { IsInteger result (signed negative magnitude) }
{
    if magnitude == 0 {
        Integer::Zero
    } else {
        Integer::Literal(Lit::new(Var::new(magnitude), negative))
    }
}

/// Whether a minus comes first.
#[inline(always)]
pub fn has_minus(token: &[u8]) -> bool
    ensures { result ≡ begins_with_minus token.now }
{
    !token.is_empty() && token[0] == b'-'
}

/// The integer of a sign and the digits that follow.
fn signed_integer(digits: &[u8], negative: bool) -> Option<Integer>
    ensures { MatchOption result (natural digits.now ≡ None) (λ i. (n : ℕ) × IsInteger i (signed negative n) × (natural digits.now ≡ Some n)) }
{
    match read_natural(digits) {
        Some(magnitude) => {
            if magnitude <= u64::from(MAX_VARIABLE) {
                Some(small_integer(magnitude as u32, negative))
            } else {
                Some(Integer::Above)
            }
        }
        None => None,
    }
}

/// The integer of a token of any length, if it is one.
pub fn read_integer(token: &[u8]) -> Option<Integer>
    ensures { MatchOption result (integer token.now ≡ None) (λ i. (z : ℤ) × IsInteger i z × (integer token.now ≡ Some z)) }
{
    if has_minus(token) {
        signed_integer(&token[1..], true)
    } else {
        signed_integer(token, false)
    }
}

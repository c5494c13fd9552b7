//! Tokens of the body.
ghost use Rattle.std.specs.Prelude.{◌≡◌, ◌<◌, false, length, slice_index};
ghost use Rattle.cx_texts.specs.Tokens.{is_blank};
ghost use Rattle.cx_texts.specs.Words.{formula_words_of};
ghost use Rattle.cx_texts.specs.Front.{IsFront};
ghost use Rattle.cnfx_reader.specs.Meanings.{Says, SaysOf};

use crate::leading_integer::leading_integer;
use cx_texts::{Front, FrontToken, Integer, read_integer, run_len};

/// What a token of the body says.
#[derive(Clone, Copy, Drop)]
pub(crate) enum BodyToken {
    /// An integer.
    Integer(Integer),
    /// An `x`, which begins a parity.
    Mark,
    /// An `x` joined to an integer.
    MarkedInteger(Integer),
    /// An `a`, which begins an assumption constraint.
    Assume,
    /// Any other token.
    Other,
}

/// What a whole token says.
// Not inlined into `any_token`, it would cost each `x` that is joined to an integer a few instructions.
#[inline(always)]
pub(crate) fn read_token(token: &[u8]) -> BodyToken
    requires { 0 < length token.now }
    ensures { Says result (formula_words_of token.now) }
{
    if token[0] == b'x' {
        if token.len() == 1 {
            return BodyToken::Mark;
        }
        match read_integer(&token[1..]) {
            Some(integer) => BodyToken::MarkedInteger(integer),
            None => BodyToken::Other,
        }
    } else {
        match read_integer(token) {
            Some(integer) => BodyToken::Integer(integer),
            None => {
                if token.len() == 1 && token[0] == b'a' {
                    return BodyToken::Assume;
                }
                BodyToken::Other
            }
        }
    }
}

/// The first token, whatever it says.
fn any_token(text: &[u8]) -> Front<BodyToken>
    requires some { 0 < length text.now }
    requires begins { is_blank (slice_index text.now 0) ≡ false }
    ensures { IsFront SaysOf text.now result }
{
    let len = run_len(text);
    Front {
        token: read_token(&text[..len]),
        len,
        blank_follows: false,
    }
}

/// The first token, most likely an `x` joined to an integer.
///
/// It is kept apart from the path of plain integers, to keep that one short.
#[inline(never)]
fn marked_token(text: &[u8]) -> Front<BodyToken>
    requires some { 0 < length text.now }
    requires begins { is_blank (slice_index text.now 0) ≡ false }
    ensures { IsFront SaysOf text.now result }
{
    if text[0] == b'x' {
        if let Some(leading) = leading_integer(&text[1..]) {
            return Front {
                token: BodyToken::MarkedInteger(leading.integer),
                len: 1 + leading.len,
                blank_follows: false,
            };
        }
    }
    any_token(text)
}

/// The first token. An integer up to the limit takes one pass over its bytes.
#[inline(always)]
fn leading_token(text: &[u8]) -> Front<BodyToken>
    requires some { 0 < length text.now }
    requires begins { is_blank (slice_index text.now 0) ≡ false }
    ensures { IsFront SaysOf text.now result }
{
    match leading_integer(text) {
        Some(leading) => Front {
            token: BodyToken::Integer(leading.integer),
            len: leading.len,
            blank_follows: true,
        },
        None => marked_token(text),
    }
}

impl FrontToken for BodyToken {
    ghost said = { SaysOf };

    #[inline(always)]
    fn read(text: &[u8]) -> Front<BodyToken> {
        leading_token(text)
    }
}

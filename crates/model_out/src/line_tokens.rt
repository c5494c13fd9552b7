//! The tokens of an answer, and which of them are the first of their line.
ghost use Rattle.std.specs.Prelude.{◌≡◌, [], ◌∷◌, take, MatchOption};
ghost use Rattle.model_out.specs.LineTokens.{at_line_begin, line_tokens};
ghost use Rattle.model_out.specs.Reading.{seen};

use cx_texts::{EndLines, TokenReader, is_blank_byte};
use std::marker::Model;

/// A token, the place of its first byte, and whether it is the first of its line.
#[derive(Clone, Copy, Drop)]
pub(crate) struct LineTokenAt<'a> {
    pub place: u64,
    pub begins: bool,
    pub text: &'a [u8],
}

/// Whether at most blanks came since the last line feed, or since the beginning.
fn ends_at_line_begin(before: &[u8]) -> bool
    ensures { result ≡ at_line_begin before.now }
{
    let mut at = before.len();
    while at > 0 {
        at -= 1;
        let byte = before[at];
        if byte == b'\n' {
            return true;
        }
        if !is_blank_byte(byte) {
            return false;
        }
    }
    true
}

/// Whether the place is the beginning of a line, but for blanks.
fn begins_line_at(text: &[u8], place: usize) -> bool
    ensures { result ≡ at_line_begin (take place text.now) }
{
    ends_at_line_begin(&text[..place.min(text.len())])
}

/// The tokens that are left of a text.
#[derive(Drop)]
pub(crate) struct LineTokens<'a> {
    text: &'a [u8],
    tokens: TokenReader<'a>,
}

impl<'a> Model for LineTokens<'a> {
    ghost use Rattle.std.specs.Prelude.{List, map};
    ghost use Rattle.model_out.specs.LineTokens.{LineToken, line_token};

    ghost Value = { List LineToken };

    ghost view = { λ r. map (line_token r.text.now) r.tokens };
}

impl<'a> LineTokens<'a> {
    /// The tokens of a whole text.
    pub(crate) fn new(text: &'a [u8]) -> LineTokens<'a>
        ensures { result ≡ line_tokens text.now }
    {
        LineTokens {
            text,
            tokens: TokenReader::new(text, EndLines::Kept),
        }
    }

    /// The next token, or none at the end.
    pub(crate) fn next_token(&mut self) -> Option<LineTokenAt<'a>>
        ensures { MatchOption result ((self.old ≡ []) × (self.new ≡ [])) (λ t. self.old ≡ seen t ∷ self.new) }
    {
        match self.tokens.next_token() {
            Some(token) => Some(LineTokenAt {
                place: token.place as u64,
                begins: begins_line_at(self.text, token.place),
                text: token.text,
            }),
            None => None,
        }
    }
}

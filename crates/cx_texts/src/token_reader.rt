//! The tokens of a text, one after another: the plain program of their definition.
ghost use Rattle.std.specs.Prelude.{◌≡◌, ◌<◌, ◌+◌, ◌^◌, ℕ, List, [], ◌∷◌, length, MatchOption};
ghost use Rattle.cx_texts.specs.Tokens.{Token, is_blank, tokens_from_by, tokens_within_by};

use crate::front::{FrontToken, SaidAt};
use crate::line_state::EndLines;
use crate::places::{Place, behind_token, next_begin, run_len};
use std::marker::Model;

/// A run of non-blank bytes, and the place of its first byte.
#[derive(Clone, Copy, Drop)]
pub struct TokenAt<'a> {
    pub place: usize,
    pub text: &'a [u8],
}

/// What is left of a text.
#[derive(Drop)]
pub struct TokenReader<'a> {
    text: &'a [u8],
    // the place of the first byte in the whole text
    from: usize,
    place: Place,
    end_lines: EndLines,
}

impl<'a> Model for TokenReader<'a> {
    ghost use Rattle.std.specs.Prelude.{List, length, drop, ◌≤◌, ◌<◌, ◌+◌, ◌^◌};
    ghost use Rattle.cx_texts.specs.Tokens.{Token, tokens_left_by};

    ghost Value = { List Token };

    ghost view = { λ r. tokens_left_by r.end_lines r.place.in_line (r.from + r.place.at) (drop r.place.at r.text.now) };

    ghost invariant = { λ r. (r.place.at ≤ length r.text.now) × (r.from + length r.text.now < 2 ^ 64) };
}

/// Whether the byte is a space, a tab, CR or LF.
pub fn is_blank_byte(byte: u8) -> bool
    ensures { result ≡ is_blank byte }
{
    byte == b' ' || byte == b'\t' || byte == b'\r' || byte == b'\n'
}

impl<'a> TokenReader<'a> {
    /// The tokens of a whole text.
    pub fn new(text: &'a [u8], end_lines: EndLines) -> TokenReader<'a>
        ensures { result ≡ tokens_from_by end_lines 0 text.now }
    {
        TokenReader {
            text,
            from: 0,
            place: Place {
                at: 0,
                in_line: false,
            },
            end_lines,
        }
    }

    /// The tokens of a part of a text that begins at this place, within a kept line.
    pub fn within(text: &'a [u8], place: usize, end_lines: EndLines) -> TokenReader<'a>
        requires { place + length text.now < 2 ^ 64 }
        ensures { result ≡ tokens_within_by end_lines place text.now }
    {
        TokenReader {
            text,
            from: place,
            place: Place {
                at: 0,
                in_line: true,
            },
            end_lines,
        }
    }

    /// The next token by its bytes, or none at the end.
    pub fn next_token(&mut self) -> Option<TokenAt<'a>>
        ensures { MatchOption result ((self.old ≡ []) × (self.new ≡ [])) (λ t. self.old ≡ record { place = t.place; text = t.text.now } ∷ self.new) }
    {
        let text = self.text;
        let at = next_begin(text, self.place, self.end_lines)?;
        let len = run_len(&text[at..]);
        self.place = Place {
            at: at + len,
            in_line: true,
        };
        Some(TokenAt {
            place: self.from + at,
            text: &text[at..at + len],
        })
    }

    /// The next token by what it says, or none at the end.
    #[inline(always)]
    pub fn next_as<T: FrontToken>(&mut self) -> Option<SaidAt<T>>
        ensures { MatchOption result ((self.old ≡ []) × (self.new ≡ [])) (λ t. (text : List ℕ) × (self.old ≡ record { place = t.place; text = text } ∷ self.new) × T.said t.token text) }
    {
        let text = self.text;
        let at = next_begin(text, self.place, self.end_lines)?;
        let front = T::read(&text[at..]);
        self.place = behind_token(text, at + front.len, front.blank_follows);
        Some(SaidAt {
            place: (self.from + at) as u64,
            token: front.token,
        })
    }
}

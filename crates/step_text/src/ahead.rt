//! A text's tokens with the next one at hand.
ghost use Rattle.std.specs.Prelude.{◌≡◌, ◌<◌, ◌≤◌, ◌≤ℤ◌, ◌+◌, ◌^◌, ◌↔◌, IsTrue, MatchOption, IfOk, OnOk, ℤ, List, ◌++◌, true, false, [], drop, length, slice_index};
ghost use Rattle.cx_base.specs.declared.id_moves.IdMove.{IdMove};
ghost use Rattle.cx_texts.specs.Tokens.{is_blank, tokens, tokens_within};
ghost use Rattle.cx_texts.specs.Words.{is_digit, placed_words, word_of};
ghost use Rattle.step_text.specs.Heads.{seen_head, is_letter, is_head_letter, head_place};
ghost use Rattle.step_text.specs.Short.{TakesNumber, TakesShorts};
ghost use Rattle.step_text.specs.Taking.{Takes, fields_of_pairs};

use crate::short_integer::{short_integer, take_shorts};
use crate::short_moves::take_short_moves;
use crate::token_word::{TokenWord, see};
use cx_base::IdMove;
use cx_texts::{begin_behind, begin_of_next, run_len};
use std::alloc::AllocError;
use std::marker::Model;

/// A word and the place of its token.
#[derive(Clone, Copy, Drop)]
pub struct SeenWord {
    pub place: u64,
    pub word: TokenWord,
}

/// The tokens that are left of a text.
#[derive(Drop)]
pub struct TokensAhead<'a> {
    text: &'a [u8],
    // the place of the first byte in the whole text
    from: usize,
    // where the next token begins, or the end
    at: usize,
}

impl<'a> Model for TokensAhead<'a> {
    ghost use Rattle.std.specs.Prelude.{◌≡◌, ◌<◌, ◌≤◌, ◌+◌, ◌^◌, List, false, drop, length, slice_index};
    ghost use Rattle.cx_texts.specs.Tokens.{Token, is_blank, tokens_within};

    ghost Value = { List Token };

    ghost view = { λ a. tokens_within (a.from + a.at) (drop a.at a.text.now) };

    ghost invariant = { λ a. (a.at ≤ length a.text.now) × (a.at < length a.text.now → is_blank (slice_index a.text.now a.at) ≡ false) × (a.from + length a.text.now < 2 ^ 64) };
}

/// Whether a token is this letter, which is no digit.
fn is_lone(token: &[u8], letter: u8) -> bool
    requires { is_digit letter ≡ false }
    ensures { result ≡ is_letter letter (word_of token.now) }
{
    token.len() == 1 && token[0] == letter
}

/// Where the next token begins after one that ends here, or the text's length.
#[inline(always)]
fn behind(text: &[u8], end: usize) -> usize
    requires { end ≤ length text.now }
    ensures high { result ≤ length text.now }
    ensures begins { result < length text.now → is_blank (slice_index text.now result) ≡ false }
    ensures left { tokens_within end (drop end text.now) ≡ tokens_within result (drop result text.now) }
{
    if end < text.len() {
        begin_behind(text, end)
    } else {
        end
    }
}

impl<'a> TokensAhead<'a> {
    /// The tokens of a whole text.
    pub fn new(text: &'a [u8]) -> TokensAhead<'a>
        ensures { result ≡ tokens text.now }
    {
        TokensAhead {
            text,
            from: 0,
            at: begin_of_next(text, 0, false),
        }
    }

    /// The tokens of a part of a text that begins at this place, within a kept line.
    pub fn within(text: &'a [u8], place: usize) -> TokensAhead<'a>
        requires { place + length text.now < 2 ^ 64 }
        ensures { result ≡ tokens_within place text.now }
    {
        TokensAhead {
            text,
            from: place,
            at: begin_of_next(text, 0, true),
        }
    }

    /// Whether no token is left.
    pub fn is_empty(&self) -> bool
        ensures { IsTrue result ↔ self.now ≡ [] }
    {
        self.at == self.text.len()
    }

    /// The next word, or none at the end.
    pub fn word(&self) -> Option<SeenWord>
        ensures { result ≡ seen_head (placed_words self.now) }
    {
        if self.at == self.text.len() {
            return None;
        }
        let ahead = &self.text[self.at..];
        let len = run_len(ahead);
        Some(SeenWord {
            place: (self.from + self.at) as u64,
            word: see(&ahead[..len]),
        })
    }

    /// Whether the next word is this letter, which is no digit.
    pub fn is_letter(&self, letter: u8) -> bool
        requires { is_digit letter ≡ false }
        ensures { result ≡ is_head_letter letter (placed_words self.now) }
    {
        if self.at == self.text.len() {
            return false;
        }
        // Most tokens are told from a letter by their first byte.
        if self.text[self.at] != letter {
            return false;
        }
        let ahead = &self.text[self.at..];
        is_lone(&ahead[..run_len(ahead)], letter)
    }

    /// Takes the next word where it is this letter, which is no digit, and says whether it is.
    #[inline(always)]
    pub fn take_letter(&mut self, letter: u8) -> bool
        requires { is_digit letter ≡ false }
        ensures is { result ≡ is_head_letter letter (placed_words self.old) }
        ensures taken { result ≡ true → self.new ≡ drop 1 self.old }
        ensures same { result ≡ false → self.new ≡ self.old }
    {
        if self.at == self.text.len() {
            return false;
        }
        if self.text[self.at] != letter {
            return false;
        }
        let ahead = &self.text[self.at..];
        let len = run_len(ahead);
        if !is_lone(&ahead[..len], letter) {
            return false;
        }
        self.at = behind(self.text, self.at + len);
        true
    }

    /// Passes over the next token, if there is one.
    pub fn pass(&mut self)
        ensures { self.new ≡ drop 1 self.old }
    {
        let len = run_len(&self.text[self.at..]);
        self.at = behind(self.text, self.at + len);
    }

    /// Takes the next word where it is a number of a few digits, no less than this one, and a blank follows it.
    ///
    /// `None` says nothing of it, and then nothing is taken. A number that is taken takes one pass over its bytes.
    #[inline(always)]
    pub fn take_short(&mut self, least: i64) -> Option<i64>
        ensures { MatchOption result (self.new ≡ self.old) (λ z. (least ≤ℤ z) × TakesNumber self.old z self.new) }
    {
        let short = short_integer(&self.text[self.at..])?;
        if short.value < least {
            return None;
        }
        self.at = begin_behind(self.text, self.at + short.len);
        Some(short.value)
    }

    /// Takes integers of a few digits into a list, up to a zero, which is taken too, or to another word. Says whether the zero came.
    pub fn take_shorts(&mut self, members: &mut Vec<i64>) -> Result<bool, AllocError>
        ensures { IfOk result (λ ended. (more : List ℤ) × (members.new.items ≡ members.old.items ++ more) × TakesShorts (placed_words self.old) more ended (placed_words self.new)) }
    {
        let shorts = take_shorts(self.text, self.at, members)?;
        self.at = shorts.at;
        Ok(shorts.ended)
    }

    /// Takes pairs of ids of a few digits into a list, up to another word.
    pub fn take_short_moves(&mut self, members: &mut Vec<IdMove>) -> Result<(), AllocError>
        ensures { OnOk result ((more : List IdMove) × (members.new.items ≡ members.old.items ++ more) × Takes (fields_of_pairs more) (placed_words self.old) (placed_words self.new)) }
    {
        self.at = take_short_moves(self.text, self.at, members)?;
        Ok(())
    }

    /// The place of the next token, or the text's length at the end.
    pub fn place(&self, size: usize) -> usize
        ensures { result ≡ head_place size self.now }
    {
        if self.at == self.text.len() {
            size
        } else {
            self.from + self.at
        }
    }
}

//! Where the tokens of a text begin and end, by a rule of `%` lines.
ghost use Rattle.std.specs.Prelude.{◌≡◌, ◌≤◌, ◌<◌, ◌+◌, true, false, IsTrue, length, drop, take, slice_index, IfSome, IfNone, []};
ghost use Rattle.cx_texts.specs.Tokens.{is_blank, tokens_left_by, tokens_within, tokens_within_by, NoBlank, EndsRun, SkipsLine};
ghost use Rattle.cx_texts.specs.Passed.{IsPassed, left_at};
ghost use Rattle.cx_texts.specs.declared.line_state.EndLines.{EndLines as Rule};
ghost use Rattle.cx_texts.specs.declared.line_state.EndLines.TheVariants as end_line;

use crate::line_state::EndLines;
use crate::token_reader::is_blank_byte;
use memchr::memchr;

/// A place in a text, and whether it lies within a kept line.
///
/// Where it does not, only blanks are between it and the beginning of its line.
#[derive(Clone, Copy, Drop)]
pub(crate) struct Place {
    pub at: usize,
    pub in_line: bool,
}

/// What is at a place.
#[derive(Clone, Copy, Drop)]
pub(crate) enum Passed {
    /// A blank or a comment line, and the place after it.
    To(Place),
    /// A token begins.
    Token,
    /// A `%` line that ends the text.
    End,
}

/// The length of the run of non-blank bytes at the beginning.
pub fn run_len(text: &[u8]) -> usize
    ensures high { result ≤ length text.now }
    ensures run { NoBlank (take result text.now) }
    ensures ends { EndsRun (drop result text.now) }
{
    let mut len = 0;
    while len < text.len() && !is_blank_byte(text[len]) {
        len += 1;
    }
    len
}

/// The place after the line that goes on here.
// A long way off the path of tokens, which is to stay short.
#[inline(never)]
fn line_end(text: &[u8], at: usize) -> usize
    requires { at ≤ length text.now }
    ensures low { at ≤ result }
    ensures high { result ≤ length text.now }
    ensures skipped { SkipsLine at (drop at text.now) result (drop result text.now) }
{
    match memchr(b'\n', &text[at..]) {
        Some(len) => at + len + 1,
        None => text.len(),
    }
}

/// Passes over a blank or a comment line, if one is here.
#[tactic(auto, using(crate::proofs::PlaceLaws::feed_passed, crate::proofs::PlaceLaws::blank_passed, crate::proofs::PlaceLaws::first_blank_passed, crate::proofs::PlaceLaws::token_first, crate::proofs::PlaceLaws::percent_kept, crate::proofs::PlaceLaws::percent_ends))]
#[inline(always)]
fn pass(text: &[u8], from: Place, end_lines: EndLines) -> Passed
    requires { from.at < length text.now }
    ensures { IsPassed end_lines text.now from result }
{
    let byte = text[from.at];
    if is_blank_byte(byte) {
        return Passed::To(Place {
            at: from.at + 1,
            in_line: from.in_line && byte != b'\n',
        });
    }
    if from.in_line {
        return Passed::Token;
    }
    match byte {
        b'c' => Passed::To(Place {
            at: line_end(text, from.at + 1),
            in_line: false,
        }),
        b'%' => match end_lines {
            EndLines::Kept => Passed::Token,
            EndLines::End => Passed::End,
        },
        _ => Passed::Token,
    }
}

/// The place where the next token begins, if there is one.
#[inline(always)]
pub(crate) fn next_begin(text: &[u8], from: Place, end_lines: EndLines) -> Option<usize>
    requires { from.at ≤ length text.now }
    ensures found { IfSome result (λ at. (at < length text.now) × (is_blank (slice_index text.now at) ≡ false)
        × (tokens_left_by end_lines from.in_line from.at (drop from.at text.now) ≡ tokens_within_by end_lines at (drop at text.now))) }
    ensures none { IfNone result (tokens_left_by end_lines from.in_line from.at (drop from.at text.now) ≡ []) }
{
    let mut place = from;
    while place.at < text.len() {
        match pass(text, place, end_lines) {
            Passed::To(next) => place = next,
            Passed::Token => return Some(place.at),
            Passed::End => return None,
        }
    }
    None
}

/// Where the next token begins after a place within a kept line, or where a line may begin; or the text's length.
#[inline(always)]
pub fn begin_of_next(text: &[u8], at: usize, in_line: bool) -> usize
    requires { at ≤ length text.now }
    ensures high { result ≤ length text.now }
    ensures begins { result < length text.now → is_blank (slice_index text.now result) ≡ false }
    ensures left { tokens_left_by end_line.Kept in_line at (drop at text.now) ≡ tokens_within result (drop result text.now) }
{
    match next_begin(text, Place { at, in_line }, EndLines::Kept) {
        Some(begin) => begin,
        None => text.len(),
    }
}

/// Where the next token begins after one that ends here: mostly one space is in front of it.
#[tactic(auto, using(crate::proofs::PlaceLaws::blank_passed))]
#[inline(always)]
pub fn begin_behind(text: &[u8], end: usize) -> usize
    requires { end < length text.now }
    ensures high { result ≤ length text.now }
    ensures begins { result < length text.now → is_blank (slice_index text.now result) ≡ false }
    ensures left { tokens_within end (drop end text.now) ≡ tokens_within result (drop result text.now) }
{
    let next = end + 1;
    if text[end] == b' ' && next < text.len() && !is_blank_byte(text[next]) {
        return next;
    }
    begin_of_next(text, end, true)
}

/// The place after a token that ends here, or after the blank that follows it, where one is known to.
#[tactic(auto, using(crate::proofs::PlaceLaws::feed_passed, crate::proofs::PlaceLaws::blank_passed))]
#[inline(always)]
pub(crate) fn behind_token(text: &[u8], end: usize, blank_follows: bool) -> Place
    requires high { end ≤ length text.now }
    requires follows { IsTrue blank_follows → (end < length text.now) × (is_blank (slice_index text.now end) ≡ true) }
    ensures high { result.at ≤ length text.now }
    ensures left { (rule : Rule) → tokens_within_by rule end (drop end text.now) ≡ left_at rule text.now result }
{
    if blank_follows {
        Place {
            at: end + 1,
            in_line: text[end] != b'\n',
        }
    } else {
        Place {
            at: end,
            in_line: true,
        }
    }
}

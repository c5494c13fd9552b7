//! Where the pieces of a text may be cut.
ghost use Rattle.std.specs.Prelude.{false, ◌≡◌, ◌≤◌, ◌<◌, ◌+◌, ℕ, List, [], ◌++◌, length, take, drop, IsTrue, IsFalse};
ghost use Rattle.cx_texts.specs.Tokens.{EndsRun};
ghost use Rattle.cx_texts.specs.Pieces.{tokens_in_by, EndsBlank, line_behind};
ghost use Rattle.cx_texts.specs.declared.line_state.EndLines.TheVariants as end_line;
ghost use Rattle.cx_texts.specs.declared.line_state.LineState.TheVariants.{Kept};

use crate::line_state::{Behind, EndLines, LineState, behind_byte};
use crate::token_reader::is_blank_byte;

/// A place in a piece of a text, and the kind of line there; whether the text ends there by a `%` line.
#[derive(Clone, Copy, Drop)]
pub struct PlaceIn {
    pub at: usize,
    pub line: LineState,
    pub is_end: bool,
}

/// Passes over the blanks and comments at the beginning of a piece, up to a token, a `%` line that ends the text, or the end of the piece.
///
/// Whatever follows the piece, no token is lost.
pub fn pass_blanks(piece: &[u8], line: LineState, end_lines: EndLines) -> PlaceIn
    ensures high { result.at ≤ length piece.now }
    ensures left { (place : ℕ) (more : List ℕ) → tokens_in_by end_lines line place (piece.now ++ more) ≡ tokens_in_by end_lines result.line (place + result.at) (drop result.at piece.now ++ more) }
    ensures begins { IsFalse result.is_end → result.at < length piece.now → result.line ≡ Kept }
    ensures ends { IsTrue result.is_end → (place : ℕ) (more : List ℕ) → tokens_in_by end_lines line place (piece.now ++ more) ≡ [] }
    ensures goes { end_lines ≡ end_line.Kept → IsFalse result.is_end }
{
    let mut at = 0;
    let mut state = line;
    while at < piece.len() {
        match behind_byte(state, piece[at], end_lines) {
            Behind::Line(next) => {
                state = next;
                at += 1;
            }
            Behind::Token => {
                return PlaceIn {
                    at,
                    line: LineState::Kept,
                    is_end: false,
                };
            }
            Behind::End => {
                return PlaceIn {
                    at,
                    line: state,
                    is_end: true,
                };
            }
        }
    }
    PlaceIn {
        at,
        line: state,
        is_end: false,
    }
}

/// The kind of line that a reader is in after these bytes, where `%` lines are kept.
pub fn line_behind(line: LineState, bytes: &[u8]) -> LineState
    ensures { result ≡ line_behind line bytes.now }
{
    let mut line = line;
    for byte in bytes {
        line = match behind_byte(line, *byte, EndLines::Kept) {
            Behind::Line(next) => next,
            Behind::Token | Behind::End => LineState::Kept,
        };
    }
    line
}

/// The length of the longest prefix of a piece that ends with a blank, so that no token crosses its end.
pub fn whole_front(piece: &[u8]) -> usize
    ensures high { result ≤ length piece.now }
    ensures blank { EndsBlank (take result piece.now) }
{
    let mut len = piece.len();
    while len > 0 && !is_blank_byte(piece[len - 1]) {
        len -= 1;
    }
    len
}

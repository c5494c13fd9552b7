//! The kind of line that a reader is in between two bytes.
ghost use Rattle.std.specs.Prelude.{◌≡◌};
ghost use Rattle.cx_texts.specs.Pieces.{behind_byte, behind_percent};

use crate::token_reader::is_blank_byte;

/// The kind of line that the reader of a text in pieces is in between two bytes.
#[derive(Clone, Copy, Drop)]
pub enum LineState {
    /// A line of which only blanks were read: it may become a comment.
    Start,
    /// A line whose tokens are kept.
    Kept,
    /// A comment line.
    Comment,
}

/// The rule of `%` lines, whose first non-blank byte is `%`.
#[derive(Clone, Copy, Drop)]
pub enum EndLines {
    /// They are kept like any others.
    Kept,
    /// The first of them ends the text.
    End,
}

/// What a byte does to a reader of lines.
#[derive(Clone, Copy, Drop)]
pub(crate) enum Behind {
    /// It is in such a line.
    Line(LineState),
    /// A token begins with the byte.
    Token,
    /// The text ends: what follows the byte has no meaning.
    End,
}

/// What a `%` does where a line may begin.
fn behind_percent(end_lines: EndLines) -> Behind
    ensures { result ≡ behind_percent end_lines }
{
    match end_lines {
        EndLines::Kept => Behind::Token,
        EndLines::End => Behind::End,
    }
}

/// Where the reader is after a byte.
pub(crate) fn behind_byte(line: LineState, byte: u8, end_lines: EndLines) -> Behind
    ensures { result ≡ behind_byte end_lines line byte }
{
    match line {
        LineState::Start => {
            if is_blank_byte(byte) {
                Behind::Line(LineState::Start)
            } else {
                match byte {
                    b'c' => Behind::Line(LineState::Comment),
                    b'%' => behind_percent(end_lines),
                    _ => Behind::Token,
                }
            }
        }
        LineState::Kept => {
            if is_blank_byte(byte) {
                if byte == b'\n' {
                    Behind::Line(LineState::Start)
                } else {
                    Behind::Line(LineState::Kept)
                }
            } else {
                Behind::Token
            }
        }
        LineState::Comment => {
            if byte == b'\n' {
                Behind::Line(LineState::Start)
            } else {
                Behind::Line(LineState::Comment)
            }
        }
    }
}

//! Changes of a text of lines.
use std::alloc::{AllocError, Global};

/// One change of a line, or of a word of it.
#[derive(Clone, Copy, PartialEq, Eq, Debug, Drop)]
pub(crate) enum LineChange {
    Nothing,
    LeaveLineOut,
    LeaveWordOut(u64),
    /// A word becomes a number that no step has as its id.
    NameNone(u64),
}

/// What a change does to a byte.
#[derive(Clone, Copy, PartialEq, Eq, Debug, Drop)]
enum Byte {
    Stays,
    Goes,
    /// A number comes in its place.
    Turns,
}

/// What the change does to a byte of its line, which is in this word and may begin it.
fn changed_byte(change: LineChange, byte: u8, word: u64, begins: bool) -> Byte {
    match change {
        LineChange::Nothing => Byte::Stays,
        LineChange::LeaveLineOut => Byte::Goes,
        LineChange::LeaveWordOut(place) if place == word && byte != b'\n' => Byte::Goes,
        LineChange::NameNone(place) if place == word && byte != b'\n' && byte != b' ' => {
            if begins { Byte::Turns } else { Byte::Goes }
        }
        _ => Byte::Stays,
    }
}

/// The text with the change in a line, counted from 0, as its words are.
pub(crate) fn changed(
    alloc: Global,
    text: &[u8],
    line: u64,
    change: LineChange,
) -> Result<Vec<u8>, AllocError> {
    let mut bytes = Vec::new(alloc);
    let (mut lines, mut words) = (0u64, 0u64);
    let mut begins = true;
    for byte in text {
        let act = if lines == line {
            changed_byte(change, *byte, words, begins)
        } else {
            Byte::Stays
        };
        match act {
            Byte::Stays => bytes.push(*byte)?,
            Byte::Goes => {}
            Byte::Turns => bytes.extend_from_slice(b"999999")?,
        }
        begins = *byte == b' ' || *byte == b'\n';
        if *byte == b'\n' {
            lines = lines.saturating_add(1);
            words = 0;
        } else if *byte == b' ' {
            words = words.saturating_add(1);
        }
    }
    Ok(bytes)
}

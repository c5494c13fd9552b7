//! Pairs of ids of a few digits at the start of some bytes.
ghost use Rattle.std.specs.Prelude.{◌≡◌, ◌≤◌, ◌<◌, ◌++◌, [], ◌∷◌, List, length, false, slice_index, IfSome, IfOk};
ghost use Rattle.cx_base.specs.declared.id_moves.IdMove.{IdMove};
ghost use Rattle.cx_texts.specs.Tokens.{is_blank};
ghost use Rattle.step_text.specs.Short.{TakesPairs};

use crate::short_integer::short_number;
use cx_base::IdMove;
use cx_texts::begin_behind;
use std::alloc::AllocError;

/// Two ids, and where the token after them begins.
#[derive(Clone, Copy, Drop)]
struct ShortPair {
    ids: IdMove,
    next: usize,
}

/// The two ids of a few digits that begin there, where a space follows each.
///
/// `None` says nothing, as of one number.
#[inline(always)]
fn short_pair(text: &[u8], at: usize) -> Option<ShortPair>
    requires high { at ≤ length text.now }
    requires begins { at < length text.now → is_blank (slice_index text.now at) ≡ false }
    ensures { IfSome result (λ pair. TakesPairs text.now at (pair.ids ∷ []) pair.next) }
{
    let old = short_number(&text[at..])?;
    // The other id may begin after the space. Where a further blank is there, it is none of a few digits.
    let between = at + old.len + 1;
    let new = short_number(&text[between..])?;
    if old.value < 1 || new.value < 1 {
        return None;
    }
    Some(ShortPair {
        ids: IdMove {
            from: old.value as u64,
            to: new.value as u64,
        },
        next: begin_behind(text, between + new.len),
    })
}

/// Takes pairs of ids of a few digits from the place where a token begins into a list, up to another word, and says where that
/// begins.
///
/// In this loop nothing but the list is written to memory.
pub(crate) fn take_short_moves(
    text: &[u8],
    from: usize,
    members: &mut Vec<IdMove>,
) -> Result<usize, AllocError>
    requires high { from ≤ length text.now }
    requires begins { from < length text.now → is_blank (slice_index text.now from) ≡ false }
    ensures { IfOk result (λ next. (more : List IdMove) × (members.new.items ≡ members.old.items ++ more) × TakesPairs text.now from more next) }
{
    let mut at = from;
    while let Some(pair) = short_pair(text, at) {
        members.push(pair.ids)?;
        at = pair.next;
    }
    Ok(at)
}

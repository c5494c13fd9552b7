//! The fields of a step, taken from a text's tokens.
ghost use Rattle.std.specs.Prelude.{◌≡◌, ◌<◌, false, length, [], ◌∷◌, pos, IfOk};
ghost use Rattle.cx_texts.specs.Words.{is_digit, placed_words};
ghost use Rattle.cx_texts.specs.Grammar.{mark, id, integer, end, ids, integers, pairs};
ghost use Rattle.cx_texts.proofs.Shapes.{a_mark, an_id, an_integer, an_end, some_ids, some_integers, some_pairs};
ghost use Rattle.step_text.specs.Taking.{TakesOne, TakesMember, TakesAll};

use crate::ahead::TokensAhead;
use crate::source::TextRefusal;
use crate::token_word::TokenWord;
use cx_base::{IdList, IdMove, IntList, MoveList};

/// An id and literals.
#[derive(Drop)]
pub struct Named {
    pub id: u64,
    pub literals: IntList,
}

/// An id of any spelling.
#[inline(never)]
fn take_any_id(tokens: &mut TokensAhead, size: usize) -> Result<u64, TextRefusal>
    ensures { TakesOne id an_id size (placed_words tokens.old) result (placed_words tokens.new) }
{
    match tokens.word() {
        None => Err(TextRefusal::Unterminated(size as u64)),
        Some(seen) => match seen.word {
            TokenWord::Positive(number) => {
                tokens.pass();
                Ok(number as u64)
            }
            TokenWord::BigPositive => Err(TextRefusal::TooBig(seen.place)),
            _ => Err(TextRefusal::BadToken(seen.place)),
        },
    }
}

/// An id.
#[inline(always)]
pub fn take_id(tokens: &mut TokensAhead, size: usize) -> Result<u64, TextRefusal>
    ensures { TakesOne id an_id size (placed_words tokens.old) result (placed_words tokens.new) }
{
    match tokens.take_short(1) {
        Some(number) => Ok(number as u64),
        None => take_any_id(tokens, size),
    }
}

/// An integer that is not zero.
pub fn take_integer(tokens: &mut TokensAhead, size: usize) -> Result<i64, TextRefusal>
    ensures { TakesOne integer an_integer size (placed_words tokens.old) result (placed_words tokens.new) }
{
    match tokens.word() {
        None => Err(TextRefusal::Unterminated(size as u64)),
        Some(seen) => match seen.word {
            TokenWord::Positive(number) => {
                tokens.pass();
                Ok(number)
            }
            TokenWord::Negative(number) => {
                tokens.pass();
                Ok(number)
            }
            TokenWord::BigPositive => Err(TextRefusal::TooBig(seen.place)),
            TokenWord::BigNegative => Err(TextRefusal::TooBig(seen.place)),
            _ => Err(TextRefusal::BadToken(seen.place)),
        },
    }
}

/// A letter, which is no digit.
pub fn take_letter(tokens: &mut TokensAhead, size: usize, letter: u8) -> Result<(), TextRefusal>
    requires { is_digit letter ≡ false }
    ensures { TakesOne (λ _. mark letter) (a_mark letter) size (placed_words tokens.old) result (placed_words tokens.new) }
{
    if tokens.take_letter(letter) {
        return Ok(());
    }
    match tokens.word() {
        None => Err(TextRefusal::Unterminated(size as u64)),
        Some(seen) => Err(TextRefusal::BadToken(seen.place)),
    }
}

/// The zero that ends a list.
pub fn take_end(tokens: &mut TokensAhead, size: usize) -> Result<(), TextRefusal>
    ensures { TakesOne (λ _. end) an_end size (placed_words tokens.old) result (placed_words tokens.new) }
{
    match tokens.word() {
        None => Err(TextRefusal::Unterminated(size as u64)),
        Some(seen) => match seen.word {
            TokenWord::Zero => {
                tokens.pass();
                Ok(())
            }
            _ => Err(TextRefusal::BadToken(seen.place)),
        },
    }
}

/// A member of a list of integers, or none at the zero that ends it.
#[inline(never)]
fn take_listed_integer(tokens: &mut TokensAhead, size: usize) -> Result<Option<i64>, TextRefusal>
    ensures taken { TakesMember integer some_integers size (placed_words tokens.old) result (placed_words tokens.new) }
    ensures falls { IfOk result (λ _. length tokens.new < length tokens.old) }
{
    match tokens.word() {
        None => Err(TextRefusal::Unterminated(size as u64)),
        Some(seen) => match seen.word {
            TokenWord::Zero => {
                tokens.pass();
                Ok(None)
            }
            TokenWord::Positive(number) => {
                tokens.pass();
                Ok(Some(number))
            }
            TokenWord::Negative(number) => {
                tokens.pass();
                Ok(Some(number))
            }
            TokenWord::BigPositive => Err(TextRefusal::TooBig(seen.place)),
            TokenWord::BigNegative => Err(TextRefusal::TooBig(seen.place)),
            _ => Err(TextRefusal::BadToken(seen.place)),
        },
    }
}

/// A member of any spelling of a list of ids, or none at the zero that ends it.
#[inline(never)]
fn take_any_listed_id(tokens: &mut TokensAhead, size: usize) -> Result<Option<u64>, TextRefusal>
    ensures taken { TakesMember id some_ids size (placed_words tokens.old) result (placed_words tokens.new) }
    ensures falls { IfOk result (λ _. length tokens.new < length tokens.old) }
{
    match tokens.word() {
        None => Err(TextRefusal::Unterminated(size as u64)),
        Some(seen) => match seen.word {
            TokenWord::Zero => {
                tokens.pass();
                Ok(None)
            }
            TokenWord::Positive(number) => {
                tokens.pass();
                Ok(Some(number as u64))
            }
            TokenWord::BigPositive => Err(TextRefusal::TooBig(seen.place)),
            _ => Err(TextRefusal::BadToken(seen.place)),
        },
    }
}

/// A member of a list of ids, or none at the zero that ends it.
#[inline(always)]
fn take_listed_id(tokens: &mut TokensAhead, size: usize) -> Result<Option<u64>, TextRefusal>
    ensures taken { TakesMember id some_ids size (placed_words tokens.old) result (placed_words tokens.new) }
    ensures falls { IfOk result (λ _. length tokens.new < length tokens.old) }
{
    match tokens.take_short(0) {
        Some(number) => {
            if number == 0 {
                Ok(None)
            } else {
                Ok(Some(number as u64))
            }
        }
        None => take_any_listed_id(tokens, size),
    }
}

/// A list without members, in the memory of `room`.
fn emptied<T: Drop>(room: Vec<T>) -> Vec<T>
    ensures { result.items ≡ [] }
{
    let mut members = room;
    members.clear();
    members
}

/// Integers that are not zero, up to a zero, in the memory of `room`.
pub fn take_integers(
    room: Vec<i64>,
    tokens: &mut TokensAhead,
    size: usize,
) -> Result<IntList, TextRefusal>
    ensures { TakesAll (λ zs. integers zs ∷ []) (some_integers ∷ []) size (placed_words tokens.old) result (placed_words tokens.new) }
{
    let mut members = emptied(room);
    loop {
        match tokens.take_shorts(&mut members) {
            Ok(true) => return Ok(IntList::from_vec(members)),
            Ok(false) => {}
            Err(_) => return Err(TextRefusal::Memory),
        }
        match take_listed_integer(tokens, size) {
            Ok(Some(integer)) => match members.push(integer) {
                Ok(()) => {}
                Err(_) => return Err(TextRefusal::Memory),
            },
            Ok(None) => return Ok(IntList::from_vec(members)),
            Err(refusal) => return Err(refusal),
        }
    }
}

/// Ids up to a zero, in the memory of `room`.
pub fn take_ids(
    room: Vec<u64>,
    tokens: &mut TokensAhead,
    size: usize,
) -> Result<IdList, TextRefusal>
    ensures { TakesAll (λ ns. ids ns ∷ []) (some_ids ∷ []) size (placed_words tokens.old) result (placed_words tokens.new) }
{
    let mut members = emptied(room);
    loop {
        match take_listed_id(tokens, size) {
            Ok(Some(name)) => match members.push(name) {
                Ok(()) => {}
                Err(_) => return Err(TextRefusal::Memory),
            },
            Ok(None) => return Ok(IdList::from_vec(members)),
            Err(refusal) => return Err(refusal),
        }
    }
}

/// Pairs of ids up to a zero, in the memory of `room`.
pub fn take_moves(
    room: Vec<IdMove>,
    tokens: &mut TokensAhead,
    size: usize,
) -> Result<MoveList, TextRefusal>
    ensures { TakesAll (λ ms. pairs ms ∷ []) (some_pairs ∷ []) size (placed_words tokens.old) result (placed_words tokens.new) }
{
    let mut members = emptied(room);
    loop {
        match tokens.take_short_moves(&mut members) {
            Ok(()) => {}
            Err(_) => return Err(TextRefusal::Memory),
        }
        let from = match take_listed_id(tokens, size) {
            Ok(Some(from)) => from,
            Ok(None) => return Ok(MoveList::from_vec(members)),
            Err(refusal) => return Err(refusal),
        };
        let to = match take_id(tokens, size) {
            Ok(to) => to,
            Err(refusal) => return Err(refusal),
        };
        match members.push(IdMove { from, to }) {
            Ok(()) => {}
            Err(_) => return Err(TextRefusal::Memory),
        }
    }
}

/// An id and literals up to a zero, in the memory of `room`.
pub fn take_named(
    room: Vec<i64>,
    tokens: &mut TokensAhead,
    size: usize,
) -> Result<Named, TextRefusal>
    ensures { TakesAll (λ n. id n.id ∷ integers n.literals ∷ []) (an_id ∷ some_integers ∷ []) size (placed_words tokens.old) result (placed_words tokens.new) }
{
    let id = take_id(tokens, size)?;
    let literals = take_integers(room, tokens, size)?;
    Ok(Named { id, literals })
}

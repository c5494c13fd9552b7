//! The constraints of a formula.
ghost use Rattle.std.specs.Prelude.{◌≡◌, ℕ, ℤ, List, [], ◌∷◌, ◌++◌, IfOk, IfErr, MatchResult};
ghost use Rattle.cx_texts.specs.Words.{Word, number, Placed, placed_formula_words};
ghost use Rattle.cx_base.specs.Endings.{finished};
ghost use Rattle.cx_texts.specs.LiteralTokens.{IsInteger};
ghost use Rattle.cnfx_reader.specs.Meanings.{Says, placed_at};
ghost use Rattle.cnfx_reader.specs.Body.{outcome, IsPendingIn, IsEndedBy};
ghost use Rattle.cnfx_reader.specs.PieceReading.{PieceTaken, PieceRefused};

use crate::body_token::BodyToken;
use crate::pending::Pending;
use crate::refusal::ReadRefusal;
use cx_base::FormulaBuilder;
use cx_texts::{Integer, SaidAt, TokenReader};

/// Takes an integer into the constraint that is pending, or ends it.
#[inline(always)]
fn take_integer(
    builder: &mut FormulaBuilder,
    pending: Pending,
    integer: Integer,
    place: u64,
) -> Result<Pending, ReadRefusal>
    requires { IsPendingIn pending builder.old }
    ensures fits { IfOk result (λ next. IsPendingIn next builder.new) }
    ensures ok { IfOk result (λ next. (len : ℕ) (z : ℤ) (rest : List Placed) → IsInteger integer z
        → outcome len pending builder.old (record { place = place; word = number z } ∷ rest) ≡ outcome len next builder.new rest) }
    ensures err { IfErr result (λ e. (len : ℕ) (z : ℤ) (rest : List Placed) → IsInteger integer z
        → IsEndedBy e (outcome len pending builder.old (record { place = place; word = number z } ∷ rest)).ending) }
{
    match integer {
        Integer::Zero => {
            match pending {
                Pending::Nothing | Pending::Clause => builder.end_clause()?,
                Pending::Parity => builder.end_parity()?,
                Pending::Assume => builder.end_assume()?,
            }
            Ok(Pending::Nothing)
        }
        Integer::Literal(lit) => {
            builder.push(lit)?;
            match pending {
                Pending::Nothing | Pending::Clause => Ok(Pending::Clause),
                Pending::Parity => Ok(Pending::Parity),
                Pending::Assume => Ok(Pending::Assume),
            }
        }
        Integer::Above => Err(ReadRefusal::VarLimit(place)),
    }
}

/// Takes a token into the constraint that is pending, or begins or ends one.
#[inline(always)]
pub(crate) fn take_token(
    builder: &mut FormulaBuilder,
    pending: Pending,
    at: SaidAt<BodyToken>,
) -> Result<Pending, ReadRefusal>
    requires { IsPendingIn pending builder.old }
    ensures fits { IfOk result (λ next. IsPendingIn next builder.new) }
    ensures ok { IfOk result (λ next. (len : ℕ) (words : List Word) (rest : List Placed) → Says at.token words
        → outcome len pending builder.old (placed_at at.place words ++ rest) ≡ outcome len next builder.new rest) }
    ensures err { IfErr result (λ e. (len : ℕ) (words : List Word) (rest : List Placed) → Says at.token words
        → IsEndedBy e (outcome len pending builder.old (placed_at at.place words ++ rest)).ending) }
{
    let SaidAt { place, token } = at;
    match token {
        BodyToken::Integer(integer) => take_integer(builder, pending, integer, place),
        BodyToken::Mark => match pending {
            Pending::Nothing => Ok(Pending::Parity),
            _ => Err(ReadRefusal::BadToken(place)),
        },
        BodyToken::MarkedInteger(integer) => match pending {
            Pending::Nothing => take_integer(builder, Pending::Parity, integer, place),
            _ => Err(ReadRefusal::BadToken(place)),
        },
        BodyToken::Assume => match pending {
            Pending::Nothing => Ok(Pending::Assume),
            _ => Err(ReadRefusal::BadToken(place)),
        },
        BodyToken::Other => Err(ReadRefusal::BadToken(place)),
    }
}

/// What was read of a piece: what is pending before its last token, and the place of that token.
#[derive(Clone, Copy, Drop)]
pub(crate) struct PieceRead {
    pub pending: Pending,
    pub last: u64,
}

/// Reads the tokens of a piece of the body but the last, if there are any. The last tells by its place where the next piece begins.
pub(crate) fn read_but_last(
    tokens: &mut TokenReader,
    builder: &mut FormulaBuilder,
    pending: Pending,
) -> Result<Option<PieceRead>, ReadRefusal>
    requires { IsPendingIn pending builder.old }
    ensures { MatchResult result (λ o. PieceTaken pending builder.old tokens.old o builder.new) (λ e. PieceRefused pending builder.old tokens.old e) }
{
    let Some(mut last) = tokens.next_as::<BodyToken>() else {
        return Ok(None);
    };
    let mut state = pending;
    while let Some(next) = tokens.next_as::<BodyToken>() {
        state = take_token(builder, state, last)?;
        last = next;
    }
    Ok(Some(PieceRead {
        pending: state,
        last: last.place,
    }))
}

/// Reads the constraints to the end of the text. `len` is the text's length.
pub(crate) fn read_body(
    tokens: &mut TokenReader,
    builder: &mut FormulaBuilder,
    pending: Pending,
    len: u64,
) -> Result<(), ReadRefusal>
    requires { IsPendingIn pending builder.old }
    ensures { MatchResult result
        (λ _. (builder.new.unfinished ≡ []) × (outcome len pending builder.old (placed_formula_words tokens.old) ≡ record { constraints = builder.new.constraints; ending = finished }))
        (λ e. IsEndedBy e (outcome len pending builder.old (placed_formula_words tokens.old)).ending) }
{
    let mut state = pending;
    while let Some(at) = tokens.next_as::<BodyToken>() {
        state = take_token(builder, state, at)?;
    }
    match state {
        Pending::Nothing => Ok(()),
        _ => Err(ReadRefusal::Unterminated(len)),
    }
}

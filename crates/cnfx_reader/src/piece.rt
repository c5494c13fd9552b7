//! A piece of a formula's text, taken into the formula that is made of it.
ghost use Rattle.std.specs.Prelude.{◌≡◌, ◌<◌, ◌≤◌, ◌+◌, ◌^◌, [], length, IfOk, MatchResult};
ghost use Rattle.cx_base.specs.declared.literal.TheConstants.{MAX_VARIABLE};
ghost use Rattle.cx_base.specs.Drafts.{Draft};
ghost use Rattle.cnfx_reader.specs.HeaderParts.{IsPartWithin};
ghost use Rattle.cnfx_reader.specs.PieceSteps.{answer_from, IsPhaseIn, IsRefusedBy, IsWhole, StepTaken, StepRefused, TokenTaken, TokenRefused};
ghost use Rattle.cnfx_reader.specs.TokensLeft.{formula_tokens_within};
ghost use Rattle.cnfx_reader.specs.declared.piece.Phase.TheVariants.{Head};

use crate::body::{read_body, read_but_last, take_token};
use crate::body_token::read_token;
use crate::header::read_header_from;
use crate::header_token::{HeaderPart, HeaderStep, take_header_token};
use crate::pending::Pending;
use crate::refusal::ReadRefusal;
use cx_base::FormulaBuilder;
use cx_texts::{EndLines, SaidAt, TokenAt, TokenReader, run_len, whole_front};

/// How far the reading of a formula has come.
#[derive(Clone, Copy, Drop)]
pub(crate) enum Phase {
    /// The header, of which this token comes next.
    Head(HeaderPart),
    /// The body, after a header with this number of variables.
    Body(u32, Pending),
}

/// What was taken of a piece: how far the reading has come, and how many bytes were taken.
#[derive(Clone, Copy, Drop)]
pub(crate) struct PieceStep {
    pub phase: Phase,
    pub len: usize,
}

/// Takes the whole tokens of the body at the start of the bytes but the last. The bytes begin at this place, within a kept line, and
/// more may follow.
fn take_body_front(
    builder: &mut FormulaBuilder,
    bytes: &[u8],
    place: usize,
    phase: Phase,
) -> Result<PieceStep, ReadRefusal>
    requires small { place + length bytes.now < 2 ^ 63 }
    requires fits { IsPhaseIn phase builder.old }
    ensures { MatchResult result (λ t. StepTaken phase builder.old place bytes.now t builder.new) (λ e. StepRefused phase builder.old place bytes.now e) }
{
    let none = PieceStep { phase, len: 0 };
    match phase {
        Phase::Head(_) => Ok(none),
        Phase::Body(vars, pending) => {
            let len = whole_front(bytes);
            let mut tokens = TokenReader::within(&bytes[..len], place, EndLines::End);
            match read_but_last(&mut tokens, builder, pending) {
                Ok(Some(read)) => Ok(PieceStep {
                    phase: Phase::Body(vars, read.pending),
                    len: read.last as usize - place,
                }),
                Ok(None) => Ok(none),
                Err(refusal) => Err(refusal),
            }
        }
    }
}

/// Takes a token of the header.
fn take_head(part: HeaderPart, token: TokenAt) -> Result<Phase, ReadRefusal>
    requires { IsPartWithin part }
    ensures { (d : Draft) → d.unfinished ≡ [] → MatchResult result
        (λ phase. TokenTaken (Head part) d (record { place = token.entry.place; text = token.entry.text.now }) phase d)
        (λ e. TokenRefused (Head part) d (record { place = token.entry.place; text = token.entry.text.now }) e) }
{
    match take_header_token(part, token) {
        Ok(HeaderStep::Lacks(next)) => Ok(Phase::Head(next)),
        Ok(HeaderStep::Whole(vars)) => Ok(Phase::Body(vars, Pending::Nothing)),
        Err(offence) => Err(ReadRefusal::from(offence)),
    }
}

/// Takes the token of these bytes, which begin at this place.
fn take_one(
    builder: &mut FormulaBuilder,
    token: &[u8],
    place: usize,
    phase: Phase,
) -> Result<Phase, ReadRefusal>
    requires some { 0 < length token.now }
    requires fits { IsPhaseIn phase builder.old }
    ensures { MatchResult result
        (λ next. TokenTaken phase builder.old (record { place = place; text = token.now }) next builder.new)
        (λ e. TokenRefused phase builder.old (record { place = place; text = token.now }) e) }
{
    match phase {
        Phase::Head(part) => take_head(part, TokenAt { place, text: token }),
        Phase::Body(vars, pending) => {
            let said = SaidAt {
                place: place as u64,
                token: read_token(token),
            };
            match take_token(builder, pending, said) {
                Ok(next) => Ok(Phase::Body(vars, next)),
                Err(refusal) => Err(refusal),
            }
        }
    }
}

/// Takes the first token of the bytes, or nothing where no blank follows it: a run that all the bytes are may go on in the
/// next piece.
fn take_first(
    builder: &mut FormulaBuilder,
    bytes: &[u8],
    place: usize,
    phase: Phase,
) -> Result<PieceStep, ReadRefusal>
    requires fits { IsPhaseIn phase builder.old }
    ensures { MatchResult result (λ t. StepTaken phase builder.old place bytes.now t builder.new) (λ e. StepRefused phase builder.old place bytes.now e) }
{
    let len = run_len(bytes);
    if len == 0 || len == bytes.len() {
        return Ok(PieceStep { phase, len: 0 });
    }
    match take_one(builder, &bytes[..len], place, phase) {
        Ok(next) => Ok(PieceStep { phase: next, len }),
        Err(refusal) => Err(refusal),
    }
}

/// Takes whole tokens at the start of the bytes. The bytes begin at this place, within a kept line, and more may follow.
///
/// The last whole token is taken alone: where the place after it is, only its bytes tell.
pub(crate) fn take_some(
    builder: &mut FormulaBuilder,
    bytes: &[u8],
    place: usize,
    phase: Phase,
) -> Result<PieceStep, ReadRefusal>
    requires small { place + length bytes.now < 2 ^ 63 }
    requires fits { IsPhaseIn phase builder.old }
    ensures { MatchResult result (λ t. StepTaken phase builder.old place bytes.now t builder.new) (λ e. StepRefused phase builder.old place bytes.now e) }
{
    match take_body_front(builder, bytes, place, phase) {
        Ok(taken) => {
            if taken.len > 0 {
                return Ok(taken);
            }
            take_first(builder, bytes, place, taken.phase)
        }
        Err(refusal) => Err(refusal),
    }
}

/// Reads the tokens to the end of the text, which is as long as `len` says, and gives the header's number of variables.
pub(crate) fn take_rest(
    builder: &mut FormulaBuilder,
    bytes: &[u8],
    place: usize,
    phase: Phase,
    len: u64,
) -> Result<u32, ReadRefusal>
    requires small { place + length bytes.now < 2 ^ 63 }
    requires fits { IsPhaseIn phase builder.old }
    ensures within { IfOk result (λ v. v ≤ MAX_VARIABLE) }
    ensures rest { MatchResult result
        (λ v. IsWhole v builder.new (answer_from phase len builder.old (formula_tokens_within place bytes.now)))
        (λ e. IsRefusedBy e (answer_from phase len builder.old (formula_tokens_within place bytes.now))) }
{
    let mut tokens = TokenReader::within(bytes, place, EndLines::End);
    match phase {
        Phase::Head(part) => {
            let vars = read_header_from(&mut tokens, part, len)?;
            read_body(&mut tokens, builder, Pending::Nothing, len)?;
            Ok(vars)
        }
        Phase::Body(vars, pending) => {
            read_body(&mut tokens, builder, pending, len)?;
            Ok(vars)
        }
    }
}

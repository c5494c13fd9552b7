//! Answers from their text.
ghost use Rattle.std.specs.Prelude.{◌≡◌, ◌≤◌, ℕ, ℤ, List, [], None, Some, IfOk, MatchResult, length};
ghost use Rattle.cx_base.specs.Problem.{Problem};
ghost use Rattle.cx_base.specs.declared.literal.TheConstants.{MAX_VARIABLE};
ghost use Rattle.model_out.specs.declared.refusal.AnswerRefusal.TheVariants.{NoStatusLine};
ghost use Rattle.model_out.specs.Answers.{behind_status, AnswersAs};
ghost use Rattle.cx_texts.specs.LiteralTokens.{IsInteger};
ghost use Rattle.model_out.specs.LineTokens.{LineToken};
ghost use Rattle.model_out.specs.Mentions.{AreMentionsOf};
ghost use Rattle.model_out.specs.Reading.{ahead, seen, EndsTo, ScansTo, TakesTo, TurnsTo};
ghost use Rattle.model_out.specs.Settling.{SettlesAs, JudgesAs};

use crate::line_tokens::{LineTokenAt, LineTokens};
use crate::mentions::Mentions;
use crate::refusal::AnswerRefusal;
use cx_base::{Formula, Values};
use cx_texts::{Integer, read_integer};
use std::alloc::Global;

/// Passes over the status line, and gives the token after it, if there is one.
fn pass_status<'a>(tokens: &mut LineTokens<'a>) -> Result<Option<LineTokenAt<'a>>, AnswerRefusal>
    ensures { MatchResult result
        (λ next. behind_status tokens.old ≡ Some (ahead next tokens.new))
        (λ r. (behind_status tokens.old ≡ None) × (r ≡ NoStatusLine)) }
{
    let Some(first) = tokens.next_token() else {
        return Err(AnswerRefusal::NoStatusLine);
    };
    let Some(second) = tokens.next_token() else {
        return Err(AnswerRefusal::NoStatusLine);
    };
    let next = tokens.next_token();
    let alone = match next {
        Some(token) => token.begins,
        None => true,
    };
    if first.text == b"s".as_slice()
        && second.text == b"SATISFIABLE".as_slice()
        && !second.begins
        && alone
    {
        Ok(next)
    } else {
        Err(AnswerRefusal::NoStatusLine)
    }
}

/// What a token of the `v` lines does.
#[derive(Clone, Copy, Drop)]
enum TokenEffect {
    /// The answer goes on.
    GoesOn,
    /// The zero: the answer ends.
    Ends,
}

/// Takes an integer after a `v`.
fn take_integer(mentions: &mut Mentions, integer: Integer) -> TokenEffect
    requires { length mentions.old ≤ MAX_VARIABLE }
    ensures length { length mentions.new ≡ length mentions.old }
    ensures turn { (z : ℤ) (lits : List ℤ) → IsInteger integer z → AreMentionsOf lits mentions.old → TakesTo z lits result mentions.new }
{
    match integer {
        Integer::Zero => TokenEffect::Ends,
        Integer::Literal(lit) => {
            mentions.note(lit);
            TokenEffect::GoesOn
        }
        Integer::Above => TokenEffect::GoesOn,
    }
}

/// Takes a token of the `v` lines.
fn take_token(mentions: &mut Mentions, token: LineTokenAt) -> Result<TokenEffect, AnswerRefusal>
    requires { length mentions.old ≤ MAX_VARIABLE }
    ensures length { length mentions.new ≡ length mentions.old }
    ensures turn { (len : ℕ) (lits : List ℤ) (rest : List LineToken) → AreMentionsOf lits mentions.old → TurnsTo len lits (seen token.entry) rest result mentions.new }
{
    if token.begins {
        return if token.text == b"v".as_slice() {
            Ok(TokenEffect::GoesOn)
        } else {
            Err(AnswerRefusal::BadToken(token.place))
        };
    }
    match read_integer(token.text) {
        Some(integer) => Ok(take_integer(mentions, integer)),
        None => Err(AnswerRefusal::BadToken(token.place)),
    }
}

/// Ends the answer after its zero, where no token follows.
fn pass_end(tokens: &mut LineTokens) -> Result<(), AnswerRefusal>
    ensures { (lits : List ℤ) → EndsTo lits tokens.old result }
{
    match tokens.next_token() {
        Some(token) => Err(AnswerRefusal::BadToken(token.place)),
        None => Ok(()),
    }
}

/// Reads the `v` lines, whose first token was taken already. `len` is the text's length.
fn read_literals<'a>(
    tokens: &mut LineTokens<'a>,
    first: Option<LineTokenAt<'a>>,
    len: u64,
    mentions: &mut Mentions,
) -> Result<(), AnswerRefusal>
    requires tells { AreMentionsOf [] mentions.old }
    requires few { length mentions.old ≤ MAX_VARIABLE }
    ensures length { length mentions.new ≡ length mentions.old }
    ensures scanned { ScansTo len (ahead first.entry tokens.old) result mentions.new }
{
    let mut next = first;
    while let Some(token) = next {
        match take_token(mentions, token)? {
            TokenEffect::GoesOn => next = tokens.next_token(),
            TokenEffect::Ends => return pass_end(tokens),
        }
    }
    Err(AnswerRefusal::BadToken(len))
}

/// The values that are mentioned, where each variable is mentioned once.
fn settle(alloc: Global, mentions: &Mentions) -> Result<Values, AnswerRefusal>
    ensures length { IfOk result (λ v. length v ≡ length mentions.now) }
    ensures settled { (lits : List ℤ) (formula : Problem) → length mentions.now ≡ formula.variables → AreMentionsOf lits mentions.now → SettlesAs lits formula result }
{
    if let Some(missing) = mentions.first_missing() {
        return Err(AnswerRefusal::Missing(missing));
    }
    if let Some(repeated) = mentions.first_repeated() {
        return Err(AnswerRefusal::Twice(repeated));
    }
    Ok(mentions.values(alloc)?)
}

/// The values that the text's answer gives, where they meet the formula.
fn judge(alloc: Global, mentions: &Mentions, formula: &Formula) -> Result<Values, AnswerRefusal>
    requires { length mentions.now ≡ formula.now.variables }
    ensures { (lits : List ℤ) → AreMentionsOf lits mentions.now → JudgesAs lits formula.now result }
{
    let values = settle(alloc, mentions)?;
    match formula.first_unmet(values.as_slice()) {
        Some(number) => Err(AnswerRefusal::Unmet(number)),
        None => Ok(values),
    }
}

/// Reads an answer: its status line, and the literals of its `v` lines up to a zero.
///
/// The text is read once, in order. Literals of variables above the formula's number say nothing. `Ok` has a value
/// for each variable of the formula, and they meet it; a refusal is the first cause in the order of
/// [`AnswerRefusal`]. Without memory it is `Memory`, which says nothing of the text. Nothing of the text is kept but
/// how each variable of the formula is mentioned.
pub fn read_answer(alloc: Global, text: &[u8], formula: &Formula) -> Result<Values, AnswerRefusal>
    ensures { AnswersAs text.now formula.now result }
{
    let mut tokens = LineTokens::new(text);
    let first = pass_status(&mut tokens)?;
    let mut mentions = Mentions::none(alloc, formula.vars())?;
    read_literals(&mut tokens, first, text.len() as u64, &mut mentions)?;
    judge(alloc, &mentions, formula)
}

//! The steps of a log, taken from a text's tokens.
ghost use Rattle.std.specs.Prelude.{◌≡◌, true, false, [], ◌∷◌, MatchResult};
ghost use Rattle.cx_texts.specs.Words.{placed_words};
ghost use Rattle.cx_texts.specs.Grammar.{mark, id, end, ids, integers};
ghost use Rattle.cx_texts.proofs.LogSteps.{log_rows};
ghost use Rattle.cx_texts.proofs.Shapes.{a_mark, an_id, an_end, some_ids, some_integers, some_pairs};
ghost use Rattle.step_text.specs.Heads.{is_head_letter};
ghost use Rattle.step_text.specs.Taking.{Takes, RefusedIn, TakesAll};
ghost use Rattle.log_text.specs.Taking.{letter_of, listed_fields, listed_rows, TakesLogStep};

use crate::plain::{Listed, Plain, plain_step};
use cx_base::{IdList, IntList, LogStep};
use step_text::ahead::TokensAhead;
use step_text::fields::{
    take_end, take_id, take_ids, take_integers, take_letter, take_moves, take_named,
};
use step_text::{SpareLists, StepGrammar, StepText, TextRefusal};

/// The grammar of logs.
#[derive(Drop)]
pub enum LogGrammar {}

/// A log that is read from a text. Lines that begin with `c` are passed over, the marks of conflicts
/// among them.
pub type LogText<'a> = StepText<'a, LogGrammar>;

/// An id and literals, and the ids that show them.
#[derive(Drop)]
struct Sourced {
    id: u64,
    literals: IntList,
    sources: IdList,
}

/// An id and literals, and the one id that implies them.
#[derive(Drop)]
struct Implied {
    id: u64,
    literals: IntList,
    source: u64,
}

/// An id, literals, the letter l and ids.
fn take_sourced(
    spare: &mut SpareLists,
    tokens: &mut TokensAhead,
    size: usize,
) -> Result<Sourced, TextRefusal>
    ensures { TakesAll (λ s. id s.id ∷ integers s.literals ∷ mark 108 ∷ ids s.sources ∷ []) (an_id ∷ some_integers ∷ a_mark 108 ∷ some_ids ∷ []) size (placed_words tokens.old) result (placed_words tokens.new) }
{
    let named = take_named(spare.literals(), tokens, size)?;
    take_letter(tokens, size, b'l')?;
    let sources = take_ids(spare.ids(), tokens, size)?;
    Ok(Sourced {
        id: named.id,
        literals: named.literals,
        sources,
    })
}

/// An id, literals, the letter l and one id with the zero after it.
fn take_implied(
    spare: &mut SpareLists,
    tokens: &mut TokensAhead,
    size: usize,
) -> Result<Implied, TextRefusal>
    ensures { TakesAll (λ s. id s.id ∷ integers s.literals ∷ mark 108 ∷ id s.source ∷ end ∷ []) (an_id ∷ some_integers ∷ a_mark 108 ∷ an_id ∷ an_end ∷ []) size (placed_words tokens.old) result (placed_words tokens.new) }
{
    let named = take_named(spare.literals(), tokens, size)?;
    take_letter(tokens, size, b'l')?;
    let source = take_id(tokens, size)?;
    take_end(tokens, size)?;
    Ok(Implied {
        id: named.id,
        literals: named.literals,
        source,
    })
}

/// An id and literals, of a parity where the letter x is in front.
fn take_listed(
    spare: &mut SpareLists,
    tokens: &mut TokensAhead,
    size: usize,
) -> Result<Listed, TextRefusal>
    ensures { MatchResult result (λ l. Takes (listed_fields l.of_parity l.named.id l.named.literals) (placed_words tokens.old) (placed_words tokens.new)) (λ r. RefusedIn listed_rows size r (placed_words tokens.old)) }
{
    if tokens.is_letter(b'x') {
        tokens.pass();
        let named = take_named(spare.literals(), tokens, size)?;
        Ok(Listed {
            of_parity: true,
            named,
        })
    } else {
        let named = take_named(spare.literals(), tokens, size)?;
        Ok(Listed {
            of_parity: false,
            named,
        })
    }
}

/// A step that has literals alone, after its letter.
fn take_plain(
    spare: &mut SpareLists,
    tokens: &mut TokensAhead,
    size: usize,
    plain: Plain,
) -> Result<LogStep, TextRefusal>
    requires { is_head_letter (letter_of plain) (placed_words tokens.old) ≡ true }
    ensures { TakesLogStep size (placed_words tokens.old) result (placed_words tokens.new) }
{
    tokens.pass();
    let listed = take_listed(spare, tokens, size)?;
    Ok(plain_step(plain, listed))
}

/// An added clause or parity. The letter l after the literals of a clause belongs to it.
fn take_added(
    spare: &mut SpareLists,
    tokens: &mut TokensAhead,
    size: usize,
) -> Result<LogStep, TextRefusal>
    requires { is_head_letter 97 (placed_words tokens.old) ≡ true }
    ensures { TakesLogStep size (placed_words tokens.old) result (placed_words tokens.new) }
{
    tokens.pass();
    if tokens.is_letter(b'x') {
        tokens.pass();
        let parity = take_sourced(spare, tokens, size)?;
        return Ok(LogStep::Parity(parity.id, parity.literals, parity.sources));
    }
    let id = take_id(tokens, size)?;
    let literals = take_integers(spare.literals(), tokens, size)?;
    if tokens.is_letter(b'l') {
        tokens.pass();
        let hints = take_integers(spare.hints(), tokens, size)?;
        return Ok(LogStep::ClauseWithHints(id, literals, hints));
    }
    Ok(LogStep::Clause(id, literals))
}

/// A clause from a parity, or a parity from clauses.
fn take_implied_step(
    spare: &mut SpareLists,
    tokens: &mut TokensAhead,
    size: usize,
) -> Result<LogStep, TextRefusal>
    requires { is_head_letter 105 (placed_words tokens.old) ≡ true }
    ensures { TakesLogStep size (placed_words tokens.old) result (placed_words tokens.new) }
{
    tokens.pass();
    if tokens.is_letter(b'x') {
        tokens.pass();
        let parity = take_sourced(spare, tokens, size)?;
        Ok(LogStep::ParityOfClauses(parity.id, parity.literals, parity.sources))
    } else {
        let clause = take_implied(spare, tokens, size)?;
        Ok(LogStep::ClauseOfParity(clause.id, clause.literals, clause.source))
    }
}

/// Moves of ids.
fn take_move_step(
    spare: &mut SpareLists,
    tokens: &mut TokensAhead,
    size: usize,
) -> Result<LogStep, TextRefusal>
    requires { is_head_letter 114 (placed_words tokens.old) ≡ true }
    ensures { TakesLogStep size (placed_words tokens.old) result (placed_words tokens.new) }
{
    tokens.pass();
    if tokens.is_letter(b'x') {
        tokens.pass();
        let moves = take_moves(spare.moves(), tokens, size)?;
        Ok(LogStep::MoveParities(moves))
    } else {
        let moves = take_moves(spare.moves(), tokens, size)?;
        Ok(LogStep::MoveClauses(moves))
    }
}

/// Why no step begins here.
fn no_step(tokens: &TokensAhead, size: usize) -> TextRefusal
    requires original { is_head_letter 111 (placed_words tokens.now) ≡ false }
    requires added { is_head_letter 97 (placed_words tokens.now) ≡ false }
    requires implied { is_head_letter 105 (placed_words tokens.now) ≡ false }
    requires deleted { is_head_letter 100 (placed_words tokens.now) ≡ false }
    requires finally { is_head_letter 102 (placed_words tokens.now) ≡ false }
    requires moved { is_head_letter 114 (placed_words tokens.now) ≡ false }
    ensures { RefusedIn log_rows size result (placed_words tokens.now) }
{
    match tokens.word() {
        None => TextRefusal::Unterminated(size as u64),
        Some(seen) => TextRefusal::BadToken(seen.place),
    }
}

/// A step; its first word tells which one it may be.
fn take_step(
    spare: &mut SpareLists,
    tokens: &mut TokensAhead,
    size: usize,
) -> Result<LogStep, TextRefusal>
    ensures { TakesLogStep size (placed_words tokens.old) result (placed_words tokens.new) }
{
    if tokens.is_letter(b'a') {
        take_added(spare, tokens, size)
    } else if tokens.is_letter(b'd') {
        take_plain(spare, tokens, size, Plain::Delete)
    } else if tokens.is_letter(b'i') {
        take_implied_step(spare, tokens, size)
    } else if tokens.is_letter(b'o') {
        take_plain(spare, tokens, size, Plain::Original)
    } else if tokens.is_letter(b'f') {
        take_plain(spare, tokens, size, Plain::Final)
    } else if tokens.is_letter(b'r') {
        take_move_step(spare, tokens, size)
    } else {
        Err(no_step(tokens, size))
    }
}

impl StepGrammar for LogGrammar {
    type Step = LogStep;

    ghost use Rattle.cx_texts.specs.LogText.{log_steps};
    ghost use Rattle.cx_texts.proofs.Grammars.{log_forms};

    ghost steps = { log_steps };

    fn read_step(
        spare: &mut SpareLists,
        tokens: &mut TokensAhead,
        size: usize,
    ) -> Result<LogStep, TextRefusal> {
        take_step(spare, tokens, size)
    }

    /// after a clause its hints may follow
    fn is_closed(step: &LogStep) -> bool {
        !matches!(step, LogStep::Clause(_, _))
    }

    ghost forms = { log_forms };
}

//! The steps of a proof, taken from a text's tokens.
ghost use Rattle.std.specs.Prelude.{◌≡◌, true, false, [], ◌∷◌};
ghost use Rattle.cx_texts.specs.Words.{placed_words};
ghost use Rattle.cx_texts.specs.Grammar.{id, integer, end, integers};
ghost use Rattle.cx_texts.proofs.Shapes.{an_id, an_integer, an_end, some_integers};
ghost use Rattle.step_text.specs.Heads.{is_head_letter};
ghost use Rattle.step_text.specs.Taking.{TakesAll};
ghost use Rattle.proof_text.specs.ProofTaking.{TakesStep};

use cx_base::{IntList, ProofStep};
use step_text::ahead::TokensAhead;
use step_text::fields::{take_end, take_id, take_ids, take_integer, take_integers, take_named};
use step_text::{SpareLists, StepGrammar, StepText, TextRefusal};

/// The grammar of proofs.
#[derive(Drop)]
pub enum ProofGrammar {}

/// A proof that is read from a text.
pub type ProofText<'a> = StepText<'a, ProofGrammar>;

/// A constraint's id and literals, and the hints that show it.
#[derive(Drop)]
struct HintedConstraint {
    id: u64,
    literals: IntList,
    hints: IntList,
}

/// A constraint's id and literals, and the one hint that implies it.
#[derive(Drop)]
struct ImpliedConstraint {
    id: u64,
    literals: IntList,
    hint: i64,
}

/// An id, literals and hints.
fn take_hinted(
    spare: &mut SpareLists,
    tokens: &mut TokensAhead,
    size: usize,
) -> Result<HintedConstraint, TextRefusal>
    ensures { TakesAll (λ h. id h.id ∷ integers h.literals ∷ integers h.hints ∷ []) (an_id ∷ some_integers ∷ some_integers ∷ []) size (placed_words tokens.old) result (placed_words tokens.new) }
{
    let named = take_named(spare.literals(), tokens, size)?;
    let hints = take_integers(spare.hints(), tokens, size)?;
    Ok(HintedConstraint {
        id: named.id,
        literals: named.literals,
        hints,
    })
}

/// An id, literals and one hint with the zero after it.
fn take_implied(
    spare: &mut SpareLists,
    tokens: &mut TokensAhead,
    size: usize,
) -> Result<ImpliedConstraint, TextRefusal>
    ensures { TakesAll (λ h. id h.id ∷ integers h.literals ∷ integer h.hint ∷ end ∷ []) (an_id ∷ some_integers ∷ an_integer ∷ an_end ∷ []) size (placed_words tokens.old) result (placed_words tokens.new) }
{
    let named = take_named(spare.literals(), tokens, size)?;
    let hint = take_integer(tokens, size)?;
    take_end(tokens, size)?;
    Ok(ImpliedConstraint {
        id: named.id,
        literals: named.literals,
        hint,
    })
}

/// A clause by a chain, or a deletion of clauses.
fn take_clause_step(
    spare: &mut SpareLists,
    tokens: &mut TokensAhead,
    size: usize,
) -> Result<ProofStep, TextRefusal>
    requires no_parity { is_head_letter 120 (placed_words tokens.old) ≡ false }
    requires not_implied { is_head_letter 105 (placed_words tokens.old) ≡ false }
    ensures { TakesStep size (placed_words tokens.old) result (placed_words tokens.new) }
{
    let id = take_id(tokens, size)?;
    if tokens.is_letter(b'd') {
        tokens.pass();
        let names = take_ids(spare.ids(), tokens, size)?;
        Ok(ProofStep::DeleteClauses(id, names))
    } else {
        let literals = take_integers(spare.literals(), tokens, size)?;
        let hints = take_integers(spare.hints(), tokens, size)?;
        Ok(ProofStep::Clause(id, literals, hints))
    }
}

/// A parity by a sum, or a deletion of parities.
fn take_parity_step(
    spare: &mut SpareLists,
    tokens: &mut TokensAhead,
    size: usize,
) -> Result<ProofStep, TextRefusal>
    requires { is_head_letter 120 (placed_words tokens.old) ≡ true }
    ensures { TakesStep size (placed_words tokens.old) result (placed_words tokens.new) }
{
    tokens.pass();
    if tokens.is_letter(b'd') {
        tokens.pass();
        let names = take_ids(spare.ids(), tokens, size)?;
        Ok(ProofStep::DeleteParities(names))
    } else {
        let parity = take_hinted(spare, tokens, size)?;
        Ok(ProofStep::Parity(parity.id, parity.literals, parity.hints))
    }
}

/// A clause from a parity, or a parity from clauses.
fn take_implied_step(
    spare: &mut SpareLists,
    tokens: &mut TokensAhead,
    size: usize,
) -> Result<ProofStep, TextRefusal>
    requires { is_head_letter 105 (placed_words tokens.old) ≡ true }
    ensures { TakesStep size (placed_words tokens.old) result (placed_words tokens.new) }
{
    tokens.pass();
    if tokens.is_letter(b'x') {
        tokens.pass();
        let parity = take_hinted(spare, tokens, size)?;
        Ok(ProofStep::ParityOfClauses(parity.id, parity.literals, parity.hints))
    } else {
        let clause = take_implied(spare, tokens, size)?;
        Ok(ProofStep::ClauseOfParity(clause.id, clause.literals, clause.hint))
    }
}

/// A step; its first word tells which one it may be.
fn take_step(
    spare: &mut SpareLists,
    tokens: &mut TokensAhead,
    size: usize,
) -> Result<ProofStep, TextRefusal>
    ensures { TakesStep size (placed_words tokens.old) result (placed_words tokens.new) }
{
    if tokens.is_letter(b'x') {
        take_parity_step(spare, tokens, size)
    } else if tokens.is_letter(b'i') {
        take_implied_step(spare, tokens, size)
    } else {
        take_clause_step(spare, tokens, size)
    }
}

impl StepGrammar for ProofGrammar {
    type Step = ProofStep;

    ghost use Rattle.cx_texts.specs.ProofText.{proof_steps};
    ghost use Rattle.cx_texts.proofs.Grammars.{proof_forms};

    ghost steps = { proof_steps };

    fn read_step(
        spare: &mut SpareLists,
        tokens: &mut TokensAhead,
        size: usize,
    ) -> Result<ProofStep, TextRefusal> {
        take_step(spare, tokens, size)
    }

    fn is_closed(_step: &ProofStep) -> bool {
        true
    }

    ghost forms = { proof_forms };
}

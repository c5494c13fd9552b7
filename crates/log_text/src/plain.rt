//! The steps that have literals alone.
ghost use Rattle.std.specs.Prelude.{◌≡◌, ◌∷◌, List};
ghost use Rattle.cx_texts.specs.Words.{Placed};
ghost use Rattle.cx_texts.specs.Grammar.{mark};
ghost use Rattle.cx_texts.specs.LogText.{log_fields};
ghost use Rattle.log_text.specs.Taking.{letter_of, listed_fields, StandsAlone};

use cx_base::LogStep;
use step_text::fields::Named;

/// An id and literals, and whether they are of a parity.
#[derive(Drop)]
pub(crate) struct Listed {
    pub of_parity: bool,
    pub named: Named,
}

/// The steps that have literals alone, but for the added clause.
#[derive(Clone, Copy, Drop)]
pub(crate) enum Plain {
    Original,
    Delete,
    Final,
}

/// The step of an id and literals.
pub(crate) fn plain_step(plain: Plain, listed: Listed) -> LogStep
    ensures fields { log_fields result ≡ mark (letter_of plain) ∷ listed_fields listed.of_parity listed.named.id listed.named.literals }
    ensures alone { (rest : List Placed) → StandsAlone result rest }
{
    let Listed { of_parity, named } = listed;
    let Named { id, literals } = named;
    match plain {
        Plain::Original => {
            if of_parity {
                LogStep::OriginalParity(id, literals)
            } else {
                LogStep::Original(id, literals)
            }
        }
        Plain::Delete => {
            if of_parity {
                LogStep::DeleteParity(id, literals)
            } else {
                LogStep::Delete(id, literals)
            }
        }
        Plain::Final => {
            if of_parity {
                LogStep::FinalParity(id, literals)
            } else {
                LogStep::Final(id, literals)
            }
        }
    }
}

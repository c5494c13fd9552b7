//! Why a text is no formula.
ghost use Rattle.std.specs.Prelude.{◌≡◌};
ghost use Rattle.cnfx_reader.specs.Refusals.{refusal_of};
ghost use Rattle.cnfx_reader.specs.declared.refusal.ReadRefusal.TheVariants.{Memory};

use cx_texts::Offence;
use std::alloc::AllocError;
use thiserror::Error;

/// Why a text was not read, with the byte place of the offence.
#[derive(Clone, Copy, Debug, Drop, Error)]
pub enum ReadRefusal {
    /// The first token is not `p`.
    #[error("no header at byte {0}")]
    NoHeader(u64),
    /// `cnf` or one of the two numbers is missing or malformed.
    #[error("bad header at byte {0}")]
    BadHeader(u64),
    /// A token that does not fit.
    #[error("bad token at byte {0}")]
    BadToken(u64),
    /// The text ends inside a constraint; the place is the text's length.
    #[error("unterminated at byte {0}")]
    Unterminated(u64),
    /// A variable above the limit.
    #[error("variable limit at byte {0}")]
    VarLimit(u64),
    /// Out of memory, which says nothing of the text.
    #[error("out of memory")]
    Memory,
}

impl From<AllocError> for ReadRefusal {
    ghost from_gives = { λ _ e. e ≡ Memory };

    fn from(_: AllocError) -> Self {
        ReadRefusal::Memory
    }
}

impl From<Offence> for ReadRefusal {
    ghost from_gives = { λ o e. e ≡ refusal_of o };

    fn from(offence: Offence) -> Self {
        match offence {
            Offence::NoHeader(place) => ReadRefusal::NoHeader(place),
            Offence::BadHeader(place) => ReadRefusal::BadHeader(place),
            Offence::BadToken(place) => ReadRefusal::BadToken(place),
            Offence::Unterminated(place) => ReadRefusal::Unterminated(place),
            Offence::VarLimit(place) => ReadRefusal::VarLimit(place),
        }
    }
}

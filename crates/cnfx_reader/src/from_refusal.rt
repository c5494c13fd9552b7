//! Why no formula was read from a slot.
ghost use Rattle.std.specs.Prelude.{◌≡◌};
ghost use Rattle.cnfx_reader.specs.FromSlot.{from_read, from_desk, from_drained};

use crate::refusal::ReadRefusal;
use cx_desk::{DrainErr, ReadErr};
use thiserror::Error;

/// Why no formula was read from a slot: the text's first offence with its byte place, or what is none of the text.
#[derive(Clone, Copy, Debug, Drop, Error)]
pub enum FromRefusal {
    /// The first token is not `p`.
    #[error("no header at byte {0}")]
    NoHeader(u64),
    /// `cnf` or one of the two numbers is missing or malformed.
    #[error("bad header at byte {0}")]
    BadHeader(u64),
    /// A token that does not fit.
    #[error("bad token at byte {0}")]
    BadToken(u64),
    /// The text ends inside a constraint; the place is the text's length.
    #[error("unterminated at byte {0}")]
    Unterminated(u64),
    /// A variable above the limit.
    #[error("variable limit at byte {0}")]
    VarLimit(u64),
    /// Out of memory, which says nothing of the text.
    #[error("out of memory")]
    Memory,
    /// A read failed, and was counted.
    #[error("the read failed")]
    Failed,
    /// The text is longer than the limit, whatever it says.
    #[error("the text is too long")]
    TooLong,
}

impl From<ReadRefusal> for FromRefusal {
    ghost from_gives = { λ a e. e ≡ from_read a };

    fn from(refusal: ReadRefusal) -> Self {
        match refusal {
            ReadRefusal::NoHeader(place) => FromRefusal::NoHeader(place),
            ReadRefusal::BadHeader(place) => FromRefusal::BadHeader(place),
            ReadRefusal::BadToken(place) => FromRefusal::BadToken(place),
            ReadRefusal::Unterminated(place) => FromRefusal::Unterminated(place),
            ReadRefusal::VarLimit(place) => FromRefusal::VarLimit(place),
            ReadRefusal::Memory => FromRefusal::Memory,
        }
    }
}

impl From<ReadErr> for FromRefusal {
    ghost from_gives = { λ a e. e ≡ from_desk a };

    fn from(err: ReadErr) -> Self {
        match err {
            ReadErr::Memory => FromRefusal::Memory,
            ReadErr::Failed => FromRefusal::Failed,
            ReadErr::TooLong => FromRefusal::TooLong,
        }
    }
}

impl From<DrainErr> for FromRefusal {
    ghost from_gives = { λ a e. e ≡ from_drained a };

    fn from(err: DrainErr) -> Self {
        match err {
            DrainErr::Failed => FromRefusal::Failed,
            DrainErr::TooLong => FromRefusal::TooLong,
        }
    }
}

//! Why an analysis or a search gave up.
ghost use Rattle.std.specs.Prelude.{◌≡◌};
ghost use Rattle.conflict_learn.specs.declared.fault.CoreFault.TheVariants.{Memory};

use std::alloc::{AllocError, AllocFailed};
use thiserror::Error;

/// Why an analysis or a search gave up.
#[derive(Clone, Copy, PartialEq, Eq, Debug, Drop, Error)]
pub enum CoreFault {
    /// Out of memory.
    #[error("out of memory")]
    Memory,
    /// A write failed, which the sink counted.
    #[error("the write failed")]
    Write,
}

impl From<AllocError> for CoreFault {
    ghost from_gives = { λ _ e. e ≡ Memory };

    fn from(_error: AllocError) -> CoreFault {
        CoreFault::Memory
    }
}

impl<T: Drop> From<AllocFailed<T>> for CoreFault {
    ghost from_gives = { λ _ e. e ≡ Memory };

    fn from(_error: AllocFailed<T>) -> CoreFault {
        CoreFault::Memory
    }
}

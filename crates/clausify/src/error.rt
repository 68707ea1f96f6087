// Why a problem has no clauses.
ghost use Rattle.std.specs.Prelude.{◌≡◌};
ghost use Rattle.clausify.specs.declared.error.ClauseError.TheVariants.{Memory};

use std::alloc::AllocError;
use thiserror::Error;

/// A formula, by its number counted from 1, has more than 20,000 clauses, or memory is lacking.
#[derive(Clone, Copy, Debug, Error)]
pub enum ClauseError {
    #[error("clause limit at formula {formula}")]
    ClauseLimit { formula: u64 },
    #[error("out of memory")]
    Memory,
}

impl From<AllocError> for ClauseError {
    ghost from_gives = { λ _ e. e ≡ Memory };

    fn from(_e: AllocError) -> ClauseError {
        ClauseError::Memory
    }
}

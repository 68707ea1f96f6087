// Why lines are no refutation.
ghost use Rattle.std.specs.Prelude.{◌≡◌};
ghost use Rattle.proof_check.specs.declared.error.CheckError.TheVariants.{Memory};

use derivation::Row;
use std::alloc::AllocError;
use thiserror::Error;

/// The line at fault with its row, or want of memory. Without lines the fault is that of line 0.
#[derive(Clone, Copy, Debug, Error)]
pub enum CheckError {
    #[error("not accepted, line {line}, cause {}", .row.number())]
    NotAccepted { line: u64, row: Row },
    #[error("out of memory")]
    Memory,
}

impl From<AllocError> for CheckError {
    ghost from_gives = { λ _ e. e ≡ Memory };

    fn from(_e: AllocError) -> CheckError {
        CheckError::Memory
    }
}

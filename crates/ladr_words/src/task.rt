// What a command line asks for.
ghost use Rattle.std.specs.Prelude.{◌≡◌};
ghost use Rattle.ladr_words.specs.declared.task.WordsError.TheVariants.{Memory};

use std::alloc::AllocError;
use thiserror::Error;

/// A command with its options.
#[derive(Clone, Copy)]
pub enum Task {
    Check,
    Clausetester { filter: bool },
    Mace4 { options: ModelOptions },
    Made { size: u64 },
    Prover9 { max_seconds: Option<u64> },
}

/// What the words set of a search for models; what they leave out is the input's to set.
#[derive(Clone, Copy)]
pub struct ModelOptions {
    pub start_size: Option<u64>,
    pub end_size: Option<u64>,
    pub max_models: Option<u64>,
    pub max_seconds: Option<u64>,
}

/// Why words have no task.
#[derive(Clone, Copy, Debug, Error)]
pub enum WordsError {
    #[error("no such command")]
    NoCommand,
    #[error("out of memory")]
    Memory,
}

impl From<AllocError> for WordsError {
    ghost from_gives = { λ _ e. e ≡ Memory };

    fn from(_e: AllocError) -> WordsError {
        WordsError::Memory
    }
}

// Why tokens begin with no words of a line.
ghost use Rattle.std.specs.Prelude.{◌≡◌};
ghost use Rattle.proof_words.specs.declared.fault.Halt.TheVariants.{Memory};

use std::alloc::{AllocError, AllocFailed};

/// The place of the first bad token among them (that behind the last one is the end); or memory is lacking.
#[derive(Clone, Copy)]
pub enum WordsFault {
    Bad(usize),
    Memory,
}

/// A token can't stand where the cursor is, or memory is lacking.
#[derive(Clone, Copy)]
pub enum Halt {
    Bad,
    Memory,
}

impl From<AllocError> for Halt {
    ghost from_gives = { λ _ e. e ≡ Memory };

    fn from(_e: AllocError) -> Halt {
        Halt::Memory
    }
}

impl<T: Drop> From<AllocFailed<T>> for Halt {
    ghost from_gives = { λ _ e. e ≡ Memory };

    fn from(_e: AllocFailed<T>) -> Halt {
        Halt::Memory
    }
}

// Why tokens are no command.
ghost use Rattle.std.specs.Prelude.{◌≡◌};
ghost use Rattle.ladr_commands.specs.declared.fault.Fault.TheVariants.{Memory};

use std::alloc::{AllocError, AllocFailed};

/// The place of the first bad token among them (that behind the last one is the end); or memory is lacking.
#[derive(Clone, Copy)]
pub enum CommandFault {
    Bad(usize),
    Memory,
}

/// A token can't stand where the cursor is, or memory is lacking.
#[derive(Clone, Copy)]
pub enum Fault {
    Bad,
    Memory,
}

impl From<AllocError> for Fault {
    ghost from_gives = { λ _ e. e ≡ Memory };

    fn from(_e: AllocError) -> Fault {
        Fault::Memory
    }
}

impl<T: Drop> From<AllocFailed<T>> for Fault {
    ghost from_gives = { λ _ e. e ≡ Memory };

    fn from(_e: AllocFailed<T>) -> Fault {
        Fault::Memory
    }
}

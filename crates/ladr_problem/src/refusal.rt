// Why an input states no problem.
ghost use Rattle.std.specs.Prelude.{◌≡◌};
ghost use Rattle.ladr_problem.specs.Refusals.{by_command, by_term, by_misuse};

use fol_core::Name;
use ladr_commands::CommandFault;
use ladr_lex::Misuse;
use ladr_reader::TermFault;
use ladr_settings::SettingsError;
use std::alloc::{AllocError, AllocFailed};

/// What an input may be too large in.
#[derive(Clone, Copy)]
pub enum Limit {
    Input,
    Nesting,
    Symbols,
    Arity,
    Distinct,
}

/// A place of the input: its byte, counted from 0, its line and column, counted from 1, and what is shown of its token.
#[derive(Drop)]
pub struct Place {
    pub byte: u64,
    pub line: u64,
    pub column: u64,
    pub token: Name,
}

/// Why an input states no problem: something can't be read; an item is misused; a limit is passed by the item that begins
/// at a byte, or by the input, behind whose last byte the byte is then; or memory is lacking.
#[derive(Drop)]
pub enum ReadError {
    Unreadable(Place),
    Misuse(Place, Misuse),
    TooLarge { byte: u64, what: Limit },
    Memory,
}

/// Why an item is refused: a token of it is bad, it passes a limit, or it is misused; or memory is lacking.
#[derive(Clone, Copy)]
pub enum Refusal {
    Bad(usize),
    Large(Limit),
    Misused(Misuse),
    Memory,
}

impl From<AllocError> for ReadError {
    ghost use Rattle.ladr_problem.specs.declared.refusal.ReadError.{ReadError};

    ghost from_gives = { λ _ e. e ≡ ReadError.Memory };

    fn from(_e: AllocError) -> ReadError {
        ReadError::Memory
    }
}

impl<T: Drop> From<AllocFailed<T>> for ReadError {
    ghost use Rattle.ladr_problem.specs.declared.refusal.ReadError.{ReadError};

    ghost from_gives = { λ _ e. e ≡ ReadError.Memory };

    fn from(_e: AllocFailed<T>) -> ReadError {
        ReadError::Memory
    }
}

impl From<AllocError> for Refusal {
    ghost use Rattle.ladr_problem.specs.declared.refusal.Refusal.{Refusal};

    ghost from_gives = { λ _ e. e ≡ Refusal.Memory };

    fn from(_e: AllocError) -> Refusal {
        Refusal::Memory
    }
}

impl<T: Drop> From<AllocFailed<T>> for Refusal {
    ghost use Rattle.ladr_problem.specs.declared.refusal.Refusal.{Refusal};

    ghost from_gives = { λ _ e. e ≡ Refusal.Memory };

    fn from(_e: AllocFailed<T>) -> Refusal {
        Refusal::Memory
    }
}

// An item that is no command.
impl From<CommandFault> for Refusal {
    ghost from_gives = { λ fault e. e ≡ by_command fault };

    fn from(fault: CommandFault) -> Refusal {
        match fault {
            CommandFault::Bad(k) => Refusal::Bad(k),
            CommandFault::Memory => Refusal::Memory,
        }
    }
}

// An item of a list that is no term, or one too deep.
impl From<TermFault> for Refusal {
    ghost from_gives = { λ fault e. e ≡ by_term fault };

    fn from(fault: TermFault) -> Refusal {
        match fault {
            TermFault::Bad(k) => Refusal::Bad(k),
            TermFault::Deep => Refusal::Large(Limit::Nesting),
            TermFault::Memory => Refusal::Memory,
        }
    }
}

// A command that is misused.
impl From<SettingsError> for Refusal {
    ghost from_gives = { λ error e. e ≡ by_misuse error };

    fn from(error: SettingsError) -> Refusal {
        match error {
            SettingsError::Misused(misuse) => Refusal::Misused(misuse),
            SettingsError::Memory => Refusal::Memory,
        }
    }
}

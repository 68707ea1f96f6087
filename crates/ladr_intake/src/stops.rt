// Why a command comes to no end of its own.
ghost use Rattle.std.specs.Prelude.{◌≡◌};
ghost use Rattle.ladr_intake.specs.Refusals.{stop_of_cut};

use ladr_lex::Misuse;
use ladr_output::Cut;
use ladr_problem::{Limit, Place};

/// Why an input is refused: something of it can't be read; an item is misused, the place being the item's beginning, or the
/// end of the input; or a limit is passed, by the item that begins at the byte, or by the input.
#[derive(Drop)]
pub enum Refused {
    Unreadable(Place),
    Misuse(Place, Misuse),
    TooLarge { byte: u64, what: Limit },
}

/// Why a command comes to no end of its own: its input is refused, a read or a write failed, or memory was lacking.
#[derive(Drop)]
pub enum Stop {
    Refused(Refused),
    ReadFault,
    WriteFault,
    Memory,
}

impl From<Cut> for Stop {
    ghost from_gives = { λ cut stop. stop ≡ stop_of_cut cut };

    fn from(cut: Cut) -> Stop {
        match cut {
            Cut::WriteFault => Stop::WriteFault,
            Cut::Memory => Stop::Memory,
        }
    }
}

// Why the items of a file state no problem, before places are told.
ghost use Rattle.std.specs.Prelude.{◌≡◌};
ghost use Rattle.ladr_problem.specs.declared.stop.RefusalAt.TheVariants.{Memory};

use crate::refusal::Limit;
use ladr_lex::Misuse;
use std::alloc::AllocError;

/// A byte where something can't be read; the first byte of an item, with how it is misused, or the limit that it
/// passes; or memory is lacking.
#[derive(Clone, Copy)]
pub enum RefusalAt {
    Unreadable(u64),
    Misuse(u64, Misuse),
    TooLarge(u64, Limit),
    Memory,
}

impl From<AllocError> for RefusalAt {
    ghost from_gives = { λ _ e. e ≡ Memory };

    fn from(_e: AllocError) -> RefusalAt {
        RefusalAt::Memory
    }
}

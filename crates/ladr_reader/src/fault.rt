// Why tokens have no term.
use std::alloc::AllocError;

/// Why tokens have no term: they are no readable item, it is nested too deep, or memory ran out.
///
/// `Bad` has the number, from 0, of the first token that goes on with no readable item; it is that behind the last where
/// the tokens end too early.
#[derive(Clone, Copy)]
pub enum TermFault {
    Bad(usize),
    Deep,
    Memory,
}

impl From<AllocError> for TermFault {
    ghost use Rattle.std.specs.Prelude.{◌≡◌};
    ghost use Rattle.ladr_reader.specs.declared.fault.TermFault.TheVariants.{Memory};

    ghost from_gives = { λ _ fault. fault ≡ Memory };

    fn from(_error: AllocError) -> TermFault {
        TermFault::Memory
    }
}

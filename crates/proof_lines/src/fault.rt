// Why tokens begin with no line, or with one that is refused.
ghost use Rattle.std.specs.Prelude.{◌≡◌};
ghost use Rattle.proof_lines.specs.Faults.{by_part};
ghost use Rattle.proof_lines.specs.declared.fault.LineFault.TheVariants.{Memory};

use ladr_lex::Misuse;
use std::alloc::AllocError;

/// Why tokens begin with no line that can be taken: `Bad` has the number of the first bad token, which is that behind the last
/// one where they end too early; the line's content is nested too deep; it is misused; or memory is lacking.
#[derive(Clone, Copy)]
pub enum LineFault {
    Bad(usize),
    Deep,
    Misused(Misuse),
    Memory,
}

impl From<AllocError> for LineFault {
    ghost from_gives = { λ _ e. e ≡ Memory };

    fn from(_e: AllocError) -> LineFault {
        LineFault::Memory
    }
}

/// A token is bad, counted from where the tokens begin, or memory is lacking.
#[derive(Clone, Copy)]
pub enum PartFault {
    Bad(usize),
    Memory,
}

impl From<PartFault> for LineFault {
    ghost from_gives = { λ part e. e ≡ by_part part };

    fn from(part: PartFault) -> LineFault {
        match part {
            PartFault::Bad(k) => LineFault::Bad(k),
            PartFault::Memory => LineFault::Memory,
        }
    }
}

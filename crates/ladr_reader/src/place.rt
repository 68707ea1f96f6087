// Where the reader stands.
ghost use Rattle.std.specs.Prelude.{◌≡◌};
ghost use Rattle.ladr_reader.specs.declared.place.Spot.TheVariants.{AtOperand};

use crate::capped::Build;
use crate::disjuncts::Disjuncts;
use fol_core::{Name, Quantifier};

/// Where the reader stands: before an operand, behind a symbol that may get arguments, behind a quantifier's word,
/// behind a term of this precedence, or behind the full stop of an item, which is a term of this precedence.
#[derive(Clone, Copy)]
pub enum Spot {
    AtOperand,
    AtSymbol,
    AtWord(Quantifier),
    AtTerm(u16),
    AtStop(u16),
}

/// Where the reader stands, with the symbol and the term that it stands behind; elsewhere they are left over. They have
/// their place here from token to token, since it takes time to move them.
#[derive(Drop)]
pub struct Reading {
    pub spot: Spot,
    pub name: Name,
    pub term: Disjuncts,
}

impl Reading {
    /// Before an item.
    #[inline(always)]
    pub fn new(build: Build) -> Reading
        ensures { result.spot ≡ AtOperand }
    {
        Reading {
            spot: Spot::AtOperand,
            name: Name::new(Vec::new(build.alloc)),
            term: Disjuncts::none(build),
        }
    }
}

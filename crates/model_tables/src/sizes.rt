// The size that a problem needs, and what values are below.
ghost use Rattle.std.specs.Prelude.{◌≡◌};
ghost use Rattle.fol_core.specs.Occurs.{size_needed};
ghost use Rattle.fol_problem.specs.Stated.{stated_of};
ghost use Rattle.model_tables.specs.Size.{bound_of, formulas_of};

use fol_core::{Kind, above_numerals};
use fol_problem::Problem;

/// The least size that has each element that the formulas name.
pub fn size_needed(problem: &Problem) -> u64
    ensures { result ≡ size_needed (formulas_of (stated_of problem.now)) }
{
    let mut needed = 0;
    for input in &problem.inputs {
        needed = above_numerals(&input.formula).max(needed);
    }
    needed
}

/// What the values of a symbol are below, where there are so many elements.
pub fn bound(size: u32, kind: Kind) -> u32
    ensures { result ≡ bound_of size kind }
{
    match kind {
        Kind::Function => size,
        Kind::Relation => 2,
    }
}

// The limit on the clauses of a formula.
ghost use Rattle.std.specs.Prelude.{◌≡◌};
ghost use Rattle.fol_problem.specs.Stated.{said_of, all_said};
ghost use Rattle.clausify.specs.Capped.{count_capped};
ghost use Rattle.clausify.specs.Forms.{clause_count};
ghost use Rattle.clausify.specs.Input.{form, first_over};

use crate::counts::counts_of;
use fol_problem::{Input, Role};

/// The most clauses that a formula may have.
pub const MOST_CLAUSES: u64 = 20_000;

// The clauses of a formula, or of its denial where it is a goal, counted up to one more than the most.
#[tactic(auto, using(crate::proofs::Closures::closed_count))]
fn count(input: &Input) -> u64
    ensures { result ≡ count_capped (clause_count (form (said_of input.now))) }
{
    let counts = counts_of(&input.formula.shape);
    match input.role {
        Role::Assumption | Role::Usable | Role::Demodulator => counts.plain,
        Role::Goal => counts.denied,
    }
}

/// The number of the first formula, counted from 1, that has more clauses than the limit.
#[tactic(auto, using(crate::proofs::Closures::over_here, crate::proofs::Closures::over_next, crate::proofs::Closures::over_end))]
pub fn first_over(inputs: &[Input]) -> Option<u64>
    ensures { result ≡ first_over 1 (all_said inputs.now) }
{
    for (place, input) in inputs.iter().enumerate() {
        if count(input) > MOST_CLAUSES {
            return Some(place as u64 + 1);
        }
    }
    None
}

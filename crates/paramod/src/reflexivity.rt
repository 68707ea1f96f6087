// Resolution of a given clause's inequations with reflexivity.
ghost use Rattle.std.specs.Prelude.{◌≡◌, ◌++◌, ◌∷◌, [], false, OnOk};
ghost use Rattle.paramod.specs.Sites.{NeverReflects};
ghost use Rattle.proof_words.specs.Written.{by_xx_res};
ghost use Rattle.prover_steps.specs.Concluded.{inferred};
ghost use Rattle.prover_steps.specs.Equalities.{reflexive_resolvents_of};
ghost use Rattle.resolution.specs.View.{all_conclusions};

use derivation::{First, sides};
use discrim_tree::may_meet;
use fol_core::Clause;
use held_clauses::Held;
use inference::reflexivity;
use resolution::{Concluded, Conclusion};
use std::alloc::{AllocError, Global};

// Whether a literal may be an inequation whose sides may meet.
fn may_reflect(clause: &Clause, a: u64) -> bool
    ensures { result ≡ false → NeverReflects clause.now a }
{
    let literals = clause.as_slice();
    if a >= literals.len() as u64 {
        return false;
    }
    let literal = &literals[a as usize];
    if literal.positive {
        return false;
    }
    let Some((left, right)) = sides(&literal.atom) else {
        return false;
    };
    may_meet(left, right)
}

// What comes of one literal, if anything.
fn add_at(alloc: Global, given: &Held, a: u64, made: &mut Vec<Conclusion>) -> Result<(), AllocError>
    ensures { OnOk result (all_conclusions made.new.items ≡ all_conclusions made.old.items
        ++ inferred (by_xx_res given.now.number a) (given.now.clause ∷ [])) }
{
    if !may_reflect(given.clause(), a) {
        return Ok(());
    }
    let judged = reflexivity(alloc, a, given.clause())?;
    let Some(clause) = Concluded::of(alloc, judged)? else {
        return Ok(());
    };
    let first = First::XxRes(given.number(), a);
    made.push(Conclusion { clause, first })?;
    Ok(())
}

/// Adds all that resolution with reflexivity makes of a given clause, in its order.
#[tactic(auto, using(resolution::proofs::Going::place_added))]
pub fn add_reflexive_resolvents(
    alloc: Global,
    given: &Held,
    made: &mut Vec<Conclusion>,
) -> Result<(), AllocError>
    ensures { OnOk result (all_conclusions made.new.items ≡ all_conclusions made.old.items
        ++ reflexive_resolvents_of given.now) }
{
    for a in 0..given.clause().len() as u64 {
        add_at(alloc, given, a, made)?;
    }
    Ok(())
}

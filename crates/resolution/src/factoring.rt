// Factors of a given clause.
ghost use Rattle.std.specs.Prelude.{◌≡◌, ◌++◌, nat_lt, IfOk, OnOk, filter};
ghost use Rattle.std.specs.List.{flat_map};
ghost use Rattle.prover_steps.specs.Clashing.{places_of, factors_of};
ghost use Rattle.resolution.specs.Tries.{factor_at, factor_tried};
ghost use Rattle.resolution.specs.View.{all_conclusions};

use crate::conclusion::{Concluded, Conclusion};
use crate::meeting::may_merge;
use derivation::First;
use held_clauses::Held;
use inference::factor;
use std::alloc::{AllocError, Global};

// Adds what the clause gives where its literals at two places are made the same, if anything.
fn add_factor(
    alloc: Global,
    given: &Held,
    a: u64,
    b: u64,
    made: &mut Vec<Conclusion>,
) -> Result<(), AllocError>
    ensures { OnOk result (all_conclusions made.new.items ≡ all_conclusions made.old.items
        ++ factor_at given.now a b) }
{
    if !may_merge(given.clause(), a, b) {
        return Ok(());
    }
    let judged = factor(alloc, a, b, given.clause())?;
    let Some(clause) = Concluded::of(alloc, judged)? else {
        return Ok(());
    };
    let first = First::Factor(given.number(), a, b);
    made.push(Conclusion { clause, first })?;
    Ok(())
}

// Where the second place is behind the first.
fn try_factor(
    alloc: Global,
    given: &Held,
    a: u64,
    b: u64,
    made: &mut Vec<Conclusion>,
) -> Result<(), AllocError>
    ensures { OnOk result (all_conclusions made.new.items ≡ all_conclusions made.old.items
        ++ factor_tried given.now a b) }
{
    if a >= b {
        return Ok(());
    }
    add_factor(alloc, given, a, b, made)?;
    Ok(())
}

// With each later place.
#[tactic(auto, using(crate::proofs::Going::place_added))]
fn factors_from(
    alloc: Global,
    given: &Held,
    a: u64,
    made: &mut Vec<Conclusion>,
) -> Result<(), AllocError>
    ensures { OnOk result (all_conclusions made.new.items ≡ all_conclusions made.old.items
        ++ flat_map (factor_at given.now a) (filter (nat_lt a) (places_of given.now.clause))) }
{
    for b in 0..given.clause().len() as u64 {
        try_factor(alloc, given, a, b, made)?;
    }
    Ok(())
}

/// Adds all factors of a given clause, in their order.
#[tactic(auto, using(crate::proofs::Going::place_added))]
pub fn add_factors(
    alloc: Global,
    given: &Held,
    made: &mut Vec<Conclusion>,
) -> Result<(), AllocError>
    ensures { OnOk result (all_conclusions made.new.items ≡ all_conclusions made.old.items
        ++ factors_of given.now) }
{
    for a in 0..given.clause().len() as u64 {
        factors_from(alloc, given, a, made)?;
    }
    Ok(())
}

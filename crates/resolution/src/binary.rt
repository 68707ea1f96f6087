// Binary resolution of a given clause with the clauses that are held.
ghost use Rattle.std.specs.Prelude.{◌≡◌, ◌++◌, ◌∷◌, ◌||◌, [], not, true, IfOk, OnOk};
ghost use Rattle.std.specs.List.{flat_map};
ghost use Rattle.derivation.specs.Places.{has_literal};
ghost use Rattle.held_clauses.specs.Holding.{lent};
ghost use Rattle.proof_words.specs.Written.{satellite, by_resolve};
ghost use Rattle.prover_steps.specs.Clashing.{is_same_held, resolvents_with, resolvents_of};
ghost use Rattle.prover_steps.specs.Concluded.{inferred};
ghost use Rattle.resolution.specs.Tries.{resolvents_from, resolvents_tried};
ghost use Rattle.resolution.specs.View.{all_conclusions};

use crate::conclusion::{Concluded, Conclusion};
use crate::meeting::may_clash;
use crate::opposing::opposing;
use clause_index::HeldSet;
use derivation::{First, Satellite, has_literal};
use held_clauses::Held;
use inference::clash;
use std::alloc::{AllocError, Global};

/// Adds what the literals of two clauses make by resolution, if anything.
pub fn add_resolvent(
    alloc: Global,
    given: &Held,
    i: u64,
    other: &Held,
    j: u64,
    made: &mut Vec<Conclusion>,
) -> Result<(), AllocError>
    ensures { OnOk result (all_conclusions made.new.items ≡ all_conclusions made.old.items
        ++ inferred (by_resolve given.now.number (satellite i other.now.number j))
        (given.now.clause ∷ other.now.clause ∷ [])) }
{
    if !may_clash(given.clause(), i, other.clause(), j) {
        return Ok(());
    }
    let satellite = Satellite {
        place: i,
        clause: other.number(),
        literal: j,
    };
    let judged = clash(alloc, &[satellite], &[given.clause(), other.clause()])?;
    let Some(clause) = Concluded::of(alloc, judged)? else {
        return Ok(());
    };
    let first = First::Resolve(given.number(), satellite);
    made.push(Conclusion { clause, first })?;
    Ok(())
}

// Whether a literal is resolved with another clause: with the clause itself, where it is positive.
fn is_tried(given: &Held, i: u64, other: &Held) -> bool
    ensures { result ≡ (not (is_same_held given.now other.now)
        || has_literal true given.now.clause i) }
{
    given.number() != other.number() || has_literal(given.clause(), true, i)
}

// From one literal of the given clause.
#[tactic(auto, using(crate::proofs::Going::place_added))]
fn resolve_from(
    alloc: Global,
    given: &Held,
    i: u64,
    other: &Held,
    made: &mut Vec<Conclusion>,
) -> Result<(), AllocError>
    ensures { OnOk result (all_conclusions made.new.items ≡ all_conclusions made.old.items
        ++ resolvents_from given.now other.now i) }
{
    for j in 0..other.clause().len() as u64 {
        add_resolvent(alloc, given, i, other, j, made)?;
    }
    Ok(())
}

// From one literal, if it is tried.
#[tactic(auto, using(crate::proofs::Going::tried_none, crate::proofs::Going::tried_some))]
fn try_from(
    alloc: Global,
    given: &Held,
    i: u64,
    other: &Held,
    made: &mut Vec<Conclusion>,
) -> Result<(), AllocError>
    ensures { OnOk result (all_conclusions made.new.items ≡ all_conclusions made.old.items
        ++ resolvents_tried given.now other.now i) }
{
    if !is_tried(given, i, other) {
        return Ok(());
    }
    resolve_from(alloc, given, i, other, made)
}

// With one clause.
#[tactic(auto, using(crate::proofs::Going::place_added))]
fn resolve_with(
    alloc: Global,
    given: &Held,
    other: &Held,
    made: &mut Vec<Conclusion>,
) -> Result<(), AllocError>
    ensures { OnOk result (all_conclusions made.new.items ≡ all_conclusions made.old.items
        ++ resolvents_with given.now other.now) }
{
    for i in 0..given.clause().len() as u64 {
        try_from(alloc, given, i, other, made)?;
    }
    Ok(())
}

// With each of some clauses.
fn resolve_with_each(
    alloc: Global,
    others: &[&Held],
    given: &Held,
    made: &mut Vec<Conclusion>,
) -> Result<(), AllocError>
    ensures { OnOk result (all_conclusions made.new.items ≡ all_conclusions made.old.items
        ++ flat_map (resolvents_with given.now) (lent others.now)) }
{
    for other in others {
        resolve_with(alloc, given, other, made)?;
    }
    Ok(())
}

/// Adds all that binary resolution makes of a given clause and the clauses that are held, in its order.
pub fn add_resolvents(
    alloc: Global,
    held: &HeldSet,
    given: &Held,
    made: &mut Vec<Conclusion>,
) -> Result<(), AllocError>
    ensures { OnOk result (all_conclusions made.new.items ≡ all_conclusions made.old.items
        ++ resolvents_of held.now given.now) }
{
    let others = opposing(alloc, held, given.clause())?;
    resolve_with_each(alloc, others.as_slice(), given, made)?;
    Ok(())
}

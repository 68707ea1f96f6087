// Clauses that may clash with others, found by their literals.
ghost use Rattle.std.specs.Prelude.{◌≡◌, ◌++◌, ◌∷◌, [], IfOk, OnOk, filter};
ghost use Rattle.std.specs.List.{flat_map};
ghost use Rattle.clause_index.specs.Numbered.{is_numbered};
ghost use Rattle.fol_core.specs.ClauseView.{literal_of};
ghost use Rattle.held_clauses.specs.Holding.{lent};
ghost use Rattle.prover_steps.specs.HeldOrder.{numbers_of};
ghost use Rattle.resolution.specs.Opposing.{opposes, numbers_against, numbers_by, nuclei_numbers};

use crate::partners::{ClashKind, is_satellite};
use clause_index::{HeldSet, add_numbers, all_numbered};
use fol_core::{Clause, Literal};
use held_clauses::Held;
use std::alloc::{AllocError, Global};

// Adds the numbers of the clauses that may clash with one literal.
fn add_opposing(held: &HeldSet, literal: &Literal, numbers: &mut Vec<u64>) -> Result<(), AllocError>
    ensures { OnOk result (numbers.new.items ≡ numbers.old.items
        ++ numbers_of (filter (opposes (literal_of literal.now)) held.now)) }
{
    let found = held.with_unifiable(!literal.positive, &literal.atom)?;
    add_numbers(found.as_slice(), numbers)?;
    Ok(())
}

// With each of some literals.
fn add_opposing_each(
    held: &HeldSet,
    literals: &[Literal],
    numbers: &mut Vec<u64>,
) -> Result<(), AllocError>
    ensures { OnOk result (numbers.new.items ≡ numbers.old.items
        ++ flat_map (λ l. numbers_of (filter (opposes (literal_of l)) held.now)) literals.now) }
{
    for literal in literals {
        add_opposing(held, literal, numbers)?;
    }
    Ok(())
}

// With the literals of a clause.
fn add_against(held: &HeldSet, clause: &Clause, numbers: &mut Vec<u64>) -> Result<(), AllocError>
    ensures { OnOk result (numbers.new.items ≡ numbers.old.items
        ++ numbers_against held.now clause.now) }
{
    add_opposing_each(held, clause.as_slice(), numbers)?;
    Ok(())
}

/// The clauses that may clash with a clause, by rising number.
pub fn opposing<'a>(
    alloc: Global,
    held: &'a HeldSet,
    clause: &Clause,
) -> Result<Vec<&'a Held>, AllocError>
    ensures { IfOk result (λ hs. lent hs.items
        ≡ filter (is_numbered (numbers_against held.now clause.now)) held.now) }
{
    let mut numbers = Vec::new(alloc);
    add_against(held, clause, &mut numbers)?;
    let found = all_numbered(alloc, held, numbers)?;
    Ok(found)
}

// Adds the numbers of the nuclei for a clause, if it may be a satellite.
#[tactic(auto, using(crate::proofs::Going::tried_none, crate::proofs::Going::tried_some))]
fn add_nuclei(
    kind: ClashKind,
    held: &HeldSet,
    satellite: &Held,
    numbers: &mut Vec<u64>,
) -> Result<(), AllocError>
    ensures { OnOk result (numbers.new.items ≡ numbers.old.items
        ++ numbers_by kind held.now satellite.now) }
{
    if !is_satellite(kind, satellite.clause()) {
        return Ok(());
    }
    add_against(held, satellite.clause(), numbers)?;
    Ok(())
}

// For each of some clauses.
fn add_nuclei_each(
    kind: ClashKind,
    held: &HeldSet,
    satellites: &[&Held],
    numbers: &mut Vec<u64>,
) -> Result<(), AllocError>
    ensures { OnOk result (numbers.new.items ≡ numbers.old.items
        ++ flat_map (numbers_by kind held.now) (lent satellites.now)) }
{
    for satellite in satellites {
        add_nuclei(kind, held, satellite, numbers)?;
    }
    Ok(())
}

// The clauses with one number, of which there is one at most.
fn numbered_as<'a>(
    alloc: Global,
    held: &'a HeldSet,
    number: u64,
) -> Result<Vec<&'a Held>, AllocError>
    ensures { IfOk result (λ hs. lent hs.items ≡ filter (is_numbered (number ∷ [])) held.now) }
{
    let mut one = Vec::new(alloc);
    one.push(number)?;
    let found = all_numbered(alloc, held, one)?;
    Ok(found)
}

/// The clause of a number, and those that may be nuclei where it is a satellite, by rising number.
pub fn nuclei_with<'a>(
    alloc: Global,
    kind: ClashKind,
    held: &'a HeldSet,
    number: u64,
) -> Result<Vec<&'a Held>, AllocError>
    ensures { IfOk result (λ hs. lent hs.items
        ≡ filter (is_numbered (nuclei_numbers kind held.now number)) held.now) }
{
    let satellites = numbered_as(alloc, held, number)?;
    let mut numbers = Vec::new(alloc);
    numbers.push(number)?;
    add_nuclei_each(kind, held, satellites.as_slice(), &mut numbers)?;
    let found = all_numbered(alloc, held, numbers)?;
    Ok(found)
}

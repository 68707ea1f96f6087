// Hyperresolution, and resolution with units.
ghost use Rattle.std.specs.Prelude.{◌≡◌, ◌++◌, ◌∷◌, [], ◌==◌, ℕ, List, not, false, nat_lt, if◌then◌else◌, IfOk, OnOk, filter, flat_map, length};
ghost use Rattle.derivation.specs.Places.{has_literal};
ghost use Rattle.held_clauses.specs.Holding.{lent};
ghost use Rattle.proof_words.specs.Written.{by_hyper, by_ur};
ghost use Rattle.prover_steps.specs.Clashing.{Partner, is_same_held, clashings, clashes_of, places_of, places_with, positive_partners, has_negative, hyperresolvents_of, unit_clashings, unit_resolvents_of};
ghost use Rattle.resolution.specs.Trying.{partners_by, clashing_word, all_tried};
ghost use Rattle.resolution.specs.View.{all_conclusions};
ghost use Rattle.resolution.specs.Ways.{StandForEach};

use crate::clashing::{Nucleus, Taken, clash_on};
use crate::conclusion::Conclusion;
use crate::opposing::nuclei_with;
use crate::partners::{ClashKind, Meetings, candidates_at, has_negative};
use clause_index::HeldSet;
use derivation::has_literal;
use fol_core::Clause;
use held_clauses::Held;
use std::alloc::{AllocError, Global};

// Whether a place is another one.
fn is_other(place: u64, left: u64) -> bool
    ensures { result ≡ not (place == left) }
{
    place != left
}

// Whether clauses have one number.
fn is_same(given: &Held, nucleus: &Held) -> bool
    ensures { result ≡ is_same_held given.now nucleus.now }
{
    given.number() == nucleus.number()
}

// A place, if it is wanted, with what may clash there.
fn add_place<'a>(
    alloc: Global,
    kind: ClashKind,
    nucleus: &Clause,
    place: u64,
    wanted: bool,
    held: &'a HeldSet,
    places: &mut Vec<Meetings<'a>>,
) -> Result<(), AllocError>
    ensures { OnOk result ((ks : List ℕ)
        → StandForEach nucleus.now (all_tried places.old.items) ks (partners_by kind held.now)
        → StandForEach nucleus.now (all_tried places.new.items)
        (ks ++ (if wanted then place ∷ [] else [])) (partners_by kind held.now)) }
{
    if !wanted {
        return Ok(());
    }
    let candidates = candidates_at(alloc, kind, nucleus, place, held)?;
    places.push(Meetings { place, candidates })?;
    Ok(())
}

// The negative places of a nucleus, each with what may clash there.
fn negative_places<'a>(
    alloc: Global,
    nucleus: &Clause,
    held: &'a HeldSet,
) -> Result<Vec<Meetings<'a>>, AllocError>
    ensures { IfOk result (λ ms. StandForEach nucleus.now (all_tried ms.items)
        (places_with false nucleus.now) (partners_by ClashKind.Hyper held.now)) }
{
    let kind = ClashKind::Hyper;
    let mut places = Vec::new(alloc);
    for place in 0..nucleus.len() as u64 {
        let wanted = has_literal(nucleus, false, place);
        add_place(alloc, kind, nucleus, place, wanted, held, &mut places)?;
    }
    Ok(places)
}

// All places but one, each with what may clash there.
fn other_places<'a>(
    alloc: Global,
    nucleus: &Clause,
    left: u64,
    held: &'a HeldSet,
) -> Result<Vec<Meetings<'a>>, AllocError>
    ensures { IfOk result (λ ms. StandForEach nucleus.now (all_tried ms.items)
        (filter (λ k. not (k == left)) (places_of nucleus.now))
        (partners_by ClashKind.Units held.now)) }
{
    let kind = ClashKind::Units;
    let mut places = Vec::new(alloc);
    for place in 0..nucleus.len() as u64 {
        let wanted = is_other(place, left);
        add_place(alloc, kind, nucleus, place, wanted, held, &mut places)?;
    }
    Ok(places)
}

// What becomes of a nucleus in all ways in which the given clause takes part.
fn add_clashes<'a>(
    alloc: Global,
    kind: ClashKind,
    given: &Held,
    nucleus: &'a Held,
    places: &[Meetings<'a>],
    made: &mut Vec<Conclusion>,
) -> Result<(), AllocError>
    ensures { OnOk result ((ks : List ℕ) (partners : List Partner)
        → StandForEach nucleus.now.clause (all_tried places.now) ks partners
        → all_conclusions made.new.items ≡ all_conclusions made.old.items
        ++ clashes_of (clashing_word kind) given.now nucleus.now (clashings ks partners)) }
{
    let mut clauses = Vec::new(alloc);
    clauses.push(nucleus.clause())?;
    let satellites = Vec::new(alloc);
    let mut taken = Taken {
        satellites,
        clauses,
    };
    let number = nucleus.number();
    let given_number = given.number();
    let here = Nucleus {
        kind,
        number,
        given: given_number,
    };
    let used = is_same(given, nucleus);
    clash_on(alloc, here, places, used, &mut taken, made)?;
    Ok(())
}

// What becomes of a clause as a nucleus, if it has a negative literal.
fn add_clashes_of(
    alloc: Global,
    held: &HeldSet,
    given: &Held,
    nucleus: &Held,
    made: &mut Vec<Conclusion>,
) -> Result<(), AllocError>
    ensures { OnOk result (all_conclusions made.new.items ≡ all_conclusions made.old.items
        ++ (if has_negative nucleus.now.clause
        then clashes_of by_hyper given.now nucleus.now (clashings
        (places_with false nucleus.now.clause) (positive_partners held.now)) else [])) }
{
    if !has_negative(nucleus.clause()) {
        return Ok(());
    }
    let places = negative_places(alloc, nucleus.clause(), held)?;
    let kind = ClashKind::Hyper;
    add_clashes(alloc, kind, given, nucleus, places.as_slice(), made)?;
    Ok(())
}

// What becomes of each of some clauses as a nucleus.
fn add_clashes_of_each(
    alloc: Global,
    held: &HeldSet,
    given: &Held,
    nuclei: &[&Held],
    made: &mut Vec<Conclusion>,
) -> Result<(), AllocError>
    ensures { OnOk result (all_conclusions made.new.items ≡ all_conclusions made.old.items
        ++ flat_map (λ n. if has_negative n.clause
        then clashes_of by_hyper given.now n (clashings
        (places_with false n.clause) (positive_partners held.now)) else []) (lent nuclei.now)) }
{
    for nucleus in nuclei {
        add_clashes_of(alloc, held, given, nucleus, made)?;
    }
    Ok(())
}

/// Adds all that hyperresolution makes of the clauses that are held, where the given clause takes part, in its order.
pub fn add_hyperresolvents(
    alloc: Global,
    held: &HeldSet,
    given: &Held,
    made: &mut Vec<Conclusion>,
) -> Result<(), AllocError>
    ensures { OnOk result (all_conclusions made.new.items ≡ all_conclusions made.old.items
        ++ hyperresolvents_of held.now given.now) }
{
    let nuclei = nuclei_with(alloc, ClashKind::Hyper, held, given.number())?;
    add_clashes_of_each(alloc, held, given, nuclei.as_slice(), made)?;
    Ok(())
}

// What becomes of a nucleus where one literal is left over.
fn add_with_units(
    alloc: Global,
    held: &HeldSet,
    given: &Held,
    nucleus: &Held,
    left: u64,
    made: &mut Vec<Conclusion>,
) -> Result<(), AllocError>
    ensures { OnOk result (all_conclusions made.new.items ≡ all_conclusions made.old.items
        ++ clashes_of by_ur given.now nucleus.now
        (unit_clashings held.now nucleus.now.clause left)) }
{
    let places = other_places(alloc, nucleus.clause(), left, held)?;
    let kind = ClashKind::Units;
    add_clashes(alloc, kind, given, nucleus, places.as_slice(), made)?;
    Ok(())
}

// What becomes of a clause as a nucleus, if it has two literals or more.
fn add_unit_clashes_of(
    alloc: Global,
    held: &HeldSet,
    given: &Held,
    nucleus: &Held,
    made: &mut Vec<Conclusion>,
) -> Result<(), AllocError>
    ensures { OnOk result (all_conclusions made.new.items ≡ all_conclusions made.old.items
        ++ (if nat_lt 1 (length nucleus.now.clause)
        then flat_map (λ left. clashes_of by_ur given.now nucleus.now
        (unit_clashings held.now nucleus.now.clause left)) (places_of nucleus.now.clause)
        else [])) }
{
    if nucleus.clause().len() <= 1 {
        return Ok(());
    }
    for left in 0..nucleus.clause().len() as u64 {
        add_with_units(alloc, held, given, nucleus, left, made)?;
    }
    Ok(())
}

// What becomes of each of some clauses as a nucleus.
fn add_unit_clashes_of_each(
    alloc: Global,
    held: &HeldSet,
    given: &Held,
    nuclei: &[&Held],
    made: &mut Vec<Conclusion>,
) -> Result<(), AllocError>
    ensures { OnOk result (all_conclusions made.new.items ≡ all_conclusions made.old.items
        ++ flat_map (λ n. if nat_lt 1 (length n.clause)
        then flat_map (λ left. clashes_of by_ur given.now n
        (unit_clashings held.now n.clause left)) (places_of n.clause)
        else []) (lent nuclei.now)) }
{
    for nucleus in nuclei {
        add_unit_clashes_of(alloc, held, given, nucleus, made)?;
    }
    Ok(())
}

/// Adds all that resolution with units makes of the clauses that are held, where the given clause takes part, in its order.
pub fn add_unit_resolvents(
    alloc: Global,
    held: &HeldSet,
    given: &Held,
    made: &mut Vec<Conclusion>,
) -> Result<(), AllocError>
    ensures { OnOk result (all_conclusions made.new.items ≡ all_conclusions made.old.items
        ++ unit_resolvents_of held.now given.now) }
{
    let nuclei = nuclei_with(alloc, ClashKind::Units, held, given.number())?;
    add_unit_clashes_of_each(alloc, held, given, nuclei.as_slice(), made)?;
    Ok(())
}

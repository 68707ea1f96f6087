// Partners taken for the places of a nucleus, one place after the other: what can't be unified so far is not gone on with.
ghost use Rattle.std.specs.Prelude.{◌≡◌, ◌++◌, ◌∷◌, [], ◌+◌, ◌==◌, ◌||◌, false, IfOk, OnOk, length};
ghost use Rattle.std.specs.List.{flat_map, list_any};
ghost use Rattle.inference.specs.Lent.{lent_clauses};
ghost use Rattle.proof_words.specs.Written.{written_first};
ghost use Rattle.resolution.specs.Trying.{clashing_word, partner_of, all_tried};
ghost use Rattle.resolution.specs.View.{all_conclusions};
ghost use Rattle.resolution.specs.Ways.{ways_of, is_tried, comes_of, IsStuck};

use crate::conclusion::{Concluded, Conclusion};
use crate::partners::{Candidate, ClashKind, Meetings};
use derivation::{First, Satellite};
use fol_core::Clause;
use inference::{can_clash, clash};
use std::alloc::{AllocError, Global};

/// A nucleus by its number, and the number of the given clause.
#[derive(Clone, Copy)]
pub struct Nucleus {
    pub kind: ClashKind,
    pub number: u64,
    pub given: u64,
}

/// The satellites that are taken so far, and the clauses of the nucleus and of these.
#[derive(Drop)]
pub struct Taken<'a> {
    pub satellites: Vec<Satellite>,
    pub clauses: Vec<&'a Clause>,
}

// The word of a step.
fn word_for(alloc: Global, nucleus: Nucleus, satellites: &[Satellite]) -> Result<First, AllocError>
    ensures { IfOk result (λ f. written_first f
        ≡ clashing_word nucleus.kind nucleus.number satellites.now) }
{
    let all = Vec::from_slice(alloc, satellites)?;
    match nucleus.kind {
        ClashKind::Hyper => Ok(First::Hyper(nucleus.number, all)),
        ClashKind::Units => Ok(First::Ur(nucleus.number, all)),
    }
}

// Whether it may be gone on with the satellites that are taken: no only where nothing is concluded with them alone.
fn may_go_on(alloc: Global, taken: &Taken) -> Result<bool, AllocError>
    ensures { IfOk result (λ on. on ≡ false
        → IsStuck taken.now.satellites.items (lent_clauses taken.now.clauses.items)) }
{
    if taken.satellites.is_empty() {
        return Ok(true);
    }
    let can = can_clash(alloc, taken.satellites.as_slice(), taken.clauses.as_slice())?;
    Ok(can)
}

// Whether the clause of a number is among some literals.
fn is_among(candidates: &[Candidate], number: u64) -> bool
    ensures { result ≡ list_any (λ c. number == c.held.now.number) candidates.now }
{
    candidates.iter().any(|c| number == c.held.number())
}

// Whether it is among those that are tried for places.
#[tactic(auto, using(crate::proofs::Clashes::tried_here, crate::proofs::Clashes::tried_behind, crate::proofs::Clashes::tried_end))]
fn is_tried(places: &[Meetings], number: u64) -> bool
    ensures { result ≡ is_tried number (all_tried places.now) }
{
    for place in places {
        if is_among(place.candidates.as_slice(), number) {
            return true;
        }
    }
    false
}

// Whether the given clause takes part where this one is taken.
fn is_used(used: bool, given: u64, number: u64) -> bool
    ensures { result ≡ (used || given == number) }
{
    used || given == number
}

// Whether it may still take part.
fn may_be_used(used: bool, places: &[Meetings], given: u64) -> bool
    ensures { result ≡ (used || is_tried given (all_tried places.now)) }
{
    used || is_tried(places, given)
}

// What comes of the satellites that are taken, for which places there are none left.
fn finish(
    alloc: Global,
    nucleus: Nucleus,
    used: bool,
    taken: &Taken,
    made: &mut Vec<Conclusion>,
) -> Result<(), AllocError>
    ensures { OnOk result (all_conclusions made.new.items ≡ all_conclusions made.old.items
        ++ comes_of (clashing_word nucleus.kind nucleus.number) nucleus.given used
        taken.now.satellites.items (lent_clauses taken.now.clauses.items) []) }
{
    if !used {
        return Ok(());
    }
    let satellites = taken.satellites.as_slice();
    let judged = clash(alloc, satellites, taken.clauses.as_slice())?;
    let Some(clause) = Concluded::of(alloc, judged)? else {
        return Ok(());
    };
    let first = word_for(alloc, nucleus, satellites)?;
    made.push(Conclusion { clause, first })?;
    Ok(())
}

/// Adds what comes of the satellites that are taken and all ways to go on.
#[cycle(clash)]
pub fn clash_on<'a>(
    alloc: Global,
    nucleus: Nucleus,
    places: &[Meetings<'a>],
    used: bool,
    taken: &mut Taken<'a>,
    made: &mut Vec<Conclusion>,
) -> Result<(), AllocError>
    requires { length taken.old.clauses.items ≡ length taken.old.satellites.items + 1 }
    ensures satellites { OnOk result (taken.new.satellites.items ≡ taken.old.satellites.items) }
    ensures clauses { OnOk result (taken.new.clauses.items ≡ taken.old.clauses.items) }
    ensures made { OnOk result (all_conclusions made.new.items ≡ all_conclusions made.old.items
        ++ flat_map (comes_of (clashing_word nucleus.kind nucleus.number) nucleus.given used
        taken.old.satellites.items (lent_clauses taken.old.clauses.items)) (ways_of (all_tried places.now))) }
{
    let Some((place, rest)) = places.split_first() else {
        return finish(alloc, nucleus, used, taken, made);
    };
    if !may_go_on(alloc, taken)? {
        return Ok(());
    }
    for candidate in &place.candidates {
        take_on(
            alloc,
            nucleus,
            place.place,
            candidate,
            rest,
            used,
            taken,
            made,
        )?;
    }
    Ok(())
}

// The ways with one partner for the first place that is left.
#[cycle(clash)]
fn take_on<'a>(
    alloc: Global,
    nucleus: Nucleus,
    place: u64,
    candidate: &Candidate<'a>,
    rest: &[Meetings<'a>],
    used: bool,
    taken: &mut Taken<'a>,
    made: &mut Vec<Conclusion>,
) -> Result<(), AllocError>
    requires { length taken.old.clauses.items ≡ length taken.old.satellites.items + 1 }
    ensures satellites { OnOk result (taken.new.satellites.items ≡ taken.old.satellites.items) }
    ensures clauses { OnOk result (taken.new.clauses.items ≡ taken.old.clauses.items) }
    ensures made { OnOk result (all_conclusions made.new.items ≡ all_conclusions made.old.items
        ++ flat_map (λ ms. comes_of (clashing_word nucleus.kind nucleus.number) nucleus.given used
        taken.old.satellites.items (lent_clauses taken.old.clauses.items)
        ((place, partner_of candidate.now) ∷ ms)) (ways_of (all_tried rest.now))) }
{
    let number = candidate.held.number();
    let uses = is_used(used, nucleus.given, number);
    if !may_be_used(uses, rest, nucleus.given) {
        return Ok(());
    }
    taken.satellites.push(Satellite {
        place,
        clause: number,
        literal: candidate.literal,
    })?;
    taken.clauses.push(candidate.held.clause())?;
    clash_on(alloc, nucleus, rest, uses, taken, made)?;
    let _satellite = taken.satellites.pop();
    let _clause = taken.clauses.pop();
    Ok(())
}

// Literals that are tried for the places of a nucleus.
ghost use Rattle.std.specs.Prelude.{◌≡◌, ◌++◌, ◌∷◌, [], not, map, if◌then◌else◌, IfOk, OnOk};
ghost use Rattle.std.specs.List.{list_any};
ghost use Rattle.held_clauses.specs.Holding.{lent};
ghost use Rattle.prover_steps.specs.Clashing.{has_negative};
ghost use Rattle.resolution.specs.Trying.{is_satellite, partners_in, partners_by, partner_of};
ghost use Rattle.resolution.specs.Ways.{StandFor};

use crate::meeting::may_clash;
use clause_index::HeldSet;
use fol_core::{Clause, Literal};
use held_clauses::Held;
use std::alloc::{AllocError, Global};

/// Whether satellites are clauses without a negative literal, or units.
#[derive(Clone, Copy)]
pub enum ClashKind {
    Hyper,
    Units,
}

/// A literal of a clause that is held.
#[derive(Drop)]
pub struct Candidate<'a> {
    pub held: &'a Held,
    pub literal: u64,
}

/// A place of a nucleus with the literals that may clash with the one there.
#[derive(Drop)]
pub struct Meetings<'a> {
    pub place: u64,
    pub candidates: Vec<Candidate<'a>>,
}

// Whether some literal is negative.
fn any_negative(literals: &[Literal]) -> bool
    ensures { result ≡ list_any (λ l. not l.positive) literals.now }
{
    literals.iter().any(|literal| !literal.positive)
}

/// Whether a clause has a negative literal.
#[tactic(auto, using(crate::proofs::Standing::negative_seen))]
pub fn has_negative(clause: &Clause) -> bool
    ensures { result ≡ has_negative clause.now }
{
    any_negative(clause.as_slice())
}

/// Whether a clause may be a satellite.
pub fn is_satellite(kind: ClashKind, clause: &Clause) -> bool
    ensures { result ≡ is_satellite kind clause.now }
{
    match kind {
        ClashKind::Hyper => !has_negative(clause),
        ClashKind::Units => clause.len() == 1,
    }
}

// One literal, if it may clash.
fn add_literal<'a>(
    nucleus: &Clause,
    place: u64,
    held: &'a Held,
    literal: u64,
    candidates: &mut Vec<Candidate<'a>>,
) -> Result<(), AllocError>
    ensures { OnOk result (StandFor nucleus.now place (map partner_of candidates.new.items)
        (map partner_of candidates.old.items ++ (held.now, literal) ∷ [])) }
{
    if !may_clash(nucleus, place, held.clause(), literal) {
        return Ok(());
    }
    candidates.push(Candidate { held, literal })?;
    Ok(())
}

// All literals of a clause.
fn add_literals<'a>(
    nucleus: &Clause,
    place: u64,
    held: &'a Held,
    candidates: &mut Vec<Candidate<'a>>,
) -> Result<(), AllocError>
    ensures { OnOk result (StandFor nucleus.now place (map partner_of candidates.new.items)
        (map partner_of candidates.old.items ++ partners_in held.now)) }
{
    for literal in 0..held.clause().len() as u64 {
        add_literal(nucleus, place, held, literal, candidates)?;
    }
    Ok(())
}

// Those of a clause, if it may be a satellite.
fn add_held<'a>(
    kind: ClashKind,
    nucleus: &Clause,
    place: u64,
    held: &'a Held,
    candidates: &mut Vec<Candidate<'a>>,
) -> Result<(), AllocError>
    ensures { OnOk result (StandFor nucleus.now place (map partner_of candidates.new.items)
        (map partner_of candidates.old.items
        ++ (if is_satellite kind held.now.clause then partners_in held.now else []))) }
{
    if !is_satellite(kind, held.clause()) {
        return Ok(());
    }
    add_literals(nucleus, place, held, candidates)?;
    Ok(())
}

// The literals of some clauses that may clash with the one at a place.
fn candidates_among<'a>(
    alloc: Global,
    kind: ClashKind,
    nucleus: &Clause,
    place: u64,
    held: &[&'a Held],
) -> Result<Vec<Candidate<'a>>, AllocError>
    ensures { IfOk result (λ cs. StandFor nucleus.now place (map partner_of cs.items)
        (partners_by kind (lent held.now))) }
{
    let mut candidates = Vec::new(alloc);
    for h in held {
        add_held(kind, nucleus, place, h, &mut candidates)?;
    }
    Ok(candidates)
}

/// The literals that may clash with the one at a place.
pub fn candidates_at<'a>(
    alloc: Global,
    kind: ClashKind,
    nucleus: &Clause,
    place: u64,
    held: &'a HeldSet,
) -> Result<Vec<Candidate<'a>>, AllocError>
    ensures { IfOk result (λ cs. StandFor nucleus.now place (map partner_of cs.items)
        (partners_by kind held.now)) }
{
    let literals = nucleus.as_slice();
    if place >= literals.len() as u64 {
        return Ok(Vec::new(alloc));
    }
    let literal = &literals[place as usize];
    let found = held.with_unifiable(!literal.positive, &literal.atom)?;
    let candidates = candidates_among(alloc, kind, nucleus, place, found.as_slice())?;
    Ok(candidates)
}

// Paramodulation between two clauses, by the equation, its side, the literal and the place.
ghost use Rattle.std.specs.Prelude.{◌≡◌, ◌++◌, true, if◌then◌else◌, [], OnOk};
ghost use Rattle.std.specs.List.{flat_map};
ghost use Rattle.derivation.specs.Places.{atom_at, has_literal};
ghost use Rattle.derivation.specs.Words.{side_of};
ghost use Rattle.fol_core.specs.TermView.{tree_of};
ghost use Rattle.held_clauses.specs.Holding.{lent};
ghost use Rattle.held_clauses.specs.Order.{greater_of};
ghost use Rattle.paramod.specs.Replacing.{site_of};
ghost use Rattle.paramod.specs.Sites.{replacing_side, atom_into, paramodulants_in, paramodulants_by, side_tried, literal_tried};
ghost use Rattle.prover_steps.specs.Clashing.{is_same_held};
ghost use Rattle.prover_steps.specs.Equalities.{paramodulants_into, paramodulants_with, paramodulants_of};
ghost use Rattle.resolution.specs.View.{all_conclusions};

use crate::adding::{add_below, add_from};
use crate::partners::partners;
use crate::sides::{is_taken, larger_side};
use crate::site::Site;
use clause_index::HeldSet;
use derivation::sides;
use fol_core::{Literal, Term};
use held_clauses::Held;
use resolution::Conclusion;
use std::alloc::{AllocError, Global};
use term_order::Precedence;

// Into one literal: of an equation whose left side is greater, into that side alone.
fn add_into(
    alloc: Global,
    precedence: &Precedence,
    site: &Site,
    atom: &Term,
    made: &mut Vec<Conclusion>,
) -> Result<(), AllocError>
    requires side { tree_of site.now.term.now ≡ replacing_side (site_of site.now) }
    requires atom { tree_of atom.now ≡ atom_into (site_of site.now) }
    ensures { OnOk result (all_conclusions made.new.items ≡ all_conclusions made.old.items
        ++ paramodulants_in (greater_of precedence.now) (site_of site.now)) }
{
    let Some(larger) = larger_side(precedence, atom)? else {
        return add_below(alloc, site, atom, made);
    };
    let mut path = Vec::new(alloc);
    path.push(1)?;
    add_from(alloc, site, larger, &mut path, made)?;
    Ok(())
}

// From one side of an equation into all literals.
fn add_by(
    alloc: Global,
    precedence: &Precedence,
    from: &Held,
    equation: u64,
    side: u64,
    term: &Term,
    into: &Held,
    made: &mut Vec<Conclusion>,
) -> Result<(), AllocError>
    requires { tree_of term.now ≡ side_of side (atom_at from.now.clause equation) }
    ensures { OnOk result (all_conclusions made.new.items ≡ all_conclusions made.old.items
        ++ paramodulants_by (greater_of precedence.now) from.now into.now equation side) }
{
    for (b, literal) in into.clause().as_slice().iter().enumerate() {
        let site = Site {
            from,
            equation,
            side,
            term,
            into,
            literal: b as u64,
        };
        add_into(alloc, precedence, &site, &literal.atom, made)?;
    }
    Ok(())
}

// From a side of an equation, if it is taken.
fn add_by_side(
    alloc: Global,
    precedence: &Precedence,
    from: &Held,
    equation: u64,
    side: u64,
    term: &Term,
    atom: &Term,
    into: &Held,
    made: &mut Vec<Conclusion>,
) -> Result<(), AllocError>
    requires atom { tree_of atom.now ≡ atom_at from.now.clause equation }
    requires side { tree_of term.now ≡ side_of side (tree_of atom.now) }
    ensures { OnOk result (all_conclusions made.new.items ≡ all_conclusions made.old.items
        ++ side_tried (greater_of precedence.now) from.now into.now equation side) }
{
    if !is_taken(precedence, side, term, atom)? {
        return Ok(());
    }
    add_by(alloc, precedence, from, equation, side, term, into, made)?;
    Ok(())
}

// From both sides of a positive equation, and from no other literal.
#[tactic(auto, using(crate::proofs::Taken::both_added))]
fn add_by_literal(
    alloc: Global,
    precedence: &Precedence,
    from: &Held,
    equation: u64,
    literal: &Literal,
    into: &Held,
    made: &mut Vec<Conclusion>,
) -> Result<(), AllocError>
    requires atom { tree_of literal.now.atom ≡ atom_at from.now.clause equation }
    requires sign { has_literal true from.now.clause equation ≡ literal.now.positive }
    ensures { OnOk result (all_conclusions made.new.items ≡ all_conclusions made.old.items
        ++ literal_tried (greater_of precedence.now) from.now into.now equation) }
{
    if !literal.positive {
        return Ok(());
    }
    let atom = &literal.atom;
    let Some((left, right)) = sides(atom) else {
        return Ok(());
    };
    add_by_side(alloc, precedence, from, equation, 1, left, atom, into, made)?;
    add_by_side(
        alloc, precedence, from, equation, 2, right, atom, into, made,
    )?;
    Ok(())
}

// From one clause into another.
fn add_between(
    alloc: Global,
    precedence: &Precedence,
    from: &Held,
    into: &Held,
    made: &mut Vec<Conclusion>,
) -> Result<(), AllocError>
    ensures { OnOk result (all_conclusions made.new.items ≡ all_conclusions made.old.items
        ++ paramodulants_into (greater_of precedence.now) from.now into.now) }
{
    for (a, literal) in from.clause().as_slice().iter().enumerate() {
        add_by_literal(alloc, precedence, from, a as u64, literal, into, made)?;
    }
    Ok(())
}

// Whether clauses have one number.
fn is_same(given: &Held, other: &Held) -> bool
    ensures { result ≡ is_same_held given.now other.now }
{
    given.number() == other.number()
}

// Into the given clause, from another one.
fn add_back(
    alloc: Global,
    precedence: &Precedence,
    given: &Held,
    other: &Held,
    made: &mut Vec<Conclusion>,
) -> Result<(), AllocError>
    ensures { OnOk result (all_conclusions made.new.items ≡ all_conclusions made.old.items
        ++ (if is_same_held given.now other.now then []
        else paramodulants_into (greater_of precedence.now) other.now given.now)) }
{
    if is_same(given, other) {
        return Ok(());
    }
    add_between(alloc, precedence, other, given, made)?;
    Ok(())
}

// With one clause: from the given clause, then into it.
fn add_with(
    alloc: Global,
    precedence: &Precedence,
    given: &Held,
    other: &Held,
    made: &mut Vec<Conclusion>,
) -> Result<(), AllocError>
    ensures { OnOk result (all_conclusions made.new.items ≡ all_conclusions made.old.items
        ++ paramodulants_with (greater_of precedence.now) given.now other.now) }
{
    add_between(alloc, precedence, given, other, made)?;
    add_back(alloc, precedence, given, other, made)?;
    Ok(())
}

// With each of some clauses.
fn add_with_each(
    alloc: Global,
    precedence: &Precedence,
    given: &Held,
    others: &[&Held],
    made: &mut Vec<Conclusion>,
) -> Result<(), AllocError>
    ensures { OnOk result (all_conclusions made.new.items ≡ all_conclusions made.old.items
        ++ flat_map (paramodulants_with (greater_of precedence.now) given.now)
        (lent others.now)) }
{
    for other in others {
        add_with(alloc, precedence, given, other, made)?;
    }
    Ok(())
}

/// Adds all that paramodulation makes of a given clause and the clauses that are held, from it and into it, in its order.
pub fn add_paramodulants(
    alloc: Global,
    precedence: &Precedence,
    held: &HeldSet,
    given: &Held,
    made: &mut Vec<Conclusion>,
) -> Result<(), AllocError>
    ensures { OnOk result (all_conclusions made.new.items ≡ all_conclusions made.old.items
        ++ paramodulants_of (greater_of precedence.now) held.now given.now) }
{
    let others = partners(alloc, precedence, held, given)?;
    add_with_each(alloc, precedence, given, others.as_slice(), made)?;
    Ok(())
}

// Clauses that may give something with a given clause, found by sides of equations and by terms. Others may be among them,
// which give nothing.
ghost use Rattle.std.specs.Prelude.{◌≡◌, IfOk, OnOk};
ghost use Rattle.std.specs.List.{flat_map};
ghost use Rattle.clause_index.specs.Numbered.{AddsAll};
ghost use Rattle.derivation.specs.Words.{side_of};
ghost use Rattle.fol_core.specs.ClauseView.{literal_of};
ghost use Rattle.fol_core.specs.TermView.{tree_of, tree_list};
ghost use Rattle.fol_core.specs.Tree.{trees_of};
ghost use Rattle.held_clauses.specs.Holding.{lent};
ghost use Rattle.held_clauses.specs.Order.{greater_of};
ghost use Rattle.paramod.specs.Partners.{terms_in, terms_among, terms_below, replacing, by_side, by_sides, by_terms, HavePartners};

use crate::sides::{is_taken, larger_side};
use clause_index::{HeldSet, all_numbered};
use derivation::sides;
use fol_core::{Literal, Term};
use held_clauses::Held;
use std::alloc::{AllocError, Global};
use term_order::Precedence;

// Adds the numbers of the clauses with a term that one side of an equation may replace, if it is taken.
fn add_by_side(
    precedence: &Precedence,
    held: &HeldSet,
    side: u64,
    term: &Term,
    atom: &Term,
    numbers: &mut Vec<u64>,
) -> Result<(), AllocError>
    requires { tree_of term.now ≡ side_of side (tree_of atom.now) }
    ensures { OnOk result (AddsAll numbers.old.items
        (by_side (greater_of precedence.now) held.now (tree_of atom.now) side) numbers.new.items) }
{
    if !is_taken(precedence, side, term, atom)? {
        return Ok(());
    }
    held.add_near_inside(term, numbers)?;
    Ok(())
}

// By both sides of a positive equation, and by no other literal.
fn add_by_sides(
    precedence: &Precedence,
    held: &HeldSet,
    literal: &Literal,
    numbers: &mut Vec<u64>,
) -> Result<(), AllocError>
    ensures { OnOk result (AddsAll numbers.old.items
        (by_sides (greater_of precedence.now) held.now (literal_of literal.now)) numbers.new.items) }
{
    if !literal.positive {
        return Ok(());
    }
    let atom = &literal.atom;
    let Some((left, right)) = sides(atom) else {
        return Ok(());
    };
    add_by_side(precedence, held, 1, left, atom, numbers)?;
    add_by_side(precedence, held, 2, right, atom, numbers)?;
    Ok(())
}

// By a term and those in it, of the clauses with a side that may replace it.
#[cycle(inside)]
fn add_inside(held: &HeldSet, term: &Term, numbers: &mut Vec<u64>) -> Result<(), AllocError>
    ensures { OnOk result (AddsAll numbers.old.items
        (flat_map (replacing held.now) (terms_in (tree_of term.now))) numbers.new.items) }
{
    match term {
        Term::Var(_) => Ok(()),
        Term::Elem(_) => {
            held.add_near_side(term, numbers)?;
            Ok(())
        }
        Term::App(_, terms) => {
            held.add_near_side(term, numbers)?;
            add_inside_each(held, &terms.items, numbers)?;
            Ok(())
        }
    }
}

// By each of some terms and those in it.
#[cycle(inside)]
fn add_inside_each(held: &HeldSet, terms: &[Term], numbers: &mut Vec<u64>) -> Result<(), AllocError>
    ensures { OnOk result (AddsAll numbers.old.items
        (flat_map (replacing held.now) (terms_among (trees_of (tree_list terms.now)))) numbers.new.items) }
{
    for term in terms {
        add_inside(held, term, numbers)?;
    }
    Ok(())
}

// By the terms below an atom.
fn add_below(held: &HeldSet, atom: &Term, numbers: &mut Vec<u64>) -> Result<(), AllocError>
    ensures { OnOk result (AddsAll numbers.old.items
        (flat_map (replacing held.now) (terms_below (tree_of atom.now))) numbers.new.items) }
{
    match atom {
        Term::Var(_) => Ok(()),
        Term::Elem(_) => Ok(()),
        Term::App(_, terms) => {
            add_inside_each(held, &terms.items, numbers)?;
            Ok(())
        }
    }
}

// By the terms of a literal that may be replaced.
fn add_by_terms(
    precedence: &Precedence,
    held: &HeldSet,
    literal: &Literal,
    numbers: &mut Vec<u64>,
) -> Result<(), AllocError>
    ensures { OnOk result (AddsAll numbers.old.items
        (by_terms (greater_of precedence.now) held.now (literal_of literal.now)) numbers.new.items) }
{
    let atom = &literal.atom;
    let Some(larger) = larger_side(precedence, atom)? else {
        add_below(held, atom, numbers)?;
        return Ok(());
    };
    add_inside(held, larger, numbers)?;
    Ok(())
}

// By the sides of each of some literals.
fn add_by_sides_each(
    precedence: &Precedence,
    held: &HeldSet,
    literals: &[Literal],
    numbers: &mut Vec<u64>,
) -> Result<(), AllocError>
    ensures { OnOk result (AddsAll numbers.old.items
        (flat_map (λ l. by_sides (greater_of precedence.now) held.now (literal_of l))
        literals.now) numbers.new.items) }
{
    for literal in literals {
        add_by_sides(precedence, held, literal, numbers)?;
    }
    Ok(())
}

// By the terms of each of them.
fn add_by_terms_each(
    precedence: &Precedence,
    held: &HeldSet,
    literals: &[Literal],
    numbers: &mut Vec<u64>,
) -> Result<(), AllocError>
    ensures { OnOk result (AddsAll numbers.old.items
        (flat_map (λ l. by_terms (greater_of precedence.now) held.now (literal_of l))
        literals.now) numbers.new.items) }
{
    for literal in literals {
        add_by_terms(precedence, held, literal, numbers)?;
    }
    Ok(())
}

/// Clauses by rising number: all into which a given clause may give something, or out of which, and maybe others.
pub fn partners<'a>(
    alloc: Global,
    precedence: &Precedence,
    held: &'a HeldSet,
    given: &Held,
) -> Result<Vec<&'a Held>, AllocError>
    ensures { IfOk result (λ hs. HavePartners (greater_of precedence.now) held.now given.now.clause
        (lent hs.items)) }
{
    let literals = given.clause().as_slice();
    let mut numbers = Vec::new(alloc);
    add_by_sides_each(precedence, held, literals, &mut numbers)?;
    add_by_terms_each(precedence, held, literals, &mut numbers)?;
    let found = all_numbered(alloc, held, numbers)?;
    Ok(found)
}

// The symbols that formulas have, and the elements that they name.
ghost use Rattle.std.specs.Prelude.{◌≡◌, ◌==◌, ◌<◌, ◌^◌};
ghost use Rattle.fol_core.specs.Tree.{trees_of};
ghost use Rattle.fol_core.specs.TermView.{tree_of};
ghost use Rattle.fol_core.specs.FormulaView.{fol_of};
ghost use Rattle.fol_core.specs.Bound.{has_symbol, have_symbol, uses_symbol};
ghost use Rattle.fol_core.specs.Occurs.{AreMarked, above_elements, above_all_elements, above_numerals};

use crate::formula::{Formula, Shape};
use crate::symbols::Sym;
use crate::term::{Term, Terms};

/// Marks the symbols of a formula, by their numbers; those without a place are passed over.
pub fn mark_symbols(formula: &Formula, marks: &mut [bool])
    ensures { AreMarked (λ s. uses_symbol s (fol_of formula.now.shape)) marks.old marks.new }
{
    mark_all(&formula.shape, marks);
}

fn mark_all(shape: &Shape, marks: &mut [bool])
    ensures { AreMarked (λ s. uses_symbol s (fol_of shape.now)) marks.old marks.new }
{
    match shape {
        Shape::True | Shape::False => {}
        Shape::Eq(sides) => {
            mark_term(sides.left(), marks);
            mark_term(sides.right(), marks);
        }
        Shape::Atom(relation, terms) => {
            mark(*relation, marks);
            mark_terms(terms, marks);
        }
        Shape::Not(part) | Shape::All(_, part) | Shape::Exists(_, part) => {
            mark_all(part.shape(), marks);
        }
        Shape::And(left, right) => {
            mark_all(left.shape(), marks);
            mark_all(right.shape(), marks);
        }
        Shape::Or(left, right) => {
            mark_all(left.shape(), marks);
            mark_all(right.shape(), marks);
        }
        Shape::If(left, right) => {
            mark_all(left.shape(), marks);
            mark_all(right.shape(), marks);
        }
        Shape::Iff(left, right) => {
            mark_all(left.shape(), marks);
            mark_all(right.shape(), marks);
        }
    }
}

fn mark_term(term: &Term, marks: &mut [bool])
    ensures { AreMarked (λ s. has_symbol s (tree_of term.now)) marks.old marks.new }
{
    match term {
        Term::Var(_) | Term::Elem(_) => {}
        Term::App(function, terms) => {
            mark(*function, marks);
            for term in &terms.items {
                mark_term(term, marks);
            }
        }
    }
}

fn mark_terms(terms: &Terms, marks: &mut [bool])
    ensures { AreMarked (λ s. have_symbol s (trees_of terms.now)) marks.old marks.new }
{
    for term in &terms.items {
        mark_term(term, marks);
    }
}

fn mark(symbol: Sym, marks: &mut [bool])
    ensures { AreMarked (λ s. s == symbol.0) marks.old marks.new }
{
    let place = symbol.0 as usize;
    if place < marks.len() {
        marks[place] = true;
    }
}

/// The least number above each element that a formula names, 0 where it names none.
pub fn above_numerals(formula: &Formula) -> u64
    ensures above { result ≡ above_numerals (fol_of formula.now.shape) }
    ensures few { result < 2 ^ 33 }
{
    above_all(&formula.shape)
}

fn above_all(shape: &Shape) -> u64
    ensures above { result ≡ above_numerals (fol_of shape.now) }
    ensures few { result < 2 ^ 33 }
{
    match shape {
        Shape::True | Shape::False => 0,
        Shape::Eq(sides) => above_term(sides.left()).max(above_term(sides.right())),
        Shape::Atom(_, terms) => above_terms(terms),
        Shape::Not(part) => above_all(part.shape()),
        Shape::And(left, right) => above_all(left.shape()).max(above_all(right.shape())),
        Shape::Or(left, right) => above_all(left.shape()).max(above_all(right.shape())),
        Shape::If(left, right) => above_all(left.shape()).max(above_all(right.shape())),
        Shape::Iff(left, right) => above_all(left.shape()).max(above_all(right.shape())),
        Shape::All(_, part) => above_all(part.shape()),
        Shape::Exists(_, part) => above_all(part.shape()),
    }
}

fn above_term(term: &Term) -> u64
    ensures above { result ≡ above_elements (tree_of term.now) }
    ensures few { result < 2 ^ 33 }
{
    match term {
        Term::Var(_) => 0,
        Term::Elem(element) => u64::from(*element) + 1,
        Term::App(_, terms) => {
            let mut above = 0;
            for term in &terms.items {
                above = above_term(term).max(above);
            }
            above
        }
    }
}

fn above_terms(terms: &Terms) -> u64
    ensures above { result ≡ above_all_elements (trees_of terms.now) }
    ensures few { result < 2 ^ 33 }
{
    let mut above = 0;
    for term in &terms.items {
        above = above_term(term).max(above);
    }
    above
}

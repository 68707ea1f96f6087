// Terms put in for variables.
ghost use Rattle.std.specs.Prelude.{◌≡◌, IfOk};
ghost use Rattle.fol_core.specs.FormulaView.{fol_of};
ghost use Rattle.fol_core.specs.TermView.{tree_of};
ghost use Rattle.fol_core.specs.Tree.{trees_of};
ghost use Rattle.fol_core.specs.Substitutions.{substitute, substitute_all};
ghost use Rattle.clausify.specs.Skolem.{substitute_in};
ghost use Rattle.clausify.specs.View.{put_by, substitution_kept};

use fol_core::{Shape, Sides, Sub, Term, Terms};
use indexmap::IndexMap;
use std::alloc::{AllocError, Global};

/// Terms that are found by their variables.
pub type Rows<'a> = IndexMap<u64, &'a Term>;

/// Of the terms that are given for a variable the last stands for it.
pub fn rows_of<'a>(alloc: Global, values: &'a [(u64, Term)]) -> Result<Rows<'a>, AllocError>
    ensures { IfOk result (λ rows. put_by rows ≡ substitution_kept values.now) }
{
    let mut rows = IndexMap::new(alloc);
    for value in values {
        rows.insert(value.0, &value.1)?;
    }
    Ok(rows)
}

// The term that stands for a variable, or the variable itself.
fn term_for(alloc: Global, x: u64, rows: &Rows<'_>) -> Result<Term, AllocError>
    ensures { IfOk result (λ t. tree_of t ≡ put_by rows.now x) }
{
    match rows.get(&x) {
        Some(term) => term.copy(alloc),
        None => Ok(Term::Var(x)),
    }
}

/// The term with terms put in for its variables.
pub fn substitute(alloc: Global, term: &Term, rows: &Rows<'_>) -> Result<Term, AllocError>
    ensures { IfOk result (λ t. tree_of t ≡ substitute (put_by rows.now) (tree_of term.now)) }
{
    match term {
        Term::Var(x) => term_for(alloc, *x, rows),
        Term::Elem(k) => Ok(Term::Elem(*k)),
        Term::App(s, terms) => {
            let mut made = Terms::new(alloc);
            for term in &terms.items {
                made.push(substitute(alloc, term, rows)?)?;
            }
            Ok(Term::App(*s, made))
        }
    }
}

/// The same of each of some terms.
pub fn substitute_all(alloc: Global, terms: &Terms, rows: &Rows<'_>) -> Result<Terms, AllocError>
    ensures { IfOk result (λ ts. trees_of ts ≡ substitute_all (put_by rows.now)
        (trees_of terms.now)) }
{
    let mut made = Terms::new(alloc);
    for term in &terms.items {
        made.push(substitute(alloc, term, rows)?)?;
    }
    Ok(made)
}

// The sides of an equation with terms put in.
fn put_in_sides(alloc: Global, sides: &Sides, rows: &Rows<'_>) -> Result<Sides, AllocError>
    ensures left { IfOk result (λ made. made.0 ≡ substitute (put_by rows.now) sides.now.0) }
    ensures right { IfOk result (λ made. made.1 ≡ substitute (put_by rows.now) sides.now.1) }
{
    let left = substitute(alloc, sides.left(), rows)?;
    let right = substitute(alloc, sides.right(), rows)?;
    Sides::new(alloc, left, right)
}

// A part with terms put in.
#[cycle(putting)]
fn part(alloc: Global, sub: &Sub, rows: &Rows<'_>) -> Result<Sub, AllocError>
    ensures { IfOk result (λ f. f ≡ substitute_in (put_by rows.now) sub.now) }
{
    let shape = substitute_in(alloc, &sub.shape, rows)?;
    Sub::new(alloc, shape)
}

/// A formula with terms put in for its variables; its quantifiers stay.
#[cycle(putting)]
pub fn substitute_in(alloc: Global, shape: &Shape, rows: &Rows<'_>) -> Result<Shape, AllocError>
    ensures { IfOk result (λ f. fol_of f ≡ substitute_in (put_by rows.now) (fol_of shape.now)) }
{
    Ok(match shape {
        Shape::True => Shape::True,
        Shape::False => Shape::False,
        Shape::Eq(sides) => Shape::Eq(put_in_sides(alloc, sides, rows)?),
        Shape::Atom(r, terms) => Shape::Atom(*r, substitute_all(alloc, terms, rows)?),
        Shape::Not(f) => Shape::Not(part(alloc, f, rows)?),
        Shape::And(f, g) => Shape::And(part(alloc, f, rows)?, part(alloc, g, rows)?),
        Shape::Or(f, g) => Shape::Or(part(alloc, f, rows)?, part(alloc, g, rows)?),
        Shape::If(f, g) => Shape::If(part(alloc, f, rows)?, part(alloc, g, rows)?),
        Shape::Iff(f, g) => Shape::Iff(part(alloc, f, rows)?, part(alloc, g, rows)?),
        Shape::All(x, f) => Shape::All(*x, part(alloc, f, rows)?),
        Shape::Exists(x, f) => Shape::Exists(*x, part(alloc, f, rows)?),
    })
}

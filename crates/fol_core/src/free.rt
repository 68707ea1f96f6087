// Free variables, and the closure of a formula.
ghost use Rattle.std.specs.Prelude.{◌≡◌, IfOk, OnOk, if◌then◌else◌};
ghost use Rattle.fol_core.specs.TermView.{tree_of};
ghost use Rattle.fol_core.specs.FormulaView.{fol_of};
ghost use Rattle.fol_core.specs.Tree.{trees_of};
ghost use Rattle.fol_core.specs.Free.{noted, joined, is_in, variables_of, variables_of_all, free_vars_of, closure_of};
ghost use Rattle.fol_core.specs.Outside.{outside};

use crate::formula::{Formula, Shape, Sub};
use crate::term::{Term, Terms};
use indexmap::IndexSet;
use std::alloc::{AllocError, Global};

/// The formula under a universal quantifier for each of its free variables, the first outermost.
#[tactic(auto, using(crate::proofs::Variables::closed_over_push))]
pub fn closure(alloc: Global, formula: &Formula) -> Result<Formula, AllocError>
    ensures shape { IfOk result (λ closed. fol_of closed.shape
        ≡ closure_of (fol_of formula.now.shape)) }
    ensures names { IfOk result (λ closed. closed.names ≡ formula.now.names) }
{
    let mut variables = free_vars(alloc, formula)?;
    let mut shape = formula.shape.copy(alloc)?;
    while let Some(x) = variables.pop() {
        shape = Shape::All(x, Sub::new(alloc, shape)?);
    }
    let names = formula.names.copy(alloc)?;
    Ok(Formula { shape, names })
}

/// The free variables of a formula, each once, by first free occurrence.
#[tactic(auto, using(crate::proofs::Variables::free_once))]
pub fn free_vars(alloc: Global, formula: &Formula) -> Result<Vec<u64>, AllocError>
    ensures { IfOk result (λ variables. variables.items ≡ free_vars_of (fol_of formula.now.shape)) }
{
    let mut bound = Vec::new(alloc);
    let mut found = IndexSet::new(alloc);
    add_free(&formula.shape, &mut bound, &mut found)?;
    found.iter().copied().collect(alloc)
}

// Adds the free variables of a formula that aren't bound around it.
#[tactic(auto, using(crate::proofs::Variables::joined_outside, crate::proofs::Variables::outside_push, crate::proofs::Variables::outside_none))]
fn add_free(
    shape: &Shape,
    bound: &mut Vec<u64>,
    found: &mut IndexSet<u64>,
) -> Result<(), AllocError>
    ensures found { OnOk result (found.new.keys
        ≡ joined found.old.keys (outside bound.old.items (free_vars_of (fol_of shape.now)))) }
    ensures bound { OnOk result (bound.new.items ≡ bound.old.items) }
{
    match shape {
        Shape::True | Shape::False => Ok(()),
        Shape::Eq(sides) => {
            add_variables(sides.left(), bound, found)?;
            add_variables(sides.right(), bound, found)
        }
        Shape::Atom(_, terms) => add_variables_of_all(terms, bound, found),
        Shape::Not(f) => add_free(&f.shape, bound, found),
        Shape::And(f, g) | Shape::Or(f, g) | Shape::If(f, g) | Shape::Iff(f, g) => {
            add_free(&f.shape, bound, found)?;
            add_free(&g.shape, bound, found)
        }
        Shape::All(x, f) | Shape::Exists(x, f) => {
            bound.push(*x)?;
            add_free(&f.shape, bound, found)?;
            bound.pop();
            Ok(())
        }
    }
}

// Adds the variables of a term that aren't bound around it.
#[tactic(auto, using(crate::proofs::Variables::variables_next, crate::proofs::Variables::variables_end, crate::proofs::Variables::outside_none, crate::proofs::Variables::joined_one))]
pub fn add_variables(
    term: &Term,
    bound: &[u64],
    found: &mut IndexSet<u64>,
) -> Result<(), AllocError>
    ensures { OnOk result (found.new.keys ≡ joined found.old.keys
        (outside bound.now (variables_of (tree_of term.now)))) }
{
    match term {
        Term::Var(x) => add(*x, bound, found),
        Term::Elem(_) => Ok(()),
        Term::App(_, terms) => {
            for term in &terms.items {
                add_variables(term, bound, found)?;
            }
            Ok(())
        }
    }
}

// Adds the variables of terms that aren't bound around them.
#[tactic(auto, using(crate::proofs::Variables::variables_next, crate::proofs::Variables::variables_end))]
fn add_variables_of_all(
    terms: &Terms,
    bound: &[u64],
    found: &mut IndexSet<u64>,
) -> Result<(), AllocError>
    ensures { OnOk result (found.new.keys ≡ joined found.old.keys
        (outside bound.now (variables_of_all (trees_of terms.now)))) }
{
    for term in &terms.items {
        add_variables(term, bound, found)?;
    }
    Ok(())
}

// Adds a variable unless it is bound.
fn add(x: u64, bound: &[u64], found: &mut IndexSet<u64>) -> Result<(), AllocError>
    ensures { OnOk result (found.new.keys ≡ (if is_in x bound.now then found.old.keys else noted
        found.old.keys x)) }
{
    if !is_among(x, bound) {
        found.insert(x)?;
    }
    Ok(())
}

fn is_among(x: u64, variables: &[u64]) -> bool
    ensures { result ≡ is_in x variables.now }
{
    variables.iter().any(|y| x == *y)
}

// What hints and demodulators are to be.
ghost use Rattle.std.specs.Prelude.{◌≡◌, IfOk, OnOk};
ghost use Rattle.std.specs.List.{list_all};
ghost use Rattle.fol_core.specs.FormulaView.{fol_of};
ghost use Rattle.fol_core.specs.Free.{is_in, joined, variables_of, variables_of_all};
ghost use Rattle.fol_core.specs.TermView.{tree_of};
ghost use Rattle.fol_core.specs.Tree.{trees_of};
ghost use Rattle.ladr_rules.specs.Shapes.{is_atom, is_hint, is_demodulator, is_variable_tree};

use fol_core::{Formula, Shape, Term, Terms};
use indexmap::IndexSet;
use std::alloc::{AllocError, Global};

/// Whether a formula is literals joined by `|`.
pub fn is_hint(formula: &Formula) -> bool
    ensures { result ≡ is_hint (fol_of formula.now.shape) }
{
    joins_literals(&formula.shape)
}

fn joins_literals(shape: &Shape) -> bool
    ensures { result ≡ is_hint (fol_of shape.now) }
{
    match shape {
        Shape::Or(left, right) => joins_literals(left.shape()) && joins_literals(right.shape()),
        Shape::Not(part) => is_atom(part.shape()),
        other => is_atom(other),
    }
}

fn is_atom(shape: &Shape) -> bool
    ensures { result ≡ is_atom (fol_of shape.now) }
{
    match shape {
        Shape::Eq(_) | Shape::Atom(_, _) => true,
        _ => false,
    }
}

/// Whether a formula is an equation whose left side is no variable and has each variable of the right.
pub fn is_demodulator(alloc: Global, formula: &Formula) -> Result<bool, AllocError>
    ensures { IfOk result (λ b. b ≡ is_demodulator (fol_of formula.now.shape)) }
{
    match &formula.shape {
        Shape::Eq(sides) if !is_variable(sides.left()) => {
            has_variables(alloc, sides.left(), sides.right())
        }
        _ => Ok(false),
    }
}

fn is_variable(term: &Term) -> bool
    ensures { result ≡ is_variable_tree (tree_of term.now) }
{
    match term {
        Term::Var(_) => true,
        Term::Elem(_) | Term::App(_, _) => false,
    }
}

// Whether a term has each variable of another.
fn has_variables(alloc: Global, term: &Term, other: &Term) -> Result<bool, AllocError>
    ensures { IfOk result (λ b. b ≡ list_all (λ x. is_in x (variables_of (tree_of term.now)))
        (variables_of (tree_of other.now))) }
{
    let mut found = IndexSet::new(alloc);
    add_variables(term, &mut found)?;
    Ok(are_found(&found, other))
}

#[tactic(auto, using(crate::proofs::Variables::joined_next, crate::proofs::Variables::joined_end))]
// Adds the variables of a term to a set.
fn add_variables(term: &Term, found: &mut IndexSet<u64>) -> Result<(), AllocError>
    ensures { OnOk result (found.new.keys ≡ joined found.old.keys
        (variables_of (tree_of term.now))) }
{
    match term {
        Term::Var(x) => {
            found.insert(*x)?;
            Ok(())
        }
        Term::Elem(_) => Ok(()),
        Term::App(_, terms) => {
            for part in &terms.items {
                add_variables(part, found)?;
            }
            Ok(())
        }
    }
}

#[tactic(auto, using(crate::proofs::Variables::all_next, crate::proofs::Variables::none_left))]
// Whether each variable of a term is in a set.
fn are_found(found: &IndexSet<u64>, term: &Term) -> bool
    ensures { result ≡ list_all (λ x. is_in x found.now.keys) (variables_of (tree_of term.now)) }
{
    match term {
        Term::Var(x) => found.contains(x),
        Term::Elem(_) => true,
        Term::App(_, terms) => {
            for part in &terms.items {
                if !are_found(found, part) {
                    return false;
                }
            }
            true
        }
    }
}

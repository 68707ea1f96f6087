// How many arguments each Skolem symbol has.
ghost use Rattle.std.specs.Prelude.{◌≡◌, ◌+◌, ◌++◌, length, replicate, IfOk, OnOk, map};
ghost use Rattle.fol_core.specs.FormulaView.{fol_of};
ghost use Rattle.fol_core.specs.EntryView.{some_over};
ghost use Rattle.clausify.specs.Fronts.{normal_of};
ghost use Rattle.clausify.specs.Input.{arities_in};
ghost use Rattle.clausify.specs.Skolem.{arities};

use crate::normal::Normal;
use fol_core::{Shape, Sub};
use std::alloc::{AllocError, Global};

// Adds the numbers of arguments for the existential variables of a negation normal form, under the
// universal variables of a scope.
#[cycle(arity)]
fn add_arities(shape: &Shape, scope: &mut Vec<u64>, found: &mut Vec<u64>) -> Result<(), AllocError>
    ensures found { OnOk result (found.new.items ≡ found.old.items
        ++ arities (length scope.old.items) (fol_of shape.now)) }
    ensures scope { OnOk result (scope.new.items ≡ scope.old.items) }
{
    match shape {
        Shape::And(f, g) | Shape::Or(f, g) => {
            add_part(f, scope, found)?;
            add_part(g, scope, found)
        }
        Shape::All(x, f) => {
            scope.push(*x)?;
            add_part(f, scope, found)?;
            scope.pop();
            Ok(())
        }
        Shape::Exists(_, f) => {
            found.push(scope.len() as u64)?;
            add_part(f, scope, found)
        }
        _ => Ok(()),
    }
}

// Those of a part.
#[cycle(arity)]
fn add_part(sub: &Sub, scope: &mut Vec<u64>, found: &mut Vec<u64>) -> Result<(), AllocError>
    ensures found { OnOk result (found.new.items ≡ found.old.items
        ++ arities (length scope.old.items) sub.now) }
    ensures scope { OnOk result (scope.new.items ≡ scope.old.items) }
{
    add_arities(&sub.shape, scope, found)
}

// Adds a Skolem constant for each of some variables.
fn add_constants(variables: &[u64], found: &mut Vec<u64>) -> Result<(), AllocError>
    ensures { OnOk result (found.new.items ≡ found.old.items
        ++ replicate (length variables.now) 0) }
{
    for _x in variables {
        found.push(0)?;
    }
    Ok(())
}

// Adds those of a form in front of which existential quantifiers stand.
#[tactic(auto, using(crate::proofs::Closures::some_found))]
fn add_under_some(
    alloc: Global,
    shape: &Shape,
    variables: &[u64],
    found: &mut Vec<u64>,
) -> Result<(), AllocError>
    ensures { OnOk result (found.new.items ≡ found.old.items
        ++ arities 0 (some_over variables.now (fol_of shape.now))) }
{
    add_constants(variables, found)?;
    add_arities(shape, &mut Vec::new(alloc), found)?;
    Ok(())
}

// Adds those of a form with its quantifiers in front.
#[tactic(auto, using(crate::proofs::Closures::closed_arities))]
fn add_of(alloc: Global, normal: &Normal, found: &mut Vec<u64>) -> Result<(), AllocError>
    ensures { OnOk result (found.new.items ≡ found.old.items
        ++ arities 0 (normal_of normal.now)) }
{
    if normal.plain {
        let mut scope = Vec::from_slice(alloc, &normal.variables)?;
        add_arities(&normal.shape, &mut scope, found)
    } else {
        add_under_some(alloc, &normal.shape, &normal.variables, found)
    }
}

/// The numbers of arguments of all Skolem symbols of a problem.
#[tactic(auto, using(crate::proofs::Closures::arities_next, crate::proofs::Closures::arities_end))]
pub fn all_arities(alloc: Global, normals: &[Normal]) -> Result<Vec<u64>, AllocError>
    ensures { IfOk result (λ found. found.items ≡ arities_in (map normal_of normals.now)) }
{
    let mut found = Vec::new(alloc);
    for normal in normals {
        add_of(alloc, normal, &mut found)?;
    }
    Ok(found)
}

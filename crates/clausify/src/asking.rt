// The variables that a formula asks for.
ghost use Rattle.std.specs.Prelude.{◌≡◌, ◌++◌, slice_index, IfOk, OnOk};
ghost use Rattle.clausify.specs.Asked.{asked_variables};
ghost use Rattle.fol_core.specs.FormulaView.{fol_of};
ghost use Rattle.fol_problem.specs.Asks.{prefix_of};

use fol_core::Shape;
use std::alloc::{AllocError, Global};

// Adds the variables of the quantifiers `exists` in front of a formula.
fn add_prefix(shape: &Shape, found: &mut Vec<u64>) -> Result<(), AllocError>
    ensures { OnOk result (found.new.items ≡ found.old.items ++ prefix_of (fol_of shape.now)) }
{
    match shape {
        Shape::Exists(x, f) => {
            found.push(*x)?;
            add_prefix(&f.shape, found)
        }
        _ => Ok(()),
    }
}

// The variable at a place, 0 behind the end.
fn variable_at(prefix: &[u64], place: u64) -> u64
    ensures { result ≡ slice_index prefix.now place }
{
    match prefix.get(place as usize) {
        Some(x) => *x,
        None => 0,
    }
}

/// The variables that a formula asks for, by their places among those of the quantifiers in front.
pub fn asked_variables(alloc: Global, shape: &Shape, places: &[u64]) -> Result<Vec<u64>, AllocError>
    ensures { IfOk result (λ xs. xs.items ≡ asked_variables (fol_of shape.now) places.now) }
{
    let mut found = Vec::new(alloc);
    let mut prefix = Vec::new(alloc);
    if !places.is_empty() {
        add_prefix(shape, &mut prefix)?;
    }
    for place in places {
        found.push(variable_at(&prefix, *place))?;
    }
    Ok(found)
}
